// Which bytes are an image.
ghost use Rattle.std.specs.Prelude.{◌≡◌, ◌+◌, ◌*◌, ◌/◌, ◌≤◌, length};
ghost use Rattle.instruments.specs.Accepted.{site_bad, bad_from, accepted};
ghost use Rattle.instruments.specs.Made.{Made, image_bytes};
ghost use Rattle.instruments.specs.declared.makes.NoImage.TheVariants.{Memory as no_memory, Refused as an_image_fault};

use crate::image::Image;
use lines::refusal::ImageFault;
use std::alloc::{AllocError, Global};

// Why there is no image: the bytes are refused, or they are an image and there is no memory for it.
#[derive(Clone, Copy)]
pub enum NoImage {
    Refused(ImageFault),
    Memory,
}

// By hand, since what the derive of `thiserror` writes promises nothing.
impl From<ImageFault> for NoImage {
    ghost from_gives = { λ e r. r ≡ an_image_fault e };

    fn from(fault: ImageFault) -> NoImage {
        NoImage::Refused(fault)
    }
}

impl From<AllocError> for NoImage {
    ghost from_gives = { λ _ r. r ≡ no_memory };

    fn from(_error: AllocError) -> NoImage {
        NoImage::Memory
    }
}

// The first bad byte of a site. (Four tests and no search over an array of limits: that would hide which byte has which.)
fn bad_in_site(bytes: &[u8], site: usize) -> Option<usize>
    requires { (140 * site + 140 ≤ length bytes.now) × (length bytes.now ≤ 2240) }
    ensures { result ≡ site_bad bytes.now site }
{
    let start = 140 * site;
    if bytes[start] > 32 {
        Some(start)
    } else if bytes[start + 1] > 32 {
        Some(start + 1)
    } else if bytes[start + 2] != 0 {
        Some(start + 2)
    } else if bytes[start + 3] != 0 {
        Some(start + 3)
    } else {
        None
    }
}

// A `for`: that the first hit of `find_map` over the sites is `bad_from` was tried, and did not close.
fn first_bad(bytes: &[u8]) -> Option<usize>
    requires { length bytes.now ≤ 2240 }
    ensures { result ≡ bad_from bytes.now 0 (length bytes.now / 140) }
{
    for site in 0..bytes.len() / 140 {
        if let Some(place) = bad_in_site(bytes, site) {
            return Some(place);
        }
    }
    None
}

// Whether bytes are an image: 1 to 16 sites of 140 bytes, with counts of at most 32 and zero bytes that are zero.
pub fn check(bytes: &[u8]) -> Result<(), ImageFault>
    ensures { result ≡ accepted bytes.now }
{
    let length = bytes.len();
    if length < 140 || length > 2240 || length % 140 != 0 {
        return Err(ImageFault::Length(length));
    }
    match first_bad(bytes) {
        Some(place) => Err(ImageFault::Byte(place)),
        None => Ok(()),
    }
}

impl Image {
    // An image of its own of the caller's bytes.
    pub fn new(heap: Global, bytes: &[u8]) -> Result<Image, NoImage>
        ensures { Made bytes.now result }
    {
        check(bytes)?;
        let bytes = bytes.to_vec(heap)?;
        Ok(Image { bytes })
    }

    // The image's bytes.
    pub fn bytes(&self) -> &[u8]
        ensures { result.now ≡ image_bytes self.now }
    {
        self.bytes.as_slice()
    }
}
