// Prints what every gauge of the bus image `works.img` shows, or why the image is refused.
#![tactic(auto)]

use anyhow::anyhow;
use instruments::image::Image;
use instruments::makes::NoImage;
use instruments::survey::survey;
use lines::refusal::Refusal;
use std::fs;
use std::io::Write;
use std::process::ExitCode;

// The longest survey has 512 lines of 20 bytes.
const ROOM: usize = 16384;

// The first bytes of a buffer are the answer.
fn print(rt: &HostRuntime, out: &[u8], written: Result<usize, Refusal>) -> anyhow::Result<()> {
    match written {
        Ok(length) if length <= out.len() => {
            rt.stdout().write_all(&out[0..length])?;
            Ok(())
        }
        _ => Err(anyhow!("the answer is longer than its buffer")),
    }
}

fn run(rt: &HostRuntime) -> anyhow::Result<()> {
    let bytes = fs::read(rt, "works.img")?;
    let mut out = vec![in rt.alloc(); 0u8; ROOM]?;
    let written = match Image::new(rt.alloc(), bytes.as_slice()) {
        Ok(image) => survey(&image, out.as_mut_slice()),
        Err(NoImage::Refused(fault)) => Refusal::Image(fault).write_refused(out.as_mut_slice()),
        Err(NoImage::Memory) => return Err(anyhow!("out of memory")),
    };
    print(rt, out.as_slice(), written)
}

// As in the other program, by hand: this and the check of a length are all that the two share, and no library of theirs would be plainer.
fn main(rt: HostRuntime) -> ExitCode {
    match run(&rt) {
        Ok(()) => ExitCode::SUCCESS,
        Err(error) => {
            let _ = eprintln!(rt; "survey: works.img: {error}");
            ExitCode::FAILURE
        }
    }
}
