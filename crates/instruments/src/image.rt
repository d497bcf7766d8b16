// A bus image: the registers of a works as 140 bytes a site.
ghost use Rattle.instruments.specs.Layout.{Whole, Counts};

// Byte 0 counts the gauges and byte 1 the gates, bytes 2 and 3 are zero. Four bytes of answer bits for the gauges follow, and four
// for the gates; register n is bit n mod 8, counted from the lowest, of byte n div 8, and a bit 0 is silence. Then come 32 gauges
// and 32 gates of two bytes each, the high byte first.
#[derive(Drop)]
pub struct Image {
    pub(crate) bytes: Vec<u8>,
    ghost whole: { Whole bytes.items },
    ghost gauges: { Counts bytes.items 0 },
    ghost gates: { Counts bytes.items 1 },
}
