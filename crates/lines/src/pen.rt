// Text is written piece by piece. The same code runs twice: over an empty buffer, which shows whether the whole text fits, and then
// over the caller's. It stops at the limit, so its time is bounded by the buffer and not by the text.
#![tactic(auto, using(crate::proofs::Pens::then))]

ghost use Rattle.std.specs.Prelude.{◌≡◌, ◌+◌, ◌<◌, ◌++◌, length, decimal, is_err, true};
ghost use Rattle.lines.specs.Pens.{Writes};

use crate::refusal::Short;
use itoa::Buffer;

// Where the next byte of a text goes, and where the text has to end.
#[derive(Clone, Copy)]
pub struct Pen {
    pub at: usize,
    pub limit: usize,
}

// A pen with the buffer that its text goes into.
#[derive(Drop)]
pub struct BufferPen<'a> {
    pub out: &'a mut [u8],
    pub pen: Pen,
}

impl Pen {
    // A pen at the start of a text that has to end at the limit.
    pub fn new(limit: usize) -> Pen
        ensures at { result.at ≡ 0 }
        ensures limit { result.limit ≡ limit }
    {
        Pen { at: 0, limit }
    }

    // Takes a word. One that would pass the limit changes nothing; where the buffer does not reach, only the pen moves.
    pub fn word(&mut self, out: &mut [u8], word: &[u8]) -> Result<(), Short>
        ensures writes { Writes self.old out.old word.now result self.new out.new }
        ensures short { self.old.limit < self.old.at + length word.now → (is_err result ≡ true) × (self.new ≡ self.old) }
        ensures kept { length out.old < self.old.at + length word.now → out.new ≡ out.old }
        ensures same { self.old.limit < self.old.at + length word.now → out.new ≡ out.old }
    {
        if self.at > self.limit || self.limit - self.at < word.len() {
            return Err(Short);
        }
        let end = self.at + word.len();
        if end <= out.len() {
            out[self.at..end].copy_from_slice(word);
        }
        self.at = end;
        Ok(())
    }

    // Takes a number in decimal: one of one digit as that byte, which most numbers of a text are.
    pub fn number(&mut self, out: &mut [u8], n: usize) -> Result<(), Short>
        ensures { Writes self.old out.old (decimal n) result self.new out.new }
    {
        if n < 10 {
            return self.word(out, &[b'0' + n as u8]);
        }
        let mut digits = Buffer::new();
        self.word(out, digits.format(n).as_bytes())
    }

    // Takes a word and a number.
    pub fn numbered(&mut self, out: &mut [u8], word: &[u8], n: usize) -> Result<(), Short>
        ensures { Writes self.old out.old (word.now ++ decimal n) result self.new out.new }
    {
        self.word(out, word)?;
        self.number(out, n)
    }
}
