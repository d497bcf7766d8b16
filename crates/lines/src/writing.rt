// The pieces of a text: words and numbers. And what has a text, which is written whole or not at all.
ghost use Rattle.std.specs.Prelude.{◌≡◌, ◌+◌, ◌<◌, ◌≤◌, List, ℕ, ◌++◌, length, decimal, is_err, true};
ghost use Rattle.lines.specs.Writing.{Writes, written, written_after};

use crate::pen::{BufferPen, Pen};
use crate::refusal::{Refusal, Short};

impl<'a> BufferPen<'a> {
    // A pen at the start of a text that goes into the buffer and has to end at the limit.
    pub fn new(out: &'a mut [u8], limit: usize) -> BufferPen<'a>
        ensures same { result.out.ghost_name ≡ out.entry.ghost_name }
        ensures out { result.out.now ≡ out.old }
        ensures at { result.pen.at ≡ 0 }
        ensures limit { result.pen.limit ≡ limit }
    {
        let pen = Pen::new(limit);
        BufferPen { out, pen }
    }

    // Takes a word. One that would pass the limit changes nothing; where the buffer does not reach, only the pen moves.
    pub fn word(&mut self, word: &[u8]) -> Result<(), Short>
        ensures writes { Writes self.old word.now result self.new }
        ensures short { self.old.pen.limit < self.old.pen.at + length word.now → (is_err result ≡ true) × (self.new ≡ self.old) }
        ensures kept { length self.old.out.now < self.old.pen.at + length word.now → self.new.out.now ≡ self.old.out.now }
    {
        self.pen.word(self.out, word)
    }

    // Takes a number in decimal.
    pub fn number(&mut self, n: usize) -> Result<(), Short>
        ensures { Writes self.old (decimal n) result self.new }
    {
        self.pen.number(self.out, n)
    }

    // Takes a word and a number.
    pub fn numbered(&mut self, word: &[u8], n: usize) -> Result<(), Short>
        ensures { Writes self.old (word.now ++ decimal n) result self.new }
    {
        self.pen.numbered(self.out, word, n)
    }
}

// What has a text. A trait of its own and not `Display`, which promises nothing where it answers an error: no call over it could be held
// to write whatever fits.
pub trait Printed {
    ghost text: { Self → List ℕ };

    // Puts the text behind what the pen has written.
    fn put(&self, pen: &mut BufferPen<'_>) -> Result<(), Short>
        ensures { Writes pen.old (text self.now) result pen.new };

    // Writes the text into a buffer, and answers its length. A buffer that is too short stays as it is.
    final fn write(&self, out: &mut [u8]) -> Result<usize, Refusal>
        ensures value { result ≡ written (text self.now) out.old }
        ensures after { out.new ≡ written_after (text self.now) out.old }
    {
        let limit = out.len();
        let mut nothing = [0u8; 0];
        self.put(&mut BufferPen::new(&mut nothing, limit))?;
        let mut pen = BufferPen::new(out, limit);
        self.put(&mut pen)?;
        Ok(pen.pen.at)
    }
}
