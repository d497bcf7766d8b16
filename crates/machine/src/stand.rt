// Where a machine stands, and the line that says so.
ghost use Rattle.std.specs.Prelude.{◌≡◌, ◌≤◌, []};
ghost use Rattle.lines.specs.Writing.{written, written_after};
ghost use Rattle.calculus.specs.Run.{stand_of};
ghost use Rattle.machine.specs.Meaning.{state_of};
ghost use Rattle.machine.specs.StandLine.{kept_places, published_places, work_of, stand_with, stand_told, phase_text, stand_line};

use crate::marks::Marks;
use crate::parts::*;
use lines::pen::BufferPen;
use lines::refusal::{Refusal, Short};
use lines::writing::Printed;

// What a machine is doing.
#[derive(Clone, Copy)]
enum Work {
    Evaluating,
    Returning,
    Finished,
}

// Where a machine stands, with the places taken in its tables and the registers touched.
#[derive(Clone, Copy)]
struct Stand {
    site: u16,
    work: Work,
    frames: usize,
    kept: usize,
    published: usize,
    touched: u16,
}

// How many continuations the sites keep, and how many values they have published.
fn places_in(rows: &[SiteRow]) -> (usize, usize)
    requires kept { kept_places rows.now ≤ 4096 }
    requires published { published_places rows.now ≤ 2048 }
    ensures kept { result.0 ≡ kept_places rows.now }
    ensures published { result.1 ≡ published_places rows.now }
{
    let continuations = rows.iter().map(|row| row.kept.len()).sum();
    let values = rows.iter().map(|row| row.published.len()).sum();
    (continuations, values)
}

impl Work {
    fn word(self) -> &'static [u8]
        ensures { result.now ≡ phase_text (work_of self) }
    {
        match self {
            Work::Evaluating => b"eval",
            Work::Returning => b"back",
            Work::Finished => b"done",
        }
    }
}

impl Printed for Stand {
    ghost text = { λ s. stand_line (stand_told s) };

    fn put(&self, pen: &mut BufferPen<'_>) -> Result<(), Short> {
        pen.numbered(b"(stand ", self.site as usize)?;
        pen.word(b" ")?;
        pen.word(self.work.word())?;
        pen.numbered(b" ", self.frames)?;
        pen.numbered(b" ", self.kept)?;
        pen.numbered(b" ", self.published)?;
        pen.numbered(b" ", self.touched as usize)?;
        pen.word(b")\n")
    }
}

impl State {
    fn work_shown(&self) -> Work
        ensures { work_of result ≡ (stand_of (state_of self.now) []).phase }
    {
        match self.phase {
            Phase::Eval { .. } => Work::Evaluating,
            Phase::Back(_) => {
                if self.is_done() {
                    Work::Finished
                } else {
                    Work::Returning
                }
            }
        }
    }

    // Where the machine stands.
    fn stand(&self, marks: &Marks) -> Stand
        ensures { stand_told result ≡ stand_with (state_of self.now) marks.now }
    {
        let rows = &self.store.rows[..];
        let (kept, published) = places_in(&rows[0..self.stations as usize]);
        Stand {
            site: self.site,
            work: self.work_shown(),
            frames: self.store.frames.len(),
            kept,
            published,
            touched: marks.count(),
        }
    }

    // Writes the line that says where the machine stands into a buffer, and answers its length. A buffer that is too short stays as
    // it is.
    pub(crate) fn write_stand(&self, marks: &Marks, out: &mut [u8]) -> Result<usize, Refusal>
        ensures value { result ≡ written (stand_line (stand_with (state_of self.now) marks.now)) out.old }
        ensures after { out.new ≡ written_after (stand_line (stand_with (state_of self.now) marks.now)) out.old }
    {
        self.stand(marks).write(out)
    }
}
