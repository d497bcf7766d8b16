// Reading a text into its place.
ghost use Rattle.std.specs.Prelude.{◌≡◌, IfOk};
ghost use Rattle.syntax.specs.Place.{place as place_of, answered, reads_into};
ghost use Rattle.syntax.specs.Place.Place.{empty};
ghost use Rattle.syntax.specs.Promises.{RefusedExactly, AcceptedExactly, ReadRight, ReadAll, ReadOne, ReadSound};
ghost use Rattle.syntax.specs.Spelt.{WrittenRight};

use crate::table::Program;
use crate::text::Text;
use crate::whole::read_into;
use lines::refusal::{Refusal, TextFault};
use std::alloc::{AllocError, Global};

impl Text {
    // An empty place, with room for every program.
    pub fn new(heap: Global) -> Result<Text, AllocError>
        ensures { IfOk result (λ t. place_of t ≡ empty) }
    {
        let program = Program::new(heap)?;
        let draft = Program::new(heap)?;
        Ok(Text {
            program,
            draft,
            full: false,
        })
    }

    // Reads a text. One that is refused leaves the place as it was. `refuses` and `accepts`: a text is refused exactly by the first
    // refusal that holds of it, and read exactly if none holds. `right`, `all`, `one`: what is read is the one program whose text the
    // bytes are, and the text of every program within the limits is read. `restored`: writing it gives the bytes again.
    pub fn read(&mut self, bytes: &[u8]) -> Result<(), Refusal>
        ensures value { result ≡ answered bytes.now }
        ensures after { place_of self.new ≡ reads_into (place_of self.old) bytes.now }
        ensures refuses { RefusedExactly }
        ensures accepts { AcceptedExactly }
        ensures right { ReadRight }
        ensures all { ReadAll }
        ensures one { ReadOne }
        ensures restored { WrittenRight }
        ensures sound { ReadSound }
    {
        if bytes.len() > 65536 {
            return Err(Refusal::Text(TextFault::TooLong));
        }
        read_into(bytes, &mut self.draft)?;
        std::mem::swap(&mut self.program, &mut self.draft);
        self.full = true;
        Ok(())
    }
}
