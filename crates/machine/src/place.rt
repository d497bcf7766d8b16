// A place for a started machine.
ghost use Rattle.machine.specs.Safe.{Carried};

use crate::marks::Marks;
pub use crate::parts::Run;
use crate::parts::State;
use instruments::sheet::Sheet;
use rows::Rows;
use syntax::program::{Term, Ty};

// What is kept of a program beside its tables: its sheet, and the site where it starts.
#[derive(Clone, Copy)]
pub(crate) struct Started {
    pub(crate) sheet: Sheet,
    pub(crate) start: u16,
}

// Empty, or full with a machine: its own copy of a program, its state, and the marks of the registers touched since the start. All
// memory is reserved when the place is made. What the place carries follows from the typing of the program that was started, so no call
// asks anything of its caller.
#[derive(Drop)]
pub struct Machine {
    pub(crate) types: Rows<Ty, 512>,
    pub(crate) terms: Rows<Term, 1024>,
    pub(crate) started: Option<Started>,
    pub(crate) state: State,
    pub(crate) marks: Marks,
    ghost carried: { ∥ Carried started terms.items state ∥₁ },
}
