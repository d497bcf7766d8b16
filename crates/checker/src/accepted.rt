// A place for an accepted program.
ghost use Rattle.std.specs.Prelude.{◌≡◌, true};
ghost use Rattle.checker.specs.Typed.{accepted_test, kept_laid, kept_sound};

use instruments::sheet::Sheet;
use rows::Rows;
use syntax::program::{Term, Ty};

// What is kept of a program beside its tables: how many of the types are written in its text, its sheet, the site where it starts, and
// the number of its type.
#[derive(Clone, Copy)]
pub struct Entry {
    pub(crate) written: usize,
    pub(crate) sheet: Sheet,
    pub(crate) start: u16,
    pub(crate) ty: u16,
}

// Empty, or with a program of its own that the typing rules give the type with number `ty`: the place carries its typing, so what comes
// later asks nothing of its caller.
#[derive(Drop)]
pub struct Accepted {
    pub(crate) types: Rows<Ty, 1536>,
    pub(crate) terms: Rows<Term, 1024>,
    pub(crate) entry: Option<Entry>,
    ghost laid: { kept_laid entry types.items ≡ true },
    ghost sound: { kept_sound entry types.items terms.items ≡ true },
    ghost typed: { accepted_test entry types.items terms.items ≡ true },
}
