// A place for a program text.
ghost use Rattle.std.specs.Prelude.{◌≡◌, true};
ghost use Rattle.instruments.specs.Sheets.{stations_of};
ghost use Rattle.syntax.specs.Tests.{kept_test};

use crate::table::Program;

// Empty, or full with the program of the last text that was read; the draft is what a text is read into. What
// was read is sound: its numbers lead to rows that are there.
// The flag stands beside a program: the program that a place lends is one value with its tables, whose memory is reserved when the place
// is made, so that an empty place holds two programs too and an `Option` of one would give up its tables.
#[derive(Drop)]
pub struct Text {
    pub(crate) program: Program,
    pub(crate) draft: Program,
    pub(crate) full: bool,
    ghost sound: { kept_test full program.types.items program.terms.items (stations_of program.sheet) ≡ true },
}
