// The types of a scope list: building one, its parts, and holding one to another.
ghost use Rattle.std.specs.Prelude.{◌≡◌, ◌+◌, ◌<◌, ◌≤◌, length, slice_index_or};
ghost use Rattle.syntax.specs.declared.program.Ty.TheVariants.{Num as NumRow};
ghost use Rattle.checker.specs.TypeTable.{Laid, Below, Given};
ghost use Rattle.checker.specs.Scopes.{rows_of, meaning_of};
ghost use Rattle.checker.specs.Judging.{Built, carried_row, held};

use crate::context::Context;
use crate::types::TypeRows;
use lines::refusal::CheckFault;
use syntax::program::{Mobile, Ty};

impl Context {
    // Adds a type that is built from types of the table.
    pub(crate) fn build(&mut self, row: Ty) -> u16
        requires { length (rows_of self.old) < 1536 }
        ensures { Built self.old row result self.new }
    {
        let Some(number) = self.types.push(row) else {
            unreachable!()
        };
        number as u16
    }

    // The row of a type.
    pub(crate) fn row(&self, number: u16) -> Ty
        requires { number < length (rows_of self.now) }
        ensures { result ≡ slice_index_or (rows_of self.now) number NumRow }
    {
        self.types[number as usize]
    }

    // Whether a get may bring a value of a type.
    pub(crate) fn is_carried(&self, mobile: Mobile, number: u16) -> bool
        requires { number < length (rows_of self.now) }
        ensures { result ≡ carried_row mobile (slice_index_or (rows_of self.now) number NumRow) }
    {
        matches!(
            (mobile, self.row(number)),
            (Mobile::Code, Ty::Boxed(_)) | (Mobile::Address, Ty::At(_)) | (Mobile::Number, Ty::Num)
        )
    }

    // Holds the type of a part to a written type.
    pub(crate) fn expect(&self, given: u16, needed: u16, part: u16) -> Result<(), CheckFault>
        requires laid { Laid self.now.written (rows_of self.now) }
        requires given { given < length (rows_of self.now) }
        requires needed { needed < self.now.written }
        ensures { result ≡ held (meaning_of self.now given) (meaning_of self.now needed) part }
    {
        let types = TypeRows {
            rows: self.types.as_slice(),
            written: self.written,
        };
        if types.same(given, needed) {
            Ok(())
        } else {
            Err(CheckFault::Mismatch(part as usize))
        }
    }
}
