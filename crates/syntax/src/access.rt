// What a program's tables hold.
ghost use Rattle.std.specs.Prelude.{◌≡◌, MatchOption};
ghost use Rattle.instruments.specs.Sheets.{stations_of};
ghost use Rattle.syntax.specs.Place.{tables, place as place_of};
ghost use Rattle.syntax.specs.Place.Place.{empty, full as a_full};
ghost use Rattle.syntax.specs.Spelt.{type_at, nth_term};

use crate::program::{Term, Ty};
use crate::table::Program;
use crate::text::Text;
use instruments::sheet::Sheet;

impl Program {
    // The types, by their numbers.
    pub fn types(&self) -> &[Ty]
        ensures { result.now ≡ (tables self.now).types }
    {
        self.types.as_slice()
    }

    // The terms, by their numbers: the whole term has number 0.
    pub fn terms(&self) -> &[Term]
        ensures { result.now ≡ (tables self.now).terms }
    {
        self.terms.as_slice()
    }

    pub fn sheet(&self) -> Sheet
        ensures { stations_of result ≡ (tables self.now).stations }
    {
        self.sheet
    }

    // The site where the program starts.
    pub fn start(&self) -> u16
        ensures { result ≡ (tables self.now).start }
    {
        self.start
    }

    // The type with a number; one past the table is a number's.
    pub(crate) fn type_at(&self, number: u16) -> Ty
        ensures { result ≡ type_at (tables self.now).types number }
    {
        self.types.get(usize::from(number)).unwrap_or(Ty::Num)
    }

    // The term with a number; one past the table is the number 0.
    pub(crate) fn term_at(&self, number: u16) -> Term
        ensures { result ≡ nth_term (tables self.now).terms number }
    {
        self.terms.get(usize::from(number)).unwrap_or(Term::Num(0))
    }
}

impl Text {
    // The program, if a text was read.
    pub fn program(&self) -> Option<&Program>
        ensures { MatchOption result (place_of self.now ≡ empty) (λ p. place_of self.now ≡ a_full (tables p.now)) }
    {
        if self.full { Some(&self.program) } else { None }
    }
}
