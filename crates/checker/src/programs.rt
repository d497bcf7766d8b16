// What a place for an accepted program holds.
ghost use Rattle.std.specs.Prelude.{◌≡◌, MatchOption};
ghost use Rattle.checker.specs.Accepting.{place as place_of};
ghost use Rattle.checker.specs.Accepting.Place.{empty};
ghost use Rattle.checker.specs.Holding.{Views, Carries};

use crate::accepted::Accepted;
use syntax::program::{Term, Ty};

// The tables of an accepted program, and the site where it starts.
#[derive(Clone, Copy)]
pub struct Tables<'a> {
    pub types: &'a [Ty],
    pub terms: &'a [Term],
    pub start: u16,
}

impl Accepted {
    // The tables of the program, if one was accepted. `carries`: they are sound, and the rules give the program its type.
    pub fn program(&self) -> Option<Tables<'_>>
        ensures is { MatchOption result (place_of self.now ≡ empty) (λ t. Views (place_of self.now) t.types.now t.terms.now t.start) }
        ensures carries { Carries (place_of self.now) }
    {
        let entry = self.entry?;
        Some(Tables {
            types: &self.types[..entry.written],
            terms: self.terms.as_slice(),
            start: entry.start,
        })
    }
}
