// What is bound in a chain of bindings. Values, worlds and continuations are counted apart, the innermost being 0.
ghost use Rattle.std.specs.Prelude.{◌≡◌, ℕ, ◌+◌, ◌<◌, ◌≤◌, true, length};
ghost use Rattle.std.proofs.Math.Option.{some};
ghost use Rattle.calculus.specs.Machine.{site_given, continuation_there};
ghost use Rattle.machine.specs.Answers.{is_some, scope};
ghost use Rattle.machine.specs.Meaning.{cells_of};
ghost use Rattle.machine.specs.Sound.{EnvironmentIn};
ghost use Rattle.machine.specs.Store.{reads};
ghost use Rattle.machine.specs.Lookups.{counted, passing, sought, as_found, Within};

use crate::parts::*;
use syntax::program::World;

impl Bound {
    // Whether counts of that kind count this binding: a table of two kinds, and no `==`, since a label is counted as a value is.
    fn counts(self, kind: Kind) -> bool
        ensures { result ≡ counted kind self }
    {
        match self {
            Bound::Value(_) => matches!(kind, Kind::Value),
            Bound::Label { .. } => matches!(kind, Kind::Value),
            Bound::World(_) => matches!(kind, Kind::World),
            Bound::Continuation { .. } => matches!(kind, Kind::Continuation),
        }
    }

    // The count that is left behind this binding; none where this is the one.
    fn pass(self, kind: Kind, count: u16) -> Option<u16>
        ensures { reads result ≡ passing kind self count }
    {
        if !self.counts(kind) {
            return Some(count);
        }
        if count == 0 { None } else { Some(count - 1) }
    }
}

impl State {
    // The binding of that kind under a count, if there is one.
    pub(crate) fn bound_at(&self, environment: Environment, kind: Kind, count: u16) -> Option<Bound>
        requires { EnvironmentIn (length self.now.store.cells.items) environment }
        ensures within { Within self.now.store.cells.items result }
        ensures found { sought kind (scope self.now environment) count ≡ as_found kind (cells_of self.now) result }
    {
        let mut at = environment;
        let mut left = count;
        while let Environment::Cell(place) = at {
            let Cell::Binding { bound, rest } = self.store.cell(place) else {
                return None;
            };
            let Some(fewer) = bound.pass(kind, left) else {
                return Some(bound);
            };
            left = fewer;
            at = rest;
        }
        None
    }

    // The site of a world that is bound.
    pub(crate) fn site_of(&self, environment: Environment, world: World) -> u16
        requires environment { EnvironmentIn (length self.now.store.cells.items) environment }
        requires bound { is_some (site_given (scope self.now environment) world) ≡ true }
        ensures { site_given (scope self.now environment) world ≡ some result }
    {
        match world {
            World::Site(site) => site,
            World::Bound(count) => {
                let Some(bound) = self.bound_at(environment, Kind::World, count) else {
                    unreachable()
                };
                let Bound::World(site) = bound else {
                    unreachable()
                };
                site
            }
        }
    }

    // The site and the number of a continuation that is bound.
    pub(crate) fn kept_of(&self, environment: Environment, count: u16) -> (u16, u16)
        requires environment { EnvironmentIn (length self.now.store.cells.items) environment }
        requires bound { is_some (continuation_there (scope self.now environment) count) ≡ true }
        ensures { continuation_there (scope self.now environment) count ≡ some (result.0, result.1) }
    {
        let Some(bound) = self.bound_at(environment, Kind::Continuation, count) else {
            unreachable()
        };
        let Bound::Continuation { site, kept } = bound else {
            unreachable()
        };
        (site, kept)
    }
}
