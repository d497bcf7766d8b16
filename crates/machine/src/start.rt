// Empty tables, with all their memory taken at once.
ghost use Rattle.std.specs.Prelude.{◌≡◌, ◌<◌, ◌≤◌, length, IfOk};
ghost use Rattle.calculus.specs.Program.{Program};
ghost use Rattle.calculus.specs.Machine.{started as machine_started};
ghost use Rattle.machine.specs.Meaning.{state_of};
ghost use Rattle.machine.specs.Sound.{Each};
ghost use Rattle.machine.specs.Start.{NewRow, NewStore};

use crate::parts::*;
use rows::Rows;
use std::alloc::{AllocError, Global};

impl SiteRow {
    pub(crate) fn new(heap: Global) -> Result<SiteRow, AllocError>
        ensures { IfOk result NewRow }
    {
        let published = Rows::new(heap)?;
        let kept = Rows::new(heap)?;
        Ok(SiteRow { published, kept })
    }

    // Gives back all places of a site.
    fn clear(&mut self)
        ensures { NewRow self.new }
    {
        self.published.clear();
        self.kept.clear();
    }
}

// Gives back all places of all sites.
fn clear_rows(rows: &mut [SiteRow; 16])
    requires sixteen { length rows.old ≡ 16 }
    ensures sixteen { length rows.new ≡ 16 }
    ensures clear { Each (λ _ r. NewRow r) rows.new }
{
    for row in rows.iter_mut() {
        row.clear();
    }
}

impl Store {
    // Gives back all places; the memory stays reserved.
    fn clear(&mut self)
        requires { length self.old.rows ≡ 16 }
        ensures { NewStore self.new }
    {
        self.cells.clear();
        self.frames.clear();
        self.bindings = 0;
        self.pairs = 0;
        clear_rows(&mut self.rows);
    }

    pub(crate) fn new(heap: Global) -> Result<Store, AllocError>
        ensures { IfOk result NewStore }
    {
        let cells = Rows::new(heap)?;
        let frames = Rows::new(heap)?;
        let rows = std::array::try_from_fn(|_| SiteRow::new(heap))?;
        Ok(Store {
            cells,
            bindings: 0,
            pairs: 0,
            frames,
            rows,
        })
    }
}

impl State {
    // A state to start programs in, with no place taken: the start of a program of one site.
    pub(crate) fn new(heap: Global) -> Result<State, AllocError>
        ensures stations { IfOk result (λ s. s.stations ≡ 1) }
        ensures means { IfOk result (λ s. (P : Program) → length P.sheet ≡ 1 → P.start ≡ 0 → state_of s ≡ machine_started P) }
    {
        Ok(State {
            stations: 1,
            site: 0,
            continuation: Continuation::Finish,
            phase: Phase::Eval {
                term: 0,
                environment: Environment::Empty,
            },
            store: Store::new(heap)?,
        })
    }

    // Starts a program over so many sites, in the place of what was there.
    pub(crate) fn restart(&mut self, stations: u16, start: u16)
        requires few { stations ≤ 16 }
        requires within { start < stations }
        ensures stations { self.new.stations ≡ stations }
        ensures means { (P : Program) → length P.sheet ≡ stations → P.start ≡ start → state_of self.new ≡ machine_started P }
    {
        self.store.clear();
        self.stations = stations;
        self.site = start;
        self.continuation = Continuation::Finish;
        self.phase = Phase::Eval {
            term: 0,
            environment: Environment::Empty,
        };
    }
}
