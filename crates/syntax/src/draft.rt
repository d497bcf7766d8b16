// What reading does to the tables.
ghost use Rattle.std.specs.Prelude.{◌≡◌, ◌<◌, ◌≤◌, [], ◌∷◌, ◌++◌, length, IfOk};
ghost use Rattle.syntax.specs.Place.{tables, blank, with_stations};

use crate::table::Program;
use instruments::sheet::{Sheet, Station};
use rows::Rows;
use std::alloc::{AllocError, Global};

impl Program {
    // Tables with nothing in them, and room for every program.
    pub(crate) fn new(heap: Global) -> Result<Program, AllocError>
        ensures { IfOk result (λ p. tables p ≡ blank) }
    {
        Ok(Program {
            types: Rows::new(heap)?,
            terms: Rows::new(heap)?,
            sheet: Sheet::new(),
            start: 0,
        })
    }

    // Takes everything out.
    pub(crate) fn clear(&mut self)
        ensures { tables self.new ≡ blank }
    {
        self.types.clear();
        self.terms.clear();
        self.sheet = Sheet::new();
        self.start = 0;
    }

    // A station line ends: its counts go onto the sheet.
    pub(crate) fn add_station(&mut self, gauges: u16, gates: u16)
        requires gauges { gauges ≤ 32 }
        requires gates { gates ≤ 32 }
        requires room { length (tables self.old).stations < 16 }
        ensures { tables self.new ≡ with_stations (tables self.old) ((tables self.old).stations ++ record { gauges = gauges; gates = gates } ∷ []) }
    {
        // Nothing is cut off, as the check proves: `try_from` would add an arm that no value reaches.
        let gauges = gauges as u8;
        let gates = gates as u8;
        self.sheet.add(Station { gauges, gates });
    }
}
