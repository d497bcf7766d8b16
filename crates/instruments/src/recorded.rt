// A recorded sheet is gauges only: 16 sites of 32 gauges, of which the first matching row counts; a gauge without a row is silent.
#![tactic(auto, using(crate::proofs::Firsts::at_rows))]

ghost use Rattle.std.specs.Prelude.{◌≡◌, ◌==◌, ◌&&◌, [], IfOk, find as list_find};
ghost use Rattle.std.specs.Option.{option_map};
ghost use Rattle.instruments.specs.Records.{recorded as all_recorded, noted, noted_after};
ghost use Rattle.instruments.specs.Grid.{recorded_few};

use crate::record::{Recorded, Row};
use crate::works::Gauges;
use lines::refusal::RegisterFault;
use rows::Rows;
use std::alloc::{AllocError, Global};

fn find(rows: &[Row], site: usize, gauge: usize) -> Option<u16>
    ensures { result ≡ option_map (λ r. r.number) (list_find (λ r. r.site == site && r.gauge == gauge) rows.now) }
{
    rows.iter()
        .find(|row| row.site as usize == site && row.gauge as usize == gauge)
        .map(|row| row.number)
}

impl Recorded {
    // No row yet, and room for 4,096.
    pub fn new(heap: Global) -> Result<Recorded, AllocError>
        ensures { IfOk result (λ s. s.rows.items ≡ []) }
    {
        let rows = Rows::new(heap)?;
        Ok(Recorded { rows })
    }

    // Adds a row behind the others; the 4,097th is not added.
    pub fn add(&mut self, row: Row) -> bool
        ensures value { result ≡ noted self.old.rows.items }
        ensures after { self.new.rows.items ≡ noted_after self.old.rows.items row }
    {
        self.rows.push(row).is_some()
    }
}

impl Gauges for Recorded {
    ghost readings = { λ s. all_recorded s.rows.items };

    ghost few = { λ g. recorded_few g.rows.items };

    fn sites(&self) -> usize {
        16
    }

    fn gauges(&self, site: usize) -> usize {
        if site < 16 { 32 } else { 0 }
    }

    fn gauge(&self, site: usize, number: usize) -> Result<u16, RegisterFault> {
        if site >= 16 || number >= 32 {
            return Err(RegisterFault::NotFitted { site, number });
        }
        find(self.rows.as_slice(), site, number).ok_or(RegisterFault::Silent { site, number })
    }
}
