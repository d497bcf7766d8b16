// What a bench does: it is made silent on a sheet, its registers are placed, and it is a works.
#![tactic(auto, using(crate::proofs::Sites::at_sites))]

ghost use Rattle.std.specs.Prelude.{◌≡◌, map, MatchResult, Some, None as nothing};
ghost use Rattle.std.specs.List.{slice_get};
ghost use Rattle.lines.specs.declared.refusal.RegisterFault.TheVariants.{NotFitted};
ghost use Rattle.instruments.specs.Items.{items_of};
ghost use Rattle.instruments.specs.Registers.{placed, with_register};
ghost use Rattle.instruments.specs.Sheets.{stations_of};
ghost use Rattle.instruments.specs.Benches.{bench_gauges, bench_gates, silent_gauges, silent_gates};
ghost use Rattle.instruments.specs.Fewness.{few_banks};
ghost use Rattle.std.proofs.Common.{rules};
ghost use Rattle.std.proofs.lemmas.List.{length-map};

use crate::bench::{Banks, Bench};
use crate::bounded::Bounded;
use crate::sheet::{Sheet, Station};
use crate::works::{Gauges, Works};
use lines::refusal::RegisterFault;

impl Bench {
    // A bench on a sheet: every register is fitted as the sheet says, and silent.
    pub fn new(sheet: &Sheet) -> Bench
        ensures gauges { bench_gauges result ≡ map silent_gauges (stations_of sheet.now) }
        ensures gates { bench_gates result ≡ map silent_gates (stations_of sheet.now) }
    {
        let mut sites = Bounded::filled(Banks::silent(Station::default()), 0);
        for station in sheet.stations() {
            sites.push(Banks::silent(*station));
        }
        Bench { sites }
    }

    // The registers of a site; `NotFitted`, of the register that was meant, where there is none.
    fn banks(&self, site: usize, number: usize) -> Result<&Banks, RegisterFault>
        ensures { MatchResult result (λ b. slice_get (items_of self.now.sites) site ≡ Some b.now) (λ e. (slice_get (items_of self.now.sites) site ≡ nothing) × (e ≡ NotFitted site number)) }
    {
        self.sites
            .get(site)
            .ok_or(RegisterFault::NotFitted { site, number })
    }

    // Places a number or silence at a gauge; `NotFitted` where there is none. Gauges and gates are placed by two calls of a few lines: one
    // for both would be handed the kind and match on it.
    pub fn place_gauge(
        &mut self,
        site: usize,
        number: usize,
        shows: Option<u16>,
    ) -> Result<(), RegisterFault>
        ensures value { result ≡ placed (bench_gauges self.old) site number }
        ensures after { bench_gauges self.new ≡ with_register (bench_gauges self.old) site number shows }
        ensures same { bench_gates self.new ≡ bench_gates self.old }
    {
        self.banks(site, number)?;
        // Written in its slot: a call that lends a `&mut` into an array that lies in the value gets no proof from the toolchain.
        let slots = &mut self.sites.slots[..];
        let banks = &mut slots[site];
        banks.gauges.place(site, number, shows)
    }

    // Places a number or silence at a gate; `NotFitted` where there is none.
    pub fn place_gate(
        &mut self,
        site: usize,
        number: usize,
        shows: Option<u16>,
    ) -> Result<(), RegisterFault>
        ensures value { result ≡ placed (bench_gates self.old) site number }
        ensures after { bench_gates self.new ≡ with_register (bench_gates self.old) site number shows }
        ensures same { bench_gauges self.new ≡ bench_gauges self.old }
    {
        self.banks(site, number)?;
        let slots = &mut self.sites.slots[..];
        let banks = &mut slots[site];
        banks.gates.place(site, number, shows)
    }
}

impl Gauges for Bench {
    ghost readings = { bench_gauges };

    ghost few = { λ b. few_banks (λ s. s.gauges) b.sites };

    fn sites(&self) -> usize {
        self.sites.len()
    }

    fn gauges(&self, site: usize) -> usize {
        self.sites.get(site).map_or(0, |at| at.gauges.width())
    }

    fn gauge(&self, site: usize, number: usize) -> Result<u16, RegisterFault> {
        self.banks(site, number)?.gauges.ask(site, number)
    }
}

impl Works for Bench {
    ghost settings = { bench_gates };

    ghost level = { λ w. Prim.search (rules, length-map) };

    ghost fewer = { λ b. few_banks (λ s. s.gates) b.sites };

    fn gates(&self, site: usize) -> usize {
        self.sites.get(site).map_or(0, |at| at.gates.width())
    }

    fn gate(&self, site: usize, number: usize) -> Result<u16, RegisterFault> {
        self.banks(site, number)?.gates.ask(site, number)
    }

    fn set_gate(&mut self, site: usize, number: usize, value: u16) -> Result<(), RegisterFault> {
        self.banks(site, number)?;
        let slots = &mut self.sites.slots[..];
        let banks = &mut slots[site];
        banks.gates.set(site, number, value)
    }
}
