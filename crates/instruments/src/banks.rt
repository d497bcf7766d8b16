// One bank of registers, and the two banks of a site.
ghost use Rattle.std.specs.Prelude.{◌≡◌, ◌≤◌, length, replicate, None as silence, slice_set};
ghost use Rattle.instruments.specs.Registers.{row_asked, row_after, row_placed, done};
ghost use Rattle.instruments.specs.Benches.{fitted, fitted_gauges, fitted_gates, silent_gauges, silent_gates};

use crate::bench::{Bank, Banks};
use crate::bounded::Bounded;
use crate::sheet::Station;
use lines::refusal::RegisterFault;

impl Bank {
    // So many silent registers, at most 32.
    fn silent(count: u8) -> Bank
        requires { count ≤ 32 }
        ensures { fitted result ≡ replicate count silence }
    {
        Bank {
            registers: Bounded::filled(None, count as usize),
        }
    }

    // How many registers are fitted.
    pub(crate) fn width(&self) -> usize
        ensures { result ≡ length (fitted self.now) }
    {
        self.registers.len()
    }

    pub(crate) fn ask(&self, site: usize, number: usize) -> Result<u16, RegisterFault>
        ensures { result ≡ row_asked (fitted self.now) site number }
    {
        match self.registers.get(number) {
            Some(Some(value)) => Ok(*value),
            Some(None) => Err(RegisterFault::Silent { site, number }),
            None => Err(RegisterFault::NotFitted { site, number }),
        }
    }

    pub(crate) fn place(
        &mut self,
        site: usize,
        number: usize,
        shows: Option<u16>,
    ) -> Result<(), RegisterFault>
        ensures value { result ≡ row_placed (fitted self.old) site number }
        ensures after { fitted self.new ≡ slice_set (fitted self.old) number shows }
    {
        if self.registers.set(number, shows) {
            Ok(())
        } else {
            Err(RegisterFault::NotFitted { site, number })
        }
    }

    pub(crate) fn set(
        &mut self,
        site: usize,
        number: usize,
        value: u16,
    ) -> Result<(), RegisterFault>
        ensures value { result ≡ done (row_asked (fitted self.old) site number) }
        ensures after { fitted self.new ≡ row_after (row_asked (fitted self.old) site number) (fitted self.old) number value }
    {
        self.ask(site, number)?;
        self.place(site, number, Some(value))
    }
}

impl Banks {
    // The registers of a station, all silent.
    pub(crate) fn silent(station: Station) -> Banks
        requires { (station.gauges ≤ 32) × (station.gates ≤ 32) }
        ensures gauges { fitted_gauges result ≡ silent_gauges station }
        ensures gates { fitted_gates result ≡ silent_gates station }
    {
        Banks {
            gauges: Bank::silent(station.gauges),
            gates: Bank::silent(station.gates),
        }
    }
}
