// The registers of a works, where a step asks or sets one.
ghost use Rattle.std.specs.Prelude.{◌≡◌, length};
ghost use Rattle.instruments.specs.Registers.{asked, done, set_after};
ghost use Rattle.machine.specs.Answers.{unanswered};
ghost use Rattle.lines.specs.declared.refusal.Instrument.TheVariants.{Gauge as a_gauge, Gate as a_gate};

use crate::parts::*;
use instruments::works::{Gauges, Works};

// What a gauge shows.
pub(crate) fn read_gauge<W: Works>(works: &W, site: u16, number: u16) -> Result<u16, Unanswered>
    ensures { result ≡ unanswered a_gauge (asked (W.Gauges.readings works.now) site number) }
{
    works
        .gauge(site as usize, number as usize)
        .map_err(|fault| Unanswered {
            instrument: Instrument::Gauge,
            fault,
        })
}

// Sets a gate.
pub(crate) fn set_gate<W: Works>(
    works: &mut W,
    site: u16,
    number: u16,
    value: u16,
) -> Result<(), Unanswered>
    ensures value { result ≡ unanswered a_gate (done (asked (W.Works.settings works.old) site number)) }
    ensures after { W.Works.settings works.new ≡ set_after (W.Works.settings works.old) site number value }
    ensures same { W.Gauges.readings works.new ≡ W.Gauges.readings works.old }
{
    works
        .set_gate(site as usize, number as usize, value)
        .map_err(|fault| Unanswered {
            instrument: Instrument::Gate,
            fault,
        })
}
