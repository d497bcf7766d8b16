// What holds of every works, whatever answers for its registers.
ghost use Rattle.std.specs.Prelude.{◌≡◌, ℕ, true, false, map, length, is_ok, Ok};
ghost use Rattle.instruments.specs.Registers.{asked, confirmed, Elsewhere};

use crate::works::{Gauges, Works};
use lines::refusal::RegisterFault;

// Sets a gate and answers what it shows then. A gate that was set shows the number; every other gate, every gauge and the sheet are as
// they were; a refusal changes nothing.
pub fn confirm<W: Works>(
    works: &mut W,
    site: usize,
    number: usize,
    value: u16,
) -> Result<u16, RegisterFault>
    ensures value { result ≡ confirmed (asked (W.Works.settings works.old) site number) value }
    ensures shows { is_ok result ≡ true → asked (W.Works.settings works.new) site number ≡ Ok value }
    ensures refused { is_ok result ≡ false → W.Works.settings works.new ≡ W.Works.settings works.old }
    ensures others { (s n : ℕ) → Elsewhere s n site number → asked (W.Works.settings works.new) s n ≡ asked (W.Works.settings works.old) s n }
    ensures sheet { map length (W.Works.settings works.new) ≡ map length (W.Works.settings works.old) }
    ensures gauges { W.Gauges.readings works.new ≡ W.Gauges.readings works.old }
{
    works.set_gate(site, number, value)?;
    works.gate(site, number)
}
