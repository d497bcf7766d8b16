// An image is a works. Asking reads a register's bytes, setting writes the two bytes of a gate.
#![tactic(auto, using(crate::proofs::Wide::at_kinds))]

ghost use Rattle.std.specs.Prelude.{◌≡◌, ℕ, ◌+◌, ◌*◌, ◌/◌, ◌<◌, ◌≤◌, true, length, is_ok, if◌then◌else◌, Some, Ok, slice_index};
ghost use Rattle.instruments.specs.Registers.{site_row, asked, done, set_after};
ghost use Rattle.instruments.specs.Layout.{register as the_register, shown, image_gauges, image_gates, put_gate, Spelled, Foreign};
ghost use Rattle.instruments.specs.ShowsLemmas.{shown_few};
ghost use Rattle.std.proofs.Common.{rules};
ghost use Rattle.std.proofs.lemmas.List.FromFn.{length-map-range_with_len};

use crate::image::Image;
use crate::works::{Gauges, Works};
use lines::refusal::RegisterFault;

// Which bytes of a site the registers of one kind have: their count, and where their answer bits and their numbers begin.
#[derive(Clone, Copy)]
struct Fields {
    count: usize,
    bits: usize,
    numbers: usize,
    ghost within: { (count ≤ 1) × (bits ≤ 8) × (numbers ≤ 76) },
}

const GAUGES: Fields = Fields {
    count: 0,
    bits: 4,
    numbers: 12,
};

const GATES: Fields = Fields {
    count: 1,
    bits: 8,
    numbers: 76,
};

impl Image {
    // How many registers of a kind a site has.
    fn width(&self, kind: Fields, site: usize) -> usize
        ensures { result ≡ length (site_row (shown self.now.bytes.items kind.count kind.bits kind.numbers) site) }
    {
        if site < self.bytes.len() / 140 {
            self.bytes[140 * site + kind.count] as usize
        } else {
            0
        }
    }

    // What a register shows.
    fn register(&self, kind: Fields, site: usize, number: usize) -> Option<u16>
        requires { (site < length self.now.bytes.items / 140) × (number < 32) }
        ensures value { result ≡ the_register self.now.bytes.items site kind.bits kind.numbers number }
        ensures spelled { (v : ℕ) → result ≡ Some v → Spelled self.now.bytes.items site kind.numbers number v }
    {
        let answers = self.bytes[140 * site + kind.bits + number / 8];
        if (answers >> (number % 8)) % 2 == 1 {
            let at = 140 * site + kind.numbers + 2 * number;
            Some(u16::from_be_bytes([self.bytes[at], self.bytes[at + 1]]))
        } else {
            None
        }
    }

    // What asking a register answers.
    fn ask(&self, kind: Fields, site: usize, number: usize) -> Result<u16, RegisterFault>
        ensures value { result ≡ asked (shown self.now.bytes.items kind.count kind.bits kind.numbers) site number }
        ensures fits { is_ok result ≡ true → (site < length self.now.bytes.items / 140) × (number < slice_index self.now.bytes.items (140 * site + kind.count)) }
        ensures spelled { (v : ℕ) → result ≡ Ok v → Spelled self.now.bytes.items site kind.numbers number v }
    {
        if number >= self.width(kind, site) {
            return Err(RegisterFault::NotFitted { site, number });
        }
        self.register(kind, site, number)
            .ok_or(RegisterFault::Silent { site, number })
    }

    // Writes a number into the two bytes of a gate, the high byte first.
    fn put(&mut self, site: usize, number: usize, value: u16)
        requires { (site < length self.old.bytes.items / 140) × (number < 32) }
        ensures { self.new.bytes.items ≡ put_gate self.old.bytes.items site number value }
    {
        let at = 140 * site + GATES.numbers + 2 * number;
        let [high, low] = value.to_be_bytes();
        self.bytes[at] = high;
        self.bytes[at + 1] = low;
    }
}

impl Gauges for Image {
    ghost readings = { λ i. image_gauges i.bytes.items };

    ghost few = { λ g. shown_few g.bytes.items 0 4 12 g.whole g.gauges };

    fn sites(&self) -> usize {
        self.bytes.len() / 140
    }

    fn gauges(&self, site: usize) -> usize {
        self.width(GAUGES, site)
    }

    fn gauge(&self, site: usize, number: usize) -> Result<u16, RegisterFault>
        ensures value { result ≡ asked (image_gauges self.now.bytes.items) site number }
        ensures spelled { (v : ℕ) → result ≡ Ok v → Spelled self.now.bytes.items site 12 number v }
    {
        self.ask(GAUGES, site, number)
    }
}

// As at a bench, gauges and gates are asked by two calls of one line each, which name the kind.
impl Works for Image {
    ghost settings = { λ i. image_gates i.bytes.items };

    ghost level = { λ w. Prim.search (rules, length-map-range_with_len) };

    ghost fewer = { λ w. shown_few w.bytes.items 1 8 76 w.whole w.gates };

    fn gates(&self, site: usize) -> usize {
        self.width(GATES, site)
    }

    fn gate(&self, site: usize, number: usize) -> Result<u16, RegisterFault>
        ensures value { result ≡ asked (image_gates self.now.bytes.items) site number }
        ensures spelled { (v : ℕ) → result ≡ Ok v → Spelled self.now.bytes.items site 76 number v }
    {
        self.ask(GATES, site, number)
    }

    fn set_gate(&mut self, site: usize, number: usize, value: u16) -> Result<(), RegisterFault>
        ensures value { result ≡ done (asked (image_gates self.old.bytes.items) site number) }
        ensures after { image_gates self.new.bytes.items ≡ set_after (image_gates self.old.bytes.items) site number value }
        ensures same { image_gauges self.new.bytes.items ≡ image_gauges self.old.bytes.items }
        ensures bytes { self.new.bytes.items ≡ (if is_ok result then put_gate self.old.bytes.items site number value else self.old.bytes.items) }
        ensures foreign { Foreign self.old.bytes.items self.new.bytes.items site number }
        ensures spelled { is_ok result ≡ true → Spelled self.new.bytes.items site 76 number value }
    {
        self.ask(GATES, site, number)?;
        self.put(site, number, value);
        Ok(())
    }
}
