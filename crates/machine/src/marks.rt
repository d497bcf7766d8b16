// The marks of the registers touched, 1,024 in 128 bytes.
ghost use Rattle.std.specs.Prelude.{◌≡◌, ◌<◌, ◌≤◌, length, count_ones};
ghost use Rattle.calculus.specs.Marks.{no_marks, with_mark, marks_set};
ghost use Rattle.calculus.specs.Run.Register.{register};
ghost use Rattle.machine.specs.Answers.{instrument_of};
ghost use Rattle.machine.specs.Marks.{bits_of};

use lines::refusal::Instrument;
use std::marker::Model;

// How many bits of a byte are set.
fn ones_of(byte: u8) -> u16
    ensures value { result ≡ count_ones byte }
    ensures few { result ≤ 8 }
{
    byte.count_ones() as u16
}

// How many marks of bytes are set.
fn ones(bytes: &[u8]) -> u16
    requires { length bytes.now ≤ 128 }
    ensures { result ≡ marks_set (bits_of bytes.now) }
{
    bytes.iter().map(|byte| ones_of(*byte)).sum()
}

// A contract sees the marks one by one: mark m is bit m % 8 of byte m / 8. They are bytes and no set, since a place has all its memory from
// the start and its marks are counted by the ones of the bytes.
#[derive(Drop)]
pub(crate) struct Marks {
    bytes: [u8; 128],
}

impl Model for Marks {
    ghost use Rattle.calculus.specs.Marks.{Marks as Bits};
    ghost use Rattle.machine.specs.Marks.{bits_of};

    ghost Value = { Bits };

    ghost view = { λ m. bits_of m.bytes };
}

impl Marks {
    // No register is marked.
    pub(crate) fn new() -> Marks
        ensures { result ≡ no_marks }
    {
        Marks { bytes: [0; 128] }
    }

    // Sets the mark of a register: a site has 64, first those of its gauges and then those of its gates.
    pub(crate) fn mark(&mut self, instrument: Instrument, site: u16, number: u16)
        requires site { site < 16 }
        requires number { number < 32 }
        ensures { self.new ≡ with_mark (register (instrument_of instrument) site number) self.old }
    {
        let first = match instrument {
            Instrument::Gauge => 64 * site,
            Instrument::Gate => 64 * site + 32,
        };
        let index = first + number;
        let place = (index / 8) as usize;
        self.bytes[place] |= 1 << (index % 8);
    }

    // How many marks are set.
    pub(crate) fn count(&self) -> u16
        ensures { result ≡ marks_set self.now }
    {
        ones(&self.bytes)
    }
}
