// What a reader sees of a refusal. Only here does a refusal have a number, which the format of its line asks for: the code knows it by its
// enum. `code` is a method of each enum and not of a trait, since no code is generic over the kind of a fault.
ghost use Rattle.std.specs.Prelude.{◌≡◌};
ghost use Rattle.lines.specs.Refusals.{text_code, check_code, table_kind, instrument_kind, site_named, number_named, run_code, register_code, image_code, code, refused_line};
ghost use Rattle.lines.specs.Writing.{written, written_after};

use crate::pen::BufferPen;
use crate::refusal::*;
use crate::writing::Printed;

impl TextFault {
    // The refusal's number and the first value that it names.
    pub fn code(self) -> (u16, usize)
        ensures number { result.0 ≡ (text_code self).number }
        ensures first { result.1 ≡ (text_code self).first }
    {
        match self {
            TextFault::TooLong => (10, 65536),
            TextFault::Grammar(place) => (11, place),
            TextFault::TooDeep(place) => (12, place),
            TextFault::TooMany(place) => (13, place),
            TextFault::Sheet(place) => (14, place),
        }
    }
}

impl CheckFault {
    // The refusal's number and the first value that it names.
    pub fn code(self) -> (u16, usize)
        ensures number { result.0 ≡ (check_code self).number }
        ensures first { result.1 ≡ (check_code self).first }
    {
        match self {
            CheckFault::Unbound(term) => (20, term),
            CheckFault::Elsewhere(term) => (21, term),
            CheckFault::Mismatch(part) => (22, part),
            CheckFault::BoundWorld(term) => (23, term),
            CheckFault::NotOnSheet(term) => (24, term),
        }
    }
}

impl Table {
    // The kinds of tables have numbers.
    pub fn kind(self) -> u16
        ensures { result ≡ table_kind self }
    {
        match self {
            Table::Frames => 1,
            Table::Bindings => 2,
            Table::Pairs => 3,
            Table::Published => 4,
            Table::Kept => 5,
        }
    }
}

impl From<Table> for u16 {
    ghost from_gives = { λ t n. n ≡ table_kind t };

    fn from(table: Table) -> u16 {
        table.kind()
    }
}

impl Instrument {
    // A gauge is 0, a gate is 1.
    pub fn kind(self) -> u16
        ensures { result ≡ instrument_kind self }
    {
        match self {
            Instrument::Gauge => 0,
            Instrument::Gate => 1,
        }
    }
}

impl From<Instrument> for u16 {
    ghost from_gives = { λ i n. n ≡ instrument_kind i };

    fn from(instrument: Instrument) -> u16 {
        instrument.kind()
    }
}

impl RunFault {
    // The refusal's number and the first value that it names.
    pub fn code(self) -> (u16, usize)
        ensures number { result.0 ≡ (run_code self).number }
        ensures first { result.1 ≡ (run_code self).first }
    {
        match self.fault {
            StepFault::Register(register) => (31, register.fault.site()),
            StepFault::Full(table) => (32, u16::from(table) as usize),
        }
    }
}

// Both faults carry the register, each in fields of its own: a fault with a register and a reason would be matched on twice.
impl RegisterFault {
    // The site of the register.
    pub fn site(self) -> usize
        ensures { result ≡ site_named self }
    {
        match self {
            RegisterFault::NotFitted { site, .. } | RegisterFault::Silent { site, .. } => site,
        }
    }

    // The number of the register.
    pub fn number(self) -> usize
        ensures { result ≡ number_named self }
    {
        match self {
            RegisterFault::NotFitted { number, .. } | RegisterFault::Silent { number, .. } =>
                number,
        }
    }

    // The refusal's number and the first value that it names.
    pub fn code(self) -> (u16, usize)
        ensures number { result.0 ≡ (register_code self).number }
        ensures first { result.1 ≡ (register_code self).first }
    {
        match self {
            RegisterFault::NotFitted { site, .. } => (40, site),
            RegisterFault::Silent { site, .. } => (41, site),
        }
    }
}

impl ImageFault {
    // The refusal's number and the first value that it names.
    pub fn code(self) -> (u16, usize)
        ensures number { result.0 ≡ (image_code self).number }
        ensures first { result.1 ≡ (image_code self).first }
    {
        match self {
            ImageFault::Length(length) => (42, length),
            ImageFault::Byte(place) => (43, place),
        }
    }
}

impl Refusal {
    // The refusal's number and the first value that it names.
    pub fn code(self) -> (u16, usize)
        ensures number { result.0 ≡ (code self).number }
        ensures first { result.1 ≡ (code self).first }
    {
        match self {
            Refusal::Text(fault) => fault.code(),
            Refusal::Check(fault) => fault.code(),
            Refusal::Nothing => (25, 0),
            Refusal::AnotherSheet(site) => (30, site),
            Refusal::Run(fault) => fault.code(),
            Refusal::NotDone => (33, 0),
            Refusal::ShortBuffer => (34, 0),
            Refusal::Register(fault) => fault.code(),
            Refusal::Image(fault) => fault.code(),
        }
    }

    // Writes the line that names the refusal by its number and first value.
    pub fn write_refused(self, out: &mut [u8]) -> Result<usize, Refusal>
        ensures value { result ≡ written (refused_line self) out.old }
        ensures after { out.new ≡ written_after (refused_line self) out.old }
    {
        Refused(self).write(out)
    }
}

// A refusal by its number and first value alone.
#[derive(Clone, Copy)]
struct Refused(Refusal);

impl Printed for Refused {
    ghost text = { λ r. refused_line r.0 };

    fn put(&self, pen: &mut BufferPen<'_>) -> Result<(), Short> {
        let (number, first) = self.0.code();
        pen.numbered(b"(refused ", number as usize)?;
        pen.numbered(b" ", first)?;
        pen.word(b")\n")
    }
}
