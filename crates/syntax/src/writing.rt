// Writing the text of a program back.
ghost use Rattle.std.specs.Prelude.{◌≡◌};
ghost use Rattle.lines.specs.Writing.{Writes};
ghost use Rattle.syntax.specs.Place.{tables, place as place_of};
ghost use Rattle.syntax.specs.Spelt.{station_line, station_lines, text_of, written_back, written_back_after, WrittenRight};

use crate::table::Program;
use crate::text::Text;
use instruments::sheet::Station;
use lines::pen::BufferPen;
use lines::refusal::{Refusal, Short};
use lines::writing::Printed;

fn put_station(pen: &mut BufferPen<'_>, station: Station) -> Result<(), Short>
    ensures { Writes pen.old (station_line station) result pen.new }
{
    pen.numbered(b"(station ", station.gauges as usize)?;
    pen.numbered(b" ", station.gates as usize)?;
    pen.word(b")\n")
}

impl Program {
    fn put_stations(&self, pen: &mut BufferPen<'_>) -> Result<(), Short>
        ensures { Writes pen.old (station_lines (tables self.now).stations) result pen.new }
    {
        for station in self.sheet.stations() {
            put_station(pen, *station)?;
        }
        Ok(())
    }
}

impl Printed for Program {
    ghost text = { λ p. text_of (tables p) };

    fn put(&self, pen: &mut BufferPen<'_>) -> Result<(), Short> {
        self.put_stations(pen)?;
        pen.numbered(b"(run ", self.start as usize)?;
        pen.word(b" ")?;
        self.put_term(pen, 0, 64)?;
        pen.word(b")\n")
    }
}

impl Text {
    // Writes the text of what was read into a buffer, and answers its length. A buffer that is too short stays as it is.
    pub fn write(&self, out: &mut [u8]) -> Result<usize, Refusal>
        ensures value { result ≡ written_back (place_of self.now) out.old }
        ensures after { out.new ≡ written_back_after (place_of self.now) out.old }
    {
        if !self.full {
            return Err(Refusal::Nothing);
        }
        self.program.write(out)
    }
}

// The theorem of writing.
pub fn writing_stands()
    ensures { WrittenRight }
{}
