// A survey: a line for each gauge.
ghost use Rattle.std.specs.Prelude.{◌≡◌};
ghost use Rattle.lines.specs.Writing.{Writes, written, written_after};
ghost use Rattle.instruments.specs.Registers.{site_row};
ghost use Rattle.instruments.specs.Surveys.{gauge_line, site_text, survey_text};

use crate::works::Gauges;
use lines::pen::BufferPen;
use lines::refusal::{Refusal, Short};
use lines::writing::Printed;

fn put_gauge(
    pen: &mut BufferPen<'_>,
    site: usize,
    number: usize,
    shows: Option<u16>,
) -> Result<(), Short>
    ensures { Writes pen.old (gauge_line site number shows) result pen.new }
{
    match shows {
        Some(v) => {
            pen.numbered(b"(gauge ", site)?;
            pen.numbered(b" ", number)?;
            pen.numbered(b" ", v as usize)?;
            pen.word(b")\n")
        }
        None => {
            pen.numbered(b"(silent ", site)?;
            pen.numbered(b" ", number)?;
            pen.word(b")\n")
        }
    }
}

// What gauges show, in lines.
#[derive(Clone, Copy)]
struct GaugeLines<'a, G>(&'a G);

impl<G: Gauges> GaugeLines<'_, G> {
    // The lines of a site.
    fn put_site(&self, pen: &mut BufferPen<'_>, site: usize) -> Result<(), Short>
        ensures { Writes pen.old (site_text site 0 (site_row (G.Gauges.readings self.now.0.now) site)) result pen.new }
    {
        for number in 0..self.0.gauges(site) {
            let shows = self.0.gauge(site, number).ok();
            put_gauge(pen, site, number, shows)?;
        }
        Ok(())
    }
}

impl<G: Gauges> Printed for GaugeLines<'_, G> {
    ghost text = { λ s. survey_text (G.Gauges.readings s.0.now) };

    fn put(&self, pen: &mut BufferPen<'_>) -> Result<(), Short> {
        for site in 0..self.0.sites() {
            self.put_site(pen, site)?;
        }
        Ok(())
    }
}

// Writes a line for each gauge, site by site, into a buffer, and answers the length.
pub fn survey<G: Gauges>(gauges: &G, out: &mut [u8]) -> Result<usize, Refusal>
    ensures value { result ≡ written (survey_text (G.Gauges.readings gauges.now)) out.old }
    ensures after { out.new ≡ written_after (survey_text (G.Gauges.readings gauges.now)) out.old }
{
    GaugeLines(gauges).write(out)
}
