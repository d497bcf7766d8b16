// Making a sheet, and reading it.
ghost use Rattle.std.specs.Prelude.{◌≡◌, ◌≤◌, [], length};
ghost use Rattle.instruments.specs.Sheets.{stations_of, added, added_after};
ghost use Rattle.std.specs.List.{slice_get};

use crate::bounded::Bounded;
use crate::sheet::{Sheet, Station};

impl Sheet {
    // A sheet with no station.
    pub fn new() -> Sheet
        ensures { stations_of result ≡ [] }
    {
        Sheet {
            stations: Bounded::filled(Station::default(), 0),
        }
    }

    // Adds a station after the others; one too many, or one with too many registers, is not added.
    pub fn add(&mut self, station: Station) -> bool
        ensures value { result ≡ added (stations_of self.old) station }
        ensures after { stations_of self.new ≡ added_after (stations_of self.old) station }
    {
        station.gauges <= 32 && station.gates <= 32 && self.stations.push(station)
    }

    // How many stations there are.
    pub fn len(&self) -> usize
        ensures value { result ≡ length (stations_of self.now) }
        ensures bound { result ≤ 16 }
    {
        self.stations.len()
    }

    // The stations in order.
    pub fn stations(&self) -> &[Station]
        ensures { result.now ≡ stations_of self.now }
    {
        self.stations.as_slice()
    }

    // The station of a site.
    pub fn get(&self, site: usize) -> Option<Station>
        ensures { result ≡ slice_get (stations_of self.now) site }
    {
        self.stations().get(site).copied()
    }
}
