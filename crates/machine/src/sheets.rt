// The sheet of a program against that of a works.
ghost use Rattle.std.specs.Prelude.{◌≡◌};
ghost use Rattle.instruments.specs.Sheets.{stations_of};
ghost use Rattle.calculus.specs.Calls.{differing, sheet_of};
ghost use Rattle.machine.specs.Answers.{shown};
ghost use Rattle.machine.specs.Sheets.{has_station};
ghost use Rattle.machine.specs.Store.{reads};

use instruments::sheet::{Sheet, Station};
use instruments::works::{Gauges, Works};

// Whether the works has the site, with as many gauges and gates as the station says.
fn same_station<W: Works>(works: &W, site: usize, station: Station) -> bool
    ensures { result ≡ has_station (shown (W.Gauges.readings works.now) (W.Works.settings works.now)) site station }
{
    site < works.sites()
        && station.gauges as usize == works.gauges(site)
        && station.gates as usize == works.gates(site)
}

// The lowest site at which the sheet and the works differ. Where one has more sites, that is the first that only it has.
pub(crate) fn differing_site<W: Works>(sheet: &Sheet, works: &W) -> Option<usize>
    ensures { reads result ≡ differing (stations_of sheet.now) (sheet_of (shown (W.Gauges.readings works.now) (W.Works.settings works.now))) }
{
    let stations = sheet.stations();
    for (site, station) in stations.iter().enumerate() {
        if !same_station(works, site, *station) {
            return Some(site);
        }
    }
    if stations.len() < works.sites() {
        Some(stations.len())
    } else {
        None
    }
}
