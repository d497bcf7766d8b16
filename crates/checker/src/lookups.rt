// Bound values and continuations by their counts, worlds, and registers of the sheet.
ghost use Rattle.std.specs.Prelude.{◌≡◌, ◌<◌, ◌≤◌, length};
ghost use Rattle.instruments.specs.Sheets.{stations_of};
ghost use Rattle.checker.specs.Scopes.{values_of, continuations_of, world_of};
ghost use Rattle.checker.specs.Lookups.{innermost, Located, registers_there, registered};

use crate::context::{At, Bound, Context};
use crate::spot::Spot;
use instruments::sheet::Sheet;
use lines::refusal::{CheckFault, Instrument};
use syntax::program::World;

// The bound thing of a count, the innermost being 0.
pub(crate) fn bound_at(bound: &[Bound], count: u16) -> Option<Bound>
    ensures { result ≡ innermost bound.now count }
{
    let count = count as usize;
    if count < bound.len() {
        Some(bound[bound.len() - 1 - count])
    } else {
        None
    }
}

impl Context {
    // The values that are bound, and below the continuations: two lists of one record, of which each call wants one.
    pub(crate) fn bound_values(&self) -> &[Bound]
        requires { self.now.height.values ≤ 1024 }
        ensures { result.now ≡ values_of self.now }
    {
        &self.values[..self.height.values]
    }

    // The continuations that are bound.
    pub(crate) fn bound_continuations(&self) -> &[Bound]
        requires { self.now.height.continuations ≤ 1024 }
        ensures { result.now ≡ continuations_of self.now }
    {
        &self.continuations[..self.height.continuations]
    }

    // The world that a term names: a site of the sheet, or a bound world.
    pub(crate) fn world_at(&self, spot: Spot, world: World) -> Result<At, CheckFault>
        requires { self.now.height.worlds ≤ 1024 }
        ensures { Located (length (stations_of spot.entry.setting.now.sheet.now)) self.now.height.worlds world spot.entry.term result }
    {
        match world {
            World::Site(site) => {
                if (site as usize) < spot.setting.sheet.len() {
                    Ok(At::Site(site))
                } else {
                    Err(CheckFault::Unbound(spot.term as usize))
                }
            }
            World::Bound(count) => {
                let bound = self.height.worlds;
                let count = count as usize;
                if count < bound {
                    // No cast of the crate cuts anything off, as the check proves: `try_from` would add an arm that no value reaches.
                    Ok(At::Level((bound - 1 - count) as u16))
                } else {
                    Err(CheckFault::Unbound(spot.term as usize))
                }
            }
        }
    }
}

// How many registers of a kind a site of the sheet has.
fn fitted(sheet: &Sheet, kind: Instrument, site: u16) -> u8
    ensures { result ≡ registers_there kind (stations_of sheet.now) site }
{
    match (sheet.get(site as usize), kind) {
        (Some(station), Instrument::Gauge) => station.gauges,
        (Some(station), Instrument::Gate) => station.gates,
        (None, _) => 0,
    }
}

// A register that a term names is on the sheet, at the site where the term stands.
pub(crate) fn register_at(
    spot: Spot,
    world: At,
    kind: Instrument,
    number: u16,
) -> Result<(), CheckFault>
    ensures { result ≡ registered (registers_there kind (stations_of spot.entry.setting.now.sheet.now)) (world_of world) number spot.entry.term }
{
    let At::Site(site) = world else {
        return Err(CheckFault::BoundWorld(spot.term as usize));
    };
    if number < fitted(spot.setting.sheet, kind, site) as u16 {
        Ok(())
    } else {
        Err(CheckFault::NotOnSheet(spot.term as usize))
    }
}
