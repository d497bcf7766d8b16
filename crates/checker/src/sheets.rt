// The sheet of an accepted program.
ghost use Rattle.std.specs.Prelude.{◌≡◌};
ghost use Rattle.checker.specs.Accepting.{place as place_of};
ghost use Rattle.checker.specs.Sheeting.{stations_told, place_stations};

use crate::accepted::Accepted;
use instruments::sheet::Sheet;
use lines::refusal::Refusal;

impl Accepted {
    // The sheet that the program was accepted on; 25 where nothing was accepted.
    pub fn sheet(&self) -> Result<Sheet, Refusal>
        ensures { stations_told result ≡ place_stations (place_of self.now) }
    {
        let Some(entry) = self.entry else {
            return Err(Refusal::Nothing);
        };
        Ok(entry.sheet)
    }
}
