// What gauges are, and what a works is: the rules that everything here keeps and that everything above relies on.
ghost use Rattle.std.specs.Prelude.{◌≡◌, length};
ghost use Rattle.instruments.specs.Registers.{Shown, Few, site_row, asked, done, set_after};

use lines::refusal::RegisterFault;

// Gauges mean what each of them shows, site by site: a number, or silence. Asking changes nothing. A register is named by two arguments,
// its site and its number: a struct of both would be built at each call only to be taken apart in it.
pub trait Gauges {
    ghost readings: { Self → Shown };

    // How many sites there are.
    fn sites(&self) -> usize
        ensures { result ≡ length (readings self.now) };

    // How many gauges a site has.
    fn gauges(&self, site: usize) -> usize
        ensures { result ≡ length (site_row (readings self.now) site) };

    // What a gauge shows; `NotFitted` exactly where there is none, `Silent` exactly where it shows nothing.
    fn gauge(&self, site: usize, number: usize) -> Result<u16, RegisterFault>
        ensures { result ≡ asked (readings self.now) site number };

    ghost few: { (g : Self) → Few (readings g) };
}

// A works adds gates, which are asked as gauges are. A gate that answers can be set, and then it alone has changed. The two kinds are two
// traits, and not one with the kind as a parameter, since a recorded sheet has gauges alone and a survey asks for no more.
pub trait Works: Gauges {
    ghost settings: { Self → Shown };

    // How many gates a site has.
    fn gates(&self, site: usize) -> usize
        ensures { result ≡ length (site_row (settings self.now) site) };

    // What a gate shows.
    fn gate(&self, site: usize, number: usize) -> Result<u16, RegisterFault>
        ensures { result ≡ asked (settings self.now) site number };

    // Sets a gate; one that is not fitted or silent is refused as when it is asked, and nothing changes.
    fn set_gate(&mut self, site: usize, number: usize, value: u16) -> Result<(), RegisterFault>
        ensures value { result ≡ done (asked (settings self.old) site number) }
        ensures after { settings self.new ≡ set_after (settings self.old) site number value }
        ensures same { Self.Gauges.readings self.new ≡ Self.Gauges.readings self.old };

    ghost level: { (w : Self) → length (settings w) ≡ length (Self.Gauges.readings w) };

    ghost fewer: { (w : Self) → Few (settings w) };
}
