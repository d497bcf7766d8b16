// How many gauges and gates each site of a works has.
ghost use Rattle.instruments.specs.Items.{items_of};
ghost use Rattle.instruments.specs.Fitted.{Fitted};

use crate::bounded::Bounded;

// The counts of one site.
#[derive(Clone, Copy, Default)]
pub struct Station {
    pub gauges: u8,
    pub gates: u8,
}

// The stations of a works: at most 16, each with at most 32 gauges and 32 gates.
#[derive(Clone, Copy)]
pub struct Sheet {
    pub(crate) stations: Bounded<Station, 16>,
    ghost fitted: { Fitted (items_of stations) },
}
