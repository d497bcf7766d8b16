// A bench: a works whose registers are placed by hand.
use crate::bounded::Bounded;

// The registers of one kind at one site; `None` is silence.
#[derive(Clone, Copy)]
pub struct Bank {
    pub(crate) registers: Bounded<Option<u16>, 32>,
}

// The registers of one site.
#[derive(Clone, Copy)]
pub(crate) struct Banks {
    pub(crate) gauges: Bank,
    pub(crate) gates: Bank,
}

// At most 16 sites.
#[derive(Clone, Copy)]
pub struct Bench {
    pub(crate) sites: Bounded<Banks, 16>,
}
