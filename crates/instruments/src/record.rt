// A recorded sheet: what gauges showed, row by row.
use rows::Rows;

// The number that a gauge of a site showed.
#[derive(Clone, Copy)]
pub struct Row {
    pub site: u16,
    pub gauge: u16,
    pub number: u16,
}

// At most 4,096 rows, with room for them all.
#[derive(Drop)]
pub struct Recorded {
    pub(crate) rows: Rows<Row, 4096>,
}
