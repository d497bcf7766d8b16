// What the sites of a works have, show and take.
#![tactic(auto)]

mod banks;
pub mod bench;
pub mod benches;
mod bounded;
pub mod image;
pub mod images;
pub mod laws;
pub mod makes;
pub mod record;
pub mod recorded;
pub mod sheet;
pub mod stations;
pub mod survey;
pub mod works;
