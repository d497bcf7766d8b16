// Refusals with their numbers, and the writing of lines into a caller's buffer.
#![tactic(auto, using(crate::proofs::Pieces::then))]

pub mod codes;
pub mod pen;
pub mod refusal;
pub mod values;
pub mod writing;
