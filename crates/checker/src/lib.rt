// Type-checking a program.
#![tactic(auto, using(lines::proofs::Pieces::then))]

pub mod accepted;
mod binding;
pub mod checking;
pub mod context;
mod judging;
mod lookups;
pub mod naming;
pub mod programs;
pub mod scopes;
pub mod sheets;
mod spot;
mod tables;
pub mod types;
