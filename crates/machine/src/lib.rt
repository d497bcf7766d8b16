// The machine that runs a program: a place for it, starting, running, standing and answering.
#![tactic(auto, using(lines::proofs::Pieces::then))]

mod back;
pub mod calls;
mod evaluate;
mod lookups;
mod marking;
mod marks;
mod parts;
pub mod place;
mod registers;
mod rules;
mod run;
mod sheets;
mod sites;
mod stand;
mod start;
pub mod starting;
mod step;
mod store;
mod values;
