// Program texts: their grammar, their tables, reading and writing.
#![tactic(auto, using(lines::proofs::Pieces::then))]

pub mod access;
mod draft;
pub mod grammar;
mod items;
pub mod program;
mod reader;
pub mod reading;
mod spelling;
pub mod table;
pub mod text;
pub mod theorems;
mod whole;
mod writer;
pub mod writing;
