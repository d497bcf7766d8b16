// Tables of rows in memory that is reserved when they are made.
#![tactic(auto)]

mod table;
#[cfg(test)]
mod tests;

pub use table::Rows;
