// The tables of a program, with room for the largest.
use crate::program::{Term, Ty};
use instruments::sheet::Sheet;
use rows::Rows;

#[derive(Drop)]
pub struct Program {
    pub(crate) types: Rows<Ty, 512>,
    pub(crate) terms: Rows<Term, 1024>,
    pub(crate) sheet: Sheet,
    pub(crate) start: u16,
}
