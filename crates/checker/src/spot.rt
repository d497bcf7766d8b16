// A term of the program that is judged.
use instruments::sheet::Sheet;
use syntax::program::Term;

// The terms of the program, and the sheet that it is judged on.
#[derive(Clone, Copy)]
pub(crate) struct Setting<'a> {
    pub(crate) terms: &'a [Term],
    pub(crate) sheet: &'a Sheet,
}

// One of the terms, by its number. The world where it stands goes beside it: a struct of two words is handed on in registers, a larger
// one in memory, for each part anew.
#[derive(Clone, Copy)]
pub(crate) struct Spot<'a> {
    pub(crate) setting: &'a Setting<'a>,
    pub(crate) term: u16,
}
