// What is bound around a term: the scope list.
ghost use Rattle.std.specs.Prelude.{◌≡◌, length};

use rows::Rows;
use syntax::program::Ty;

// A world by its level: the outermost bound world is 0.
#[derive(Clone, Copy, PartialEq, Eq)]
pub enum At {
    Site(u16),
    Level(u16),
}

// A bound value or continuation: its type's number, and its world.
#[derive(Clone, Copy)]
pub struct Bound {
    pub ty: u16,
    pub world: At,
}

// How many values, worlds and continuations are bound.
#[derive(Clone, Copy)]
pub struct Height {
    pub values: usize,
    pub worlds: usize,
    pub continuations: usize,
}

// The bound values and continuations, outermost first, of which those below the height are bound; and the types that are written in
// the program that is checked, with those that the checker builds behind them. Both lists have their full length from the start: lists
// that grow would say twice what is bound, by their lengths and by the one height record that a binder's guard restores.
#[derive(Drop)]
pub struct Context {
    pub(crate) written: usize,
    pub(crate) types: Rows<Ty, 1536>,
    pub(crate) values: Vec<Bound>,
    pub(crate) continuations: Vec<Bound>,
    pub(crate) height: Height,
    ghost values_room: { length values.items ≡ 1024 },
    ghost continuations_room: { length continuations.items ≡ 1024 },
}
