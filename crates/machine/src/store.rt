// The store's own calls: the room tests of the cells, and the calls that take one place.
ghost use Rattle.std.specs.Prelude.{◌≡◌, ℕ, ◌+◌, ◌<◌, ◌≤◌, ◌^◌, length};
ghost use Rattle.std.proofs.Math.Option.{Option, some};
ghost use Rattle.std.proofs.Math.ListN.{get_elem?};
ghost use Rattle.machine.specs.Sound.{StoreIn};
ghost use Rattle.machine.specs.Store.{Fits, Takes, Added, FramePushed, CellPushed};
ghost use Rattle.lines.specs.declared.refusal.Table.TheVariants.{Frames as of_frames, Bindings as of_bindings, Pairs as of_pairs};

use crate::parts::*;
use rows::Rows;

const BINDINGS: u16 = 4096;

const PAIRS: u16 = 2048;

// Whether so many places more are within a limit.
fn room(taken: u16, places: u16, limit: u16, table: Table) -> Result<(), StepFault>
    requires { places ≤ limit }
    ensures { Fits result table limit (taken + places) }
{
    if taken <= limit - places {
        Ok(())
    } else {
        Err(StepFault::Full(table))
    }
}

// Adds a row behind the others of a table, and answers its place; a full table is named.
pub(crate) fn add<T: Drop, const N: usize>(
    rows: &mut Rows<T, N>,
    row: T,
    table: Table,
) -> Result<u16, StepFault>
    requires { N ≤ 2 ^ 16 }
    ensures { Takes result table N (length rows.old.items + 1) (rows.new.items ≡ rows.old.items) (λ place. Added place rows.old.items row rows.new.items) }
{
    match rows.push(row) {
        // No cast of the crate cuts anything off, as the check proves: `try_from` would add an arm that no value reaches.
        Some(place) => Ok(place as u16),
        None => Err(StepFault::Full(table)),
    }
}

impl Store {
    // A cell, a frame and, in back.rt, a row are read by calls of one line, each of which names its table: one for all would be handed it.
    pub(crate) fn cell(&self, place: u16) -> Cell
        requires { place < length self.now.cells.items }
        ensures { get_elem? self.now.cells.items place ≡ some result }
    {
        self.cells[place as usize]
    }

    pub(crate) fn frame(&self, place: u16) -> Frame
        requires { place < length self.now.frames.items }
        ensures { get_elem? self.now.frames.items place ≡ some result }
    {
        self.frames[place as usize]
    }

    // Room for so many bindings. This and `pair_room` stay two calls: one call for both would take the count, the limit and the table,
    // which each of these two names once, from every rule that asks for room.
    pub(crate) fn binding_room(&self, places: u16) -> Result<(), StepFault>
        requires { places ≤ 2 }
        ensures { Fits result of_bindings 4096 (self.now.bindings + places) }
    {
        room(self.bindings, places, BINDINGS, Table::Bindings)
    }

    // Room for one pair.
    pub(crate) fn pair_room(&self) -> Result<(), StepFault>
        ensures { Fits result of_pairs 2048 (self.now.pairs + 1) }
    {
        room(self.pairs, 1, PAIRS, Table::Pairs)
    }

    pub(crate) fn push_frame(&mut self, frame: Frame) -> Result<Continuation, StepFault>
        ensures { Takes result of_frames 4096 (length self.old.frames.items + 1) (self.new ≡ self.old) (λ next. (next ≡ Continuation.Frame (length self.old.frames.items)) × FramePushed self.old self.new frame) }
    {
        let place = add(&mut self.frames, frame, Table::Frames)?;
        Ok(Continuation::Frame(place))
    }

    // Adds a cell, where the cells are fewer than their places.
    fn add_cell(&mut self, cell: Cell) -> u16
        requires { length self.old.cells.items < 6144 }
        ensures is { result ≡ length self.old.cells.items }
        ensures after { CellPushed self.old self.new cell self.old.bindings self.old.pairs }
    {
        match self.cells.push(cell) {
            Some(place) => place as u16,
            None => unreachable(),
        }
    }

    pub(crate) fn bind(&mut self, bound: Bound, rest: Environment) -> Environment
        requires store { StoreIn self.old }
        requires room { self.old.bindings + 1 ≤ 4096 }
        ensures is { result ≡ Environment.Cell (length self.old.cells.items) }
        ensures after { CellPushed self.old self.new (Cell.Binding bound rest) (self.old.bindings + 1) self.old.pairs }
    {
        let place = self.add_cell(Cell::Binding { bound, rest });
        self.bindings += 1;
        Environment::Cell(place)
    }

    pub(crate) fn join(&mut self, left: Value, right: Value) -> Value
        requires store { StoreIn self.old }
        requires room { self.old.pairs + 1 ≤ 2048 }
        ensures is { result ≡ Value.Pair (length self.old.cells.items) }
        ensures after { CellPushed self.old self.new (Cell.Pair left right) self.old.bindings (self.old.pairs + 1) }
    {
        let place = self.add_cell(Cell::Pair(left, right));
        self.pairs += 1;
        Value::Pair(place)
    }
}
