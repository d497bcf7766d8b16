// Writing a value out of the tables, with all that its functions and code were made under.
ghost use Rattle.std.specs.Prelude.{◌≡◌, ◌<◌, true, ◌++◌, length, codes, decimal};
ghost use Rattle.lines.specs.Writing.{Writes, written, written_after};
ghost use Rattle.machine.specs.Meaning.{meanings, value_of, environment_of};
ghost use Rattle.machine.specs.Sound.{Each, CellIn, ValueIn, EnvironmentIn, BoundIn, pair_at};
ghost use Rattle.machine.specs.Texts.{one_text, two_text, value_text, bindings_text, bound_text, answer_line};

use crate::parts::*;
use lines::pen::BufferPen;
use lines::refusal::Short;
use lines::writing::Printed;

// A word with a number, and the bracket that closes it.
fn put_one(pen: &mut BufferPen<'_>, word: &[u8], number: u16) -> Result<(), Short>
    ensures { Writes pen.old (one_text word.now number) result pen.new }
{
    pen.numbered(word, number as usize)?;
    pen.word(b")")
}

// A word with two numbers, and the bracket that closes it.
fn put_two(pen: &mut BufferPen<'_>, word: &[u8], first: u16, second: u16) -> Result<(), Short>
    ensures { Writes pen.old (two_text word.now first second) result pen.new }
{
    pen.numbered(word, first as usize)?;
    pen.numbered(b" ", second as usize)?;
    pen.word(b")")
}

// The cells of a machine, each of which names earlier ones only.
#[derive(Clone, Copy)]
pub(crate) struct Cells<'a> {
    pub(crate) cells: &'a [Cell],
    ghost sound: { ∥ Each (λ i c. CellIn cells.now i c) cells.now ∥₁ },
}

impl Cells<'_> {
    // A value.
    #[cycle(put_bindings_put_bound_put_closure_put_pair_put_value)]
    fn put_value(self, pen: &mut BufferPen<'_>, value: Value) -> Result<(), Short>
        requires { ValueIn self.cells.now (length self.cells.now) value }
        ensures { Writes pen.old (value_text (value_of (meanings self.entry.cells.now) value)) result pen.new }
    {
        match value {
            Value::Number(number) => put_one(pen, b"(num ", number),
            Value::Function { term, environment } => self.put_closure(
                pen,
                b"(fn ",
                term,
                environment,
            ),
            Value::Code { term, environment } => self.put_closure(
                pen,
                b"(code ",
                term,
                environment,
            ),
            Value::Address { site, label } => put_two(pen, b"(addr ", site, label),
            Value::Pair(place) => self.put_pair(pen, place),
        }
    }

    // A term's number behind a word, with what it was made under.
    #[cycle(put_bindings_put_bound_put_closure_put_pair_put_value)]
    fn put_closure(
        self,
        pen: &mut BufferPen<'_>,
        word: &[u8],
        term: u16,
        environment: Environment,
    ) -> Result<(), Short>
        requires { EnvironmentIn (length self.cells.now) environment }
        ensures { Writes pen.old ((word.now ++ decimal term) ++ (bindings_text (environment_of (meanings self.entry.cells.now) environment) ++ codes ")")) result pen.new }
    {
        pen.numbered(word, term as usize)?;
        self.put_bindings(pen, environment)?;
        pen.word(b")")
    }

    // The pair in a cell.
    #[cycle(put_bindings_put_bound_put_closure_put_pair_put_value)]
    fn put_pair(self, pen: &mut BufferPen<'_>, place: u16) -> Result<(), Short>
        requires place { place < length self.cells.now }
        requires pair { pair_at self.cells.now place ≡ true }
        ensures { Writes pen.old (value_text (value_of (meanings self.entry.cells.now) (Value.Pair place))) result pen.new }
    {
        let Cell::Pair(left, right) = self.cells[place as usize] else {
            unreachable()
        };
        pen.word(b"(pair ")?;
        self.put_value(pen, left)?;
        pen.word(b" ")?;
        self.put_value(pen, right)?;
        pen.word(b")")
    }

    // A chain of bindings, the innermost first.
    #[cycle(put_bindings_put_bound_put_closure_put_pair_put_value)]
    fn put_bindings(self, pen: &mut BufferPen<'_>, environment: Environment) -> Result<(), Short>
        requires { EnvironmentIn (length self.cells.now) environment }
        ensures { Writes pen.old (bindings_text (environment_of (meanings self.entry.cells.now) environment)) result pen.new }
    {
        let Environment::Cell(place) = environment else {
            return Ok(());
        };
        let Cell::Binding { bound, rest } = self.cells[place as usize] else {
            return Ok(());
        };
        pen.word(b" ")?;
        self.put_bound(pen, bound)?;
        self.put_bindings(pen, rest)
    }

    // What one binding binds.
    #[cycle(put_bindings_put_bound_put_closure_put_pair_put_value)]
    fn put_bound(self, pen: &mut BufferPen<'_>, bound: Bound) -> Result<(), Short>
        requires { BoundIn self.cells.now (length self.cells.now) bound }
        ensures { Writes pen.old (bound_text (meanings self.entry.cells.now) bound) result pen.new }
    {
        match bound {
            Bound::Value(value) => self.put_value(pen, value),
            Bound::Label { site, label } => put_two(pen, b"(label ", site, label),
            Bound::World(site) => put_one(pen, b"(site ", site),
            Bound::Continuation { site, kept } => put_two(pen, b"(cont ", site, kept),
        }
    }
}

// A value that work came back with, as the line that names it.
#[derive(Clone, Copy)]
pub(crate) struct Answer<'a> {
    pub(crate) cells: Cells<'a>,
    pub(crate) value: Value,
    ghost within: { ∥ ValueIn cells.cells.now (length cells.cells.now) value ∥₁ },
}

impl Printed for Answer<'_> {
    ghost text = { λ a. answer_line (value_of (meanings a.cells.cells.now) a.value) };

    fn put(&self, pen: &mut BufferPen<'_>) -> Result<(), Short> {
        pen.word(b"(answer ")?;
        self.cells.put_value(pen, self.value)?;
        pen.word(b")\n")
    }
}
