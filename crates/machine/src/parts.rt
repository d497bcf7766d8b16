// The parts of a machine's state. What is bound and what is paired stands in cells, and frames stand in a table of their own: an
// entry names others by their places, and only earlier ones: tables and no boxes, since a step takes no memory. A function that is handed
// a continuation, a value or an environment asks that it names entries that are there: that hangs on the tables, and is no fact of its type.
ghost use Rattle.machine.specs.Sound.{StateIn};

pub(crate) use lines::refusal::{Instrument, StepFault, Table, Unanswered};
use rows::Rows;

// A chain of bindings: empty, or the cell of its innermost binding. An enum of its own, since an `Option` here is what a search found. That
// a place names an entry stays a clause where one is handed on: the tables stand in the state, and a type of the place cannot name them.
#[derive(Clone, Copy)]
pub(crate) enum Environment {
    Empty,
    Cell(u16),
}

// A function or code is the number of its `lam` or `box`, with the environment that it was made in; a pair is its cell.
// A term and its environment stay two fields: the machine of the calculus names them apart, so a pair would be taken apart at each use.
#[derive(Clone, Copy)]
pub(crate) enum Value {
    Number(u16),
    Function { term: u16, environment: Environment },
    Code { term: u16, environment: Environment },
    Address { site: u16, label: u16 },
    Pair(u16),
}

// What one binding binds.
#[derive(Clone, Copy)]
pub(crate) enum Bound {
    Value(Value),
    Label { site: u16, label: u16 },
    World(u16),
    Continuation { site: u16, kept: u16 },
}

// What is counted apart.
#[derive(Clone, Copy)]
pub(crate) enum Kind {
    Value,
    World,
    Continuation,
}

#[derive(Clone, Copy)]
pub(crate) enum Cell {
    Binding { bound: Bound, rest: Environment },
    Pair(Value, Value),
}

// A continuation: what stands at its end, or the place of its top frame.
#[derive(Clone, Copy)]
pub(crate) enum Continuation {
    Finish,
    Abort,
    Return { site: u16, kept: u16 },
    Frame(u16),
}

// What a frame does with the value that comes back to it.
#[derive(Clone, Copy)]
pub(crate) enum Task {
    Apply {
        argument: u16,
        environment: Environment,
    },
    Applied(Value),
    Unbox,
    Publish,
    Open {
        body: u16,
        environment: Environment,
    },
    Pair {
        right: u16,
        environment: Environment,
    },
    Paired(Value),
    First,
    Second,
    Compare {
        right: u16,
        less: u16,
        otherwise: u16,
        environment: Environment,
    },
    Compared {
        left: Value,
        less: u16,
        otherwise: u16,
        environment: Environment,
    },
    Set(u16),
}

// A task over the rest of a continuation.
#[derive(Clone, Copy)]
pub(crate) struct Frame {
    pub(crate) task: Task,
    pub(crate) next: Continuation,
}

#[derive(Clone, Copy)]
pub(crate) enum Phase {
    Eval { term: u16, environment: Environment },
    Back(Value),
}

// What one site has published and kept. There are sixteen such rows whatever the number of stations, since their memory is reserved first.
#[derive(Drop)]
pub(crate) struct SiteRow {
    pub(crate) published: Rows<Value, 128>,
    pub(crate) kept: Rows<Continuation, 256>,
}

// The tables, with the counts of the cells that are bindings and of those that are pairs: at most 4,096 and 2,048.
// That they are sound is a fact of the state: as one of the tables, each call that adds would have to ask it of what it adds.
#[derive(Drop)]
pub(crate) struct Store {
    pub(crate) cells: Rows<Cell, 6144>,
    pub(crate) bindings: u16,
    pub(crate) pairs: u16,
    pub(crate) frames: Rows<Frame, 4096>,
    pub(crate) rows: [SiteRow; 16],
}

// How many sites there are, where work stands, with which continuation and in which phase, and the tables, which are sound.
#[derive(Drop)]
pub(crate) struct State {
    pub(crate) stations: u16,
    pub(crate) site: u16,
    pub(crate) continuation: Continuation,
    pub(crate) phase: Phase,
    pub(crate) store: Store,
    ghost sound: { ∥ StateIn stations site continuation phase store ∥₁ },
}

// How a run ends, with the steps that it took.
#[derive(Clone, Copy)]
pub enum Run {
    Done { steps: u32 },
    Spent { steps: u32 },
}
