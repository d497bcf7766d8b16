// Making a place for a machine, and starting an accepted program in it.
ghost use Rattle.std.specs.Prelude.{◌≡◌, IfOk};
ghost use Rattle.std.proofs.Math.Option.{none as nothing};
ghost use Rattle.checker.specs.Accepting.{place as program_place};
ghost use Rattle.machine.specs.Calls.{place as place_of, start_answered, started_into, LawOf, MarksLawOf};

use crate::marks::Marks;
use crate::parts::State;
use crate::place::{Machine, Started};
use checker::accepted::Accepted;
use lines::refusal::Refusal;
use rows::Rows;
use std::alloc::{AllocError, Global};

impl Machine {
    // An empty place, with room for every program and all that a machine may hold.
    pub fn new(heap: Global) -> Result<Machine, AllocError>
        ensures { IfOk result (λ m. place_of m ≡ nothing) }
    {
        let types = Rows::new(heap)?;
        let terms = Rows::new(heap)?;
        let state = State::new(heap)?;
        Ok(Machine {
            types,
            terms,
            started: None,
            state,
            marks: Marks::new(),
        })
    }

    // Starts a copy of an accepted program, in the place of what was there. `law`: the law of logs holds of whatever follows this start.
    // `marks`: whatever follows it, the marks tell the registers touched.
    pub fn start(&mut self, program: &Accepted) -> Result<(), Refusal>
        ensures value { result ≡ start_answered (program_place program.now) }
        ensures after { place_of self.new ≡ started_into (place_of self.old) (program_place program.now) }
        ensures law { LawOf (program_place program.now) }
        ensures marks { MarksLawOf (program_place program.now) }
    {
        let sheet = program.sheet()?;
        let Some(tables) = program.program() else {
            return Err(Refusal::Nothing);
        };
        // Both fit, as an accepted program's tables do, so that neither answer says more.
        self.types.replace(tables.types);
        self.terms.replace(tables.terms);
        self.state.restart(sheet.len() as u16, tables.start);
        self.marks = Marks::new();
        self.started = Some(Started {
            sheet,
            start: tables.start,
        });
        Ok(())
    }
}
