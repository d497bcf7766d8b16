// Steps that mark the register that they read or set.
ghost use Rattle.std.specs.Prelude.{◌≡◌, ◌<◌};
ghost use Rattle.calculus.specs.Step.{Works as Showing};
ghost use Rattle.calculus.specs.Machine.{step as machine_step};
ghost use Rattle.machine.specs.Meaning.{state_of};
ghost use Rattle.machine.specs.Answers.{Ends, Lands, stepped_on, shown, of_terms};
ghost use Rattle.machine.specs.Touching.{StepMarks, gauge_read, gate_set, of_kind, with_touched, TouchedFits, Touches};
ghost use Rattle.lines.specs.declared.refusal.Instrument.TheVariants.{Gauge as a_gauge, Gate as a_gate};

use crate::back::row_at;
use crate::marks::Marks;
use crate::parts::*;
use instruments::works::Works;
use syntax::program::Term;

// A gauge or a gate of the site where work stands.
#[derive(Clone, Copy)]
struct Touched {
    instrument: Instrument,
    number: u16,
}

// The gauge that a row reads; below, the gate that a task sets: two enums are looked at, so there are two functions.
fn gauge_of(row: Term) -> Option<Touched>
    ensures { result ≡ of_kind a_gauge (gauge_read row) }
{
    if let Term::Gauge(number) = row {
        Some(Touched {
            instrument: Instrument::Gauge,
            number,
        })
    } else {
        None
    }
}

// The gate that a task sets.
fn gate_of(task: Task) -> Option<Touched>
    ensures { result ≡ of_kind a_gate (gate_set task) }
{
    if let Task::Set(number) = task {
        Some(Touched {
            instrument: Instrument::Gate,
            number,
        })
    } else {
        None
    }
}

// Marks a register of a site, if there is one.
fn mark_touched(marks: &mut Marks, touched: Option<Touched>, site: u16)
    requires site { site < 16 }
    requires fits { TouchedFits touched }
    ensures { marks.new ≡ with_touched touched site marks.old }
{
    if let Some(Touched { instrument, number }) = touched {
        marks.mark(instrument, site, number);
    }
}

impl State {
    // The register that the next step reads or sets, at the site where work stands.
    fn touched(&self, program: &[Term]) -> Option<Touched>
        requires live { (v : Showing) × Lands self.now.stations (machine_step (of_terms program.now) v (state_of self.now)) }
        ensures { Touches (of_terms program.now) self.now result }
    {
        match (self.phase, self.continuation) {
            (Phase::Eval { term, .. }, _) => gauge_of(row_at(program, term)),
            (Phase::Back(_), Continuation::Finish) => unreachable(),
            (Phase::Back(_), Continuation::Abort) => unreachable(),
            (Phase::Back(_), Continuation::Return { .. }) => None,
            (Phase::Back(_), Continuation::Frame(top)) => gate_of(self.store.frame(top).task),
        }
    }

    // One step, and the register that it reads or sets is marked.
    pub(crate) fn step_marked<W: Works>(
        &mut self,
        program: &[Term],
        works: &mut W,
        marks: &mut Marks,
    ) -> Result<(), StepFault>
        requires live { Lands self.old.stations (machine_step (of_terms program.now) (shown (W.Gauges.readings works.old) (W.Works.settings works.old)) (state_of self.old)) }
        ensures ends { Ends result self.old self.new (shown (W.Gauges.readings works.old) (W.Works.settings works.old)) (shown (W.Gauges.readings works.new) (W.Works.settings works.new)) (stepped_on (shown (W.Gauges.readings works.old) (W.Works.settings works.old)) self.old (of_terms program.now)) }
        ensures marks { StepMarks result (machine_step (of_terms program.now) (shown (W.Gauges.readings works.old) (W.Works.settings works.old)) (state_of self.old)) marks.old marks.new }
    {
        let site = self.site;
        let touched = self.touched(program);
        self.step(program, works)?;
        mark_touched(marks, touched, site);
        Ok(())
    }
}
