// Running a machine, and asking where it stands and what it answers.
ghost use Rattle.std.specs.Prelude.{◌≡◌};
ghost use Rattle.calculus.specs.Marked.{run_marked, MarkedJoin};
ghost use Rattle.machine.specs.Answers.{shown};
ghost use Rattle.machine.specs.Calls.{place as place_of, run_answered, stand_written, stand_after, answer_written, answer_after};

use crate::parts::Phase;
use crate::place::{Machine, Run};
use crate::sheets::differing_site;
use crate::values::{Answer, Cells};
use instruments::works::Works;
use lines::refusal::Refusal;
use lines::writing::Printed;

impl Machine {
    // Runs the machine on a works, for at most `budget` steps. It is refused where nothing was started, and then where the works has
    // another sheet; both change nothing. A silent register or a table without places ends it, and the steps before are kept. `joins`:
    // a run that spends its budget, and then another, are one run with both budgets.
    pub fn run<W: Works>(&mut self, works: &mut W, budget: u32) -> Result<Run, Refusal>
        ensures value { result ≡ run_answered (run_marked (place_of self.old) (shown (W.Gauges.readings works.old) (W.Works.settings works.old)) budget).answer }
        ensures after { place_of self.new ≡ (run_marked (place_of self.old) (shown (W.Gauges.readings works.old) (W.Works.settings works.old)) budget).place }
        ensures works { shown (W.Gauges.readings works.new) (W.Works.settings works.new) ≡ (run_marked (place_of self.old) (shown (W.Gauges.readings works.old) (W.Works.settings works.old)) budget).works }
        ensures joins { MarkedJoin }
    {
        let Some(started) = self.started else {
            return Err(Refusal::Nothing);
        };
        if let Some(site) = differing_site(&started.sheet, works) {
            return Err(Refusal::AnotherSheet(site));
        }
        let run = self
            .state
            .run(self.terms.as_slice(), works, &mut self.marks, budget)?;
        Ok(run)
    }

    // Writes the line that says where the machine stands.
    pub fn write_stand(&self, out: &mut [u8]) -> Result<usize, Refusal>
        ensures value { result ≡ stand_written (place_of self.now) out.old }
        ensures after { out.new ≡ stand_after (place_of self.now) out.old }
    {
        if self.started.is_none() {
            return Err(Refusal::Nothing);
        }
        self.state.write_stand(&self.marks, out)
    }

    // Writes the line of the answer; refused before work is done.
    pub fn write_answer(&self, out: &mut [u8]) -> Result<usize, Refusal>
        ensures value { result ≡ answer_written (place_of self.now) out.old }
        ensures after { out.new ≡ answer_after (place_of self.now) out.old }
    {
        if self.started.is_none() {
            return Err(Refusal::Nothing);
        }
        if !self.state.is_done() {
            return Err(Refusal::NotDone);
        }
        // Done is asked first, by the call that a run asks too: a call that answered the value in an `Option` would be a second one.
        match self.state.phase {
            Phase::Back(value) => {
                let cells = Cells {
                    cells: self.state.store.cells.as_slice(),
                };
                Answer { cells, value }.write(out)
            }
            Phase::Eval { .. } => unreachable(),
        }
    }
}
