// A run that marks the registers touched: steps until the machine is done, the budget is spent, or a step is refused.
ghost use Rattle.std.specs.Prelude.{◌≡◌};
ghost use Rattle.calculus.specs.Types.{Sheet as Stations};
ghost use Rattle.calculus.specs.NetworkTyping.{Agrees};
ghost use Rattle.calculus.specs.Run.{execute};
ghost use Rattle.machine.specs.Meaning.{state_of};
ghost use Rattle.machine.specs.Answers.{shown, of_terms};
ghost use Rattle.machine.specs.Safe.{Holds};
ghost use Rattle.machine.specs.Runs.{ran, ran_by, Told, halted as halted_at};

use crate::marks::Marks;
use crate::parts::{Run, State};
use instruments::works::Works;
use lines::refusal::{RunFault, StepFault};
use syntax::program::Term;

// Adds to the fault of a step the site where work stands and the steps before.
fn halted(step: Result<(), StepFault>, site: u16, steps: u32) -> Result<(), RunFault>
    ensures { result ≡ halted_at step site steps }
{
    step.map_err(|fault| RunFault { fault, site, steps })
}

impl State {
    // Steps until work is done or the budget is spent. A `while`, since done is asked before spent: a `for` over the budget would ask it
    // twice. The count is what the answer names.
    pub(crate) fn run<W: Works>(
        &mut self,
        program: &[Term],
        works: &mut W,
        marks: &mut Marks,
        budget: u32,
    ) -> Result<Run, RunFault>
        requires holds { (S : Stations) × Holds (of_terms program.now) S self.old × Agrees S (shown (W.Gauges.readings works.old) (W.Works.settings works.old)) }
        ensures holds { (S : Stations) → Holds (of_terms program.now) S self.old → Agrees S (shown (W.Gauges.readings works.old) (W.Works.settings works.old)) → Holds (of_terms program.now) S self.new × Agrees S (shown (W.Gauges.readings works.new) (W.Works.settings works.new)) }
        ensures told { Told result }
        ensures ran { ran result (state_of self.new) (shown (W.Gauges.readings works.new) (W.Works.settings works.new)) marks.new ≡ ran_by marks.old (execute (of_terms program.now) budget (shown (W.Gauges.readings works.old) (W.Works.settings works.old)) (state_of self.old)) }
    {
        let mut steps = 0;
        while !self.is_done() {
            if steps == budget {
                return Ok(Run::Spent { steps });
            }
            let site = self.site;
            halted(self.step_marked(program, works, marks), site, steps)?;
            steps += 1;
        }
        Ok(Run::Done { steps })
    }
}
