// One step of the machine.
ghost use Rattle.std.specs.Prelude.{◌≡◌};
ghost use Rattle.calculus.specs.Machine.{step as machine_step, is_finished};
ghost use Rattle.machine.specs.Meaning.{state_of};
ghost use Rattle.machine.specs.Answers.{Ends, Lands, stepped_on, shown, of_terms};

use crate::back::row_at;
use crate::parts::*;
use instruments::works::Works;
use syntax::program::Term;

impl State {
    // Whether work is back over the end.
    pub(crate) fn is_done(&self) -> bool
        ensures { result ≡ is_finished (state_of self.now) }
    {
        match (self.phase, self.continuation) {
            (Phase::Eval { .. }, _) => false,
            (Phase::Back(_), Continuation::Finish) => true,
            (Phase::Back(_), Continuation::Abort) => false,
            (Phase::Back(_), Continuation::Return { .. }) => false,
            (Phase::Back(_), Continuation::Frame(_)) => false,
        }
    }

    // One step: matches on the phase with the top frame, and rewrites the state in place.
    pub(crate) fn step<W: Works>(
        &mut self,
        program: &[Term],
        works: &mut W,
    ) -> Result<(), StepFault>
        requires live { Lands self.old.stations (machine_step (of_terms program.now) (shown (W.Gauges.readings works.old) (W.Works.settings works.old)) (state_of self.old)) }
        ensures { Ends result self.old self.new (shown (W.Gauges.readings works.old) (W.Works.settings works.old)) (shown (W.Gauges.readings works.new) (W.Works.settings works.new)) (stepped_on (shown (W.Gauges.readings works.old) (W.Works.settings works.old)) self.old (of_terms program.now)) }
    {
        match (self.phase, self.continuation) {
            (Phase::Eval { term, environment }, _) => self.evaluate(
                term,
                row_at(program, term),
                environment,
                works,
            ),
            (Phase::Back(_), Continuation::Finish) => unreachable(),
            (Phase::Back(_), Continuation::Abort) => unreachable(),
            (Phase::Back(value), Continuation::Return { site, kept }) => {
                self.resume(site, kept, Phase::Back(value));
                Ok(())
            }
            (Phase::Back(value), Continuation::Frame(top)) => {
                let Frame { task, next } = self.store.frame(top);
                self.work(program, task, next, value, works)
            }
        }
    }
}
