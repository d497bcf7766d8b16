// Evaluating a term of the program.
ghost use Rattle.std.specs.Prelude.{◌≡◌, ◌+◌, ◌<◌, ◌≤◌, true, length};
ghost use Rattle.calculus.specs.Step.{Works as Showing};
ghost use Rattle.calculus.specs.Machine.{value_there};
ghost use Rattle.calculus.specs.Tables.{entry};
ghost use Rattle.calculus.specs.Limits.{lacking, no_place};
ghost use Rattle.machine.specs.Meaning.{sites_of, state_of};
ghost use Rattle.machine.specs.Sound.{EnvironmentIn, PhaseIn, WorkIn};
ghost use Rattle.machine.specs.Answers.{Goes, Ends, Lands, answered, is_some, going, resuming, leaving, valued, gauged, shown, scope, row_stepped, evaluated};

use crate::parts::*;
use crate::registers::read_gauge;
use instruments::works::Works;
use syntax::program::Term;

impl State {
    // Goes on with a continuation and a phase.
    pub(crate) fn go_on(&mut self, next: Continuation, phase: Phase)
        requires { WorkIn self.old.store phase next }
        ensures { (v : Showing) → Goes self.old self.new v (going v self.old next phase) }
    {
        self.continuation = next;
        self.phase = phase;
    }

    // Stands at a site again with a continuation that it keeps. A site and the number of what it keeps or published go together in tables and
    // calls, as two fields: the tables spell them side by side, and a struct of both would have no method.
    pub(crate) fn resume(&mut self, site: u16, kept: u16, phase: Phase)
        requires phase { PhaseIn self.old.store.cells.items (length self.old.store.cells.items) phase }
        requires found { is_some (entry (sites_of self.old).kept site kept) ≡ true }
        ensures { (v : Showing) → Goes self.old self.new v (resuming v self.old site kept phase) }
    {
        match self.store.kept(site, kept) {
            Some(continuation) => {
                self.site = site;
                self.continuation = continuation;
                self.phase = phase;
            }
            None => unreachable(),
        }
    }

    // Goes back with the value that is bound under a count, or that this site published under a label.
    pub(crate) fn value(&mut self, environment: Environment, count: u16)
        requires environment { EnvironmentIn (length self.old.store.cells.items) environment }
        requires live { (v : Showing) → Lands self.old.stations (valued v self.old (value_there (scope self.old environment) count)) }
        ensures { (v : Showing) → Goes self.old self.new v (answered (valued v self.old (value_there (scope self.old environment) count)) (lacking no_place (state_of self.old))) }
    {
        let next = self.continuation;
        let Some(bound) = self.bound_at(environment, Kind::Value, count) else {
            unreachable()
        };
        match bound {
            Bound::Value(value) => self.go_on(next, Phase::Back(value)),
            Bound::Label { site: _, label } => match self.store.published(self.site, label) {
                Some(value) => self.go_on(next, Phase::Back(value)),
                None => unreachable(),
            },
            Bound::World(_) => unreachable(),
            Bound::Continuation { .. } => unreachable(),
        }
    }

    // Evaluates a part at another site, from where nothing comes back.
    pub(crate) fn leave(&mut self, site: u16, part: u16, environment: Environment)
        requires within { site < self.old.stations }
        requires environment { EnvironmentIn (length self.old.store.cells.items) environment }
        ensures { (v : Showing) → Goes self.old self.new v (leaving v self.old site part environment) }
    {
        self.site = site;
        self.continuation = Continuation::Abort;
        self.phase = Phase::Eval {
            term: part,
            environment,
        };
    }

    // Goes back with the number that a gauge here shows.
    pub(crate) fn gauge<W: Works>(&mut self, number: u16, works: &W) -> Result<(), StepFault>
        requires live { Lands self.old.stations (gauged (shown (W.Gauges.readings works.now) (W.Works.settings works.now)) self.old number) }
        ensures { Ends result self.old self.new (shown (W.Gauges.readings works.now) (W.Works.settings works.now)) (shown (W.Gauges.readings works.now) (W.Works.settings works.now)) (answered (gauged (shown (W.Gauges.readings works.now) (W.Works.settings works.now)) self.old number) (lacking no_place (state_of self.old))) }
    {
        let reading = read_gauge(works, self.site, number)?;
        self.go_on(self.continuation, Phase::Back(Value::Number(reading)));
        Ok(())
    }

    // Evaluates row `term` of the program, which is `row`.
    pub(crate) fn evaluate<W: Works>(
        &mut self,
        term: u16,
        row: Term,
        environment: Environment,
        works: &W,
    ) -> Result<(), StepFault>
        requires work { WorkIn self.old.store (Phase.Eval term environment) self.old.continuation }
        requires live { Lands self.old.stations (row_stepped (shown (W.Gauges.readings works.now) (W.Works.settings works.now)) self.old term environment row) }
        ensures { Ends result self.old self.new (shown (W.Gauges.readings works.now) (W.Works.settings works.now)) (shown (W.Gauges.readings works.now) (W.Works.settings works.now)) (evaluated (shown (W.Gauges.readings works.now) (W.Works.settings works.now)) self.old term environment row) }
    {
        let next = self.continuation;
        match row {
            Term::Num(number) => self.go_on(next, Phase::Back(Value::Number(number))),
            Term::Value(count) => self.value(environment, count),
            Term::Lam { .. } => self.go_on(
                next,
                Phase::Back(Value::Function { term, environment }),
            ),
            Term::Boxed(_) => self.go_on(next, Phase::Back(Value::Code { term, environment })),
            Term::App { function, argument } => return self.push(
                Task::Apply {
                    argument,
                    environment,
                },
                next,
                function,
                environment,
            ),
            Term::Unbox(part) => return self.push(Task::Unbox, next, part, environment),
            Term::Here(part) => return self.push(Task::Publish, next, part, environment),
            Term::Letd { address, body } => return self.push(
                Task::Open { body, environment },
                next,
                address,
                environment,
            ),
            Term::Get { world, part, .. } => {
                let site = self.site_of(environment, world);
                return self.get(site, part, environment);
            }
            Term::Pair { left, right } => return self.push(
                Task::Pair { right, environment },
                next,
                left,
                environment,
            ),
            Term::Fst(part) => return self.push(Task::First, next, part, environment),
            Term::Snd(part) => return self.push(Task::Second, next, part, environment),
            Term::Letcc { body, .. } => return self.catch(body, environment),
            Term::Throw {
                continuation,
                part,
                ..
            } => {
                let (site, kept) = self.kept_of(environment, continuation);
                self.resume(
                    site,
                    kept,
                    Phase::Eval {
                        term: part,
                        environment,
                    },
                );
            }
            Term::Go { world, part, .. } => {
                let site = self.site_of(environment, world);
                self.leave(site, part, environment);
            }
            Term::Gauge(number) => return self.gauge(number, works),
            Term::Gate { number, part } => return self.push(
                Task::Set(number),
                next,
                part,
                environment,
            ),
            Term::Below {
                left,
                right,
                less,
                otherwise,
                ..
            } => {
                return self.push(
                    Task::Compare {
                        right,
                        less,
                        otherwise,
                        environment,
                    },
                    next,
                    left,
                    environment,
                );
            }
        }
        Ok(())
    }
}
