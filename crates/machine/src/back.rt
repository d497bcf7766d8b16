// Back with a value to the top frame. The value and what it goes back over stay two parameters: the rules of the calculus name them apart,
// and so does the state that they are written into.
ghost use Rattle.std.specs.Prelude.{◌≡◌, ◌+◌, ◌<◌, ◌≤◌, true, length, if◌then◌else◌, nat_lt};
ghost use Rattle.std.proofs.Math.Option.{some};
ghost use Rattle.std.proofs.Math.ListN.{get_elem?};
ghost use Rattle.calculus.specs.Step.{Works as Showing};
ghost use Rattle.calculus.specs.Program.{Program, body_of};
ghost use Rattle.calculus.specs.Machine.{pair};
ghost use Rattle.calculus.specs.Limits.{lacking, no_place};
ghost use Rattle.machine.specs.Meaning.{state_of};
ghost use Rattle.machine.specs.Sound.{TaskIn, EnvironmentIn, ValueIn, WorkIn};
ghost use Rattle.machine.specs.Answers.{Goes, Ends, Lands, is_number, is_function, is_code, is_address, is_pair, answered, framed, worked, gated, chosen, shown, held, of_terms};
ghost use Rattle.machine.specs.declared.parts.Task.TheVariants.{Applied as to_call, Unbox as to_unbox, Open as to_open};

use crate::parts::*;
use crate::registers::set_gate;
use instruments::works::Works;
use syntax::program::Term;

// The row of a term.
pub(crate) fn row_at(program: &[Term], term: u16) -> Term
    requires { term < length program.now }
    ensures { get_elem? program.now term ≡ some result }
{
    program[term as usize]
}

// The body of the `lam` or `box` with that number.
fn body(program: &[Term], term: u16) -> u16
    ensures { result ≡ body_of (of_terms program.now) term }
{
    if (term as usize) >= program.len() {
        return 0;
    }
    match row_at(program, term) {
        Term::Lam { body, .. } => body,
        Term::Boxed(body) => body,
        _ => 0,
    }
}

// The first of two parts where one number is below another, and else the second.
fn pick(left: u16, right: u16, less: u16, otherwise: u16) -> u16
    ensures { result ≡ (if nat_lt left right then less else otherwise) }
{
    if left < right { less } else { otherwise }
}

impl State {
    // Calls a function with a value.
    fn call(
        &mut self,
        program: &[Term],
        function: Value,
        value: Value,
        next: Continuation,
    ) -> Result<(), StepFault>
        requires function { ValueIn self.old.store.cells.items (length self.old.store.cells.items) function }
        requires work { WorkIn self.old.store (Phase.Back value) next }
        requires kind { is_function (held self.old function) ≡ true }
        ensures { (v : Showing) → Ends result self.old self.new v v (worked v self.old (of_terms program.now) next value (to_call function)) }
    {
        let Value::Function { term, environment } = function else {
            unreachable()
        };
        self.bind(Bound::Value(value), environment, next, body(program, term))
    }

    // Evaluates the body of code at the site where work stands.
    fn unbox(&mut self, program: &[Term], value: Value, next: Continuation) -> Result<(), StepFault>
        requires work { WorkIn self.old.store (Phase.Back value) next }
        requires kind { is_code (held self.old value) ≡ true }
        ensures { (v : Showing) → Ends result self.old self.new v v (worked v self.old (of_terms program.now) next value to_unbox) }
    {
        let Value::Code { term, environment } = value else {
            unreachable()
        };
        self.bind(
            Bound::World(self.site),
            environment,
            next,
            body(program, term),
        )
    }

    // The halves of a pair.
    fn halves(&self, value: Value) -> (Value, Value)
        requires value { ValueIn self.now.store.cells.items (length self.now.store.cells.items) value }
        requires kind { is_pair (held self.now value) ≡ true }
        ensures left { ValueIn self.now.store.cells.items (length self.now.store.cells.items) result.0 }
        ensures right { ValueIn self.now.store.cells.items (length self.now.store.cells.items) result.1 }
        ensures is { held self.now value ≡ pair (held self.now result.0) (held self.now result.1) }
    {
        let Value::Pair(place) = value else {
            unreachable()
        };
        let Cell::Pair(left, right) = self.store.cell(place) else {
            unreachable()
        };
        (left, right)
    }

    // Binds the site and the label of an address.
    fn open_address(
        &mut self,
        part: u16,
        environment: Environment,
        value: Value,
        next: Continuation,
    ) -> Result<(), StepFault>
        requires environment { EnvironmentIn (length self.old.store.cells.items) environment }
        requires work { WorkIn self.old.store (Phase.Back value) next }
        requires kind { is_address (held self.old value) ≡ true }
        ensures { (v : Showing) (P : Program) → Ends result self.old self.new v v (worked v self.old P next value (to_open part environment)) }
    {
        let Value::Address { site, label } = value else {
            unreachable()
        };
        self.open(site, label, environment, next, part)
    }

    // Evaluates one of two parts, by the order of two numbers.
    fn choose(
        &mut self,
        left: Value,
        less: u16,
        otherwise: u16,
        environment: Environment,
        value: Value,
        next: Continuation,
    )
        requires left { ValueIn self.old.store.cells.items (length self.old.store.cells.items) left }
        requires environment { EnvironmentIn (length self.old.store.cells.items) environment }
        requires work { WorkIn self.old.store (Phase.Back value) next }
        requires first { is_number (held self.old left) ≡ true }
        requires second { is_number (held self.old value) ≡ true }
        ensures { (v : Showing) → Goes self.old self.new v (answered (chosen v self.old next left less otherwise environment value) (lacking no_place (state_of self.old))) }
    {
        let Value::Number(one) = left else {
            unreachable()
        };
        let Value::Number(other) = value else {
            unreachable()
        };
        let term = pick(one, other, less, otherwise);
        self.go_on(next, Phase::Eval { term, environment });
    }

    // Sets a gate here to a number, and goes back with it.
    fn set<W: Works>(
        &mut self,
        gate: u16,
        value: Value,
        next: Continuation,
        works: &mut W,
    ) -> Result<(), StepFault>
        requires work { WorkIn self.old.store (Phase.Back value) next }
        requires live { Lands self.old.stations (gated (shown (W.Gauges.readings works.old) (W.Works.settings works.old)) self.old next value gate) }
        ensures { Ends result self.old self.new (shown (W.Gauges.readings works.old) (W.Works.settings works.old)) (shown (W.Gauges.readings works.new) (W.Works.settings works.new)) (answered (gated (shown (W.Gauges.readings works.old) (W.Works.settings works.old)) self.old next value gate) (lacking no_place (state_of self.old))) }
    {
        let Value::Number(number) = value else {
            unreachable()
        };
        set_gate(works, self.site, gate, number)?;
        self.go_on(next, Phase::Back(Value::Number(number)));
        Ok(())
    }

    // Does the task of a frame over `next` with the value that comes back to it.
    pub(crate) fn work<W: Works>(
        &mut self,
        program: &[Term],
        task: Task,
        next: Continuation,
        value: Value,
        works: &mut W,
    ) -> Result<(), StepFault>
        requires task { TaskIn self.old.store.cells.items (length self.old.store.cells.items) task }
        requires work { WorkIn self.old.store (Phase.Back value) next }
        requires live { Lands self.old.stations (framed (shown (W.Gauges.readings works.old) (W.Works.settings works.old)) self.old (of_terms program.now) next value task) }
        ensures { Ends result self.old self.new (shown (W.Gauges.readings works.old) (W.Works.settings works.old)) (shown (W.Gauges.readings works.new) (W.Works.settings works.new)) (worked (shown (W.Gauges.readings works.old) (W.Works.settings works.old)) self.old (of_terms program.now) next value task) }
    {
        match task {
            Task::Apply {
                argument,
                environment,
            } => self.push(Task::Applied(value), next, argument, environment),
            Task::Applied(function) => self.call(program, function, value, next),
            Task::Unbox => self.unbox(program, value, next),
            Task::Publish => self.publish(value, next),
            Task::Open { body, environment } => self.open_address(body, environment, value, next),
            Task::Pair { right, environment } => self.push(
                Task::Paired(value),
                next,
                right,
                environment,
            ),
            Task::Paired(left) => self.join(left, value, next),
            Task::First => {
                let (left, _) = self.halves(value);
                self.go_on(next, Phase::Back(left));
                Ok(())
            }
            Task::Second => {
                let (_, right) = self.halves(value);
                self.go_on(next, Phase::Back(right));
                Ok(())
            }
            Task::Compare {
                right,
                less,
                otherwise,
                environment,
            } => {
                self.push(
                    Task::Compared {
                        left: value,
                        less,
                        otherwise,
                        environment,
                    },
                    next,
                    right,
                    environment,
                )
            }
            Task::Compared {
                left,
                less,
                otherwise,
                environment,
            } => {
                self.choose(left, less, otherwise, environment, value, next);
                Ok(())
            }
            Task::Set(gate) => self.set(gate, value, next, works),
        }
    }
}
