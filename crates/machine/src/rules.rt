// The ways to go on, by the places that they take. Where a table is full, nothing is taken of any.
ghost use Rattle.std.specs.Prelude.{◌≡◌, ◌+◌, ◌<◌, ◌≤◌, length};
ghost use Rattle.calculus.specs.Step.{Works};
ghost use Rattle.machine.specs.Sound.{TaskIn, EnvironmentIn, BoundIn, ValueIn, WorkIn};
ghost use Rattle.machine.specs.Answers.{Ends, pushing, binding, opening, joining, publishing, getting, catching};

use crate::parts::*;

#[tactic(auto, using(crate::proofs::Sound::store_sound))]
impl State {
    // Pushes a frame over `next`, and evaluates a part.
    pub(crate) fn push(
        &mut self,
        task: Task,
        next: Continuation,
        part: u16,
        environment: Environment,
    ) -> Result<(), StepFault>
        requires task { TaskIn self.old.store.cells.items (length self.old.store.cells.items) task }
        requires work { WorkIn self.old.store (Phase.Eval part environment) next }
        ensures { (v : Works) → Ends result self.old self.new v v (pushing v self.old task next part environment) }
    {
        self.continuation = self.store.push_frame(Frame { task, next })?;
        self.phase = Phase::Eval {
            term: part,
            environment,
        };
        Ok(())
    }

    // Binds, and evaluates a part over `next`.
    pub(crate) fn bind(
        &mut self,
        bound: Bound,
        rest: Environment,
        next: Continuation,
        part: u16,
    ) -> Result<(), StepFault>
        requires bound { BoundIn self.old.store.cells.items (length self.old.store.cells.items) bound }
        requires work { WorkIn self.old.store (Phase.Eval part rest) next }
        ensures { (v : Works) → Ends result self.old self.new v v (binding v self.old bound rest next part) }
    {
        self.store.binding_room(1)?;
        let environment = self.store.bind(bound, rest);
        self.continuation = next;
        self.phase = Phase::Eval {
            term: part,
            environment,
        };
        Ok(())
    }

    // Binds a world and a label at it, and evaluates a part over `next`.
    pub(crate) fn open(
        &mut self,
        site: u16,
        label: u16,
        rest: Environment,
        next: Continuation,
        part: u16,
    ) -> Result<(), StepFault>
        requires work { WorkIn self.old.store (Phase.Eval part rest) next }
        ensures { (v : Works) → Ends result self.old self.new v v (opening v self.old site label rest next part) }
    {
        self.store.binding_room(2)?;
        let world = self.store.bind(Bound::World(site), rest);
        let environment = self.store.bind(Bound::Label { site, label }, world);
        self.continuation = next;
        self.phase = Phase::Eval {
            term: part,
            environment,
        };
        Ok(())
    }

    // Makes a pair, and goes back with it over `next`.
    pub(crate) fn join(
        &mut self,
        left: Value,
        right: Value,
        next: Continuation,
    ) -> Result<(), StepFault>
        requires left { ValueIn self.old.store.cells.items (length self.old.store.cells.items) left }
        requires work { WorkIn self.old.store (Phase.Back right) next }
        ensures { (v : Works) → Ends result self.old self.new v v (joining v self.old left right next) }
    {
        self.store.pair_room()?;
        let value = self.store.join(left, right);
        self.continuation = next;
        self.phase = Phase::Back(value);
        Ok(())
    }

    // Publishes a value here, and goes back with its address over `next`.
    pub(crate) fn publish(&mut self, value: Value, next: Continuation) -> Result<(), StepFault>
        requires work { WorkIn self.old.store (Phase.Back value) next }
        ensures { (v : Works) → Ends result self.old self.new v v (publishing v self.old value next) }
    {
        let site = self.site;
        let label = self.store.publish(site, value)?;
        self.continuation = next;
        self.phase = Phase::Back(Value::Address { site, label });
        Ok(())
    }

    // Keeps the continuation here, and evaluates a part at another site.
    pub(crate) fn get(
        &mut self,
        site: u16,
        part: u16,
        environment: Environment,
    ) -> Result<(), StepFault>
        requires within { site < self.old.stations }
        requires environment { EnvironmentIn (length self.old.store.cells.items) environment }
        ensures { (v : Works) → Ends result self.old self.new v v (getting v self.old site part environment) }
    {
        let here = self.site;
        let continuation = self.continuation;
        let kept = self.store.keep(here, continuation)?;
        self.site = site;
        self.continuation = Continuation::Return { site: here, kept };
        self.phase = Phase::Eval {
            term: part,
            environment,
        };
        Ok(())
    }

    // Keeps the continuation here and binds it, and evaluates a part.
    pub(crate) fn catch(&mut self, part: u16, rest: Environment) -> Result<(), StepFault>
        requires rest { EnvironmentIn (length self.old.store.cells.items) rest }
        ensures { (v : Works) → Ends result self.old self.new v v (catching v self.old part rest) }
    {
        let site = self.site;
        let continuation = self.continuation;
        self.store.binding_room(1)?;
        let kept = self.store.keep(site, continuation)?;
        let environment = self.store.bind(Bound::Continuation { site, kept }, rest);
        self.phase = Phase::Eval {
            term: part,
            environment,
        };
        Ok(())
    }
}
