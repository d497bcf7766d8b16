// Binding, and the guard that ends what a binder bound.
ghost use Rattle.std.specs.Prelude.{◌≡◌, ◌<◌};
ghost use Rattle.checker.specs.Scopes.{rows_of, BoundValue, BoundWorld, BoundContinuation};

use crate::context::{At, Bound, Context, Height};

// A binder's scope: where it ends, the scope list has its former height.
pub(crate) struct Scope<'a> {
    pub(crate) context: &'a mut Context,
    pub(crate) height: Height,
}

impl Drop for Scope<'_> {
    fn drop(self)
        ensures height { self.exit.0.now.height ≡ self.entry.height }
        ensures written { self.exit.0.now.written ≡ self.entry.context.now.written }
        ensures rows { rows_of self.exit.0.now ≡ rows_of self.entry.context.now }
        ensures values { self.exit.0.now.values.items ≡ self.entry.context.now.values.items }
        ensures continuations { self.exit.0.now.continuations.items ≡ self.entry.context.now.continuations.items }
    {
        let height = self.height;
        self.context.height = height;
        let Scope {
            context: _,
            height: _,
        } = self;
    }
}

// A value and a continuation are bound by two methods: one for both would be handed the list and its count, and be no shorter.
impl Context {
    // Binds a value with a type, at a world.
    pub(crate) fn bind_value(&mut self, ty: u16, world: At)
        requires { self.old.height.values < 1024 }
        ensures { BoundValue self.old self.new (record { ty = ty; world = world }) }
    {
        let place = self.height.values;
        self.values[place] = Bound { ty, world };
        self.height.values = place + 1;
    }

    // Binds a world.
    pub(crate) fn bind_world(&mut self)
        requires { self.old.height.worlds < 1024 }
        ensures { BoundWorld self.old self.new }
    {
        self.height.worlds += 1;
    }

    // Binds a continuation that expects a type, at a world.
    pub(crate) fn bind_continuation(&mut self, ty: u16, world: At)
        requires { self.old.height.continuations < 1024 }
        ensures { BoundContinuation self.old self.new (record { ty = ty; world = world }) }
    {
        let place = self.height.continuations;
        self.continuations[place] = Bound { ty, world };
        self.height.continuations = place + 1;
    }
}
