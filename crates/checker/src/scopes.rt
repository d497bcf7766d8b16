// The scope list of a gateway: one list for all checks.
ghost use Rattle.std.specs.Prelude.{◌≡◌};

use crate::context::Context;

// Between checks nothing is bound.
#[derive(Drop)]
pub struct ScopeList {
    pub(crate) context: Context,
    ghost values: { context.height.values ≡ 0 },
    ghost worlds: { context.height.worlds ≡ 0 },
    ghost continuations: { context.height.continuations ≡ 0 },
}
