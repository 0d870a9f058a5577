ghost use Rattle.std.specs.Prelude.{◌≡◌};
ghost use Rattle.lfg_context.specs.Sets.{Assignment, arity_of, member, IsMade, TakeAlike};

use crate::contexts::Contexts;
use crate::ctx::Ctx;

/// Law: membership depends on the alternative taken of each choice that was picked, and on nothing
/// else.
pub fn membership_is_by_alternatives(contexts: &Contexts, set: &Ctx)
    requires { IsMade contexts.now set.now }
    ensures { (a b : Assignment) → TakeAlike (arity_of contexts.now) a b → member set.now a ≡ member set.now b }
{
    let _ = contexts;
    let _ = set;
}
