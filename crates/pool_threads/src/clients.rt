//! What the calls that make the steps that are due rest on: which reply ends a turn, and which one ends a loop.

ghost use Rattle.std.specs.Prelude.{◌≡◌, IfSome, IsSome, true};

use crate::loops::ending;
use crate::turn::goes_on;
use base::{PoolError, Reply};

fn a_turn_ends_with_a_refused_step(error: PoolError) -> bool
    ensures { result ≡ true → ⊥ }
{
    goes_on(&Reply::Refused(error))
}

fn a_loop_goes_on_if_a_group_is_not_ready() -> Option<PoolError>
    ensures { IfSome result (λ _. ⊥) }
{
    ending(&Some(Reply::Refused(PoolError::NotReady)))
}

fn a_refused_write_ends_a_loop() -> Option<PoolError>
    ensures { IsSome result }
{
    ending(&Some(Reply::Refused(PoolError::Write)))
}
