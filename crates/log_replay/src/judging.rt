//! Whether the operations of a record can take place.

ghost use Rattle.std.specs.Prelude.{◌≡◌, IfErr, OnOk};
ghost use Rattle.contents.specs.Judging.{ApplyTo};
ghost use Rattle.contents.specs.Ops.{AreOpsAllowed};
ghost use Rattle.log_replay.specs.Judged.{IsRefusedOver};

use base::{Op, PoolError};
use contents::judge;
use tree_blocks::ObjectSource;

/// Judges the operations of a record of the piece at an address, over these objects. It takes no memory.
///
/// # Errors
/// `Damaged` with kind 6 and the address if one of them can't take place.
pub fn judge_record<O: ObjectSource>(objects: &O, address: u64, ops: &[Op]) -> Result<(), PoolError>
    requires { AreOpsAllowed ops.now }
    ensures applies { OnOk result (ApplyTo ops.now (O.objects objects.now)) }
    ensures damaged { IfErr result (λ e. e ≡ PoolError.Damaged 6 address) }
    ensures refused { IfErr result (λ _. IsRefusedOver ops.now (O.objects objects.now)) }
{
    match judge(objects, ops) {
        Ok(()) => Ok(()),
        Err(_) => Err(PoolError::Damaged { kind: 6, address }),
    }
}
