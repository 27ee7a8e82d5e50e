//! The blocks that come back: those that a plan replaces.

ghost use Rattle.std.specs.Prelude.{◌≡◌, ◌<◌, vec_len, vec_capacity};
ghost use Rattle.base.specs.formats.Fields.{no_pointer};
ghost use Rattle.tree_plans.specs.Plans.{FreesOnce, FreesOnly, IsAmong, IsOf, Keeps};

use base::Pointer;

/// The block that a pointer names comes back, if it names one. The room for its address is there.
pub fn give_back(freed: &mut Vec<u64>, replaced: &Pointer)
    requires { vec_len freed.old < vec_capacity freed.old }
    ensures kept { Keeps freed.old.items freed.new.items }
    ensures added { (replaced.now ≡ no_pointer → ⊥) → IsAmong freed.new.items replaced.now.address }
    ensures only { FreesOnly freed.old.items freed.new.items replaced.now }
    ensures once { FreesOnce freed.old.items freed.new.items (IsOf replaced.now) }
{
    if !replaced.is_none() {
        freed.push_reserved(replaced.address);
    }
}
