//! What a reply says to a thread, by the states that it has seen before and after: each function's contract is a law,
//! and its body does nothing.

ghost use Rattle.base.specs.steps.SeenLaws.{ContentsAreBetween, CommitsAreSeen, BeginsAreSeen, LocksAreSeen, UnlocksAreSeen, ReadsAreSeen, DurableIsKnown, GroupsGoUp, PoolSyncsSync, RefusalsAreSeen, RefusalsSuspend, SuspensionsAreSeen};

/// The contents of a state between two are replayed by a prefix between their histories.
pub fn contents_are_between()
    ensures { ContentsAreBetween }
{}

/// A commit that returns a receipt is a new entry at its ordinal.
pub fn commits_are_seen()
    ensures { CommitsAreSeen }
{}

/// A begin that returns a name is a new admission of that name.
pub fn begins_are_seen()
    ensures { BeginsAreSeen }
{}

/// A lock that returns a name is a new grant of that name.
pub fn locks_are_seen()
    ensures { LocksAreSeen }
{}

/// An unlock that isn't refused releases a held lock of its caller.
pub fn unlocks_are_seen()
    ensures { UnlocksAreSeen }
{}

/// The bytes that a read returns are those of contents between.
pub fn reads_are_seen()
    ensures { ReadsAreSeen }
{}

/// A receipt that is shown as durable is known to be so from then on.
pub fn durable_is_known()
    ensures { DurableIsKnown }
{}

/// The synced and the open group only go up.
pub fn groups_go_up()
    ensures { GroupsGoUp }
{}

/// A sync of the whole pool syncs a group.
pub fn pool_syncs_sync()
    ensures { PoolSyncsSync }
{}

/// A refusal that is none of memory or the device is that of the step's tests in a state between.
pub fn refusals_are_seen()
    ensures { RefusalsAreSeen }
{}

/// A pool of which a step is refused a write, a flush, or as suspended, is suspended from then on.
pub fn refusals_suspend()
    ensures { RefusalsSuspend }
{}

/// So is one of which a call is refused as suspended.
pub fn suspensions_are_seen()
    ensures { SuspensionsAreSeen }
{}
