//! What holds of the changes of a group: each function's contract is a law, and its body does nothing.

ghost use Rattle.extents.specs.Laws.{AddedChanges, ChangesFollow, GroupIsRead, LengthsFollow, NothingChanges, StayWithin};

/// What no operation has changed is as it lies below.
pub fn nothing_changes()
    ensures { NothingChanges }
{}

/// The changes of operations, with more operations added, are the changes of them all.
pub fn changes_follow()
    ensures { ChangesFollow }
{}

/// The length of an object follows from its patch and the length of the one below.
pub fn lengths_follow()
    ensures { LengthsFollow }
{}

/// What is added to the changes of a group are the changes of the operations that are added.
pub fn added_changes()
    ensures { AddedChanges }
{}

/// Objects below the last number and no longer than an object may be stay so with the changes of a group laid over
/// them.
pub fn objects_stay_within()
    ensures { StayWithin }
{}

/// The changes of one group, laid over the objects that its operations were applied to, are the objects after them.
pub fn group_is_read()
    ensures { GroupIsRead }
{}
