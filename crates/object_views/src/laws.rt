//! What holds of each object's log records: each function's contract is a law, and its body does nothing.

ghost use Rattle.object_views.specs.OwnLaws.{OwnOperationsSuffice};

/// An object is what its own operations make of it, whatever the others among the records are.
pub fn own_operations_suffice()
    ensures { OwnOperationsSuffice }
{}
