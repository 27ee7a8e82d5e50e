//! What holds of tables of names that are written: each function's contract is a law, and its body does nothing.

ghost use Rattle.object_names.specs.Laws.{SlotsChangeOneName};

/// If the slot of an object is written with a name that no other object has, or with none, object 0 is a table of
/// names again, and each other object has the name that it had. An object 0 without bytes gets the header before.
pub fn slots_change_one_name()
    ensures { SlotsChangeOneName }
{}
