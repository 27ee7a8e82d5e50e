//! What holds of what the commands commit: each function's contract is a law, and its body does nothing.

ghost use Rattle.commands.specs.NamedLaws.{NewNamesAreWritten, RemovedNamesAreGone};
ghost use Rattle.commands.specs.Puts.{PutsLeaveBytes};

/// Whatever contents they are applied to, the transactions of a put leave the object with its bytes, and all other
/// objects as they were.
pub fn puts_leave_bytes()
    ensures { PutsLeaveBytes }
{}

/// Whatever contents it is applied to, the transaction that makes an object with a name leaves a table of names in which
/// that object has the name and each other object the one that it had, the object with the first of its bytes, and all
/// others as they were.
pub fn new_names_are_written()
    ensures { NewNamesAreWritten }
{}

/// So the transaction that removes an object and its name leaves a table in which it has none, no such object, and all
/// others as they were.
pub fn removed_names_are_gone()
    ensures { RemovedNamesAreGone }
{}
