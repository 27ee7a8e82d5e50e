//! What holds of every field of a block: each function's contract is a law, and its body does nothing.

ghost use Rattle.base.specs.formats.FieldLaws.{FieldsReadBack, FieldsStay, PointersReadBack};

/// A number that is written reads back.
pub fn fields_read_back()
    ensures { FieldsReadBack }
{}

/// A pointer that is written reads back.
pub fn pointers_read_back()
    ensures { PointersReadBack }
{}

/// A number stays as it is when something else is written.
pub fn fields_stay()
    ensures { FieldsStay }
{}
