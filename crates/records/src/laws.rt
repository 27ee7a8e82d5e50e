//! What holds of records: each function's contract is a law, and its body does nothing.

ghost use Rattle.records.specs.Laws.{RecordsAgree, RecordsReadBack};

/// What is spelled of a record within its limits is that record, whatever follows it.
pub fn records_read_back()
    ensures { RecordsReadBack }
{}

/// The front of bytes is one record at most, so each record has one spelling and bytes are those of one list of
/// records.
pub fn records_agree()
    ensures { RecordsAgree }
{}
