//! A record that is begun: one that a log block can't hold, of which the first part is written and the last one is not.

ghost use Rattle.std.specs.Prelude.{◌≡◌, ◌≤◌, length};
ghost use Rattle.std.proofs.Props.{props};
ghost use Rattle.base.specs.formats.Limits.{log_block_room};
ghost use Rattle.base.specs.formats.Records.{bytes_of_record};
ghost use Rattle.records.specs.Records.{record_fields};

use crate::packing::LOG_BLOCK_ROOM;
use base::{Receipt, Told};
use records::Record;

/// A record of which a part is written. It stays so until it is whole, also when its group is synced. Its operations
/// don't stand here; contracts see them.
#[derive(Drop)]
pub struct BegunRecord {
    /// The receipt of its transaction.
    pub receipt: Receipt,
    // the record
    pub(crate) logged: Told<Record>,
    // all its bytes
    pub(crate) bytes: Vec<u8>,
    // so many of them are written
    pub(crate) written: usize,
    ghost ordinal_is: { receipt.ordinal.0 ≡ logged.value.ordinal.0 },
    ghost group_is: { receipt.group.0 ≡ logged.value.group.0 },
    ghost spelled: { bytes.items ≡ bytes_of_record (record_fields logged.value) } by { Prim.hlevel props },
}

/// A record that contracts see and that doesn't stand in memory.
pub(crate) fn tell_record(logged: &Record) -> Told<Record>
    ensures { result.value ≡ logged.now }
{
    Told::of(logged)
}

impl BegunRecord {
    ghost use Rattle.base.specs.steps.Logs.{next_part};
    ghost use Rattle.intent_log.specs.Fillings.{is_last_part};
    ghost use Rattle.intent_log.specs.Kept.{begun_shown};

    /// Whether its next part is its last one.
    pub(crate) fn is_at_last_part(&self) -> bool
        ensures { result ≡ is_last_part (begun_shown self.now) }
    {
        self.bytes.len().saturating_sub(self.written) <= LOG_BLOCK_ROOM
    }

    /// The bytes that the next log block takes: 4,008 of them, or those that are left.
    pub(crate) fn next_part(&self) -> &[u8]
        ensures part { result.now ≡ next_part (begun_shown self.now) }
        ensures fits { length result.now ≤ log_block_room }
    {
        let from = self.written.min(self.bytes.len());
        let left = &self.bytes[from..];
        &left[..left.len().min(LOG_BLOCK_ROOM)]
    }

    /// The bytes behind the next part.
    pub(crate) fn behind_next_part(&self) -> &[u8] {
        let from = self.written.min(self.bytes.len());
        let left = &self.bytes[from..];
        &left[left.len().min(LOG_BLOCK_ROOM)..]
    }
}
