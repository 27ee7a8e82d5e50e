//! The records of a log block, from its front to its end.

ghost use Rattle.std.specs.Prelude.{◌≡◌, IfErr, IfOk, IfSome, IfNone, map};
ghost use Rattle.records.specs.Records.{record_fields};
ghost use Rattle.intent_log.specs.Chains.{AreRecordsOf, HasNoRecords, IsRecordOf, IsNoRecord};

use base::PoolError;
use records::{Record, decode_record};
use std::alloc::Global;

/// The records of which these are all the bytes. `None` if there is none, or if the bytes are not whole records within
/// their limits.
///
/// # Errors
/// `NoMemory`.
pub(crate) fn read_records(alloc: Global, bytes: &[u8]) -> Result<Option<Vec<Record>>, PoolError>
    ensures read { IfOk result (λ found. IfSome found
        (λ records. AreRecordsOf bytes.now (map record_fields records.items))) }
    ensures none { IfOk result (λ found. IfNone found (HasNoRecords bytes.now)) }
    ensures refused { IfErr result (λ e. e ≡ PoolError.NoMemory) }
{
    let mut records = Vec::new(alloc);
    let mut rest = bytes;
    for index in 0..bytes.len() {
        let Some((record, after)) = decode_record(alloc, rest)? else {
            return Ok(None);
        };
        records.push(record)?;
        if after.is_empty() {
            return Ok(Some(records));
        }
        rest = after;
    }
    Ok(None)
}

/// The record of which these are all the bytes. `None` if they are none within its limits.
///
/// # Errors
/// `NoMemory`.
pub(crate) fn read_record(alloc: Global, bytes: &[u8]) -> Result<Option<Record>, PoolError>
    ensures read { IfOk result (λ found. IfSome found
        (λ r. IsRecordOf bytes.now (record_fields r))) }
    ensures none { IfOk result (λ found. IfNone found (IsNoRecord bytes.now)) }
    ensures refused { IfErr result (λ e. e ≡ PoolError.NoMemory) }
{
    let Some((record, rest)) = decode_record(alloc, bytes)? else {
        return Ok(None);
    };
    if rest.is_empty() {
        return Ok(Some(record));
    }
    Ok(None)
}
