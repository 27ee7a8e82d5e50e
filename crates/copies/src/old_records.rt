//! The records of an object of the old pool, as they are read.

ghost use Rattle.std.specs.Prelude.{◌≡◌, ◌<◌, ◌≤◌, IfErr, IfOk, IsTrue};
ghost use Rattle.device_model.specs.Reading.{OnlyReads};
ghost use Rattle.object_views.specs.ObjectViews.{FitsOn};
ghost use Rattle.copies.specs.ReadRecords.{AreLost, IsAligned, IsInRecord, IsPlainRefusal, IsRangeRead, IsRecordFrom, OnSeen};

use base::{Bytes, PoolError, RECORD_SIZE, Range};
use device_model::SectorDevice;
use object_views::ObjectView;
use std::alloc::Global;
use trees::BlockDamage;

/// What a record of an object was read as, as far as it lies below the object's end.
#[derive(Drop)]
pub(crate) enum ReadRecord {
    /// These bytes.
    Bytes(Bytes),
    /// None: this block of its path is damaged.
    Damaged(BlockDamage),
}

/// The record that begins at this byte, as far as it lies below the length.
pub(crate) fn record_from(low: u64, length: u64) -> Range
    requires { low < length }
    ensures record { IsRecordFrom low length result }
    ensures inside { IsAligned low length → IsInRecord result }
    ensures next { IsAligned low length → IsAligned result.high length }
{
    Range {
        low,
        high: low.saturating_add(RECORD_SIZE as u64).min(length),
    }
}

/// Reads a record of an object, or finds which block of its path is damaged.
///
/// # Errors
/// Those of `ObjectView::read` but `Damaged`.
pub(crate) fn read_record<D: SectorDevice>(
    view: &ObjectView,
    device: &mut D,
    alloc: Global,
    range: Range,
) -> Result<ReadRecord, PoolError>
    requires fits { FitsOn (D.size device.old) view.now }
    requires inside { IsInRecord range }
    ensures reads { OnlyReads D.SectorDevice result device.old device.new }
    ensures read { OnSeen D.keeps_model (D.disk device.old) view.now (λ image root.
        IfOk result (IsRangeRead image root view.now range)) }
    ensures refused { IfErr result IsPlainRefusal }
{
    match view.read(device, alloc, range) {
        Ok(bytes) => Ok(ReadRecord::Bytes(bytes)),
        Err(PoolError::Damaged { kind, address }) => {
            Ok(ReadRecord::Damaged(BlockDamage { kind, address }))
        }
        Err(refusal) => Err(refusal),
    }
}

impl ReadRecord {
    // Whether it can't be read for this damage.
    fn is_damaged_by(&self, damage: BlockDamage) -> bool
        ensures { IsTrue result → self.now ≡ ReadRecord.Damaged damage }
    {
        match self {
            ReadRecord::Bytes(_) => false,
            ReadRecord::Damaged(found) => {
                found.kind == damage.kind && found.address == damage.address
            }
        }
    }
}

/// Where the records from this byte on end that can't be read for one damage.
///
/// # Errors
/// Those of `read_record`.
pub(crate) fn lost_end<D: SectorDevice>(
    view: &ObjectView,
    device: &mut D,
    alloc: Global,
    low: u64,
    length: u64,
    damage: BlockDamage,
) -> Result<u64, PoolError>
    requires fits { FitsOn (D.size device.old) view.now }
    requires within { low ≤ length }
    requires aligned { IsAligned low length }
    ensures reads { OnlyReads D.SectorDevice result device.old device.new }
    ensures lost { OnSeen D.keeps_model (D.disk device.old) view.now (λ image root.
        IfOk result (AreLost image root view.now damage low)) }
    ensures within { IfOk result (λ end. (low ≤ end) × (end ≤ length)) }
    ensures aligned { IfOk result (λ end. IsAligned end length) }
    ensures refused { IfErr result IsPlainRefusal }
{
    let mut end = low;
    while end < length {
        let range = record_from(end, length);
        let read = read_record(view, device, alloc, range)?;
        if !read.is_damaged_by(damage) {
            return Ok(end);
        }
        end = range.high;
    }
    Ok(end)
}
