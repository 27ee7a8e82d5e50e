//! Copies one object: the new pool makes it with its length, and then gets its records, rising.

ghost use Rattle.std.specs.Io.KnownBytes.{Appends};
ghost use Rattle.std.specs.Prelude.{◌≡◌, ◌<◌, ◌≤◌, ◌+◌, [], ◌∷◌, IfErr, IfOk, IsTrue, OnOk, true};
ghost use Rattle.base.specs.declared.operation.Op.TheVariants.{Create, SetLength};
ghost use Rattle.base.specs.disk.Disk.{bytes_of};
ghost use Rattle.base.specs.formats.Limits.{object_count};
ghost use Rattle.object_views.specs.ObjectViews.{FitsOn, IsObjectViewOf, object_of};
ghost use Rattle.read_commands.specs.Checks.{IsOnlyRead};
ghost use Rattle.copies.specs.Copies.{AreChecked, CopiesObjects, CopiesRecords, IsLostFrom, MakesAll, WritesUnlessZeros};
ghost use Rattle.copies.specs.Lines.{missing_line};
ghost use Rattle.copies.specs.ReadRecords.{IsAligned};
ghost use Rattle.copies.specs.Stops.{IsStopOf, StaysAlone};
ghost use Rattle.copies.specs.declared.missing.Missing.TheVariants as lack;

use crate::missing::{Missing, write_missing};
use crate::old_records::{ReadRecord, lost_end, read_record, record_from};
use crate::stop::Stop;
use base::{Bytes, ObjectId, Op, Ops, PoolError, Range, are_zeros};
use device_model::SectorDevice;
use object_views::ObjectView;
use pool_threads::Handle;
use running_pools::OWNER;
use std::alloc::Global;
use std::io::Write;
use std::sync::Wait;
use trees::BlockDamage;

/// Copies what can be read of an object, if it is there. Returns whether that was all of it.
pub(crate) fn copy_object<R: Wait, D: SectorDevice, N: SectorDevice, W: Write>(
    rt: &R,
    alloc: Global,
    view: &ObjectView,
    object: ObjectId,
    skips: bool,
    old: &mut D,
    new: &mut Handle<'_, N>,
    out: &mut W,
) -> Result<bool, Stop>
    requires fits { FitsOn (D.size old.old) view.now }
    requires object { object_of view.now ≡ object.0 }
    requires number { object.0 < object_count }
    requires seen { IsTrue D.keeps_model → IsObjectViewOf (bytes_of (D.disk old.old).now) view.now }
    ensures reads { IsOnlyRead D.SectorDevice old.old old.new }
    ensures answered { OnOk result (D.refused old.new ≡ D.refused old.old) }
    ensures copied { IfOk result (λ whole. CopiesObjects D.keeps_model (D.disk old.old) skips
        object.0 (object.0 + 1) whole new.old new.new (W.contents out.old) (W.contents out.new)) }
    ensures stopped { IfErr result (IsStopOf D.keeps_model (D.disk old.old) skips) }
    ensures stays { StaysAlone new.old new.new }
{
    let length = match view.length() {
        Some(length) => length,
        None => return Ok(true),
    };
    match make_object(rt, alloc, new, object, length) {
        Ok(()) => {}
        Err(refusal) => return Err(Stop::New(refusal)),
    }
    copy_records(rt, alloc, view, object, length, skips, old, new, out)
}

// Makes an object of this length, which is a hole.
fn make_object<R: Wait, N: SectorDevice>(
    rt: &R,
    alloc: Global,
    new: &mut Handle<'_, N>,
    object: ObjectId,
    length: u64,
) -> Result<(), PoolError>
    ensures made { OnOk result
        (MakesAll ((Create object ∷ SetLength object length ∷ []) ∷ []) new.old new.new) }
    ensures stays { StaysAlone new.old new.new }
{
    let ops = Ops::new(vec![in alloc; Op::Create(object), Op::SetLength(object, length)]?);
    new.transact(rt, OWNER, ops)?;
    Ok(())
}

// Copies the records of an object of this length, rising.
fn copy_records<R: Wait, D: SectorDevice, N: SectorDevice, W: Write>(
    rt: &R,
    alloc: Global,
    view: &ObjectView,
    object: ObjectId,
    length: u64,
    skips: bool,
    old: &mut D,
    new: &mut Handle<'_, N>,
    out: &mut W,
) -> Result<bool, Stop>
    requires fits { FitsOn (D.size old.old) view.now }
    requires object { object_of view.now ≡ object.0 }
    requires seen { IsTrue D.keeps_model → IsObjectViewOf (bytes_of (D.disk old.old).now) view.now }
    ensures reads { IsOnlyRead D.SectorDevice old.old old.new }
    ensures answered { OnOk result (D.refused old.new ≡ D.refused old.old) }
    ensures copied { IfOk result (λ whole. CopiesRecords D.keeps_model (D.disk old.old) view.now
        skips 0 length whole new.old new.new (W.contents out.old) (W.contents out.new)) }
    ensures stopped { IfErr result (IsStopOf D.keeps_model (D.disk old.old) skips) }
    ensures stays { StaysAlone new.old new.new }
{
    let mut low = 0;
    let mut is_whole = true;
    while low < length {
        let copied = copy_record(rt, alloc, view, object, low, length, skips, old, new, out)?;
        low = copied.0;
        is_whole &= copied.1;
    }
    Ok(is_whole)
}

// Copies the record that begins at this byte, or passes over it and over those after it that can't be read for the same
// damage. Returns the byte that is next, and whether all before it is in the copy.
fn copy_record<R: Wait, D: SectorDevice, N: SectorDevice, W: Write>(
    rt: &R,
    alloc: Global,
    view: &ObjectView,
    object: ObjectId,
    low: u64,
    length: u64,
    skips: bool,
    old: &mut D,
    new: &mut Handle<'_, N>,
    out: &mut W,
) -> Result<(u64, bool), Stop>
    requires fits { FitsOn (D.size old.old) view.now }
    requires object { object_of view.now ≡ object.0 }
    requires seen { IsTrue D.keeps_model → IsObjectViewOf (bytes_of (D.disk old.old).now) view.now }
    requires low { low < length }
    requires aligned { IsAligned low length }
    ensures reads { IsOnlyRead D.SectorDevice old.old old.new }
    ensures answered { OnOk result (D.refused old.new ≡ D.refused old.old) }
    ensures copied { IfOk result (λ c. CopiesRecords D.keeps_model (D.disk old.old) view.now
        skips low c.0 c.1 new.old new.new (W.contents out.old) (W.contents out.new)) }
    ensures next { IfOk result (λ c. (low < c.0) × (c.0 ≤ length) × IsAligned c.0 length) }
    ensures stopped { IfErr result (IsStopOf D.keeps_model (D.disk old.old) skips) }
    ensures stays { StaysAlone new.old new.new }
{
    let range = record_from(low, length);
    let read = match read_record(view, old, alloc, range) {
        Ok(read) => read,
        Err(refusal) => return Err(Stop::Old(refusal)),
    };
    match read {
        ReadRecord::Bytes(bytes) => match write_bytes(rt, alloc, new, object, low, bytes) {
            Ok(()) => Ok((range.high, true)),
            Err(refusal) => Err(Stop::New(refusal)),
        },
        ReadRecord::Damaged(damage) => {
            match pass_over(alloc, view, object, range, length, damage, skips, old, out) {
                Ok(next) => Ok((next, false)),
                Err(stop) => Err(stop),
            }
        }
    }
}

// Writes bytes of a record at this place, unless they are zeros: then they stay a hole.
fn write_bytes<R: Wait, N: SectorDevice>(
    rt: &R,
    alloc: Global,
    new: &mut Handle<'_, N>,
    object: ObjectId,
    at: u64,
    bytes: Bytes,
) -> Result<(), PoolError>
    ensures made { OnOk result (WritesUnlessZeros object at bytes new.old new.new) }
    ensures stays { StaysAlone new.old new.new }
{
    if are_zeros(bytes.as_slice()) {
        return Ok(());
    }
    let ops = Ops::new(vec![in alloc; Op::Write(object, at, bytes)]?);
    new.transact(rt, OWNER, ops)?;
    Ok(())
}

// Writes the line of the records from this one on that can't be read for one damage. Returns where they end.
fn pass_over<D: SectorDevice, W: Write>(
    alloc: Global,
    view: &ObjectView,
    object: ObjectId,
    range: Range,
    length: u64,
    damage: BlockDamage,
    skips: bool,
    old: &mut D,
    out: &mut W,
) -> Result<u64, Stop>
    requires fits { FitsOn (D.size old.old) view.now }
    requires range { (range.low < range.high) × (range.high ≤ length) }
    requires aligned { IsAligned range.high length }
    requires seen { IsTrue D.keeps_model → IsObjectViewOf (bytes_of (D.disk old.old).now) view.now }
    requires lost { IsLostFrom D.keeps_model (D.disk old.old) view.now damage range.low range.high }
    ensures reads { IsOnlyRead D.SectorDevice old.old old.new }
    ensures answered { OnOk result (D.refused old.new ≡ D.refused old.old) }
    ensures lost { IfOk result
        (IsLostFrom D.keeps_model (D.disk old.old) view.now damage range.low) }
    ensures written { IfOk result (λ high. Appends (W.contents out.old) (W.contents out.new)
        (missing_line (lack.Bytes object (record { low = range.low; high = high }) damage))) }
    ensures next { IfOk result (λ high. (range.low < high) × (high ≤ length) × IsAligned high length) }
    ensures allowed { OnOk result (skips ≡ true) }
    ensures stopped { IfErr result (IsStopOf D.keeps_model (D.disk old.old) skips) }
{
    if !skips {
        return Err(Stop::Old(PoolError::Damaged {
            kind: damage.kind,
            address: damage.address,
        }));
    }
    let high = match lost_end(view, old, alloc, range.high, length, damage) {
        Ok(high) => high,
        Err(refusal) => return Err(Stop::Old(refusal)),
    };
    let low = range.low;
    write_missing(Missing::Bytes(object, Range { low, high }, damage), out)?;
    Ok(high)
}
