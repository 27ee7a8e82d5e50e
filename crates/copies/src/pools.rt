//! Copies the objects of a pool, rising. If it can't be known of some whether they are there, they are passed over.

ghost use Rattle.std.specs.Io.KnownBytes.{Appends};
ghost use Rattle.std.specs.Prelude.{◌≡◌, ◌<◌, ◌≤◌, ◌-◌, IfErr, IfNone, IfOk, IfSome, IsTrue, OnOk, true};
ghost use Rattle.base.specs.disk.Disk.{bytes_of};
ghost use Rattle.base.specs.formats.Limits.{object_count};
ghost use Rattle.inspections.specs.PoolDamages.{IsOfNoDamage};
ghost use Rattle.object_views.specs.PoolPaths.{AreFoundOn, ArePathsOf};
ghost use Rattle.read_commands.specs.Checks.{IsOnlyRead};
ghost use Rattle.copies.specs.Copies.{CopiesObjects};
ghost use Rattle.copies.specs.Lines.{missing_line};
ghost use Rattle.copies.specs.Stops.{IsStopFor, IsStopOf, StaysAlone};
ghost use Rattle.copies.specs.declared.missing.Missing.TheVariants as lack;

use crate::missing::{Missing, write_missing};
use crate::objects::copy_object;
use crate::stop::Stop;
use base::{ENTRY_COUNT, OBJECT_COUNT, ObjectId, PoolError};
use device_model::SectorDevice;
use object_views::PoolPaths;
use pool_threads::Handle;
use std::alloc::Global;
use std::io::Write;
use std::sync::Wait;
use trees::BlockDamage;

/// The kind of a root, and that of a directory.
const ROOT_KIND: u64 = 2;

const DIRECTORY_KIND: u64 = 3;

/// Copies what can be read of the objects of a pool into the pool of a handle, by rising numbers. Returns whether that
/// was all.
pub(crate) fn copy_objects<R: Wait, D: SectorDevice, N: SectorDevice, W: Write>(
    rt: &R,
    alloc: Global,
    paths: &PoolPaths,
    skips: bool,
    old: &mut D,
    new: &mut Handle<'_, N>,
    out: &mut W,
) -> Result<bool, Stop>
    requires fits { AreFoundOn (D.size old.old) paths.now }
    requires paths { IsTrue D.keeps_model → ArePathsOf (bytes_of (D.disk old.old).now) paths.now }
    ensures reads { IsOnlyRead D.SectorDevice old.old old.new }
    ensures answered { OnOk result (D.refused old.new ≡ D.refused old.old) }
    ensures copied { IfOk result (λ whole. CopiesObjects D.keeps_model (D.disk old.old) skips
        0 object_count whole new.old new.new (W.contents out.old) (W.contents out.new)) }
    ensures stopped { IfErr result (IsStopOf D.keeps_model (D.disk old.old) skips) }
    ensures stays { StaysAlone new.old new.new }
{
    let mut number = 0;
    let mut is_whole = true;
    while number < OBJECT_COUNT {
        let copied = copy_next(rt, alloc, paths, ObjectId(number), skips, old, new, out)?;
        number = copied.0;
        is_whole &= copied.1;
    }
    Ok(is_whole)
}

// Copies what can be read of an object, or passes over those from it on that have the same damage above them. Returns the
// number that is next, and whether all before it is in the copy.
fn copy_next<R: Wait, D: SectorDevice, N: SectorDevice, W: Write>(
    rt: &R,
    alloc: Global,
    paths: &PoolPaths,
    object: ObjectId,
    skips: bool,
    old: &mut D,
    new: &mut Handle<'_, N>,
    out: &mut W,
) -> Result<(u32, bool), Stop>
    requires fits { AreFoundOn (D.size old.old) paths.now }
    requires paths { IsTrue D.keeps_model → ArePathsOf (bytes_of (D.disk old.old).now) paths.now }
    requires object { object.0 < object_count }
    ensures reads { IsOnlyRead D.SectorDevice old.old old.new }
    ensures answered { OnOk result (D.refused old.new ≡ D.refused old.old) }
    ensures copied { IfOk result (λ c. CopiesObjects D.keeps_model (D.disk old.old) skips
        object.0 c.0 c.1 new.old new.new (W.contents out.old) (W.contents out.new)) }
    ensures next { IfOk result (λ c. (object.0 < c.0) × (c.0 ≤ object_count)) }
    ensures stopped { IfErr result (IsStopOf D.keeps_model (D.disk old.old) skips) }
    ensures stays { StaysAlone new.old new.new }
{
    match paths.view(alloc, old, object) {
        Ok(view) => match copy_object(rt, alloc, &view, object, skips, old, new, out) {
            Ok(is_whole) => Ok((object.0 + 1, is_whole)),
            Err(stop) => Err(stop),
        },
        Err(refusal) => match damage_of(refusal) {
            Some(damage) => match pass_objects(object, damage, skips, out) {
                Ok(after) => Ok((after, false)),
                Err(stop) => Err(stop),
            },
            None => Err(Stop::Old(refusal)),
        },
    }
}

// The damage that a refusal names, if it names one.
fn damage_of(refusal: PoolError) -> Option<BlockDamage>
    ensures damage { IfSome result (λ d. refusal ≡ PoolError.Damaged d.kind d.address) }
    ensures none { IfNone result (IsOfNoDamage refusal) }
{
    match refusal {
        PoolError::Damaged { kind, address } => Some(BlockDamage { kind, address }),
        _ => None,
    }
}

// Writes the line of the objects from this one on that have this damage above them. Returns the number after them.
fn pass_objects<W: Write>(
    object: ObjectId,
    damage: BlockDamage,
    skips: bool,
    out: &mut W,
) -> Result<u32, Stop>
    requires { object.0 < object_count }
    ensures next { IfOk result (λ after. (object.0 < after) × (after ≤ object_count)) }
    ensures written { IfOk result (λ after. Appends (W.contents out.old) (W.contents out.new)
        (missing_line (lack.Objects object (record { 0 = after - 1 }) damage))) }
    ensures allowed { OnOk result (skips ≡ true) }
    ensures stopped { IfErr result (IsStopFor damage skips) }
{
    if !skips {
        return Err(Stop::Old(PoolError::Damaged {
            kind: damage.kind,
            address: damage.address,
        }));
    }
    let after = after_damage(object.0, damage.kind);
    write_missing(Missing::Objects(object, ObjectId(after - 1), damage), out)?;
    Ok(after)
}

// The number after the objects from this one on that have a damage of this kind above them: all of them, those of its
// directory, or it alone.
fn after_damage(number: u32, kind: u64) -> u32
    requires { number < object_count }
    ensures { (number < result) × (result ≤ object_count) }
{
    if kind == ROOT_KIND {
        OBJECT_COUNT
    } else if kind == DIRECTORY_KIND {
        let entries = ENTRY_COUNT as u32;
        (number / entries + 1) * entries
    } else {
        number + 1
    }
}
