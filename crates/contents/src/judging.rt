//! Operations that are judged before they take place, each by whether its object is there. A name that is given, and is
//! one, is never refused.
//!
//! If there are few operations, what those before made of an object is found by going through them. If there are many,
//! it is noted in a table of all numbers, on the stack. So the cost grows with the operations, and none takes memory.

ghost use Rattle.std.specs.Prelude.{◌≡◌, ◌++◌, ◌∷◌, Bool, List, [], length};
ghost use Rattle.base.specs.declared.operation.Op.{Op};
ghost use Rattle.base.specs.formats.Limits.{object_count};
ghost use Rattle.contents.specs.Judging.{ApplyTo, JudgesOver, TellsAfter};
ghost use Rattle.contents.specs.Ops.{AreOpsAllowed, IsOpAllowed};
ghost use Rattle.contents.specs.Presence.{AreNoted, IsMade, IsMadeFor, is_present_after, is_there_noted};

use base::{OBJECT_COUNT, ObjectId, Op, PoolError};
use tree_blocks::ObjectSource;

/// What operations made of an object.
#[derive(Clone, Copy)]
enum Presence {
    /// None of them creates or removes it.
    AsBefore,
    /// The last of these creates it.
    Created,
    /// The last of these removes it.
    Removed,
}

// The most operations that each go through those before them. With more, a table costs less.
const SHORT_LIST: usize = 32;

/// Judges operations in order, each on the objects after those before it, and gives the first refusal:
/// `Exists` for an object that is created but is there, `NoObject` for one that is removed, written or set to
/// a length but is not there. A new name is not refused: that it is one is the caller's to test. It takes no memory.
pub fn judge<O: ObjectSource>(objects: &O, ops: &[Op]) -> Result<(), PoolError>
    requires { AreOpsAllowed ops.now }
    ensures { JudgesOver ops.now (O.objects objects.now) result }
{
    if ops.len() <= SHORT_LIST {
        judge_few(objects, ops)
    } else {
        judge_many(objects, ops)
    }
}

fn judge_few<O: ObjectSource>(objects: &O, ops: &[Op]) -> Result<(), PoolError>
    ensures { JudgesOver ops.now (O.objects objects.now) result }
{
    for (i, op) in ops.iter().enumerate() {
        judge_after(objects, made_for(&ops[..i], op), op)?;
    }
    Ok(())
}

fn judge_many<O: ObjectSource>(objects: &O, ops: &[Op]) -> Result<(), PoolError>
    requires { AreOpsAllowed ops.now }
    ensures { JudgesOver ops.now (O.objects objects.now) result }
{
    let mut noted = [Presence::AsBefore; OBJECT_COUNT as usize];
    for op in ops {
        judge_after(objects, noted_for(&noted, op), op)?;
        note(&mut noted, op);
    }
    Ok(())
}

// Judges an operation after others that apply, from what these made of its object.
fn judge_after<O: ObjectSource>(objects: &O, made: Presence, op: &Op) -> Result<(), PoolError>
    ensures { (before : List Op) → IsMadeFor before op.now made
        → ApplyTo before (O.objects objects.now)
        → JudgesOver (before ++ (op.now ∷ [])) (O.objects objects.now) result }
{
    match op {
        Op::Create(id) => {
            if has_after(objects, made, *id) {
                return Err(PoolError::Exists);
            }
            Ok(())
        }
        Op::Remove(id) | Op::Write(id, _, _) | Op::SetLength(id, _) => {
            if !has_after(objects, made, *id) {
                return Err(PoolError::NoObject);
            }
            Ok(())
        }
        Op::SetName(_) => Ok(()),
    }
}

// Whether an object is there after operations that apply: as the last of them that creates or removes it says,
// and if none does, as it is now.
fn has_after<O: ObjectSource>(objects: &O, made: Presence, id: ObjectId) -> bool
    ensures { (before : List Op) → IsMade before id.0 made
        → TellsAfter before (O.objects objects.now) id.0 result }
{
    match made {
        Presence::AsBefore => objects.has(id),
        Presence::Created => true,
        Presence::Removed => false,
    }
}

// What operations make of the object of another, sought among them.
fn made_for(before: &[Op], op: &Op) -> Presence
    ensures { IsMadeFor before.now op.now result }
{
    match op {
        Op::Create(id) | Op::Remove(id) | Op::Write(id, _, _) | Op::SetLength(id, _) => {
            last_made(before, *id)
        }
        Op::SetName(_) => Presence::AsBefore,
    }
}

fn last_made(ops: &[Op], id: ObjectId) -> Presence
    ensures { IsMade ops.now id.0 result }
{
    let mut made = Presence::AsBefore;
    for op in ops {
        made = made_after(op, id, made);
    }
    made
}

fn made_after(op: &Op, id: ObjectId, made: Presence) -> Presence
    ensures { (present : Bool) → is_there_noted result present
        ≡ is_present_after id.0 op.now (is_there_noted made present) }
{
    match op {
        Op::Create(other) if other.0 == id.0 => Presence::Created,
        Op::Remove(other) if other.0 == id.0 => Presence::Removed,
        _ => made,
    }
}

// What was noted of the object of an operation.
fn noted_for(noted: &[Presence], op: &Op) -> Presence
    requires allowed { IsOpAllowed op.now }
    requires length { length noted.now ≡ object_count }
    ensures { (before : List Op) → AreNoted before noted.now → IsMadeFor before op.now result }
{
    match op {
        Op::Create(id) | Op::Remove(id) | Op::Write(id, _, _) | Op::SetLength(id, _) => {
            noted[id.0 as usize]
        }
        Op::SetName(_) => Presence::AsBefore,
    }
}

// Notes what an operation makes of its object.
fn note(noted: &mut [Presence], op: &Op)
    requires allowed { IsOpAllowed op.now }
    requires length { length noted.old ≡ object_count }
    ensures length { length noted.new ≡ object_count }
    ensures noted { (before : List Op) → AreNoted before noted.old
        → AreNoted (before ++ (op.now ∷ [])) noted.new }
{
    match op {
        Op::Create(id) => noted[id.0 as usize] = Presence::Created,
        Op::Remove(id) => noted[id.0 as usize] = Presence::Removed,
        _ => {}
    }
}
