//! What the log's records change of one object. The operations on the other objects are passed over: they change
//! nothing of it, and it isn't asked whether they can take place.

ghost use Rattle.std.specs.Prelude.{◌≡◌, ◌∷◌, [], ℕ, List, Option, IfErr, IfOk, is_some};
ghost use Rattle.base.specs.formats.Records.{IsAllowed};
ghost use Rattle.base.specs.tree.Mount.{records_above};
ghost use Rattle.log_replay.specs.Replays.{IsChainAllowed, IsPieceAllowed};
ghost use Rattle.log_replay.specs.Walked.{above_at};
ghost use Rattle.contents.specs.Ops.{AreOpsAllowed, IsOpAllowed};
ghost use Rattle.records.specs.Records.{record_fields};
ghost use Rattle.object_views.specs.OwnRecords.{AddsOwn, AreOwnChanges, IsOwnRefusal, can_take_place, is_on, ops_of, own_of_records, own_op, own_ops};

use base::{Group, ObjectId, Op, PoolError};
use extents::Extents;
use intent_log::LoggedPiece;
use records::Record;
use std::alloc::Global;
use std::slice;

// An object, and its length in the tree, if it is there.
#[derive(Clone, Copy)]
pub(crate) struct OwnObject {
    pub(crate) id: ObjectId,
    pub(crate) size: Option<u64>,
}

// Whether an operation is on an object.
fn is_on(op: &Op, id: ObjectId) -> bool
    ensures { result ≡ is_on id.0 op.now }
{
    match op {
        Op::Create(other) | Op::Remove(other) | Op::Write(other, _, _) | Op::SetLength(other, _) =>
            id.0 == other.0,
        Op::SetName(_) => false,
    }
}

// Whether an operation can take place, if this says whether its object is there.
fn can_take_place(op: &Op, is_there: bool) -> bool
    ensures { (object : Option (List ℕ)) → is_some object ≡ is_there
        → result ≡ can_take_place op.now object }
{
    match op {
        Op::Create(_) => !is_there,
        Op::Remove(_) | Op::Write(_, _, _) | Op::SetLength(_, _) => is_there,
        Op::SetName(_) => true,
    }
}

impl OwnObject {
    // What the records of a chain change of the object: those of groups above this one, in order.
    pub(crate) fn replay(
        &self,
        alloc: Global,
        group: Group,
        pieces: &[LoggedPiece],
    ) -> Result<Extents, PoolError>
        requires { IsChainAllowed pieces.now }
        ensures changes { IfOk result (AreOwnChanges self.now.id.0 self.now.size
            (ops_of (own_of_records self.now.id.0 (records_above group.0 pieces.now)))) }
        ensures refused { IfErr result (IsOwnRefusal self.now.id.0 self.now.size []
            (own_of_records self.now.id.0 (records_above group.0 pieces.now))) }
    {
        let mut changes = Extents::new(alloc);
        for piece in pieces {
            self.add_piece(&mut changes, group, piece)?;
        }
        Ok(changes)
    }

    fn add_piece(
        &self,
        changes: &mut Extents,
        group: Group,
        piece: &LoggedPiece,
    ) -> Result<(), PoolError>
        requires { IsPieceAllowed piece.now }
        ensures { AddsOwn self.now.id.0 self.now.size
            (own_of_records self.now.id.0 (records_above group.0 (piece.now ∷ [])))
            changes.old result changes.new }
    {
        let address = piece.address();
        let records = piece.records();
        for logged in records {
            self.add_record(changes, group, address, logged)?;
        }
        Ok(())
    }

    // Adds a record of the piece at this address, if it is of a group above this one.
    fn add_record(
        &self,
        changes: &mut Extents,
        group: Group,
        address: u64,
        logged: &Record,
    ) -> Result<(), PoolError>
        requires { IsAllowed (record_fields logged.now) }
        ensures { AddsOwn self.now.id.0 self.now.size
            (own_of_records self.now.id.0 (above_at group.0 address (logged.now ∷ [])))
            changes.old result changes.new }
    {
        if logged.group.0 <= group.0 {
            return Ok(());
        }
        self.add_ops(changes, address, logged.ops.as_slice())
    }

    fn add_ops(&self, changes: &mut Extents, address: u64, ops: &[Op]) -> Result<(), PoolError>
        requires { AreOpsAllowed ops.now }
        ensures { AddsOwn self.now.id.0 self.now.size (own_ops self.now.id.0 address ops.now)
            changes.old result changes.new }
    {
        for op in ops {
            self.add_op(changes, address, op)?;
        }
        Ok(())
    }

    // Adds an operation of a record of the piece at this address, if it is on the object.
    fn add_op(&self, changes: &mut Extents, address: u64, op: &Op) -> Result<(), PoolError>
        requires { IsOpAllowed op.now }
        ensures { AddsOwn self.now.id.0 self.now.size (own_op self.now.id.0 address op.now)
            changes.old result changes.new }
    {
        if !is_on(op, self.id) {
            return Ok(());
        }
        let is_there = changes.length_over(self.id, self.size).is_some();
        if !can_take_place(op, is_there) {
            return Err(PoolError::Damaged { kind: 6, address });
        }
        changes.add(slice::from_ref(op))?;
        Ok(())
    }
}
