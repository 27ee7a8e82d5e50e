//! A write of more bytes than one transaction has room for: it is committed in pieces.
//!
//! 1. Bytes are written in pieces, from the first to the last, each in a transaction of its own.
//! 2. A piece has as many bytes as 16 records hold. So a log record has room for it, and a write from an object's start
//!    writes whole records.
//! 3. If a piece is refused, the pieces before it stay committed.
ghost use Rattle.std.specs.Prelude.{◌≡◌, ◌≤◌, ◌<◌, ◌+◌, [], ◌∷◌, Err, length};
ghost use Rattle.base.specs.declared.operation.Op.TheVariants.{Write};
ghost use Rattle.base.specs.formats.Limits.{max_length};
ghost use Rattle.pool_threads.specs.Handles.{StaysInPool};
ghost use Rattle.pool_threads.specs.LongWrites.{WritesInPieces};
ghost use Rattle.pool_threads.specs.Transacts.{LeavesNothing, TransactsOrLacks};
ghost use Rattle.word_lock.specs.Seats.{HasMetNone};

use crate::handle::Handle;
use base::{Bytes, MAX_LENGTH, ObjectId, Op, Ops, Owner, PoolError, RECORD_SIZE, Receipt};
use device_model::SectorDevice;
use std::sync::Wait;

/// The most bytes that one transaction of [`Handle::write_long`] writes: 64,512, which 16 records hold.
pub const PIECE_SIZE: usize = 16 * RECORD_SIZE;

impl<'p, D: SectorDevice> Handle<'p, D> {
    /// Writes bytes to an object from an offset on, in pieces of [`PIECE_SIZE`] bytes. Each piece is committed in a
    /// transaction of its own, as by `transact`, in rising order.
    ///
    /// It returns the receipt of the last piece. `fsync` of that doesn't promise the pieces before it; `fsync_all`
    /// does. A crash before may leave some of the pieces and lose others. Bytes of one piece take place as a whole, or
    /// not at all.
    ///
    /// No bytes are one piece: the engine refuses it as it does each write of no byte.
    ///
    /// # Errors
    /// The refusal, and how many bytes were committed before it: they stay. `BadRange` and 0 if the bytes don't end
    /// within [`MAX_LENGTH`]; then no step was made (`range`). Else the first refusal of a piece: `NoMemory` if there
    /// is none for its copy, or one of `transact` (`made`).
    pub fn write_long<'a, 'b, W: Wait>(
        &'a mut self,
        rt: &'b W,
        owner: Owner,
        object: ObjectId,
        offset: u64,
        bytes: &[u8],
    ) -> Result<Receipt, (PoolError, u64)>
        ensures made { offset + length bytes.now ≤ max_length
            → WritesInPieces owner object offset bytes.now result self.old self.new }
        ensures range { max_length < offset + length bytes.now
            → (result ≡ Err (PoolError.BadRange, 0)) × (self.new ≡ self.old) }
        ensures same_pool { StaysInPool self.old self.new }
        ensures met_none { HasMetNone self.old.seat self.new.seat }
        ensures released { LeavesNothing self.old self.new }
    {
        if offset > MAX_LENGTH || bytes.len() as u64 > MAX_LENGTH - offset {
            return Err((PoolError::BadRange, 0));
        }
        let (first, rest) = bytes.split_at(PIECE_SIZE.min(bytes.len()));
        let mut receipt = match self.write_piece(rt, owner, object, offset, first) {
            Ok(receipt) => receipt,
            Err(error) => return Err((error, 0)),
        };
        let mut committed = first.len() as u64;
        for piece in rest.chunks(PIECE_SIZE) {
            receipt = match self.write_piece(rt, owner, object, offset + committed, piece) {
                Ok(receipt) => receipt,
                Err(error) => return Err((error, committed)),
            };
            committed += piece.len() as u64;
        }
        Ok(receipt)
    }

    // Commits a write of these bytes alone.
    fn write_piece<'a, 'b, W: Wait>(
        &'a mut self,
        rt: &'b W,
        owner: Owner,
        object: ObjectId,
        at: u64,
        piece: &[u8],
    ) -> Result<Receipt, PoolError>
        ensures made { TransactsOrLacks owner (Write object at piece.now ∷ []) result
            self.old self.new }
        ensures same_pool { StaysInPool self.old self.new }
        ensures met_none { HasMetNone self.old.seat self.new.seat }
        ensures released { LeavesNothing self.old self.new }
    {
        let alloc = self.shared.alloc;
        let bytes = Bytes::from_slice(alloc, piece)?;
        let ops = Ops::new(vec![in alloc; Op::Write(object, at, bytes)]?);
        self.transact(rt, owner, ops)
    }
}
