//! Why a call of a pool is refused: one enum for all crates, with its numbers and its texts.
//!
//! Each step has its tests in a fixed order, and the first that applies is its refusal
//! (`specs/steps/Refusals`). `NoMemory` and the refusals of the device come after them.

use std::alloc::{AllocError, AllocFailed};
use thiserror::Error;

/// Why a call of a pool is refused.
///
/// Its text is a sentence that says what happened, without a full stop. [`PoolError::name`] and
/// [`PoolError::number`] are the short forms that the program prints.
#[derive(Clone, Copy, Debug, PartialEq, Eq, Error)]
pub enum PoolError {
    /// There is no memory for the call.
    #[error("there is no memory for the call")]
    NoMemory,
    /// The device refused a read.
    #[error("the device refused a read")]
    Read,
    /// The device refused a write.
    #[error("the device refused a write")]
    Write,
    /// The device refused a flush.
    #[error("the device refused a flush")]
    Flush,
    /// A write or a flush of a sync or of the log was refused before. The pool takes no step any more; a new import
    /// does.
    #[error("the pool is suspended: a write or a flush was refused before")]
    Suspended,
    /// No label has a valid uberblock, or no label has a config for the active one.
    #[error("the device holds no pool: no label has a valid uberblock with a config")]
    NoPool,
    /// A block is not what the pool's tree or log says of it.
    #[error("the block of kind {kind} at byte {address} is damaged")]
    Damaged {
        /// The kind of the block: 2 root, 3 directory, 4 indirect, 5 data, 6 log, 7 top.
        kind: u64,
        /// Its byte address on the device.
        address: u64,
    },
    /// The device has a size that no pool may have.
    #[error("a pool can't have the size of this device")]
    BadGeometry,
    /// There is no such object.
    #[error("there is no such object")]
    NoObject,
    /// The object exists already.
    #[error("the object exists already")]
    Exists,
    /// A number, a range, a plan, a name or a limit is out of bounds.
    #[error("a number, a range, a plan, a name or a limit is out of bounds")]
    BadRange,
    /// The operations are not those of the transaction's plan.
    #[error("the operations are not those of the transaction's plan")]
    OutOfPlan,
    /// No lock of the owner covers the range.
    #[error("no lock of the owner covers the range")]
    NotLocked,
    /// The range overlaps a held lock, or one of an open transaction.
    #[error("the range overlaps one that is locked")]
    Busy,
    /// An open transaction has a range in the lock.
    #[error("an open transaction uses the lock")]
    LockInUse,
    /// There are not enough free blocks.
    #[error("there are not enough free blocks")]
    NoSpace,
    /// The unsynced groups would be charged more bytes than the pool's limit.
    #[error("too many bytes are not synced yet: sync a group first")]
    Throttled,
    /// The transaction's log record would have more than 65,536 bytes (`MAX_LOG_RECORD`).
    #[error("the transaction's log record would have more than 65536 bytes")]
    TooLarge,
    /// No such transaction is open.
    #[error("no such transaction is open")]
    NoSuchTransaction,
    /// The transaction groups are not ready for this step, or no record is pending for a log block, or no log block
    /// awaits a flush.
    #[error("the transaction groups are not ready for this step")]
    NotReady,
    /// No such lock is held, or another owner holds it.
    #[error("the owner holds no such lock")]
    NoSuchLock,
    /// There are as many locks or transactions as there may be, or the next number is past its last.
    #[error("there are as many locks or transactions as there may be, or no number is left")]
    TooMany,
    /// There is no block for the log, or its next number is past its last.
    #[error("there is no block for the log, or no log number is left")]
    NoLogSpace,
}

impl From<AllocError> for PoolError {
    ghost use Rattle.std.specs.Prelude.{◌≡◌};
    ghost use Rattle.base.specs.declared.error.PoolError.TheVariants.{NoMemory};

    ghost from_gives = { λ _ e. e ≡ NoMemory };

    fn from(_error: AllocError) -> PoolError {
        PoolError::NoMemory
    }
}

impl<T: Drop> From<AllocFailed<T>> for PoolError {
    ghost use Rattle.std.specs.Prelude.{◌≡◌};
    ghost use Rattle.base.specs.declared.error.PoolError.TheVariants.{NoMemory};

    ghost from_gives = { λ _ e. e ≡ NoMemory };

    fn from(_failed: AllocFailed<T>) -> PoolError {
        PoolError::NoMemory
    }
}

impl<D: Drop> From<(PoolError, D)> for PoolError {
    ghost use Rattle.std.specs.Prelude.{◌≡◌};

    ghost from_gives = { λ given e. e ≡ given.0 };

    /// The refusal of a call that gives back what it took, such as a device. So `?` works on it.
    fn from(given: (PoolError, D)) -> PoolError {
        let (error, _given_back) = given;
        error
    }
}

impl PoolError {
    ghost use Rattle.std.specs.Prelude.{◌≡◌};
    ghost use Rattle.base.specs.formats.Errors.{name_of_error, number_of_error};

    /// The refusal's number, from 1 to 23.
    pub fn number(&self) -> u8
        ensures { result ≡ number_of_error self.now }
    {
        match self {
            PoolError::NoMemory => 1,
            PoolError::Read => 2,
            PoolError::Write => 3,
            PoolError::Flush => 4,
            PoolError::Suspended => 5,
            PoolError::NoPool => 6,
            PoolError::Damaged { .. } => 7,
            PoolError::BadGeometry => 8,
            PoolError::NoObject => 9,
            PoolError::Exists => 10,
            PoolError::BadRange => 11,
            PoolError::OutOfPlan => 12,
            PoolError::NotLocked => 13,
            PoolError::Busy => 14,
            PoolError::LockInUse => 15,
            PoolError::NoSpace => 16,
            PoolError::Throttled => 17,
            PoolError::TooLarge => 18,
            PoolError::NoSuchTransaction => 19,
            PoolError::NotReady => 20,
            PoolError::NoSuchLock => 21,
            PoolError::TooMany => 22,
            PoolError::NoLogSpace => 23,
        }
    }

    /// The refusal's name: that of its variant, in one word.
    pub fn name(&self) -> &'static str
        ensures { result.now ≡ name_of_error self.now }
    {
        match self {
            PoolError::NoMemory => "NoMemory",
            PoolError::Read => "Read",
            PoolError::Write => "Write",
            PoolError::Flush => "Flush",
            PoolError::Suspended => "Suspended",
            PoolError::NoPool => "NoPool",
            PoolError::Damaged { .. } => "Damaged",
            PoolError::BadGeometry => "BadGeometry",
            PoolError::NoObject => "NoObject",
            PoolError::Exists => "Exists",
            PoolError::BadRange => "BadRange",
            PoolError::OutOfPlan => "OutOfPlan",
            PoolError::NotLocked => "NotLocked",
            PoolError::Busy => "Busy",
            PoolError::LockInUse => "LockInUse",
            PoolError::NoSpace => "NoSpace",
            PoolError::Throttled => "Throttled",
            PoolError::TooLarge => "TooLarge",
            PoolError::NoSuchTransaction => "NoSuchTransaction",
            PoolError::NotReady => "NotReady",
            PoolError::NoSuchLock => "NoSuchLock",
            PoolError::TooMany => "TooMany",
            PoolError::NoLogSpace => "NoLogSpace",
        }
    }
}
