//! The first frame of a program that serves a pool: whether the pool is open.

ghost use Rattle.std.specs.Prelude.{◌≡◌, ◌+◌, ◌≤◌, ◌<◌, ◌⊎◌, ◌++◌, IfErr, OnErr, OnOk, length};
ghost use Rattle.frames.specs.Limits.{max_cause};
ghost use Rattle.frames.specs.Openings as words;
ghost use Rattle.frames.specs.Openings.{bytes_of_opening, bytes_of_unopened, items_of_unopened, size_of_unopened};
ghost use Rattle.records.specs.Writing.{AppendsBytes, HasRoomFor};

use crate::encode::write_head;
use crate::error::FrameError;
use crate::limits::{FRAME_HEAD, MAX_CAUSE, OPENED, UNOPENED};
use crate::writing::{damage, write_string, write_u32, write_u64};
use base::{Group, PoolError};
use std::alloc::AllocError;

/// The bytes of a frame that says that a pool is open.
const OPENING_SIZE: usize = FRAME_HEAD + 24;

/// The bytes of a frame that says why a pool is not open, besides those of the cause.
const UNOPENED_SIZE: usize = FRAME_HEAD + 24;

/// What a program that serves a pool says of it first.
#[derive(Clone, Copy)]
pub struct Opening {
    /// The guid of the pool.
    pub guid: u64,
    /// The group that was synced as it was opened.
    pub group: Group,
    /// How many log records were replayed then.
    pub records: u64,
}

/// Appends the frame that says that a pool is open. If there is no memory for its 36 bytes, the bytes stay as they are.
pub fn encode_opening(out: &mut Vec<u8>, opening: &Opening) -> Result<(), AllocError>
    ensures bytes { OnOk result (out.new.items ≡ out.old.items ++ bytes_of_opening opening.now) }
    ensures unchanged { OnErr result (out.new.items ≡ out.old.items) }
{
    out.reserve(OPENING_SIZE)?;
    write_head(out, OPENING_SIZE as u32, OPENED, 0);
    write_u64(out, opening.guid);
    write_u64(out, opening.group.0);
    write_u64(out, opening.records);
    Ok(())
}

/// Appends the frame that says why a pool is not open: its refusal, or `None` if its file can't be used; the number of
/// the system's error, 0 if there is none; and the cause in words.
///
/// # Errors
///
/// `BadLength` if the cause is longer than a frame. `NoMemory` if there is no memory for the frame. The bytes stay as
/// they are then.
pub fn encode_unopened(
    out: &mut Vec<u8>,
    refusal: Option<PoolError>,
    system_error: u32,
    cause: &str,
) -> Result<(), FrameError>
    ensures bytes { OnOk result (out.new.items
        ≡ out.old.items ++ bytes_of_unopened refusal system_error cause.now) }
    ensures refused { IfErr result (λ e. (e ≡ FrameError.NoMemory)
        ⊎ ((e ≡ FrameError.BadLength) × (max_cause < length cause.now))) }
    ensures unchanged { OnErr result (out.new.items ≡ out.old.items) }
{
    if cause.len() > MAX_CAUSE {
        return Err(FrameError::BadLength);
    }
    let size = UNOPENED_SIZE + cause.len();
    out.reserve(size)?;
    write_unopened(out, size as u32, refusal, system_error, cause.as_bytes());
    Ok(())
}

/// Appends that frame, which has so many bytes.
fn write_unopened(
    out: &mut Vec<u8>,
    size: u32,
    refusal: Option<PoolError>,
    system_error: u32,
    cause: &[u8],
)
    requires small { length cause.now ≤ max_cause }
    requires size { size ≡ size_of_unopened cause.now }
    requires room { HasRoomFor out.old size }
    ensures { AppendsBytes out.old out.new (bytes_of_unopened refusal system_error cause.now) }
{
    write_head(out, size, UNOPENED, number(refusal));
    write_items(out, refusal, system_error, cause);
}

/// Appends what follows the head of that frame.
fn write_items(out: &mut Vec<u8>, refusal: Option<PoolError>, system_error: u32, cause: &[u8])
    requires small { length cause.now ≤ max_cause }
    requires room { HasRoomFor out.old (24 + length cause.now) }
    ensures { AppendsBytes out.old out.new (items_of_unopened refusal system_error cause.now) }
{
    let (kind, address) = block(refusal);
    write_u64(out, kind);
    write_u64(out, address);
    write_u32(out, system_error);
    write_string(out, cause);
}

/// The number of a refusal, or 0 if there is none.
fn number(refusal: Option<PoolError>) -> u32
    ensures { result ≡ words.number_of_unopened refusal }
{
    match refusal {
        Some(error) => u32::from(error.number()),
        None => 0,
    }
}

/// The kind and the address of the block that a refusal tells of, or zeros.
fn block(refusal: Option<PoolError>) -> (u64, u64)
    ensures { result ≡ (words.unopened_kind_of refusal, words.unopened_address_of refusal) }
{
    match refusal {
        Some(error) => damage(&error),
        None => (0, 0),
    }
}
