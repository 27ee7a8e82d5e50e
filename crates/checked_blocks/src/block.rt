//! Sealing: the fields, the check and the payload of a block that is written.
//!
//! ZFS keeps the check of a block in the pointer that names it, or for a label, an uberblock and a log block within the
//! block itself (On-Disk Specification, chapters 1, 2 and 7). Here each block carries its check, the SHA-256 digest
//! (FIPS 180-4) of the block with zeros in its place, and a pointer has a copy of it.

ghost use Rattle.std.specs.Prelude.{◌≡◌, ◌<◌, ◌≤◌, ◌^◌, ◌↔◌, ◌++◌, ◌∷◌, [], IsOk, IfOk, IfErr, drop, length, replicate, take};
ghost use Rattle.sha2.specs.Sha256.{sha256};
ghost use Rattle.base.specs.formats.Blocks.{IsBlock, block_head_bytes, sealed_block};
ghost use Rattle.base.specs.disk.Disk.{put};
ghost use Rattle.base.specs.formats.Fields.{part};
ghost use Rattle.base.specs.formats.Geometry.{block_size};
ghost use Rattle.base.specs.formats.Limits.{payload_size};
ghost use Rattle.checked_blocks.specs.Sealing.{AreBlocks, IsKind, padded, zeros};

use base::{BLOCK_SIZE, Group, PoolError, write_bytes, write_u64};
use hash_lanes::digest_four;
use sha2::{Digest, Sha256};
use std::marker::Model;

/// The bytes of a block's fields and check, which stand before its payload.
pub const HEAD_SIZE: usize = 64;

/// The bytes of a block's payload.
pub const PAYLOAD_SIZE: usize = BLOCK_SIZE - HEAD_SIZE;

/// A sealed block: its check field is the SHA-256 digest (FIPS 180-4) of the block with zeros there.
/// Contracts see it as a list of 4,096 bytes.
#[derive(Drop, PartialEq, Eq)]
pub struct Block {
    bytes: [u8; BLOCK_SIZE],
}

impl Model for Block {
    ghost use Rattle.std.specs.Prelude.{List, ℕ};
    ghost use Rattle.base.specs.formats.Blocks.{IsSealed};

    ghost Value = { List ℕ };

    ghost view = { λ b. b.bytes };

    ghost invariant = { λ b. IsSealed b.bytes };

    ghost inverse = { λ bytes. record { bytes = bytes } };
}

impl Block {
    ghost use Rattle.std.specs.Prelude.{◌≡◌, length};
    ghost use Rattle.base.specs.formats.Blocks.{IsSealed};
    ghost use Rattle.base.specs.formats.Fields.{part};

    /// The 4,096 bytes, as they are written to a device.
    pub fn as_bytes(&self) -> &[u8; BLOCK_SIZE]
        ensures bytes { result.now ≡ self.now }
        ensures length { length self.now ≡ block_size }
        ensures sealed { IsSealed self.now }
    {
        &self.bytes
    }

    /// A block of the same bytes.
    pub fn copy(&self) -> Block
        ensures { result ≡ self.now }
    {
        Block { bytes: self.bytes }
    }

    /// The block of these bytes.
    pub(crate) fn from_sealed(bytes: &[u8; BLOCK_SIZE]) -> Block
        requires { IsSealed bytes.now }
        ensures { result ≡ bytes.now }
    {
        Block { bytes: *bytes }
    }

    /// The check field, bytes 32 to 64, by which a pointer names the block.
    pub fn check(&self) -> [u8; 32]
        ensures { result ≡ part self.now 32 32 }
    {
        let mut check = [0; 32];
        check.copy_from_slice(&self.bytes[32..64]);
        check
    }
}

/// A block of this kind, pool, group and number. A payload of less than 4,032 bytes is filled with zeros.
///
/// # Errors
/// `BadRange` exactly if the kind is none of 1 to 7 or the payload has more than 4,032 bytes.
pub fn seal(
    kind: u64,
    guid: u64,
    group: Group,
    number: u64,
    payload: &[u8],
) -> Result<Block, PoolError>
    ensures sealed { IfOk result
        (λ block. block ≡ sealed_block kind guid group.0 number (padded payload.now)) }
    ensures block { IfOk result
        (λ block. IsBlock block kind guid group.0 number (padded payload.now)) }
    ensures ok { IsOk result ↔ (IsKind kind × (length payload.now ≤ payload_size)) }
    ensures refused { IfErr result (λ e. e ≡ PoolError.BadRange) }
{
    let bytes = unsealed(kind, guid, group, number, payload)?;
    let check = Sha256::digest(&bytes[..]);
    Ok(with_check(bytes, check))
}

/// What one of several blocks has of its own.
#[derive(Clone, Copy)]
pub struct Content<'a> {
    /// Its number.
    pub number: u64,
    /// Its payload, at most 4,032 bytes.
    pub payload: &'a [u8],
}

/// Four blocks of this kind, pool and group, each as `seal` makes it of its number and its payload. Their checks are
/// made side by side, in about half the time.
///
/// # Errors
/// `BadRange` exactly if the kind is none of 1 to 7 or one of the payloads has more than 4,032 bytes.
pub fn seal_four(
    kind: u64,
    guid: u64,
    group: Group,
    first: &Content<'_>,
    second: &Content<'_>,
    third: &Content<'_>,
    fourth: &Content<'_>,
) -> Result<[Block; 4], PoolError>
    ensures sealed { IfOk result (λ blocks. blocks
        ≡ sealed_block kind guid group.0 first.now.number (padded first.now.payload.now)
        ∷ sealed_block kind guid group.0 second.now.number (padded second.now.payload.now)
        ∷ sealed_block kind guid group.0 third.now.number (padded third.now.payload.now)
        ∷ sealed_block kind guid group.0 fourth.now.number (padded fourth.now.payload.now) ∷ []) }
    ensures block { IfOk result (AreBlocks kind guid group.0
        (first.now ∷ second.now ∷ third.now ∷ fourth.now ∷ [])) }
    ensures ok { IsOk result ↔ (IsKind kind × (length first.now.payload.now ≤ payload_size)
        × (length second.now.payload.now ≤ payload_size) × (length third.now.payload.now ≤ payload_size)
        × (length fourth.now.payload.now ≤ payload_size)) }
    ensures refused { IfErr result (λ e. e ≡ PoolError.BadRange) }
{
    let a = unsealed(kind, guid, group, first.number, first.payload)?;
    let b = unsealed(kind, guid, group, second.number, second.payload)?;
    let c = unsealed(kind, guid, group, third.number, third.payload)?;
    let d = unsealed(kind, guid, group, fourth.number, fourth.payload)?;
    let [e, f, g, h] = digest_four(&a, &b, &c, &d);
    Ok([
        with_check(a, e),
        with_check(b, f),
        with_check(c, g),
        with_check(d, h),
    ])
}

// The bytes of a block, with zeros in place of its check.
fn unsealed(
    kind: u64,
    guid: u64,
    group: Group,
    number: u64,
    payload: &[u8],
) -> Result<[u8; BLOCK_SIZE], PoolError>
    ensures clear { IfOk result (λ bytes. part bytes 32 32 ≡ replicate 32 0) }
    ensures whole { IfOk result (λ bytes. take 32 bytes ++ sha256 bytes ++ drop 64 bytes
        ≡ sealed_block kind guid group.0 number (padded payload.now)) }
    ensures block { IfOk result (λ bytes. IsBlock (take 32 bytes ++ sha256 bytes ++ drop 64 bytes)
        kind guid group.0 number (padded payload.now)) }
    ensures ok { IsOk result ↔ (IsKind kind × (length payload.now ≤ payload_size)) }
    ensures refused { IfErr result (λ e. e ≡ PoolError.BadRange) }
{
    if !(1..=7).contains(&kind) || payload.len() > PAYLOAD_SIZE {
        return Err(PoolError::BadRange);
    }
    let mut bytes = zero_block();
    write_head(&mut bytes, kind, guid, group.0, number);
    write_bytes(&mut bytes, HEAD_SIZE, payload);
    Ok(bytes)
}

// The block of these bytes, with their digest in place of the zeros where its check belongs.
fn with_check(bytes: [u8; BLOCK_SIZE], check: [u8; 32]) -> Block
    requires clear { part bytes 32 32 ≡ replicate 32 0 }
    requires check { check ≡ sha256 bytes }
    ensures { result ≡ take 32 bytes ++ sha256 bytes ++ drop 64 bytes }
{
    let mut bytes = bytes;
    write_bytes(&mut bytes, 32, &check);
    Block { bytes }
}

pub(crate) fn zero_block() -> [u8; BLOCK_SIZE]
    ensures { result ≡ zeros block_size }
{
    [0; BLOCK_SIZE]
}

pub(crate) fn write_head(bytes: &mut [u8], kind: u64, guid: u64, group: u64, number: u64)
    requires { 64 ≤ length bytes.old }
    ensures head { bytes.new ≡ put 0 (block_head_bytes kind guid group number) bytes.old }
    ensures group_fits { group < 2 ^ 64 }
{
    write_u64(bytes, 0, kind);
    write_u64(bytes, 8, guid);
    write_u64(bytes, 16, group);
    write_u64(bytes, 24, number);
}
