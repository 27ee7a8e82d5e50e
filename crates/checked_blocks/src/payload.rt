//! Opening: what a block that was read has to be, and the payload that it holds.
//!
//! A block is accepted exactly if its check agrees and each field is the one expected. The cheap fields are compared
//! before the check is made. A block that was sealed here has a check that agrees, so only its fields are compared. The
//! checks of four blocks are made side by side.

ghost use Rattle.std.specs.Prelude.{◌≡◌, ◌↔◌, IsTrue, IsOk, IfOk, IfErr, IfSome, drop};
ghost use Rattle.base.specs.formats.Blocks.{IsBlock, IsSealed};
ghost use Rattle.base.specs.formats.Fields.{number_at, part};
ghost use Rattle.base.specs.formats.Limits.{payload_size};
ghost use Rattle.sha2.specs.Sha256.{sha256};
ghost use Rattle.checked_blocks.specs.Sealing.{hashed_bytes};
ghost use Rattle.checked_blocks.specs.Opening.{IsExpected, damage_of};

use crate::block::{Block, HEAD_SIZE};
use crate::expected::Expected;
use base::{BLOCK_SIZE, Group, PoolError, read_u64, write_bytes};
use hash_lanes::digest_four;
use sha2::{Digest, Sha256};
use std::marker::Model;

/// What an opened block holds: its group and the 4,032 bytes of its payload, which stay where they were read.
/// Contracts see it as the record of the two.
#[derive(Drop)]
pub struct Payload<'a> {
    block: &'a [u8; BLOCK_SIZE],
}

impl<'a> Model for Payload<'a> {
    ghost use Rattle.std.specs.Prelude.{◌≡◌, drop, length};
    ghost use Rattle.base.specs.formats.Fields.{number_at};
    ghost use Rattle.base.specs.formats.Geometry.{block_size};
    ghost use Rattle.checked_blocks.specs.Payloads.{Opened};

    ghost Value = { Opened };

    ghost view = { λ p. record { group = number_at p.block.now 16; bytes = drop 64 p.block.now } };

    ghost invariant = { λ p. length p.block.now ≡ block_size };
}

impl<'a> Payload<'a> {
    ghost use Rattle.std.specs.Prelude.{◌≡◌, length};

    /// The 4,032 bytes of the payload.
    pub fn as_slice(&self) -> &'a [u8]
        ensures bytes { result.now ≡ self.now.bytes }
        ensures length { length self.now.bytes ≡ payload_size }
    {
        let block = self.block;
        &block[HEAD_SIZE..]
    }

    /// The group in which the block was written.
    pub fn group(&self) -> Group
        ensures { result.0 ≡ self.now.group }
    {
        let block = self.block;
        Group(read_u64(block, 16))
    }
}

/// Opens a block that was read. It takes no memory: the payload is a part of the bytes that are handed in.
///
/// # Errors
/// `Damaged` with the expected kind and address exactly if the check does not agree with the bytes, or the kind, the
/// guid, the number, or a group or check that is expected is another.
pub fn open<'a>(block: &'a [u8; BLOCK_SIZE], expected: &Expected) -> Result<Payload<'a>, PoolError>
    ensures ok { IsOk result ↔ IsExpected block.now expected.now }
    ensures opened { IfOk result
        (λ payload. IsBlock block.now expected.now.kind expected.now.guid payload.group
        expected.now.number payload.bytes) }
    ensures refused { IfErr result (λ e. e ≡ damage_of expected.now) }
{
    if has_fields(block, expected) && is_sealed(block) {
        Ok(Payload { block })
    } else {
        Err(damage(expected))
    }
}

/// A block that was read, and what it has to be.
#[derive(Clone, Copy)]
pub struct ReadBlock<'a> {
    /// Its bytes.
    pub block: &'a [u8; BLOCK_SIZE],
    /// What it has to be.
    pub expected: &'a Expected,
}

/// Whether `open` accepts each of four blocks, in their order. Their checks are made side by side, in about half the
/// time.
pub fn are_expected(
    first: &ReadBlock<'_>,
    second: &ReadBlock<'_>,
    third: &ReadBlock<'_>,
    fourth: &ReadBlock<'_>,
) -> (bool, bool, bool, bool)
    ensures first { IsTrue result.0 ↔ IsExpected first.now.block.now first.now.expected.now }
    ensures second { IsTrue result.1 ↔ IsExpected second.now.block.now second.now.expected.now }
    ensures third { IsTrue result.2 ↔ IsExpected third.now.block.now third.now.expected.now }
    ensures fourth { IsTrue result.3 ↔ IsExpected fourth.now.block.now fourth.now.expected.now }
{
    let [a, b, c, d] = digest_four(
        &hashed(first.block),
        &hashed(second.block),
        &hashed(third.block),
        &hashed(fourth.block),
    );
    (
        is_expected(first, &a),
        is_expected(second, &b),
        is_expected(third, &c),
        is_expected(fourth, &d),
    )
}

// Whether `open` accepts a block whose check has to be this digest.
pub(crate) fn is_expected(read: &ReadBlock<'_>, digest: &[u8; 32]) -> bool
    requires { digest.now ≡ sha256 (hashed_bytes read.now.block.now) }
    ensures { IsTrue result ↔ IsExpected read.now.block.now read.now.expected.now }
{
    let ReadBlock { block, expected } = *read;
    has_fields(block, expected) && block[32..64] == digest[..]
}

// The bytes that a block's check is made of: the block with zeros in place of its check.
pub(crate) fn hashed(block: &[u8; BLOCK_SIZE]) -> [u8; BLOCK_SIZE]
    ensures { result ≡ hashed_bytes block.now }
{
    let mut bytes = *block;
    write_bytes(&mut bytes, 32, &[0; 32]);
    bytes
}

impl Block {
    ghost use Rattle.std.specs.Prelude.{◌≡◌, ◌↔◌, IsOk, IfOk, IfErr};
    ghost use Rattle.base.specs.formats.Blocks.{IsBlock};
    ghost use Rattle.checked_blocks.specs.Opening.{IsExpected, damage_of};

    /// Opens a block that was sealed here, as `open` does. Its check, the SHA-256 digest (FIPS 180-4) that it was
    /// sealed with, is compared with an expected one, and isn't made again.
    ///
    /// # Errors
    /// `Damaged` with the expected kind and address exactly if the kind, the guid, the number, or a group or check that
    /// is expected is another.
    pub fn open(&self, expected: &Expected) -> Result<Payload<'_>, PoolError>
        ensures ok { IsOk result ↔ IsExpected self.now expected.now }
        ensures opened { IfOk result
            (λ payload. IsBlock self.now expected.now.kind expected.now.guid payload.group
            expected.now.number payload.bytes) }
        ensures refused { IfErr result (λ e. e ≡ damage_of expected.now) }
    {
        let block = self.as_bytes();
        if has_fields(block, expected) {
            Ok(Payload { block })
        } else {
            Err(damage(expected))
        }
    }
}

fn damage(expected: &Expected) -> PoolError
    ensures { result ≡ damage_of expected.now }
{
    PoolError::Damaged {
        kind: expected.kind,
        address: expected.address,
    }
}

// Whether each field of a block is the expected one. The check field is compared, and isn't made.
fn has_fields(block: &[u8; BLOCK_SIZE], expected: &Expected) -> bool
    ensures fields { IsSealed block.now → IsTrue result → IsExpected block.now expected.now }
    ensures expected { IsExpected block.now expected.now → IsTrue result }
{
    read_u64(block, 0) == expected.kind
        && read_u64(block, 8) == expected.guid
        && read_u64(block, 24) == expected.number
        && has_group(block, expected.group)
        && has_check(block, expected.check)
}

fn has_group(block: &[u8; BLOCK_SIZE], group: Option<Group>) -> bool
    ensures { IsTrue result ↔ IfSome group (λ g. number_at block.now 16 ≡ g.0) }
{
    match group {
        Some(group) => read_u64(block, 16) == group.0,
        None => true,
    }
}

fn has_check(block: &[u8; BLOCK_SIZE], check: Option<[u8; 32]>) -> bool
    ensures { IsTrue result ↔ IfSome check (λ c. part block.now 32 32 ≡ c) }
{
    match check {
        Some(check) => block[32..64] == check[..],
        None => true,
    }
}

fn is_sealed(block: &[u8; BLOCK_SIZE]) -> bool
    ensures { IsTrue result ↔ IsSealed block.now }
{
    let digest = digest_of(block);
    block[32..64] == digest[..]
}

/// The digest of the block with zeros in place of its check, made in three pieces and without a copy.
fn digest_of(block: &[u8; BLOCK_SIZE]) -> [u8; 32]
    ensures { result ≡ sha256 (hashed_bytes block.now) }
{
    let zeros = [0; 32];
    let mut hasher = Sha256::new();
    hasher.update(&block[..32]);
    hasher.update(&zeros[..]);
    hasher.update(&block[HEAD_SIZE..]);
    hasher.finalize()
}
