//! Blocks that have one home: the 4,096 bytes in which a block is prepared are those that are written. The checks of
//! any number of them are made side by side.

ghost use Rattle.std.specs.Prelude.{◌≡◌, ◌≤◌, [], All, IfOk, OnOk, drop, length, map, replicate, vec_capacity};
ghost use Rattle.sha2.specs.Sha256.{sha256};
ghost use Rattle.base.specs.formats.Blocks.{IsBlock, IsSealed, sealed_block};
ghost use Rattle.base.specs.formats.Fields.{part};
ghost use Rattle.base.specs.formats.Geometry.{block_size};
ghost use Rattle.base.specs.formats.Limits.{payload_size};
ghost use Rattle.checked_blocks.specs.Prepared.{IsPreparedBlock, headed_bytes, prepared_block, with_digest};
ghost use Rattle.checked_blocks.specs.Sealing.{padded, zeros};

use crate::block::{Block, HEAD_SIZE, write_head, zero_block};
use base::{BLOCK_SIZE, Group, write_bytes};
use hash_lanes::{Lanes, digest_all};
use std::alloc::{AllocError, Global};
use std::marker::Model;

/// A block that is prepared: its number, and the 4,096 bytes in which it is written. Its payload stands from byte 64
/// on, and what stands before is of no account.
#[derive(Drop)]
pub struct Prepared {
    /// Its number.
    pub number: u64,
    /// The bytes in which it is prepared and written.
    pub bytes: Box<[u8; BLOCK_SIZE]>,
}

impl Prepared {
    ghost use Rattle.std.specs.Prelude.{◌≡◌, ◌≤◌, IfOk, drop, length};

    /// A block of this number with this payload, which is filled with zeros.
    ///
    /// # Errors
    /// No memory.
    pub fn new(alloc: Global, number: u64, payload: &[u8]) -> Result<Self, AllocError>
        requires { length payload.now ≤ payload_size }
        ensures number { IfOk result (λ block. block.number ≡ number) }
        ensures payload { IfOk result
            (λ block. drop 64 block.bytes.value ≡ padded payload.now) }
    {
        let mut bytes = Box::new(alloc, zero_block())?;
        write_payload(&mut bytes, payload);
        Ok(Prepared { number, bytes })
    }
}

// Writes a payload into zeros.
fn write_payload(bytes: &mut [u8; BLOCK_SIZE], payload: &[u8])
    requires zeros { bytes.old ≡ zeros block_size }
    requires fits { length payload.now ≤ payload_size }
    ensures { drop 64 bytes.new ≡ padded payload.now }
{
    write_bytes(bytes, HEAD_SIZE, payload);
}

/// A sealed block in the memory in which it was prepared. Contracts see it as a list of 4,096 bytes.
#[derive(Drop)]
pub struct SealedBlock {
    bytes: Box<[u8; BLOCK_SIZE]>,
}

impl Model for SealedBlock {
    ghost use Rattle.std.specs.Prelude.{List, ℕ};
    ghost use Rattle.base.specs.formats.Blocks.{IsSealed};

    ghost Value = { List ℕ };

    ghost view = { λ b. b.bytes.value };

    ghost invariant = { λ b. IsSealed b.bytes.value };
}

impl SealedBlock {
    ghost use Rattle.std.specs.Prelude.{◌≡◌, length};
    ghost use Rattle.base.specs.formats.Blocks.{IsSealed};
    ghost use Rattle.base.specs.formats.Fields.{part};
    ghost use Rattle.base.specs.formats.Geometry.{block_size};

    /// The 4,096 bytes, as they are written to a device.
    pub fn as_bytes(&self) -> &[u8; BLOCK_SIZE]
        ensures bytes { result.now ≡ self.now }
        ensures length { length self.now ≡ block_size }
        ensures sealed { IsSealed self.now }
    {
        whole(&self.bytes)
    }

    /// The check field, bytes 32 to 64, by which a pointer names the block.
    pub fn check(&self) -> [u8; 32]
        ensures { result ≡ part self.now 32 32 }
    {
        let mut check = [0; 32];
        check.copy_from_slice(&self.bytes[32..64]);
        check
    }

    /// The same block, without memory of its own.
    pub fn to_block(&self) -> Block
        ensures { result ≡ self.now }
    {
        Block::from_sealed(&self.bytes)
    }
}

fn whole(bytes: &[u8; BLOCK_SIZE]) -> &[u8; BLOCK_SIZE]
    ensures bytes { result.now ≡ bytes.now }
    ensures length { length bytes.now ≡ block_size }
{
    bytes
}

// A block with its head, and with zeros in place of its check.
#[derive(Drop)]
struct Headed {
    bytes: Box<[u8; BLOCK_SIZE]>,
    ghost clear: { part bytes.value 32 32 ≡ replicate 32 0 },
}

// Writes the head of a block before its payload, and zeros in place of its check.
fn write_headed(bytes: &mut [u8; BLOCK_SIZE], kind: u64, guid: u64, group: u64, number: u64)
    ensures headed { bytes.new ≡ headed_bytes kind guid group number bytes.old }
    ensures clear { part bytes.new 32 32 ≡ replicate 32 0 }
    ensures block { IsBlock (sealed_block kind guid group number (drop 64 bytes.old))
        kind guid group number (drop 64 bytes.old) }
{
    write_head(bytes, kind, guid, group, number);
    write_bytes(bytes, 32, &[0; 32]);
}

// Puts the digest of bytes in the place of their check.
fn write_digest(bytes: &mut [u8; BLOCK_SIZE], digest: &[u8; 32])
    requires clear { part bytes.old 32 32 ≡ replicate 32 0 }
    requires digest { digest.now ≡ sha256 bytes.old }
    ensures whole { bytes.new ≡ with_digest bytes.old }
    ensures sealed { IsSealed bytes.new }
{
    write_bytes(bytes, 32, digest);
}

fn head(kind: u64, guid: u64, group: Group, block: Prepared) -> Headed
    ensures headed { result.bytes.value
        ≡ headed_bytes kind guid group.0 block.number block.bytes.value }
    ensures block { IsPreparedBlock kind guid group.0 block }
{
    let Prepared { number, mut bytes } = block;
    write_headed(&mut bytes, kind, guid, group.0, number);
    Headed { bytes }
}

fn with_digest(block: Headed, digest: [u8; 32]) -> SealedBlock
    requires { digest ≡ sha256 block.bytes.value }
    ensures { result ≡ with_digest block.bytes.value }
{
    let Headed { mut bytes } = block;
    write_digest(&mut bytes, &digest);
    SealedBlock { bytes }
}

fn head_all(
    alloc: Global,
    kind: u64,
    guid: u64,
    group: Group,
    blocks: Vec<Prepared>,
) -> Result<Vec<Headed>, AllocError>
    ensures headed { IfOk result (λ headed. map (λ h. h.bytes.value) headed.items
        ≡ map (λ p. headed_bytes kind guid group.0 p.number p.bytes.value) blocks.items) }
    ensures block { OnOk result (All (IsPreparedBlock kind guid group.0) blocks.items) }
{
    let mut headed = Vec::with_capacity(alloc, blocks.len())?;
    for block in blocks {
        headed.push(head(kind, guid, group, block))?;
    }
    Ok(headed)
}

// The bytes of blocks, as messages of a hash.
fn messages(alloc: Global, blocks: &[Headed]) -> Result<Vec<&[u8; BLOCK_SIZE]>, AllocError>
    ensures { IfOk result (λ messages. map (λ m. m.now) messages.items
        ≡ map (λ h. h.bytes.value) blocks.now) }
{
    let mut messages = Vec::with_capacity(alloc, blocks.len())?;
    for block in blocks {
        messages.push(&*block.bytes)?;
    }
    Ok(messages)
}

fn digests_of(alloc: Global, lanes: Lanes, blocks: &[Headed]) -> Result<Vec<[u8; 32]>, AllocError>
    ensures { IfOk result (λ digests.
        digests.items ≡ map (λ h. sha256 h.bytes.value) blocks.now) }
{
    let messages = messages(alloc, blocks)?;
    let digests = digest_all(alloc, lanes, messages.as_slice())?;
    Ok(digests)
}

// Puts the digests of blocks in the places of their checks, and the blocks into this room.
fn with_digests(
    room: Vec<SealedBlock>,
    blocks: Vec<Headed>,
    digests: Vec<[u8; 32]>,
) -> Vec<SealedBlock>
    requires empty { room.items ≡ [] }
    requires room { length blocks.items ≤ vec_capacity room }
    requires digests { digests.items ≡ map (λ h. sha256 h.bytes.value) blocks.items }
    ensures { result.items ≡ map (λ h. with_digest h.bytes.value) blocks.items }
{
    let mut sealed = room;
    let mut digests = digests.into_iter();
    for block in blocks {
        let Some(digest) = digests.next() else {
            unreachable!()
        };
        sealed.push_reserved(with_digest(block, digest));
    }
    sealed
}

/// Seals blocks of this kind, pool and group, each of its own number and payload and in its own bytes. Their checks are
/// made side by side, as many as `lanes` says, which changes the time alone.
///
/// # Errors
/// No memory. Then no check was made.
pub fn seal_all(
    alloc: Global,
    lanes: Lanes,
    kind: u64,
    guid: u64,
    group: Group,
    blocks: Vec<Prepared>,
) -> Result<Vec<SealedBlock>, AllocError>
    ensures sealed { IfOk result (λ sealed.
        sealed.items ≡ map (prepared_block kind guid group.0) blocks.items) }
    ensures block { OnOk result (All (IsPreparedBlock kind guid group.0) blocks.items) }
{
    // all memory is taken before the first check is made
    let room = Vec::with_capacity(alloc, blocks.len())?;
    let headed = head_all(alloc, kind, guid, group, blocks)?;
    let digests = digests_of(alloc, lanes, headed.as_slice())?;
    Ok(with_digests(room, headed, digests))
}
