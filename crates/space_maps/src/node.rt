//! Nodes of a map as blocks: a bits block is of kind 8, a map node of kind 9. Their number is that of the node.

ghost use Rattle.std.specs.Prelude.{◌≡◌, ◌<◌, ◌≤◌, ◌^◌, ◌↔◌, ◌++◌, IfErr, IfOk, IsOk, drop, length, replicate, take};
ghost use Rattle.sha2.specs.Sha256.{sha256};
ghost use Rattle.base.specs.disk.Disk.{put};
ghost use Rattle.base.specs.formats.Blocks.{IsBlock, block_head_bytes, sealed_block};
ghost use Rattle.base.specs.formats.Fields.{part};
ghost use Rattle.base.specs.formats.Geometry.{block_size};
ghost use Rattle.base.specs.formats.Limits.{payload_size};
ghost use Rattle.checked_blocks.specs.Sealing.{zeros};
ghost use Rattle.space_maps.specs.Nodes.{kind_number};
ghost use Rattle.space_maps.specs.Opening.{IsNodeBlock};

use base::{BLOCK_SIZE, Group, Pointer, PoolError, write_bytes, write_u64};
use checked_blocks::{Expected, HEAD_SIZE, PAYLOAD_SIZE, open};
use sha2::{Digest, Sha256};
use std::marker::Model;

/// What a node of a map holds. The number is its block's kind field: `NodeKind::Bits as u64` is 8.
#[derive(Clone, Copy, PartialEq, Eq)]
pub enum NodeKind {
    /// A bit for each of 32,256 blocks, 1 if it is free.
    Bits = 8,
    /// Entries of 72 nodes of the level below.
    Entries = 9,
}

impl NodeKind {
    ghost use Rattle.std.specs.Prelude.{◌≡◌};

    /// The number of the kind field.
    pub fn number(self) -> u64
        ensures { result ≡ kind_number self }
    {
        self as u64
    }
}

/// The sealed block of a node: its check field is the SHA-256 digest (FIPS 180-4) of the block with zeros there.
/// Contracts see it as a list of 4,096 bytes.
#[derive(Drop, PartialEq, Eq)]
pub struct NodeBlock {
    bytes: [u8; BLOCK_SIZE],
}

impl Model for NodeBlock {
    ghost use Rattle.std.specs.Prelude.{List, ℕ};
    ghost use Rattle.base.specs.formats.Blocks.{IsSealed};

    ghost Value = { List ℕ };

    ghost view = { λ b. b.bytes };

    ghost invariant = { λ b. IsSealed b.bytes };

    ghost inverse = { λ bytes. record { bytes = bytes } };
}

impl NodeBlock {
    ghost use Rattle.std.specs.Prelude.{◌≡◌, length};
    ghost use Rattle.base.specs.formats.Blocks.{IsSealed};
    ghost use Rattle.base.specs.formats.Fields.{part};

    /// The 4,096 bytes, as they are written to a device.
    pub fn as_bytes(&self) -> &[u8; BLOCK_SIZE]
        ensures bytes { result.now ≡ self.now }
        ensures length { length self.now ≡ block_size }
        ensures sealed { IsSealed self.now }
    {
        &self.bytes
    }

    /// The check field, bytes 32 to 64, by which a pointer names the block.
    pub fn check(&self) -> [u8; 32]
        ensures { result ≡ part self.now 32 32 }
    {
        let mut check = [0; 32];
        check.copy_from_slice(&self.bytes[32..64]);
        check
    }
}

/// The block of a node of this kind, pool, group and number, with this payload.
pub fn seal_node(
    kind: NodeKind,
    guid: u64,
    group: Group,
    number: u64,
    payload: &[u8; PAYLOAD_SIZE],
) -> NodeBlock
    ensures sealed { result ≡ sealed_block (kind_number kind) guid group.0 number payload.now }
    ensures block { IsBlock result (kind_number kind) guid group.0 number payload.now }
{
    let bytes = unsealed(kind.number(), guid, group, number, payload);
    let check = Sha256::digest(&bytes[..]);
    with_check(bytes, check)
}

// The bytes of a block, with zeros in place of its check.
fn unsealed(
    kind: u64,
    guid: u64,
    group: Group,
    number: u64,
    payload: &[u8; PAYLOAD_SIZE],
) -> [u8; BLOCK_SIZE]
    ensures clear { part result 32 32 ≡ replicate 32 0 }
    ensures whole { take 32 result ++ sha256 result ++ drop 64 result
        ≡ sealed_block kind guid group.0 number payload.now }
    ensures block { IsBlock (take 32 result ++ sha256 result ++ drop 64 result)
        kind guid group.0 number payload.now }
{
    let mut bytes = zero_block();
    write_head(&mut bytes, kind, guid, group.0, number);
    write_bytes(&mut bytes, HEAD_SIZE, &payload[..]);
    bytes
}

// The block of these bytes, with their digest in place of the zeros where its check belongs.
fn with_check(bytes: [u8; BLOCK_SIZE], check: [u8; 32]) -> NodeBlock
    requires clear { part bytes 32 32 ≡ replicate 32 0 }
    requires check { check ≡ sha256 bytes }
    ensures { result ≡ take 32 bytes ++ sha256 bytes ++ drop 64 bytes }
{
    let mut bytes = bytes;
    write_bytes(&mut bytes, 32, &check);
    NodeBlock { bytes }
}

fn zero_block() -> [u8; BLOCK_SIZE]
    ensures { result ≡ zeros block_size }
{
    [0; BLOCK_SIZE]
}

fn write_head(bytes: &mut [u8], kind: u64, guid: u64, group: u64, number: u64)
    requires { 64 ≤ length bytes.old }
    ensures head { bytes.new ≡ put 0 (block_head_bytes kind guid group number) bytes.old }
    ensures group_fits { group < 2 ^ 64 }
{
    write_u64(bytes, 0, kind);
    write_u64(bytes, 8, guid);
    write_u64(bytes, 16, group);
    write_u64(bytes, 24, number);
}

/// The payload of a block that was read, if it is the one of the node of this kind and number that a pointer names.
/// Its address isn't looked at.
///
/// # Errors
/// `Damaged` with the kind and the pointer's address exactly if it is another block: its check doesn't agree, or its
/// kind, its pool, its group, its number or its check is none that the pointer leads to.
pub fn open_node<'a>(
    block: &'a [u8; BLOCK_SIZE],
    kind: NodeKind,
    guid: u64,
    number: u64,
    pointer: &Pointer,
) -> Result<&'a [u8], PoolError>
    ensures ok { IsOk result ↔ IsNodeBlock block.now (kind_number kind) guid number pointer.now }
    ensures payload { IfOk result (λ payload. payload.now ≡ drop 64 block.now) }
    ensures size { IfOk result (λ payload. length payload.now ≡ payload_size) }
    ensures refused { IfErr result
        (λ e. e ≡ PoolError.Damaged (kind_number kind) pointer.now.address) }
{
    let wanted = Expected {
        address: pointer.address,
        kind: kind.number(),
        guid,
        number,
        group: Some(Group(pointer.birth)),
        check: Some(pointer.check),
    };
    open(block, &wanted)?;
    Ok(&block[HEAD_SIZE..])
}
