//! Opening any number of blocks: their checks are made side by side.

ghost use Rattle.std.specs.Prelude.{◌≡◌, IfOk, map};
ghost use Rattle.sha2.specs.Sha256.{sha256};
ghost use Rattle.checked_blocks.specs.Judged.{AreJudged};
ghost use Rattle.checked_blocks.specs.Sealing.{hashed_bytes};

use crate::payload::{ReadBlock, hashed, is_expected};
use base::BLOCK_SIZE;
use hash_lanes::{Lanes, digest_all};
use std::alloc::{AllocError, Global};

// The bytes that the checks of blocks are made of.
fn hashed_all(alloc: Global, reads: &[ReadBlock<'_>]) -> Result<Vec<[u8; BLOCK_SIZE]>, AllocError>
    ensures { IfOk result (λ bytes. bytes.items ≡ map (λ r. hashed_bytes r.block.now) reads.now) }
{
    let mut bytes = Vec::with_capacity(alloc, reads.len())?;
    for read in reads {
        bytes.push(hashed(read.block))?;
    }
    Ok(bytes)
}

fn messages(
    alloc: Global,
    blocks: &[[u8; BLOCK_SIZE]],
) -> Result<Vec<&[u8; BLOCK_SIZE]>, AllocError>
    ensures { IfOk result (λ messages. map (λ m. m.now) messages.items ≡ blocks.now) }
{
    let mut messages = Vec::with_capacity(alloc, blocks.len())?;
    for block in blocks {
        messages.push(block)?;
    }
    Ok(messages)
}

// The digests that the checks of blocks have to be.
fn digests_of(
    alloc: Global,
    lanes: Lanes,
    reads: &[ReadBlock<'_>],
) -> Result<Vec<[u8; 32]>, AllocError>
    ensures { IfOk result (λ digests.
        digests.items ≡ map (λ r. sha256 (hashed_bytes r.block.now)) reads.now) }
{
    let bytes = hashed_all(alloc, reads)?;
    let messages = messages(alloc, bytes.as_slice())?;
    let digests = digest_all(alloc, lanes, messages.as_slice())?;
    Ok(digests)
}

// Whether `open` accepts each of the blocks whose checks have to be these digests.
fn judge_all(
    alloc: Global,
    reads: &[ReadBlock<'_>],
    digests: Vec<[u8; 32]>,
) -> Result<Vec<bool>, AllocError>
    requires { digests.items ≡ map (λ r. sha256 (hashed_bytes r.block.now)) reads.now }
    ensures { IfOk result (λ found. AreJudged reads.now found.items) }
{
    let mut found = Vec::with_capacity(alloc, reads.len())?;
    let mut digests = digests.into_iter();
    let mut left = reads;
    while let [read, rest @ ..] = left {
        let Some(digest) = digests.next() else {
            unreachable!()
        };
        let is_right = is_expected(read, &digest);
        found.push(is_right)?;
        left = rest;
    }
    Ok(found)
}

/// Whether `open` accepts each of these blocks, in their order. Their checks are made side by side, as many as `lanes`
/// says, which changes the time alone.
///
/// # Errors
/// No memory.
pub fn open_all(
    alloc: Global,
    lanes: Lanes,
    reads: &[ReadBlock<'_>],
) -> Result<Vec<bool>, AllocError>
    ensures { IfOk result (λ found. AreJudged reads.now found.items) }
{
    let digests = digests_of(alloc, lanes, reads)?;
    judge_all(alloc, reads, digests)
}
