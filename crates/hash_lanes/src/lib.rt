//! SHA-256 digests (FIPS 180-4) of blocks of 4,096 bytes, made four or eight side by side.
//!
//! ```rust
//! let [first, second, third, fourth] = digest_four(&a, &b, &c, &d);
//! let digests = digest_all(alloc, Lanes::Eight, &blocks)?;
//! ```
//!
//! Each block is a message. A message has 64 parts of 64 bytes, which the standard calls blocks, and the same padding
//! follows each message as one more part.
#![tactic(auto)]

ghost use Rattle.std.specs.Prelude.{◌≡◌, ℕ, ◌<◌, ◌≤◌, ◌++◌, [], ◌∷◌, length, map, take, IfOk, OnOk};
ghost use Rattle.sha2.specs.Sha256.{digest_bytes, initial_hash_256, sha256};
ghost use Rattle.hash_lanes.specs.Lanes.{lane};

use consts::{INITIAL_HASH, PADDING};
use eights::compress as compress_eight;
use rounds::compress;
use sha2::{Digest, Sha256};
use std::alloc::{AllocError, Global};
use std::simd::prelude::*;

mod clients;
mod consts;
mod eights;
mod rounds;

// The bytes of a part.
const PART_SIZE: usize = 64;

// The initial hash value of each message.
fn initial_hashes() -> [u32x4; 8]
    ensures { (i : ℕ) → i < 4 → lane i result ≡ initial_hash_256 }
{
    [
        u32x4::splat(INITIAL_HASH[0]),
        u32x4::splat(INITIAL_HASH[1]),
        u32x4::splat(INITIAL_HASH[2]),
        u32x4::splat(INITIAL_HASH[3]),
        u32x4::splat(INITIAL_HASH[4]),
        u32x4::splat(INITIAL_HASH[5]),
        u32x4::splat(INITIAL_HASH[6]),
        u32x4::splat(INITIAL_HASH[7]),
    ]
}

// The bytes of one message's hash value.
fn digest_of(hashes: &[u32x4; 8], message: usize) -> [u8; 32]
    requires { message < 4 }
    ensures { result ≡ digest_bytes (lane message hashes.now) 8 }
{
    let mut out = [0u8; 32];
    'words: for k in 0..8 {
        let word = hashes[k].to_array()[message];
        out[4 * k..4 * k + 4].copy_from_slice(&word.to_be_bytes());
    }
    out
}

// The initial hash value of each of eight messages.
fn initial_eight() -> [u32x8; 8]
    ensures { (i : ℕ) → i < 8 → lane i result ≡ initial_hash_256 }
{
    [
        u32x8::splat(INITIAL_HASH[0]),
        u32x8::splat(INITIAL_HASH[1]),
        u32x8::splat(INITIAL_HASH[2]),
        u32x8::splat(INITIAL_HASH[3]),
        u32x8::splat(INITIAL_HASH[4]),
        u32x8::splat(INITIAL_HASH[5]),
        u32x8::splat(INITIAL_HASH[6]),
        u32x8::splat(INITIAL_HASH[7]),
    ]
}

// The bytes of one of eight messages' hash value.
fn digest_in_eight(hashes: &[u32x8; 8], message: usize) -> [u8; 32]
    requires { message < 8 }
    ensures { result ≡ digest_bytes (lane message hashes.now) 8 }
{
    let mut out = [0u8; 32];
    'words: for k in 0..8 {
        let word = hashes[k].to_array()[message];
        out[4 * k..4 * k + 4].copy_from_slice(&word.to_be_bytes());
    }
    out
}

/// The SHA-256 digests (FIPS 180-4) of four blocks of 4,096 bytes, in their order.
///
/// Each is the digest that `Sha256::digest` of `sha2` returns for that block.
pub fn digest_four(a: &[u8], b: &[u8], c: &[u8], d: &[u8]) -> [[u8; 32]; 4]
    requires a { length a.now ≡ 4096 }
    requires b { length b.now ≡ 4096 }
    requires c { length c.now ≡ 4096 }
    requires d { length d.now ≡ 4096 }
    ensures { result ≡ sha256 a.now ∷ sha256 b.now ∷ sha256 c.now ∷ sha256 d.now ∷ [] }
{
    let mut hashes = initial_hashes();
    'parts: for k in 0..64 {
        let at = PART_SIZE * k;
        let end = at + PART_SIZE;
        compress(
            &mut hashes,
            &a[at..end],
            &b[at..end],
            &c[at..end],
            &d[at..end],
        );
    }
    compress(&mut hashes, &PADDING, &PADDING, &PADDING, &PADDING);
    [
        digest_of(&hashes, 0),
        digest_of(&hashes, 1),
        digest_of(&hashes, 2),
        digest_of(&hashes, 3),
    ]
}

/// The SHA-256 digests (FIPS 180-4) of eight blocks of 4,096 bytes, in their order.
///
/// Each is the digest that `Sha256::digest` of `sha2` returns for that block.
pub fn digest_eight(
    a: &[u8],
    b: &[u8],
    c: &[u8],
    d: &[u8],
    e: &[u8],
    f: &[u8],
    g: &[u8],
    h: &[u8],
) -> [[u8; 32]; 8]
    requires a { length a.now ≡ 4096 }
    requires b { length b.now ≡ 4096 }
    requires c { length c.now ≡ 4096 }
    requires d { length d.now ≡ 4096 }
    requires e { length e.now ≡ 4096 }
    requires f { length f.now ≡ 4096 }
    requires g { length g.now ≡ 4096 }
    requires h { length h.now ≡ 4096 }
    ensures { result ≡ sha256 a.now ∷ sha256 b.now ∷ sha256 c.now ∷ sha256 d.now
        ∷ sha256 e.now ∷ sha256 f.now ∷ sha256 g.now ∷ sha256 h.now ∷ [] }
{
    let mut hashes = initial_eight();
    'parts: for k in 0..64 {
        let at = PART_SIZE * k;
        let end = at + PART_SIZE;
        compress_eight(
            &mut hashes,
            &a[at..end],
            &b[at..end],
            &c[at..end],
            &d[at..end],
            &e[at..end],
            &f[at..end],
            &g[at..end],
            &h[at..end],
        );
    }
    compress_eight(
        &mut hashes,
        &PADDING,
        &PADDING,
        &PADDING,
        &PADDING,
        &PADDING,
        &PADDING,
        &PADDING,
        &PADDING,
    );
    [
        digest_in_eight(&hashes, 0),
        digest_in_eight(&hashes, 1),
        digest_in_eight(&hashes, 2),
        digest_in_eight(&hashes, 3),
        digest_in_eight(&hashes, 4),
        digest_in_eight(&hashes, 5),
        digest_in_eight(&hashes, 6),
        digest_in_eight(&hashes, 7),
    ]
}

// Adds the digests of four blocks, which are made side by side.
fn add_four(
    digests: &mut Vec<[u8; 32]>,
    a: &[u8; 4096],
    b: &[u8; 4096],
    c: &[u8; 4096],
    d: &[u8; 4096],
) -> Result<(), AllocError>
    ensures { OnOk result (digests.new.items ≡ digests.old.items
        ++ sha256 a.now ∷ sha256 b.now ∷ sha256 c.now ∷ sha256 d.now ∷ []) }
{
    digests.extend_from_slice(&digest_four(a, b, c, d))?;
    Ok(())
}

// Adds the digests of eight blocks, which are made side by side.
fn add_eight(
    digests: &mut Vec<[u8; 32]>,
    a: &[u8; 4096],
    b: &[u8; 4096],
    c: &[u8; 4096],
    d: &[u8; 4096],
    e: &[u8; 4096],
    f: &[u8; 4096],
    g: &[u8; 4096],
    h: &[u8; 4096],
) -> Result<(), AllocError>
    ensures { OnOk result (digests.new.items ≡ digests.old.items
        ++ sha256 a.now ∷ sha256 b.now ∷ sha256 c.now ∷ sha256 d.now
        ∷ sha256 e.now ∷ sha256 f.now ∷ sha256 g.now ∷ sha256 h.now ∷ []) }
{
    digests.extend_from_slice(&digest_eight(a, b, c, d, e, f, g, h))?;
    Ok(())
}

// Adds the digests of three blocks, or of fewer. Two alone cost less than four side by side, three cost more.
fn add_last(digests: &mut Vec<[u8; 32]>, blocks: &[&[u8; 4096]]) -> Result<(), AllocError>
    requires { length blocks.now < 4 }
    ensures { OnOk result
        (digests.new.items ≡ digests.old.items ++ map (λ b. sha256 b.now) blocks.now) }
{
    match blocks {
        [a, b, c] => {
            let [first, second, third, _] = digest_four(*a, *b, *c, *c);
            digests.extend_from_slice(&[first, second, third])?;
        }
        [a, b] => {
            let both = [Sha256::digest(&a[..]), Sha256::digest(&b[..])];
            digests.extend_from_slice(&both)?;
        }
        [a] => digests.push(Sha256::digest(&a[..]))?,
        _ => {}
    }
    Ok(())
}

// Adds the first ones of eight digests.
fn add_first(
    digests: &mut Vec<[u8; 32]>,
    count: usize,
    made: &[[u8; 32]; 8],
) -> Result<(), AllocError>
    requires { count ≤ 8 }
    ensures { OnOk result (digests.new.items ≡ digests.old.items ++ take count made.now) }
{
    digests.extend_from_slice(&made[..count])?;
    Ok(())
}

// Adds the digests of seven blocks, or of fewer, as one eight if that costs less than fours and single ones.
fn add_last_of_eight(digests: &mut Vec<[u8; 32]>, blocks: &[&[u8; 4096]]) -> Result<(), AllocError>
    requires { length blocks.now < 8 }
    ensures { OnOk result
        (digests.new.items ≡ digests.old.items ++ map (λ b. sha256 b.now) blocks.now) }
{
    match blocks {
        [a, b, c, d, e, f, g] => {
            add_first(digests, 7, &digest_eight(*a, *b, *c, *d, *e, *f, *g, *g))?
        }
        [a, b, c, d, e, f] => {
            add_first(digests, 6, &digest_eight(*a, *b, *c, *d, *e, *f, *f, *f))?
        }
        [a, b, c, d, e] => { add_first(digests, 5, &digest_eight(*a, *b, *c, *d, *e, *e, *e, *e))? }
        [a, b, c, d] => add_four(digests, *a, *b, *c, *d)?,
        few => add_last(digests, few)?,
    }
    Ok(())
}

/// How many blocks `digest_all` hashes side by side. It changes the time alone, and no digest.
#[derive(Clone, Copy)]
pub enum Lanes {
    /// Four, as many as the vectors of `x86-64-v2` hold.
    Four,
    /// Eight, as many as those of `x86-64-v3` hold. A program that is compiled for it takes half the time so.
    Eight,
}

/// The SHA-256 digests (FIPS 180-4) of blocks of 4,096 bytes, in their order. They are made as many side by side as
/// `lanes` says, and what is left of them by fours and one by one if that costs less.
///
/// # Errors
/// No memory. Then no digest was made.
pub fn digest_all(
    alloc: Global,
    lanes: Lanes,
    blocks: &[&[u8; 4096]],
) -> Result<Vec<[u8; 32]>, AllocError>
    ensures { IfOk result (λ digests. digests.items ≡ map (λ b. sha256 b.now) blocks.now) }
{
    let mut digests = Vec::with_capacity(alloc, blocks.len())?;
    match lanes {
        Lanes::Four => add_by_fours(&mut digests, blocks)?,
        Lanes::Eight => add_by_eights(&mut digests, blocks)?,
    }
    Ok(digests)
}

fn add_by_fours(digests: &mut Vec<[u8; 32]>, blocks: &[&[u8; 4096]]) -> Result<(), AllocError>
    ensures { OnOk result
        (digests.new.items ≡ digests.old.items ++ map (λ b. sha256 b.now) blocks.now) }
{
    let mut left = blocks;
    'fours: while let [a, b, c, d, rest @ ..] = left {
        add_four(digests, *a, *b, *c, *d)?;
        left = rest;
    }
    add_last(digests, left)?;
    Ok(())
}

fn add_by_eights(digests: &mut Vec<[u8; 32]>, blocks: &[&[u8; 4096]]) -> Result<(), AllocError>
    ensures { OnOk result
        (digests.new.items ≡ digests.old.items ++ map (λ b. sha256 b.now) blocks.now) }
{
    let mut left = blocks;
    'eights: while let [a, b, c, d, e, f, g, h, rest @ ..] = left {
        add_eight(digests, *a, *b, *c, *d, *e, *f, *g, *h)?;
        left = rest;
    }
    add_last_of_eight(digests, left)?;
    Ok(())
}
