//! What callers rest on: each function here is proved from the contract of a call alone. So it is refused as soon as
//! that contract says less.

ghost use Rattle.std.specs.Prelude.{◌≡◌, ◌∷◌, [], IfOk, IsTrue};
ghost use Rattle.sha2.specs.Sha256.{sha256};

use crate::{Lanes, digest_all, digest_eight, digest_four};
use sha2::{Digest, Sha256};
use std::alloc::{AllocError, Global};

// Each message's digest is the one that `sha2` makes of it, in its place.
fn the_digests_are_those_of_sha2(
    a: &[u8; 4096],
    b: &[u8; 4096],
    c: &[u8; 4096],
    d: &[u8; 4096],
) -> bool
    ensures { IsTrue result }
{
    digest_four(a, b, c, d)
        == [
            Sha256::digest(&a[..]),
            Sha256::digest(&b[..]),
            Sha256::digest(&c[..]),
            Sha256::digest(&d[..]),
        ]
}

// Eight digests come in the order of their messages.
fn eight_digests_are_in_order(blocks: &[[u8; 4096]; 8]) -> [u8; 32]
    ensures { (a b c d e f g h : _) → blocks.now ≡ a ∷ b ∷ c ∷ d ∷ e ∷ f ∷ g ∷ h ∷ []
        → result ≡ sha256 f }
{
    let [a, b, c, d, e, f, g, h] = blocks;
    digest_eight(a, b, c, d, e, f, g, h)[5]
}

// The digests are the same by eights as by fours.
fn lanes_change_no_digest(
    alloc: Global,
    blocks: &[&[u8; 4096]],
) -> Result<(Vec<[u8; 32]>, Vec<[u8; 32]>), AllocError>
    ensures { IfOk result (λ both. both.0.items ≡ both.1.items) }
{
    let by_fours = digest_all(alloc, Lanes::Four, blocks)?;
    let by_eights = digest_all(alloc, Lanes::Eight, blocks)?;
    Ok((by_fours, by_eights))
}

// The digests of all blocks come in the order of the blocks.
fn all_digests_are_in_order(
    alloc: Global,
    first: &[u8; 4096],
    second: &[u8; 4096],
) -> Result<Vec<[u8; 32]>, AllocError>
    ensures { IfOk result (λ digests. digests.items ≡ sha256 first.now ∷ sha256 second.now ∷ []) }
{
    digest_all(alloc, Lanes::Eight, &[first, second])
}
