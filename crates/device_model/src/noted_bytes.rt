//! The bytes that a note keeps: a run of one byte as that byte and its count, all others as they are.

ghost use Rattle.std.specs.Prelude.{◌≡◌, ◌+◌, ◌≤◌, [], IfOk, IfSome, length, replicate};
ghost use Rattle.base.specs.disk.Disk.{put};

use crate::notes::overwrite;
use base::are_all;
use std::alloc::{AllocError, Global};
use std::marker::Model;

// How the bytes are kept.
#[derive(Drop)]
enum Kept {
    Run(u8, usize),
    Each(Vec<u8>),
}

/// Bytes that were written, or that stood before a write. A device that is cleared is written as runs of zeros, which
/// take no memory of their own.
#[derive(Drop)]
pub struct NotedBytes {
    kept: Kept,
}

impl Model for NotedBytes {
    ghost use Rattle.std.specs.Prelude.{List, ℕ};
    ghost use Rattle.device_model.specs.KeptBytes.{bytes_kept};

    ghost Value = { List ℕ };

    ghost view = { λ b. bytes_kept b.kept };
}

impl NotedBytes {
    /// No bytes. It takes no memory.
    pub fn none() -> Self
        ensures { result ≡ [] }
    {
        NotedBytes {
            kept: Kept::Run(0, 0),
        }
    }

    /// These bytes.
    pub fn of(alloc: Global, bytes: &[u8]) -> Result<Self, AllocError>
        ensures { IfOk result (λ noted. noted ≡ bytes.now) }
    {
        let kept = match run_of(bytes) {
            Some(byte) => Kept::Run(byte, bytes.len()),
            None => Kept::Each(Vec::from_slice(alloc, bytes)?),
        };
        Ok(NotedBytes { kept })
    }

    /// How many there are.
    pub fn len(&self) -> usize
        ensures { result ≡ length self.now }
    {
        match &self.kept {
            Kept::Run(_, count) => *count,
            Kept::Each(bytes) => bytes.len(),
        }
    }

    /// Writes them over those at a place.
    pub fn write_over(&self, bytes: &mut [u8], place: u64)
        requires { place + length self.now ≤ length bytes.old }
        ensures { bytes.new ≡ put place self.now bytes.old }
    {
        match &self.kept {
            Kept::Run(byte, count) => fill(bytes, place, *count, *byte),
            Kept::Each(each) => overwrite(bytes, place, each),
        }
    }
}

/// Fills `count` bytes from a place on.
pub fn fill(bytes: &mut [u8], place: u64, count: usize, byte: u8)
    requires { place + count ≤ length bytes.old }
    ensures { bytes.new ≡ put place (replicate count byte) bytes.old }
{
    let start = place as usize;
    bytes[start..start + count].fill(byte);
}

// The one byte that all of them are.
fn run_of(bytes: &[u8]) -> Option<u8>
    ensures { IfSome result (λ byte. bytes.now ≡ replicate (length bytes.now) byte) }
{
    let first = *bytes.first()?;
    if are_all(bytes, first) {
        Some(first)
    } else {
        None
    }
}
