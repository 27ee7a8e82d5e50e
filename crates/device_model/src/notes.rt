//! The writes that a device in memory has had, and how a crash takes them back.
//!
//! `specs/Notes` reads the disk over time from these notes.

ghost use Rattle.std.specs.Prelude.{◌≡◌, ◌+◌, ◌-◌, ◌<◌, ◌≤◌, ◌↔◌, ◌++◌, length, take, drop, IsTrue, OnOk, OnErr};
ghost use Rattle.base.specs.formats.Fields.{part};
ghost use Rattle.base.specs.disk.Disk.{put};
ghost use Rattle.base.specs.disk.Crashes.{piece_at};
ghost use Rattle.device_model.specs.Notes.{AddsNote, Closes, OldsFit, Settles, TellSame, WritesFit, left_of, replayed, undone, with_pieces};

use crate::noted_bytes::{NotedBytes, fill};
use base::Piece;
use std::alloc::{AllocError, Global};

/// The note of a write.
#[derive(Drop)]
pub struct Note {
    /// The byte place of the write.
    pub place: u64,
    /// The bytes at the place before it. The next good flush or crash drops them, since nothing takes the write back
    /// after it.
    pub old: NotedBytes,
    /// The bytes that the write was handed.
    pub content: NotedBytes,
    /// Whether the write was made, and not refused.
    pub done: bool,
    /// What a crash left of the write.
    pub piece: Piece,
    /// Whether a good flush or a crash came between this write and the next one.
    pub last: bool,
}

/// Counts a call down, and says whether it is the one to fail.
pub fn fires(calls: &mut u64) -> bool
    ensures fires { IsTrue result ↔ (calls.old ≡ 1) }
    ensures counts { calls.new ≡ calls.old - 1 }
{
    if *calls == 0 {
        return false;
    }
    *calls -= 1;
    *calls == 0
}

/// Copies the bytes from a place on.
pub fn copy_part(from: &[u8], place: u64, into: &mut [u8])
    requires { place + length into.old ≤ length from.now }
    ensures { into.new ≡ part from.now place (length into.old) }
{
    let start = place as usize;
    into.copy_from_slice(&from[start..start + into.len()]);
}

/// Writes bytes over those at a place.
pub fn overwrite(bytes: &mut [u8], place: u64, content: &[u8])
    requires { place + length content.now ≤ length bytes.old }
    ensures { bytes.new ≡ put place content.now bytes.old }
{
    let start = place as usize;
    bytes[start..start + content.len()].copy_from_slice(content);
}

/// Notes a write. Without the memory for it no note is made.
pub fn make_note(
    alloc: Global,
    bytes: &[u8],
    notes: &mut Vec<Note>,
    place: u64,
    content: &[u8],
    done: bool,
) -> Result<(), AllocError>
    requires { place + length content.now ≤ length bytes.now }
    ensures ok { OnOk result
        (AddsNote notes.old.items notes.new.items place content.now done bytes.now) }
    ensures err { OnErr result (notes.new.items ≡ notes.old.items) }
{
    let start = place as usize;
    let old = NotedBytes::of(alloc, &bytes[start..start + content.len()])?;
    let content = NotedBytes::of(alloc, content)?;
    notes.push(Note {
        place,
        old,
        content,
        done,
        piece: Piece::Keep,
        last: false,
    })?;
    Ok(())
}

// Puts back what was there before the writes, the newest first.
fn undo(bytes: &mut [u8], notes: &[Note])
    requires { OldsFit (length bytes.old) notes.now }
    ensures { bytes.new ≡ undone notes.now bytes.old }
{
    for i in (0..notes.len()).rev() {
        let note = &notes[i];
        note.old.write_over(bytes, note.place);
    }
}

fn piece_of(pieces: &[Piece], i: usize) -> Piece
    ensures { result ≡ piece_at pieces.now i }
{
    if i < pieces.len() {
        pieces[i]
    } else {
        Piece::Keep
    }
}

// Notes what a crash leaves of the writes from this one on.
fn mark(notes: &mut [Note], first: usize, pieces: &[Piece])
    requires { first ≤ length notes.old }
    ensures { notes.new ≡ take first notes.old ++ with_pieces pieces.now 0 (drop first notes.old) }
{
    for i in first..notes.len() {
        let piece = piece_of(pieces, i - first);
        notes[i].piece = piece;
    }
}

// Writes what a crash leaves of a write.
fn leave(bytes: &mut [u8], note: &Note)
    requires { note.now.place + length note.now.content ≤ length bytes.old }
    ensures { bytes.new ≡ left_of note.now bytes.old }
{
    match note.piece {
        Piece::Keep => {
            if note.done {
                note.content.write_over(bytes, note.place);
            }
        }
        Piece::Lose => {}
        Piece::Fill(byte) => {
            fill(bytes, note.place, note.content.len(), byte);
        }
    }
}

fn replay(bytes: &mut [u8], notes: &[Note])
    requires { WritesFit (length bytes.old) notes.now }
    ensures { bytes.new ≡ replayed notes.now bytes.old }
{
    for note in notes {
        leave(bytes, note);
    }
}

// Notes that the newest write, if it is none of the first `settled`, is the last before a good flush or a crash.
fn close(notes: &mut [Note], settled: usize)
    ensures { Closes settled notes.old notes.new }
{
    if settled < notes.len() {
        let newest = notes.len() - 1;
        notes[newest].last = true;
    }
}

// Lets go of what stood before the writes from this one on.
fn forget(notes: &mut [Note], first: usize)
    ensures { TellSame notes.old notes.new }
{
    for i in first..notes.len() {
        notes[i].old = NotedBytes::none();
    }
}

/// Settles the writes after the first `settled`, at a good flush or a crash. It takes no memory.
pub fn settle(notes: &mut [Note], settled: usize)
    ensures { Settles settled notes.old notes.new }
{
    close(notes, settled);
    forget(notes, settled);
}

fn undo_from(bytes: &mut [u8], notes: &[Note], first: usize)
    requires within { first ≤ length notes.now }
    requires fits { OldsFit (length bytes.old) (drop first notes.now) }
    ensures { bytes.new ≡ undone (drop first notes.now) bytes.old }
{
    undo(bytes, &notes[first..]);
}

fn replay_from(bytes: &mut [u8], notes: &[Note], first: usize)
    requires within { first ≤ length notes.now }
    requires fits { WritesFit (length bytes.old) (drop first notes.now) }
    ensures { bytes.new ≡ replayed (drop first notes.now) bytes.old }
{
    replay(bytes, &notes[first..]);
}

/// Takes the writes after the first `settled` back, leaves these pieces of them, and settles them. It takes no
/// memory.
pub fn leave_pieces(bytes: &mut [u8], notes: &mut [Note], settled: usize, pieces: &[Piece])
    requires within { settled ≤ length notes.old }
    requires old_fits { OldsFit (length bytes.old) (drop settled notes.old) }
    requires fits { WritesFit (length bytes.old) (drop settled notes.old) }
    ensures bytes { bytes.new ≡ replayed (with_pieces pieces.now 0 (drop settled notes.old))
        (undone (drop settled notes.old) bytes.old) }
    ensures notes { Settles settled
        (take settled notes.old ++ with_pieces pieces.now 0 (drop settled notes.old)) notes.new }
{
    undo_from(bytes, notes, settled);
    mark(notes, settled, pieces);
    replay_from(bytes, notes, settled);
    settle(notes, settled);
}
