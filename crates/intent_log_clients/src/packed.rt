//! What callers rest on of a block that is packed.

ghost use Rattle.std.specs.Prelude.{◌≡◌, ◌<◌, ◌≤◌, ℕ, List, All, IfErr, IfOk, IfSome, None, Some, length, map, slice_get};
ghost use Rattle.base.specs.formats.Blocks.{Frame};
ghost use Rattle.base.specs.formats.Fields.{number_at, part};
ghost use Rattle.base.specs.formats.Geometry.{IsBlockAddress};
ghost use Rattle.base.specs.formats.Records.{IsAllowed, size_of};
ghost use Rattle.base.specs.steps.Logs.{total_size};
ghost use Rattle.records.specs.Records.{record_fields};
ghost use Rattle.intent_log.specs.Chains.{IsBlockAt};
ghost use Rattle.intent_log.specs.Packing.{IsBegunFirst, IsCount, block_of, logged, used_of};

use base::PoolError;
use intent_log::{Ahead, Log, NewBlock, NextLogBlock, Packed, pack};
use records::Record;
use std::alloc::Global;

fn a_record_is_packed(
    alloc: Global,
    place: &NewBlock,
    pending: &[Record],
) -> Result<Packed, PoolError>
    requires one { length pending.now ≡ 1 }
    requires short { total_size (map record_fields pending.now) ≤ 4008 }
    requires allowed { All IsAllowed (map record_fields pending.now) }
    ensures { IfOk result (IsCount 1) }
{
    pack(alloc, place, pending)
}

fn two_records_of_4008_bytes_fill_a_block(
    alloc: Global,
    place: &NewBlock,
    pending: &[Record],
) -> Result<Packed, PoolError>
    requires two { length pending.now ≡ 2 }
    requires full { total_size (map record_fields pending.now) ≡ 4008 }
    requires allowed { All IsAllowed (map record_fields pending.now) }
    ensures { IfOk result (IsCount 2) }
{
    pack(alloc, place, pending)
}

fn a_record_that_does_not_fit_stays_pending(
    alloc: Global,
    place: &NewBlock,
    pending: &[Record],
) -> Result<Packed, PoolError>
    requires two { length pending.now ≡ 2 }
    requires over { total_size (map record_fields pending.now) ≡ 4009 }
    requires short { IfSome (slice_get (map record_fields pending.now) 0) (λ r. size_of r ≤ 4008) }
    requires allowed { All IsAllowed (map record_fields pending.now) }
    ensures { IfOk result (IsCount 1) }
{
    pack(alloc, place, pending)
}

fn packing_is_refused_for_memory_alone(
    alloc: Global,
    place: &NewBlock,
    pending: &[Record],
) -> Result<Packed, PoolError>
    requires some { 0 < length pending.now }
    requires allowed { All IsAllowed (map record_fields pending.now) }
    ensures { IfErr result (λ e. e ≡ PoolError.NoMemory) }
{
    pack(alloc, place, pending)
}

// Group, chain number and next address lie at bytes 16, 64 and 72 of the block.
fn a_packed_block_names_its_group_its_chain_and_the_next(
    alloc: Global,
    place: &NewBlock,
    pending: &[Record],
) -> Result<Packed, PoolError>
    requires some { 0 < length pending.now }
    requires allowed { All IsAllowed (map record_fields pending.now) }
    ensures group { IfOk result (λ p. number_at (block_of p) 16 ≡ place.now.group.0) }
    ensures chain { IfOk result
        (λ p. number_at (block_of p) 64 ≡ place.now.header.import_number) }
    ensures next { IfOk result (λ p. number_at (block_of p) 72 ≡ place.now.next) }
{
    pack(alloc, place, pending)
}

// A block that stands at its place is the one that its header names, with the bytes that were packed.
fn a_packed_block_is_read_back(
    alloc: Global,
    place: &NewBlock,
    pending: &[Record],
) -> Result<Packed, PoolError>
    requires some { 0 < length pending.now }
    requires allowed { All IsAllowed (map record_fields pending.now) }
    ensures { IfOk result (λ p. (image : List ℕ) (frame : Frame) → frame.guid ≡ place.now.guid
        → IsBlockAddress frame.blocks place.now.header.address
        → part image place.now.header.address 4096 ≡ block_of p
        → IsBlockAt image frame place.now.header
        (logged place.now (used_of (map record_fields pending.now) p))) }
{
    pack(alloc, place, pending)
}

// A record of more than 4,008 bytes is begun, and no other record is in its block.
fn a_long_record_is_begun(
    alloc: Global,
    place: &NewBlock,
    pending: &[Record],
) -> Result<Packed, PoolError>
    requires some { 0 < length pending.now }
    requires allowed { All IsAllowed (map record_fields pending.now) }
    requires long { IfSome (slice_get (map record_fields pending.now) 0) (λ r. 4008 < size_of r) }
    ensures { IfOk result IsBegunFirst }
{
    pack(alloc, place, pending)
}

// A block of a pending record of 100 bytes has 100 used bytes: their number lies at byte 80.
fn a_pending_record_fills_its_block(
    alloc: Global,
    place: &NewBlock,
    log: &Log,
) -> Result<NextLogBlock, PoolError>
    requires begun { log.now.begun ≡ None }
    requires one { length log.now.pending ≡ 1 }
    requires size { total_size log.now.pending ≡ 100 }
    ensures { IfOk result (λ b. number_at b.block 80 ≡ 100) }
{
    log.pack_next(alloc, place, &[0; 3])
}

// Pending records of 4,008 bytes together fill it.
fn pending_records_of_4008_bytes_fill_the_next_block(
    alloc: Global,
    place: &NewBlock,
    log: &Log,
) -> Result<NextLogBlock, PoolError>
    requires begun { log.now.begun ≡ None }
    requires two { length log.now.pending ≡ 2 }
    requires full { total_size log.now.pending ≡ 4008 }
    ensures { IfOk result (λ b. number_at b.block 80 ≡ 4008) }
{
    log.pack_next(alloc, place, &[0; 3])
}

// What is left of a begun record has a block of its own, also if others are pending.
fn a_last_part_has_a_block_of_its_own(
    alloc: Global,
    place: &NewBlock,
    log: &Log,
    logged: &Record,
) -> Result<NextLogBlock, PoolError>
    requires begun { log.now.begun
        ≡ Some (record { logged = record_fields logged.now; written = 8016 }) }
    requires size { size_of (record_fields logged.now) ≡ 8017 }
    ensures { IfOk result (λ b. number_at b.block 80 ≡ 1) }
{
    let _ = logged;
    log.pack_next(alloc, place, &[0; 3])
}

// What waits changes neither the log nor the next block, which has the pending record and the address of its own place.
fn blocks_that_wait_change_no_log_write(
    alloc: Global,
    place: &NewBlock,
    log: &mut Log,
    waiting: Option<Ahead>,
) -> Result<NextLogBlock, PoolError>
    requires begun { log.old.begun ≡ None }
    requires one { length log.old.pending ≡ 1 }
    requires size { total_size log.old.pending ≡ 100 }
    ensures same { log.new ≡ log.old }
    ensures next { IfOk result (λ b. number_at b.block 72 ≡ place.now.next) }
    ensures used { IfOk result (λ b. number_at b.block 80 ≡ 100) }
{
    log.keep_ahead(waiting);
    log.pack_next(alloc, place, &[0; 3])
}
