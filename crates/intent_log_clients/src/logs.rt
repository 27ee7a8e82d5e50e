//! What callers rest on of the log of a run.

ghost use Rattle.std.specs.Prelude.{◌≡◌, ◌∷◌, [], IsOk, None, Some, false, length, map, true};
ghost use Rattle.base.specs.formats.Records.{IsAllowed, size_of};
ghost use Rattle.base.specs.steps.Logs.{committed_of, log_after_sync};
ghost use Rattle.records.specs.Records.{record_fields};
ghost use Rattle.intent_log.specs.Fillings.{TakesNext, taken_of};
ghost use Rattle.intent_log.specs.Kept.{HasBlockRoom, HasRecordRoom, header_fields, log_shown};

use base::{Group, Ordinal, PoolError, Receipt};
use intent_log::{BegunRecord, Filling, Log, LogHeader};
use records::Record;
use std::alloc::Global;

fn a_new_log_has_nothing_to_write_or_flush(alloc: Global) {
    let log = Log::new(alloc, 4_194_304);
    let next = log.next();
    prove!(next.address == 4_194_304 && next.number == 0);
    prove!(!log.is_pending());
    prove!(!log.awaits_flush());
    prove!(!log.keeps_whole());
    prove!(!log.is_at_last());
    let receipt = Receipt {
        ordinal: Ordinal(0),
        group: Group(5),
    };
    prove!(!log.is_unsynced(receipt));
    prove!(!log.has_flushed(receipt));
}

fn a_block_is_kept_beside_whole_records(log: &Log)
    requires one { length log.now.kept ≡ 1 }
    requires whole { log.now.begun ≡ None }
{
    prove!(log.keeps_whole());
}

fn the_last_number_is_2_to_the_60(log: &Log)
    requires { log.now.next.number ≡ 1152921504606846976 }
{
    prove!(log.is_at_last());
}

fn the_room_for_a_block_is_taken_once(log: &mut Log) -> Result<(), PoolError>
    requires { HasBlockRoom log.old }
    ensures { IsOk result }
{
    log.reserve_block()?;
    log.reserve_block()
}

fn the_room_for_a_record_is_taken_once(log: &mut Log) -> Result<(), PoolError>
    requires { HasRecordRoom log.old }
    ensures { IsOk result }
{
    log.reserve_record()?;
    log.reserve_record()
}

// A transaction that commits has the last record, which waits for a log write.
fn the_record_of_a_commit_is_pending(log: &mut Log, committed: Record)
    requires room { HasRecordRoom log.old }
    requires none { log.old.records ≡ [] }
    requires allowed { IsAllowed (record_fields committed) }
    requires ordinal { committed.ordinal.0 ≡ 7 }
    requires group { committed.group.0 ≡ 5 }
    ensures { map record_fields log.new.records ≡ record_fields committed ∷ [] }
{
    log.enter(committed);
    prove!(log.is_pending());
    prove!(log.records().len() == 1);
    let receipt = Receipt {
        ordinal: Ordinal(7),
        group: Group(5),
    };
    let other = Receipt {
        ordinal: Ordinal(7),
        group: Group(6),
    };
    prove!(log.is_unsynced(receipt));
    prove!(!log.is_unsynced(other));
}

// A record is durable after the flush of the block in which it ends, and not before.
fn a_record_is_durable_once_its_block_is_flushed(log: &mut Log, filling: Filling)
    requires takes { TakesNext log.old filling }
    requires room { HasBlockRoom log.old }
    requires kept { log.old.kept ≡ [] }
    requires next { log.old.next ≡ record { address = 4194304; number = 3 } }
    requires ends { map committed_of (taken_of log.old filling).ends
        ≡ record { ordinal = 7; group = 5 } ∷ [] }
{
    let receipt = Receipt {
        ordinal: Ordinal(7),
        group: Group(5),
    };
    let other = Receipt {
        ordinal: Ordinal(7),
        group: Group(6),
    };
    prove!(log.note(filling, 4_198_400) == 1);
    prove!(log.awaits_flush());
    prove!(!log.has_flushed(receipt));
    log.flushed();
    prove!(!log.awaits_flush());
    prove!(log.has_flushed(receipt));
    prove!(!log.has_flushed(other));
    let next = log.next();
    prove!(next.address == 4_198_400 && next.number == 4);
}

// Not only the last one.
fn a_flush_makes_each_block_certain(log: &mut Log)
    requires { log.old.kept
        ≡ record { address = 4194304; number = 0; begins = record { ordinal = 0; group = 5 } ∷ []; ends = record { ordinal = 0; group = 5 } ∷ []; flushed = false }
        ∷ record { address = 4198400; number = 1; begins = record { ordinal = 1; group = 6 } ∷ []; ends = record { ordinal = 1; group = 6 } ∷ []; flushed = false }
        ∷ [] }
{
    let first = Receipt {
        ordinal: Ordinal(0),
        group: Group(5),
    };
    let last = Receipt {
        ordinal: Ordinal(1),
        group: Group(6),
    };
    log.flushed();
    prove!(log.has_flushed(first));
    prove!(log.has_flushed(last));
    prove!(!log.awaits_flush());
}

// The header of a sync is the first block with a record above its group, and the blocks before it come back.
fn a_sync_keeps_the_blocks_above_its_group(log: &mut Log)
    requires kept { log.old.kept
        ≡ record { address = 4194304; number = 0; begins = record { ordinal = 0; group = 5 } ∷ []; ends = record { ordinal = 0; group = 5 } ∷ []; flushed = true }
        ∷ record { address = 4198400; number = 1; begins = record { ordinal = 1; group = 6 } ∷ []; ends = record { ordinal = 1; group = 6 } ∷ []; flushed = false }
        ∷ [] }
    requires begun { log.old.begun ≡ None }
    requires next { log.old.next ≡ record { address = 4202496; number = 2 } }
{
    let header = log.header_for(Group(5));
    prove!(header.address == 4_198_400 && header.number == 1);
    let past = log.header_for(Group(6));
    prove!(past.address == 4_202_496 && past.number == 2);
    prove!(log.give_back(header) == Some(4_194_304));
    prove!(log.give_back(header).is_none());
    prove!(log.awaits_flush());
    prove!(log.give_back(past) == Some(4_198_400));
    prove!(!log.awaits_flush());
}

// The records of the group go, and one call after another gives all blocks before the header back. Then the log is as
// after that sync.
fn a_sync_keeps_its_log_from_the_header_on(log: &mut Log, group: Group, header: LogHeader)
    ensures { log_shown log.new
        ≡ log_after_sync group.0 (header_fields header) (log_shown log.old) }
{
    log.drop_synced(group);
    while log.give_back(header).is_some() {}
}

// A flush after its first part makes no record durable that a block can't hold, and a sync keeps that block.
fn a_first_part_makes_no_record_durable(log: &mut Log, begun: BegunRecord)
    requires takes { TakesNext log.old (Filling.First begun) }
    requires room { HasBlockRoom log.old }
    requires kept { log.old.kept ≡ [] }
    requires next { log.old.next ≡ record { address = 4194304; number = 3 } }
    requires receipt { begun.receipt ≡ record {
      ordinal = record { 0 = 7 };
      group = record { 0 = 5 };
    } }
{
    let receipt = Receipt {
        ordinal: Ordinal(7),
        group: Group(5),
    };
    log.note(Filling::First(begun), 4_198_400);
    log.flushed();
    prove!(!log.has_flushed(receipt));
    let header = log.header_for(Group(5));
    prove!(header.address == 4_194_304 && header.number == 3);
}

// A flush after its last part does.
fn a_last_part_makes_its_record_durable(log: &mut Log, logged: &Record)
    requires begun { log.old.begun
        ≡ Some (record { logged = record_fields logged.now; written = 8016 }) }
    requires size { size_of (record_fields logged.now) ≡ 8017 }
    requires ordinal { logged.now.ordinal.0 ≡ 7 }
    requires group { logged.now.group.0 ≡ 5 }
    requires takes { TakesNext log.old Filling.Part }
    requires room { HasBlockRoom log.old }
    requires number { log.old.next.number ≡ 3 }
{
    let _ = logged;
    let receipt = Receipt {
        ordinal: Ordinal(7),
        group: Group(5),
    };
    prove!(log.note(Filling::Part, 4_198_400) == 1);
    log.flushed();
    prove!(log.has_flushed(receipt));
}

// And then no record is begun: nothing is left to write.
fn a_last_part_leaves_no_record_begun(log: &mut Log, logged: &Record)
    requires begun { log.old.begun
        ≡ Some (record { logged = record_fields logged.now; written = 8016 }) }
    requires size { size_of (record_fields logged.now) ≡ 8017 }
    requires pending { log.old.pending ≡ [] }
    requires takes { TakesNext log.old Filling.Part }
    requires room { HasBlockRoom log.old }
    requires number { log.old.next.number ≡ 3 }
{
    let _ = logged;
    prove!(log.is_pending());
    log.note(Filling::Part, 4_198_400);
    prove!(!log.is_pending());
}

// A record that is begun stays so once its group is synced: its other parts are left to write.
fn a_begun_record_outlives_the_sync_of_its_group(log: &mut Log, logged: &Record, header: LogHeader)
    requires begun { log.old.begun
        ≡ Some (record { logged = record_fields logged.now; written = 4008 }) }
    requires group { logged.now.group.0 ≡ 5 }
    requires pending { log.old.pending ≡ [] }
{
    let _ = logged;
    log.drop_synced(Group(5));
    let _ = log.give_back(header);
    prove!(log.is_pending());
}
