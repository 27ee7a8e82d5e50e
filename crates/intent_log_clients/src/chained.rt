//! What callers rest on of a chain that is read.

ghost use Rattle.std.specs.Prelude.{◌≡◌, ◌≤◌, ◌<◌, ◌+◌, ◌∷◌, ◌^◌, ◌⊎◌, [], List, All, IfErr, IfOk, IfSome, IsTrue, length, map};
ghost use Rattle.base.specs.disk.Disk.{bytes_of};
ghost use Rattle.base.specs.formats.Chain.{LogPiece};
ghost use Rattle.base.specs.formats.Geometry.{IsBlockAddress, block_address};
ghost use Rattle.base.specs.formats.Records as base_record;
ghost use Rattle.base.specs.formats.Records.{IsAllowed, IsOneLevelRecord};
ghost use Rattle.base.specs.formats.Versions.{number_of_version};
ghost use Rattle.base.specs.steps.Logs.{total_size};
ghost use Rattle.records.specs.Records.{record_fields};
ghost use Rattle.records.specs.declared.record.Record.{Record};
ghost use Rattle.intent_log.specs.Chains.{HasOneRecord};

use base::{PoolError, Version};
use checked_blocks::Frame;
use device_model::SectorDevice;
use intent_log::{ChainHeader, LoggedPiece, chain};
use records::Record;
use std::alloc::Global;

// The uberblock of a pool without a log names address 0.
fn no_chain_begins_at_address_0<D: SectorDevice>(
    alloc: Global,
    device: &mut D,
    frame: &Frame,
) -> Result<Vec<LoggedPiece>, PoolError>
    requires fits { block_address frame.now.blocks ≤ D.size device.old }
    ensures { IsTrue D.keeps_model → IfOk result (λ pieces. pieces.items ≡ []) }
{
    chain(
        alloc,
        device,
        frame,
        &ChainHeader {
            address: 0,
            number: 0,
            import_number: 1,
            version: Version::Two,
        },
    )
}

// A block of the header's chain and number that has one record begins a chain.
fn a_block_of_one_record_is_read<D: SectorDevice>(
    alloc: Global,
    device: &mut D,
    frame: &Frame,
    header: &ChainHeader,
) -> Result<Vec<LoggedPiece>, PoolError>
    requires fits { block_address frame.now.blocks ≤ D.size device.old }
    requires number { header.now.number ≤ 2 ^ 60 }
    ensures { IsTrue D.keeps_model → (r : base_record.Record)
        → HasOneRecord (bytes_of (D.disk device.old).now) frame.now header.now.import_number
        header.now.address header.now.number r
        → (number_of_version header.now.version ≤ 1 → IsOneLevelRecord r)
        → IfOk result (λ pieces. 0 < length pieces.items) }
{
    chain(alloc, device, frame, header)
}

// In version 1 a block begins no chain if its one record reaches past the length of one level.
fn version_1_has_no_record_past_one_level<D: SectorDevice>(
    alloc: Global,
    device: &mut D,
    frame: &Frame,
    header: &ChainHeader,
) -> Result<Vec<LoggedPiece>, PoolError>
    requires fits { block_address frame.now.blocks ≤ D.size device.old }
    requires number { header.now.number ≤ 2 ^ 60 }
    requires version { header.now.version ≡ Version.One }
    ensures { IsTrue D.keeps_model → (r : base_record.Record)
        → HasOneRecord (bytes_of (D.disk device.old).now) frame.now header.now.import_number
        header.now.address header.now.number r
        → (IsOneLevelRecord r → ⊥) → IfOk result (λ pieces. pieces.items ≡ []) }
{
    chain(alloc, device, frame, header)
}

// Nor does a piece of version 1 have more than one block: it has no long record.
fn version_1_has_no_long_record<D: SectorDevice>(
    alloc: Global,
    device: &mut D,
    frame: &Frame,
    header: &ChainHeader,
) -> Result<Vec<LoggedPiece>, PoolError>
    requires fits { block_address frame.now.blocks ≤ D.size device.old }
    requires number { header.now.number ≤ 2 ^ 60 }
    requires version { header.now.version ≡ Version.One }
    ensures { IsTrue D.keeps_model → IfOk result (λ pieces. (piece : LogPiece)
        (rest : List LogPiece) → pieces.items ≡ piece ∷ rest → piece.behind ≡ []) }
{
    chain(alloc, device, frame, header)
}

// A block of another run begins no chain, whatever record it has.
fn a_block_of_another_run_begins_no_chain<D: SectorDevice>(
    alloc: Global,
    device: &mut D,
    frame: &Frame,
    header: &ChainHeader,
) -> Result<Vec<LoggedPiece>, PoolError>
    requires fits { block_address frame.now.blocks ≤ D.size device.old }
    requires number { header.now.number ≤ 2 ^ 60 }
    requires run { header.now.import_number ≡ 3 }
    ensures { IsTrue D.keeps_model → (r : base_record.Record)
        → HasOneRecord (bytes_of (D.disk device.old).now) frame.now 2
        header.now.address header.now.number r → IfOk result (λ pieces. pieces.items ≡ []) }
{
    chain(alloc, device, frame, header)
}

// Each part of a long record but the last fills its block, so a record in three blocks has more than 8,016 bytes.
fn a_record_in_three_blocks_fills_two<D: SectorDevice>(
    alloc: Global,
    device: &mut D,
    frame: &Frame,
    header: &ChainHeader,
) -> Result<Vec<LoggedPiece>, PoolError>
    requires fits { block_address frame.now.blocks ≤ D.size device.old }
    requires number { header.now.number ≤ 2 ^ 60 }
    ensures { IsTrue D.keeps_model → IfOk result (λ pieces. (piece : LogPiece)
        (rest : List LogPiece) → pieces.items ≡ piece ∷ rest → length piece.behind ≡ 2
        → 8016 < total_size piece.records) }
{
    chain(alloc, device, frame, header)
}

// A chain goes on as long as a piece follows: where a chain of one piece ends, no block of the next number has a
// record.
fn a_chain_goes_on_with_the_next_number<D: SectorDevice>(
    alloc: Global,
    device: &mut D,
    frame: &Frame,
    header: &ChainHeader,
) -> Result<Vec<LoggedPiece>, PoolError>
    requires fits { block_address frame.now.blocks ≤ D.size device.old }
    requires number { header.now.number ≤ 2 ^ 60 }
    ensures { IsTrue D.keeps_model → IfOk result (λ pieces. (piece : LogPiece)
        (r : base_record.Record) → pieces.items ≡ piece ∷ []
        → HasOneRecord (bytes_of (D.disk device.old).now) frame.now header.now.import_number
        piece.next (header.now.number + 1 + length piece.behind) r
        → (number_of_version header.now.version ≤ 1 → IsOneLevelRecord r) → ⊥) }
{
    chain(alloc, device, frame, header)
}

fn a_chain_is_read_without_a_write<D: SectorDevice>(
    alloc: Global,
    device: &mut D,
    frame: &Frame,
    header: &ChainHeader,
) -> Result<usize, PoolError>
    requires fits { block_address frame.now.blocks ≤ D.size device.old }
    requires number { header.now.number ≤ 2 ^ 60 }
    ensures same { IsTrue D.keeps_model → D.disk device.new ≡ D.disk device.old }
    ensures refused { IfErr result (λ e. (e ≡ PoolError.NoMemory) ⊎ (e ≡ PoolError.Read)) }
{
    Ok(chain(alloc, device, frame, header)?.len())
}

// Whatever the device holds.
fn a_chain_begins_in_the_area<D: SectorDevice>(
    alloc: Global,
    device: &mut D,
    frame: &Frame,
    header: &ChainHeader,
) -> Result<Option<u64>, PoolError>
    requires fits { block_address frame.now.blocks ≤ D.size device.old }
    requires number { header.now.number ≤ 2 ^ 60 }
    ensures { IfOk result (λ found. IfSome found (IsBlockAddress frame.now.blocks)) }
{
    let pieces = chain(alloc, device, frame, header)?;
    let Some(first) = pieces.first() else {
        return Ok(None);
    };
    Ok(Some(first.address()))
}

fn records_of_a_sound_piece_are_allowed(piece: &LoggedPiece) -> &[Record]
    requires { All IsAllowed piece.now.records }
    ensures { All IsAllowed (map record_fields result.now) }
{
    piece.records()
}

// A piece that is used up leaves the record of its one commit.
fn a_piece_leaves_its_record(piece: LoggedPiece) -> Vec<Record>
    requires { map (λ (r : base_record.Record). r.ordinal) piece.records ≡ 7 ∷ [] }
    ensures { map (λ (r : Record). r.ordinal.0) result.items ≡ 7 ∷ [] }
{
    piece.into_records()
}

// The blocks behind the first one of a piece are the others that it has to spare.
fn a_piece_of_three_blocks_has_two_behind_the_first(piece: &LoggedPiece)
    requires { piece.now.behind ≡ 4202496 ∷ 4206592 ∷ [] }
{
    prove!(piece.behind().len() == 2);
}
