//! What callers rest on: one function for each promise of this crate's calls, proved from the contract of the call
//! alone. So it is refused as soon as that contract says less.

ghost use Rattle.std.specs.Prelude.{◌≡◌, ◌≢◌, All, IfErr, IfOk, length};
ghost use Rattle.base.specs.disk.Crashes.{crash_image};
ghost use Rattle.base.specs.disk.Disk.{Disk, bytes_of, certain};
ghost use Rattle.base.specs.formats.Uberblocks.{IsActive};
ghost use Rattle.base.specs.history.Past.{Past};
ghost use Rattle.import_replay.specs.Creations.{first_uberblock};
ghost use Rattle.base.specs.steps.Runs.{Run};
ghost use Rattle.pool_core.specs.KeptSafe.{IsSafeStep, OnDisk};
ghost use Rattle.base.specs.kept.LeftDisks.{GoesOnFrom, IsLeft};
ghost use Rattle.round_trip.specs.declared.crashes.End.TheVariants.{GivenUp};
ghost use Rattle.round_trip.specs.Rounds.{HasMoment};

use crate::crashes::{
    Answer, End, Round, go_round, go_rounds, import_and_run, plan_fault, play_rounds,
};
use crate::{make, open};
use base::{Piece, PoolError, Reply, Step};
use device_model::{Fault, MemDevice};
use import_replay::Imported;
use std::alloc::Global;

// A new pool has the guid and the moment that were handed in.
fn a_new_pool_has_its_guid(device: MemDevice) -> Result<MemDevice, PoolError>
    ensures { IfOk result (λ d. IsActive (bytes_of d.disk.now) (first_uberblock 77 5)) }
{
    make(device, b"tank", 77, 5)
}

// An imported pool has the limit that was handed in, and not the moment.
fn an_imported_pool_has_its_limit(alloc: Global, device: MemDevice) -> Result<(), PoolError> {
    let imported = open(alloc, device, 1_048_576, 7)?;
    let limit = imported.mounted.dirty_max;
    prove!(limit == 1_048_576);
    Ok(())
}

// An import of what an earlier run left makes all steps, and finds a pool.
fn what_a_run_left_is_run_on(
    alloc: Global,
    device: MemDevice,
    steps: Vec<Step>,
) -> (Result<Vec<Reply>, PoolError>, MemDevice)
    ensures steps { (past : Past) → IsLeft past device.disk
        → IfOk result.0 (λ replies. length replies.items ≡ length steps.items) }
    ensures found { (past : Past) → IsLeft past device.disk
        → IfErr result.0 (λ e. e ≢ PoolError.NoPool) }
{
    import_and_run(alloc, device, 1_048_576, 7, steps)
}

// The steps of a round are made on the device's own disk, and begin on what the import at moment 7 left there.
fn the_steps_of_a_round_begin_on_what_its_import_left(
    alloc: Global,
    device: MemDevice,
    steps: Vec<Step>,
) -> (Answer, MemDevice)
    ensures { (past : Past) → IsLeft past device.disk → IfOk result.0 (λ replies.
        ∥ ((first : OnDisk) × (last : OnDisk) × GoesOnFrom device.disk first.disk
        × HasMoment (bytes_of first.disk.now) 7
        × Run IsSafeStep steps.items replies.items first last
        × (last.disk ≡ result.1.disk)) ∥₁) }
{
    import_and_run(alloc, device, 1_048_576, 7, steps)
}

// A crash at the end of a round leaves its pieces.
fn a_crash_leaves_its_pieces(
    alloc: Global,
    device: MemDevice,
    steps: Vec<Step>,
    pieces: Vec<Piece>,
) -> (Answer, MemDevice)
    ensures { (past : Past) → IsLeft past device.disk
        → ∥ ((ended : Disk)
        × (result.1.disk ≡ certain (crash_image pieces.items ended.now) ended)) ∥₁ }
{
    let only = Round {
        fault: None,
        dirty_max: 1_048_576,
        moment: 7,
        steps,
        end: End::Crash(pieces),
    };
    go_round(alloc, device, only)
}

// Without rounds the pool that an earlier run left is found, at the moment of the last import.
fn no_rounds_are_an_import(
    alloc: Global,
    device: MemDevice,
) -> Result<(Vec<Answer>, Imported<MemDevice>), PoolError>
    ensures found { (past : Past) → IsLeft past device.disk
        → IfErr result (λ e. e ≢ PoolError.NoPool) }
    ensures moment { IfOk result (λ r. HasMoment (bytes_of r.1.device.disk.now) 7) }
{
    go_rounds(alloc, device, 1_048_576, 7, Vec::new(alloc))
}

// Rounds that give the device up have an answer each.
fn each_round_has_an_answer(
    alloc: Global,
    device: MemDevice,
    rounds: Vec<Round>,
) -> Result<(Vec<Answer>, Imported<MemDevice>), PoolError>
    requires given_up { All (λ (r : Round). r.end ≡ GivenUp) rounds.items }
    ensures { IfOk result (λ r. length r.0.items ≡ length rounds.items) }
{
    play_rounds(alloc, device, b"tank", 77, 1_048_576, 7, rounds)
}

// The third write from now is planned to fail.
fn the_third_write_is_planned_to_fail(device: &mut MemDevice)
    ensures { device.new.write_fails ≡ 3 }
{
    plan_fault(device, Some((Fault::Write, 3)));
}
