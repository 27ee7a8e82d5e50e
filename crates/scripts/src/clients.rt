//! What callers rest on: one function for each promise of this crate's calls, proved from the contract of the call
//! alone. So it is refused as soon as that contract says less.

ghost use Rattle.std.specs.Prelude.{◌≡◌, ◌⊎◌, ◌∷◌, ◌-◌, ◌^◌, [], false, true, Some, Err, Ok, IsErr, length};
ghost use Rattle.base.specs.declared.error.PoolError.TheVariants as error;
ghost use Rattle.base.specs.declared.operation.Op.TheVariants as op;
ghost use Rattle.base.specs.declared.operation.Shape.TheVariants as shape;
ghost use Rattle.base.specs.declared.step.Reply.TheVariants as reply;
ghost use Rattle.base.specs.declared.step.Step.TheVariants.{StartSync};
ghost use Rattle.base.specs.disk.Disk.{disk_size, moments};
ghost use Rattle.base.specs.formats.Geometry.{IsGeometry};
ghost use Rattle.device_model.specs.MemState.{after_crash};
ghost use Rattle.device_model.specs.contracts.memory.MemDeviceSectorDevice.TheImpl.{ghosts};
ghost use Rattle.scripts.specs.Kept.{LeavesNew};
ghost use Rattle.scripts.specs.Places.{has_pool};
ghost use Rattle.scripts.specs.PoolSteps.{CommitsOps, MakesSteps};

use crate::command_runner::CommandRunner;
use crate::mounted_pool::FaultyPool;
use crate::place::Place;
use crate::pool_commands::run_pool_command;
use crate::script::{run_script, run_script_on};
use crate::session::{BadCommand, Session, new_device};
use crate::stepped_pool::SteppedPool;
use base::{Bytes, Piece, PoolError, Reply, TxId};
use device_model::MemDevice;
use script_lines::{Answer, Command, PoolCommand};
use std::alloc::Global;
use std::io::{Read, Write};

// A command of a pool is a bad one if there is no pool, and leaves what is there.
fn a_bad_command_leaves_the_device<'r, R, P: FaultyPool<R>>(
    session: &mut Session<'r, R, MemDevice, P>,
) -> Result<Answer, BadCommand>
    requires { has_pool session.old.place ≡ false }
    ensures bad { IsErr result }
    ensures unchanged { session.new.place ≡ session.old.place }
{
    session.run(Command::Pool(PoolCommand::Start))
}

fn a_new_session_has_no_pool<R, P: FaultyPool<R>>(
    rt: &R,
    alloc: Global,
) -> Result<Answer, BadCommand>
    ensures { IsErr result }
{
    let mut session: Session<'_, R, MemDevice, P> = Session::new(rt, alloc, 8_388_608, 77);
    session.run(Command::Pool(PoolCommand::Start))
}

// A device of less than 6 MiB is none of a pool.
fn a_small_device_is_refused(alloc: Global) -> Result<MemDevice, PoolError>
    ensures { result ≡ Err error.BadGeometry }
{
    new_device(alloc, 6_291_455)
}

// A create of a good size and name is refused by the device alone.
fn a_good_create_is_refused_by_the_device<P: Drop>(
    place: &mut Place<MemDevice, P>,
    device: MemDevice,
) -> Answer
    requires { IsGeometry (disk_size device.disk) }
    ensures { (result ≡ Answer.Reply reply.Done)
        ⊎ ((result ≡ Answer.Reply (reply.Refused error.Write))
        ⊎ (result ≡ Answer.Reply (reply.Refused error.Flush))) }
{
    place.create(device, b"tank", 77, 0)
}

// A create leaves a new pool on a device that was written to before, too.
fn a_create_on_a_used_device_leaves_a_new_pool<P: Drop>(
    place: &mut Place<MemDevice, P>,
    device: MemDevice,
) -> Answer
    ensures { result ≡ Answer.Reply reply.Done
        → LeavesNew ghosts (116 ∷ 97 ∷ 110 ∷ 107 ∷ []) (moments device.disk) place.new }
{
    place.create(device, b"tank", 77, 0)
}

// A device that comes back with a refusal is kept, and no pool is there.
fn a_device_that_comes_back_is_kept<P: Drop>(
    place: &mut Place<MemDevice, P>,
    device: MemDevice,
) -> Answer
    ensures answer { result ≡ Answer.Reply (reply.Refused error.Write) }
    ensures kept { place.new ≡ Place.Device device }
{
    place.give_back(PoolError::Write, device)
}

// A crash that loses the one unflushed write does so.
fn a_crash_leaves_its_pieces<P: Drop>(
    place: &mut Place<MemDevice, P>,
    device: MemDevice,
) -> Result<Answer, BadCommand>
    requires { length device.disk.now.unflushed ≡ 1 }
    ensures told { result ≡ Ok (Answer.Crashed 1) }
    ensures left { place.new ≡ Place.Device (after_crash (Piece.Lose ∷ []) device) }
{
    place.crash(device, &[Piece::Lose])
}

// A finish that replies that there are more steps made as many as it may.
fn a_finish_goes_on_to_its_end<P: SteppedPool>(alloc: Global, pool: &mut P) -> Reply
    ensures { result ≡ reply.More → MakesSteps P.makes (2 ^ 64 - 1) pool.old pool.new }
{
    run_pool_command(alloc, pool, 77, PoolCommand::Finish)
}

fn a_started_sync_has_its_moment<P: SteppedPool>(alloc: Global, pool: &mut P) -> Reply
    ensures { P.makes (StartSync 77) result pool.old pool.new }
{
    run_pool_command(alloc, pool, 77, PoolCommand::Start)
}

// A commit has the operations of its own transaction's plan.
fn a_commit_fills_its_own_plan<P: SteppedPool>(
    alloc: Global,
    pool: &mut P,
    contents: Vec<Bytes>,
) -> Reply
    requires plan { P.plan_in (record { 0 = 5 }) pool.old
        ≡ Some (shape.Write (record { 0 = 3 }) 0 2 ∷ []) }
    requires bytes { contents.items ≡ (97 ∷ 98 ∷ []) ∷ [] }
    ensures { CommitsOps P.makes (record { 0 = 5 })
        (op.Write (record { 0 = 3 }) 0 (97 ∷ 98 ∷ []) ∷ []) result pool.old pool.new }
{
    run_pool_command(alloc, pool, 77, PoolCommand::Commit(TxId(5), contents))
}

// A refusal of the pool ends no script: its status would be 1.
fn a_script_ends_with_status_0_2_or_3<R: Read + Drop, W: Write + Drop>(
    alloc: Global,
    script: R,
    out: W,
) -> bool
    ensures { result ≡ true }
{
    let status = run_script(alloc, 8_388_608, 77, script, out);
    status == 0 || status == 2 || status == 3
}

// Nor does it on a session that ran commands before.
fn a_script_on_a_session_ends_with_status_0_2_or_3<
    S: CommandRunner,
    R: Read + Drop,
    W: Write + Drop,
>(alloc: Global, session: &mut S, script: R, out: W) -> bool
    ensures { result ≡ true }
{
    let status = run_script_on(alloc, session, script, out);
    status == 0 || status == 2 || status == 3
}
