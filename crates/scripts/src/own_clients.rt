//! What callers rest on: one function for each promise of a session that steps its pool itself,
//! proved from the contract of the call alone. So it is refused as soon as that contract says less.

ghost use Rattle.std.specs.Prelude.{◌≡◌, ◌≢◌, ◌⊎◌, true, None, Ok, IfOk, IfSome, IsErr, IsOk};
ghost use Rattle.base.specs.declared.error.PoolError.TheVariants as error;
ghost use Rattle.base.specs.declared.step.Reply.TheVariants as reply;
ghost use Rattle.base.specs.declared.step.Step.TheVariants.{CloseGroup, StartSync};
ghost use Rattle.pool_core.specs.States.{cache_room_of, device_of, shown};
ghost use Rattle.scripts.specs.OwnPools.{IsStepOf, MemPool};
ghost use Rattle.scripts.specs.declared.place.Place.TheVariants as place;
ghost use Rattle.scripts.specs.Places.{AsksIn, has_device, has_pool};

use crate::mounted_pool::MountedPool;
use crate::script::run_line;
use crate::session::{BadCommand, OwnSession};
use base::Reply;
use device_model::MemDevice;
use pool_core::PoolState;
use script_lines::{Answer, Command, PoolCommand};
use std::alloc::Global;

// An import has the limit of its line, however large.
fn an_import_has_its_limit(session: &mut OwnSession<'_>) -> Result<Answer, BadCommand>
    requires { has_device session.old.place ≡ true }
    ensures { (pool : MemPool) → session.new.place ≡ place.Pool pool
        → (shown pool).dirty_max ≡ 2097152 }
{
    session.run(Command::Import {
        dirty_max: 2_097_152,
        cache_blocks: 2,
    })
}

// As many tree blocks may stay in memory as its line says.
fn an_import_has_its_cache(session: &mut OwnSession<'_>) -> Result<Answer, BadCommand>
    requires { has_device session.old.place ≡ true }
    ensures { (pool : MemPool) → session.new.place ≡ place.Pool pool → cache_room_of pool ≡ 2 }
{
    session.run(Command::Import {
        dirty_max: 2_097_152,
        cache_blocks: 2,
    })
}

// The line of a close makes that step of the session's pool and no other, or there is no memory for the line.
fn a_close_line_closes_the_group(
    alloc: Global,
    session: &mut OwnSession<'_>,
) -> Result<Option<Answer>, BadCommand>
    requires { has_pool session.old.place ≡ true }
    ensures good { IsOk result }
    ensures answered { result ≢ Ok None }
    ensures closes { IfOk result (λ told. IfSome told (λ answer.
        ((answer ≡ Answer.Reply (reply.Refused error.NoMemory)) × (session.new ≡ session.old))
        ⊎ AsksIn (λ reply old new. IsStepOf CloseGroup reply old new)
        session.old.place answer session.new.place)) }
{
    run_line(alloc, session, b"close")
}

// If the same line is a bad one, it leaves what is there.
fn a_bad_line_leaves_the_device(
    alloc: Global,
    session: &mut OwnSession<'_>,
) -> Result<Option<Answer>, BadCommand>
    ensures { IsErr result → session.new.place ≡ session.old.place }
{
    run_line(alloc, session, b"close")
}

// A sync that a command starts in a mounted pool has the moment of the command.
fn a_mounted_pool_starts_its_sync_at_the_given_moment(
    alloc: Global,
    pool: PoolState<MemDevice>,
) -> (PoolState<MemDevice>, Reply)
    ensures { IsStepOf (StartSync 77) result.1 pool result.0 }
{
    pool.run_command(&(), alloc, 77, PoolCommand::Start)
}

// With its unflushed writes, its planned faults and its counts of refused calls.
fn a_pool_gives_back_the_device_that_it_had(pool: PoolState<MemDevice>) -> MemDevice
    ensures { result ≡ device_of pool }
{
    <PoolState<MemDevice> as MountedPool<MemDevice, ()>>::unmount(pool)
}
