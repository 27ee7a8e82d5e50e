//! What callers rest on: one function for each promise of a session whose pool is under a lock,
//! proved from the contract of the call alone. So it is refused as soon as that contract says less.

mod command;

ghost use Rattle.std.specs.Prelude.{ℕ, ◌≡◌, ◌⊎◌, ◌+◌, ◌++◌, ◌∷◌, [], Ok, Some, IsOk, length};
ghost use Rattle.std.specs.Option.{option_map};
ghost use Rattle.base.specs.kept.LeftDisks.{IsLeft};
ghost use Rattle.base.specs.declared.error.PoolError.{PoolError};
ghost use Rattle.base.specs.declared.error.PoolError.TheVariants.{BadRange, NoMemory};
ghost use Rattle.base.specs.declared.operation.Shape.TheVariants as shape;
ghost use Rattle.base.specs.declared.piece.Piece.TheVariants.{Lose};
ghost use Rattle.base.specs.declared.step.Reply.TheVariants.{Length, Refused};
ghost use Rattle.base.specs.disk.Crashes.{crash_image};
ghost use Rattle.base.specs.disk.Disk.{certain, disk_size};
ghost use Rattle.base.specs.disk.Fairness.{IsFairOn};
ghost use Rattle.base.specs.formats.Geometry.{IsGeometry};
ghost use Rattle.base.specs.history.Contents.{length_of};
ghost use Rattle.base.specs.history.Past.{Grows, Past};
ghost use Rattle.device_model.specs.MemState.{MemState, after_crash};
ghost use Rattle.device_model.specs.contracts.memory.MemDeviceSectorDevice.TheImpl.{ghosts};
ghost use Rattle.import_replay.specs.ImportSyncs.{IsImportSynced};
ghost use Rattle.mounted.specs.declared.mounted.Mounted.{Mounted};
ghost use Rattle.pool_threads.specs.Handles.{opening_view, owned_of};
ghost use Rattle.pool_threads.specs.Views.{SeenPool, viewed_state};
ghost use Rattle.pool_threads.specs.Views.CrashRule.{Behind};
ghost use Rattle.scripts.specs.declared.place.Place.TheVariants as place;
ghost use Rattle.scripts.specs.Kept.{IsRunIn};
ghost use Rattle.scripts.specs.Sessions.{place_in, session_moment};
ghost use Rattle.script_sessions.specs.SharedPools.{view_in};
ghost use Rattle.script_sessions.specs.SharedRuns.{IsRunOf};
ghost use Rattle.word_lock.specs.Seats.{turns};
ghost use Rattle.word_lock.specs.Turns.{turn};

use crate::begun_plans::BegunPlans;
use crate::shared_pool::{SharedPool, SharedSession};
use base::{ObjectId, Piece, Plan, Step, TxId};
use device_model::{Fault, MemDevice};
use script_lines::{Answer, Command, PoolCommand};
use scripts::{BadCommand, MountedPool};
use std::alloc::Global;
use std::sync::Wait;

// Of two transactions that began, each has its own plan.
fn a_transaction_has_its_own_plan(plans: &BegunPlans) -> Option<&Plan>
    requires { plans.now.plans.items
        ≡ record { tx = record { 0 = 4 }; plan = shape.Remove (record { 0 = 3 }) ∷ [] }
        ∷ record { tx = record { 0 = 5 }; plan = [] } ∷ [] }
    ensures { option_map (λ p. p.now) result ≡ Some [] }
{
    plans.plan(TxId(5))
}

// A step takes one turn of the handle.
fn a_step_takes_one_turn<'r, W: Wait>(
    session: &mut SharedSession<'r, W>,
) -> Result<Answer, BadCommand>
    ensures { (old new : SharedPool) → place_in session.old ≡ place.Pool old
        → place_in session.new ≡ place.Pool new
        → length (turns new.last.seat) ≡ length (turns old.last.seat) + 1 }
{
    session.run(Command::Pool(PoolCommand::Step(Step::CloseGroup)))
}

// A plan to fail takes one turn of the handle.
fn a_plan_to_fail_takes_one_turn<'r, W: Wait>(
    session: &mut SharedSession<'r, W>,
) -> Result<Answer, BadCommand>
    ensures { (old new : SharedPool) → place_in session.old ≡ place.Pool old
        → place_in session.new ≡ place.Pool new
        → length (turns new.last.seat) ≡ length (turns old.last.seat) + 1 }
{
    session.run(Command::Fail {
        fault: Fault::Read,
        n: 1,
    })
}

// The second command is made on just what the first one left.
fn nothing_lies_between_two_commands<'r, W: Wait>(
    session: &mut SharedSession<'r, W>,
) -> Result<Answer, BadCommand>
    ensures { (old new : SharedPool) → place_in session.old ≡ place.Pool old
        → place_in session.new ≡ place.Pool new
        → (middle : SeenPool) × (turns new.last.seat
        ≡ (turns old.last.seat ++ turn (view_in old) middle ∷ [])
        ++ turn middle (view_in new) ∷ []) }
{
    let _ = session.run(Command::Pool(PoolCommand::Step(Step::CloseGroup)));
    session.run(Command::Pool(PoolCommand::Step(Step::Digest)))
}

// The answer is that of a session that owns its pool: of just what the last command left.
fn a_length_is_of_what_the_last_command_left<'r, W: Wait>(
    session: &mut SharedSession<'r, W>,
) -> Result<Answer, BadCommand>
    ensures { (old new : SharedPool) (n : ℕ) → place_in session.old ≡ place.Pool old
        → place_in session.new ≡ place.Pool new → result ≡ Ok (Answer.Reply (Length n))
        → ∥ length_of (viewed_state (view_in old)).shown.contents 5 ≡ Some n ∥₁ }
{
    session.run(Command::Pool(PoolCommand::Step(Step::Length(ObjectId(5)))))
}

fn a_sync_of_a_pool_is_answered<'r, W: Wait>(
    session: &mut SharedSession<'r, W>,
) -> Result<Answer, BadCommand>
    ensures { (old : SharedPool) → place_in session.old ≡ place.Pool old → IsOk result }
{
    session.run(Command::Pool(PoolCommand::Sync))
}

// No turn of another comes between the last command and the crash.
fn a_crash_takes_the_disk_that_the_last_command_left<'r, W: Wait>(
    session: &mut SharedSession<'r, W>,
    pieces: Vec<Piece>,
) -> Result<Answer, BadCommand>
    requires { pieces.items ≡ [] }
    ensures { (old : SharedPool) (device : MemState) → place_in session.old ≡ place.Pool old
        → place_in session.new ≡ place.Device device
        → device.disk ≡ certain (crash_image [] (view_in old).disk.now) (view_in old).disk }
{
    session.run(Command::Crash(pieces))
}

// That the crash is fair is asked of the disk that the last command left.
fn a_fair_crash_leaves_what_the_run_left<'r, W: Wait>(
    session: &mut SharedSession<'r, W>,
    pieces: Vec<Piece>,
) -> Result<Answer, BadCommand>
    ensures { (old : SharedPool) (past : Past) → place_in session.old ≡ place.Pool old
        → IsRunOf past old → IsOk result
        → IsFairOn (view_in old).disk past.created
        (crash_image pieces.items (view_in old).disk.now)
        → IsRunIn ghosts ⟦<SharedPool as MountedPool<MemDevice, W>>⟧ past (place_in session.new) }
{
    session.run(Command::Crash(pieces))
}

// A crash that loses the one unflushed write does so.
fn a_crash_has_its_letters<'r, W: Wait>(
    session: &mut SharedSession<'r, W>,
    pieces: Vec<Piece>,
) -> Result<Answer, BadCommand>
    requires { pieces.items ≡ Lose ∷ [] }
    ensures { (device : MemState) → place_in session.old ≡ place.Device device
        → length device.disk.now.unflushed ≡ 1
        → place_in session.new ≡ place.Device (after_crash (Lose ∷ []) device) }
{
    session.run(Command::Crash(pieces))
}

// A limit of 0 bytes is a bad range, or there is no memory.
fn an_import_without_a_limit_is_a_bad_range<'r, W: Wait>(
    session: &mut SharedSession<'r, W>,
) -> Result<Answer, BadCommand>
    ensures { (device : MemState) (e : PoolError) → place_in session.old ≡ place.Device device
        → IsGeometry (disk_size device.disk) → result ≡ Ok (Answer.Reply (Refused e))
        → (e ≡ BadRange) ⊎ (e ≡ NoMemory) }
{
    session.run(Command::Import {
        dirty_max: 0,
        cache_blocks: 256,
    })
}

// An imported pool follows the crash rule of what its device held. Its disk is the one that the import left, which
// wrote the session's moment, and its cache has room for the blocks that the command says.
fn an_import_keeps_the_crash_rule_and_the_moment<'r, W: Wait>(
    session: &mut SharedSession<'r, W>,
) -> Result<Answer, BadCommand>
    requires { session_moment session.old ≡ 77 }
    ensures rule { (device : MemState) (shared : SharedPool)
        → place_in session.old ≡ place.Device device → place_in session.new ≡ place.Pool shared
        → (opening_view (owned_of shared.pool)).rule ≡ Behind device.disk }
    ensures moment { (device : MemState) (shared : SharedPool)
        → place_in session.old ≡ place.Device device → place_in session.new ≡ place.Pool shared
        → (mounted : Mounted)
        × IsImportSynced device.disk (view_in shared).disk 77 mounted }
    ensures cache { (device : MemState) (shared : SharedPool)
        → place_in session.old ≡ place.Device device → place_in session.new ≡ place.Pool shared
        → (opening_view (owned_of shared.pool)).cache_room ≡ 2 }
{
    session.run(Command::Import {
        dirty_max: 2_097_152,
        cache_blocks: 2,
    })
}

// No turn of another comes after the last command.
fn a_locked_pool_gives_back_the_disk_that_the_last_command_left<W: Wait>(
    shared: SharedPool,
) -> MemDevice
    ensures { result.disk ≡ (view_in shared).disk }
{
    <SharedPool as MountedPool<MemDevice, W>>::unmount(shared)
}

// A run goes on by a command: its entries stay, and what was acknowledged stays so. What it comes to is left on the
// device that the pool gives back.
fn a_run_goes_on_to_the_device_that_comes_back<W: Wait>(
    rt: &W,
    alloc: Global,
    shared: SharedPool,
) -> MemDevice
    ensures { (past : Past) → IsRunOf past shared
        → ∥ ((later : Past) × Grows past later × IsLeft later result.disk) ∥₁ }
{
    let (after, _) = shared.run_command(rt, alloc, 77, PoolCommand::Sync);
    <SharedPool as MountedPool<MemDevice, W>>::unmount(after)
}
