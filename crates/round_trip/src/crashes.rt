//! A client of the pool with crashes: rounds of an import and steps, each ended by a crash or by giving the device
//! up.
//!
//! In a round the device may refuse one call, of the import or of a step, and the round goes on as its caller finds
//! it: a refused import is a round without steps, and a pool that is suspended refuses the steps that are left. Then
//! the power goes, or the device is handed to the next import with what is unflushed on it. The last
//! import then mounts a cut of the rounds, with all that each round acknowledged.

ghost use Rattle.std.specs.Prelude.{◌≡◌, ◌⊎◌, IfErr, IfOk, IsTrue};
ghost use Rattle.base.specs.kept.Imports.{is_dirty_max_allowed};
ghost use Rattle.base.specs.disk.Disk.{bytes_of, disk_size};
ghost use Rattle.base.specs.history.Past.{Past};
ghost use Rattle.contents.specs.ContentsShown.{contents_of};
ghost use Rattle.import_replay.specs.CreateRefusals.{IsCreateRefusal};
ghost use Rattle.import_replay.specs.ImportRefusals.{IsImportRefusal};
ghost use Rattle.base.specs.kept.LeftDisks.{IsLeft};
ghost use Rattle.round_trip.specs.Crashes.{FindsCutsFrom, FindsCutsOfNew, IsOverFor, IsRefusedFrom, IsRefusedOfNew, IsRound, IsRoundsOfNewRefusal, IsRoundsRefusal, counted_in, with_fault};
ghost use Rattle.round_trip.specs.Rounds.{HasMoment};

use crate::{make, open};
use base::{DEFAULT_CACHE_BLOCKS, Piece, PoolError, Reply, Step};
use device_model::{Fault, MemDevice, SectorDevice};
use import_replay::{Imported, Limits, import};
use pool_core::{PoolState, run};
use std::alloc::Global;

/// What the steps of a round replied, or why its import was refused.
pub type Answer = Result<Vec<Reply>, PoolError>;

/// How a round ends.
#[derive(Drop)]
pub enum End {
    /// A crash, which leaves these pieces of the unflushed writes.
    Crash(Vec<Piece>),
    /// The device is given up as it is, with what is unflushed.
    GivenUp,
}

/// One round of a pool.
#[derive(Drop)]
pub struct Round {
    /// The n-th such call of the device in this round fails, if there is a fault.
    pub fault: Option<(Fault, u64)>,
    /// The limit of the bytes that may be dirty.
    pub dirty_max: u64,
    /// The moment, in seconds, that the import stores in its uberblocks.
    pub moment: u64,
    /// The steps after the import.
    pub steps: Vec<Step>,
    /// How the round ends.
    pub end: End,
}

/// Imports the pool on a device, makes steps, and returns the device: the import and the steps of a round. The answer
/// is a refusal if the import was refused, or if there was no memory for the replies. No step was made then.
pub fn import_and_run<D: SectorDevice>(
    alloc: Global,
    device: D,
    dirty_max: u64,
    moment: u64,
    steps: Vec<Step>,
) -> (Result<Vec<Reply>, PoolError>, D)
    ensures went { IsTrue D.keeps_model → (past : Past) → IsLeft past (D.disk device)
        → IsOverFor dirty_max moment steps.items result.0 past (D.disk device) (D.disk result.1) }
    ensures count { D.refused result.1 ≡ counted_in result.0 (D.refused device) }
    ensures refusal { IfErr result.0 (IsImportRefusal (D.size device)
        (is_dirty_max_allowed dirty_max)) }
{
    let limits = Limits {
        dirty_max,
        cache_blocks: DEFAULT_CACHE_BLOCKS,
    };
    match import(alloc, device, limits, moment) {
        Ok(imported) => {
            let mut state = PoolState::new(imported);
            let answer = run(&mut state, steps);
            (answer, state.into_device())
        }
        Err((error, device)) => (Err(error), device),
    }
}

/// Goes one round, and returns the device for the next one.
pub fn go_round(
    alloc: Global,
    mut device: MemDevice,
    round: Round,
) -> (Result<Vec<Reply>, PoolError>, MemDevice)
    ensures went { (past : Past) → IsLeft past device.disk
        → IsRound round result.0 past device.disk result.1.disk }
    ensures count { result.1.refused ≡ counted_in result.0 device.refused }
    ensures refusal { IfErr result.0 (IsImportRefusal (disk_size device.disk)
        (is_dirty_max_allowed round.dirty_max)) }
{
    let Round {
        fault,
        dirty_max,
        moment,
        steps,
        end,
    } = round;
    plan_fault(&mut device, fault);
    let (answer, device) = import_and_run(alloc, device, dirty_max, moment, steps);
    match end {
        End::Crash(pieces) => (answer, device.crash(&pieces)),
        End::GivenUp => (answer, device),
    }
}

pub(crate) fn plan_fault(device: &mut MemDevice, fault: Option<(Fault, u64)>)
    ensures device { device.new ≡ with_fault fault device.old }
    ensures disk { device.new.disk ≡ device.old.disk }
    ensures refused { device.new.refused ≡ device.old.refused }
{
    if let Some((fault, n)) = fault {
        device.fail(fault, n);
    }
}

/// Goes rounds, one upon the other, and imports the pool after the last one.
///
/// # Errors
/// `NoMemory` if there is none for the answers; else those of the last import. The device is dropped.
pub fn go_rounds(
    alloc: Global,
    device: MemDevice,
    dirty_max: u64,
    moment: u64,
    rounds: Vec<Round>,
) -> Result<(Vec<Result<Vec<Reply>, PoolError>>, Imported<MemDevice>), PoolError>
    ensures found { IfOk result (λ r. FindsCutsFrom rounds.items r.0.items device.disk
        (contents_of r.1.mounted.contents) r.1.device.disk) }
    ensures opened { IfOk result (λ r. HasMoment (bytes_of r.1.device.disk.now) moment) }
    ensures limit { IfOk result (λ r. r.1.mounted.dirty_max ≡ dirty_max) }
    ensures refusal { IfErr result (λ e. IsRoundsRefusal dirty_max e) }
    ensures reason { IfErr result (λ e. IsRefusedFrom rounds.items device.disk e) }
{
    let mut device = device;
    let mut answers = Vec::with_capacity(alloc, rounds.len())?;
    for round in rounds {
        let (answer, next) = go_round(alloc, device, round);
        answers.push_reserved(answer);
        device = next;
    }
    let imported = open(alloc, device, dirty_max, moment)?;
    Ok((answers, imported))
}

/// Makes a pool, goes these rounds, and imports the pool after the last one.
///
/// # Errors
/// Those of `create`, and those of `go_rounds`. The device is dropped.
pub fn play_rounds(
    alloc: Global,
    device: MemDevice,
    name: &[u8],
    guid: u64,
    dirty_max: u64,
    moment: u64,
    rounds: Vec<Round>,
) -> Result<(Vec<Result<Vec<Reply>, PoolError>>, Imported<MemDevice>), PoolError>
    ensures found { IfOk result (λ r.
        FindsCutsOfNew name.now guid moment rounds.items r.0.items device.disk
        (contents_of r.1.mounted.contents) r.1.device.disk) }
    ensures opened { IfOk result (λ r. HasMoment (bytes_of r.1.device.disk.now) moment) }
    ensures limit { IfOk result (λ r. r.1.mounted.dirty_max ≡ dirty_max) }
    ensures refusal { IfErr result
        (λ e. IsRoundsOfNewRefusal (disk_size device.disk) name.now dirty_max e) }
    ensures reason { IfErr result
        (λ e. IsCreateRefusal (disk_size device.disk) name.now e
        ⊎ IsRefusedOfNew name.now guid moment rounds.items device.disk e) }
{
    let made = make(device, name, guid, moment)?;
    go_rounds(alloc, made, dirty_max, moment, rounds)
}
