//! The device and the pool that a script works on.
//!
//! A session has nothing, a device, or a pool that it imported from its device, and does with these what commands ask
//! for. What kind of pool it mounts is a type parameter: one that the session steps itself, or one under a lock.

ghost use Rattle.std.specs.Prelude.{◌≡◌, ◌*◌, ◌/◌, false, is_ok, is_some, IsTrue, IsOk, IsErr, IfErr, IfOk, IfSome, OnOk};
ghost use Rattle.base.specs.formats.Geometry.{IsGeometry};
ghost use Rattle.base.specs.history.Past.{Past};
ghost use Rattle.device_model.specs.MemState.{new_state};
ghost use Rattle.scripts.specs.Devices.{IsNewDeviceRefusal};

use crate::command_runner::CommandRunner;
use crate::mounted_pool::{FaultyPool, MountedPool};
use crate::place::Place;
use base::{Bytes, Piece, PoolError, Reply};
use device_model::{Fault, MemDevice, SectorDevice};
use labels::{Geometry, SECTOR_SIZE};
use pool_core::PoolState;
use script_lines::{Answer, Command, PoolCommand};
use std::alloc::Global;
use std::mem;

/// A command that needs a device or a pool and there is none, or has more letters than there are writes.
#[derive(Clone, Copy)]
pub struct BadCommand;

/// A run of a script: its device, and the pool that is imported from it. Its pool's calls wait by an `R`, if they wait.
#[derive(Drop)]
pub struct Session<'r, R, D, P> {
    rt: &'r R,
    alloc: Global,
    size: u64,
    moment: u64,
    place: Place<D, P>,
}

/// A session on a device in memory, which steps its pool itself. It never waits.
pub type OwnSession<'r> = Session<'r, (), MemDevice, PoolState<MemDevice>>;

impl<'r, R, D: SectorDevice + Drop, P: MountedPool<D, R>> Session<'r, R, D, P> {
    ghost use Rattle.scripts.specs.Kept.{GoesOnInPool, IsRunIn};
    ghost use Rattle.scripts.specs.Places.{AsksIn, IsTakenFrom, has_device, has_pool};
    ghost use Rattle.scripts.specs.Sessions.{CreatesOnTaken, ImportsIn, IsSameRun};

    /// A session on a device that is there. It makes no other.
    pub(crate) fn on_device(rt: &'r R, alloc: Global, device: D, moment: u64) -> Self
        ensures place { result.place ≡ Place.Device device }
        ensures moment { result.moment ≡ moment }
    {
        Session {
            rt,
            alloc,
            size: 0,
            moment,
            place: Place::Device(device),
        }
    }

    /// Makes a pool on the device, if there is one.
    pub(crate) fn create_on_device(&mut self, name: &Bytes, guid: u64) -> Result<Answer, BadCommand>
        ensures needs { is_ok result ≡ has_device self.old.place }
        ensures creates { IfOk result (λ told. CreatesOnTaken D.SectorDevice P.MountedPool
            name.now guid self.old told self.new.place) }
        ensures unchanged { IsErr result → self.new.place ≡ self.old.place }
        ensures same_run { IsSameRun self.old self.new }
    {
        let Some(device) = self.take_device() else {
            return Err(BadCommand);
        };
        let answer = self
            .place
            .create(device, name.as_slice(), guid, self.moment);
        Ok(answer)
    }

    // The device, which then is no longer the session's. A pool on it is given up.
    pub(crate) fn take_device(&mut self) -> Option<D>
        ensures device { IsTakenFrom P.MountedPool self.old.place result }
        ensures variant { is_some result ≡ has_device self.old.place }
        ensures kept { IsTrue D.keeps_model → IfSome result (λ device. (past : Past)
            → IsRunIn D.SectorDevice P.MountedPool past self.old.place
            → P.left past (D.disk device)) }
        ensures taken { self.new.place ≡ Place.Nothing }
        ensures unchanged { is_some result ≡ false → self.new.place ≡ self.old.place }
        ensures same_run { IsSameRun self.old self.new }
    {
        match mem::replace(&mut self.place, Place::Nothing) {
            Place::Nothing => None,
            Place::Device(device) => Some(device),
            Place::Pool(pool) => Some(pool.unmount()),
        }
    }

    pub(crate) fn import(&mut self, dirty_max: u64, cache_blocks: u64) -> Result<Answer, BadCommand>
        ensures needs { is_ok result ≡ has_device self.old.place }
        ensures left { has_device self.new.place ≡ has_device self.old.place }
        ensures imports { IfOk result (λ told. ImportsIn D.SectorDevice P.MountedPool dirty_max
            cache_blocks self.old.moment self.old.place told self.new.place) }
        ensures unchanged { IsErr result → self.new.place ≡ self.old.place }
        ensures same_run { IsSameRun self.old self.new }
    {
        let Some(device) = self.take_device() else {
            return Err(BadCommand);
        };
        match P::import(self.alloc, device, dirty_max, cache_blocks, self.moment) {
            Ok((pool, answer)) => {
                self.place = Place::Pool(pool);
                Ok(answer)
            }
            Err((error, device)) => Ok(self.place.give_back(error, device)),
        }
    }

    pub(crate) fn run_on_pool(&mut self, command: PoolCommand) -> Result<Answer, BadCommand>
        ensures needs { is_ok result ≡ has_pool self.old.place }
        ensures left { has_pool self.new.place ≡ has_pool self.old.place }
        ensures asked { IfOk result (λ told. AsksIn
            (P.asks command self.old.moment) self.old.place told self.new.place) }
        ensures kept { IsTrue D.keeps_model → OnOk result ((past : Past)
            → IsRunIn D.SectorDevice P.MountedPool past self.old.place
            → GoesOnInPool P.MountedPool past self.old.place self.new.place) }
        ensures unchanged { IsErr result → self.new.place ≡ self.old.place }
        ensures same_run { IsSameRun self.old self.new }
    {
        match mem::replace(&mut self.place, Place::Nothing) {
            Place::Nothing => Err(BadCommand),
            Place::Device(device) => {
                self.place = Place::Device(device);
                Err(BadCommand)
            }
            Place::Pool(pool) => {
                let (pool, reply) = pool.run_command(self.rt, self.alloc, self.moment, command);
                self.place = Place::Pool(pool);
                Ok(Answer::Reply(reply))
            }
        }
    }
}

impl<'r, R, P: FaultyPool<R>> Session<'r, R, MemDevice, P> {
    ghost use Rattle.device_model.specs.contracts.memory.MemDeviceSectorDevice.TheImpl.{ghosts};
    ghost use Rattle.scripts.specs.Kept.{IsRunIn, KeepsRun};
    ghost use Rattle.scripts.specs.Places.{PlansFault, has_device, has_pool, has_what_it_needs, is_crash};
    ghost use Rattle.scripts.specs.Sessions.{Crashes, Creates, Does, IsDeviceFor, IsNewSession, IsSameRun, Leaves};

    /// A session with no device yet. A new device has `size` div 512 sectors, and each uberblock this moment, in
    /// seconds since 1970.
    pub fn new(rt: &'r R, alloc: Global, size: u64, moment: u64) -> Self
        ensures { IsNewSession size moment result }
    {
        Session {
            rt,
            alloc,
            size,
            moment,
            place: Place::Nothing,
        }
    }

    /// Does what a command asks for.
    ///
    /// Nothing changes the pool between two commands: a command's first step is made on what the command before left,
    /// and a crash, an import or a create takes the device as the last command left it.
    ///
    /// # Errors
    /// `BadCommand` if it needs a device or an imported pool and there is none, or if a crash is given more letters
    /// than there are unflushed writes. A refusal of the pool is an answer.
    pub fn run(&mut self, command: Command) -> Result<Answer, BadCommand>
        ensures needs { IsOk result → IsTrue (has_what_it_needs command self.old.place) }
        ensures answered { is_crash command ≡ false
            → is_ok result ≡ has_what_it_needs command self.old.place }
        ensures left { Leaves command self.old.place self.new.place }
        ensures done { Does P.MountedPool P.plans command self.old result self.new }
        ensures kept { KeepsRun P.MountedPool command self.old.place result self.new.place }
        ensures same_run { IsSameRun self.old self.new }
    {
        match command {
            Command::Create { name, guid } => Ok(self.create(&name, guid)),
            Command::Import {
                dirty_max,
                cache_blocks,
            } => self.import(dirty_max, cache_blocks),
            Command::Crash(pieces) => self.crash(pieces.as_slice()),
            Command::Fail { fault, n } => self.fail(fault, n),
            Command::Pool(command) => self.run_on_pool(command),
        }
    }

    fn take_or_make_device(&mut self) -> Result<MemDevice, PoolError>
        ensures needs { IsErr result → has_device self.old.place ≡ false }
        ensures refused { IfErr result (IsNewDeviceRefusal self.old.size) }
        ensures device { IfOk result (IsDeviceFor P.MountedPool self.old) }
        ensures taken { self.new.place ≡ Place.Nothing }
        ensures same_run { IsSameRun self.old self.new }
    {
        match self.take_device() {
            Some(device) => Ok(device),
            None => new_device(self.alloc, self.size),
        }
    }

    fn create(&mut self, name: &Bytes, guid: u64) -> Answer
        ensures left { IsTrue (has_device self.old.place) → IsTrue (has_device self.new.place) }
        ensures no_pool { has_pool self.new.place ≡ false }
        ensures creates { Creates P.MountedPool name.now guid self.old result self.new.place }
        ensures same_run { IsSameRun self.old self.new }
    {
        match self.take_or_make_device() {
            Ok(device) => self
                .place
                .create(device, name.as_slice(), guid, self.moment),
            Err(error) => Answer::refused(error),
        }
    }

    fn crash(&mut self, pieces: &[Piece]) -> Result<Answer, BadCommand>
        ensures needs { IsOk result → IsTrue (has_device self.old.place) }
        ensures left { has_device self.new.place ≡ has_device self.old.place }
        ensures no_pool { has_pool self.new.place ≡ false }
        ensures crashes { Crashes P.MountedPool pieces.now self.old.place result self.new.place }
        ensures same_run { IsSameRun self.old self.new }
    {
        let Some(device) = self.take_device() else {
            return Err(BadCommand);
        };
        self.place.crash(device, pieces)
    }

    fn fail(&mut self, fault: Fault, n: u64) -> Result<Answer, BadCommand>
        ensures needs { is_ok result ≡ has_device self.old.place }
        ensures left { has_device self.new.place ≡ has_device self.old.place }
        ensures no_other { has_pool self.new.place ≡ has_pool self.old.place }
        ensures fails { IfOk result (λ told.
            PlansFault P.plans fault n self.old.place told self.new.place) }
        ensures kept { (past : Past) → IsRunIn ghosts P.MountedPool past self.old.place
            → IsRunIn ghosts P.MountedPool past self.new.place }
        ensures unchanged { IsErr result → self.new.place ≡ self.old.place }
        ensures same_run { IsSameRun self.old self.new }
    {
        match mem::replace(&mut self.place, Place::Nothing) {
            Place::Nothing => Err(BadCommand),
            Place::Device(mut device) => {
                device.fail(fault, n);
                self.place = Place::Device(device);
                Ok(Answer::Reply(Reply::Done))
            }
            Place::Pool(pool) => {
                self.place = Place::Pool(pool.fail(self.rt, fault, n));
                Ok(Answer::Reply(Reply::Done))
            }
        }
    }
}

impl<'r, R, P: FaultyPool<R>> CommandRunner for Session<'r, R, MemDevice, P> {
    ghost use Rattle.scripts.specs.Sessions.{Runs};

    ghost runs = { Runs P.MountedPool P.plans };

    fn run(&mut self, command: Command) -> Result<Answer, BadCommand> {
        Session::run(self, command)
    }
}

/// A device in memory of zeros, of `size` div 512 sectors.
///
/// # Errors
/// `BadGeometry` if no pool may have its size; `NoMemory`.
pub fn new_device(alloc: Global, size: u64) -> Result<MemDevice, PoolError>
    ensures device { IfOk result (λ device. device ≡ new_state (size / 512)) }
    ensures size { OnOk result (IsGeometry (512 * (size / 512))) }
    ensures refused { IfErr result (IsNewDeviceRefusal size) }
{
    let sectors = size / SECTOR_SIZE;
    let _ = Geometry::of(sectors)?;
    MemDevice::new(alloc, sectors)
}
