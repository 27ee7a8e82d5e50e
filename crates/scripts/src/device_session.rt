//! A session on a device that it is given, such as a file's.
//!
//! Its commands are those of `Session`, without `crash` and `fail`: only a device in memory can do them.

ghost use Rattle.std.specs.Prelude.{◌≡◌, is_ok, is_some};
ghost use Rattle.scripts.specs.declared.place.Place.TheVariants.{Device};

use crate::command_runner::CommandRunner;
use crate::mounted_pool::MountedPool;
use crate::session::{BadCommand, Session};
use device_model::SectorDevice;
use file_devices::FileDevice;
use pool_core::PoolState;
use script_lines::{Answer, Command};
use std::alloc::Global;

/// A run of a script on a device that is there before the first command. Its pool's calls wait by an `R`, if they wait.
#[derive(Drop)]
pub struct DeviceSession<'r, R, D, P> {
    session: Session<'r, R, D, P>,
}

/// A session on a file, which steps its pool itself. It never waits.
pub type FileSession<'r, F> = DeviceSession<'r, (), FileDevice<F>, PoolState<FileDevice<F>>>;

impl<'r, R, D: SectorDevice + Drop, P: MountedPool<D, R>> DeviceSession<'r, R, D, P> {
    ghost use Rattle.scripts.specs.Places.{IsTakenFrom, has_device, has_on_device};
    ghost use Rattle.scripts.specs.Sessions.{DoesOnDevice, IsSameRun};

    /// A session on a device. Each uberblock that it writes has this moment, in seconds since 1970.
    pub fn new(rt: &'r R, alloc: Global, device: D, moment: u64) -> Self
        ensures place { result.session.place ≡ Device device }
        ensures moment { result.session.moment ≡ moment }
    {
        DeviceSession {
            session: Session::on_device(rt, alloc, device, moment),
        }
    }

    /// Does what a command asks for.
    ///
    /// # Errors
    /// `BadCommand` for `crash` and `fail`, and if the command needs an imported pool and there is none. A refusal of
    /// the pool is an answer.
    pub fn run(&mut self, command: Command) -> Result<Answer, BadCommand>
        ensures answered { is_ok result ≡ has_on_device command self.old.session.place }
        ensures done { DoesOnDevice D.SectorDevice P.MountedPool command self.old.session result
            self.new.session }
        ensures same_run { IsSameRun self.old.session self.new.session }
    {
        match command {
            Command::Create { name, guid } => self.session.create_on_device(&name, guid),
            Command::Import {
                dirty_max,
                cache_blocks,
            } => self.session.import(dirty_max, cache_blocks),
            Command::Crash(_) | Command::Fail { .. } => Err(BadCommand),
            Command::Pool(command) => self.session.run_on_pool(command),
        }
    }

    /// The device, if it is there. A pool on it is given up.
    pub fn into_device(self) -> Option<D>
        ensures device { IsTakenFrom P.MountedPool self.entry.session.place result }
        ensures variant { is_some result ≡ has_device self.entry.session.place }
    {
        let mut session = self.session;
        session.take_device()
    }
}

impl<'r, R, D: SectorDevice + Drop, P: MountedPool<D, R>> CommandRunner
    for DeviceSession<'r, R, D, P> {
    ghost use Rattle.scripts.specs.Sessions.{RunsOnDevice};

    ghost runs = { λ asked old told new.
        RunsOnDevice D.SectorDevice P.MountedPool asked old.session told new.session };

    fn run(&mut self, command: Command) -> Result<Answer, BadCommand> {
        DeviceSession::run(self, command)
    }
}
