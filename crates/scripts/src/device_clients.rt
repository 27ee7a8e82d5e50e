//! What callers rely on in a session on a given device: one function for each promise, proved from the contracts alone.

ghost use Rattle.std.specs.Prelude.{◌≡◌, IsErr, IsOk, Some};

use crate::device_session::{DeviceSession, FileSession};
use crate::mounted_pool::MountedPool;
use crate::session::BadCommand;
use base::Piece;
use device_model::{Fault, SectorDevice};
use file_devices::{FileDevice, SectorFile};
use script_lines::{Answer, Command, PoolCommand};
use std::alloc::Global;

// A device that was given can't be crashed, and nothing changes.
fn a_crash_is_a_bad_command<'r, R, D: SectorDevice + Drop, P: MountedPool<D, R>>(
    session: &mut DeviceSession<'r, R, D, P>,
    pieces: Vec<Piece>,
) -> Result<Answer, BadCommand>
    ensures bad { IsErr result }
    ensures unchanged { session.new.session.place ≡ session.old.session.place }
{
    session.run(Command::Crash(pieces))
}

// Its calls can't be made to fail.
fn a_fault_is_a_bad_command<'r, R, D: SectorDevice + Drop, P: MountedPool<D, R>>(
    session: &mut DeviceSession<'r, R, D, P>,
) -> Result<Answer, BadCommand>
    ensures bad { IsErr result }
    ensures unchanged { session.new.session.place ≡ session.old.session.place }
{
    session.run(Command::Fail {
        fault: Fault::Read,
        n: 1,
    })
}

// A session on a device may import at once.
fn a_given_device_can_be_imported<R, D: SectorDevice + Drop, P: MountedPool<D, R>>(
    rt: &R,
    alloc: Global,
    device: D,
) -> Result<Answer, BadCommand>
    ensures { IsOk result }
{
    let mut session: DeviceSession<'_, R, D, P> = DeviceSession::new(rt, alloc, device, 77);
    session.run(Command::Import {
        dirty_max: 1_048_576,
        cache_blocks: 256,
    })
}

// Without an import there is no pool.
fn a_given_device_has_no_pool<R, D: SectorDevice + Drop, P: MountedPool<D, R>>(
    rt: &R,
    alloc: Global,
    device: D,
) -> Result<Answer, BadCommand>
    ensures { IsErr result }
{
    let mut session: DeviceSession<'_, R, D, P> = DeviceSession::new(rt, alloc, device, 77);
    session.run(Command::Pool(PoolCommand::Start))
}

// A session on a file may import at once, too.
fn a_file_can_be_imported<F: SectorFile + Drop>(
    alloc: Global,
    device: FileDevice<F>,
) -> Result<Answer, BadCommand>
    ensures { IsOk result }
{
    let mut session = FileSession::new(&(), alloc, device, 77);
    session.run(Command::Import {
        dirty_max: 1_048_576,
        cache_blocks: 256,
    })
}

fn a_device_that_was_given_comes_back<R, D: SectorDevice + Drop, P: MountedPool<D, R>>(
    rt: &R,
    alloc: Global,
    device: D,
) -> Option<D>
    ensures { result ≡ Some device }
{
    let session: DeviceSession<'_, R, D, P> = DeviceSession::new(rt, alloc, device, 77);
    session.into_device()
}
