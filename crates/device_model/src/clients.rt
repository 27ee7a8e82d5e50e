//! What callers rest on: one function for each promise of this crate's calls, proved from the contract of the call
//! alone. So it is refused as soon as that contract says less.

ghost use Rattle.std.specs.Prelude.{◌≡◌, ◌∷◌, [], IfOk, IsErrOf, OnErr, OnOk, length, true};
ghost use Rattle.base.specs.disk.Calls.{IsOnDevice};
ghost use Rattle.base.specs.disk.Disk.{HasEarlierWrites, bytes_of, disk_size};
ghost use Rattle.device_model.specs.MemState.{zeros};

use crate::device::SectorDevice;
use crate::fault::Fault;
use crate::memory::MemDevice;
use base::{Piece, PoolError};
use std::alloc::Global;

fn a_new_device_is_zeros(alloc: Global) -> Result<MemDevice, PoolError>
    ensures { IfOk result (λ device. bytes_of device.disk.now ≡ zeros 2048) }
{
    MemDevice::new(alloc, 4)
}

fn a_device_has_the_sectors_that_it_was_made_with(alloc: Global) -> Result<u64, PoolError>
    ensures { IfOk result (λ count. count ≡ 4) }
{
    let device = MemDevice::new(alloc, 4)?;
    Ok(device.sectors())
}

fn what_is_written_is_read(
    device: &mut MemDevice,
    bytes: &[u8],
    into: &mut [u8],
) -> Result<(), PoolError>
    requires on_device { IsOnDevice (disk_size device.old.disk) 512 (length bytes.now) }
    requires same { length into.old ≡ length bytes.now }
    ensures { OnOk result (into.new ≡ bytes.now) }
{
    device.write(512, bytes)?;
    device.read(512, into)
}

fn a_refused_write_changes_no_byte_that_is_read(
    device: &mut MemDevice,
    bytes: &[u8],
) -> Result<(), PoolError>
    requires { IsOnDevice (disk_size device.old.disk) 512 (length bytes.now) }
    ensures { OnErr result (bytes_of device.new.disk.now ≡ bytes_of device.old.disk.now) }
{
    device.write(512, bytes)
}

fn a_write_that_is_planned_to_fail_is_refused(
    device: &mut MemDevice,
    bytes: &[u8],
) -> Result<(), PoolError>
    requires { IsOnDevice (disk_size device.old.disk) 512 (length bytes.now) }
    ensures { IsErrOf result PoolError.Write }
{
    device.fail(Fault::Write, 1);
    device.write(512, bytes)
}

fn a_refused_write_is_counted_once(device: &mut MemDevice, bytes: &[u8]) -> Result<(), PoolError>
    requires on_device { IsOnDevice (disk_size device.old.disk) 512 (length bytes.now) }
    requires none { device.old.refused.writes ≡ 0 }
    ensures { OnErr result (device.new.refused.writes ≡ 1) }
{
    device.write(512, bytes)
}

fn writes_that_found_no_memory_are_counted(device: &MemDevice) -> u64
    requires { device.now.unnoted ≡ 3 }
    ensures { result ≡ 3 }
{
    device.unnoted()
}

fn one_write_since_a_flush_is_one_unflushed(device: &MemDevice) -> usize
    requires { length device.now.disk.now.unflushed ≡ 1 }
    ensures { result ≡ 1 }
{
    device.unflushed()
}

fn a_flush_leaves_nothing_unflushed(device: &mut MemDevice) -> Result<(), PoolError>
    ensures { OnOk result (device.new.disk.now.unflushed ≡ []) }
{
    device.flush()
}

fn a_crash_loses_what_was_not_flushed(device: MemDevice, content: &[u8]) -> MemDevice
    requires { device.disk.now.unflushed
        ≡ record { moment = 0; place = 512; content = content.now; done = true } ∷ [] }
    ensures { bytes_of result.disk.now ≡ device.disk.now.flushed }
{
    device.crash(&[Piece::Lose])
}

fn what_counts_after_a_crash_was_handed_earlier(device: MemDevice) -> MemDevice
    ensures { HasEarlierWrites result.disk }
{
    let device = device.crash(&[Piece::Lose]);
    let _sectors = device.sectors();
    device
}
