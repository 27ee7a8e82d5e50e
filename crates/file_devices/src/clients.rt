//! What callers rest on: one function for each promise of this crate's calls, proved from the contract of the call
//! alone. So it is refused as soon as that contract says less.

ghost use Rattle.std.specs.Prelude.{◌≡◌, ◌≢◌, [], false, IfErr, IfOk, IsOk, IsTrue, None, OnOk, Some, option_map, length};
ghost use Rattle.base.specs.disk.Calls.{IsOnDevice};
ghost use Rattle.base.specs.disk.Disk.{HasEarlierWrites, bytes_of, disk_size};
ghost use Rattle.device_model.specs.MemState.{blank, zeros};
ghost use Rattle.file_devices.specs.FileState.{none_refused, size_of};

use crate::file::FileDevice;
use crate::held_file::{Access, FileRefusal, HeldFile};
use crate::refused_call::{FileCall, RefusedCall};
use crate::sector_file::SectorFile;
use base::{PoolError, RefusedCalls};
use device_model::SectorDevice;
use std::fs::OpenFile;
use std::os::unix::fs::FileExt;
use std::rt::Files;

fn what_counts_on_a_devices_file_was_handed_earlier<F: SectorFile + Drop>(
    device: &FileDevice<F>,
) -> u64
    requires { IsTrue F.keeps_model }
    ensures { HasEarlierWrites device.now.disk }
{
    device.sectors()
}

fn a_device_shows_its_files_disk<F: SectorFile + Drop>(file: F) -> Result<FileDevice<F>, PoolError>
    requires { F.disk file ≡ blank 4 }
    ensures { IfOk result (λ device. bytes_of device.disk.now ≡ zeros 2048) }
{
    FileDevice::new(file)
}

fn a_device_on_a_file_has_refused_nothing_at_first<F: SectorFile + Drop>(
    file: F,
) -> Result<(), PoolError> {
    let device = FileDevice::new(file)?;
    let refused = device.refused();
    prove!(refused == RefusedCalls::NONE);
    Ok(())
}

fn a_device_on_a_file_has_no_last_error_at_first<F: SectorFile + Drop>(
    file: F,
) -> Result<bool, PoolError>
    ensures { IfOk result (λ there. there ≡ false) }
{
    let device = FileDevice::new(file)?;
    Ok(device.last_error().is_some())
}

fn a_call_that_a_device_on_a_file_refused_has_a_cause<F: SectorFile + Drop>(
    device: &mut FileDevice<F>,
) -> Option<RefusedCall>
    ensures { device.new.refused ≢ none_refused → result ≢ None }
{
    let _ = device.flush();
    device.last_error()
}

fn a_refused_write_is_the_last_error_with_its_place<F: SectorFile + Drop>(
    device: &mut FileDevice<F>,
    bytes: &[u8],
) -> Result<(), Option<FileCall>>
    requires { IsOnDevice (size_of F.keeps_model device.old) 4096 (length bytes.now) }
    ensures { IfErr result (λ call. call ≡ Some (FileCall.Write 4096)) }
{
    match device.write(4096, bytes) {
        Ok(()) => Ok(()),
        Err(_) => Err(last_call(device)),
    }
}

fn a_read_that_is_answered_leaves_the_last_error<F: SectorFile + Drop>(
    device: &mut FileDevice<F>,
    into: &mut [u8],
) -> Result<(), PoolError>
    requires { IsOnDevice (size_of F.keeps_model device.old) 4096 (length into.old) }
    ensures { OnOk result (device.new.last ≡ device.old.last) }
{
    device.read(4096, into)
}

fn last_call<F: SectorFile + Drop>(device: &FileDevice<F>) -> Option<FileCall>
    ensures { result ≡ option_map (λ (r : RefusedCall). r.call) device.now.last }
{
    match device.last_error() {
        Some(refused) => Some(refused.call),
        None => None,
    }
}

fn a_device_that_holds_its_file_has_its_lock<F: SectorFile + HeldFile + OpenFile + Drop>(
    file: F,
) -> Result<FileDevice<F>, FileRefusal>
    ensures { IsOk result → F.is_held file Access.Write }
{
    FileDevice::hold(file, Access::Write)
}

fn a_device_that_sizes_its_file_has_its_lock<F: SectorFile + HeldFile + OpenFile + Drop>(
    file: F,
) -> Result<FileDevice<F>, FileRefusal>
    ensures { IsOk result → F.is_held file Access.Write }
{
    FileDevice::hold_sized(file, 2_048)
}

fn a_device_on_an_opened_file_has_refused_nothing<R: Files>(
    files: &R,
    path: &str,
) -> Result<(), FileRefusal>
where
    R::File: FileExt + HeldFile,
{
    let device = FileDevice::open(files, path)?;
    let refused = device.refused();
    prove!(refused == RefusedCalls::NONE);
    Ok(())
}

fn a_device_that_reads_alone_has_refused_nothing<R: Files>(
    files: &R,
    path: &str,
) -> Result<(), FileRefusal>
where
    R::File: FileExt + HeldFile,
{
    let device = FileDevice::open_to_read(files, path)?;
    let refused = device.refused();
    prove!(refused == RefusedCalls::NONE);
    Ok(())
}

fn a_device_on_a_file_that_it_made_has_refused_nothing<R: Files>(
    files: &R,
    path: &str,
) -> Result<(), FileRefusal>
where
    R::File: FileExt + HeldFile,
{
    let device = FileDevice::create(files, path, 8_388_608)?;
    let refused = device.refused();
    prove!(refused == RefusedCalls::NONE);
    Ok(())
}

// A file of 2,148 bytes has four whole sectors.
fn a_file_that_is_made_has_the_sectors_asked_for<R: Files>(
    files: &R,
    path: &str,
) -> Result<(), FileRefusal>
where
    R::File: FileExt + HeldFile,
{
    let device = FileDevice::create(files, path, 2_148)?;
    let sectors = device.sectors();
    prove!(sectors == 4);
    Ok(())
}

fn a_new_file_has_the_sectors_asked_for<R: Files>(files: &R, path: &str) -> Result<(), FileRefusal>
where
    R::File: FileExt + HeldFile,
{
    let device = FileDevice::create_new(files, path, 2_148)?;
    let sectors = device.sectors();
    prove!(sectors == 4);
    Ok(())
}

fn a_device_on_a_new_file_has_refused_nothing<R: Files>(
    files: &R,
    path: &str,
) -> Result<(), FileRefusal>
where
    R::File: FileExt + HeldFile,
{
    let device = FileDevice::create_new(files, path, 8_388_608)?;
    let refused = device.refused();
    prove!(refused == RefusedCalls::NONE);
    Ok(())
}

fn what_is_written_to_a_file_is_read<F: SectorFile + Drop>(
    device: &mut FileDevice<F>,
    bytes: &[u8],
    into: &mut [u8],
) -> Result<(), PoolError>
    requires keeps { IsTrue F.keeps_model }
    requires on_device { IsOnDevice (disk_size device.old.disk) 512 (length bytes.now) }
    requires same { length into.old ≡ length bytes.now }
    ensures { OnOk result (into.new ≡ bytes.now) }
{
    device.write(512, bytes)?;
    device.read(512, into)
}

fn a_flush_of_a_file_leaves_nothing_unflushed<F: SectorFile + Drop>(
    device: &mut FileDevice<F>,
) -> Result<(), PoolError>
    requires { IsTrue F.keeps_model }
    ensures { OnOk result (device.new.disk.now.unflushed ≡ []) }
{
    device.flush()
}
