//! A device on a file: a pool on it outlives the process. The file is a regular one or a block device.
//!
//! It reads and writes the file at places, and a flush is the file's sync call. Its sectors are those that the file has
//! whole when the device is made; the bytes after the last of them it never reads or writes.
//!
//! It keeps the model of a disk if its file does. Then each call reads, writes or syncs exactly what it is asked for,
//! and all clauses of `SectorDevice` hold. A file of the system keeps no model (`SectorFile`). For such a file the
//! clauses on the size, on the refusal of a call and on the counts of refused calls hold, whatever the file does.
//! The clauses on bytes and on the disk over time don't: that a read returns what was written, and that a crash leaves
//! what was flushed, rests on the system and its hardware. A refused write may have written a part of its bytes.
//!
//! `held_file.rt` opens files, and takes their locks.

ghost use Rattle.std.specs.Prelude.{◌≡◌, ◌*◌, Bool, IfErr, IfOk, IsTrue, None, length};
ghost use Rattle.base.specs.disk.Calls.{Flushes, IsOnDevice, Writes};
ghost use Rattle.base.specs.disk.Disk.{disk_size};
ghost use Rattle.file_devices.specs.FileState.{none_refused, refused_as};

use crate::refused_call::{CallCause, FileCall, RefusedCall};
use crate::sector_file::SectorFile;
use base::{PoolError, RefusedCalls};
use device_model::SectorDevice;
use std::fs::File;
use std::marker::Model;

/// A device on an open file, which it owns and closes.
///
/// [`FileDevice::open`], [`FileDevice::open_to_read`], [`FileDevice::create`] and [`FileDevice::create_new`] open a
/// file by its path, and hold its lock until the device is dropped. So a pool in a file has one owner at a time.
///
/// Each read is refused if the file is not open for reading, and each write if it is not open for writing. A file that
/// is open for appending won't do: the system then writes at its end. If the file has become shorter than the device,
/// each write is refused `Write`, each flush `Flush`, and each read past the file's end `Read`.
///
/// Contracts see its size in bytes, the counts of the calls that it refused, the last of these, and the disk that the
/// file shows.
#[derive(Debug, Drop)]
pub struct FileDevice<F: SectorFile + Drop = File> {
    file: F,
    sectors: u64,
    refused: RefusedCalls,
    last: Option<RefusedCall>,
}

impl<F: SectorFile + Drop> Model for FileDevice<F> {
    ghost use Rattle.std.specs.Prelude.{◌*◌, IsTrue};
    ghost use Rattle.base.specs.formats.Geometry.{sector_size};
    ghost use Rattle.file_devices.specs.FileState.{FileState, IsSoundFile};

    ghost Value = { FileState };

    ghost view = { λ device. record {
      size = sector_size * device.sectors;
      refused = device.refused;
      last = device.last;
      disk = F.disk device.file;
    } };

    ghost invariant = { λ device. IsSoundFile F.keeps_model device.sectors (F.disk device.file)
        device.refused device.last };
}

impl<F: SectorFile + Drop> FileDevice<F> {
    /// A device of the whole sectors of an open file, whose lock it doesn't take. Nothing is read or written.
    ///
    /// # Errors
    /// `Read` if the file doesn't return its length, or is neither a regular file nor a block device.
    pub fn new(file: F) -> Result<Self, PoolError>
        ensures none_refused { IfOk result (λ device. device.refused ≡ none_refused) }
        ensures no_error { IfOk result (λ device. device.last ≡ None) }
        ensures disk { IfOk result (λ device. device.disk ≡ F.disk file) }
        ensures refused { IfErr result (λ e. e ≡ PoolError.Read) }
    {
        let mut file = file;
        let Some(sectors) = file.sectors() else {
            return Err(PoolError::Read);
        };
        Ok(FileDevice {
            file,
            sectors,
            refused: RefusedCalls::NONE,
            last: None,
        })
    }

    /// How many calls of each kind it has refused.
    pub fn refused(&self) -> RefusedCalls
        ensures { result ≡ self.now.refused }
    {
        self.refused
    }

    /// The last call that it refused, with its byte place and the cause. `None` if it has refused no call.
    pub fn last_error(&self) -> Option<RefusedCall>
        ensures last { result ≡ self.now.last }
        ensures none { result ≡ None → self.now.refused ≡ none_refused }
    {
        self.last
    }
}

impl<F: SectorFile + Drop> SectorDevice for FileDevice<F> {
    ghost use Rattle.file_devices.specs.FileState.{size_of};

    ghost keeps_model = { F.keeps_model };

    ghost size = { size_of F.keeps_model };

    ghost refused = { λ device. device.refused };

    ghost disk = { λ device. device.disk };

    ghost use Rattle.std.specs.Prelude.{◌≡◌, IfErr, IsTrue, OnOk, length};
    ghost use Rattle.base.specs.disk.Calls.{Flushes, IsOnDevice, Writes, counted};
    ghost use Rattle.base.specs.disk.Disk.{bytes_of};
    ghost use Rattle.base.specs.formats.Fields.{part};
    ghost use Rattle.file_devices.specs.FileState.{NotesLast};
    ghost use Rattle.std.proofs.Common.{ap, sym};

    ghost sized = { λ keeps device. ap (λ (b : Bool). size_of b device) (sym keeps) };

    fn sectors(&self) -> u64 {
        self.sectors
    }

    fn read(&mut self, at: u64, into: &mut [u8]) -> Result<(), PoolError>
        requires { IsOnDevice (size_of F.keeps_model self.old) at (length into.old) }
        ensures size { size_of F.keeps_model self.new ≡ size_of F.keeps_model self.old }
        ensures count { self.new.refused ≡ counted result self.old.refused }
        ensures refusal { IfErr result (λ e. e ≡ PoolError.Read) }
        ensures bytes { IsTrue F.keeps_model
            → OnOk result (into.new ≡ part (bytes_of self.old.disk.now) at (length into.old)) }
        ensures disk { IsTrue F.keeps_model → self.new.disk ≡ self.old.disk }
        ensures last { NotesLast result (FileCall.Read at) self.old.last self.new.last }
    {
        if let Err(cause) = self.file.read_sectors(at, into) {
            self.refused.count(PoolError::Read);
            let call = FileCall::Read(at);
            self.last = Some(RefusedCall { call, cause });
            return Err(PoolError::Read);
        }
        Ok(())
    }

    fn write(&mut self, at: u64, bytes: &[u8]) -> Result<(), PoolError>
        requires { IsOnDevice (size_of F.keeps_model self.old) at (length bytes.now) }
        ensures size { size_of F.keeps_model self.new ≡ size_of F.keeps_model self.old }
        ensures count { self.new.refused ≡ counted result self.old.refused }
        ensures refusal { IfErr result (λ e. e ≡ PoolError.Write) }
        ensures disk { IsTrue F.keeps_model
            → Writes self.old.disk at bytes.now result self.new.disk }
        ensures last { NotesLast result (FileCall.Write at) self.old.last self.new.last }
    {
        if let Err(cause) = write_whole(&mut self.file, self.sectors, at, bytes) {
            self.refused.count(PoolError::Write);
            let call = FileCall::Write(at);
            self.last = Some(RefusedCall { call, cause });
            return Err(PoolError::Write);
        }
        Ok(())
    }

    fn flush(&mut self) -> Result<(), PoolError>
        ensures size { size_of F.keeps_model self.new ≡ size_of F.keeps_model self.old }
        ensures count { self.new.refused ≡ counted result self.old.refused }
        ensures refusal { IfErr result (λ e. e ≡ PoolError.Flush) }
        ensures disk { IsTrue F.keeps_model → Flushes self.old.disk result self.new.disk }
        ensures last { NotesLast result FileCall.Flush self.old.last self.new.last }
    {
        if let Err(cause) = sync_whole(&mut self.file, self.sectors) {
            self.refused.count(PoolError::Flush);
            let call = FileCall::Flush;
            self.last = Some(RefusedCall { call, cause });
            return Err(PoolError::Flush);
        }
        Ok(())
    }
}

// Writes to a file that still has so many sectors: a write to one that has become shorter would make it longer.
fn write_whole<F: SectorFile>(
    file: &mut F,
    sectors: u64,
    at: u64,
    bytes: &[u8],
) -> Result<(), CallCause>
    requires { IsTrue F.keeps_model
        → IsOnDevice (disk_size (F.disk file.old)) at (length bytes.now) }
    ensures { IsTrue F.keeps_model → Writes (F.disk file.old) at bytes.now
        (refused_as PoolError.Write result) (F.disk file.new) }
{
    file.check_sectors(sectors)?;
    file.write_sectors(at, bytes)
}

// Syncs a file that still has so many sectors.
fn sync_whole<F: SectorFile>(file: &mut F, sectors: u64) -> Result<(), CallCause>
    ensures { IsTrue F.keeps_model → Flushes (F.disk file.old)
        (refused_as PoolError.Flush result) (F.disk file.new) }
{
    file.check_sectors(sectors)?;
    file.sync()
}
