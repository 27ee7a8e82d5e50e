//! What a device on a file asks of the file: whole sectors read and written at byte places, and a sync.
//!
//! The calls are those of a device, without the counts. A file that keeps the model of a disk shows one, as a device
//! does. A file of the system keeps none, since nothing can be claimed of what it holds: another process may write to
//! it, and a system may lose what it said was synced. So of the five methods for such a file no proof says which call
//! of the system they make, and each of them is one such call.
//!
//! A refused call has its cause, for the text of the refusal (`FileDevice::last_error`).
//!
//! A regular file has sectors, and so has a block device. Both have the length that a seek to the end gives: `fstat`
//! gives 0 of a block device.
//!
//! A device asks before each write and each flush whether its file is still whole. It asks by a seek to the end, not by
//! `fstat`: once a program has asked for a file's times, Linux dates the file anew at the next write, and the next sync
//! writes the inode too. No read or write is made at the place that a seek leaves behind.

ghost use Rattle.std.specs.Prelude.{◌≡◌, ◌+◌, ◌*◌, ◌<◌, ◌≤◌, Bool, IsTrue, IfSome, OnOk, false, length};
ghost use Rattle.base.specs.formats.Fields.{part};
ghost use Rattle.base.specs.formats.Geometry.{sector_size};
ghost use Rattle.base.specs.disk.Disk.{Disk, HasEarlierWrites, bytes_of, disk_size};
ghost use Rattle.base.specs.declared.error.PoolError.TheVariants as PoolError;
ghost use Rattle.base.specs.disk.Calls.{Flushes, IsOnDevice, Writes};
ghost use Rattle.file_devices.specs.FileState.{no_disk, refused_as};

use crate::refused_call::CallCause;
use base::SECTOR_SIZE;
use std::fs::{FileType, OpenFile};
use std::io::{Seek, SeekFrom};
use std::os::unix::fs::{FileExt, FileTypeExt};

/// A file of sectors of 512 bytes, read and written in whole sectors at byte places.
///
/// The clauses stand for a file that keeps the model of a disk. `SectorDevice` explains it.
pub trait SectorFile {
    /// Whether the file keeps the model of a disk.
    ghost keeps_model: { Bool };

    /// The disk: what a read gives, and what a crash may leave, at each moment so far.
    ghost disk: { Self → Disk };

    /// How many whole sectors of 512 bytes the file has now. None if it doesn't return its length, or is neither a
    /// regular file nor a block device. On its disk each write that counts was handed at an earlier moment.
    fn sectors(&mut self) -> Option<u64>
        ensures size { IsTrue keeps_model
            → IfSome result (λ count. disk_size (disk self.new) ≡ sector_size * count) }
        ensures earlier { IsTrue keeps_model → HasEarlierWrites (disk self.new) }
        ensures disk { disk self.new ≡ disk self.old };

    /// Tests that the file has at least so many whole sectors now. Refused if it has fewer, or doesn't return its
    /// length.
    fn check_sectors(&mut self, count: u64) -> Result<(), CallCause>
        ensures size { IsTrue keeps_model
            → OnOk result (sector_size * count ≤ disk_size (disk self.old)) }
        ensures disk { IsTrue keeps_model → disk self.new ≡ disk self.old };

    /// Reads whole sectors from byte place `at`. Refused if the file can't be read there, or ends before the last of
    /// these bytes; `into` may then hold anything.
    fn read_sectors(&mut self, at: u64, into: &mut [u8]) -> Result<(), CallCause>
        requires { IsTrue keeps_model
            → IsOnDevice (disk_size (disk self.old)) at (length into.old) }
        ensures bytes { IsTrue keeps_model
            → OnOk result (into.new ≡ part (bytes_of (disk self.old).now) at (length into.old)) }
        ensures disk { IsTrue keeps_model → disk self.new ≡ disk self.old };

    /// Writes whole sectors at byte place `at`. Refused if not all of these bytes could be written; a part of them may
    /// then stand there.
    fn write_sectors(&mut self, at: u64, bytes: &[u8]) -> Result<(), CallCause>
        requires { IsTrue keeps_model
            → IsOnDevice (disk_size (disk self.old)) at (length bytes.now) }
        ensures disk { IsTrue keeps_model → Writes (disk self.old) at bytes.now
            (refused_as PoolError.Write result) (disk self.new) };

    /// Syncs what was written. Refused if that fails.
    fn sync(&mut self) -> Result<(), CallCause>
        ensures disk { IsTrue keeps_model → Flushes (disk self.old)
            (refused_as PoolError.Flush result) (disk self.new) };
}

impl<F: FileExt + OpenFile + Seek> SectorFile for F {
    ghost keeps_model = { false };

    ghost disk = { λ _. no_disk };

    fn sectors(&mut self) -> Option<u64> {
        let metadata = self.metadata().ok()?;
        if !has_sectors(metadata.file_type()) {
            return None;
        }
        let length = self.seek(SeekFrom::End(0)).ok()?;
        Some(whole_sectors(length))
    }

    fn check_sectors(&mut self, count: u64) -> Result<(), CallCause> {
        let length = self.seek(SeekFrom::End(0))?;
        if whole_sectors(length) < count {
            return Err(CallCause::Shorter);
        }
        Ok(())
    }

    fn read_sectors(&mut self, at: u64, into: &mut [u8]) -> Result<(), CallCause> {
        self.read_exact_at(into, at).map_err(CallCause::System)
    }

    fn write_sectors(&mut self, at: u64, bytes: &[u8]) -> Result<(), CallCause> {
        self.write_all_at(bytes, at).map_err(CallCause::System)
    }

    fn sync(&mut self) -> Result<(), CallCause> {
        self.sync_all().map_err(CallCause::System)
    }
}

/// Whether files of this type have sectors.
pub(crate) fn has_sectors(file_type: FileType) -> bool {
    file_type.is_file() || file_type.is_block_device()
}

// How many whole sectors lie in this many bytes.
fn whole_sectors(length: u64) -> u64
    ensures within { sector_size * result ≤ length }
    ensures all { length < sector_size * result + sector_size }
{
    length / SECTOR_SIZE
}
