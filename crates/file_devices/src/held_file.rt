//! The lock of a device's file, and how a file is opened for a device.
//!
//! 1. A device that writes holds its file's exclusive lock, and one that only reads a shared one, as long as it
//!    lives: so a pool in a file has one owner at a time (SQLite locks its database file so).
//! 2. The lock is taken before the file is sized or read, and without waiting.
//! 3. Only a regular file or a block device is opened. Opening a pipe could wait for its other end, and a terminal has
//!    no sectors.
//! 4. Once a file may have been made, its folder is synced. Else a power failure could lose its name, and with it all
//!    that was flushed (`fsync(2)`; RocksDB syncs a new file's folder so).
//! 5. A regular file is given its size, and a block device has one. A device on either has all its sectors: a pool
//!    finds its labels by the end of its file, so it can't lie in the front of a longer one.
//!
//! The lock is advisory (`flock`): a process that opens the file without taking it isn't kept out. Nor is one that
//! opens the same block device by another node, or on another machine.

ghost use Rattle.std.specs.Prelude.{◌≡◌, IfOk, IsOk, OnOk};
ghost use Rattle.file_devices.specs.FileState.{HasSectorsOf, none_refused, size_of};

use crate::file::FileDevice;
use crate::sector_file::{SectorFile, has_sectors};
use base::SECTOR_SIZE;
use device_model::SectorDevice;
use std::fs::{File, OpenFile, OpenOptions, TryLockError};
use std::io;
use std::os::unix::fs::FileTypeExt;
use std::path::Path;
use std::rt::Files;
use thiserror::Error;

/// What a device does with its file, and so which lock of it the device holds.
#[derive(Clone, Copy, Debug, PartialEq, Eq)]
pub enum Access {
    /// It reads alone, and holds a shared lock. Other devices may read the file at the same time.
    Read,
    /// It reads and writes, and holds the exclusive lock. No other device may hold the file.
    Write,
}

/// Why a file can't be the file of a device. As text it is the cause alone, without the file's name.
#[derive(Clone, Copy, Debug, Error)]
pub enum FileRefusal {
    /// The system refused to open, to lock or to size the file.
    #[error("{0}")]
    System(#[from] io::Error),
    /// The file is a folder, a pipe or another kind of file that is neither a regular one nor a block device.
    #[error("not a regular file")]
    NotRegular,
    /// Another device holds the file, in this process or in another one.
    #[error("in use by another process or device")]
    InUse,
    /// The file's folder can't be opened or synced, so a power failure may lose the file's name.
    #[error("the folder of the file can't be synced: {0}")]
    Folder(io::Error),
    /// The file didn't get the size that it was given, or is a block device of another size.
    #[error("the file didn't get its size")]
    NotSized,
}

/// A file whose lock a device can hold until the file is closed.
pub trait HeldFile {
    ghost use Rattle.file_devices.specs.declared.held_file.Access.{Access};

    /// Whether the file's lock is held for this access. Of a system's file nothing is claimed.
    ghost is_held: { Self → Access → Type 0 };

    /// Takes the lock of the whole file, without waiting for it. It is released when the file is closed.
    ///
    /// # Errors
    /// `InUse` if another open of the file holds a lock that excludes this one; `System` if the file can't be locked.
    fn try_hold(&self, access: Access) -> Result<(), FileRefusal>
        ensures { OnOk result (is_held self.now access) };
}

impl HeldFile for File {
    ghost is_held = { λ _ _. Unit };

    fn try_hold(&self, access: Access) -> Result<(), FileRefusal> {
        let taken = match access {
            Access::Read => self.try_lock_shared(),
            Access::Write => self.try_lock(),
        };
        match taken {
            Ok(()) => Ok(()),
            Err(TryLockError::WouldBlock) => Err(FileRefusal::InUse),
            Err(TryLockError::Error(error)) => Err(FileRefusal::System(error)),
        }
    }
}

impl<F: SectorFile + HeldFile + OpenFile + Drop> FileDevice<F> {
    /// A device on the file or block device at a path, to read and to write. It holds the file's exclusive lock until
    /// it is dropped.
    ///
    /// # Errors
    /// `NotRegular` if the file is neither a regular file nor a block device, `System` if it can't be opened to read
    /// and to write, `InUse` if another device holds it.
    pub fn open<R: Files<File = F>>(files: &R, path: &str) -> Result<Self, FileRefusal>
        ensures { IfOk result (λ device. device.refused ≡ none_refused) }
    {
        let mut how = File::options();
        how.read(true).write(true);
        let file = open_sectored(files, &how, path)?;
        FileDevice::hold(file, Access::Write)
    }

    /// A device on the file or block device at a path, to read alone. It holds a shared lock of the file until it is
    /// dropped, and refuses each write.
    ///
    /// # Errors
    /// `NotRegular` if the file is neither a regular file nor a block device, `System` if it can't be opened to read,
    /// `InUse` if a device that writes holds it.
    pub fn open_to_read<R: Files<File = F>>(files: &R, path: &str) -> Result<Self, FileRefusal>
        ensures { IfOk result (λ device. device.refused ≡ none_refused) }
    {
        let mut how = File::options();
        how.read(true);
        let file = open_sectored(files, &how, path)?;
        FileDevice::hold(file, Access::Read)
    }

    /// A device on a file of `size` bytes. If there is no file at the path, it is made; a file that is there is cut or
    /// lengthened by zeros, once its lock is held. The device holds the exclusive lock until it is dropped.
    ///
    /// A block device keeps the size that it has. It has to have the whole sectors of `size` bytes, neither fewer nor
    /// more.
    ///
    /// The file's folder is synced before, so a power failure doesn't lose the file's name. It is the folder that the
    /// path names: a file that is made through a symbolic link may lie in another one, which isn't synced.
    ///
    /// # Errors
    /// `NotRegular` if the file is neither a regular file nor a block device, `System` if it can't be opened, made or
    /// sized, `Folder` if its folder can't be opened or synced, `InUse` if another device holds it, `NotSized` if it
    /// didn't get its size, or is a block device of another one. A file that is refused so keeps its size, unless
    /// sizing it failed. One that was made for it stays.
    pub fn create<R: Files<File = F>>(files: &R, path: &str, size: u64) -> Result<Self, FileRefusal>
        ensures none_refused { IfOk result (λ device. device.refused ≡ none_refused) }
        ensures sized { IfOk result (λ device. HasSectorsOf size (size_of F.keeps_model device)) }
    {
        let mut how = File::options();
        how.read(true).write(true).create(true);
        let file = make_sectored(files, &how, path)?;
        FileDevice::hold_sized(file, size)
    }

    /// A device on a new file of `size` bytes, as [`FileDevice::create`] makes it.
    ///
    /// # Errors
    /// Those of `create`; and `System`, if there is a file at the path already.
    pub fn create_new<R: Files<File = F>>(
        files: &R,
        path: &str,
        size: u64,
    ) -> Result<Self, FileRefusal>
        ensures none_refused { IfOk result (λ device. device.refused ≡ none_refused) }
        ensures sized { IfOk result (λ device. HasSectorsOf size (size_of F.keeps_model device)) }
    {
        let mut how = File::options();
        how.read(true).write(true).create_new(true);
        let file = make_sectored(files, &how, path)?;
        FileDevice::hold_sized(file, size)
    }

    /// A device on a file that is open for this access. It takes the file's lock, and holds it until it is dropped.
    ///
    /// # Errors
    /// `InUse` if another open of the file holds a lock that excludes this one; `System` if the file can't be locked;
    /// `NotRegular` if it is neither a regular file nor a block device, or doesn't return its length.
    pub fn hold(file: F, access: Access) -> Result<Self, FileRefusal>
        ensures held { IsOk result → F.is_held file access }
        ensures none_refused { IfOk result (λ device. device.refused ≡ none_refused) }
        ensures disk { IfOk result (λ device. device.disk ≡ F.disk file) }
    {
        file.try_hold(access)?;
        FileDevice::new(file).map_err(|_| FileRefusal::NotRegular)
    }

    // Holds a file that is open for writing, and then gives it its size, of which a device has the whole sectors. A
    // block device has to have it.
    pub(crate) fn hold_sized(file: F, size: u64) -> Result<Self, FileRefusal>
        ensures held { IsOk result → F.is_held file Access.Write }
        ensures none_refused { IfOk result (λ device. device.refused ≡ none_refused) }
        ensures sized { IfOk result (λ device. HasSectorsOf size (size_of F.keeps_model device)) }
    {
        file.try_hold(Access::Write)?;
        give_size(&file, size)?;
        let device = FileDevice::new(file).map_err(|_| FileRefusal::NotRegular)?;
        if device.sectors() != size / SECTOR_SIZE {
            return Err(FileRefusal::NotSized);
        }
        Ok(device)
    }
}

// Gives a file its size, unless it is a block device.
fn give_size<F: OpenFile>(file: &F, size: u64) -> io::Result<()> {
    if file.metadata()?.file_type().is_block_device() {
        return Ok(());
    }
    file.set_len(size)
}

// Opens a file of which it is known before that it has sectors, or is not there yet.
fn open_sectored<R: Files>(
    files: &R,
    how: &OpenOptions,
    path: &str,
) -> Result<R::File, FileRefusal> {
    if let Ok(metadata) = files.metadata(path) {
        if !has_sectors(metadata.file_type()) {
            return Err(FileRefusal::NotRegular);
        }
    }
    let file = how.open(files, path)?;
    Ok(file)
}

// Opens a file with sectors, which may be made so, and syncs its folder.
fn make_sectored<R: Files>(
    files: &R,
    how: &OpenOptions,
    path: &str,
) -> Result<R::File, FileRefusal> {
    let file = open_sectored(files, how, path)?;
    match sync_folder(files, path) {
        Ok(()) => Ok(file),
        Err(error) => Err(FileRefusal::Folder(error)),
    }
}

// Makes certain that a power failure doesn't lose the name of the file at a path.
fn sync_folder<R: Files>(files: &R, path: &str) -> io::Result<()> {
    File::open(files, folder_of(path))?.sync_all()
}

// The folder of the file at a path. The file of a bare name is in the current folder.
fn folder_of(path: &str) -> &str {
    match Path::new(path).parent() {
        Some(folder) if folder.as_str() != "" => folder.as_str(),
        _ => ".",
    }
}
