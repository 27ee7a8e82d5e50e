//! Opening a file that another process may have. It tries again for a time, since a lock of a file can't be waited for
//! with an end.

use file_devices::{Access, FileDevice, FileRefusal, HeldFile};
use std::os::unix::fs::FileExt;
use std::rt::Files;
use std::sync::Wait;
use std::sync::atomic::AtomicU64;
use std::time::Duration;

const TRIES_IN_A_SECOND: u64 = 20;

const PAUSE_IN_MILLISECONDS: u64 = 50;

/// A device on the file at a path, as `FileDevice::open` and `FileDevice::open_to_read` open it.
///
/// # Errors
/// Those of these calls. If another device has the file, it tries again for so many seconds first.
pub fn open_within<R: Files + Wait>(
    rt: &R,
    path: &str,
    access: Access,
    seconds: u32,
) -> Result<FileDevice<R::File>, FileRefusal>
where
    R::File: FileExt + HeldFile,
{
    for _ in 0..u64::from(seconds) * TRIES_IN_A_SECOND {
        match open(rt, path, access) {
            Err(FileRefusal::InUse) => pause(rt),
            opened => return opened,
        }
    }
    open(rt, path, access)
}

fn open<R: Files>(files: &R, path: &str, access: Access) -> Result<FileDevice<R::File>, FileRefusal>
where
    R::File: FileExt + HeldFile,
{
    match access {
        Access::Read => FileDevice::open_to_read(files, path),
        Access::Write => FileDevice::open(files, path),
    }
}

/// What a file for a new pool is made from.
#[derive(Clone, Copy)]
pub struct NewFile<'a> {
    /// Its path.
    pub path: &'a str,
    /// Its bytes. A part of a sector at the end is ignored.
    pub size: u64,
    /// Whether a file that exists already is refused.
    pub only_new: bool,
}

impl NewFile<'_> {
    /// A device on the file, as `FileDevice::create` and `FileDevice::create_new` make it.
    ///
    /// # Errors
    /// Those of these calls. If another device has a file that may be there already, it tries again for so many seconds
    /// first.
    pub fn create_within<R: Files + Wait>(
        self,
        rt: &R,
        seconds: u32,
    ) -> Result<FileDevice<R::File>, FileRefusal>
    where
        R::File: FileExt + HeldFile,
    {
        if self.only_new {
            return FileDevice::create_new(rt, self.path, self.size);
        }
        for _ in 0..u64::from(seconds) * TRIES_IN_A_SECOND {
            match FileDevice::create(rt, self.path, self.size) {
                Err(FileRefusal::InUse) => pause(rt),
                created => return created,
            }
        }
        FileDevice::create(rt, self.path, self.size)
    }
}

// Nobody wakes it before its time.
fn pause<W: Wait>(rt: &W) {
    let time = Duration::from_millis(PAUSE_IN_MILLISECONDS);
    AtomicU64::new(0).park_timeout(rt, 0, time);
}
