//! What the engine asks of a disk, and what each call does to it over time.
//!
//! ZFS asks no more of a disk than this: whole sectors are read and written, a write may be torn by a crash until the
//! write cache is flushed, and a good flush makes certain what was written before it (`zio_flush` in OpenZFS's
//! `zio.c`). The disk itself, its moments and what a crash may leave are defined in `base`, in `specs/disk`.

ghost use Rattle.std.specs.Prelude.{◌≡◌, ℕ, ◌*◌, Bool, IfErr, IsTrue, length, OnOk};
ghost use Rattle.base.specs.formats.Fields.{part};
ghost use Rattle.base.specs.formats.Geometry.{sector_size};
ghost use Rattle.base.specs.disk.Disk.{Disk, HasEarlierWrites, bytes_of, disk_size};
ghost use Rattle.base.specs.disk.Calls.{IsOnDevice, Writes, Flushes, counted};
ghost use Rattle.base.specs.declared.refused.RefusedCalls.{RefusedCalls};

use base::PoolError;

/// A device of sectors of 512 bytes, read and written in whole sectors at byte places.
///
/// Its meaning is one record, the disk over time. Each write makes a moment, as does each good flush that finds
/// something to make certain. A crash at a moment may leave any bytes in the range of each write since the last good
/// flush, also of one that failed; all other bytes are what a read gives. The clauses on the disk stand for a device
/// that keeps this model. Those on the size and on the counts of refused calls stand for each device.
pub trait SectorDevice {
    /// Whether the device keeps the model of a disk.
    ghost keeps_model: { Bool };

    /// Its size in bytes.
    ghost size: { Self → ℕ };

    /// How many calls of each kind it has refused.
    ghost refused: { Self → RefusedCalls };

    /// The disk: what a read gives, and what a crash may leave, at each moment so far.
    ghost disk: { Self → Disk };

    /// How many sectors of 512 bytes it has. On its disk each write that counts was handed at an earlier moment.
    fn sectors(&self) -> u64
        ensures size { sector_size * result ≡ size self.now }
        ensures earlier { IsTrue keeps_model → HasEarlierWrites (disk self.now) };

    /// Reads whole sectors from byte place `at`. Refused with `Read` if the device fails; `into` may then hold
    /// anything.
    fn read(&mut self, at: u64, into: &mut [u8]) -> Result<(), PoolError>
        requires { IsOnDevice (size self.old) at (length into.old) }
        ensures size { size self.new ≡ size self.old }
        ensures count { refused self.new ≡ counted result (refused self.old) }
        ensures refusal { IfErr result (λ e. e ≡ PoolError.Read) }
        ensures bytes { IsTrue keeps_model
            → OnOk result (into.new ≡ part (bytes_of (disk self.old).now) at (length into.old)) }
        ensures disk { IsTrue keeps_model → disk self.new ≡ disk self.old };

    /// Writes whole sectors at byte place `at`. Until a good flush a crash may leave any bytes there. Refused with
    /// `Write` if the device fails: a read then gives what it gave, and a crash may leave any bytes there as well.
    fn write(&mut self, at: u64, bytes: &[u8]) -> Result<(), PoolError>
        requires { IsOnDevice (size self.old) at (length bytes.now) }
        ensures size { size self.new ≡ size self.old }
        ensures count { refused self.new ≡ counted result (refused self.old) }
        ensures refusal { IfErr result (λ e. e ≡ PoolError.Write) }
        ensures disk { IsTrue keeps_model
            → Writes (disk self.old) at bytes.now result (disk self.new) };

    /// Makes certain that a crash leaves what a read gives. Refused with `Flush` if the device fails: then nothing
    /// has become certain.
    fn flush(&mut self) -> Result<(), PoolError>
        ensures size { size self.new ≡ size self.old }
        ensures count { refused self.new ≡ counted result (refused self.old) }
        ensures refusal { IfErr result (λ e. e ≡ PoolError.Flush) }
        ensures disk { IsTrue keeps_model → Flushes (disk self.old) result (disk self.new) };

    /// The disk has the device's size.
    ghost sized: { IsTrue keeps_model → (device : Self) → disk_size (disk device) ≡ size device };
}
