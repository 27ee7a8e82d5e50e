//! The calls that a plan can make fail.

/// A call of a device that a fault plan can make fail.
#[derive(Clone, Copy, Debug, PartialEq, Eq)]
pub enum Fault {
    /// [`SectorDevice::read`](crate::SectorDevice::read), refused with `Read`.
    Read,
    /// [`SectorDevice::write`](crate::SectorDevice::write), refused with `Write`.
    Write,
    /// [`SectorDevice::flush`](crate::SectorDevice::flush), refused with `Flush`.
    Flush,
}
