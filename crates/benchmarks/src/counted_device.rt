//! A device that counts its flushes.
//!
//! The device shares the count with whoever measures: a pool takes the device, and the count can still be read.

ghost use Rattle.std.specs.Prelude.{◌≡◌, IfErr};

use base::PoolError;
use device_model::SectorDevice;
use std::alloc::Global;
use std::sync::Arc;
use std::sync::atomic::{AtomicU64, Ordering};

/// How many flushes a device was asked for. It can be read while a pool has the device. No clause rests on it.
#[derive(Drop)]
pub struct FlushCounter {
    flushes: Arc<AtomicU64, Global>,
}

impl FlushCounter {
    /// One that has counted none.
    ///
    /// # Errors
    /// `NoMemory` if there is none for it.
    pub fn new(alloc: Global) -> Result<FlushCounter, PoolError>
        ensures { IfErr result (λ e. e ≡ PoolError.NoMemory) }
    {
        let flushes = Arc::new(alloc, AtomicU64::new(0))?;
        Ok(FlushCounter { flushes })
    }

    /// The same counter once more: a flush that either of them counts is counted by both.
    ///
    /// # Errors
    /// `NoMemory` if it is shared 2^63 times.
    pub fn share(&self) -> Result<FlushCounter, PoolError>
        ensures { IfErr result (λ e. e ≡ PoolError.NoMemory) }
    {
        let flushes = Arc::try_clone(&self.flushes)?;
        Ok(FlushCounter { flushes })
    }

    /// The flushes so far, refused ones too.
    pub fn flushes(&self) -> u64 {
        self.flushes.load(Ordering::SeqCst)
    }

    fn count(&self) {
        self.flushes.fetch_add(1, Ordering::SeqCst);
    }
}

/// A device that hands each call on to another one, and counts the flushes.
#[derive(Drop)]
pub struct CountedDevice<D: SectorDevice> {
    device: D,
    counter: FlushCounter,
}

impl<D: SectorDevice> CountedDevice<D> {
    ghost use Rattle.benchmarks.specs.Devices.{device_in};

    /// A device that counts the flushes of this one.
    pub fn new(device: D, counter: FlushCounter) -> Self
        ensures { device_in result ≡ device }
    {
        CountedDevice { device, counter }
    }

    /// The other device, which is no longer counted.
    pub fn into_device(self) -> D
        ensures { result ≡ device_in self }
    {
        let CountedDevice { device, counter: _ } = self;
        device
    }
}

impl<D: SectorDevice> SectorDevice for CountedDevice<D> {
    ghost keeps_model = { D.keeps_model };

    ghost size = { λ c. D.size c.device };

    ghost refused = { λ c. D.refused c.device };

    ghost disk = { λ c. D.disk c.device };

    ghost sized = { λ keeps c. D.sized keeps c.device };

    fn sectors(&self) -> u64 {
        self.device.sectors()
    }

    fn read(&mut self, at: u64, into: &mut [u8]) -> Result<(), PoolError> {
        self.device.read(at, into)
    }

    fn write(&mut self, at: u64, bytes: &[u8]) -> Result<(), PoolError> {
        self.device.write(at, bytes)
    }

    fn flush(&mut self) -> Result<(), PoolError> {
        self.counter.count();
        self.device.flush()
    }
}
