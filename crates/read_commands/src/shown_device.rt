//! A device whose work is shown.

ghost use Rattle.std.specs.Prelude.{◌≡◌, Err, MatchResult, Ok};

use crate::failure::NotesRefusals;
use crate::shown_work::ShownWork;
use base::PoolError;
use device_model::SectorDevice;
use file_devices::{FileRefusal, RefusedCall};
use std::io::Eprint;
use std::rt::Clock;

/// A device that hands each call on to another one, and shows how many bytes these have read and written. A refused call
/// counts too. It has the size, the disk and the counts of refused calls of the other one.
#[derive(Drop)]
pub struct ShownDevice<'a, D: SectorDevice, R: Eprint + Clock> {
    device: D,
    work: &'a ShownWork<'a, R>,
}

impl<'a, D: SectorDevice, R: Eprint + Clock> ShownDevice<'a, D, R> {
    ghost use Rattle.read_commands.specs.ShownDevices.{device_in};

    /// A device that hands its calls on to this one, and adds them to this work.
    pub fn new(device: D, work: &'a ShownWork<'a, R>) -> Self
        ensures { device_in result ≡ device }
    {
        work.begin();
        ShownDevice { device, work }
    }

    /// The same for what was opened.
    ///
    /// # Errors
    /// Why it was not opened.
    pub fn of_opened(
        opened: Result<D, FileRefusal>,
        work: &'a ShownWork<'a, R>,
    ) -> Result<Self, FileRefusal>
        ensures { MatchResult result (λ shown. opened ≡ Ok (device_in shown))
            (λ cause. opened ≡ Err cause) }
    {
        match opened {
            Ok(device) => Ok(ShownDevice::new(device, work)),
            Err(cause) => Err(cause),
        }
    }

    /// The other device, whose calls are no longer counted.
    pub fn into_device(self) -> D
        ensures { result ≡ device_in self.entry }
    {
        let ShownDevice { device, work: _ } = self;
        device
    }
}

/// Each call does to the other device exactly that call, and none else.
impl<D: SectorDevice, R: Eprint + Clock> SectorDevice for ShownDevice<'_, D, R> {
    ghost keeps_model = { D.keeps_model };

    ghost size = { λ d. D.size d.device };

    ghost refused = { λ d. D.refused d.device };

    ghost disk = { λ d. D.disk d.device };

    ghost sized = { λ keeps d. D.sized keeps d.device };

    fn sectors(&self) -> u64 {
        self.device.sectors()
    }

    fn read(&mut self, at: u64, into: &mut [u8]) -> Result<(), PoolError> {
        let read = self.device.read(at, into);
        self.work.add(into.len());
        read
    }

    fn write(&mut self, at: u64, bytes: &[u8]) -> Result<(), PoolError> {
        let written = self.device.write(at, bytes);
        self.work.add(bytes.len());
        written
    }

    fn flush(&mut self) -> Result<(), PoolError> {
        let flushed = self.device.flush();
        self.work.add(0);
        flushed
    }
}

impl<D: SectorDevice + NotesRefusals, R: Eprint + Clock> NotesRefusals for ShownDevice<'_, D, R> {
    fn last_refusal(&self) -> Option<RefusedCall> {
        self.device.last_refusal()
    }
}
