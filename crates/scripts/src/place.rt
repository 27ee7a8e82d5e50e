//! What a session has: nothing, a device or a pool on one; and what it makes of a device, whatever its pool is.

ghost use Rattle.std.specs.Prelude.{◌≡◌, false, IsOk, IsTrue, true};
ghost use Rattle.base.specs.disk.Crashes.{crash_image};
ghost use Rattle.base.specs.disk.Disk.{MayLeave};

use crate::session::BadCommand;
use base::{Piece, PoolError, Reply};
use device_model::{MemDevice, SectorDevice};
use import_replay::create;
use script_lines::Answer;

/// What a session has so far.
#[derive(Drop)]
pub enum Place<D, P> {
    /// No device yet.
    Nothing,
    /// A device, and no pool that is imported from it.
    Device(D),
    /// An imported pool, which has the device.
    Pool(P),
}

impl<D: SectorDevice + Drop, P: Drop> Place<D, P> {
    ghost use Rattle.scripts.specs.Devices.{CreatesOn};
    ghost use Rattle.scripts.specs.Kept.{StartsKept};
    ghost use Rattle.scripts.specs.Places.{has_device, has_pool};

    /// Makes a pool on a device, and keeps the device that came back. The answer is the refusal of the create, if
    /// there was one.
    pub fn create(&mut self, device: D, name: &[u8], guid: u64, moment: u64) -> Answer
        ensures creates { CreatesOn D.SectorDevice name.now guid moment device result self.new }
        ensures kept { IsTrue D.keeps_model
            → StartsKept D.SectorDevice name.now device result self.new }
        ensures device { has_device self.new ≡ true }
        ensures no_pool { has_pool self.new ≡ false }
    {
        match create(device, name, guid, moment) {
            Ok(device) => {
                *self = Place::Device(device);
                Answer::Reply(Reply::Done)
            }
            Err((error, device)) => self.give_back(error, device),
        }
    }

    /// Keeps the device that came back with a refusal, which is the answer.
    pub fn give_back(&mut self, error: PoolError, device: D) -> Answer
        ensures refused { result ≡ Answer.Reply (Reply.Refused error) }
        ensures device { self.new ≡ Place.Device device }
    {
        *self = Place::Device(device);
        Answer::refused(error)
    }
}

impl<P: Drop> Place<MemDevice, P> {
    ghost use Rattle.scripts.specs.Places.{CrashesOn, has_device, has_pool};

    /// Keeps the device as a crash leaves it, or as it is if there are more pieces than it has unflushed writes.
    ///
    /// # Errors
    /// `BadCommand` if there are.
    pub fn crash(&mut self, device: MemDevice, pieces: &[Piece]) -> Result<Answer, BadCommand>
        ensures crashes { CrashesOn pieces.now device result self.new }
        ensures device { has_device self.new ≡ true }
        ensures no_pool { has_pool self.new ≡ false }
        ensures possible { IsOk result
            → MayLeave device.disk.now (crash_image pieces.now device.disk.now) }
    {
        let unflushed = device.unflushed();
        if unflushed < pieces.len() {
            *self = Place::Device(device);
            return Err(BadCommand);
        }
        *self = Place::Device(device.crash(pieces));
        Ok(Answer::Crashed(unflushed))
    }
}
