//! A pool that its session steps itself, on a device in memory or on a file.
//!
//! The two impls of `MountedPool` differ in the device alone, and `FaultyPool` stands on the first one. The verifier
//! refuses `FaultyPool` over one impl for every device.

ghost use Rattle.std.specs.Prelude.{◌≡◌};

use crate::imports::import_for_mount;
use crate::mounted_pool::{FaultyPool, MountedPool};
use crate::pool_commands::run_pool_command;
use base::{PoolError, Reply};
use device_model::{Fault, MemDevice};
use file_devices::{FileDevice, SectorFile};
use pool_core::PoolState;
use script_lines::{Answer, PoolCommand};
use std::alloc::Global;

impl<R> MountedPool<MemDevice, R> for PoolState<MemDevice> {
    ghost use Rattle.pool_core.specs.KeptSafe.{IsKeptSafe, on_disk};
    ghost use Rattle.pool_core.specs.States.{device_of};
    ghost use Rattle.base.specs.kept.LeftDisks.{IsLeft};
    ghost use Rattle.scripts.specs.OwnPools.{BeginsRun, IsImportedPool, IsMadeSafely, IsStepOf, open_plan};
    ghost use Rattle.scripts.specs.PoolSteps.{Asks};

    ghost mounts = { λ before device mounted cache_blocks moment pool.
        IsImportedPool device mounted cache_blocks pool };

    ghost refuses = { λ e. ⊥ };

    ghost gives = { λ pool device. device ≡ device_of pool };

    ghost asks = { Asks IsStepOf open_plan };

    ghost left = { IsLeft };

    ghost runs = { λ past pool. IsKeptSafe (on_disk pool past) };

    ghost begins = { BeginsRun };

    ghost goes_on = { λ past old new. IsMadeSafely old new past };

    ghost carries = { λ past old new leaves. leaves };

    fn import(
        alloc: Global,
        device: MemDevice,
        dirty_max: u64,
        cache_blocks: u64,
        moment: u64,
    ) -> Result<(Self, Answer), (PoolError, MemDevice)> {
        match import_for_mount(alloc, device, dirty_max, cache_blocks, moment) {
            Ok((imported, answer)) => Ok((PoolState::new(imported), answer)),
            Err(refused) => Err(refused),
        }
    }

    fn unmount(self) -> MemDevice {
        self.into_device()
    }

    fn run_command(
        mut self,
        _rt: &R,
        alloc: Global,
        moment: u64,
        command: PoolCommand,
    ) -> (Self, Reply) {
        let reply = run_pool_command(alloc, &mut self, moment, command);
        (self, reply)
    }
}

impl<F: SectorFile + Drop, R> MountedPool<FileDevice<F>, R> for PoolState<FileDevice<F>> {
    ghost use Rattle.pool_core.specs.KeptSafe.{IsKeptSafe, on_disk};
    ghost use Rattle.pool_core.specs.States.{device_of};
    ghost use Rattle.base.specs.kept.LeftDisks.{IsLeft};
    ghost use Rattle.scripts.specs.OwnPools.{BeginsRun, IsImportedPool, IsMadeSafely, IsStepOf, open_plan};
    ghost use Rattle.scripts.specs.PoolSteps.{Asks};

    ghost mounts = { λ before device mounted cache_blocks moment pool.
        IsImportedPool device mounted cache_blocks pool };

    ghost refuses = { λ e. ⊥ };

    ghost gives = { λ pool device. device ≡ device_of pool };

    ghost asks = { Asks IsStepOf open_plan };

    ghost left = { IsLeft };

    ghost runs = { λ past pool. IsKeptSafe (on_disk pool past) };

    ghost begins = { BeginsRun };

    ghost goes_on = { λ past old new. IsMadeSafely old new past };

    ghost carries = { λ past old new leaves. leaves };

    fn import(
        alloc: Global,
        device: FileDevice<F>,
        dirty_max: u64,
        cache_blocks: u64,
        moment: u64,
    ) -> Result<(Self, Answer), (PoolError, FileDevice<F>)> {
        match import_for_mount(alloc, device, dirty_max, cache_blocks, moment) {
            Ok((imported, answer)) => Ok((PoolState::new(imported), answer)),
            Err(refused) => Err(refused),
        }
    }

    fn unmount(self) -> FileDevice<F> {
        self.into_device()
    }

    fn run_command(
        mut self,
        _rt: &R,
        alloc: Global,
        moment: u64,
        command: PoolCommand,
    ) -> (Self, Reply) {
        let reply = run_pool_command(alloc, &mut self, moment, command);
        (self, reply)
    }
}

impl<R> FaultyPool<R> for PoolState<MemDevice> {
    ghost use Rattle.scripts.specs.OwnPools.{IsPlannedOn};

    ghost plans = { IsPlannedOn };

    fn fail(mut self, _rt: &R, fault: Fault, n: u64) -> Self {
        PoolState::fail(&mut self, fault, n);
        self
    }
}
