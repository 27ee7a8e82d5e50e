//! A pool as a session has it: mounted by an import, asked by commands, and given up for its device.
//!
//! A session stands on any pool that does this: one that it steps itself, or one under a lock (`script_sessions`). What a
//! pool is to its session, and what its session keeps of a run over crashes and imports, are the relations of the trait.

ghost use Rattle.std.specs.Prelude.{IfErr, IfOk, IsTrue, ℕ};
ghost use Rattle.base.specs.declared.error.PoolError.{PoolError};
ghost use Rattle.base.specs.declared.step.Reply.{Reply};
ghost use Rattle.base.specs.disk.Disk.{Disk};
ghost use Rattle.base.specs.history.Past.{Past};
ghost use Rattle.device_model.specs.declared.fault.Fault.{Fault};
ghost use Rattle.mounted.specs.declared.mounted.Mounted.{Mounted};
ghost use Rattle.base.specs.kept.LeftDisks.{IsLeft};
ghost use Rattle.script_lines.specs.declared.command.PoolCommand.{PoolCommand};
ghost use Rattle.scripts.specs.Devices.{IsLeftByMount, IsMountedBy};

use base::{PoolError, Reply};
use device_model::{Fault, MemDevice, SectorDevice};
use script_lines::{Answer, PoolCommand};
use std::alloc::Global;

/// A pool that a session mounts on a device of this kind. Its calls wait by an `R`, if they wait.
pub trait MountedPool<D: SectorDevice, R>: Drop {
    /// The pool stands for what an import mounted, which was handed the first device and left the second. So many tree
    /// blocks that were read may stay in memory, and its later syncs carry the moment.
    ghost mounts: { D → D → Mounted → ℕ → ℕ → Self → Type 0 };

    /// How a mount may be refused.
    ghost refuses: { PoolError → Type 0 };

    /// The pool gives this device back.
    ghost gives: { Self → D → Type 0 };

    /// What a command with its reply makes of the pool. A sync that it starts carries the moment.
    ghost asks: { PoolCommand → ℕ → Reply → Self → Self → Type 0 };

    /// A run with this past left the disk.
    ghost left: { Past → Disk → Type 0 };

    /// A run with this past has come to the pool as it is.
    ghost runs: { Past → Self → Type 0 };

    /// A run begins in the pool with what the run with this past left, and with this limit of dirty bytes.
    ghost begins: { Past → ℕ → Self → Type 0 };

    /// The run that had come to the first pool with this past goes on to the second.
    ghost goes_on: { Past → Self → Self → Type 0 };

    /// Imports the pool on a device, with limits of the bytes that may be dirty and of the tree blocks that may stay in
    /// memory, and mounts it. The answer is that of the import.
    ///
    /// # Errors
    /// Those of `import_replay::import`, and of the mount those of `refuses`. The device comes back as the import
    /// left it.
    fn import(
        alloc: Global,
        device: D,
        dirty_max: u64,
        cache_blocks: u64,
        moment: u64,
    ) -> Result<(Self, Answer), (PoolError, D)>
        ensures mounted { IfOk result (λ p.
            IsMountedBy D.SectorDevice mounts dirty_max cache_blocks moment device p.0 p.1) }
        ensures begun { IsTrue D.keeps_model → IfOk result (λ p. (past : Past)
            → left past (D.disk device) → ∥ begins past dirty_max p.0 ∥₁) }
        ensures refused { IfErr result (λ e.
            IsLeftByMount D.SectorDevice refuses dirty_max cache_blocks moment device e.0 e.1) }
        ensures still { IsTrue D.keeps_model → IfErr result (λ e. (past : Past)
            → IsLeft past (D.disk device) → IsLeft past (D.disk e.1)) };

    /// Gives the pool up for its device, as the last command left it.
    fn unmount(self) -> D
        ensures given { gives self result }
        ensures left { IsTrue D.keeps_model
            → (past : Past) → runs past self → left past (D.disk result) };

    /// Does what a command asks of the pool.
    fn run_command(self, rt: &R, alloc: Global, moment: u64, command: PoolCommand) -> (Self, Reply)
        ensures asked { asks command moment result.1 self result.0 }
        ensures kept { IsTrue D.keeps_model
            → (past : Past) → runs past self → goes_on past self result.0 };

    /// What follows from that a run left a disk follows from that it is known to have left it.
    ghost carries: { (past : Past) (old new : Disk)
        → (IsLeft past old → IsLeft past new) → left past old → left past new };
}

/// A pool on a device in memory, whose calls fail by a plan.
pub trait FaultyPool<R>: MountedPool<MemDevice, R> {
    /// The n-th such call of the device from now is planned to fail. It is no step.
    ghost plans: { Fault → ℕ → Self → Self → Type 0 };

    /// Makes the n-th such call of the pool's device from now fail, once.
    fn fail(self, rt: &R, fault: Fault, n: u64) -> Self
        ensures planned { plans fault n self result }
        ensures kept { (past : Past) → Self.runs past self → Self.runs past result };
}
