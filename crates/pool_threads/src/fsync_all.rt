//! A wait until each commit so far is durable.
ghost use Rattle.std.specs.Prelude.{◌≢◌, IfErr, IfOk};
ghost use Rattle.pool_threads.specs.Answers.{Sees};
ghost use Rattle.pool_threads.specs.Handles.{moment_of};
ghost use Rattle.pool_threads.specs.Waits.{FsyncsAll, IsFsyncAllRefusal, IsLogOutcome, LeavesAllDurable};

use crate::handle::Handle;
use base::{PoolError, Reply};
use device_model::SectorDevice;
use pool_core::Duty;
use std::sync::Wait;

impl<'p, D: SectorDevice> Handle<'p, D> {
    /// Waits until each transaction that was committed before the call is durable, whoever committed it: no crash loses
    /// one then.
    ///
    /// It writes the log and flushes it, in one turn: other threads wait. If the log finds no block, it syncs the pool,
    /// as `sync_pool` does.
    ///
    /// # Errors
    /// Those of a step that it makes: `Suspended`; `NoMemory`; `Write` or `Flush`, after which the pool is suspended;
    /// and those of `sync_pool` if it syncs. Some of the transactions may be durable then.
    pub fn fsync_all<'a, 'b, W: Wait>(&'a mut self, rt: &'b W) -> Result<(), PoolError>
        ensures made { FsyncsAll result self.old self.new }
        ensures durable { IfOk result (λ _. LeavesAllDurable self.old self.new) }
        ensures refused { IfErr result
            (λ e. Sees (IsFsyncAllRefusal (moment_of self.old) e) self.old self.new) }
        ensures not_log_space { IfErr result (λ e. e ≢ PoolError.NoLogSpace) }
    {
        let (reply, _) = self.serve(rt, Duty::CommitLog);
        if let Some(ended) = log_outcome(&reply) {
            return ended;
        }
        match self.sync_pool(rt) {
            Ok(_) => Ok(()),
            Err(error) => Err(error),
        }
    }
}

// What a turn for the log with this last reply comes to; None if a sync is to do it instead.
fn log_outcome(reply: &Option<Reply>) -> Option<Result<(), PoolError>>
    ensures { IsLogOutcome reply.now result }
{
    match reply {
        None | Some(Reply::Flushed) => Some(Ok(())),
        Some(Reply::Refused(error)) if *error != PoolError::NoLogSpace => Some(Err(*error)),
        _ => None,
    }
}
