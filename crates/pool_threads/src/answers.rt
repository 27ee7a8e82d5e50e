//! Calls by which a handle answers what a pool is like. Each is one step of the pool, in one turn, and changes nothing.
ghost use Rattle.std.specs.Prelude.{◌≡◌, IfErr, IfOk, IsTrue, true};
ghost use Rattle.base.specs.declared.step.Reply.TheVariants as reply;
ghost use Rattle.base.specs.declared.step.Step.TheVariants as step;
ghost use Rattle.base.specs.steps.Runs.{reply_of};
ghost use Rattle.base.specs.steps.Seen.{IsDigestBetween, IsNameBetween, IsStatusBetween};
ghost use Rattle.pool_threads.specs.Answers.{IsRefusal, Makes, Sees};
ghost use Rattle.pool_threads.specs.Waits.{LeavesDurable};

use crate::handle::Handle;
use base::{PoolError, PoolName, Receipt, Status};
use device_model::SectorDevice;
use pool_core::calls::{Digest, Durable, Name, ReadStatus};
use std::sync::Wait;

impl<'p, D: SectorDevice> Handle<'p, D> {
    /// The groups of the pool, and its sums: the bytes that are charged, the free blocks, and how many of them no
    /// unsynced transaction may still take. All are of one moment.
    ///
    /// It is never refused, also of a suspended pool, and takes no memory.
    pub fn status<'a, 'b, W: Wait>(&'a mut self, rt: &'b W) -> Status
        ensures made { Makes step.Status (reply.Status result) self.old self.new }
        ensures status { Sees (IsStatusBetween result) self.old self.new }
    {
        match self.ask(rt, ReadStatus) {
            Ok(status) => status,
            Err(_) => unreachable!(),
        }
    }

    /// The pool's name.
    ///
    /// It is never refused, also of a suspended pool, and takes no memory.
    pub fn name<'a, 'b, W: Wait>(&'a mut self, rt: &'b W) -> PoolName
        ensures made { Makes step.Name (reply.Name result) self.old self.new }
        ensures name { Sees (IsNameBetween result) self.old self.new }
    {
        match self.ask(rt, Name) {
            Ok(name) => name,
            Err(_) => unreachable!(),
        }
    }

    /// Whether a committed transaction survives a crash, and so each later one: its group is synced, or its record lies
    /// in a log block that was written before a flush. It does not wait, as `fsync` does. Of a receipt that this run of
    /// the pool did not give, it says nothing.
    ///
    /// It is never refused, also of a suspended pool, and takes no memory.
    pub fn durable<'a, 'b, W: Wait>(&'a mut self, rt: &'b W, receipt: Receipt) -> bool
        ensures made { Makes (step.Durable receipt) (reply.Durable result) self.old self.new }
        ensures durable { result ≡ true → Sees (LeavesDurable receipt) self.old self.new }
    {
        match self.ask(rt, Durable { receipt }) {
            Ok(durable) => durable,
            Err(_) => unreachable!(),
        }
    }

    /// The digest of the current contents, as `PoolState::digest` has it. It reads each object, under the pool's lock:
    /// other threads wait.
    ///
    /// # Errors
    /// Those of `PoolState::digest`.
    pub fn digest<'a, 'b, W: Wait>(&'a mut self, rt: &'b W) -> Result<[u8; 32], PoolError>
        ensures made { Makes step.Digest (reply_of (λ d. reply.Digest d) result)
            self.old self.new }
        ensures digest { IsTrue D.keeps_model
            → IfOk result (λ d. Sees (IsDigestBetween d) self.old self.new) }
        ensures refused { IfErr result (λ e. Sees (IsRefusal step.Digest e) self.old self.new) }
    {
        self.ask(rt, Digest)
    }
}
