//! What is made for each request, and what it is answered.

ghost use Rattle.serving.specs.Calls.{MakesCall};

use crate::listing::list_objects;
use base::Owner;
use device_model::SectorDevice;
use frames::{Call, Outcome};
use pool_threads::Handle;
use std::alloc::Global;
use std::sync::Wait;

/// Makes a call. A durable transaction is committed, and is still to be made durable.
pub(crate) fn make_call<'a, 'b, 'p, D: SectorDevice, W: Wait>(
    handle: &'a mut Handle<'p, D>,
    rt: &'b W,
    alloc: Global,
    owner: Owner,
    call: Call,
) -> Outcome
    ensures { MakesCall owner call result handle.old handle.new }
{
    match call {
        Call::Transact(committed) => match handle.transact(rt, owner, committed.ops) {
            Ok(receipt) => Outcome::Transacted(receipt),
            Err(error) => Outcome::Refused(error),
        },
        Call::TransactDurably(committed) => match handle.transact(rt, owner, committed.ops) {
            Ok(receipt) => Outcome::MadeDurable(receipt),
            Err(error) => Outcome::Refused(error),
        },
        Call::Read(object, range) => match handle.fetch(rt, owner, object, range) {
            Ok(bytes) => Outcome::Bytes(bytes),
            Err(error) => Outcome::Refused(error),
        },
        Call::Length(object) => match handle.length(rt, object) {
            Ok(length) => Outcome::Length(length),
            Err(error) => Outcome::Refused(error),
        },
        Call::Objects(first, past) => list_objects(handle, rt, alloc, first, past),
        Call::Status => Outcome::Status(handle.status(rt)),
        Call::Durable(receipt) => Outcome::Durable(handle.durable(rt, receipt)),
        Call::Flush => match handle.fsync_all(rt) {
            Ok(()) => Outcome::Flushed,
            Err(error) => Outcome::Refused(error),
        },
        Call::Sync => match handle.sync_pool(rt) {
            Ok(group) => Outcome::Synced(group),
            Err(error) => Outcome::Refused(error),
        },
        Call::Name => Outcome::Name(handle.name(rt)),
    }
}
