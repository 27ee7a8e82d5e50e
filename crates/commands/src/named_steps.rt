//! The steps that puts and removals by name have in common: a transaction, the write of a slot, and why one was refused.

ghost use Rattle.std.specs.Prelude.{◌≡◌, ◌≤◌, Err, IfErr, IfOk, length};
ghost use Rattle.running_pools.specs.Commits.{command_owner};
ghost use Rattle.commands.specs.NamedOps.{slot_op};
ghost use Rattle.commands.specs.NameRefusals.{by_engine};
ghost use Rattle.object_names.specs.Names as names;
ghost use Rattle.pool_threads.specs.Transacts.{TransactsOrLacks};

use base::{Bytes, ObjectId, Op, Ops, PoolError, Receipt};
use device_model::SectorDevice;
use object_names::{slot_of, slot_place};
use pool_threads::Handle;
use read_commands::NameCause;
use running_pools::OWNER;
use std::alloc::{AllocError, Global};
use std::sync::Wait;

/// Why a step was refused, before it is known which call the device refused.
#[derive(Clone, Copy)]
pub(crate) enum NameRefusal {
    /// For the name, or for object 0.
    Name(NameCause),
    /// By the engine.
    Engine(PoolError),
}

/// What the engine said of steps.
pub(crate) fn by_engine(end: Result<(), PoolError>) -> Result<(), NameRefusal>
    ensures { result ≡ by_engine end }
{
    match end {
        Ok(()) => Ok(()),
        Err(refusal) => Err(NameRefusal::Engine(refusal)),
    }
}

/// Commits operations as one transaction, if there was memory for them.
pub(crate) fn commit<R: Wait, D: SectorDevice>(
    rt: &R,
    handle: &mut Handle<'_, D>,
    ops: Result<Ops, AllocError>,
) -> Result<Receipt, PoolError>
    ensures committed { IfOk ops (λ ops. TransactsOrLacks command_owner ops result
        handle.old handle.new) }
    ensures lacks { IfErr ops (λ _. (result ≡ Err PoolError.NoMemory)
        × (handle.new ≡ handle.old)) }
{
    match ops {
        Ok(ops) => handle.transact(rt, OWNER, ops),
        Err(_) => Err(PoolError::NoMemory),
    }
}

/// The operation that writes a name into the slot of an object, or takes the name from it if it has no bytes.
pub(crate) fn slot_op(alloc: Global, object: ObjectId, name: &[u8]) -> Result<Op, AllocError>
    requires { length name.now ≤ names.max_name }
    ensures { IfOk result (λ op. op ≡ slot_op object name.now) }
{
    let slot = Bytes::from_slice(alloc, &slot_of(name))?;
    Ok(Op::Write(ObjectId(0), slot_place(object), slot))
}
