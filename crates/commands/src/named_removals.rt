//! The command `rm` of an object by its name.
//!
//! The object and its name go in one transaction. If the object was removed by its number before, only its name goes.
//! The file is locked from the look-up to the last write, so no other process changes the table of names meanwhile.

ghost use Rattle.std.specs.Io.KnownBytes.{Appends};
ghost use Rattle.std.specs.Prelude.{◌≡◌, ◌≢◌, ◌≤◌, Err, IfOk, IfSome, IsErr, false};
ghost use Rattle.commands.specs.NamedCommands.{NamedRemovalEnds, RefusesNamedRemoval, RemovesNamedAll, RemovesNamedAndPrints};
ghost use Rattle.commands.specs.NamedOps.{removal_ops};
ghost use Rattle.commands.specs.NamedRemovals.{RemovesNamed, RemovesWithName, is_there};
ghost use Rattle.object_names.specs.Names as names;
ghost use Rattle.pool_threads.specs.Handles.{shared_of};
ghost use Rattle.running_pools.specs.LeftDevices.{LosesNothing};

use crate::changes::first_refusal;
use crate::named_pools::{failure_of, fetch_table, open_pool};
use crate::named_steps::{NameRefusal, commit, slot_op};
use base::{ObjectId, Op, Ops, PoolError};
use command_arguments::{RemoveNamedArguments, Verbosity};
use device_model::SectorDevice;
use file_devices::FileRefusal;
use object_names::is_object_name;
use pool_threads::{Handle, Pool};
use read_commands::{
    Failure, NameCause, NameFailure, NotesRefusals, report_failure, report_name_failure,
};
use running_pools::close;
use std::alloc::{AllocError, Global};
use std::io::Write;
use std::sync::Wait;

/// Removes the object of a name in the pool on a device, and the name, by one transaction, syncs the pool, writes the
/// object's number to `out`, and returns the exit status.
///
/// The status is that of [`run_remove`](crate::run_remove) for the object's number. It is 1 too if the name is none, if
/// object 0 is no table of names, or if no object has the name; then nothing is committed. If the object was removed by
/// its number before, only its name is removed. A failure is reported on `errors`.
pub fn run_remove_named<
    R: Wait + AllocGlobal,
    D: SectorDevice + NotesRefusals + Drop,
    W: Write,
    E: Write,
>(
    rt: &R,
    arguments: RemoveNamedArguments<'_>,
    verbosity: Verbosity,
    opened: Result<D, FileRefusal>,
    out: &mut W,
    errors: &mut E,
) -> u8
    ensures unusable { IsErr opened → result ≡ 3 }
    ensures no_name { names.is_name arguments.entry.name.now ≡ false
        → IfOk opened (λ _. result ≡ 1) }
    ensures removed { result ≡ 0 → IfOk opened (λ device. RemovesNamedAndPrints D.SectorDevice
        device arguments.entry.name.now (W.contents out.old) (W.contents out.new)) }
    ensures refused { result ≡ 1 → IfOk opened (λ device. RefusesNamedRemoval D.SectorDevice
        device arguments.entry.moment arguments.entry.name.now) }
    ensures unwritten { result ≡ 3 → IfOk opened (λ device. RemovesNamedAll D.SectorDevice
        device arguments.entry.name.now) }
    ensures unprinted { result ≡ 1 → W.contents out.new ≡ W.contents out.old }
    ensures range { result ≤ 3 }
    ensures no_usage { result ≢ 2 }
{
    match opened {
        Ok(device) => {
            let (status, _) = remove_named_on(rt, arguments, verbosity, device, out, errors);
            status
        }
        Err(cause) => report_failure(Failure::Unusable(cause), arguments.file, verbosity, errors),
    }
}

/// Removes the object of a name in the pool on a device as `run_remove_named` does. It returns the exit status and the
/// device, with the pool closed: `None` only if a thread was stopped while it had the pool.
///
/// Nothing is lost that was durable, whatever the status is.
pub fn remove_named_on<
    R: Wait + AllocGlobal,
    D: SectorDevice + NotesRefusals + Drop,
    W: Write,
    E: Write,
>(
    rt: &R,
    arguments: RemoveNamedArguments<'_>,
    verbosity: Verbosity,
    device: D,
    out: &mut W,
    errors: &mut E,
) -> (u8, Option<D>)
    ensures no_name { names.is_name arguments.entry.name.now ≡ false → result.0 ≡ 1 }
    ensures removed { result.0 ≡ 0 → RemovesNamedAndPrints D.SectorDevice device
        arguments.entry.name.now (W.contents out.old) (W.contents out.new) }
    ensures refused { result.0 ≡ 1 → RefusesNamedRemoval D.SectorDevice device
        arguments.entry.moment arguments.entry.name.now }
    ensures unwritten { result.0 ≡ 3 → RemovesNamedAll D.SectorDevice device
        arguments.entry.name.now }
    ensures still_held { IfSome result.1 (LosesNothing D.SectorDevice device) }
    ensures unprinted { result.0 ≡ 1 → W.contents out.new ≡ W.contents out.old }
    ensures range { result.0 ≤ 3 }
    ensures no_usage { result.0 ≢ 2 }
{
    let (end, device) = remove_named(rt, arguments, device);
    let RemoveNamedArguments { file, name, .. } = arguments;
    match end {
        Ok(object) => match writeln!(out, "removed {}", object.0) {
            Ok(()) => (0, device),
            Err(_) => {
                let status = report_failure(Failure::Unwritten, file, verbosity, errors);
                (status, device)
            }
        },
        Err(failure) => {
            let status = report_name_failure(failure, name, file, verbosity, errors);
            (status, device)
        }
    }
}

// Removes the object of a name in the pool on a device, with its name, and syncs the pool, which is closed then. Returns
// the object's number.
fn remove_named<R: Wait + AllocGlobal, D: SectorDevice + NotesRefusals + Drop>(
    rt: &R,
    arguments: RemoveNamedArguments<'_>,
    device: D,
) -> (Result<ObjectId, NameFailure>, Option<D>)
    ensures no_name { names.is_name arguments.entry.name.now ≡ false
        → result.0 ≡ Err (NameFailure.Name NameCause.NoName) }
    ensures removed { NamedRemovalEnds D.SectorDevice device arguments.entry.moment
        arguments.entry.name.now result.0 }
    ensures still_held { IfSome result.1 (LosesNothing D.SectorDevice device) }
{
    if !is_object_name(arguments.name.as_bytes()) {
        return (Err(NameFailure::Name(NameCause::NoName)), Some(device));
    }
    let alloc = rt.alloc();
    let pool = match open_pool(alloc, device, arguments.moment) {
        Ok(pool) => pool,
        Err((failure, device)) => return (Err(NameFailure::Plain(failure)), Some(device)),
    };
    let end = remove_by_name(rt, alloc, &pool, arguments.name);
    let device = close(pool);
    match end {
        Ok(object) => (Ok(object), device),
        Err(refusal) => (Err(failure_of(refusal, &device)), device),
    }
}

// Removes the object of a name, and the name, and syncs the pool. Returns the object's number, or the first refusal.
fn remove_by_name<R: Wait, D: SectorDevice>(
    rt: &R,
    alloc: Global,
    pool: &Pool<D>,
    name: &str,
) -> Result<ObjectId, NameRefusal>
    ensures { RemovesNamed (shared_of pool.entry.now) name.now result }
{
    let mut handle = pool.handle();
    let table = match fetch_table(rt, alloc, &mut handle) {
        Ok(Some(table)) => table,
        Ok(None) => return Err(NameRefusal::Name(NameCause::NoTable)),
        Err(refusal) => return Err(NameRefusal::Engine(refusal)),
    };
    let object = match table.find(name.as_bytes()) {
        Some(object) => object,
        None => return Err(NameRefusal::Name(NameCause::Unknown)),
    };
    match remove_with_name(rt, alloc, &mut handle, object) {
        Ok(()) => Ok(object),
        Err(refusal) => Err(NameRefusal::Engine(refusal)),
    }
}

// Removes an object, if it is there, and its name, and syncs the pool if that was committed. The first refusal is the
// result.
fn remove_with_name<R: Wait, D: SectorDevice>(
    rt: &R,
    alloc: Global,
    handle: &mut Handle<'_, D>,
    object: ObjectId,
) -> Result<(), PoolError>
    ensures { RemovesWithName object result handle.old handle.new }
{
    let found = handle.length(rt, object);
    let there = match is_there(found) {
        Ok(there) => there,
        Err(refusal) => return Err(refusal),
    };
    let ops = ops_of(alloc, object, there);
    match commit(rt, handle, ops) {
        Ok(_) => {}
        Err(refusal) => return Err(refusal),
    }
    first_refusal(Ok(()), handle.sync_pool(rt))
}

// Whether an object is there, by the length that it was found to have.
fn is_there(found: Result<u64, PoolError>) -> Result<bool, PoolError>
    ensures { result ≡ is_there found }
{
    match found {
        Ok(_) => Ok(true),
        Err(PoolError::NoObject) => Ok(false),
        Err(refusal) => Err(refusal),
    }
}

// The operations that remove an object, if it is there, and its name.
fn ops_of(alloc: Global, object: ObjectId, there: bool) -> Result<Ops, AllocError>
    ensures { IfOk result (λ ops. ops ≡ removal_ops there object) }
{
    let slot = slot_op(alloc, object, &[])?;
    let mut ops = Vec::with_capacity(alloc, 2)?;
    if there {
        ops.push_reserved(Op::Remove(object));
    }
    ops.push_reserved(slot);
    Ok(Ops::new(ops))
}
