//! The command `put` of an object by its name.
//!
//! 1. The name and the place of the bytes are tested before the pool is opened.
//! 2. Object 0 is read whole. If it is no table of names, nothing is written.
//! 3. The file is locked from the look-up to the last write, so no other process changes the table meanwhile.
//! 4. A name that an object has is put as that object's number is. A new one is in `new_objects.rt`.

ghost use Rattle.std.specs.Prelude.{◌≡◌, ◌≢◌, ◌≤◌, IfNone, IfOk, IfSome, IsErr, IsErrAnd, false, true};
ghost use Rattle.commands.specs.Puts.{is_target};
ghost use Rattle.commands.specs.NamedCommands.{NamedPutEnds, PutsNamedAll, PutsNamedAndPrints, RefusesNamedPut};
ghost use Rattle.commands.specs.NamedPuts.{PutsKnown, PutsNamed};
ghost use Rattle.commands.specs.NameRefusals.{IsEarlyFailure, is_named_target};
ghost use Rattle.read_commands.specs.NameFailures.{name_failure_status};
ghost use Rattle.object_names.specs.NameTables.{IsNamed};
ghost use Rattle.object_names.specs.Names as names;
ghost use Rattle.pool_threads.specs.Handles.{shared_of};
ghost use Rattle.running_pools.specs.LeftDevices.{LosesNothing};

use crate::changes::{
    Put, STANDARD_INPUT, Target, bad_number_of, is_target, put_and_sync, report_committed,
};
use crate::named_pools::{failure_of, fetch_table, open_pool};
use crate::named_steps::{NameRefusal, by_engine};
use crate::new_objects::{NamedBytes, put_new};
use base::ObjectId;
use command_arguments::{PutNamedArguments, Verbosity};
use device_model::SectorDevice;
use file_devices::FileRefusal;
use object_names::is_object_name;
use pool_threads::Pool;
use read_commands::{
    Failure, NameCause, NameFailure, NotesRefusals, report_failure, report_name_failure,
};
use running_pools::close;
use std::alloc::Global;
use std::io::{self, Write};
use std::sync::Wait;

/// Writes an input into the object of a name in the pool on a device, syncs it, and returns the exit status. If no object
/// has the name one is made, with the lowest number from 1 on that has no name and no object. Its name is written by the
/// transaction that makes it. Without an offset the object then has these bytes alone.
///
/// The status is that of [`run_put`](crate::run_put) for the object's number. It is 1 too if the name is none, if
/// object 0 is no table of names, or if no number is free; then nothing is committed. A failure is reported on `errors`,
/// and so is how many bytes were committed before it. The name, the offset and the number of the bytes are tested before
/// the device is called.
pub fn run_put_named<
    R: Wait + AllocGlobal,
    D: SectorDevice + NotesRefusals + Drop,
    W: Write,
    E: Write,
>(
    rt: &R,
    arguments: PutNamedArguments<'_>,
    verbosity: Verbosity,
    input: io::Result<Vec<u8>>,
    opened: Result<D, FileRefusal>,
    out: &mut W,
    errors: &mut E,
) -> u8
    ensures unread { IsErr input → result ≡ 3 }
    ensures unusable { IsErr opened → result ≡ 3 }
    ensures target { IfOk input (λ bytes. IfOk opened (λ _.
        is_named_target arguments.entry.name.now arguments.entry.offset bytes.items ≡ false
        → result ≡ 1)) }
    ensures put { result ≡ 0 → IfOk input (λ bytes. IfOk opened (λ device. PutsNamedAndPrints
        D.SectorDevice device arguments.entry.name.now arguments.entry.offset bytes.items
        (W.contents out.old) (W.contents out.new))) }
    ensures refused { result ≡ 1 → IfOk input (λ bytes. IfOk opened (λ device. RefusesNamedPut
        D.SectorDevice device arguments.entry.moment arguments.entry.name.now
        arguments.entry.offset bytes.items)) }
    ensures unwritten { result ≡ 3 → IfOk input (λ bytes. IfOk opened (λ device. PutsNamedAll
        D.SectorDevice device arguments.entry.name.now arguments.entry.offset bytes.items)) }
    ensures unprinted { result ≡ 1 → W.contents out.new ≡ W.contents out.old }
    ensures range { result ≤ 3 }
    ensures no_usage { result ≢ 2 }
{
    let input = match input {
        Ok(input) => input,
        Err(error) => {
            let failure = Failure::Unusable(FileRefusal::System(error));
            return report_failure(failure, STANDARD_INPUT, verbosity, errors);
        }
    };
    match opened {
        Ok(device) => {
            let (status, _) = put_named_on(rt, arguments, verbosity, &input, device, out, errors);
            status
        }
        Err(cause) => report_failure(Failure::Unusable(cause), arguments.file, verbosity, errors),
    }
}

/// Writes bytes into the object of a name in the pool on a device as `run_put_named` does. It returns the exit status and
/// the device, with the pool closed: `None` only if a thread was stopped while it had the pool.
///
/// Nothing is lost that was durable, whatever the status is.
pub fn put_named_on<
    R: Wait + AllocGlobal,
    D: SectorDevice + NotesRefusals + Drop,
    W: Write,
    E: Write,
>(
    rt: &R,
    arguments: PutNamedArguments<'_>,
    verbosity: Verbosity,
    bytes: &[u8],
    device: D,
    out: &mut W,
    errors: &mut E,
) -> (u8, Option<D>)
    ensures target { is_named_target arguments.entry.name.now arguments.entry.offset bytes.now
        ≡ false → result.0 ≡ 1 }
    ensures put { result.0 ≡ 0 → PutsNamedAndPrints D.SectorDevice device
        arguments.entry.name.now arguments.entry.offset bytes.now
        (W.contents out.old) (W.contents out.new) }
    ensures refused { result.0 ≡ 1 → RefusesNamedPut D.SectorDevice device
        arguments.entry.moment arguments.entry.name.now arguments.entry.offset bytes.now }
    ensures unwritten { result.0 ≡ 3 → PutsNamedAll D.SectorDevice device
        arguments.entry.name.now arguments.entry.offset bytes.now }
    ensures still_held { IfSome result.1 (LosesNothing D.SectorDevice device) }
    ensures unprinted { result.0 ≡ 1 → W.contents out.new ≡ W.contents out.old }
    ensures range { result.0 ≤ 3 }
    ensures no_usage { result.0 ≢ 2 }
{
    let (put, end, device) = put_named(rt, arguments, bytes, device);
    let PutNamedArguments { file, name, .. } = arguments;
    match end {
        Ok(()) => match writeln!(out, "put {put}") {
            Ok(()) => (0, device),
            Err(_) => {
                let status = report_failure(Failure::Unwritten, file, verbosity, errors);
                (status, device)
            }
        },
        Err(failure) => {
            let status = report_name_failure(failure, name, file, verbosity, errors);
            report_committed(&put, errors);
            (status, device)
        }
    }
}

// Puts bytes into the object of a name in the pool on a device, and syncs it. The pool is closed.
fn put_named<R: Wait + AllocGlobal, D: SectorDevice + NotesRefusals + Drop>(
    rt: &R,
    arguments: PutNamedArguments<'_>,
    bytes: &[u8],
    device: D,
) -> (Put, Result<(), NameFailure>, Option<D>)
    ensures target { is_named_target arguments.entry.name.now arguments.entry.offset bytes.now
        ≡ false → IsErrAnd result.1 (λ why. name_failure_status why ≡ 1) }
    ensures put { NamedPutEnds D.SectorDevice device arguments.entry.moment
        arguments.entry.name.now arguments.entry.offset bytes.now result.0 result.1 }
    ensures still_held { IfSome result.2 (LosesNothing D.SectorDevice device) }
{
    let given = NamedBytes {
        name: arguments.name,
        offset: arguments.offset,
        bytes,
    };
    if let Some(failure) = early_failure(given) {
        return (Put::NOTHING, Err(failure), Some(device));
    }
    let alloc = rt.alloc();
    let pool = match open_pool(alloc, device, arguments.moment) {
        Ok(pool) => pool,
        Err((failure, device)) => {
            return (Put::NOTHING, Err(NameFailure::Plain(failure)), Some(device));
        }
    };
    let (put, end) = put_by_name(rt, alloc, &pool, given);
    let device = close(pool);
    match end {
        Ok(()) => (put, Ok(()), device),
        Err(refusal) => (put, Err(failure_of(refusal, &device)), device),
    }
}

// Why a put is refused before the pool is opened, if it is: the name is none, or no object may have the bytes there.
fn early_failure(given: NamedBytes<'_>) -> Option<NameFailure>
    ensures none { IfNone result (names.IsName given.entry.name.now
        × (is_target 0 given.entry.offset given.entry.bytes.now ≡ true)) }
    ensures some { IfSome result
        (IsEarlyFailure given.entry.name.now given.entry.offset given.entry.bytes.now) }
{
    if !is_object_name(given.name.as_bytes()) {
        return Some(NameFailure::Name(NameCause::NoName));
    }
    if !is_target(0, given.offset, given.bytes) {
        let number = bad_number_of(0, given.offset, given.bytes);
        return Some(NameFailure::Plain(Failure::OutOfRange(number)));
    }
    None
}

// Puts bytes into the object of a name, and syncs the pool. The first refusal is the result.
fn put_by_name<R: Wait, D: SectorDevice>(
    rt: &R,
    alloc: Global,
    pool: &Pool<D>,
    given: NamedBytes<'_>,
) -> (Put, Result<(), NameRefusal>)
    requires name { names.IsName given.name.now }
    requires target { is_target 0 given.offset given.bytes.now ≡ true }
    ensures { PutsNamed (shared_of pool.entry.now) given.entry.name.now given.entry.offset
        given.entry.bytes.now result.0 result.1 }
{
    let mut handle = pool.handle();
    let table = match fetch_table(rt, alloc, &mut handle) {
        Ok(Some(table)) => table,
        Ok(None) => return (Put::NOTHING, Err(NameRefusal::Name(NameCause::NoTable))),
        Err(refusal) => return (Put::NOTHING, Err(NameRefusal::Engine(refusal))),
    };
    match table.find(given.name.as_bytes()) {
        Some(object) => put_known(rt, alloc, pool, object, given),
        None => put_new(rt, alloc, &mut handle, &table, given),
    }
}

// Puts bytes into an object that has the name, as into one of a number.
fn put_known<R: Wait, D: SectorDevice>(
    rt: &R,
    alloc: Global,
    pool: &Pool<D>,
    object: ObjectId,
    given: NamedBytes<'_>,
) -> (Put, Result<(), NameRefusal>)
    requires { is_target object.0 given.offset given.bytes.now ≡ true }
    ensures { PutsKnown (shared_of pool.entry.now) object given.entry.offset
        given.entry.bytes.now result.0 result.1 }
{
    let target = Target {
        object,
        offset: given.offset,
    };
    let mut handle = pool.handle();
    let (put, end) = put_and_sync(rt, alloc, &mut handle, target, given.bytes);
    (put, by_engine(end))
}
