//! The commands `put` and `rm`: an object of the pool in a file gets bytes, or is removed. What they commit is durable
//! when they end.
//!
//! 1. A put commits its bytes in pieces, as `Handle::write_long` has them. The first transaction also makes the object
//!    or empties it. So bytes of one piece are put as a whole, or not at all.
//! 2. If a piece is refused, the pieces before it stay, and are synced as those of a whole put are.
//! 3. A put that can't find the blocks that it needs is refused before the first piece (`put_room.rt`).

ghost use Rattle.std.specs.Io.KnownBytes.{Appends};
ghost use Rattle.std.specs.Prelude.{◌≡◌, ◌≢◌, ◌≤◌, ◌<◌, ◌+◌, ◌*◌, ◌/◌, ◌^◌, ◌∷◌, [], false, true, length, min, take, Err, IfErr, IfOk, IfSome, IsErr, IsOk};
ghost use Rattle.base.specs.declared.operation.Op.TheVariants.{Remove};
ghost use Rattle.base.specs.formats.Limits.{max_length};
ghost use Rattle.running_pools.specs.LeftDevices.{HoldsContents, IsOnlyHandle, StillHolds};
ghost use Rattle.commands.specs.Committed.{PutsAll, PutsAndLeaves, PutsAndPrints, PutsBy, PutsOrFails, RefusesPut, RefusesRemoval, RemovesAndLeaves, RemovesOn, RemovesOrFails, nothing_put, result_after};
ghost use Rattle.running_pools.specs.Commits.{MakesFirst, command_owner};
ghost use Rattle.commands.specs.LeftContents.{HasPut, HasRemoved, KeepsOthers, LeavesDevice};
ghost use Rattle.commands.specs.Puts.{bad_number_of, first_byte, is_target, piece_ops, put_line, put_transactions, removed_line, rest_transactions, start_of};
ghost use Rattle.pool_threads.specs.LongWrites.{piece_size};
ghost use Rattle.pool_threads.specs.Handles.{IsFirstSeen, kin_left, owned_of};
ghost use Rattle.pool_threads.specs.Transacts.{TransactsOrLacks};
ghost use Rattle.read_commands.specs.Failures.{failure_status};

use crate::put_room::lacks_room;
use base::{
    Bytes, DEFAULT_DIRTY_MAX, Group, MAX_LENGTH, OBJECT_COUNT, ObjectId, Op, Ops, PoolError,
    Receipt,
};
use command_arguments::{PutArguments, RemoveArguments, Verbosity};
use device_model::SectorDevice;
use file_devices::FileRefusal;
use pool_threads::{Handle, LastSeen, OwnedPool, PIECE_SIZE};
use read_commands::{BadNumber, Failure, NotesRefusals, report_failure};
use running_pools::{OWNER, close_alone, open_alone};
use std::alloc::{AllocError, Global};
use std::fmt;
use std::io::{self, Read, Write};
use std::sync::Wait;

/// What is printed of standard input as a file.
pub(crate) const STANDARD_INPUT: &str = "-";

/// The bytes of an input up to its end, or one more than an object may have.
///
/// # Errors
/// That of a read, or of a request for memory.
pub fn read_input<R: Read + Drop>(alloc: Global, input: R) -> io::Result<Vec<u8>>
    ensures all { IfOk result (λ bytes. IfSome (R.remaining input) (λ left.
        bytes.items ≡ take (max_length + 1) left)) }
{
    let mut bytes = Vec::new(alloc);
    let _ = input.take(MAX_LENGTH + 1).read_to_end(&mut bytes)?;
    Ok(bytes)
}

/// What a put has committed. As text it is how many bytes in how many transactions.
#[derive(Clone, Copy)]
pub(crate) struct Put {
    /// The bytes.
    pub bytes: u64,
    /// The transactions.
    pub transactions: u64,
    /// Whether the pool was synced after the last of them.
    pub is_synced: bool,
}

impl fmt::Display for Put {
    ghost use Rattle.std.specs.Prelude.{Some};
    ghost use Rattle.commands.specs.Puts.{put_text};

    ghost output = { λ p. Some (put_text p.bytes p.transactions) };

    fn fmt<W: fmt::Write>(&self, f: &mut fmt::Formatter<W>) -> fmt::Result {
        write!(
            f,
            "{} bytes in {} transactions",
            self.bytes, self.transactions
        )
    }
}

impl Put {
    /// No byte, in no transaction.
    pub const NOTHING: Put = Put {
        bytes: 0,
        transactions: 0,
        is_synced: true,
    };

    // So many bytes in pieces, not synced.
    fn in_pieces(bytes: u64) -> Put
        ensures bytes { result.bytes ≡ bytes }
        ensures transactions { result.transactions ≡ (bytes + 64511) / 64512 }
        ensures unsynced { result.is_synced ≡ false }
    {
        Put {
            bytes,
            transactions: bytes.div_ceil(PIECE_SIZE as u64),
            is_synced: false,
        }
    }

    /// Counts one transaction more, of so many bytes, after which the pool isn't synced.
    pub fn add(&mut self, bytes: usize)
        requires bytes { self.old.bytes + bytes < 2 ^ 64 }
        requires transactions { self.old.transactions + 1 < 2 ^ 64 }
        ensures bytes { self.new.bytes ≡ self.old.bytes + bytes }
        ensures transactions { self.new.transactions ≡ self.old.transactions + 1 }
        ensures unsynced { self.new.is_synced ≡ false }
    {
        self.bytes += bytes as u64;
        self.transactions += 1;
        self.is_synced = false;
    }
}

/// Writes an input into an object of the pool on a device, syncs it, and returns the exit status. The object is made if
/// it isn't there. Without an offset it then has these bytes alone.
///
/// The status is 0 if all is durable, and how many bytes it were is written to `out`. It is 1 if the engine refused it,
/// and 3 if the input can't be read, the file was not opened as a device, or `out` can't be written. If only the line
/// was not written, all is durable even so. A failure is reported on `errors`, and so is how many bytes were committed
/// before it. The object's number, the offset and the number of the bytes are tested before the device is called. If
/// the pool can't have the blocks that the bytes need, it is refused `NoSpace`, and nothing is committed.
pub fn run_put<R: Wait + AllocGlobal, D: SectorDevice + NotesRefusals + Drop, W: Write, E: Write>(
    rt: &R,
    arguments: PutArguments<'_>,
    verbosity: Verbosity,
    input: io::Result<Vec<u8>>,
    opened: Result<D, FileRefusal>,
    out: &mut W,
    errors: &mut E,
) -> u8
    ensures unread { IsErr input → result ≡ 3 }
    ensures unusable { IsErr opened → result ≡ 3 }
    ensures target { IfOk input (λ bytes. IfOk opened (λ _. is_target arguments.entry.object
        arguments.entry.offset bytes.items ≡ false → result ≡ 1)) }
    ensures put { result ≡ 0 → IfOk input (λ bytes. IfOk opened (λ device. PutsAndPrints
        D.SectorDevice device (record { 0 = arguments.entry.object }) arguments.entry.offset
        bytes.items (W.contents out.old) (W.contents out.new))) }
    ensures refused { result ≡ 1 → IfOk input (λ bytes. IfOk opened (λ device. RefusesPut
        D.SectorDevice device arguments.entry.moment (record { 0 = arguments.entry.object })
        arguments.entry.offset bytes.items)) }
    ensures unwritten { result ≡ 3 → IfOk input (λ bytes. IfOk opened (λ device. PutsAll
        D.SectorDevice device (record { 0 = arguments.entry.object }) arguments.entry.offset
        bytes.items)) }
    ensures unprinted { result ≡ 1 → W.contents out.new ≡ W.contents out.old }
    ensures range { result ≤ 3 }
    ensures no_usage { result ≢ 2 }
{
    let input = match input {
        Ok(input) => input,
        Err(error) => {
            let failure = Failure::Unusable(FileRefusal::System(error));
            return report_failure(failure, STANDARD_INPUT, verbosity, errors);
        }
    };
    match opened {
        Ok(device) => {
            let (status, _) = put_on(rt, arguments, verbosity, &input, device, out, errors);
            status
        }
        Err(cause) => report_failure(Failure::Unusable(cause), arguments.file, verbosity, errors),
    }
}

/// Writes bytes into an object of the pool on a device as `run_put` does. It returns the exit status and the device, with
/// the pool closed.
///
/// If the status is not 1, an import finds the bytes in the object, whatever a crash leaves of the device then, and all
/// else as it was. If it is 1, nothing is lost that was durable, and no other object is changed.
pub fn put_on<R: Wait + AllocGlobal, D: SectorDevice + NotesRefusals + Drop, W: Write, E: Write>(
    rt: &R,
    arguments: PutArguments<'_>,
    verbosity: Verbosity,
    bytes: &[u8],
    device: D,
    out: &mut W,
    errors: &mut E,
) -> (u8, D)
    ensures target { is_target arguments.entry.object arguments.entry.offset bytes.now ≡ false
        → result.0 ≡ 1 }
    ensures put { result.0 ≡ 0 → PutsAndPrints D.SectorDevice device
        (record { 0 = arguments.entry.object }) arguments.entry.offset bytes.now
        (W.contents out.old) (W.contents out.new) }
    ensures refused { result.0 ≡ 1 → RefusesPut D.SectorDevice device arguments.entry.moment
        (record { 0 = arguments.entry.object }) arguments.entry.offset bytes.now }
    ensures unwritten { result.0 ≡ 3 → PutsAll D.SectorDevice device
        (record { 0 = arguments.entry.object }) arguments.entry.offset bytes.now }
    ensures durable { result.0 ≢ 1 → HoldsContents D.SectorDevice
        (HasPut (record { 0 = arguments.entry.object }) arguments.entry.offset bytes.now)
        device result.1 }
    ensures still_held { result.0 ≡ 1 → StillHolds D.SectorDevice
        (KeepsOthers (record { 0 = arguments.entry.object })) device result.1 }
    ensures unprinted { result.0 ≡ 1 → W.contents out.new ≡ W.contents out.old }
    ensures range { result.0 ≤ 3 }
    ensures no_usage { result.0 ≢ 2 }
{
    let (put, end, device) = put_bytes(rt, arguments, bytes, device);
    let status = report_put(&put, end, arguments.file, verbosity, out, errors);
    (status, device)
}

// Writes how many bytes were put, or reports why they were not. Returns the exit status.
fn report_put<W: Write, E: Write>(
    put: &Put,
    end: Result<(), Failure>,
    file: &str,
    verbosity: Verbosity,
    out: &mut W,
    errors: &mut E,
) -> u8
    ensures printed { result ≡ 0 → Appends (W.contents out.old) (W.contents out.new)
        (put_line put.now.bytes put.now.transactions) }
    ensures done { IsOk end → result ≢ 1 }
    ensures failed { IfErr end (λ failure. result ≡ failure_status failure) }
    ensures unprinted { IsErr end → W.contents out.new ≡ W.contents out.old }
    ensures range { result ≤ 3 }
    ensures no_usage { result ≢ 2 }
{
    match end {
        Ok(()) => match writeln!(out, "put {put}") {
            Ok(()) => 0,
            Err(_) => report_failure(Failure::Unwritten, file, verbosity, errors),
        },
        Err(failure) => {
            let status = report_failure(failure, file, verbosity, errors);
            report_committed(put, errors);
            status
        }
    }
}

/// Reports on `errors` what a put has committed before it was refused, if that is anything.
pub(crate) fn report_committed<E: Write>(put: &Put, errors: &mut E) {
    if put.transactions == 0 {
        return;
    }
    let fate = if put.is_synced { "" } else { ", not durable" };
    let _ = writeln!(errors, "ztxg: committed {put}{fate}");
}

// Puts bytes into an object of the pool on a device, and syncs it.
fn put_bytes<R: Wait + AllocGlobal, D: SectorDevice + NotesRefusals + Drop>(
    rt: &R,
    arguments: PutArguments<'_>,
    bytes: &[u8],
    device: D,
) -> (Put, Result<(), Failure>, D)
    ensures target { is_target arguments.entry.object arguments.entry.offset bytes.now ≡ false
        → IsErr result.1 }
    ensures status { IfErr result.1 (λ failure. failure_status failure ≡ 1) }
    ensures put { PutsOrFails D.SectorDevice device arguments.entry.moment
        (record { 0 = arguments.entry.object }) arguments.entry.offset bytes.now
        result.0 result.1 }
    ensures left { LeavesDevice D.SectorDevice
        (HasPut (record { 0 = arguments.entry.object }) arguments.entry.offset bytes.now)
        (KeepsOthers (record { 0 = arguments.entry.object })) device result.1 result.2 }
{
    if !is_target(arguments.object, arguments.offset, bytes) {
        let number = bad_number_of(arguments.object, arguments.offset, bytes);
        return (Put::NOTHING, Err(Failure::OutOfRange(number)), device);
    }
    let alloc = rt.alloc();
    let (pool, first) = match open_alone(alloc, device, DEFAULT_DIRTY_MAX, arguments.moment) {
        Ok(opened) => opened,
        Err((refusal, device)) => {
            let failure = Failure::of_pool(refusal, &device);
            return (Put::NOTHING, Err(failure), device);
        }
    };
    let target = Target {
        object: ObjectId(arguments.object),
        offset: arguments.offset,
    };
    let (put, end, last) = put_and_leave(rt, alloc, &pool, first, target, bytes);
    let device = close_alone(pool, last);
    match end {
        Ok(()) => (put, Ok(()), device),
        Err(refusal) => (put, Err(Failure::of_pool(refusal, &device)), device),
    }
}

// Puts bytes into an object by the pool's first handle, and syncs the pool. What the handle has seen comes back.
fn put_and_leave<R: Wait, D: SectorDevice>(
    rt: &R,
    alloc: Global,
    pool: &OwnedPool<D>,
    first: LastSeen<D>,
    target: Target,
    bytes: &[u8],
) -> (Put, Result<(), PoolError>, LastSeen<D>)
    requires fits { is_target target.object.0 target.offset bytes.now ≡ true }
    requires first { IsFirstSeen (owned_of pool.now) first }
    ensures { PutsAndLeaves (owned_of pool.entry.now) target.object target.offset bytes.now
        result.0 result.1 result.2 }
{
    let mut handle = pool.handle_after(first);
    let (put, end) = put_and_sync(rt, alloc, &mut handle, target, bytes);
    (put, end, handle.leave())
}

/// Whether an object of this number may have these bytes at this offset, or at its start if none is given.
pub(crate) fn is_target(object: u32, offset: Option<u64>, bytes: &[u8]) -> bool
    ensures { result ≡ is_target object offset bytes.now }
{
    let at = first_byte(offset);
    object < OBJECT_COUNT && at <= MAX_LENGTH && bytes.len() as u64 <= MAX_LENGTH - at
}

/// What is outside its limits, if an object of this number may not have these bytes there.
pub(crate) fn bad_number_of(object: u32, offset: Option<u64>, bytes: &[u8]) -> BadNumber
    ensures { result ≡ bad_number_of object offset bytes.now }
{
    let (at, size) = (first_byte(offset), bytes.len() as u64);
    if object >= OBJECT_COUNT {
        BadNumber::Object(object)
    } else if at >= MAX_LENGTH {
        BadNumber::Offset(at)
    } else if size > MAX_LENGTH {
        // The input has been read up to here.
        BadNumber::LongInput
    } else {
        BadNumber::End(at + size)
    }
}

/// The first byte that a put writes: its offset, or byte 0 if none is given.
pub(crate) fn first_byte(offset: Option<u64>) -> u64
    ensures { result ≡ first_byte offset }
{
    match offset {
        Some(offset) => offset,
        None => 0,
    }
}

/// Where bytes go: to a place of an object, or in place of all that it has.
#[derive(Clone, Copy)]
pub(crate) struct Target {
    /// The object.
    pub object: ObjectId,
    /// The first byte, if they don't replace all.
    pub offset: Option<u64>,
}

/// What the first transaction does to the object before it writes.
#[derive(Clone, Copy)]
pub(crate) enum Start {
    /// It makes the object.
    Creates,
    /// It sets its length to 0.
    Empties,
    /// Nothing.
    Keeps,
}

impl Start {
    // Whether it leaves the object as it was.
    fn keeps_all(self) -> bool
        ensures keeps { result ≡ true → self ≡ Start.Keeps }
        ensures changes { result ≡ false → self ≢ Start.Keeps }
    {
        matches!(self, Start::Keeps)
    }
}

/// Puts bytes into an object by a handle of the pool, and syncs the pool, also after a refusal. It returns what was
/// committed, and the first refusal. The object is made if it isn't there. Without room for all bytes it puts none.
pub(crate) fn put_and_sync<R: Wait, D: SectorDevice>(
    rt: &R,
    alloc: Global,
    handle: &mut Handle<'_, D>,
    target: Target,
    bytes: &[u8],
) -> (Put, Result<(), PoolError>)
    requires { is_target target.object.0 target.offset bytes.now ≡ true }
    ensures { PutsBy target.object target.offset bytes.now result.0 result.1 handle.old
        handle.new }
{
    let found = handle.length(rt, target.object);
    let start = match start_of(target.offset, found) {
        Ok(start) => start,
        Err(refusal) => return (Put::NOTHING, Err(refusal)),
    };
    let status = handle.status(rt);
    if lacks_room(start, target.offset, bytes, found, status.available) {
        return (Put::NOTHING, Err(PoolError::NoSpace));
    }
    let (mut put, made) = put_pieces(rt, alloc, handle, target, start, bytes);
    if put.transactions == 0 {
        return (put, made);
    }
    let synced = handle.sync_pool(rt);
    put.is_synced = synced.is_ok();
    (put, first_refusal(made, synced))
}

/// The first refusal of transactions and of the sync after them.
pub(crate) fn first_refusal(
    made: Result<(), PoolError>,
    synced: Result<Group, PoolError>,
) -> Result<(), PoolError>
    ensures { result ≡ result_after made synced }
{
    match (made, synced) {
        (Ok(()), Err(refusal)) => Err(refusal),
        (made, _) => made,
    }
}

// What has to be done to the object before its first bytes are written, by the length that it was found to have.
fn start_of(offset: Option<u64>, found: Result<u64, PoolError>) -> Result<Start, PoolError>
    ensures { result ≡ start_of offset found }
{
    match (found, offset) {
        (Ok(_), Some(_)) => Ok(Start::Keeps),
        (Ok(_), None) => Ok(Start::Empties),
        (Err(PoolError::NoObject), _) => Ok(Start::Creates),
        (Err(refusal), _) => Err(refusal),
    }
}

// Commits the pieces of these bytes in order, up to the first that is refused.
fn put_pieces<R: Wait, D: SectorDevice>(
    rt: &R,
    alloc: Global,
    handle: &mut Handle<'_, D>,
    target: Target,
    start: Start,
    bytes: &[u8],
) -> (Put, Result<(), PoolError>)
    requires fits { is_target target.object.0 target.offset bytes.now ≡ true }
    ensures made { MakesFirst (put_transactions start target.object target.offset bytes.now)
        result.0.transactions result.1 handle.old handle.new }
    ensures size { result.0.bytes ≡ min (piece_size * result.0.transactions) (length bytes.now) }
{
    let at = first_byte(target.offset);
    if start.keeps_all() {
        return write_rest(rt, handle, target.object, at, bytes);
    }
    let (first, rest) = bytes.split_at(PIECE_SIZE.min(bytes.len()));
    match commit(rt, alloc, handle, start, target.object, at, first) {
        Ok(_) => {}
        Err(refusal) => return (Put::NOTHING, Err(refusal)),
    }
    let after = at + first.len() as u64;
    let (mut put, made) = write_rest(rt, handle, target.object, after, rest);
    put.add(first.len());
    (put, made)
}

/// Writes bytes to an object from this place on, each piece of them in a transaction of its own, if there are any. Returns
/// what was committed, not synced, and the first refusal.
pub(crate) fn write_rest<R: Wait, D: SectorDevice>(
    rt: &R,
    handle: &mut Handle<'_, D>,
    object: ObjectId,
    at: u64,
    bytes: &[u8],
) -> (Put, Result<(), PoolError>)
    requires { at + length bytes.now ≤ max_length }
    ensures made { MakesFirst (rest_transactions object at bytes.now) result.0.transactions
        result.1 handle.old handle.new }
    ensures size { result.0.bytes ≡ min (piece_size * result.0.transactions) (length bytes.now) }
    ensures few { result.0.transactions ≤ length bytes.now }
    ensures unsynced { result.0.transactions ≢ 0 → result.0.is_synced ≡ false }
{
    if bytes.is_empty() {
        return (Put::NOTHING, Ok(()));
    }
    match handle.write_long(rt, OWNER, object, at, bytes) {
        Ok(_) => (Put::in_pieces(bytes.len() as u64), Ok(())),
        Err((refusal, committed)) => (Put::in_pieces(committed), Err(refusal)),
    }
}

// Commits a piece as one transaction, with what comes before it.
fn commit<R: Wait, D: SectorDevice>(
    rt: &R,
    alloc: Global,
    handle: &mut Handle<'_, D>,
    start: Start,
    object: ObjectId,
    at: u64,
    piece: &[u8],
) -> Result<Receipt, PoolError>
    ensures { TransactsOrLacks command_owner (piece_ops start object at piece.now) result
        handle.old handle.new }
{
    let ops = ops_of(alloc, start, object, at, piece)?;
    handle.transact(rt, OWNER, ops)
}

// The operations that put a piece.
fn ops_of(
    alloc: Global,
    start: Start,
    object: ObjectId,
    at: u64,
    piece: &[u8],
) -> Result<Ops, AllocError>
    ensures { IfOk result (λ ops. ops ≡ piece_ops start object at piece.now) }
{
    let mut ops = Vec::with_capacity(alloc, 2)?;
    match start {
        Start::Creates => ops.push_reserved(Op::Create(object)),
        Start::Empties => ops.push_reserved(Op::SetLength(object, 0)),
        Start::Keeps => {}
    }
    if !piece.is_empty() {
        ops.push_reserved(Op::Write(object, at, Bytes::from_slice(alloc, piece)?));
    }
    Ok(Ops::new(ops))
}

/// Removes an object of the pool on a device, syncs it, writes its number to `out`, and returns the exit status.
///
/// The status is 0 if that is durable, 1 if the engine refused it, and 3 if the file was not opened as a device or
/// `out` can't be written. If only the line was not written, it is durable even so. A failure is reported on `errors`.
pub fn run_remove<
    R: Wait + AllocGlobal,
    D: SectorDevice + NotesRefusals + Drop,
    W: Write,
    E: Write,
>(
    rt: &R,
    arguments: RemoveArguments<'_>,
    verbosity: Verbosity,
    opened: Result<D, FileRefusal>,
    out: &mut W,
    errors: &mut E,
) -> u8
    ensures unusable { IsErr opened → result ≡ 3 }
    ensures removed { result ≡ 0 → IfOk opened (λ device.
        RemovesOn D.SectorDevice device (record { 0 = arguments.entry.object })
        × Appends (W.contents out.old) (W.contents out.new)
        (removed_line arguments.entry.object)) }
    ensures refused { result ≡ 1 → IfOk opened (λ device. RefusesRemoval D.SectorDevice device
        arguments.entry.moment (record { 0 = arguments.entry.object })) }
    ensures unwritten { result ≡ 3 → IfOk opened (λ device. RemovesOn D.SectorDevice device
        (record { 0 = arguments.entry.object })) }
    ensures unprinted { result ≡ 1 → W.contents out.new ≡ W.contents out.old }
    ensures range { result ≤ 3 }
    ensures no_usage { result ≢ 2 }
{
    match opened {
        Ok(device) => {
            let (status, _) = remove_on(rt, arguments, verbosity, device, out, errors);
            status
        }
        Err(cause) => report_failure(Failure::Unusable(cause), arguments.file, verbosity, errors),
    }
}

/// Removes an object of the pool on a device as `run_remove` does. It returns the exit status and the device, with the
/// pool closed.
///
/// If the status is not 1, an import doesn't find the object, whatever a crash leaves of the device then, and finds all
/// else as it was. If it is 1, nothing is lost that was durable, and no other object is changed.
pub fn remove_on<R: Wait + AllocGlobal, D: SectorDevice + NotesRefusals + Drop, W: Write, E: Write>(
    rt: &R,
    arguments: RemoveArguments<'_>,
    verbosity: Verbosity,
    device: D,
    out: &mut W,
    errors: &mut E,
) -> (u8, D)
    ensures removed { result.0 ≢ 1
        → RemovesOn D.SectorDevice device (record { 0 = arguments.entry.object }) }
    ensures printed { result.0 ≡ 0 → Appends (W.contents out.old) (W.contents out.new)
        (removed_line arguments.entry.object) }
    ensures refused { result.0 ≡ 1 → RefusesRemoval D.SectorDevice device
        arguments.entry.moment (record { 0 = arguments.entry.object }) }
    ensures durable { result.0 ≢ 1 → HoldsContents D.SectorDevice
        (HasRemoved (record { 0 = arguments.entry.object })) device result.1 }
    ensures still_held { result.0 ≡ 1 → StillHolds D.SectorDevice
        (KeepsOthers (record { 0 = arguments.entry.object })) device result.1 }
    ensures unprinted { result.0 ≡ 1 → W.contents out.new ≡ W.contents out.old }
    ensures range { result.0 ≤ 3 }
    ensures no_usage { result.0 ≢ 2 }
{
    let (end, device) = remove_object(rt, arguments, device);
    let status = report_removed(arguments, end, verbosity, out, errors);
    (status, device)
}

// Writes which object was removed, or reports why it was not. Returns the exit status.
fn report_removed<W: Write, E: Write>(
    arguments: RemoveArguments<'_>,
    end: Result<(), Failure>,
    verbosity: Verbosity,
    out: &mut W,
    errors: &mut E,
) -> u8
    ensures printed { result ≡ 0 → Appends (W.contents out.old) (W.contents out.new)
        (removed_line arguments.entry.object) }
    ensures done { IsOk end → result ≢ 1 }
    ensures failed { IfErr end (λ failure. result ≡ failure_status failure) }
    ensures unprinted { IsErr end → W.contents out.new ≡ W.contents out.old }
    ensures range { result ≤ 3 }
    ensures no_usage { result ≢ 2 }
{
    match end {
        Ok(()) => match writeln!(out, "removed {}", arguments.object) {
            Ok(()) => 0,
            Err(_) => report_failure(Failure::Unwritten, arguments.file, verbosity, errors),
        },
        Err(failure) => report_failure(failure, arguments.file, verbosity, errors),
    }
}

// Removes an object of the pool on a device, and syncs it.
fn remove_object<R: Wait + AllocGlobal, D: SectorDevice + NotesRefusals + Drop>(
    rt: &R,
    arguments: RemoveArguments<'_>,
    device: D,
) -> (Result<(), Failure>, D)
    ensures status { IfErr result.0 (λ failure. failure_status failure ≡ 1) }
    ensures removed { RemovesOrFails D.SectorDevice device arguments.entry.moment
        (record { 0 = arguments.entry.object }) result.0 }
    ensures left { LeavesDevice D.SectorDevice
        (HasRemoved (record { 0 = arguments.entry.object }))
        (KeepsOthers (record { 0 = arguments.entry.object })) device result.0 result.1 }
{
    let alloc = rt.alloc();
    let (pool, first) = match open_alone(alloc, device, DEFAULT_DIRTY_MAX, arguments.moment) {
        Ok(opened) => opened,
        Err((refusal, device)) => return (Err(Failure::of_pool(refusal, &device)), device),
    };
    let (end, last) = remove_and_leave(rt, alloc, &pool, first, ObjectId(arguments.object));
    let device = close_alone(pool, last);
    match end {
        Ok(()) => (Ok(()), device),
        Err(refusal) => {
            let number = BadNumber::of_object(arguments.object);
            let failure = Failure::of_pool(refusal, &device).for_number(number);
            (Err(failure), device)
        }
    }
}

// Removes an object by the pool's first handle, and syncs the pool if that was committed. It returns the first refusal,
// and what the handle has seen.
fn remove_and_leave<R: Wait, D: SectorDevice>(
    rt: &R,
    alloc: Global,
    pool: &OwnedPool<D>,
    first: LastSeen<D>,
    object: ObjectId,
) -> (Result<(), PoolError>, LastSeen<D>)
    requires { IsFirstSeen (owned_of pool.now) first }
    ensures { RemovesAndLeaves (owned_of pool.entry.now) object result.0 result.1 }
{
    let mut handle = pool.handle_after(first);
    match remove(rt, alloc, &mut handle, object) {
        Ok(_) => {}
        Err(refusal) => return (Err(refusal), handle.leave()),
    }
    let end = first_refusal(Ok(()), handle.sync_pool(rt));
    (end, handle.leave())
}

// Commits the removal of an object as one transaction.
fn remove<R: Wait, D: SectorDevice>(
    rt: &R,
    alloc: Global,
    handle: &mut Handle<'_, D>,
    object: ObjectId,
) -> Result<Receipt, PoolError>
    ensures { TransactsOrLacks command_owner (Remove object ∷ []) result handle.old handle.new }
{
    let ops = Ops::new(vec![in alloc; Op::Remove(object)]?);
    handle.transact(rt, OWNER, ops)
}
