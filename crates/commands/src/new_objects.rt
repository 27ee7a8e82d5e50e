//! A new object with a name: its number, and the transactions that make it.
//!
//! 1. The first transaction makes the object, writes its name and puts the first of its bytes. So no crash leaves the
//!    one without the other.
//! 2. The first name of a pool makes object 0 as well, if it isn't there, and writes the header.

ghost use Rattle.std.specs.Prelude.{◌≡◌, ◌≤◌, ◌*◌, IfOk, length, min, true};
ghost use Rattle.running_pools.specs.Commits.{MakesFirst};
ghost use Rattle.commands.specs.Puts.{is_target};
ghost use Rattle.commands.specs.NamedOps.{naming_ops, naming_transactions, table_ops};
ghost use Rattle.commands.specs.NewObjects.{FindsNew, PutsNew, lacks_room_beside};
ghost use Rattle.object_names.specs.NameTables.{has_object};
ghost use Rattle.object_names.specs.Names as names;
ghost use Rattle.pool_threads.specs.LongWrites.{piece_size};

use crate::changes::{Put, Start, first_byte, first_refusal, write_rest};
use crate::named_steps::{NameRefusal, by_engine, commit, slot_op};
use crate::put_room::lacks_room;
use base::{Bytes, ObjectId, Op, Ops, PoolError};
use device_model::SectorDevice;
use object_names::{NameTable, header_slot};
use pool_threads::{Handle, PIECE_SIZE};
use read_commands::NameCause;
use std::alloc::{AllocError, Global};
use std::sync::Wait;

/// The blocks that the writes of the header and of one slot make at most: two records, two indirect blocks and a top.
const TABLE_BLOCKS: u64 = 5;

/// The most operations that make an object with its name.
const MOST_OPS: usize = 5;

/// Bytes for the object of a name.
#[derive(Clone, Copy)]
pub(crate) struct NamedBytes<'a> {
    /// The name.
    pub name: &'a str,
    /// Where they go in the object, if they don't replace all of it.
    pub offset: Option<u64>,
    /// The bytes.
    pub bytes: &'a [u8],
}

/// An object that is to be made.
#[derive(Clone, Copy)]
struct NewObject {
    object: ObjectId,
    // whether object 0 is there
    has_table: bool,
}

/// Puts bytes into a new object of a name that the table of names doesn't have, and syncs the pool, also after a refusal.
/// Without room for all bytes it puts none.
pub(crate) fn put_new<R: Wait, D: SectorDevice>(
    rt: &R,
    alloc: Global,
    handle: &mut Handle<'_, D>,
    table: &NameTable,
    given: NamedBytes<'_>,
) -> (Put, Result<(), NameRefusal>)
    requires name { names.IsName given.name.now }
    requires target { is_target 0 given.offset given.bytes.now ≡ true }
    ensures { PutsNew table.now given.entry.name.now given.entry.offset given.entry.bytes.now
        result.0 result.1 handle.old handle.new }
{
    let new = match find_new(rt, handle, table, given) {
        Ok(new) => new,
        Err(refusal) => return (Put::NOTHING, Err(refusal)),
    };
    let (mut put, made) = put_pieces(rt, alloc, handle, table, new, given);
    if put.transactions == 0 {
        return (put, by_engine(made));
    }
    let synced = handle.sync_pool(rt);
    put.is_synced = synced.is_ok();
    (put, by_engine(first_refusal(made, synced)))
}

// The lowest number that has no name and no object. Without room for all bytes there is none.
fn find_new<R: Wait, D: SectorDevice>(
    rt: &R,
    handle: &mut Handle<'_, D>,
    table: &NameTable,
    given: NamedBytes<'_>,
) -> Result<NewObject, NameRefusal>
    requires { is_target 0 given.offset given.bytes.now ≡ true }
    ensures { FindsNew table.now given.entry.offset given.entry.bytes.now result
        handle.old handle.new }
{
    let objects = match handle.objects(rt, ObjectId(0), usize::MAX) {
        Ok(objects) => objects,
        Err(refusal) => return Err(NameRefusal::Engine(refusal)),
    };
    let object = match table.free_number(&objects) {
        Some(object) => object,
        None => return Err(NameRefusal::Name(NameCause::NoNumber)),
    };
    let status = handle.status(rt);
    if lacks_room_beside(given, status.available) {
        return Err(NameRefusal::Engine(PoolError::NoSpace));
    }
    let has_table = has_first(&objects);
    Ok(NewObject { object, has_table })
}

// Whether a new object lacks room for these bytes beside the blocks of its name, if so many are available.
fn lacks_room_beside(given: NamedBytes<'_>, available: u64) -> bool
    requires { is_target 0 given.offset given.bytes.now ≡ true }
    ensures { result ≡ lacks_room_beside given.entry.offset given.entry.bytes.now available }
{
    let left = available.saturating_sub(TABLE_BLOCKS);
    let found = Err(PoolError::NoObject);
    lacks_room(Start::Creates, given.offset, given.bytes, found, left)
}

// Whether object 0 is one of these.
fn has_first(objects: &[(ObjectId, u64)]) -> bool
    ensures { result ≡ has_object objects.now 0 }
{
    objects.iter().any(|object| object.0.0 == 0)
}

// Commits the pieces of these bytes in order, up to the first that is refused. The first one also makes the object and
// writes its name.
fn put_pieces<R: Wait, D: SectorDevice>(
    rt: &R,
    alloc: Global,
    handle: &mut Handle<'_, D>,
    table: &NameTable,
    new: NewObject,
    given: NamedBytes<'_>,
) -> (Put, Result<(), PoolError>)
    requires name { names.IsName given.name.now }
    requires target { is_target 0 given.offset given.bytes.now ≡ true }
    ensures made { MakesFirst (naming_transactions new.has_table table.now new.object
        given.entry.name.now given.entry.offset given.entry.bytes.now)
        result.0.transactions result.1 handle.old handle.new }
    ensures size { result.0.bytes
        ≡ min (piece_size * result.0.transactions) (length given.entry.bytes.now) }
{
    let at = first_byte(given.offset);
    let (first, rest) = given.bytes.split_at(PIECE_SIZE.min(given.bytes.len()));
    let ops = ops_of(alloc, table, new, given.name, at, first);
    match commit(rt, handle, ops) {
        Ok(_) => {}
        Err(refusal) => return (Put::NOTHING, Err(refusal)),
    }
    let after = at + first.len() as u64;
    let (mut put, made) = write_rest(rt, handle, new.object, after, rest);
    put.add(first.len());
    (put, made)
}

// The operations of the transaction that makes an object with its name and this piece of its bytes.
fn ops_of(
    alloc: Global,
    table: &NameTable,
    new: NewObject,
    name: &str,
    at: u64,
    piece: &[u8],
) -> Result<Ops, AllocError>
    requires { names.IsName name.now }
    ensures { IfOk result (λ ops. ops ≡ naming_ops new.has_table table.now new.object name.now
        at piece.now) }
{
    let slot = slot_op(alloc, new.object, name.as_bytes())?;
    let mut ops = table_ops(alloc, table, new.has_table)?;
    ops.push(slot)?;
    ops.push(Op::Create(new.object))?;
    if !piece.is_empty() {
        ops.push(Op::Write(new.object, at, Bytes::from_slice(alloc, piece)?))?;
    }
    Ok(Ops::new(ops))
}

// The operations that make object 0 a table of names.
fn table_ops(alloc: Global, table: &NameTable, has_table: bool) -> Result<Vec<Op>, AllocError>
    ensures { IfOk result (λ ops. ops.items ≡ table_ops has_table table.now) }
{
    let mut ops = Vec::with_capacity(alloc, MOST_OPS)?;
    if !has_table {
        ops.push_reserved(Op::Create(ObjectId(0)));
    }
    if table.is_empty() {
        let header = Bytes::from_slice(alloc, &header_slot())?;
        ops.push_reserved(Op::Write(ObjectId(0), 0, header));
    }
    Ok(ops)
}
