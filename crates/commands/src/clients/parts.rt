//! What callers rely on of the parts of a put.

ghost use Rattle.std.specs.Prelude.{◌≡◌, ◌≢◌, Err, Ok, false};

use crate::changes::{Put, Start, bad_number_of, first_byte, first_refusal, is_target, write_rest};
use crate::put_room::lacks_room;
use base::{Group, ObjectId, PoolError};
use device_model::SectorDevice;
use pool_threads::Handle;
use read_commands::BadNumber;
use std::sync::Wait;

fn an_object_may_have_its_last_byte_and_none_after_it() {
    let last = is_target(7, Some(28_449_791), b"1");
    let past = is_target(7, Some(28_449_792), b"1");
    prove!(last);
    prove!(!past);
}

fn an_offset_past_the_last_byte_is_named() -> BadNumber
    ensures { result ≡ BadNumber.Offset 28449792 }
{
    bad_number_of(7, Some(28_449_792), b"1")
}

fn a_put_without_an_offset_begins_at_byte_0() -> u64
    ensures { result ≡ 0 }
{
    first_byte(None)
}

fn a_refused_piece_is_told_before_a_refused_sync() -> Result<(), PoolError>
    ensures { result ≡ Err PoolError.NoSpace }
{
    first_refusal(Err(PoolError::NoSpace), Err(PoolError::Write))
}

fn a_refused_sync_is_told_if_no_piece_was_refused(
    group: Result<Group, PoolError>,
) -> Result<(), PoolError>
    requires { group ≡ Err PoolError.Write }
    ensures { result ≡ Err PoolError.Write }
{
    first_refusal(Ok(()), group)
}

// One byte needs a data block, an indirect block, a directory and the root.
#[tactic(auto, unfolding(base::specs::formats::Limits::one_level_length))]
fn a_new_object_of_one_byte_needs_four_blocks() {
    let lacks = lacks_room(Start::Creates, None, b"1", Err(PoolError::NoObject), 3);
    let fits = lacks_room(Start::Creates, None, b"1", Err(PoolError::NoObject), 4);
    prove!(lacks);
    prove!(!fits);
}

// The pool isn't synced after it.
fn a_transaction_is_counted_with_its_bytes() -> Put
    ensures bytes { result.bytes ≡ 5 }
    ensures transactions { result.transactions ≡ 1 }
    ensures unsynced { result.is_synced ≡ false }
{
    let mut put = Put::NOTHING;
    put.add(5);
    put
}

// No bytes are written by no transaction.
fn a_rest_without_bytes_makes_no_step<R: Wait, D: SectorDevice>(
    rt: &R,
    handle: &mut Handle<'_, D>,
) -> (Put, Result<(), PoolError>)
    ensures done { result.1 ≡ Ok tt }
    ensures none { result.0.transactions ≡ 0 }
    ensures unchanged { handle.new ≡ handle.old }
{
    write_rest(rt, handle, ObjectId(7), 0, &[])
}

// What was committed is not said to be synced.
fn a_rest_that_is_written_is_not_synced<R: Wait, D: SectorDevice>(
    rt: &R,
    handle: &mut Handle<'_, D>,
) -> (Put, Result<(), PoolError>)
    ensures { result.0.transactions ≢ 0 → result.0.is_synced ≡ false }
{
    write_rest(rt, handle, ObjectId(7), 0, b"12")
}
