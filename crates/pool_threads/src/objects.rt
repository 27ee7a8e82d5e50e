//! The objects of a pool, as a handle lists them.
ghost use Rattle.std.specs.Prelude.{◌≡◌, ◌≢◌, ◌≤◌, ◌-◌, [], IfErr, IfOk, false, min, take, true, vec_capacity};
ghost use Rattle.base.specs.formats.Limits.{object_count};
ghost use Rattle.pool_core.specs.States.{shown};
ghost use Rattle.pool_threads.specs.Answers.{state_seen};
ghost use Rattle.pool_threads.specs.Objects.{IsListRefusal, Lists, objects_from};

use crate::handle::Handle;
use base::{OBJECT_COUNT, ObjectId, PoolError};
use device_model::SectorDevice;
use pool_core::PoolState;
use std::sync::Wait;
use word_lock::release;

impl<'p, D: SectorDevice> Handle<'p, D> {
    /// The first `most` objects from a number on, rising, each with its length in bytes. All are of one moment.
    ///
    /// A list that is shorter than `most` has all objects from there on. `ObjectId(0)` and `usize::MAX` list all. Else
    /// the next call goes on from the number after the last one; what others change between two calls shows in the
    /// second.
    ///
    /// # Errors
    /// In this order, and then nothing has changed:
    /// - `NoMemory` if there is none for the list.
    /// - `Suspended`.
    pub fn objects<'a, 'b, W: Wait>(
        &'a mut self,
        rt: &'b W,
        from: ObjectId,
        most: usize,
    ) -> Result<Vec<(ObjectId, u64)>, PoolError>
        ensures listed { IfOk result (λ list. Lists from.0 most list.items self.old self.new) }
        ensures running { IfOk result (λ _. (state_seen self.new).shown.suspended ≡ false) }
        ensures refused { IfErr result (λ e. IsListRefusal e self.old self.new) }
    {
        let list = Vec::with_capacity(self.shared.alloc, room(from, most))?;
        let guard = self.seat.acquire(rt, &self.shared.lock);
        let listed = list_objects(&guard.held.value, from, most, list);
        release(guard);
        listed
    }
}

// How many objects there may be in such a list.
fn room(from: ObjectId, most: usize) -> usize
    ensures { result ≡ min most (object_count - from.0) }
{
    most.min(OBJECT_COUNT.saturating_sub(from.0) as usize)
}

// Whether each step is refused `Suspended`: one that asks for an object's length too.
fn is_suspended<D: SectorDevice>(state: &PoolState<D>) -> bool
    ensures suspended { result ≡ true → (shown state.now).suspended ≡ true }
    ensures running { result ≡ false → (shown state.now).suspended ≡ false }
{
    match state.length(ObjectId(0)) {
        Ok(_) => false,
        Err(error) => is_suspension(error),
    }
}

fn is_suspension(error: PoolError) -> bool
    ensures yes { result ≡ true → error ≡ PoolError.Suspended }
    ensures no { result ≡ false → error ≢ PoolError.Suspended }
{
    error == PoolError::Suspended
}

// The first objects from a number on, in a list that has room for them.
fn list_objects<D: SectorDevice>(
    state: &PoolState<D>,
    from: ObjectId,
    most: usize,
    list: Vec<(ObjectId, u64)>,
) -> Result<Vec<(ObjectId, u64)>, PoolError>
    requires empty { list.items ≡ [] }
    requires room { min most (object_count - from.0) ≤ vec_capacity list }
    ensures listed { IfOk result
        (λ l. l.items ≡ take most (objects_from from.0 (shown state.now).contents)) }
    ensures running { IfOk result (λ _. (shown state.now).suspended ≡ false) }
    ensures refused { IfErr result
        (λ e. (e ≡ PoolError.Suspended) × ((shown state.now).suspended ≡ true)) }
{
    if is_suspended(state) {
        return Err(PoolError::Suspended);
    }
    let mut list = list;
    for number in from.0..OBJECT_COUNT {
        if list.len() == most {
            return Ok(list);
        }
        if let Ok(length) = state.length(ObjectId(number)) {
            list.push_reserved((ObjectId(number), length));
        }
    }
    Ok(list)
}
