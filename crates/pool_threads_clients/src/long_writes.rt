//! What callers rest on of `write_long`.

ghost use Rattle.std.specs.Prelude.{◌≡◌, ◌≤◌, ◌<◌, ◌⊎◌, ◌+◌, [], ◌∷◌, Err, IfErr, IfOk, drop, length, take};
ghost use Rattle.base.specs.declared.names.Receipt.{Receipt};
ghost use Rattle.base.specs.declared.operation.Op.TheVariants.{Write};
ghost use Rattle.pool_threads.specs.Answers.{Sees};
ghost use Rattle.pool_threads.specs.Handles.{kin_of, moment_of};
ghost use Rattle.pool_threads.specs.Transacts.{IsTransacted};

use base::{ObjectId, Owner, PoolError, Receipt};
use device_model::SectorDevice;
use pool_threads::Handle;
use std::sync::Wait;

// So they take place as a whole, or not at all.
fn a_long_write_of_one_piece_is_one_transaction<D: SectorDevice, W: Wait>(
    rt: &W,
    handle: &mut Handle<'_, D>,
    bytes: &[u8],
) -> Result<Receipt, (PoolError, u64)>
    requires { length bytes.now ≤ 64512 }
    ensures { IfOk result (λ r. Sees (IsTransacted
        (Write (record { 0 = 5 }) 7 bytes.now ∷ []) r) handle.old handle.new) }
{
    handle.write_long(rt, Owner(3), ObjectId(5), 7, bytes)
}

// The receipt is that of the second.
fn a_long_write_of_two_pieces_is_two_transactions<D: SectorDevice, W: Wait>(
    rt: &W,
    handle: &mut Handle<'_, D>,
    bytes: &[u8],
) -> Result<Receipt, (PoolError, u64)>
    requires more { 64512 < length bytes.now }
    requires fits { length bytes.now ≤ 129024 }
    ensures { IfOk result (λ r. (first : Receipt)
        × Sees (IsTransacted (Write (record { 0 = 5 }) 7 (take 64512 bytes.now) ∷ []) first)
        handle.old handle.new
        × Sees (IsTransacted (Write (record { 0 = 5 }) 64519 (drop 64512 bytes.now) ∷ []) r)
        handle.old handle.new) }
{
    handle.write_long(rt, Owner(3), ObjectId(5), 7, bytes)
}

// It tells how many bytes those are: none, or the first piece.
fn a_refused_long_write_leaves_the_pieces_before_it<D: SectorDevice, W: Wait>(
    rt: &W,
    handle: &mut Handle<'_, D>,
    bytes: &[u8],
) -> Result<Receipt, (PoolError, u64)>
    requires more { 64512 < length bytes.now }
    requires fits { length bytes.now ≤ 129024 }
    ensures { IfErr result (λ e. (e.1 ≡ 0) ⊎ ((e.1 ≡ 64512) × ((first : Receipt)
        × Sees (IsTransacted (Write (record { 0 = 5 }) 7 (take 64512 bytes.now) ∷ []) first)
        handle.old handle.new))) }
{
    handle.write_long(rt, Owner(3), ObjectId(5), 7, bytes)
}

fn a_long_write_past_the_longest_object_does_nothing<D: SectorDevice, W: Wait>(
    rt: &W,
    handle: &mut Handle<'_, D>,
    offset: u64,
    bytes: &[u8],
) -> Result<Receipt, (PoolError, u64)>
    requires { 28449792 < offset + length bytes.now }
    ensures refused { result ≡ Err (PoolError.BadRange, 0) }
    ensures unchanged { handle.new ≡ handle.old }
{
    handle.write_long(rt, Owner(3), ObjectId(5), offset, bytes)
}

// Also if it is refused.
fn a_long_write_of_the_only_handle_leaves_nothing_of_its_own<D: SectorDevice, W: Wait>(
    rt: &W,
    handle: &mut Handle<'_, D>,
    offset: u64,
    bytes: &[u8],
) -> Result<Receipt, (PoolError, u64)>
    ensures locks { kin_of handle.old ≡ 0
        → Sees (λ before after. after.shown.locks ≡ before.shown.locks) handle.old handle.new }
    ensures transactions { kin_of handle.old ≡ 0
        → Sees (λ before after. after.shown.transactions ≡ before.shown.transactions)
        handle.old handle.new }
    ensures number { kin_of handle.new ≡ kin_of handle.old }
    ensures moment { moment_of handle.new ≡ moment_of handle.old }
{
    handle.write_long(rt, Owner(3), ObjectId(5), offset, bytes)
}
