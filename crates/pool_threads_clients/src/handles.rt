//! What callers rest on of handles that are split off, joined, or come back.

ghost use Rattle.std.specs.Prelude.{◌≡◌, ◌+◌, ◌++◌, IsTrue};
ghost use Rattle.pool_threads.specs.Handles.{IsOf, IsOfSamePool, kin_of, owned_of, taken_by, turns_of, view_seen};
ghost use Rattle.pool_threads.specs.Views.{GrowsTo};
ghost use Rattle.word_lock.specs.Seats.{seen};

use device_model::SectorDevice;
use pool_threads::{Handle, OwnedPool};

fn a_handle_comes_back_with_its_turns<'p, D: SectorDevice>(
    pool: &'p OwnedPool<D>,
    handle: Handle<'p, D>,
) -> Handle<'p, D>
    requires { IsOf (owned_of pool.now) handle }
    ensures turns { turns_of result ≡ turns_of handle.entry }
    ensures seen { view_seen result ≡ view_seen handle.entry }
{
    pool.handle_after(handle.leave())
}

// A handle that was split off passes on what its source had seen, by a join.
fn a_joined_handle_goes_on_from_what_both_saw<'p, D: SectorDevice>(
    handle: &mut Handle<'p, D>,
    source: Handle<'p, D>,
)
    requires { IsOfSamePool handle.old source }
    ensures other { GrowsTo (IsTrue D.keeps_model) (view_seen source.entry) (view_seen handle.new) }
    ensures own { GrowsTo (IsTrue D.keeps_model) (view_seen handle.old) (view_seen handle.new) }
    ensures turns { turns_of handle.new ≡ turns_of handle.old }
{
    let mut source = source;
    handle.join(source.split());
}

// So a step that a body has made by a handle of its own shows in what it hands back.
fn a_joined_handle_shows_the_turns_of_the_other<'p, D: SectorDevice>(
    handle: &mut Handle<'p, D>,
    other: Handle<'p, D>,
)
    requires { IsOfSamePool handle.old other }
    ensures taken { taken_by handle.new
        ≡ taken_by handle.old ++ taken_by other.entry ++ turns_of other.entry }
    ensures number { kin_of handle.new ≡ kin_of handle.old + kin_of other.entry }
{
    handle.join(other);
}

// Also if the handle that was split off is gone.
fn a_split_shows_in_the_number<'p, D: SectorDevice>(handle: &mut Handle<'p, D>)
    ensures number { kin_of handle.new ≡ kin_of handle.old + 1 }
    ensures seen { view_seen handle.new ≡ view_seen handle.old }
{
    let _ = handle.split();
}

// So no other handle was split off on the way, of either of the two.
fn a_split_handle_has_the_number_of_its_source<'p, D: SectorDevice>(
    handle: &mut Handle<'p, D>,
) -> Handle<'p, D>
    ensures same { kin_of result ≡ kin_of handle.new }
    ensures number { kin_of result ≡ kin_of handle.old + 1 }
{
    handle.split()
}
