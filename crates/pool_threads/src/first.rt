//! The view of a pool as it is opened.
ghost use Rattle.std.specs.Prelude.{◌≡◌, IsTrue};
ghost use Rattle.pool_threads.specs.Handles.{IsReadyToOpen, StartsBehind};
ghost use Rattle.pool_threads.specs.Views.{SeenPool, view_behind_disk};

use crate::rule::PoolView;
use base::Told;
use device_model::SectorDevice;
use import_replay::Imported;
use pool_core::PoolState;
use std::snapshot::Snapshot;

/// The view that the caller's proof picks.
pub(crate) fn first_view<D: SectorDevice>(state: &PoolState<D>) -> Told<PoolView>
    ghost first: { SeenPool }
    ensures { result.value ≡ first }
{
    Told::of(state)
}

/// The view of a pool in which nothing has happened yet, after whichever run left the disk of a device before the
/// import.
pub(crate) fn view_behind<'a, D: SectorDevice>(
    before: &'a Snapshot<D>,
    state: &'a PoolState<D>,
) -> Told<PoolView>
    ensures { result.value ≡ view_behind_disk state.now (D.disk before.now.value) }
{
    Told::of(&(before, state))
}

/// The pool that an import gave, which that view explains.
pub(crate) fn state_behind<D: SectorDevice>(
    imported: Imported<D>,
    before: &Snapshot<D>,
) -> PoolState<D>
    requires { IsTrue D.keeps_model → StartsBehind (D.disk before.now.value)
        imported.mounted (D.disk imported.device) }
    ensures { IsReadyToOpen (D.disk before.now.value) imported.mounted imported.cache.cap
        imported.device result }
{
    PoolState::new(imported)
}
