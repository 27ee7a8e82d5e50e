//! What callers rest on: one function for each promise of this crate's calls, proved from the contract of the call
//! alone. So it is refused as soon as that contract says less.

ghost use Rattle.std.specs.Prelude.{◌≡◌, ◌+◌, ◌<◌};
ghost use Rattle.base.specs.formats.Limits.{last_number};

use crate::line::Groups;
use base::{Group, PoolError};

// Only the group after the synced one is open at first, and nothing syncs.
fn a_new_line_has_one_open_group() {
    let groups = Groups::new(Group(8));
    prove!(groups.synced() == Group(8));
    prove!(groups.open_group() == Group(9));
    prove!(groups.syncing().is_none());
    prove!(groups.middle().is_none());
}

// A second transaction begins in the open group, too.
fn a_second_transaction_may_begin() {
    let mut groups = Groups::new(Group(8));
    groups.hold().unwrap();
    let second = groups.hold();
    prove!(second == Ok(Group(9)));
}

// No transaction begins while 64 are open, those of both groups together.
fn a_sixty_fifth_transaction_is_refused(groups: &mut Groups) -> Result<Group, PoolError>
    requires { groups.old.open_holds + groups.old.middle_holds ≡ 64 }
    ensures refused { result ≡ Err PoolError.NotReady }
    ensures unchanged { groups.new ≡ groups.old }
{
    groups.hold()
}

// A group that is closed keeps the hold of its transaction.
fn a_closed_group_keeps_its_holds() {
    let mut groups = Groups::new(Group(8));
    groups.hold().unwrap();
    groups.close_open().unwrap();
    let group = groups.mark_quiesced();
    prove!(group == Err(PoolError::NotReady));
}

// A group that is closed without a transaction is ready to be quiesced, and stays as it is.
fn a_group_without_holds_is_ready_to_quiesce() {
    let mut groups = Groups::new(Group(8));
    groups.close_open().unwrap();
    let ready = groups.ready_to_quiesce();
    prove!(ready == Ok(Group(9)));
    let again = groups.ready_to_quiesce();
    prove!(again == Ok(Group(9)));
}

// A group is closed only once the middle is free again.
fn a_second_group_is_not_closed() {
    let mut groups = Groups::new(Group(8));
    groups.close_open().unwrap();
    let next = groups.close_open();
    prove!(next == Err(PoolError::NotReady));
}

// The group with the last number stays open.
fn the_last_group_is_not_closed(groups: &mut Groups) -> Result<Group, PoolError>
    requires { groups.old.line.open_group ≡ last_number }
    ensures { result ≡ Err PoolError.NotReady }
{
    groups.close_open()
}

// A transaction of the group before the middle one has no hold to release.
fn a_hold_of_another_group_is_not_released() {
    let mut groups = Groups::new(Group(8));
    groups.hold().unwrap();
    groups.close_open().unwrap();
    let released = groups.release(Group(8));
    prove!(released == Err(PoolError::NotReady));
}

// Once its transaction has ended the closed group is quiesced, and its sync may start.
fn a_released_group_is_ready_to_sync() {
    let mut groups = Groups::new(Group(8));
    groups.hold().unwrap();
    groups.close_open().unwrap();
    groups.release(Group(9)).unwrap();
    groups.mark_quiesced().unwrap();
    let group = groups.ready_to_sync();
    prove!(group == Ok(Group(9)));
}

// A group that still quiesces is not ready to sync.
fn no_sync_starts_of_a_quiescing_group() {
    let mut groups = Groups::new(Group(8));
    groups.close_open().unwrap();
    prove!(groups.ready_to_sync() == Err(PoolError::NotReady));
}

// While a group syncs no other sync starts, and the next group is open.
fn no_second_sync_starts() {
    let mut groups = Groups::new(Group(8));
    groups.close_open().unwrap();
    groups.mark_quiesced().unwrap();
    groups.start_sync().unwrap();
    prove!(groups.syncing() == Some(Group(9)));
    let second = groups.start_sync();
    prove!(second == Err(PoolError::NotReady));
}

// After its sync a group is the synced one, and none is syncing.
fn a_finished_sync_is_over() {
    let mut groups = Groups::new(Group(8));
    groups.close_open().unwrap();
    groups.mark_quiesced().unwrap();
    groups.start_sync().unwrap();
    groups.finish_sync().unwrap();
    prove!(groups.synced() == Group(9));
    prove!(groups.syncing().is_none());
}
