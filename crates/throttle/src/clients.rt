//! What callers rest on: one function for each promise of this crate's calls, proved from the contract of the call
//! alone. So it is refused as soon as that contract says less.

ghost use Rattle.std.specs.Prelude.{◌≡◌};
ghost use Rattle.throttle.specs.DirtyBytes.{sum_of, total_of};

use crate::dirty::Dirty;
use base::{Group, PoolError};

// Nothing is charged at first, and the limit is the one that was given.
fn a_new_pool_is_charged_nothing() {
    let dirty = Dirty::new(40_960, Group(8));
    prove!(dirty.limit() == 40_960);
    prove!(dirty.total() == 0);
}

// A charge that fills the limit to the last byte is admitted.
fn a_charge_up_to_the_limit_is_admitted(dirty: &mut Dirty) -> Result<(), PoolError>
    requires limit { dirty.old.limit ≡ 40960 }
    requires synced { dirty.old.synced ≡ 8 }
    requires charged { total_of dirty.old ≡ 24576 }
    ensures { result ≡ Ok tt }
{
    dirty.admit(Group(11), 16_384)
}

// One byte more is refused, and then nothing has changed.
fn a_charge_past_the_limit_is_throttled(dirty: &mut Dirty) -> Result<(), PoolError>
    requires limit { dirty.old.limit ≡ 40960 }
    requires synced { dirty.old.synced ≡ 8 }
    requires charged { total_of dirty.old ≡ 24576 }
    ensures refused { result ≡ Err PoolError.Throttled }
    ensures unchanged { dirty.new ≡ dirty.old }
{
    dirty.admit(Group(11), 16_385)
}

// The test before a charge says the same.
fn a_charge_is_tested_against_the_limit(dirty: &Dirty)
    requires limit { dirty.now.limit ≡ 40960 }
    requires charged { total_of dirty.now ≡ 24576 }
{
    prove!(!dirty.is_throttled(16_384));
    prove!(dirty.is_throttled(16_385));
}

// An admitted charge is in its group's sum, and in the total.
fn an_admitted_charge_counts(dirty: &mut Dirty)
    requires limit { dirty.old.limit ≡ 40960 }
    requires synced { dirty.old.synced ≡ 8 }
    requires charged { total_of dirty.old ≡ 12288 }
    requires sum { sum_of dirty.old 10 ≡ 8192 }
{
    dirty.admit(Group(10), 4_096).unwrap();
    prove!(dirty.of(Group(10)) == 12_288);
    prove!(dirty.total() == 16_384);
}

// The charges of the three unsynced groups count together.
fn each_of_three_groups_is_counted(dirty: &Dirty) -> u64
    requires synced { dirty.now.synced ≡ 8 }
    requires syncing { sum_of dirty.now 9 ≡ 4096 }
    requires middle { sum_of dirty.now 10 ≡ 8192 }
    requires last { sum_of dirty.now 11 ≡ 16384 }
    ensures { result ≡ 28672 }
{
    dirty.total()
}

// A charge that is taken back counts no more.
fn a_cancelled_charge_counts_no_more(dirty: &mut Dirty)
    requires synced { dirty.old.synced ≡ 8 }
    requires charged { total_of dirty.old ≡ 20480 }
    requires sum { sum_of dirty.old 9 ≡ 16384 }
{
    dirty.cancel(Group(9), 12_288);
    prove!(dirty.of(Group(9)) == 4_096);
    prove!(dirty.total() == 8_192);
}

// The charges of a group end with its sync, and the others stay.
fn a_synced_group_is_charged_nothing(dirty: &mut Dirty)
    requires synced { dirty.old.synced ≡ 8 }
    requires charged { total_of dirty.old ≡ 20480 }
    requires sum { sum_of dirty.old 9 ≡ 16384 }
{
    dirty.synced(Group(9));
    prove!(dirty.of(Group(9)) == 0);
    prove!(dirty.total() == 4_096);
}
