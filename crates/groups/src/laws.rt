//! What holds of holds and of open transactions: each function's contract is a law, and its body does nothing.

ghost use Rattle.groups.specs.Laws.{
  BeginsAreHeld,
  EndsAreReleased,
  HoldsCountTransactions,
  MovesKeepHolds,
  NewLinesHaveNoHold,
  OpenOnesAreNamedApart,
};

/// After a synced group no transaction is open, and no group has a hold.
pub fn new_lines_have_no_hold()
    ensures { NewLinesHaveNoHold }
{}

/// Holds that are exact stay so where a transaction begins.
pub fn begins_are_held()
    ensures { BeginsAreHeld }
{}

/// No two open transactions of a pool have one name.
pub fn open_ones_are_named_apart()
    ensures { OpenOnesAreNamedApart }
{}

/// A transaction that ends has a hold, and holds that are exact stay so where it ends.
pub fn ends_are_released()
    ensures { EndsAreReleased }
{}

/// Holds that are exact stay so where a group is closed, quiesced, syncing or synced.
pub fn moves_keep_holds()
    ensures { MovesKeepHolds }
{}

/// Holds that are exact tell how many transactions are open, and when the quiescing group has none.
pub fn holds_count_transactions()
    ensures { HoldsCountTransactions }
{}
