//! What holds of the ranges to lock: the function's contract is a law, and its body does nothing.

ghost use Rattle.transactions.specs.LockRanges.{LockRangesRise};

/// None of the ranges that a plan has to lock begins before one that it follows, by object and then by low end.
pub fn lock_ranges_rise()
    ensures { LockRangesRise }
{}
