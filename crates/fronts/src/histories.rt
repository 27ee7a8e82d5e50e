//! What holds of every run whose groups rise with the ordinals: each function's contract is a law, and its body does
//! nothing.

ghost use Rattle.fronts.specs.Fronts.{CutsAreFronts, FrontsAreCuts, FrontsNeedRising, MarkedFrontsAreFirst, RoundsLeadByFronts, SafeDisksLeaveFronts, StepsKeepRising, TurnsKeepRising};

/// Marks with nothing unmarked before a marked one keep the first entries.
pub fn marked_fronts_are_first()
    ensures { MarkedFrontsAreFirst }
{}

/// Where groups rise, what a crash leaves of a run is a front: the first entries, with every acknowledged one.
pub fn cuts_are_fronts()
    ensures { CutsAreFronts }
{}

/// A front is also a cut with every acknowledged entry. So where groups rise, a front is just what is promised.
pub fn fronts_are_cuts()
    ensures { FrontsAreCuts }
{}

/// Where every fair image of a crash mounts a cut, it mounts a front if groups rise.
pub fn safe_disks_leave_fronts()
    ensures { SafeDisksLeaveFronts }
{}

/// After rounds with crashes between them a front of each is left, one upon the other, if groups rise in each.
pub fn rounds_lead_by_fronts()
    ensures { RoundsLeadByFronts }
{}

/// Where each tree leaves a front without a log, groups rise. So the premise is needed.
pub fn fronts_need_rising()
    ensures { FrontsNeedRising }
{}

/// A step that commits nothing into a closed group keeps groups rising.
pub fn steps_keep_rising()
    ensures { StepsKeepRising }
{}

/// A transaction that begins and commits with no step between goes into the open group, and keeps groups rising.
pub fn turns_keep_rising()
    ensures { TurnsKeepRising }
{}
