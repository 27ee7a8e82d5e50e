//! What holds of the dirty bytes: each function's contract is a law, and its body does nothing.
//!
//! A transaction is charged a block's bytes for each block that it is estimated at, and so many blocks are reserved for
//! it. So a pool stores its sums of bytes alone: what it shows as reserved is their blocks.

ghost use Rattle.throttle.specs.Laws.{
  AbortsAreShown,
  AdmissionsAreShown,
  AdmitsAreEntered,
  BlocksFollowSums,
  CancelsUndoAdmits,
  HoldingGroupsAreCharged,
  NewSumsAreOnLines,
  NewSumsAreShown,
  OpenOnesStayCharged,
  PlansAskForBlocks,
  ShownTotalsAgree,
  SumsStayOnLines,
  SyncsAreShown,
  TotalsAgree,
};

/// Where the sums are those of a running pool, so is the total.
pub fn totals_agree()
    ensures { TotalsAgree }
{}

/// A charge that is taken back leaves all as it was before.
pub fn cancels_undo_admits()
    ensures { CancelsUndoAdmits }
{}

/// A charge of some bytes is an entry of the map of sums.
pub fn admits_are_entered()
    ensures { AdmitsAreEntered }
{}

/// An allowed plan asks for a block at least, so its charge is an entry of the map.
pub fn plans_ask_for_blocks()
    ensures { PlansAskForBlocks }
{}

/// The blocks follow the sums: of each group, after the admission of a plan and its end, and after a sync.
pub fn blocks_follow_sums()
    ensures { BlocksFollowSums }
{}

/// A pool that shows nothing as charged or reserved shows new sums.
pub fn new_sums_are_shown()
    ensures { NewSumsAreShown }
{}

/// Where a pool shows the sums, it still does after an admission that is charged.
pub fn admissions_are_shown()
    ensures { AdmissionsAreShown }
{}

/// And after the end of a transaction that is given up.
pub fn aborts_are_shown()
    ensures { AbortsAreShown }
{}

/// And after the last step of a sync.
pub fn syncs_are_shown()
    ensures { SyncsAreShown }
{}

/// The totals of a pool that shows the sums of its line are theirs: that of its dirty bytes, and that of its reserved
/// blocks.
pub fn shown_totals_agree()
    ensures { ShownTotalsAgree }
{}

/// Bytes may be charged to each group that may have open transactions.
pub fn holding_groups_are_charged()
    ensures { HoldingGroupsAreCharged }
{}

/// New sums are of a line's groups.
pub fn new_sums_are_on_lines()
    ensures { NewSumsAreOnLines }
{}

/// They stay so: with charges of whole blocks and without them again, and as groups are closed and synced.
pub fn sums_stay_on_lines()
    ensures { SumsStayOnLines }
{}

/// Where each group is charged for its open transactions it stays so: with one more, as they end, and as groups are
/// synced.
pub fn open_ones_stay_charged()
    ensures { OpenOnesStayCharged }
{}
