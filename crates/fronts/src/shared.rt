//! What holds of pools that several handles share: each function's contract is a law, and its body does nothing.
//!
//! 1. Each turn with the lock keeps groups rising in which a whole transaction was made, or nothing was committed. So it
//!    is whoever had the lock, and whatever other handles did before and after.
//! 2. What each call of a handle did in its turns its own clauses say. That other handles did no more, no clause of a
//!    pool says: its last state tells of one handle's turns. So this is a premise of `shared_pools_leave_fronts`.

ghost use Rattle.fronts.specs.SharedPools.{OpenedPoolsAreInOrder, OrderlyTurnsStayInOrder, OtherCallsTakeOrderlyTurns, SharedPoolsLeaveFronts, TransactsTakeOrderlyTurns};

use device_model::SectorDevice;

/// Turns of whichever handles keep groups rising if each makes whole transactions or commits nothing. A crash at any
/// moment of them leaves a front.
pub fn orderly_turns_stay_in_order()
    ensures { OrderlyTurnsStayInOrder }
{}

/// A call that makes whole transactions has such turns and no others, whatever other handles do beside it.
pub fn transacts_take_orderly_turns<D: SectorDevice>()
    ensures { TransactsTakeOrderlyTurns D.SectorDevice }
{}

/// So has a call that commits nothing.
pub fn other_calls_take_orderly_turns<D: SectorDevice>()
    ensures { OtherCallsTakeOrderlyTurns D.SectorDevice }
{}

/// Groups rise as a pool is opened, shared or not, and a crash then leaves a front.
pub fn opened_pools_are_in_order<D: SectorDevice>()
    ensures { OpenedPoolsAreInOrder D.SectorDevice }
{}

/// If all handles of a shared pool had such turns, a crash at any moment from its open to its end leaves a front of all
/// that was committed, whoever committed it.
pub fn shared_pools_leave_fronts<D: SectorDevice>()
    ensures { SharedPoolsLeaveFronts D.SectorDevice }
{}
