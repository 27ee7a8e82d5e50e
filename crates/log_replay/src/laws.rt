//! What holds of each replay of a chain: each function's contract is a law, and its body does nothing.

ghost use Rattle.log_replay.specs.Laws.{RefusalsAgree, ReplaysStayBounded};

/// If a record is refused, not all take place, and its piece is the only one that a refusal names.
pub fn refusals_agree()
    ensures { RefusalsAgree }
{}

/// Contents within the limits of a pool stay so.
pub fn replays_stay_bounded()
    ensures { ReplaysStayBounded }
{}
