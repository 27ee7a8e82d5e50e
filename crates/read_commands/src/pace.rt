//! How often the line is written: not in the first second of a work, and then at most four times a second. Times are in
//! microseconds since the work began.

ghost use Rattle.std.specs.Prelude.{◌≡◌, ◌+◌, ◌-◌, ◌≤◌, ◌<◌, ◌^◌, None, Some, min};
ghost use Rattle.read_commands.specs.Paces.{first_text, least_stay};

/// How long a work takes before the line has a text.
const FIRST_TEXT: u64 = 1_000_000;

/// How long a text stays at least.
const LEAST_STAY: u64 = 250_000;

/// Whether a text may be written at this time, if the one before stays until another. If so, how long it stays itself.
pub(crate) fn stay_of(time: u64, before: u64) -> Option<u64>
    ensures at_first { time < first_text → result ≡ None }
    ensures early { time < before → result ≡ None }
    ensures due { first_text ≤ time → before ≤ time
        → result ≡ Some (min (time + least_stay) (2 ^ 64 - 1)) }
{
    if time < FIRST_TEXT || time < before {
        None
    } else {
        Some(time.saturating_add(LEAST_STAY))
    }
}
