//! Times in microseconds and rates by the second. What isn't whole is rounded down.

ghost use Rattle.std.specs.Prelude.{◌≡◌};
ghost use Rattle.rates.specs.Rates.{rate_of};

use std::time::Duration;

/// A time in microseconds, rounded down, at most 2^64 - 1.
pub fn in_microseconds(time: Duration) -> u64 {
    u64::try_from(time.as_micros()).unwrap_or(u64::MAX)
}

/// How many of a count there were in a second, rounded down, if so many microseconds passed. No time counts as one
/// microsecond.
pub fn per_second(count: u64, microseconds: u64) -> u64
    ensures { result ≡ rate_of count microseconds }
{
    let rate = u128::from(count) * 1_000_000 / u128::from(microseconds.max(1));
    u64::try_from(rate).unwrap_or(u64::MAX)
}
