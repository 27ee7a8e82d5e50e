//! What callers rest on: one function for each promise of this crate's calls, proved from the contract of the call
//! alone. So it is refused as soon as that contract says less.

ghost use Rattle.std.specs.Prelude.{◌≡◌};

use crate::seconds::per_second;

fn a_thousand_in_two_seconds_are_500_in_one() -> u64
    ensures { result ≡ 500 }
{
    per_second(1_000, 2_000_000)
}

// A third is rounded down.
fn four_in_three_seconds_are_one_in_a_second() -> u64
    ensures { result ≡ 1 }
{
    per_second(4, 3_000_000)
}

fn three_in_no_time_are_three_million_in_a_second() -> u64
    ensures { result ≡ 3000000 }
{
    per_second(3, 0)
}
