//! The times of calls, which contracts see and which don't stand in memory.

ghost use Rattle.std.specs.Prelude.{◌≡◌, ◌++◌, [], ◌∷◌};

use base::Told;
use std::marker::{Model, PhantomData};

/// The times of calls in microseconds, the latest first. No value of it is made.
pub struct TimesView {
    of: PhantomData<u8>,
}

impl Model for TimesView {
    ghost use Rattle.std.specs.Prelude.{List, ℕ, []};
    ghost use Rattle.std.specs.Coded.{coded_ℕ, coded_list};

    ghost Value = { List ℕ };

    ghost coded = { coded_list coded_ℕ };

    ghost view = { λ _. [] };
}

/// Those of no call.
pub(crate) fn no_times() -> Told<TimesView>
    ensures { result.value ≡ [] }
{
    Told::of(&0u8)
}

/// The times with one more.
pub(crate) fn with_time(times: &Told<TimesView>, time: u64) -> Told<TimesView>
    ensures { result.value ≡ time ∷ times.now.value }
{
    Told::of(&(times, time))
}

/// The times with those of other calls before them.
pub(crate) fn with_times(times: &Told<TimesView>, others: &Told<TimesView>) -> Told<TimesView>
    ensures { result.value ≡ others.now.value ++ times.now.value }
{
    Told::of(&(times, others))
}
