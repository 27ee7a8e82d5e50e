//! How long calls took, counted by slots (`slots.rt`): their middle and their percentiles.
//!
//! A percentile is the longest time of the slot that has the call of its rank, or the longest of all times if that is
//! shorter. So it is above that call's time by at most a sixteenth. The longest time is exact.

ghost use Rattle.std.specs.Prelude.{◌≡◌, ◌+◌, ◌-◌, ◌/◌, ◌<◌, ◌≤◌, ◌^◌, [], ◌∷◌, ◌++◌, IfNone, IfOk, IfSome, length, sum};
ghost use Rattle.benchmarks.specs.CallTimes.{IsSlotAt, IsTimeAt, longest_in};
ghost use Rattle.benchmarks.specs.Sums.{AreSums};

use crate::slots::{SLOTS, longest_of, slot_of};
use crate::told_times::{TimesView, no_times, with_time, with_times};
use base::Told;
use std::alloc::{AllocError, Global};
use std::marker::Model;

/// How long calls took, in microseconds.
///
/// Contracts see the list of the times, the latest first. Its memory doesn't depend on how many there are.
#[derive(Drop)]
pub struct CallTimes {
    counts: Vec<u64>,
    calls: u64,
    longest: u64,
    times: Told<TimesView>,
}

impl Model for CallTimes {
    ghost use Rattle.std.specs.Prelude.{List, ℕ};
    ghost use Rattle.benchmarks.specs.CallTimes.{AreCounted};

    ghost Value = { List ℕ };

    ghost view = { λ c. c.times.value };

    ghost invariant = { λ c. AreCounted c.times.value c.counts.items c.calls c.longest };
}

impl CallTimes {
    /// Those of no call.
    ///
    /// # Errors
    /// If there is no memory for them.
    pub fn new(alloc: Global) -> Result<CallTimes, AllocError>
        ensures { IfOk result (λ times. times ≡ []) }
    {
        Ok(CallTimes {
            counts: vec![in alloc; 0; SLOTS]?,
            calls: 0,
            longest: 0,
            times: no_times(),
        })
    }

    /// How many calls there are.
    pub fn calls(&self) -> u64
        ensures { result ≡ length self.now }
    {
        self.calls
    }

    /// How long the longest call took. 0 if there is none.
    pub fn longest(&self) -> u64
        ensures { result ≡ longest_in self.now }
    {
        self.longest
    }

    /// Notes a call that took so long. After 2^64 - 1 calls no further one is noted.
    pub fn note(&mut self, time: u64)
        ensures noted { length self.old + 1 < 2 ^ 64 → self.new ≡ time ∷ self.old }
        ensures full { 2 ^ 64 ≤ length self.old + 1 → self.new ≡ self.old }
    {
        let Some(calls) = self.calls.checked_add(1) else {
            return;
        };
        let slot = slot_of(time);
        self.counts[slot] += 1;
        self.calls = calls;
        self.longest = self.longest.max(time);
        self.times = with_time(&self.times, time);
    }

    /// Adds other calls. If all are 2^64 or more, none is added.
    pub fn add(&mut self, others: &CallTimes)
        ensures added { length self.old + length others.now < 2 ^ 64
            → self.new ≡ others.now ++ self.old }
        ensures full { 2 ^ 64 ≤ length self.old + length others.now → self.new ≡ self.old }
    {
        let Some(calls) = self.calls.checked_add(others.calls) else {
            return;
        };
        add_counts(self.counts.as_mut_slice(), others.counts.as_slice());
        self.calls = calls;
        self.longest = self.longest.max(others.longest);
        self.times = with_times(&self.times, &others.times);
    }

    /// The time that half of the calls did not exceed. 0 if there is no call.
    pub fn middle(&self) -> u64
        ensures half { 0 < length self.now
            → IsTimeAt (length self.now - length self.now / 2) self.now result }
        ensures within { result ≤ longest_in self.now }
    {
        self.time_at(self.calls - self.calls / 2)
    }

    /// The time that 99 of 100 calls did not exceed. 0 if there is no call.
    pub fn percentile_99(&self) -> u64
        ensures most { 0 < length self.now
            → IsTimeAt (length self.now - length self.now / 100) self.now result }
        ensures within { result ≤ longest_in self.now }
    {
        self.time_at(self.calls - self.calls / 100)
    }

    // The time of the call of this rank, counted from 1 in the order of the times. 0 if there is none.
    fn time_at(&self, rank: u64) -> u64
        ensures ranked { 0 < rank → rank ≤ length self.now → IsTimeAt rank self.now result }
        ensures within { result ≤ longest_in self.now }
    {
        if rank == 0 {
            return 0;
        }
        match slot_at(self.counts.as_slice(), rank) {
            Some(slot) => longest_of(slot).min(self.longest),
            None => 0,
        }
    }
}

// The slot that has the call of this rank, counted from 1. `None` if there are fewer calls.
fn slot_at(counts: &[u64], rank: u64) -> Option<usize>
    requires { 0 < rank }
    ensures found { IfSome result (IsSlotAt rank counts.now) }
    ensures none { IfNone result (sum counts.now < rank) }
{
    let mut below: u64 = 0;
    for slot in 0..counts.len() {
        let within = below.saturating_add(counts[slot]);
        if rank <= within {
            return Some(slot);
        }
        below = within;
    }
    None
}

// Adds other counts of the same slots.
fn add_counts(counts: &mut [u64], others: &[u64])
    requires slots { length others.now ≡ length counts.old }
    requires few { sum counts.old + sum others.now < 2 ^ 64 }
    ensures slots { length counts.new ≡ length counts.old }
    ensures calls { sum counts.new ≡ sum counts.old + sum others.now }
    ensures each { AreSums counts.old others.now counts.new }
{
    for slot in 0..counts.len() {
        counts[slot] += others[slot];
    }
}
