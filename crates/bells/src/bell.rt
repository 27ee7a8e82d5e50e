//! A bell: threads sleep by it until it is rung. No clause rests on it, since each that sleeps looks again by itself
//! after a time.
//!
//! 1. Who waits reads how often the bell was rung, then looks at the pool, and sleeps only if it was not rung since.
//! 2. Who rings has changed the pool before. So a change comes before the look, which then sees it, or its ring ends
//!    the sleep: no ring is lost. A number that is read after the look would lose those between.
//! 3. The lowest bit of the number says that one may sleep. A sleeper sets it, and sleeps while the number with that
//!    bit stays. A ring counts first. If the bit is set it clears it and wakes all, so the next ring makes no system
//!    call, also while those that were woken have not run yet. One that sets the bit between the count and the clearing
//!    sees the number change, or is woken with the others.

use crossbeam_utils::Backoff;
use std::sync::Wait;
use std::sync::atomic::{AtomicU64, Ordering};
use std::time::Duration;

// The longest sleep of a thread that others wake for each change that it waits for, and of one that they may not.
const LONG_TIME_IN_MICROSECONDS: u64 = 100_000;

const SHORT_TIME_IN_MICROSECONDS: u64 = 500;

// The bit that says that one may sleep, and one ring in the count above it.
const ASLEEP: u64 = 1;

const RING: u64 = 2;

/// How often it was rung, and whether one may sleep until it is.
#[derive(Drop)]
pub struct Bell {
    word: AtomicU64,
}

impl Bell {
    /// A bell that was never rung.
    pub fn new() -> Self {
        Bell {
            word: AtomicU64::new(0),
        }
    }

    /// A number that each ring changes.
    pub fn rings(&self) -> u64 {
        self.word.load(Ordering::SeqCst) & !ASLEEP
    }

    /// Rings, and wakes all that sleep.
    pub fn ring(&self) {
        let found = self.word.fetch_add(RING, Ordering::SeqCst);
        if found & ASLEEP != 0 {
            self.word.fetch_and(!ASLEEP, Ordering::SeqCst);
            self.word.wake_all();
        }
    }

    /// Sleeps until it is rung after `rings` was read, or for a long time.
    pub fn sleep<W: Wait>(&self, rt: &W, rings: u64) {
        self.sleep_for(rt, rings, LONG_TIME_IN_MICROSECONDS);
    }

    /// Sleeps until it is rung after `rings` was read, or for a short time.
    pub fn sleep_briefly<W: Wait>(&self, rt: &W, rings: u64) {
        self.sleep_for(rt, rings, SHORT_TIME_IN_MICROSECONDS);
    }

    /// Backs off at first, and then sleeps as `sleep_briefly` does.
    pub fn rest<W: Wait>(&self, rt: &W, backoff: &Backoff, rings: u64) {
        if backoff.is_completed() {
            self.sleep_briefly(rt, rings);
        } else {
            backoff.snooze();
        }
    }

    /// Sleeps until it is rung after `rings` was read, or for so long.
    pub fn sleep_for<W: Wait>(&self, rt: &W, rings: u64, micros: u64) {
        if self.rings() != rings {
            return;
        }
        self.word.fetch_or(ASLEEP, Ordering::SeqCst);
        let asleep = (rings | ASLEEP) % (1 << 32);
        let time = Duration::from_micros(micros);
        self.word.park_timeout(rt, asleep as u32, time);
    }
}
