//! Who writes and flushes the log for handles that wait at the same time (`zil_commit_waiter` in `zil.c`). No clause
//! rests on it: a handle that waits makes the steps that are due, whoever leads.
//!
//! 1. One handle at a time leads: it writes what is pending and flushes. The others rest until its round ends, and then
//!    look at their receipts again.
//! 2. A leader gathers first: it sleeps until as many handles have come as came to the last round, for at most a short
//!    time. If fewer come, the next leader expects half of the difference less. A flush costs far more than that sleep,
//!    and serves all commits that come in it.
//! 3. The last handle that a leader expects wakes it. A leader says that it gathers before it counts those that came,
//!    and a handle counts itself before it looks whether one gathers, so one of the two sees the other.
//! 4. Each leader retires, also if it was refused, so there is always a next one.

use crate::bell::Bell;
use std::sync::Wait;
use std::sync::atomic::{AtomicU64, Ordering};
use std::time::Duration;

// The longest that a leader sleeps until others have come.
const GATHER_TIME_IN_MICROSECONDS: u64 = 300;

/// The handles of a pool that wait for their commits to be durable.
#[derive(Drop)]
pub struct Flushers {
    // 1 while a handle leads
    leading: AtomicU64,
    // 1 while the leader sleeps until others have come
    gathering: AtomicU64,
    // rung when a round has ended
    rounds: Bell,
    // how often a handle began to wait: now, when this round was gathered, and when the round before it was
    entered: AtomicU64,
    gathered: AtomicU64,
    gathered_before: AtomicU64,
    // how many handles the next leader waits for
    expected: AtomicU64,
}

impl Flushers {
    /// None that waits yet.
    pub fn new() -> Self {
        Flushers {
            leading: AtomicU64::new(0),
            gathering: AtomicU64::new(0),
            rounds: Bell::new(),
            entered: AtomicU64::new(0),
            gathered: AtomicU64::new(0),
            gathered_before: AtomicU64::new(0),
            expected: AtomicU64::new(0),
        }
    }

    /// A handle begins to wait. It wakes the leader if it is the last one that the leader expects.
    pub fn enter(&self) {
        self.entered.fetch_add(1, Ordering::SeqCst);
        if self.gathering.load(Ordering::SeqCst) == 0 || !self.have_come() {
            return;
        }
        if self.gathering.swap(0, Ordering::SeqCst) != 0 {
            self.gathering.wake_all();
        }
    }

    /// A number that each end of a round changes.
    pub fn rounds(&self) -> u64 {
        self.rounds.rings()
    }

    /// Whether this handle leads now, since no other does.
    pub fn try_lead(&self) -> bool {
        self.leading.swap(1, Ordering::SeqCst) == 0
    }

    /// Sleeps for a short time, or until as many handles have begun to wait as are expected.
    pub fn gather<W: Wait>(&self, rt: &W) {
        if !self.have_come() {
            self.gathering.store(1, Ordering::SeqCst);
            // a handle that came before that did not see it
            if !self.have_come() {
                let time = Duration::from_micros(GATHER_TIME_IN_MICROSECONDS);
                self.gathering.park_timeout(rt, 1, time);
            }
            self.gathering.store(0, Ordering::SeqCst);
        }
        let before = self.gathered.load(Ordering::SeqCst);
        let entered = self.entered.load(Ordering::SeqCst);
        self.gathered.store(entered, Ordering::SeqCst);
        self.gathered_before.store(before, Ordering::SeqCst);
    }

    // Whether as many handles have begun to wait as the leader expects. While it gathers, it alone changes what is
    // compared, except the number of those that have come.
    fn have_come(&self) -> bool {
        let expected = self.expected.load(Ordering::SeqCst);
        self.came_since(self.gathered.load(Ordering::SeqCst)) >= expected
    }

    // how many handles have begun to wait since there were so many
    fn came_since(&self, before: u64) -> u64 {
        self.entered.load(Ordering::SeqCst).wrapping_sub(before)
    }

    /// The leader's round ends, and those that sleep look again.
    pub fn retire(&self) {
        let came = self.came_since(self.gathered_before.load(Ordering::SeqCst));
        let expected = self.expected.load(Ordering::SeqCst);
        self.expected
            .store(came.max(came.midpoint(expected)), Ordering::SeqCst);
        self.leading.store(0, Ordering::SeqCst);
        self.rounds.ring();
    }

    /// Sleeps until a round has ended after `rounds` was read, or for a time.
    pub fn rest<W: Wait>(&self, rt: &W, rounds: u64) {
        self.rounds.sleep(rt, rounds);
    }
}
