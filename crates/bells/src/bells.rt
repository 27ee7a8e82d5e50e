//! When the loops of a pool look at it. No clause rests on it.
//!
//! 1. A sync writes a block once, however often its group changed it, and the blocks above it. So many small groups
//!    cost more than a great one. A quiescer looks when a `begin` is throttled, and else after a period
//!    (`txg_quiesce_thread` waits for a timeout or a full group). The period is shorter if fewer blocks are available.
//! 2. While transactions of a closed group are open, the quiescer looks each time that a transaction has ended.
//! 3. The syncer looks when a group was quiesced, and again at once after each sync.
//! 4. A `begin` that is throttled does not call while a group is quiesced and unsynced: the quiescer would close a
//!    small group then. It is woken after that sync, and calls then if it is throttled still. So nothing else rings for
//!    the quiescer after a sync.
//! 5. Before a turn each loop reads the numbers of its bells, and then tests whether the loops are to end. After the
//!    turn it sleeps only if its bell was not rung since (`bell.rt`). So neither a ring nor the end is slept over.
//! 6. The numbers of groups only rise. Threads note them after their turns, in any order, and the greatest one stands.
//!    Of the available blocks the number that was noted last stands. It may be an older one, which only moves a period.

use crate::bell::Bell;
use base::{Group, Reply};
use std::sync::Wait;
use std::sync::atomic::{AtomicU64, Ordering};

// How long a quiescer rests that nobody calls, at the least and at the most (`zfs_txg_timeout` is 5 seconds). A sync
// holds callers up for a time that grows with its group, so no group is left open for longer.
const LEAST_PERIOD_IN_MICROSECONDS: u64 = 25_000;

const MOST_PERIOD_IN_MICROSECONDS: u64 = 250_000;

// How long it rests for each available block. The log and the open group take blocks until a group is synced. Threads
// that write at full speed take one in some 12 microseconds, so a period that is longer than the least takes a third.
const PERIOD_FOR_A_BLOCK_IN_MICROSECONDS: u64 = 4;

/// What rings for the loops: a begin that is throttled, a group that may be quiesced or synced, and the end of the
/// loops.
#[derive(Drop)]
pub struct Bells {
    stopped: AtomicU64,
    // how many quiescers and syncers are at work
    quiescers: AtomicU64,
    syncers: AtomicU64,
    // whether the quiescer was called since it last looked
    called: AtomicU64,
    // the greatest numbers of groups that were noted as opened, quiesced and synced
    opened: AtomicU64,
    quiesced: AtomicU64,
    synced: AtomicU64,
    // how many blocks were available after the last turn for a duty
    available: AtomicU64,
    quiescer: Bell,
    syncer: Bell,
    /// Rung when a transaction has ended.
    pub ended: Bell,
}

/// The loops beside the threads that use a pool.
#[derive(Clone, Copy, Debug, PartialEq, Eq)]
pub enum Loop {
    /// The one that closes and quiesces groups.
    Quiescer,
    /// The one that syncs them.
    Syncer,
}

/// The numbers of the bells before a turn of a loop.
#[derive(Clone, Copy)]
pub struct Heard {
    quiescer: u64,
    syncer: u64,
    ended: u64,
}

impl Bells {
    /// Those of a pool without loops.
    pub fn new() -> Self {
        Bells {
            stopped: AtomicU64::new(0),
            quiescers: AtomicU64::new(0),
            syncers: AtomicU64::new(0),
            called: AtomicU64::new(0),
            opened: AtomicU64::new(0),
            quiesced: AtomicU64::new(0),
            synced: AtomicU64::new(0),
            available: AtomicU64::new(0),
            quiescer: Bell::new(),
            syncer: Bell::new(),
            ended: Bell::new(),
        }
    }

    /// Whether the loops are to end.
    pub fn is_stopped(&self) -> bool {
        self.stopped.load(Ordering::SeqCst) != 0
    }

    /// The loops are to end.
    pub fn stop(&self) {
        self.stopped.store(1, Ordering::SeqCst);
        self.quiescer.ring();
        self.syncer.ring();
        self.ended.ring();
    }

    /// A loop begins.
    pub fn loop_begins(&self, which: Loop) {
        self.at_work(which).fetch_add(1, Ordering::SeqCst);
    }

    /// It ends.
    pub fn loop_ends(&self, which: Loop) {
        self.at_work(which).fetch_sub(1, Ordering::SeqCst);
    }

    /// Whether loops quiesce and sync groups, so that room comes by itself.
    pub fn has_loops(&self) -> bool {
        self.quiescers.load(Ordering::SeqCst) != 0 && self.syncers.load(Ordering::SeqCst) != 0
    }

    // How many of these are at work.
    fn at_work(&self, which: Loop) -> &AtomicU64 {
        match which {
            Loop::Quiescer => &self.quiescers,
            Loop::Syncer => &self.syncers,
        }
    }

    /// A begin was throttled, so a group should be closed.
    pub fn call_for_close(&self) {
        if self.awaits_sync() {
            return;
        }
        if self.called.swap(1, Ordering::SeqCst) == 0 {
            self.quiescer.ring();
        }
    }

    /// This group was opened, and the one before it closed.
    pub fn group_opened(&self, group: Group) {
        self.opened.fetch_max(group.0, Ordering::SeqCst);
    }

    /// This group was quiesced.
    pub fn group_quiesced(&self, group: Group) {
        self.quiesced.fetch_max(group.0, Ordering::SeqCst);
        self.syncer.ring();
    }

    /// This group was synced.
    pub fn group_synced(&self, group: Group) {
        self.synced.fetch_max(group.0, Ordering::SeqCst);
    }

    /// Notes how many blocks are available.
    pub fn note_available(&self, blocks: u64) {
        self.available.store(blocks, Ordering::SeqCst);
    }

    // How long a quiescer rests that nobody calls.
    fn period(&self) -> u64 {
        self.available
            .load(Ordering::SeqCst)
            .saturating_mul(PERIOD_FOR_A_BLOCK_IN_MICROSECONDS)
            .clamp(LEAST_PERIOD_IN_MICROSECONDS, MOST_PERIOD_IN_MICROSECONDS)
    }

    // Whether a group is quiesced and unsynced, as far as it was noted.
    fn awaits_sync(&self) -> bool {
        self.synced.load(Ordering::SeqCst) < self.quiesced.load(Ordering::SeqCst)
    }

    // Whether a closed group is not quiesced, as far as it was noted.
    fn is_quiescing(&self) -> bool {
        let quiesced = self.quiesced.load(Ordering::SeqCst);
        let behind = quiesced.max(self.synced.load(Ordering::SeqCst));
        let closed = self.opened.load(Ordering::SeqCst).saturating_sub(1);
        behind < closed
    }

    /// Before a turn of a loop: the numbers of the bells.
    pub fn listen(&self, which: Loop) -> Heard {
        if which == Loop::Quiescer {
            self.called.store(0, Ordering::SeqCst);
        }
        Heard {
            quiescer: self.quiescer.rings(),
            syncer: self.syncer.rings(),
            ended: self.ended.rings(),
        }
    }

    /// After a turn of a loop whose last step had this reply: it goes on at once if more may be due, and else rests
    /// until it is rung for.
    pub fn rest<W: Wait>(&self, rt: &W, which: Loop, reply: &Option<Reply>, heard: Heard) {
        match which {
            Loop::Quiescer => self.rest_quiescer(rt, heard),
            Loop::Syncer => self.rest_syncer(rt, reply, heard),
        }
    }

    fn rest_quiescer<W: Wait>(&self, rt: &W, heard: Heard) {
        if self.is_quiescing() {
            self.ended.sleep_briefly(rt, heard.ended);
        } else {
            self.quiescer.sleep_for(rt, heard.quiescer, self.period());
        }
    }

    fn rest_syncer<W: Wait>(&self, rt: &W, reply: &Option<Reply>, heard: Heard) {
        match reply {
            None | Some(Reply::Refused(_)) => self.syncer.sleep(rt, heard.syncer),
            // more of the sync is due, or the next group may wait already
            Some(_) => {}
        }
    }
}
