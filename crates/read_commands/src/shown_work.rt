//! How much the devices of a command have done, and what the line has of it.

ghost use Rattle.std.specs.Prelude.{◌≡◌};
ghost use Rattle.rates.specs.Rates.{rate_of};

use crate::pace::stay_of;
use crate::progress_line::ProgressLine;
use rates::per_second;
use std::fmt;
use std::io::Eprint;
use std::rt::Clock;
use std::sync::atomic::{AtomicU64, Ordering};
use std::time::Instant;

/// How many bytes were read and written. As text it is these, and how many in a second.
#[derive(Clone, Copy)]
pub(crate) struct Done {
    bytes: u64,
    rate: u64,
}

impl fmt::Display for Done {
    ghost use Rattle.std.specs.Prelude.{Some};
    ghost use Rattle.read_commands.specs.ProgressLines.{done_text};

    ghost output = { λ d. Some (done_text d.bytes d.rate) };

    fn fmt<W: fmt::Write>(&self, f: &mut fmt::Formatter<W>) -> fmt::Result {
        write!(
            f,
            "{} bytes done, {} bytes in a second",
            self.bytes, self.rate
        )
    }
}

impl Done {
    /// So many bytes in so many microseconds.
    pub(crate) fn of(bytes: u64, time: u64) -> Self
        ensures bytes { result.bytes ≡ bytes }
        ensures rate { result.rate ≡ rate_of bytes time }
    {
        Done {
            bytes,
            rate: per_second(bytes, time),
        }
    }
}

/// What the devices of a command have done together, as a line shows it. The time begins with the first device. No
/// clause speaks of it.
#[derive(Drop)]
pub struct ShownWork<'a, R: Eprint + Clock> {
    line: &'a ProgressLine<'a, R>,
    // `None` if nothing is shown. The other times are in microseconds after it.
    made: Option<Instant>,
    // 0 if there was no device yet
    begun: AtomicU64,
    bytes: AtomicU64,
    // until when the last text stays, after the begin
    stays: AtomicU64,
}

impl<'a, R: Eprint + Clock> ShownWork<'a, R> {
    /// No work yet, for this line to show.
    pub fn new(line: &'a ProgressLine<'a, R>) -> Self {
        ShownWork {
            line,
            made: line.now(),
            begun: AtomicU64::new(0),
            bytes: AtomicU64::new(0),
            stays: AtomicU64::new(0),
        }
    }

    /// Begins the time, if it hasn't begun.
    pub(crate) fn begin(&self) {
        if let Some(now) = self.now() {
            let _ = self
                .begun
                .compare_exchange(0, now.max(1), Ordering::SeqCst, Ordering::SeqCst);
        }
    }

    /// Counts so many bytes more, and writes the line if it is time to.
    pub(crate) fn add(&self, count: usize) {
        let Some(now) = self.now() else {
            return;
        };
        let before = self.bytes.fetch_add(count as u64, Ordering::SeqCst);
        let time = now.saturating_sub(self.begun.load(Ordering::SeqCst));
        self.show(before.saturating_add(count as u64), time);
    }

    // Writes so many bytes after such a time, unless the line has a text that stays. Of two threads one writes it.
    fn show(&self, bytes: u64, time: u64) {
        let before = self.stays.load(Ordering::SeqCst);
        let Some(stay) = stay_of(time, before) else {
            return;
        };
        let turn = self
            .stays
            .compare_exchange(before, stay, Ordering::SeqCst, Ordering::SeqCst);
        if turn.is_ok() {
            self.line.write(&Done::of(bytes, time));
        }
    }

    // How long ago it was made. `None` if nothing is shown, or the clock can't be read.
    fn now(&self) -> Option<u64> {
        match self.made {
            Some(made) => self.line.time_since(made),
            None => None,
        }
    }
}
