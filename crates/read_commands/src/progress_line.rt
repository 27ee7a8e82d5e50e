//! The line on standard error. A return and an erase (`ESC [ K`) begin it, so a shorter text leaves nothing of a longer
//! one.

ghost use Rattle.std.specs.Prelude.{◌≡◌, false, true};

use command_arguments::{Terminals, Verbosity};
use rates::in_microseconds;
use std::fmt::Display;
use std::io::Eprint;
use std::rt::Clock;
use std::sync::atomic::{AtomicBool, Ordering};
use std::time::Instant;

/// Whether a command shows how far it is: if standard error is a terminal, and it isn't to be quiet.
pub fn shows_progress(verbosity: Verbosity, terminals: Terminals) -> bool
    ensures quiet { verbosity ≡ Verbosity.Quiet → result ≡ false }
    ensures no_terminal { terminals.errors ≡ false → result ≡ false }
    ensures shown { verbosity ≡ Verbosity.WithCause → terminals.errors ≡ true → result ≡ true }
{
    terminals.errors && matches!(verbosity, Verbosity::WithCause)
}

/// A line on standard error that a command writes again and again while it works. It is cleared when this is dropped.
/// Threads may share it.
pub struct ProgressLine<'a, R: Eprint> {
    rt: &'a R,
    is_shown: bool,
    // whether it has a text now
    is_written: AtomicBool,
}

impl<'a, R: Eprint> ProgressLine<'a, R> {
    ghost use Rattle.read_commands.specs.ProgressLines.{shows_texts};

    /// A line without a text. If it isn't shown, nothing is ever written.
    pub fn new(rt: &'a R, shown: bool) -> Self
        ensures { shows_texts result ≡ shown }
    {
        ProgressLine {
            rt,
            is_shown: shown,
            is_written: AtomicBool::new(false),
        }
    }

    /// Whether it is shown.
    pub fn is_shown(&self) -> bool
        ensures { result ≡ shows_texts self.now }
    {
        self.is_shown
    }

    /// Writes a text in place of what the line has, if it is shown. What can't be written is left out.
    pub fn write<T: Display>(&self, text: &T) {
        if !self.is_shown {
            return;
        }
        self.is_written.store(true, Ordering::SeqCst);
        let _ = eprint!(self.rt; "\r\x1b[K{text}");
    }

    /// Clears the line, if it has a text. The next text begins where the line began.
    pub fn clear(&self) {
        if self.is_written.swap(false, Ordering::SeqCst) {
            let _ = eprint!(self.rt; "\r\x1b[K");
        }
    }
}

impl<R: Eprint> Drop for ProgressLine<'_, R> {
    fn drop(self) {
        self.clear();
        let ProgressLine {
            rt: _,
            is_shown: _,
            is_written: _,
        } = self;
    }
}

impl<R: Eprint + Clock> ProgressLine<'_, R> {
    /// The moment, for what the line is to show. `None` if it isn't shown, or the clock can't be read.
    pub(crate) fn now(&self) -> Option<Instant> {
        if self.is_shown {
            Instant::now(self.rt).ok()
        } else {
            None
        }
    }

    /// How many microseconds ago a moment was. `None` if the clock can't be read.
    pub(crate) fn time_since(&self, moment: Instant) -> Option<u64> {
        match moment.elapsed(self.rt) {
            Ok(time) => Some(in_microseconds(time)),
            Err(_) => None,
        }
    }
}
