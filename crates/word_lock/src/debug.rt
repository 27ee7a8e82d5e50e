//! `Debug` of the lock and its parts: the type's name alone. Neither the value nor a view is shown.

use crate::guard::{Guard, Held};
use crate::lock::WordLock;
use crate::rule::LockRule;
use crate::seat::Seat;
use crate::source::SeatSource;
use std::alloc::Allocator;
use std::fmt;

impl<T, R: LockRule<T>, A: Allocator> fmt::Debug for WordLock<T, R, A> {
    fn fmt<W: fmt::Write>(&self, f: &mut fmt::Formatter<W>) -> fmt::Result {
        f.debug_struct("WordLock").finish_non_exhaustive()
    }
}

impl<T, R: LockRule<T>> fmt::Debug for Seat<T, R> {
    fn fmt<W: fmt::Write>(&self, f: &mut fmt::Formatter<W>) -> fmt::Result {
        f.debug_struct("Seat").finish_non_exhaustive()
    }
}

impl<T, R: LockRule<T>> fmt::Debug for SeatSource<T, R> {
    fn fmt<W: fmt::Write>(&self, f: &mut fmt::Formatter<W>) -> fmt::Result {
        f.debug_struct("SeatSource").finish_non_exhaustive()
    }
}

impl<T, V> fmt::Debug for Held<T, V> {
    fn fmt<W: fmt::Write>(&self, f: &mut fmt::Formatter<W>) -> fmt::Result {
        f.debug_struct("Held").finish_non_exhaustive()
    }
}

impl<'s, 'l, T, R: LockRule<T>, A: Allocator> fmt::Debug for Guard<'s, 'l, T, R, A> {
    fn fmt<W: fmt::Write>(&self, f: &mut fmt::Formatter<W>) -> fmt::Result {
        f.debug_struct("Guard").finish_non_exhaustive()
    }
}
