//! What a seat learns from each of its steps on the table.
ghost use Rattle.std.specs.Prelude.{[], ◌+◌, ◌++◌};
ghost use Rattle.word_lock.specs.Kept.{tried, stays, noted, freed, settled, sat, away, spent, met, with_split};

use crate::rule::{LockRule, Sight};
use atomic_table::{Join, Play, Split};
use std::marker::{Brand, PhantomData};

// A `fetch_or` of the held bit: it gets the lock if that bit was clear.
pub(crate) struct Try<R> {
    rule: PhantomData<R>,
}

impl<T, R: LockRule<T>> Play<Option<T>, Sight<R::View>> for Try<R> {
    ghost then = { tried R.explains R.grows };
}

// A step that leaves the held bit and the seat as they were.
pub(crate) struct Stay;

impl<T, V> Play<Option<T>, Sight<V>> for Stay {
    ghost then = { stays };
}

/// Names the view that a holder goes on to, by its code, since a `Play` has no argument.
pub(crate) trait Next {
    ghost use base.Stored.{Gv};

    ghost next: { Gv };
}

impl Next for Brand {
    ghost use Rattle.std.specs.Coded.{coded_ℕ};

    ghost next = { coded_ℕ.code 0 };
}

// A `fetch_or` of nothing: the holder goes on to the view that `J` names, which is one more turn of its own.
pub(crate) struct Note<J> {
    name: PhantomData<J>,
}

impl<T, V, J: Next> Play<Option<T>, Sight<V>> for Note<J> {
    ghost then = { noted V.row.coded.code J.next };
}

// The swap that frees the word.
pub(crate) struct Free;

impl<T, V> Play<Option<T>, Sight<V>> for Free {
    ghost then = { freed };
}

// A load by a seat that has met another: what explains the value goes on from both seats' views.
pub(crate) struct Settle<R> {
    rule: PhantomData<R>,
}

impl<T, R: LockRule<T>> Play<Option<T>, Sight<R::View>> for Settle<R> {
    ghost then = { settled R.grows };
}

// A load that makes a new seat.
pub(crate) struct Sit<R> {
    rule: PhantomData<R>,
}

impl<T, R: LockRule<T>> Play<Option<T>, Sight<R::View>> for Sit<R> {
    ghost then = { sat R.grows };
}

// The first seat has been split once more. The second has seen the same, has had no turn, and has the first one's new
// number.
pub(crate) struct Copy;

impl<V> Split<Sight<V>> for Copy {
    ghost left = { λ d. with_split d };

    ghost right = { λ d. away d.seen [] [] (d.kin + 1) };
}

// The first seat has both views until its next load, takes over the other's turns, and adds its number. The second is
// used up.
pub(crate) struct Meet<T, R> {
    rule: PhantomData<(T, R)>,
}

impl<T, R: LockRule<T>> Join<Sight<R::View>> for Meet<T, R> {
    ghost both = { λ d e. met d.seen e.seen d.turns (d.taken ++ e.taken ++ e.turns) (d.kin + e.kin) };

    ghost spent = { spent R.blank };
}
