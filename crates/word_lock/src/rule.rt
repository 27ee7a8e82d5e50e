//! The rule of the value under a lock, and what the table below keeps of it.

use atomic_table::TableRule;
use base::Told;
use std::collections::LinkedList;
use std::marker::PhantomData;

/// How the value under a lock may change. A view is what can be known of the value, as its history. It is a type of
/// the rule's own, and no value of it is made.
///
/// The last two members are the laws of a preorder, so an impl for a rule that is none is refused.
pub trait LockRule<T> {
    /// What a seat has seen.
    type View;

    // The view explains the value.
    ghost explains: { Self.View → T → Type 0 };

    // The second view goes on from the first.
    ghost grows: { Self.View → Self.View → Type 0 };

    // Any view, for a seat that a join has used up. Nothing is claimed of it.
    ghost blank: { Self.View };

    // Each view goes on from itself.
    ghost same: { (a : Self.View) → grows a a };

    // What goes on from a later view goes on from an earlier one.
    ghost onward: { (a b c : Self.View) → grows a b → grows b c → grows a c };
}

/// One turn of a seat with the lock: the view that explained the value as the seat took it, and the view that it put
/// back. No value of it is made.
pub struct Turn<V> {
    /// The view as the seat took the lock.
    pub took: V,
    /// The view that it put back.
    pub left: V,
}

// Where a seat stands: it does not have the lock; it has met another seat in a join; it has the lock; it was used up
// by a join.
pub(crate) enum Standing<V> {
    Away,
    Met(V),
    Holding,
    Spent,
}

// What a seat at the table knows. No value of it is made.
pub(crate) struct Sight<V> {
    pub(crate) standing: Standing<V>,
    pub(crate) seen: V,
    pub(crate) turns: LinkedList<Turn<V>>,
    // The turns of the seats that it joined, and of those that they had joined.
    pub(crate) taken: LinkedList<Turn<V>>,
    // 0 while the seat is the only one that the lock ever had, 1 at a new seat of a source. Each split adds 1, and the
    // new seat has the same; a join adds the other's.
    pub(crate) kin: u64,
}

// How a lock opens. No value of it is made.
pub(crate) struct Opening<V> {
    pub(crate) view: V,
    // The `kin` of the first seat: 0 if all other seats come from it by splits, 1 if a source makes seats too.
    pub(crate) kin: u64,
}

// The rule of the table: `Kept`, of how the lock opened.
pub(crate) struct Keeps<R> {
    rule: PhantomData<R>,
}

impl<T, R: LockRule<T>> TableRule<Option<T>, Sight<R::View>, Told<Opening<R::View>>> for Keeps<R> {
    ghost use Rattle.std.specs.Prelude.{[]};
    ghost use Rattle.word_lock.specs.Kept.{Kept, away};

    ghost holds = { λ k. Kept R.explains R.grows k.value.view k.value.kin };

    ghost first = { λ k. away k.value.view [] [] k.value.kin };
}
