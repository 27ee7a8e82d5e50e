//! A log block that is kept: where it lies, and which records begin and end in it.
//!
//! A block has whole records, or a part of one record that is longer than a block. Its highest group is of the records
//! that begin in it, and by its ordinals those are found that end in it.

ghost use Rattle.std.specs.Prelude.{◌≡◌, ◌≤◌, ℕ, All, nat_lt};
ghost use Rattle.std.specs.List.{list_any};
ghost use Rattle.intent_log.specs.Receipts.{LiesWithin, begins_of, ends_of, is_in_later_group, is_same_receipt};

use base::{Group, Ordinal, Receipt};

/// Where a log block lies, and its number in the chain.
#[derive(Clone, Copy)]
pub struct LogHeader {
    /// The address in bytes.
    pub address: u64,
    /// The log number.
    pub number: u64,
}

/// What a log block has of records.
#[derive(Drop)]
pub(crate) enum Holds {
    /// Whole records with these receipts, in order.
    Whole(Vec<Receipt>),
    /// The first part of a record.
    First(Receipt),
    /// A later part of a record, but not its last one.
    Part,
    /// The last part of a record.
    Last(Receipt),
}

impl Holds {
    // Its highest group, its lowest ordinal, and the highest of its ordinals and one more.
    fn reach(&self, before: Ordinal) -> Reach
        ensures highest { (group : ℕ) → list_any (is_in_later_group group) (begins_of self.now)
            ≡ nat_lt group result.highest.0 }
        ensures between { All (LiesWithin result.first.0 result.last.0) (ends_of self.now) }
        ensures rises { before.0 ≤ result.last.0 }
    {
        match self {
            Holds::Whole(receipts) => reach_of(receipts.as_slice(), before),
            Holds::First(receipt) => Reach {
                highest: receipt.group,
                first: before,
                last: before,
            },
            Holds::Part => Reach {
                highest: Group(0),
                first: before,
                last: before,
            },
            Holds::Last(receipt) => Reach {
                highest: Group(0),
                first: receipt.ordinal,
                last: Ordinal(receipt.ordinal.0.max(before.0)),
            },
        }
    }
}

/// A log block that is kept.
#[derive(Drop)]
pub(crate) struct KeptBlock {
    pub(crate) header: LogHeader,
    // the highest group of a record that begins in it, 0 if none does
    pub(crate) highest: Group,
    // the lowest ordinal of a record that ends in it
    first: Ordinal,
    // the highest ordinal of a record that ends in it or in a block before it
    pub(crate) last: Ordinal,
    holds: Holds,
    ghost highest_is: { (group : ℕ) → list_any (is_in_later_group group) (begins_of holds) ≡ nat_lt group highest.0 },
    ghost between: { All (LiesWithin first.0 last.0) (ends_of holds) },
}

impl KeptBlock {
    /// The block that has this. The blocks before it reach the ordinal `before`.
    pub(crate) fn new(header: LogHeader, holds: Holds, before: Ordinal) -> Self
        ensures header { result.header ≡ header }
        ensures begins { begins_of result.holds ≡ begins_of holds }
        ensures ends { ends_of result.holds ≡ ends_of holds }
        ensures rises { before.0 ≤ result.last.0 }
    {
        let reach = holds.reach(before);
        KeptBlock {
            header,
            highest: reach.highest,
            first: reach.first,
            last: reach.last,
            holds,
        }
    }

    /// Whether the record of this receipt ends in it.
    pub(crate) fn has(&self, receipt: Receipt) -> bool
        ensures { result ≡ list_any (is_same_receipt receipt) (ends_of self.now.holds) }
    {
        self.first.0 <= receipt.ordinal.0 && receipt.ordinal.0 <= self.last.0 && self.ends(receipt)
    }

    // The same, with no look at its ordinals before.
    fn ends(&self, receipt: Receipt) -> bool
        ensures { result ≡ list_any (is_same_receipt receipt) (ends_of self.now.holds) }
    {
        match &self.holds {
            Holds::Whole(receipts) => receipts.iter().any(|other| *other == receipt),
            Holds::Last(other) => *other == receipt,
            Holds::First(_) | Holds::Part => false,
        }
    }

    /// Whether the record of this receipt begins in it.
    pub(crate) fn begins(&self, receipt: Receipt) -> bool
        ensures { result ≡ list_any (is_same_receipt receipt) (begins_of self.now.holds) }
    {
        match &self.holds {
            Holds::Whole(_) => self.has(receipt),
            Holds::First(other) => *other == receipt,
            Holds::Part | Holds::Last(_) => false,
        }
    }
}

// What some receipts reach: their highest group, their lowest ordinal, and the highest of theirs and one more.
#[derive(Clone, Copy)]
struct Reach {
    highest: Group,
    first: Ordinal,
    last: Ordinal,
}

fn reach_of(receipts: &[Receipt], before: Ordinal) -> Reach
    ensures highest { (group : ℕ) → list_any (is_in_later_group group) receipts.now
        ≡ nat_lt group result.highest.0 }
    ensures between { All (LiesWithin result.first.0 result.last.0) receipts.now }
    ensures rises { before.0 ≤ result.last.0 }
{
    let mut highest = 0;
    let mut first = u64::MAX;
    let mut last = before.0;
    for receipt in receipts {
        highest = receipt.group.0.max(highest);
        first = receipt.ordinal.0.min(first);
        last = receipt.ordinal.0.max(last);
    }
    Reach {
        highest: Group(highest),
        first: Ordinal(first),
        last: Ordinal(last),
    }
}
