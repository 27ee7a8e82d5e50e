//! An open transaction, with an index of its plan's ranges if these are many, so that others are compared with it by
//! halves.

ghost use Rattle.std.specs.Prelude.{◌≡◌, IfOk, IfSome, map};
ghost use Rattle.std.specs.List.Sorted.{IsPermutation};
ghost use Rattle.base.specs.declared.operation.Shape.{Shape};
ghost use Rattle.base.specs.history.Plans.{number_range};
ghost use Rattle.transactions.specs.LockRanges.{shape_range};
ghost use Rattle.transactions.specs.Open.{has_plan_in, overlaps_plan_of};

use crate::open::OpenTransaction;
use crate::plan::{has_range_in, ranges_overlap};
use crate::range_index::RangeIndex;
use base::{ObjectRange, Shape};
use std::alloc::{AllocError, Global};
use std::marker::Model;

// A plan of fewer shapes has no index, which would cost more memory and time than it saves.
const INDEXED_FROM: usize = 16;

/// An open transaction, with the index of its plan's ranges if it has one. Contracts see the transaction.
#[derive(Drop)]
pub(crate) struct IndexedTransaction {
    transaction: OpenTransaction,
    index: Option<RangeIndex>,
}

impl Model for IndexedTransaction {
    ghost use Rattle.std.specs.Prelude.{IfSome, map};
    ghost use Rattle.std.specs.List.Sorted.{IsPermutation};
    ghost use Rattle.transactions.specs.declared.«open».OpenTransaction.{OpenTransaction};
    ghost use Rattle.transactions.specs.LockRanges.{shape_range};

    ghost Value = { OpenTransaction };

    ghost view = { λ t. t.transaction };

    ghost invariant = { λ t. IfSome t.index
        (λ index. IsPermutation (map shape_range t.transaction.plan) index) };
}

impl IndexedTransaction {
    /// The transaction with its index, if its plan has 16 shapes or more.
    ///
    /// # Errors
    /// `AllocError` if there is no memory for the index.
    pub(crate) fn new(alloc: Global, transaction: OpenTransaction) -> Result<Self, AllocError>
        ensures { IfOk result (λ indexed. indexed ≡ transaction) }
    {
        let index = index_of(alloc, transaction.plan.as_slice())?;
        Ok(IndexedTransaction { transaction, index })
    }

    /// Whether a range of another plan overlaps one of its plan.
    pub(crate) fn blocks(&self, plan: &[Shape]) -> bool
        ensures { result ≡ overlaps_plan_of plan.now self.now }
    {
        match &self.index {
            Some(index) => index.overlaps_any(plan),
            None => ranges_overlap(plan, self.transaction.plan.as_slice()),
        }
    }

    /// Whether a range of its plan lies in this one.
    pub(crate) fn lies_in(&self, range: &ObjectRange) -> bool
        ensures { result ≡ has_plan_in (number_range range.now) self.now }
    {
        match &self.index {
            Some(index) => index.has_within(range),
            None => has_range_in(self.transaction.plan.as_slice(), range),
        }
    }

    /// The transaction.
    pub(crate) fn transaction(&self) -> &OpenTransaction
        ensures { result.now ≡ self.now }
    {
        &self.transaction
    }

    /// The transaction alone.
    pub(crate) fn into_transaction(self) -> OpenTransaction
        ensures { result ≡ self }
    {
        self.transaction
    }
}

// The index of a plan's ranges, if it has 16 shapes or more.
fn index_of(alloc: Global, plan: &[Shape]) -> Result<Option<RangeIndex>, AllocError>
    ensures { IfOk result
        (λ index. IfSome index (λ i. IsPermutation (map shape_range plan.now) i)) }
{
    if plan.len() < INDEXED_FROM {
        return Ok(None);
    }
    let index = RangeIndex::new(alloc, plan)?;
    Ok(Some(index))
}
