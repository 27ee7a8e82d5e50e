//! The transactions that were admitted and have not ended.
//!
//! They lie in a slab, whose keys are used again; their names never are. `order` has the keys in order of admission,
//! which is the order of the names. Contracts see the admissions in that order, and the name of the next one.
//!
//! A transaction is admitted if no range of its plan overlaps one of an open transaction. So open transactions commute,
//! and those of a group may be committed in any order. Each lies beside an index of its plan's ranges: so each shape of
//! a new plan is compared with an open plan by halves.

ghost use Rattle.std.specs.Prelude.{◌≡◌, [], IfErr, IfOk, None, OnErr, OnOk, count_by, option_map, true};
ghost use Rattle.std.specs.List.{find, list_any};
ghost use Rattle.base.specs.history.Plans.{is_plan_allowed, number_range};
ghost use Rattle.base.specs.steps.Groups.{AreNamedApart, hold_count};
ghost use Rattle.base.specs.steps.Refusals.{is_plan_blocked};
ghost use Rattle.base.specs.steps.Steps.{transactions_without};
ghost use Rattle.transactions.specs.Open as words;
ghost use Rattle.transactions.specs.Open.{admission_of, admit_refusal, has_one_open, has_plan_in, are_too_many, is_kept_blocked, is_of_group, is_of_name, is_of_owner, is_range_in_use, keys_without, next_to_open, overlaps_plan_of, passes_at, admission_of_name, with_admission};
ghost use Rattle.records.specs.Refusals.{Refuses};

use crate::indexed::IndexedTransaction;
use base::{
    Group, LAST_NUMBER, MAX_TRANSACTIONS, ObjectRange, Owner, Plan, PoolError, Shape, TxId,
};
use slab::Slab;
use std::alloc::Global;
use std::marker::Model;

/// A transaction that was admitted and has not ended.
#[derive(Drop)]
pub struct OpenTransaction {
    /// Its name.
    pub tx: TxId,
    /// The group that it was admitted to.
    pub group: Group,
    /// The owner of its locks.
    pub owner: Owner,
    /// The shapes of its operations.
    pub plan: Plan,
}

/// The open transactions of a pool, at most 64. Contracts see their admissions, in order, and the next name.
#[derive(Drop)]
pub struct OpenTransactions {
    slots: Slab<IndexedTransaction>,
    /// The keys of the slots, in order of admission.
    order: Vec<usize>,
    /// The name of the next transaction.
    next: u64,
}

impl Model for OpenTransactions {
    ghost use Rattle.transactions.specs.Open.{AreOpenAt, Open, admissions_at};

    ghost Value = { Open };

    ghost view = { λ o. record { transactions = admissions_at o.slots o.order.items; next = o.next } };

    ghost invariant = { λ o. AreOpenAt o.slots o.order.items o.next };
}

impl OpenTransactions {
    /// None is open, and the first name is 0.
    pub fn new(alloc: Global) -> Self
        ensures none { result.transactions ≡ [] }
        ensures first { result.next ≡ 0 }
    {
        OpenTransactions {
            slots: Slab::new(alloc),
            order: Vec::new(alloc),
            next: 0,
        }
    }

    /// Whether a range of a plan overlaps one of an open transaction. The plan should be allowed: else the ranges are
    /// those of `range_of`.
    pub fn is_blocked(&self, plan: &[Shape]) -> bool
        ensures blocked { is_plan_allowed plan.now ≡ true
            → result ≡ is_plan_blocked plan.now self.now.transactions }
        ensures kept { result ≡ is_kept_blocked plan.now self.now.transactions }
    {
        any_blocks(&self.slots, &self.order, plan)
    }

    /// Whether 64 are open or the next name is past the last one, 2^60.
    pub fn is_full(&self) -> bool
        ensures { result ≡ are_too_many self.now }
    {
        is_too_many(self.order.len(), self.next)
    }

    /// Admits a transaction to a group, under the next name. Its plan has to be allowed.
    ///
    /// # Errors
    ///
    /// In this order; after a refusal all is as before:
    ///
    /// - `Busy` if a range of the plan overlaps one of an open transaction.
    /// - `TooMany` if 64 are open or the next name is past the last one.
    /// - `NoMemory`.
    pub fn admit(&mut self, owner: Owner, group: Group, plan: Plan) -> Result<TxId, PoolError>
        requires { is_plan_allowed plan ≡ true }
        ensures name { IfOk result (λ tx. tx.0 ≡ self.old.next) }
        ensures admitted { IfOk result
            (λ _. self.new ≡ with_admission (next_to_open owner.0 group.0 plan self.old) self.old) }
        ensures passed { OnOk result (admit_refusal plan self.old ≡ None) }
        ensures refused { IfErr result (λ e. Refuses (admit_refusal plan self.old) e) }
        ensures unchanged { OnErr result (self.new ≡ self.old) }
    {
        if self.is_blocked(plan.as_slice()) {
            return Err(PoolError::Busy);
        }
        if self.is_full() {
            return Err(PoolError::TooMany);
        }
        self.admit_tested(owner, group, plan)
    }

    /// Admits a transaction that `is_blocked` and `is_full` were asked about, and that neither keeps from being
    /// admitted. It makes neither test again, so the ranges are searched once.
    ///
    /// # Errors
    /// `NoMemory`. All is as before then.
    pub fn admit_tested(
        &mut self,
        owner: Owner,
        group: Group,
        plan: Plan,
    ) -> Result<TxId, PoolError>
        requires allowed { is_plan_allowed plan ≡ true }
        requires passed { admit_refusal plan self.old ≡ None }
        ensures name { IfOk result (λ tx. tx.0 ≡ self.old.next) }
        ensures admitted { IfOk result
            (λ _. self.new ≡ with_admission (next_to_open owner.0 group.0 plan self.old) self.old) }
        ensures refused { IfErr result (λ e. e ≡ PoolError.NoMemory) }
        ensures unchanged { OnErr result (self.new ≡ self.old) }
    {
        let tx = TxId(self.next);
        let opened = IndexedTransaction::new(
            *self.order.allocator(),
            OpenTransaction {
                tx,
                group,
                owner,
                plan,
            },
        )?;
        self.order.reserve(1)?;
        self.slots.reserve(1)?;
        let key = self.slots.insert_reserved(opened);
        self.order.push_reserved(key);
        self.next += 1;
        Ok(tx)
    }

    /// The open transaction of this name.
    pub fn find(&self, tx: TxId) -> Option<&OpenTransaction>
        ensures { option_map (λ t. admission_of t.now) result
            ≡ admission_of_name tx.0 self.now.transactions }
    {
        let key = key_of(&self.slots, &self.order, tx)?;
        let found = self.slots.get(key)?;
        Some(found.transaction())
    }

    /// The transaction of this name is open no more, and comes back. `None` if there is none, and then all is as
    /// before.
    pub fn end(&mut self, tx: TxId) -> Option<OpenTransaction>
        ensures ended { option_map admission_of result
            ≡ admission_of_name tx.0 self.old.transactions }
        ensures others { self.new.transactions
            ≡ transactions_without tx.0 self.old.transactions }
        ensures next { self.new.next ≡ self.old.next }
        ensures apart { AreNamedApart self.old.transactions }
    {
        let key = key_of(&self.slots, &self.order, tx)?;
        remove_named(&self.slots, &mut self.order, tx);
        without_index(self.slots.try_remove(key))
    }

    /// Whether a range of an open transaction lies in this one: if it is a writer lock's, the lock is in use.
    pub fn is_lock_in_use(&self, range: &ObjectRange) -> bool
        ensures { result ≡ is_range_in_use (number_range range.now) self.now.transactions }
    {
        any_lies_in(&self.slots, &self.order, range)
    }

    /// Whether the owner has an open transaction.
    pub fn has_one_open(&self, owner: Owner) -> bool
        ensures { result ≡ has_one_open owner.0 self.now.transactions }
    {
        any_of_owner(&self.slots, &self.order, owner)
    }

    /// How many transactions of a group are open.
    pub fn holds(&self, group: Group) -> usize
        ensures { result ≡ hold_count group.0 self.now.transactions }
    {
        count_of_group(&self.slots, &self.order, group)
    }
}

/// Whether, if so many are open and this is the next name, one more is too many.
fn is_too_many(count: usize, next: u64) -> bool
    ensures { result ≡ words.is_too_many count next }
{
    count >= MAX_TRANSACTIONS || next > LAST_NUMBER
}

/// The key of the transaction of this name.
fn key_of(slots: &Slab<IndexedTransaction>, order: &[usize], tx: TxId) -> Option<usize>
    ensures { result ≡ find (passes_at (is_of_name tx.0) slots.now) order.now }
{
    order.iter().copied().find(|key| is_named(slots, *key, tx))
}

/// Takes the key of the transaction of this name out of the order.
fn remove_named(slots: &Slab<IndexedTransaction>, order: &mut Vec<usize>, tx: TxId)
    ensures { order.new.items ≡ keys_without tx.0 slots.now order.old.items }
{
    order.retain(|key| !is_named(slots, *key, tx));
}

/// The transaction that a slot had, without its index.
fn without_index(slot: Option<IndexedTransaction>) -> Option<OpenTransaction>
    ensures { result ≡ slot }
{
    slot.map(|ended| ended.into_transaction())
}

/// Whether the transaction at a key has this name.
fn is_named(slots: &Slab<IndexedTransaction>, key: usize, tx: TxId) -> bool
    ensures { result ≡ passes_at (is_of_name tx.0) slots.now key }
{
    match slots.get(key) {
        Some(opened) => opened.transaction().tx.0 == tx.0,
        None => false,
    }
}

/// How many of the transactions at these keys are of a group.
fn count_of_group(slots: &Slab<IndexedTransaction>, order: &[usize], group: Group) -> usize
    ensures { result ≡ count_by (passes_at (is_of_group group.0) slots.now) order.now }
{
    order
        .iter()
        .filter(|key| is_in_group(slots, **key, group))
        .count()
}

fn is_in_group(slots: &Slab<IndexedTransaction>, key: usize, group: Group) -> bool
    ensures { result ≡ passes_at (is_of_group group.0) slots.now key }
{
    match slots.get(key) {
        Some(opened) => opened.transaction().group.0 == group.0,
        None => false,
    }
}

/// Whether one of the transactions at these keys is an owner's.
fn any_of_owner(slots: &Slab<IndexedTransaction>, order: &[usize], owner: Owner) -> bool
    ensures { result ≡ list_any (passes_at (is_of_owner owner.0) slots.now) order.now }
{
    order.iter().any(|key| is_owned(slots, *key, owner))
}

fn is_owned(slots: &Slab<IndexedTransaction>, key: usize, owner: Owner) -> bool
    ensures { result ≡ passes_at (is_of_owner owner.0) slots.now key }
{
    match slots.get(key) {
        Some(opened) => opened.transaction().owner.0 == owner.0,
        None => false,
    }
}

/// Whether a range of a plan overlaps one of the transactions at these keys.
fn any_blocks(slots: &Slab<IndexedTransaction>, order: &[usize], plan: &[Shape]) -> bool
    ensures { result ≡ list_any (passes_at (overlaps_plan_of plan.now) slots.now) order.now }
{
    order.iter().any(|key| blocks(slots, *key, plan))
}

fn blocks(slots: &Slab<IndexedTransaction>, key: usize, plan: &[Shape]) -> bool
    ensures { result ≡ passes_at (overlaps_plan_of plan.now) slots.now key }
{
    match slots.get(key) {
        Some(opened) => opened.blocks(plan),
        None => false,
    }
}

/// Whether a range of the transactions at these keys lies in this one.
fn any_lies_in(slots: &Slab<IndexedTransaction>, order: &[usize], range: &ObjectRange) -> bool
    ensures { result
        ≡ list_any (passes_at (has_plan_in (number_range range.now)) slots.now) order.now }
{
    order.iter().any(|key| lies_in(slots, *key, range))
}

fn lies_in(slots: &Slab<IndexedTransaction>, key: usize, range: &ObjectRange) -> bool
    ensures { result ≡ passes_at (has_plan_in (number_range range.now)) slots.now key }
{
    match slots.get(key) {
        Some(opened) => opened.lies_in(range),
        None => false,
    }
}
