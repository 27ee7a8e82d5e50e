//! The line of transaction groups (`txg.c`), with a count of holds. One group is synced. Behind it are at most one that
//! is syncing, then at most one in the middle that quiesces or is quiesced and waits (that there is one at most is this
//! project's rule), and last the open one. They are numbered one after another. A transaction begins in the open group
//! and holds it until it ends. A closed group quiesces while it has a hold, and only then does it take its turn:
//! open, quiescing, quiesced, syncing, synced.

ghost use Rattle.std.specs.Prelude.{◌≡◌, ◌<◌, ◌≤◌, ◌↔◌, IsErr, IsTrue, IfErr, IfOk, OnErr, OnOk, Some, option_map};
ghost use Rattle.base.specs.formats.Limits.{first_group, last_number};
ghost use Rattle.base.specs.steps.Refusals.{quiesced_group, quiescing_group};
ghost use Rattle.groups.specs.CountedLines.{
  IsCounted,
  after_close,
  after_hold,
  after_quiesce,
  after_release,
  after_start,
  after_sync,
  counted_behind,
  is_close_refused,
  is_finish_refused,
  is_hold_refused,
  is_quiesce_refused,
  is_release_refused,
  is_start_refused,
  middle_group,
  number_of,
};

use base::{Group, LAST_NUMBER, MAX_TRANSACTIONS, PoolError};
use std::marker::Model;

/// The group between the open one and the syncing one.
#[derive(Clone, Copy)]
enum Middle {
    /// It is closed, and so many of its transactions are open.
    Quiescing(Group, u64),
    /// None of its transactions is open, and it waits for its sync.
    Quiesced(Group),
}

/// The groups in the order of their numbers, and how many transactions of the open group and of the middle are open.
///
/// Contracts see it as that line with its counts. No call takes memory, and after a refusal nothing has changed.
#[derive(Drop)]
pub struct Groups {
    synced: Group,
    syncing: Option<Group>,
    middle: Option<Middle>,
    open_group: Group,
    open_holds: u64,
}

impl Model for Groups {
    ghost use Rattle.groups.specs.CountedLines.{CountedLine};

    ghost Value = { CountedLine };

    ghost use Rattle.groups.specs.GroupFields.{IsLineOf, counted_line_of, line_fields, line_fields-counted_line_of};

    ghost view = { counted_line_of };

    ghost invariant = { IsLineOf };

    ghost inverse = { line_fields };

    ghost inverse_ok = { λ a h. line_fields-counted_line_of a };
}

impl Groups {
    /// The groups after a synced one: the next is open, and no transaction is.
    pub fn new(synced: Group) -> Self
        requires first { first_group ≤ synced.0 }
        requires last { synced.0 < last_number }
        ensures { result ≡ counted_behind synced.0 }
    {
        Groups {
            synced,
            syncing: None,
            middle: None,
            open_group: Group(synced.0 + 1),
            open_holds: 0,
        }
    }

    /// The synced group.
    pub fn synced(&self) -> Group
        ensures { result.0 ≡ self.now.line.synced }
    {
        self.synced
    }

    /// The group that is syncing.
    pub fn syncing(&self) -> Option<Group>
        ensures { option_map number_of result ≡ self.now.line.syncing }
    {
        self.syncing
    }

    /// The group that quiesces, or is quiesced and waits.
    pub fn middle(&self) -> Option<Group>
        ensures { option_map number_of result ≡ middle_group self.now.line }
    {
        match self.middle {
            Some(Middle::Quiescing(group, _)) | Some(Middle::Quiesced(group)) => Some(group),
            None => None,
        }
    }

    /// The open group.
    pub fn open_group(&self) -> Group
        ensures open_group { result.0 ≡ self.now.line.open_group }
        ensures counted { IsCounted self.now }
    {
        self.open_group
    }

    /// One more transaction of the open group is open: its group.
    ///
    /// # Errors
    /// `NotReady` exactly if 64 transactions are open, those of the open group and of the middle together.
    pub fn hold(&mut self) -> Result<Group, PoolError>
        ensures refused { IsErr result ↔ IsTrue (is_hold_refused self.old) }
        ensures error { IfErr result (λ e. e ≡ PoolError.NotReady) }
        ensures unchanged { OnErr result (self.new ≡ self.old) }
        ensures held { OnOk result (self.new ≡ after_hold self.old) }
        ensures group { IfOk result (λ group. group.0 ≡ self.old.line.open_group) }
    {
        if self.open_holds.saturating_add(self.middle_holds()) >= MAX_TRANSACTIONS as u64 {
            return Err(PoolError::NotReady);
        }
        self.open_holds += 1;
        Ok(self.open_group)
    }

    // How many transactions of the middle are open.
    fn middle_holds(&self) -> u64
        ensures { result ≡ self.now.middle_holds }
    {
        match self.middle {
            Some(Middle::Quiescing(_, holds)) => holds,
            Some(Middle::Quiesced(_)) | None => 0,
        }
    }

    /// A transaction of the group has ended.
    ///
    /// # Errors
    /// `NotReady` exactly if no transaction of the group is open.
    pub fn release(&mut self, group: Group) -> Result<(), PoolError>
        ensures refused { IsErr result ↔ IsTrue (is_release_refused self.old group.0) }
        ensures error { IfErr result (λ e. e ≡ PoolError.NotReady) }
        ensures unchanged { OnErr result (self.new ≡ self.old) }
        ensures released { OnOk result (self.new ≡ after_release group.0 self.old) }
    {
        if group == self.open_group && self.open_holds > 0 {
            self.open_holds -= 1;
            return Ok(());
        }
        let Some(Middle::Quiescing(middle, holds)) = self.middle else {
            return Err(PoolError::NotReady);
        };
        if middle != group || holds == 0 {
            return Err(PoolError::NotReady);
        }
        self.middle = Some(Middle::Quiescing(middle, holds - 1));
        Ok(())
    }

    /// The open group quiesces, and the next one is open, which is answered.
    ///
    /// # Errors
    /// `NotReady` exactly if a middle is there, or the open group has the last number.
    pub fn close_open(&mut self) -> Result<Group, PoolError>
        ensures refused { IsErr result ↔ IsTrue (is_close_refused self.old.line) }
        ensures error { IfErr result (λ e. e ≡ PoolError.NotReady) }
        ensures unchanged { OnErr result (self.new ≡ self.old) }
        ensures closed { OnOk result (self.new ≡ after_close self.old) }
        ensures group { IfOk result (λ group. group.0 ≡ self.new.line.open_group) }
    {
        if self.middle.is_some() || self.open_group.0 >= LAST_NUMBER {
            return Err(PoolError::NotReady);
        }
        self.middle = Some(Middle::Quiescing(self.open_group, self.open_holds));
        self.open_group = Group(self.open_group.0 + 1);
        self.open_holds = 0;
        Ok(self.open_group)
    }

    /// The quiescing group is quiesced, and is answered.
    ///
    /// # Errors
    /// `NotReady` exactly if no group quiesces, or a transaction of it is open.
    pub fn mark_quiesced(&mut self) -> Result<Group, PoolError>
        ensures refused { IsErr result ↔ IsTrue (is_quiesce_refused self.old) }
        ensures error { IfErr result (λ e. e ≡ PoolError.NotReady) }
        ensures unchanged { OnErr result (self.new ≡ self.old) }
        ensures quiesced { IfOk result (λ group. self.new ≡ after_quiesce group.0 self.old) }
        ensures group { IfOk result (λ group. quiescing_group self.old.line ≡ Some group.0) }
    {
        let group = self.ready_to_quiesce()?;
        self.middle = Some(Middle::Quiesced(group));
        Ok(group)
    }

    /// The quiescing group, if none of its transactions is open. Nothing changes.
    ///
    /// # Errors
    /// `NotReady` exactly if no group quiesces, or a transaction of it is open.
    pub fn ready_to_quiesce(&self) -> Result<Group, PoolError>
        ensures refused { IsErr result ↔ IsTrue (is_quiesce_refused self.now) }
        ensures error { IfErr result (λ e. e ≡ PoolError.NotReady) }
        ensures group { IfOk result (λ group. quiescing_group self.now.line ≡ Some group.0) }
    {
        match self.middle {
            Some(Middle::Quiescing(group, 0)) => Ok(group),
            _ => Err(PoolError::NotReady),
        }
    }

    /// The quiesced group, where its sync may start. Nothing changes.
    ///
    /// # Errors
    /// `NotReady` exactly if no group is quiesced, or one is syncing.
    pub fn ready_to_sync(&self) -> Result<Group, PoolError>
        ensures refused { IsErr result ↔ IsTrue (is_start_refused self.now.line) }
        ensures error { IfErr result (λ e. e ≡ PoolError.NotReady) }
        ensures group { IfOk result (λ group. quiesced_group self.now.line ≡ Some group.0) }
    {
        match (self.middle, self.syncing) {
            (Some(Middle::Quiesced(group)), None) => Ok(group),
            _ => Err(PoolError::NotReady),
        }
    }

    /// The quiesced group is syncing from now on, and is answered.
    ///
    /// # Errors
    /// `NotReady` exactly if no group is quiesced, or one is syncing.
    pub fn start_sync(&mut self) -> Result<Group, PoolError>
        ensures refused { IsErr result ↔ IsTrue (is_start_refused self.old.line) }
        ensures error { IfErr result (λ e. e ≡ PoolError.NotReady) }
        ensures unchanged { OnErr result (self.new ≡ self.old) }
        ensures started { IfOk result (λ group. self.new ≡ after_start group.0 self.old) }
        ensures group { IfOk result (λ group. quiesced_group self.old.line ≡ Some group.0) }
    {
        let group = self.ready_to_sync()?;
        self.syncing = Some(group);
        self.middle = None;
        Ok(group)
    }

    /// The syncing group is synced, and is answered.
    ///
    /// # Errors
    /// `NotReady` exactly if no group is syncing.
    pub fn finish_sync(&mut self) -> Result<Group, PoolError>
        ensures refused { IsErr result ↔ IsTrue (is_finish_refused self.old.line) }
        ensures error { IfErr result (λ e. e ≡ PoolError.NotReady) }
        ensures unchanged { OnErr result (self.new ≡ self.old) }
        ensures synced { IfOk result (λ group. self.new ≡ after_sync group.0 self.old) }
        ensures group { IfOk result (λ group. self.old.line.syncing ≡ Some group.0) }
    {
        let Some(group) = self.syncing else {
            return Err(PoolError::NotReady);
        };
        self.syncing = None;
        self.synced = group;
        Ok(group)
    }
}
