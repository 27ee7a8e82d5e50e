//! A script's session that notes which commits aren't durable, and may sync its pool at the end.

use base::{Group, PoolError, Receipt, Reply, Step};
use scripts::{Answer, BadCommand, Command, CommandRunner, PoolCommand};
use std::alloc::Global;
use std::mem;

/// A session, with the receipts of commits of which it isn't known that they are durable.
#[derive(Drop)]
pub(crate) struct NotedSession<S: CommandRunner> {
    session: S,
    alloc: Global,
    receipts: Vec<Receipt>,
    // the commits that aren't durable of pools that were given up, and those that there was no memory to note
    lost: u64,
}

impl<S: CommandRunner> NotedSession<S> {
    /// A session that has run no command.
    pub fn new(alloc: Global, session: S) -> Self {
        NotedSession {
            session,
            alloc,
            receipts: Vec::new(alloc),
            lost: 0,
        }
    }

    /// Syncs the pool, if there is one: first a group whose sync has begun or that is closed, then the open one.
    ///
    /// # Errors
    /// The first refusal of a step. It is `NotReady` if a transaction is open.
    pub fn sync(&mut self) -> Result<(), PoolError> {
        // What these are refused, the last one is refused too.
        self.make_if_ready(PoolCommand::Finish)?;
        self.make_if_ready(PoolCommand::Step(Step::MarkQuiesced))?;
        self.make_if_ready(PoolCommand::Start)?;
        self.make_if_ready(PoolCommand::Finish)?;
        self.make(PoolCommand::Sync)
    }

    /// The session.
    pub fn into_session(self) -> S {
        self.session
    }

    /// How many of its commits aren't durable.
    pub fn count_lost(&mut self) -> u64 {
        self.forget_receipts();
        self.lost
    }

    // Does what a command asks for, unless the pool isn't ready for it.
    fn make_if_ready(&mut self, command: PoolCommand) -> Result<(), PoolError> {
        match self.make(command) {
            Err(PoolError::NotReady) => Ok(()),
            made => made,
        }
    }

    // Does what a command asks for, if there is a pool.
    fn make(&mut self, command: PoolCommand) -> Result<(), PoolError> {
        match self.ask(command) {
            Some(Reply::Refused(refusal)) => Err(refusal),
            _ => Ok(()),
        }
    }

    // What the pool replies, if there is one.
    fn ask(&mut self, command: PoolCommand) -> Option<Reply> {
        match self.session.run(Command::Pool(command)) {
            Ok(Answer::Reply(reply)) => Some(reply),
            _ => None,
        }
    }

    // Asks for each commit whether it is durable.
    fn forget_receipts(&mut self) {
        let receipts = mem::replace(&mut self.receipts, Vec::new(self.alloc));
        for receipt in receipts {
            let durable = Step::Durable(receipt);
            if !matches!(
                self.ask(PoolCommand::Step(durable)),
                Some(Reply::Durable(true))
            ) {
                self.lost = self.lost.saturating_add(1);
            }
        }
    }

    fn note(&mut self, receipt: Receipt) {
        if self.receipts.push(receipt).is_err() {
            self.lost = self.lost.saturating_add(1);
        }
    }

    // The groups up to this one are synced.
    fn keep_above(&mut self, synced: Group) {
        self.receipts.retain(|receipt| receipt.group > synced);
    }
}

impl<S: CommandRunner> CommandRunner for NotedSession<S> {
    ghost runs = { λ _ _ _ _. Unit };

    fn run(&mut self, command: Command) -> Result<Answer, BadCommand> {
        // these give the pool up
        if matches!(command, Command::Create { .. } | Command::Import { .. }) {
            self.forget_receipts();
        }
        let answer = self.session.run(command)?;
        match answer {
            Answer::Reply(Reply::Committed(receipt)) => self.note(receipt),
            Answer::Reply(Reply::Synced(group)) => self.keep_above(group),
            _ => {}
        }
        Ok(answer)
    }
}
