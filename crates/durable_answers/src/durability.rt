//! How the durable transactions of a frame become durable: by one flush of the log for all of them.

ghost use Rattle.std.specs.Prelude.{◌≡◌, ◌≤◌, ◌+◌, [], IsSome, None, false, true, vec_capacity, vec_len};
ghost use Rattle.durable_answers.specs.Durability.{Asks, AsksAll, AwaitsFlush, AwaitsNoFlush, MakesDurable, durable_receipt};

use base::PoolError;
use device_model::SectorDevice;
use frames::{Answer, Outcome};
use pool_threads::Handle;
use std::sync::Wait;

/// Makes durable what the durable ones of these answers committed: the answers then. The other list has room for them.
///
/// One call writes and flushes the log for all of them. If it is refused, each commit is asked for: one of a group that
/// was synced, or of a log block that was flushed, is durable even so.
pub fn make_durable<'a, 'b, 'p, D: SectorDevice, W: Wait>(
    handle: &'a mut Handle<'p, D>,
    rt: &'b W,
    made: Vec<Answer>,
    room: Vec<Answer>,
) -> Vec<Answer>
    requires room { vec_len room + vec_len made ≤ vec_capacity room }
    requires empty { room.items ≡ [] }
    ensures { MakesDurable made.items result.items handle.old handle.new }
{
    if !await_flush(made.as_slice()) {
        return made;
    }
    match handle.fsync_all(rt) {
        Ok(()) => made,
        Err(error) => ask_all(handle, rt, error, made, room),
    }
}

/// Whether there is the answer of a durable transaction among them.
fn await_flush(answers: &[Answer]) -> bool
    ensures some { result ≡ true → AwaitsFlush answers.now }
    ensures none { result ≡ false → AwaitsNoFlush answers.now }
{
    answers.iter().any(|answer| says_durable(answer))
}

/// Whether this is the answer of a durable transaction.
fn says_durable(answer: &Answer) -> bool
    ensures some { result ≡ true → IsSome (durable_receipt answer.now.outcome) }
    ensures none { result ≡ false → durable_receipt answer.now.outcome ≡ None }
{
    matches!(answer.outcome, Outcome::MadeDurable(_))
}

/// Asks for the commits of the durable ones of these answers, in their order, after the flush was refused.
fn ask_all<'a, 'b, 'p, D: SectorDevice, W: Wait>(
    handle: &'a mut Handle<'p, D>,
    rt: &'b W,
    error: PoolError,
    made: Vec<Answer>,
    room: Vec<Answer>,
) -> Vec<Answer>
    requires room { vec_len room + vec_len made ≤ vec_capacity room }
    requires empty { room.items ≡ [] }
    ensures { AsksAll error made.items result.items handle.old handle.new }
{
    let mut answers = room;
    for answer in made {
        let asked = ask(handle, rt, error, answer);
        answers.push_reserved(asked);
    }
    answers
}

/// Asks whether the commit of an answer is durable, if it is that of a durable transaction: the answer then.
fn ask<'a, 'b, 'p, D: SectorDevice, W: Wait>(
    handle: &'a mut Handle<'p, D>,
    rt: &'b W,
    error: PoolError,
    made: Answer,
) -> Answer
    ensures { Asks error made result handle.old handle.new }
{
    let Outcome::MadeDurable(receipt) = made.outcome else {
        return made;
    };
    if handle.durable(rt, receipt) {
        return made;
    }
    Answer {
        number: made.number,
        outcome: Outcome::NotDurable(receipt, error),
    }
}
