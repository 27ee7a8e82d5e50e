//! What a command makes a pool do. Whatever changes the pool goes through `SteppedPool::step`.

ghost use Rattle.std.specs.Prelude.{◌≡◌, [], drop, unwrap_or, IfOk};
ghost use Rattle.std.specs.Vec.Iter.{into_iter_items};
ghost use Rattle.scripts.specs.Fillings.{op_of, ops_of, taken_by};
ghost use Rattle.scripts.specs.PoolSteps as asked;
ghost use Rattle.scripts.specs.PoolSteps.{Asks, CommitsOps, Finishes, Syncs, ops_for};

use crate::stepped_pool::SteppedPool;
use base::{Bytes, Op, Ops, PoolError, Reply, Shape, Step, TxId};
use script_lines::PoolCommand;
use std::alloc::{AllocError, Global};
use std::vec::IntoIter;

/// Does on a pool what a command asks for. Each sync that it starts has this moment.
pub fn run_pool_command<P: SteppedPool>(
    alloc: Global,
    pool: &mut P,
    moment: u64,
    command: PoolCommand,
) -> Reply
    ensures { Asks P.makes P.plan_in command moment result pool.old pool.new }
{
    match command {
        PoolCommand::Commit(tx, contents) => commit(alloc, pool, tx, contents),
        PoolCommand::Start => pool.step(Step::StartSync(moment)),
        PoolCommand::Finish => finish(pool),
        PoolCommand::Sync => sync(pool, moment),
        PoolCommand::Step(step) => pool.step(step),
    }
}

// Commits with the bytes that the script gives. If there is no such transaction, or its plan takes another number of
// bytes, the commit has no operations. Each plan has at least one, so the pool refuses the commit in its own order.
fn commit<P: SteppedPool>(alloc: Global, pool: &mut P, tx: TxId, contents: Vec<Bytes>) -> Reply
    ensures { CommitsOps P.makes tx (ops_for contents.items (P.plan_in tx pool.old))
        result pool.old pool.new }
{
    match make_ops(alloc, pool, tx, contents) {
        Ok(ops) => pool.step(Step::Commit(tx, ops)),
        Err(_) => Reply::Refused(PoolError::NoMemory),
    }
}

// Takes the sync's steps until its group is synced.
fn finish<P: SteppedPool>(pool: &mut P) -> Reply
    ensures { Finishes P.makes result pool.old pool.new }
{
    for _step in 0..u64::MAX {
        match pool.step(Step::SyncStep) {
            Reply::More => {}
            reply => return reply,
        }
    }
    Reply::More
}

fn sync<P: SteppedPool>(pool: &mut P, moment: u64) -> Reply
    ensures { Syncs P.makes moment result pool.old pool.new }
{
    let closed = pool.step(Step::CloseGroup);
    if is_refused(&closed) {
        return closed;
    }
    let quiesced = pool.step(Step::MarkQuiesced);
    if is_refused(&quiesced) {
        return quiesced;
    }
    let started = pool.step(Step::StartSync(moment));
    if is_refused(&started) {
        return started;
    }
    finish(pool)
}

fn is_refused(reply: &Reply) -> bool
    ensures { result ≡ asked.is_refused reply.now }
{
    matches!(reply, Reply::Refused(_))
}

// The operations of a transaction's plan with these bytes.
fn make_ops<P: SteppedPool>(
    alloc: Global,
    pool: &P,
    tx: TxId,
    contents: Vec<Bytes>,
) -> Result<Ops, AllocError>
    ensures { IfOk result (λ ops. ops ≡ ops_for contents.items (P.plan_in tx pool.now)) }
{
    match pool.open_plan(tx) {
        Some(plan) => fill_plan(alloc, plan.as_slice(), contents),
        None => Ok(Ops::new(Vec::new(alloc))),
    }
}

// The operations of a plan with these bytes for its writes and names, in order; none if there are not as many.
fn fill_plan(alloc: Global, shapes: &[Shape], contents: Vec<Bytes>) -> Result<Ops, AllocError>
    ensures { IfOk result (λ ops. ops ≡ unwrap_or (ops_of shapes.now contents.items) []) }
{
    let mut ops = Vec::new(alloc);
    let mut rest = contents.into_iter();
    for shape in shapes {
        let Some(op) = make_op(*shape, &mut rest) else {
            return Ok(Ops::new(Vec::new(alloc)));
        };
        ops.push(op)?;
    }
    if rest.next().is_some() {
        return Ok(Ops::new(Vec::new(alloc)));
    }
    Ok(Ops::new(ops))
}

fn make_op(shape: Shape, contents: &mut IntoIter<Bytes>) -> Option<Op>
    ensures op { result ≡ op_of shape (into_iter_items contents.old) }
    ensures rest { into_iter_items contents.new
        ≡ drop (taken_by shape) (into_iter_items contents.old) }
{
    match shape {
        Shape::Create(id) => Some(Op::Create(id)),
        Shape::Remove(id) => Some(Op::Remove(id)),
        Shape::Write(id, offset, _) => Some(Op::Write(id, offset, contents.next()?)),
        Shape::SetLength(id, length) => Some(Op::SetLength(id, length)),
        Shape::SetName(_) => Some(Op::SetName(contents.next()?)),
    }
}
