//! What callers rest on of transactions: the limit of their charges, and one that is given up.

ghost use Rattle.std.specs.Prelude.{◌≡◌, ◌<◌, ◌+◌, [], Err, None, false, true};
ghost use Rattle.base.specs.history.Plans.{charge_of};
ghost use Rattle.base.specs.steps.Refusals.{first_refusal};
ghost use Rattle.contents.specs.ContentsShown.{contents_of};
ghost use Rattle.tree_blocks.specs.ListedObjects.{AreWithin};
ghost use Rattle.pool_tables.specs.BeginTests.{plan_tests};
ghost use Rattle.pool_tables.specs.Shows.{pool_shown};

use base::{PoolError, Shape, TxId};
use mounted::Mounted;
use pool_tables::PoolTables;

// No transaction is open in a pool that was just mounted, and the group after the mounted one is open.
fn a_mounted_pool_has_no_transaction(mounted: Mounted) -> PoolTables
    requires { AreWithin (contents_of mounted.contents).objects }
    ensures none { (pool_shown result).transactions ≡ [] }
    ensures open { (pool_shown result).line.open_group ≡ mounted.group.0 + 1 }
{
    PoolTables::new(mounted)
}

// A plan that is charged two blocks is above a limit of one.
fn a_plan_of_two_blocks_is_above_a_limit_of_one(pool: &PoolTables, plan: &[Shape]) -> bool
    requires allowed { first_refusal (plan_tests plan.now) ≡ None }
    requires charged { charge_of plan.now ≡ 8192 }
    requires limit { (pool_shown pool.now).dirty_max ≡ 4096 }
    ensures { result ≡ true }
{
    pool.is_above_limit(plan)
}

// A transaction that is given up is open no more.
fn a_transaction_that_is_given_up_has_no_plan(pool: &mut PoolTables, tx: TxId) -> bool
    requires { (pool_shown pool.old).suspended ≡ false }
    ensures { result ≡ false }
{
    let _ = pool.abort(tx);
    pool.open_plan(tx).is_some()
}

// So it is given up once.
fn a_transaction_is_given_up_once(pool: &mut PoolTables, tx: TxId) -> Result<(), PoolError>
    requires { (pool_shown pool.old).suspended ≡ false }
    ensures { result ≡ Err PoolError.NoSuchTransaction }
{
    let _ = pool.abort(tx);
    pool.abort(tx)
}
