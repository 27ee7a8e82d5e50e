//! What callers rest on of the loops beside a program's work.

ghost use Rattle.std.specs.Prelude.{◌≡◌, IfOk};

use crate::beside::{run_beside_loops, work_beside_loops};
use crate::halt::Halt;
use base::PoolError;
use device_model::SectorDevice;
use pool_threads::Pool;
use std::sync::Wait;
use std::thread::Threads;

fn what_the_work_returns_is_returned<D: SectorDevice + Send, R: Threads + Wait + Sync>(
    rt: &R,
    pool: &Pool<D>,
    count: u64,
) -> Result<u64, PoolError>
    ensures { IfOk result (λ n. n ≡ count) }
{
    run_beside_loops(rt, pool, &Halt::new(), || Ok(count))
}

fn what_the_work_returns_comes_back_beside_a_refused_loop<
    D: SectorDevice + Send,
    R: Threads + Wait + Sync,
>(rt: &R, pool: &Pool<D>, count: u64) -> (Result<u64, PoolError>, Result<(), PoolError>)
    ensures { IfOk result.0 (λ n. n ≡ count) }
{
    work_beside_loops(rt, pool, &Halt::new(), || Ok(count))
}

fn a_noted_answer_is_handed_on(halt: &Halt, answer: Result<(), PoolError>) -> Result<(), PoolError>
    ensures { result ≡ answer }
{
    halt.note(answer)
}
