//! What callers rest on of the command that loads a pool.

ghost use Rattle.std.specs.Prelude.{◌≡◌};

use crate::command::run_load;
use command_arguments::{LoadArguments, Order, Verbosity};
use device_model::SectorDevice;
use file_devices::FileRefusal;
use read_commands::NotesRefusals;
use std::io::{Eprint, Write};
use std::sync::Wait;
use std::thread::Threads;

const BRIEF: Verbosity = Verbosity::Quiet;

// What is loaded by so many workers.
fn tank_by(workers: u32) -> LoadArguments<'static>
    ensures { result.order.workers ≡ workers }
{
    LoadArguments {
        file: "tank.pool",
        order: Order {
            workers,
            writes: 200,
            seed: 5,
        },
        dirty_max: 1_048_576,
        cache_blocks: 256,
        moment: 0,
    }
}

fn a_pool_that_is_not_opened_is_loaded_with_status_3<
    R: Threads + Wait + Sync + Eprint + AllocGlobal,
    D: SectorDevice + NotesRefusals + Send + Drop,
    W: Write,
    E: Write,
>(rt: &R, out: &mut W, errors: &mut E) -> u8
    ensures { result ≡ 3 }
{
    let opened: Result<D, FileRefusal> = Err(FileRefusal::InUse);
    run_load(rt, tank_by(4), BRIEF, opened, false, out, errors)
}

// There are 16 streams, so no more workers.
fn a_load_by_17_workers_has_status_1<
    R: Threads + Wait + Sync + Eprint + AllocGlobal,
    D: SectorDevice + NotesRefusals + Send + Drop,
    W: Write,
    E: Write,
>(rt: &R, device: D, out: &mut W, errors: &mut E) -> u8
    ensures { result ≡ 1 }
{
    run_load(rt, tank_by(17), BRIEF, Ok(device), false, out, errors)
}
