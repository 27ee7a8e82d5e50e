//! What callers rely on: one function for each promise of this crate's calls, proved from the contract of the call
//! alone. So it is refused as soon as that contract promises less.

mod left_devices;
mod named;
mod named_objects;
mod named_refusals;
mod objects;
mod parts;
mod refusals;
mod replaced;

ghost use Rattle.std.specs.Prelude.{◌≡◌, [], Some, codes};

use crate::pool_files::run_create;
use command_arguments::{CreateArguments, Options, Verbosity};
use file_devices::HeldFile;
use read_commands::ShownWork;
use std::io::{Eprint, Write};
use std::os::unix::fs::FileExt;
use std::rt::{Clock, Files};
use std::sync::Wait;

const BRIEF: Verbosity = Verbosity::Quiet;

const OPTIONS: Options = Options {
    verbosity: BRIEF,
    wait: 0,
};

// A file of less than 6 MiB can hold no pool.
fn a_pool_in_a_small_file_has_status_1<R: Files + Wait + Eprint + Clock, W: Write, E: Write>(
    rt: &R,
    work: &ShownWork<'_, R>,
    out: &mut W,
    errors: &mut E,
) -> u8
where
    R::File: FileExt + HeldFile,
    ensures { result ≡ 1 }
{
    let arguments = CreateArguments {
        file: "tank.pool",
        name: "tank",
        guid: 77,
        size: 6_291_455,
        only_new: false,
        moment: 0,
    };
    run_create(rt, arguments, OPTIONS, work, out, errors)
}

// A name begins with a letter.
fn a_pool_named_by_a_digit_has_status_1<R: Files + Wait + Eprint + Clock, W: Write, E: Write>(
    rt: &R,
    work: &ShownWork<'_, R>,
    out: &mut W,
    errors: &mut E,
) -> u8
where
    R::File: FileExt + HeldFile,
    ensures { result ≡ 1 }
{
    let arguments = CreateArguments {
        file: "tank.pool",
        name: "4tank",
        guid: 77,
        size: 8_388_608,
        only_new: false,
        moment: 0,
    };
    run_create(rt, arguments, OPTIONS, work, out, errors)
}

// The output had no bytes before.
fn a_create_prints_the_name_and_the_blocks<R: Files + Wait + Eprint + Clock, W: Write, E: Write>(
    rt: &R,
    work: &ShownWork<'_, R>,
    out: &mut W,
    errors: &mut E,
) -> u8
where
    R::File: FileExt + HeldFile,
    ensures { result ≡ 0 → W.contents out.old ≡ Some []
        → W.contents out.new ≡ Some (codes "created tank 896 blocks\n") }
{
    let arguments = CreateArguments {
        file: "tank.pool",
        name: "tank",
        guid: 77,
        size: 8_388_608,
        only_new: false,
        moment: 0,
    };
    run_create(rt, arguments, OPTIONS, work, out, errors)
}
