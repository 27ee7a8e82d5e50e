//! What callers rest on: one function for each promise of this crate's calls, proved from the contract of the call
//! alone. So it is refused as soon as that contract says less.

ghost use Rattle.std.specs.Prelude.{◌≡◌, ◌≢◌, [], IfErr, IfOk, IsTrue, List, Some, codes, true};
ghost use Rattle.base.specs.declared.operation.Op.{Op};
ghost use Rattle.base.specs.disk.Disk.{bytes_of};
ghost use Rattle.base.specs.history.Contents.{Contents};
ghost use Rattle.base.specs.tree.Mount.{MountsTo};
ghost use Rattle.copies.specs.NewPools.{HoldsTransactions};
ghost use Rattle.object_views.specs.PoolPaths.{AreFoundOn, ArePathsOf};

use crate::copying::{NewPool, copy_into};
use crate::files::{copy_on, run_copy};
use crate::stop::Stop;
use command_arguments::{CopyArguments, Options, Verbosity};
use device_model::SectorDevice;
use file_devices::{FileRefusal, HeldFile};
use object_views::PoolPaths;
use read_commands::{Failure, NotesRefusals, ShownWork};
use std::io::{Eprint, Write};
use std::os::unix::fs::FileExt;
use std::rt::{Clock, Files};
use std::sync::Wait;

const OPTIONS: Options = Options {
    verbosity: Verbosity::Quiet,
    wait: 0,
};

// What a copy is asked for that gives the new file this size.
fn copy_of(size: Option<u64>) -> CopyArguments<'static>
    ensures size { result.size ≡ size }
{
    CopyArguments {
        old: "old.pool",
        new: "new.pool",
        size,
        guid: 78,
        skips_damaged: true,
        moment: 0,
    }
}

// The output had no bytes before.
fn a_copy_of_status_0_prints_nothing<
    R: Files + Wait + Eprint + AllocGlobal + Clock,
    D: SectorDevice + NotesRefusals,
    W: Write,
    E: Write,
>(
    rt: &R,
    work: &ShownWork<'_, R>,
    opened: &mut Result<D, FileRefusal>,
    out: &mut W,
    errors: &mut E,
) -> u8
where
    R::File: FileExt + HeldFile,
    ensures { result ≡ 0 → IfOk opened.old
        (λ _. W.contents out.old ≡ Some [] → W.contents out.new ≡ Some []) }
{
    run_copy(rt, copy_of(None), OPTIONS, work, opened, out, errors)
}

fn a_copy_leaves_the_old_disk_as_it_was<
    R: Files + Wait + Eprint + AllocGlobal + Clock,
    D: SectorDevice + NotesRefusals,
    W: Write,
    E: Write,
>(
    rt: &R,
    work: &ShownWork<'_, R>,
    opened: &mut Result<D, FileRefusal>,
    out: &mut W,
    errors: &mut E,
) -> u8
where
    R::File: FileExt + HeldFile,
    ensures { IsTrue D.keeps_model → IfOk opened.old
        (λ before. IfOk opened.new (λ after. D.disk after ≡ D.disk before)) }
{
    run_copy(rt, copy_of(None), OPTIONS, work, opened, out, errors)
}

fn a_copy_into_a_small_file_has_status_1<
    R: Files + Wait + Eprint + AllocGlobal + Clock,
    D: SectorDevice + NotesRefusals,
    W: Write,
    E: Write,
>(
    rt: &R,
    work: &ShownWork<'_, R>,
    opened: &mut Result<D, FileRefusal>,
    out: &mut W,
    errors: &mut E,
) -> u8
where
    R::File: FileExt + HeldFile,
    ensures { IfOk opened.old (λ _. result ≡ 1) }
{
    run_copy(
        rt,
        copy_of(Some(6_291_455)),
        OPTIONS,
        work,
        opened,
        out,
        errors,
    )
}

// A damage isn't passed over unless that is asked for.
fn a_copy_that_ends_has_all<
    R: Wait + AllocGlobal,
    D: SectorDevice,
    N: SectorDevice + Drop,
    W: Write,
>(
    rt: &R,
    paths: &PoolPaths,
    pool: NewPool,
    old: &mut D,
    new: N,
    out: &mut W,
) -> (Result<bool, Stop>, N)
    requires fits { AreFoundOn (D.size old.old) paths.now }
    requires paths { IsTrue D.keeps_model → ArePathsOf (bytes_of (D.disk old.old).now) paths.now }
    ensures { IfOk result.0 (λ whole. whole ≡ true) }
{
    copy_into(rt, paths, pool, false, old, new, out)
}

// Whatever is written into it, the new pool has the name of what an import of the old one would mount.
fn a_copy_has_the_name_that_is_mounted<
    R: Wait + AllocGlobal,
    D: SectorDevice + NotesRefusals,
    N: SectorDevice + NotesRefusals + Drop,
    W: Write,
>(rt: &R, paths: &PoolPaths, old: &mut D, new: N, out: &mut W) -> (Result<bool, Failure>, N)
    requires fits { AreFoundOn (D.size old.old) paths.now }
    requires paths { IsTrue D.keeps_model → ArePathsOf (bytes_of (D.disk old.old).now) paths.now }
    ensures { IsTrue D.keeps_model → IsTrue N.keeps_model → (contents : Contents)
        → MountsTo (bytes_of (D.disk old.old).now) contents → contents.name ≡ codes "tank"
        → IfOk result.0 (λ _. (all : List (List Op))
        × HoldsTransactions (codes "tank") all (N.disk result.1)) }
{
    copy_on(rt, copy_of(None), paths, old, new, out)
}

// Only what is missing has a line, so nothing can fail to be written.
fn a_copy_of_a_pool_that_mounts_needs_no_output<
    R: Wait + AllocGlobal,
    D: SectorDevice + NotesRefusals,
    N: SectorDevice + NotesRefusals + Drop,
    W: Write,
>(rt: &R, paths: &PoolPaths, old: &mut D, new: N, out: &mut W) -> (Result<bool, Failure>, N)
    requires fits { AreFoundOn (D.size old.old) paths.now }
    requires paths { IsTrue D.keeps_model → ArePathsOf (bytes_of (D.disk old.old).now) paths.now }
    ensures { IsTrue D.keeps_model → (contents : Contents)
        → MountsTo (bytes_of (D.disk old.old).now) contents
        → IfErr result.0 (λ why. why ≢ Failure.Unwritten) }
{
    copy_on(rt, copy_of(None), paths, old, new, out)
}
