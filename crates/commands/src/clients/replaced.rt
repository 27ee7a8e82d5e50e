//! What callers rely on of `create` on a file that may have a pool.

ghost use Rattle.std.specs.Prelude.{ℕ, ◌≡◌, ◌<◌, ◌⊎◌, [], IfErr, IfOk, IsTrue, Some, codes, slice_get, true};
ghost use Rattle.base.specs.disk.Disk.{bytes_of};
ghost use Rattle.base.specs.formats.Fields.{part};
ghost use Rattle.base.specs.formats.Geometry.{IsGeometry};
ghost use Rattle.base.specs.formats.Labels.{Config};
ghost use Rattle.base.specs.history.Contents.{Contents};
ghost use Rattle.base.specs.tree.Mount.{IsTreeDamaged, MountsTo};
ghost use Rattle.labels.specs.Configs.{IsConfigBlock};
ghost use Rattle.read_commands.specs.FoundLabels.{HasConfig};

use super::{BRIEF, OPTIONS};
use crate::replacing::{has_pool, report_pool, run_create_over, run_create_sized};
use base::PoolError;
use command_arguments::{CreateArguments, SizedArguments};
use device_model::SectorDevice;
use file_devices::HeldFile;
use read_commands::ShownWork;
use std::alloc::Global;
use std::io::{Eprint, Write};
use std::os::unix::fs::FileExt;
use std::rt::{Clock, Files};
use std::sync::Wait;

// A pool of 8 MiB whose name is that of the file.
const OF_FILE: SizedArguments<'static> = SizedArguments {
    file: "pools/tank.pool",
    name: None,
    guid: 77,
    size: 8_388_608,
    only_new: false,
    force: false,
    moment: 0,
};

// A file of less than 6 MiB can hold no pool, whatever it holds now.
fn a_small_size_has_status_1_whatever_the_file_holds<
    R: Files + Wait + AllocGlobal + Eprint + Clock,
    W: Write,
    E: Write,
>(rt: &R, work: &ShownWork<'_, R>, out: &mut W, errors: &mut E) -> u8
where
    R::File: FileExt + HeldFile,
    ensures { result ≡ 1 }
{
    let arguments = SizedArguments {
        size: 6_291_455,
        ..OF_FILE
    };
    run_create_sized(rt, arguments, OPTIONS, work, out, errors)
}

fn a_name_that_is_none_has_status_1_whatever_the_file_holds<
    R: Files + Wait + AllocGlobal + Eprint + Clock,
    W: Write,
    E: Write,
>(rt: &R, work: &ShownWork<'_, R>, out: &mut W, errors: &mut E) -> u8
where
    R::File: FileExt + HeldFile,
    ensures { result ≡ 1 }
{
    let arguments = SizedArguments {
        name: Some("4tank"),
        ..OF_FILE
    };
    run_create_sized(rt, arguments, OPTIONS, work, out, errors)
}

// The output had no bytes before.
fn a_pool_without_a_name_has_that_of_its_file<
    R: Files + Wait + AllocGlobal + Eprint + Clock,
    W: Write,
    E: Write,
>(rt: &R, work: &ShownWork<'_, R>, out: &mut W, errors: &mut E) -> u8
where
    R::File: FileExt + HeldFile,
    ensures { result ≡ 0 → W.contents out.old ≡ Some []
        → W.contents out.new ≡ Some (codes "created tank 896 blocks\n") }
{
    run_create_sized(rt, OF_FILE, OPTIONS, work, out, errors)
}

// The output had no bytes before.
fn a_create_over_a_pool_prints_the_name_and_the_blocks<
    R: Files + Wait + AllocGlobal + Eprint + Clock,
    W: Write,
    E: Write,
>(rt: &R, work: &ShownWork<'_, R>, out: &mut W, errors: &mut E) -> u8
where
    R::File: FileExt + HeldFile,
    ensures { result ≡ 0 → W.contents out.old ≡ Some []
        → W.contents out.new ≡ Some (codes "created tank 896 blocks\n") }
{
    let arguments = CreateArguments {
        file: "tank.pool",
        name: "tank",
        guid: 77,
        size: 8_388_608,
        only_new: false,
        moment: 0,
    };
    run_create_over(rt, arguments, OPTIONS, work, out, errors)
}

fn a_file_that_has_a_pool_has_status_3<E: Write>(errors: &mut E) -> u8
    ensures { result ≡ 3 }
{
    report_pool("tank.pool", BRIEF, errors)
}

// The image mounts contents.
fn a_whole_pool_is_there<D: SectorDevice>(alloc: Global, device: &mut D) -> Result<bool, PoolError>
    requires { IsGeometry (D.size device.old) }
    ensures { IsTrue D.keeps_model → (contents : Contents)
        → MountsTo (bytes_of (D.disk device.old).now) contents
        → IfOk result (λ there. there ≡ true) }
{
    has_pool(alloc, device)
}

// A block of its tree is damaged.
fn a_damaged_pool_is_there<D: SectorDevice>(
    alloc: Global,
    device: &mut D,
) -> Result<bool, PoolError>
    requires { IsGeometry (D.size device.old) }
    ensures { IsTrue D.keeps_model → (kind address : ℕ)
        → IsTreeDamaged (bytes_of (D.disk device.old).now) kind address
        → IfOk result (λ there. there ≡ true) }
{
    has_pool(alloc, device)
}

// One label has a config, whatever the rest of the image is.
fn a_pool_of_which_a_label_is_left_is_there<D: SectorDevice>(
    alloc: Global,
    device: &mut D,
) -> Result<bool, PoolError>
    requires { IsGeometry (D.size device.old) }
    ensures { IsTrue D.keeps_model → HasConfig (bytes_of (D.disk device.old).now) 2
        → IfOk result (λ there. there ≡ true) }
{
    has_pool(alloc, device)
}

// Its first label has a config of 8 MiB.
fn a_pool_that_was_lengthened_by_a_sector_is_there<D: SectorDevice>(
    alloc: Global,
    device: &mut D,
) -> Result<bool, PoolError>
    requires { D.size device.old ≡ 8389120 }
    ensures { IsTrue D.keeps_model → (c : Config)
        → IsConfigBlock (part (bytes_of (D.disk device.old).now) 16384 4096) 8388608 c
        → IfOk result (λ there. there ≡ true) }
{
    has_pool(alloc, device)
}

fn a_search_for_a_pool_writes_nothing<D: SectorDevice>(
    alloc: Global,
    device: &mut D,
) -> Result<bool, PoolError>
    ensures { IsTrue D.keeps_model → D.disk device.new ≡ D.disk device.old }
{
    has_pool(alloc, device)
}

// A device that can't be read is not said to have a pool.
fn a_search_for_a_pool_is_refused_for_memory_or_a_read<D: SectorDevice>(
    alloc: Global,
    device: &mut D,
) -> Result<bool, PoolError>
    ensures { IfErr result (λ e. (e ≡ PoolError.NoMemory) ⊎ (e ≡ PoolError.Read)) }
{
    has_pool(alloc, device)
}
