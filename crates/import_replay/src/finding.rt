//! The pool that a device has: its active uberblock, and its name.

ghost use Rattle.std.specs.Prelude.{◌≡◌, ◌<◌, ◌≤◌, ◌+◌, ◌*◌, IfErr, IfOk, IsTrue, OnOk, length, vec_len};
ghost use Rattle.base.specs.disk.Disk.{bytes_of, put};
ghost use Rattle.base.specs.formats.Fields.{part};
ghost use Rattle.base.specs.formats.Geometry.{slot_place};
ghost use Rattle.base.specs.formats.Labels.{HasNoCandidate};
ghost use Rattle.base.specs.formats.Names.{IsName};
ghost use Rattle.base.specs.tree.Mount.{HasPool};
ghost use Rattle.base.specs.formats.Uberblocks.{IsActive};
ghost use Rattle.device_model.specs.Reading.{OnlyReads};
ghost use Rattle.uberblocks.specs.Rings.{array_size, ring_size};
ghost use Rattle.uberblocks.specs.Slots.{IsWithinLimits, fields_of};
ghost use Rattle.labels.specs.Choices.{AreRead, IsRead};
ghost use Rattle.import_replay.specs.Devices.{IsSizedFor};
ghost use Rattle.import_replay.specs.ImportRefusals.{IsFindRefusal, IsReason};
ghost use Rattle.import_replay.specs.Found.{HasChosen, HasChosenFirst, HasFirstStage, HasName, LacksName, LacksUberblock};
ghost use Rattle.import_replay.specs.LabelSyncs.{is_even};

use base::{PoolError, PoolName};
use device_model::SectorDevice;
use labels::{ARRAY_AT, Geometry, LabelConfig, Stage, choose, is_kept_in_odd};
use std::alloc::Global;
use uberblocks::{ARRAY_SIZE, LABEL_COUNT, Uberblock, active};

/// A pool that was found on a device.
#[derive(Drop)]
pub struct Found {
    /// The active uberblock.
    pub uberblock: Uberblock,
    /// The name in the config that is chosen for it.
    pub name: PoolName,
    /// The pair of labels that an import may write first.
    pub first: Stage,
    ghost limits: { IsWithinLimits (fields_of uberblock) },
    ghost named: { IsName name },
}

/// Returns the pool of a device: its active uberblock, and the name of the config that is chosen for it.
///
/// # Errors
/// `NoPool` if the device has none. `NoMemory` and `Read` when they happen.
pub fn find_pool<D: SectorDevice>(
    alloc: Global,
    device: &mut D,
    geometry: Geometry,
) -> Result<Found, PoolError>
    requires sized { IsSizedFor D.SectorDevice geometry device.old }
    ensures reads { OnlyReads D.SectorDevice result device.old device.new }
    ensures refused { IfErr result IsFindRefusal }
    ensures pool { IsTrue D.keeps_model → IfOk result
        (λ f. HasPool (bytes_of (D.disk device.old).now) (fields_of f.uberblock) f.name) }
    ensures first { IsTrue D.keeps_model → IfOk result
        (λ f. HasFirstStage (bytes_of (D.disk device.old).now) f.uberblock.guid
        f.uberblock.group.0 f.name (is_even f.first)) }
    ensures reason { IsTrue D.keeps_model
        → IfErr result (IsReason (bytes_of (D.disk device.old).now)) }
{
    let uberblock = read_uberblock(alloc, device, geometry)?;
    let (name, first) = read_name(device, geometry, &uberblock)?;
    Ok(Found {
        uberblock,
        name,
        first,
    })
}

// The active uberblock of the four arrays.
fn read_uberblock<D: SectorDevice>(
    alloc: Global,
    device: &mut D,
    geometry: Geometry,
) -> Result<Uberblock, PoolError>
    requires { D.size device.old ≡ geometry }
    ensures reads { OnlyReads D.SectorDevice result device.old device.new }
    ensures refused { IfErr result IsFindRefusal }
    ensures limits { IfOk result (λ u. IsWithinLimits (fields_of u)) }
    ensures active { IsTrue D.keeps_model → IfOk result
        (λ u. IsActive (bytes_of (D.disk device.old).now) (fields_of u)) }
    ensures none { IsTrue D.keeps_model → IfErr result
        (LacksUberblock (bytes_of (D.disk device.old).now)) }
{
    let mut ring = blank(alloc, LABEL_COUNT * ARRAY_SIZE)?;
    for label in 0..LABEL_COUNT {
        read_array(device, geometry, label, ring.as_mut_slice())?;
    }
    active(&ring).ok_or(PoolError::NoPool)
}

fn blank(alloc: Global, size: usize) -> Result<Vec<u8>, PoolError>
    ensures size { IfOk result (λ bytes. vec_len bytes ≡ size) }
    ensures refused { IfErr result (λ e. e ≡ PoolError.NoMemory) }
{
    Ok(vec![in alloc; 0u8; size]?)
}

// Reads the uberblock array of a label into its place of a ring.
fn read_array<D: SectorDevice>(
    device: &mut D,
    geometry: Geometry,
    label: usize,
    ring: &mut [u8],
) -> Result<(), PoolError>
    requires sized { D.size device.old ≡ geometry }
    requires label { label < 4 }
    requires ring { length ring.old ≡ ring_size }
    ensures reads { OnlyReads D.SectorDevice result device.old device.new }
    ensures refused { IfErr result (λ e. e ≡ PoolError.Read) }
    ensures length { length ring.new ≡ ring_size }
    ensures within { slot_place geometry label 0 + array_size ≤ geometry }
    ensures array { IsTrue D.keeps_model → OnOk result (ring.new
        ≡ put (array_size * label) (part (bytes_of (D.disk device.old).now)
        (slot_place geometry label 0) array_size) ring.old) }
{
    let at = geometry.label_place(label) + ARRAY_AT;
    device.read(at, &mut ring[ARRAY_SIZE * label..ARRAY_SIZE * (label + 1)])
}

// The name of the pool of an active uberblock, and the pair of labels that an import may write first: the even ones
// if an odd label holds the chosen config, so that it stays until another pair is flushed.
fn read_name<D: SectorDevice>(
    device: &mut D,
    geometry: Geometry,
    uberblock: &Uberblock,
) -> Result<(PoolName, Stage), PoolError>
    requires { D.size device.old ≡ geometry }
    ensures reads { OnlyReads D.SectorDevice result device.old device.new }
    ensures refused { IfErr result IsFindRefusal }
    ensures name { IsTrue D.keeps_model → IfOk result
        (λ r. HasName (bytes_of (D.disk device.old).now)
        uberblock.now.guid uberblock.now.group.0 r.0) }
    ensures first { IsTrue D.keeps_model → IfOk result
        (λ r. HasFirstStage (bytes_of (D.disk device.old).now)
        uberblock.now.guid uberblock.now.group.0 r.0 (is_even r.1)) }
    ensures none { IsTrue D.keeps_model → IfErr result
        (LacksName (bytes_of (D.disk device.old).now) uberblock.now.guid uberblock.now.group.0) }
    ensures grammar { IfOk result (λ r. IsName r.0) }
{
    let configs = read_configs(device, geometry)?;
    choose_name(&configs, uberblock)
}

// The name of the config that is chosen, and the pair of labels that may be written first.
fn choose_name(
    configs: &[Option<LabelConfig>; 4],
    uberblock: &Uberblock,
) -> Result<(PoolName, Stage), PoolError>
    ensures name { IfOk result
        (λ r. HasChosen configs.now uberblock.now.guid uberblock.now.group.0 r.0) }
    ensures first { IfOk result
        (λ r. HasChosenFirst configs.now uberblock.now.guid uberblock.now.group.0 r.0
        (is_even r.1)) }
    ensures none { IfErr result (λ e. e ≡ PoolError.NoPool
        → HasNoCandidate configs.now uberblock.now.guid uberblock.now.group.0) }
    ensures refused { IfErr result (λ e. e ≡ PoolError.NoPool) }
    ensures grammar { IfOk result (λ r. IsName r.0) }
{
    let chosen = choose(configs, uberblock.guid, uberblock.group)?;
    let first = if is_kept_in_odd(configs, chosen) {
        Stage::Even
    } else {
        Stage::Odd
    };
    Ok((chosen.name().copy(), first))
}

// What the four labels hold.
fn read_configs<D: SectorDevice>(
    device: &mut D,
    geometry: Geometry,
) -> Result<[Option<LabelConfig>; 4], PoolError>
    requires { D.size device.old ≡ geometry }
    ensures reads { OnlyReads D.SectorDevice result device.old device.new }
    ensures refused { IfErr result (λ e. e ≡ PoolError.Read) }
    ensures configs { IsTrue D.keeps_model
        → IfOk result (AreRead (bytes_of (D.disk device.old).now)) }
{
    Ok([
        read_config(device, geometry, 0)?,
        read_config(device, geometry, 1)?,
        read_config(device, geometry, 2)?,
        read_config(device, geometry, 3)?,
    ])
}

fn read_config<D: SectorDevice>(
    device: &mut D,
    geometry: Geometry,
    label: usize,
) -> Result<Option<LabelConfig>, PoolError>
    requires sized { D.size device.old ≡ geometry }
    requires label { label < 4 }
    ensures reads { OnlyReads D.SectorDevice result device.old device.new }
    ensures refused { IfErr result (λ e. e ≡ PoolError.Read) }
    ensures config { IsTrue D.keeps_model
        → IfOk result (IsRead (bytes_of (D.disk device.old).now) label) }
{
    let mut buffer = [0; 4096];
    device.read(geometry.config_place(label), &mut buffer[..])?;
    Ok(LabelConfig::decode(&buffer, geometry.size()))
}
