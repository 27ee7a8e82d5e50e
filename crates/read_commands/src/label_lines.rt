//! The command `labels`: what each of the four labels of a device holds, and which uberblock is active. It only reads.
//!
//! So it says something of a file that holds no pool too: a config is there but for a file of another size, or none is.

ghost use Rattle.std.specs.Prelude.{ℕ, ◌≡◌, ◌≢◌, ◌≤◌, ◌<◌, ◌+◌, ◌*◌, ◌⊎◌, Err, IfErr, IfNone, IfOk, IfSome, IsErr, IsTrue, OnOk, false, length, max, true, vec_len};
ghost use Rattle.base.specs.disk.Disk.{bytes_of, put};
ghost use Rattle.base.specs.formats.Fields.{part};
ghost use Rattle.base.specs.formats.Geometry.{IsGeometry, slot_count, slot_place};
ghost use Rattle.base.specs.formats.Uberblocks.{IsUberblock};
ghost use Rattle.base.specs.formats.Uberblocks as formats;
ghost use Rattle.device_model.specs.Reading.{OnlyReads};
ghost use Rattle.read_commands.specs.Checks.{IsCheckRefusal, StaysOpened};
ghost use Rattle.read_commands.specs.FoundLabels.{IsReasonOf, IsStateOf, config_bytes_at, state_of};
ghost use Rattle.read_commands.specs.LabelTexts.{WritesFour};
ghost use Rattle.read_commands.specs.ReadLabels.{AreConfigsFound, AreCounted, AreLabelsOf, HasGroupAt, IsConfigFound, arrays_of, slots_read};
ghost use Rattle.read_commands.specs.Undone.{IsCheckRefused, IsLookFailure, ChecksUndone};
ghost use Rattle.uberblocks.specs.Rings.{HasNoneInRing, IsActiveInRing, IsRingOf, array_size, ring_size};
ghost use Rattle.uberblocks.specs.Slots.{HoldsNoUberblock, fields_of};

use crate::failure::{Failure, NotesRefusals, report_failure};
use crate::label_texts::write_labels;
use crate::labels_read::Labels;
use base::{BLOCK_SIZE, Group, PoolError, are_zeros, read_u64};
use command_arguments::Verbosity;
use device_model::SectorDevice;
use file_devices::FileRefusal;
use labels::{ARRAY_AT, Geometry, LabelConfig};
use std::alloc::Global;
use std::io::Write;
use uberblocks::{ARRAY_SIZE, LABEL_COUNT, SLOT_COUNT, SLOT_SIZE, Uberblock, active, slot};

/// Where the block of a config has the size of its device.
const SIZE_AT: usize = 72;

/// Writes to `out` what the labels of a device hold, and returns the exit status. It only reads the file: it makes no
/// write and no flush, whatever it returns.
///
/// The status is 0 if it was written, whatever the labels hold. It is 1 if the engine refused it: `NoMemory`, `Read`,
/// or `BadGeometry` if no pool may have the file's size. It is 3 if the file was not opened as a device or `out` can't
/// be written. A failure is reported on `errors`.
pub fn run_labels<D: SectorDevice + NotesRefusals, W: Write, E: Write>(
    alloc: Global,
    file: &str,
    verbosity: Verbosity,
    opened: &mut Result<D, FileRefusal>,
    out: &mut W,
    errors: &mut E,
) -> u8
    ensures only_read { StaysOpened D.SectorDevice opened.old opened.new }
    ensures unusable { IsErr opened.old → result ≡ 3 }
    ensures size { IfOk opened.old (λ device. (IsGeometry (D.size device) → ⊥) → result ≡ 1) }
    ensures printed { result ≡ 0 → IfOk opened.old (λ device. WritesFour (IsTrue D.keeps_model)
        (bytes_of (D.disk device).now) (W.contents out.old) (W.contents out.new)) }
    ensures undone { result ≢ 0 → ChecksUndone D.SectorDevice opened.old opened.new result }
    ensures unprinted { result ≡ 1 → W.contents out.new ≡ W.contents out.old }
    ensures range { result ≤ 3 }
    ensures no_usage { result ≢ 2 }
{
    let labels = match read_opened_labels(alloc, opened) {
        Ok(labels) => labels,
        Err(failure) => return report_failure(failure, file, verbosity, errors),
    };
    match write_labels(&labels, out) {
        Ok(()) => 0,
        Err(_) => report_failure(Failure::Unwritten, file, verbosity, errors),
    }
}

/// What the labels of what was opened hold. It makes no write and no flush.
///
/// # Errors
/// Why the file was not opened, or what `read_labels` is refused for.
pub fn read_opened_labels<D: SectorDevice + NotesRefusals>(
    alloc: Global,
    opened: &mut Result<D, FileRefusal>,
) -> Result<Labels, Failure>
    ensures only_read { StaysOpened D.SectorDevice opened.old opened.new }
    ensures unusable { IfErr opened.old (λ cause. result ≡ Err (Failure.Unusable cause)) }
    ensures size { IfOk opened.old (λ device. (IsGeometry (D.size device) → ⊥)
        → result ≡ Err (Failure.Refused PoolError.BadGeometry)) }
    ensures sized { OnOk result (IfOk opened.old (λ device. IsGeometry (D.size device))) }
    ensures found { IsTrue D.keeps_model → IfOk result (λ labels. IfOk opened.old
        (λ device. AreLabelsOf (bytes_of (D.disk device).now) labels)) }
    ensures failed { IfErr result
        (IsLookFailure (IsCheckRefused D.SectorDevice) opened.old opened.new) }
{
    let device = match opened {
        Ok(device) => device,
        Err(cause) => return Err(Failure::Unusable(*cause)),
    };
    match read_labels(alloc, device) {
        Ok(labels) => Ok(labels),
        Err(refusal) => Err(Failure::of_pool(refusal, device)),
    }
}

impl Labels {
    /// How many uberblocks a label has, and the highest group of these, or 0.
    pub fn count_uberblocks(&self, label: usize) -> (usize, Group)
        requires { label < 4 }
        ensures counted { AreCounted (slots_read (arrays_of self.now) label) slot_count result.0
            result.1.0 }
    {
        let mut counted = (0, Group(0));
        for position in 0..SLOT_COUNT {
            counted = count_with(counted, uberblock_at(&self.ring, label, position));
        }
        counted
    }

    /// The group of the active uberblock, if there is one.
    pub fn active_group(&self) -> Option<Group>
        ensures active { IfSome result (λ group. (u : formats.Uberblock)
            × IsActiveInRing (arrays_of self.now) u × (u.group ≡ group.0)) }
        ensures none { IfNone result (HasNoneInRing (arrays_of self.now)) }
    {
        match active(&self.ring) {
            Some(uberblock) => Some(uberblock.group),
            None => None,
        }
    }

    /// The lowest label that has the uberblock of a group.
    pub fn label_of(&self, group: Group) -> Option<usize>
        ensures label { IfSome result (λ label. label < 4) }
        ensures found { IfSome result (λ label. HasGroupAt (arrays_of self.now) label group) }
        ensures lowest { IfSome result (λ label. (k : ℕ) → k < label
            → HasGroupAt (arrays_of self.now) k group → ⊥) }
        ensures none { IfNone result ((k : ℕ) → k < 4
            → HasGroupAt (arrays_of self.now) k group → ⊥) }
    {
        for label in 0..LABEL_COUNT {
            if has_group(&self.ring, label, group) {
                return Some(label);
            }
        }
        None
    }
}

/// What stands in the place of a config.
#[derive(Drop)]
pub enum ConfigFound {
    /// A valid config.
    Config(LabelConfig),
    /// A config of a device of another size.
    OfSize(u64),
    /// Zeros.
    Zeros,
    /// Anything else.
    Unchecked,
}

/// What the labels of a device hold. It makes no write and no flush.
///
/// # Errors
/// `BadGeometry`, before any device call. `NoMemory` and `Read` when they happen.
pub fn read_labels<D: SectorDevice>(alloc: Global, device: &mut D) -> Result<Labels, PoolError>
    ensures reads { OnlyReads D.SectorDevice result device.old device.new }
    ensures sized { OnOk result (IsGeometry (D.size device.old)) }
    ensures found { IsTrue D.keeps_model
        → IfOk result (AreLabelsOf (bytes_of (D.disk device.old).now)) }
    ensures refused { IfErr result (IsCheckRefusal (D.size device.old)) }
{
    let geometry = Geometry::of(device.sectors())?;
    let ring = read_ring(alloc, device, geometry)?;
    let configs = read_configs(device, geometry)?;
    Ok(Labels { configs, ring })
}

// The uberblock arrays of the four labels.
fn read_ring<D: SectorDevice>(
    alloc: Global,
    device: &mut D,
    geometry: Geometry,
) -> Result<Vec<u8>, PoolError>
    requires { D.size device.old ≡ geometry }
    ensures reads { OnlyReads D.SectorDevice result device.old device.new }
    ensures length { IfOk result (λ ring. vec_len ring ≡ ring_size) }
    ensures ring { IsTrue D.keeps_model → IfOk result
        (λ ring. IsRingOf ring.items (bytes_of (D.disk device.old).now)) }
    ensures refused { IfErr result (λ e. (e ≡ PoolError.NoMemory) ⊎ (e ≡ PoolError.Read)) }
{
    let mut ring = blank(alloc, LABEL_COUNT * ARRAY_SIZE)?;
    for label in 0..LABEL_COUNT {
        read_array(device, geometry, label, ring.as_mut_slice())?;
    }
    Ok(ring)
}

fn blank(alloc: Global, size: usize) -> Result<Vec<u8>, PoolError>
    ensures size { IfOk result (λ bytes. vec_len bytes ≡ size) }
    ensures refused { IfErr result (λ e. e ≡ PoolError.NoMemory) }
{
    Ok(vec![in alloc; 0u8; size]?)
}

fn read_array<D: SectorDevice>(
    device: &mut D,
    geometry: Geometry,
    label: usize,
    ring: &mut [u8],
) -> Result<(), PoolError>
    requires sized { D.size device.old ≡ geometry }
    requires label { label < 4 }
    requires ring { length ring.old ≡ ring_size }
    ensures reads { OnlyReads D.SectorDevice result device.old device.new }
    ensures refused { IfErr result (λ e. e ≡ PoolError.Read) }
    ensures length { length ring.new ≡ ring_size }
    ensures within { slot_place geometry label 0 + array_size ≤ geometry }
    ensures array { IsTrue D.keeps_model → OnOk result (ring.new
        ≡ put (array_size * label) (part (bytes_of (D.disk device.old).now)
        (slot_place geometry label 0) array_size) ring.old) }
{
    let at = geometry.label_place(label) + ARRAY_AT;
    device.read(at, &mut ring[ARRAY_SIZE * label..ARRAY_SIZE * (label + 1)])
}

// What stands in the places of the four configs.
fn read_configs<D: SectorDevice>(
    device: &mut D,
    geometry: Geometry,
) -> Result<[ConfigFound; 4], PoolError>
    requires { D.size device.old ≡ geometry }
    ensures reads { OnlyReads D.SectorDevice result device.old device.new }
    ensures refused { IfErr result (λ e. e ≡ PoolError.Read) }
    ensures found { IsTrue D.keeps_model
        → IfOk result (AreConfigsFound (bytes_of (D.disk device.old).now)) }
{
    Ok([
        read_config(device, geometry, 0)?,
        read_config(device, geometry, 1)?,
        read_config(device, geometry, 2)?,
        read_config(device, geometry, 3)?,
    ])
}

/// What stands in the place of a label's config. It makes no write and no flush.
///
/// # Errors
/// `Read` if the device refuses one.
pub(crate) fn read_config<D: SectorDevice>(
    device: &mut D,
    geometry: Geometry,
    label: usize,
) -> Result<ConfigFound, PoolError>
    requires sized { D.size device.old ≡ geometry }
    requires label { label < 4 }
    ensures reads { OnlyReads D.SectorDevice result device.old device.new }
    ensures refused { IfErr result (λ e. e ≡ PoolError.Read) }
    ensures found { IsTrue D.keeps_model → IfOk result (λ f. IsStateOf
        (config_bytes_at (bytes_of (D.disk device.old).now) label)
        (length (bytes_of (D.disk device.old).now)) (state_of f)) }
    ensures config { IsTrue D.keeps_model → IfOk result (λ f. IsConfigFound
        (config_bytes_at (bytes_of (D.disk device.old).now) label)
        (length (bytes_of (D.disk device.old).now)) f) }
{
    let mut block = [0; BLOCK_SIZE];
    device.read(geometry.config_place(label), &mut block[..])?;
    Ok(find_config(&block, geometry.size()))
}

// What a block is as the config of a device of this size.
fn find_config(block: &[u8; BLOCK_SIZE], size: u64) -> ConfigFound
    ensures state { IsStateOf block.now size (state_of result) }
    ensures config { IsConfigFound block.now size result }
{
    match LabelConfig::decode(block, size) {
        Some(config) => ConfigFound::Config(config),
        None => find_reason(block),
    }
}

// Why a block is no valid config.
fn find_reason(block: &[u8; BLOCK_SIZE]) -> ConfigFound
    ensures { IsReasonOf block.now (state_of result) }
{
    let other = read_u64(block, SIZE_AT);
    match LabelConfig::decode(block, other) {
        Some(_) => ConfigFound::OfSize(other),
        None => find_contents(block),
    }
}

// Whether a block is zeros.
fn find_contents(block: &[u8; BLOCK_SIZE]) -> ConfigFound
    ensures { IsReasonOf block.now (state_of result) }
{
    if are_zeros(block) {
        ConfigFound::Zeros
    } else {
        ConfigFound::Unchecked
    }
}

// How many uberblocks there are with that of one more slot, and the highest group of these.
fn count_with(before: (usize, Group), found: Option<Uberblock>) -> (usize, Group)
    requires { before.0 < 128 }
    ensures some { IfSome found (λ u. (result.0 ≡ before.0 + 1)
        × (result.1.0 ≡ max before.1.0 u.group.0)) }
    ensures none { IfNone found (result ≡ before) }
{
    match found {
        Some(uberblock) => (before.0 + 1, Group(before.1.0.max(uberblock.group.0))),
        None => before,
    }
}

// Whether a label has the uberblock of a group, in the slot of that.
fn has_group(ring: &[u8], label: usize, group: Group) -> bool
    requires label { label < 4 }
    requires ring { length ring.now ≡ ring_size }
    ensures there { result ≡ true → HasGroupAt ring.now label group }
    ensures none { result ≡ false → HasGroupAt ring.now label group → ⊥ }
{
    match uberblock_at(ring, label, slot(group)) {
        Some(uberblock) => uberblock.group.0 == group.0,
        None => false,
    }
}

// The uberblock in a slot of a label.
fn uberblock_at(ring: &[u8], label: usize, position: usize) -> Option<Uberblock>
    requires label { label < 4 }
    requires position { position < 128 }
    requires ring { length ring.now ≡ ring_size }
    ensures some { IfSome result
        (λ u. IsUberblock (slots_read ring.now label position) (fields_of u)) }
    ensures none { IfNone result (HoldsNoUberblock (slots_read ring.now label position)) }
{
    let at = ARRAY_SIZE * label + SLOT_SIZE * position;
    let mut bytes = [0; SLOT_SIZE];
    bytes.copy_from_slice(&ring[at..at + SLOT_SIZE]);
    Uberblock::decode(&bytes)
}
