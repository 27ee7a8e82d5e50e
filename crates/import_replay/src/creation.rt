//! A new pool: what a create writes, call by call.

ghost use Rattle.std.specs.Prelude.{◌≡◌, ◌≤◌, IfErr, IfOk, IsTrue, List, MatchResult, OnOk, [], ℕ};
ghost use Rattle.base.specs.disk.Calls.{with_refusal};
ghost use Rattle.base.specs.history.Past.{new_past};
ghost use Rattle.base.specs.kept.LeftDisks.{IsLeft};
ghost use Rattle.base.specs.kept.Own.{IsOwnWith};
ghost use Rattle.base.specs.disk.Disk.{Disk, HasEarlierWrites, bytes_of, moments};
ghost use Rattle.base.specs.disk.DiskCalls.{MakesInOrder};
ghost use Rattle.labels.specs.Configs.{config_block};
ghost use Rattle.uberblocks.specs.Slots.{slot_bytes};
ghost use Rattle.import_replay.specs.Cleared.{AreTailsCleared, IsCleared, zeros};
ghost use Rattle.import_replay.specs.CreateCalls.{IsPoolCreated, create_calls};
ghost use Rattle.import_replay.specs.CreateCalls.{clear_block, clear_tail, each_block, each_label, write_config, write_uberblock};
ghost use Rattle.import_replay.specs.CreateRefusals.{CanCreate};
ghost use Rattle.import_replay.specs.Creations.{first_config, first_uberblock};
ghost use Rattle.import_replay.specs.Devices.{IsSizedFor, WritesAndFlushes};
ghost use Rattle.import_replay.specs.Labelled.{HoldConfig, IsLabelled};
ghost use Rattle.import_replay.specs.OwnCreations.{AddsConfig, AddsSlot, AddsZeros, AreConfigsHanded, AreSlotsHanded};
ghost use Rattle.import_replay.specs.OwnCreations.{IsFirstDisk, first_contents, first_view};
ghost use Rattle.import_replay.specs.Outside.{WritesPoolBytes};
ghost use Rattle.import_replay.specs.Refused.{IsCreateRefused};

use base::{FIRST_GROUP, Group, Pointer, PoolError, PoolName, WRITTEN_VERSION};
use device_model::SectorDevice;
use labels::{Geometry, LabelConfig};
use uberblocks::{Uberblock, slot};

/// Where the name/value area of a label begins, in bytes from the label's start.
const TAIL_AT: u64 = 16_384;

/// The bytes from there to the label's end.
const TAIL_SIZE: usize = 245_760;

/// Makes a pool of this name and guid on a device, and returns the device. `moment`, in seconds, is stored in the
/// uberblocks.
///
/// It makes these calls, in this order (On-Disk Specification, chapter 1), and takes no memory:
/// 1. It clears the name/value area and the uberblock array of labels 0 to 3, then each block, rising, and flushes.
/// 2. It writes a config of group 4 into labels 0 to 3, and flushes.
/// 3. It writes uberblock 4, with no tree and no log, into labels 0 to 3, and flushes.
///
/// After any crash the device then mounts an empty pool. The bytes before the name/value areas, and those between the
/// labels and the blocks, stay as they are at each moment, also if the create is refused.
///
/// # Errors
/// - `BadGeometry` if no pool may have the device's size; `BadRange` if the name isn't allowed. The device is as it
///   was.
/// - `Write` and `Flush`, exactly if the device refused such a call. The calls before it are made, none after it.
pub fn create<D: SectorDevice>(
    mut device: D,
    name: &[u8],
    guid: u64,
    moment: u64,
) -> Result<D, (PoolError, D)>
    ensures made { OnOk result (CanCreate (D.size device) name.now) }
    // After any crash the pool is on the disk, and this pool alone has written the disk since.
    ensures created { IsTrue D.keeps_model → IfOk result (λ d. IsPoolCreated
        (D.size device) name.now guid moment (D.disk device) (D.disk d)) }
    ensures own { IsTrue D.keeps_model → IfOk result
        (λ d. IsOwnWith (D.disk d) (moments (D.disk device)) guid (first_contents name.now)) }
    // A run in which nothing happened has left it: the first import goes on from there.
    ensures left { IsTrue D.keeps_model → IfOk result (λ d. IsLeft
        (new_past (first_contents name.now) (moments (D.disk device)) 0) (D.disk d)) }
    ensures outside { IsTrue D.keeps_model → MatchResult result
        (λ d. WritesPoolBytes (D.size device) (D.disk device) (D.disk d))
        (λ e. WritesPoolBytes (D.size device) (D.disk device) (D.disk e.1)) }

    // On each device the size stays, and each call that the device refused is reported.
    ensures size { MatchResult result
        (λ d. D.size d ≡ D.size device) (λ e. D.size e.1 ≡ D.size device) }
    ensures count { MatchResult result (λ d. D.refused d ≡ D.refused device)
        (λ e. D.refused e.1 ≡ with_refusal e.0 (D.refused device)) }
    ensures refused { IfErr result
        (λ e. IsCreateRefused D.SectorDevice name.now guid moment device e.1 e.0) }
{
    let geometry = match Geometry::of(device.sectors()) {
        Ok(geometry) => geometry,
        Err(error) => return Err((error, device)),
    };
    let Some(name) = PoolName::new(name) else {
        return Err((PoolError::BadRange, device));
    };
    match initialize(&mut device, geometry, name, guid, moment) {
        Ok(()) => Ok(device),
        Err(error) => Err((error, device)),
    }
}

fn initialize<D: SectorDevice>(
    device: &mut D,
    geometry: Geometry,
    name: PoolName,
    guid: u64,
    moment: u64,
) -> Result<(), PoolError>
    requires sized { IsSizedFor D.SectorDevice geometry device.old }
    requires earlier { IsTrue D.keeps_model → HasEarlierWrites (D.disk device.old) }
    ensures calls { WritesAndFlushes D.SectorDevice result device.old device.new }
    ensures outside { IsTrue D.keeps_model → (start : Disk)
        → WritesPoolBytes geometry start (D.disk device.old)
        → WritesPoolBytes geometry start (D.disk device.new) }
    ensures labels { IsTrue D.keeps_model
        → OnOk result (IsLabelled geometry name guid moment (bytes_of (D.disk device.new).now)) }
    ensures settled { IsTrue D.keeps_model → OnOk result ((D.disk device.new).now.unflushed ≡ []) }
    ensures ordered { IsTrue D.keeps_model
        → MakesInOrder (create_calls geometry name guid moment) result
        (D.disk device.old) (D.disk device.new) }
    ensures handed { IsTrue D.keeps_model → OnOk result
        (IsFirstDisk geometry (moments (D.disk device.old)) (first_view name guid moment geometry)
        (D.disk device.new)) }
{
    clear_labels(device, geometry)?;
    clear_blocks(device, geometry)?;
    device.flush()?;
    write_configs(device, geometry, name, guid)?;
    device.flush()?;
    write_uberblocks(device, geometry, guid, moment)?;
    device.flush()
}

fn clear_labels<D: SectorDevice>(device: &mut D, geometry: Geometry) -> Result<(), PoolError>
    requires sized { IsSizedFor D.SectorDevice geometry device.old }
    ensures calls { WritesAndFlushes D.SectorDevice result device.old device.new }
    ensures ordered { IsTrue D.keeps_model
        → MakesInOrder (each_label (clear_tail geometry)) result
        (D.disk device.old) (D.disk device.new) }
    ensures outside { IsTrue D.keeps_model → (start : Disk)
        → WritesPoolBytes geometry start (D.disk device.old)
        → WritesPoolBytes geometry start (D.disk device.new) }
    ensures cleared { IsTrue D.keeps_model
        → OnOk result (AreTailsCleared geometry 4 (bytes_of (D.disk device.new).now)) }
    ensures first { IsTrue D.keeps_model
        → OnOk result (AddsZeros (D.disk device.old) (D.disk device.new)) }
{
    let zeros = zero_tail();
    for label in 0..4 {
        device.write(geometry.label_place(label) + TAIL_AT, &zeros)?;
    }
    Ok(())
}

fn zero_tail() -> [u8; TAIL_SIZE]
    ensures { result ≡ zeros 245760 }
{
    [0; TAIL_SIZE]
}

fn clear_blocks<D: SectorDevice>(device: &mut D, geometry: Geometry) -> Result<(), PoolError>
    requires sized { IsSizedFor D.SectorDevice geometry device.old }
    ensures calls { WritesAndFlushes D.SectorDevice result device.old device.new }
    ensures ordered { IsTrue D.keeps_model
        → MakesInOrder (each_block geometry clear_block) result
        (D.disk device.old) (D.disk device.new) }
    ensures outside { IsTrue D.keeps_model → (start : Disk)
        → WritesPoolBytes geometry start (D.disk device.old)
        → WritesPoolBytes geometry start (D.disk device.new) }
    ensures cleared { IsTrue D.keeps_model
        → AreTailsCleared geometry 4 (bytes_of (D.disk device.old).now)
        → OnOk result (IsCleared geometry (bytes_of (D.disk device.new).now)) }
    ensures first { IsTrue D.keeps_model
        → OnOk result (AddsZeros (D.disk device.old) (D.disk device.new)) }
{
    let zeros = [0; 4096];
    for index in 0..geometry.blocks() {
        device.write(geometry.block_address(index), &zeros)?;
    }
    Ok(())
}

fn write_configs<D: SectorDevice>(
    device: &mut D,
    geometry: Geometry,
    name: PoolName,
    guid: u64,
) -> Result<(), PoolError>
    requires sized { IsSizedFor D.SectorDevice geometry device.old }
    ensures calls { WritesAndFlushes D.SectorDevice result device.old device.new }
    ensures ordered { IsTrue D.keeps_model
        → MakesInOrder (each_label (write_config geometry (first_config name guid geometry)))
        result (D.disk device.old) (D.disk device.new) }
    ensures outside { IsTrue D.keeps_model → (start : Disk)
        → WritesPoolBytes geometry start (D.disk device.old)
        → WritesPoolBytes geometry start (D.disk device.new) }
    ensures cleared { IsTrue D.keeps_model → IsCleared geometry (bytes_of (D.disk device.old).now)
        → OnOk result (IsCleared geometry (bytes_of (D.disk device.new).now)) }
    ensures configs { IsTrue D.keeps_model
        → OnOk result (HoldConfig geometry 4 (first_config name guid geometry)
        (bytes_of (D.disk device.new).now)) }
    ensures first { IsTrue D.keeps_model
        → OnOk result (AddsConfig (config_block (first_config name guid geometry))
        (D.disk device.old) (D.disk device.new)) }
    ensures handed { IsTrue D.keeps_model → (t : ℕ) → t ≤ moments (D.disk device.old)
        → OnOk result (AreConfigsHanded geometry 4 t
        (config_block (first_config name guid geometry)) (D.disk device.new)) }
{
    let config = LabelConfig::new(guid, Group(FIRST_GROUP), geometry.size(), name);
    let block = config.encode();
    for label in 0..4 {
        device.write(geometry.config_place(label), block.as_bytes())?;
    }
    Ok(())
}

fn write_uberblocks<D: SectorDevice>(
    device: &mut D,
    geometry: Geometry,
    guid: u64,
    moment: u64,
) -> Result<(), PoolError>
    requires sized { IsSizedFor D.SectorDevice geometry device.old }
    ensures calls { WritesAndFlushes D.SectorDevice result device.old device.new }
    ensures ordered { IsTrue D.keeps_model
        → MakesInOrder (each_label (write_uberblock geometry (first_uberblock guid moment)))
        result (D.disk device.old) (D.disk device.new) }
    ensures outside { IsTrue D.keeps_model → (start : Disk)
        → WritesPoolBytes geometry start (D.disk device.old)
        → WritesPoolBytes geometry start (D.disk device.new) }
    ensures labels { IsTrue D.keeps_model → IsCleared geometry (bytes_of (D.disk device.old).now)
        → (name : List ℕ)
        → HoldConfig geometry 4 (first_config name guid geometry) (bytes_of (D.disk device.old).now)
        → OnOk result (IsLabelled geometry name guid moment (bytes_of (D.disk device.new).now)) }
    ensures first { IsTrue D.keeps_model → OnOk result (AddsSlot
        (slot_bytes (first_uberblock guid moment)) (D.disk device.old) (D.disk device.new)) }
    ensures handed { IsTrue D.keeps_model → (t : ℕ) → t ≤ moments (D.disk device.old)
        → OnOk result (AreSlotsHanded geometry 4 t
        (slot_bytes (first_uberblock guid moment)) (D.disk device.new)) }
    ensures configs { IsTrue D.keeps_model → (t : ℕ) → (config : List ℕ)
        → AreConfigsHanded geometry 4 t config (D.disk device.old)
        → OnOk result (AreConfigsHanded geometry 4 t config (D.disk device.new)) }
{
    let uberblock = Uberblock {
        version: WRITTEN_VERSION,
        group: Group(FIRST_GROUP),
        guid,
        moment,
        root: Pointer::NONE,
        import_number: 0,
        log_address: 0,
        log_number: 0,
    };
    let bytes = uberblock.encode();
    for label in 0..4 {
        device.write(geometry.slot_place(label, slot(uberblock.group)), &bytes)?;
    }
    Ok(())
}
