//! The fields of an uberblock of a pool with a map, and the 4,096 bytes that they are stored in.
//!
//! The first 112 bytes are those of a plain pool's, with version 3. Then comes what the map says of its highest node.

ghost use Rattle.std.specs.Prelude.{◌≡◌, ◌≤◌, ◌↔◌, IfNone, IfSome, IsTrue, Some, length, take};
ghost use Rattle.sha2.specs.Sha256.{sha256};
ghost use Rattle.base.specs.disk.Disk.{put};
ghost use Rattle.base.specs.formats.Limits.{first_group, last_number};
ghost use Rattle.base.specs.formats.Versions.{number_of_version, written_version};
ghost use Rattle.uberblocks.specs.Slots.{FieldsFit, field_bytes, zeros};
ghost use Rattle.mapped_labels.specs.Entries.{EntryFits, map_entry_bytes};
ghost use Rattle.mapped_labels.specs.Shapes.{mapped_slot_size};
ghost use Rattle.mapped_labels.specs.MappedUberblocks.{IsMappedUberblock, IsSealedMappedSlot};
ghost use Rattle.mapped_labels.specs.MappedSlots.{AreWithinLimits, HasMappedHead, HasMappedZeros, HoldsNoMapped, fields_at, fields_of, mapped_slot_bytes, stored};

use crate::map_entry::{MapEntry, read_map_entry, write_map_entry};
use base::{
    BLOCK_SIZE, FIRST_GROUP, Group, LAST_NUMBER, WRITTEN_VERSION, are_zeros, read_pointer,
    read_u64, write_bytes, write_pointer, write_u64,
};
use sha2::{Digest, Sha256};
use uberblocks::{MAGIC, Uberblock};

/// The bytes of an uberblock, and of a slot of the array: those of a block.
pub const SLOT_SIZE: usize = BLOCK_SIZE;

/// The number in the version field. Trees and logs are those of version 2.
pub const MAPPED_VERSION: u64 = 3;

/// Where the entry of the map begins.
const MAP_PLACE: usize = 112;

/// Where the zeros after the fields begin.
const ZEROS_PLACE: usize = 168;

/// Where the check begins, and how many bytes it covers.
const CHECK_PLACE: usize = 4064;

/// The state of a pool with a map as a transaction group leaves it (ZFS On-Disk Specification, chapter 1).
#[derive(Clone, Copy, PartialEq, Eq)]
pub struct MappedUberblock {
    /// What a plain pool's uberblock says too. Its version is the one by whose rules tree and log are read, `Two`.
    pub state: Uberblock,
    /// What the map says of its highest node.
    pub map: MapEntry,
}

impl MappedUberblock {
    /// The bytes of a slot with this uberblock, little-endian: magic, 3, group, guid and moment (8 each), root pointer
    /// (48), import number, log address and log number (8 each), the entry of the map (56), 3,896 zeros, and the
    /// SHA-256 check (FIPS 180-4) of all of these.
    ///
    /// The version of the state has to be `Two`, the group 4 to 2^60, and the import number and the log number at most
    /// 2^60.
    pub fn encode(&self) -> [u8; SLOT_SIZE]
        requires rules { number_of_version self.now.state.version ≡ written_version }
        requires no_lower_group { first_group ≤ self.now.state.group.0 }
        requires no_higher_group { self.now.state.group.0 ≤ last_number }
        requires no_higher_import { self.now.state.import_number ≤ last_number }
        requires no_higher_log { self.now.state.log_number ≤ last_number }
        ensures bytes { result ≡ mapped_slot_bytes (fields_of self.now) }
        ensures uberblock { IsMappedUberblock result (fields_of self.now) }
    {
        let mut bytes = empty_slot();
        self.write_fields(&mut bytes);
        self.write_map(&mut bytes);
        let check = check_of(&bytes);
        write_bytes(&mut bytes, CHECK_PLACE, &check);
        bytes
    }

    /// The uberblock that a slot holds.
    ///
    /// None if the bytes are no uberblock: the magic, the zeros or the check disagree, the version isn't 3, the group is
    /// not 4 to 2^60, or the import number or the log number is above 2^60.
    pub fn decode(bytes: &[u8; SLOT_SIZE]) -> Option<MappedUberblock>
        ensures uberblock { IfSome result (λ u. IsMappedUberblock bytes.now (fields_of u)) }
        ensures found { (u : MappedUberblock) → IsMappedUberblock bytes.now (fields_of u) → result ≡ Some u }
        ensures none { IfNone result (HoldsNoMapped bytes.now) }
    {
        read_slot(bytes)
    }

    /// Writes magic, version and the fields of the state at the front of a slot.
    fn write_fields(self, bytes: &mut [u8])
        requires { length bytes.old ≡ mapped_slot_size }
        ensures written { bytes.new ≡ put 0 (field_bytes (stored (fields_of self).state)) bytes.old }
        ensures fit { FieldsFit (stored (fields_of self).state) }
    {
        write_u64(bytes, 0, MAGIC);
        write_u64(bytes, 8, MAPPED_VERSION);
        write_u64(bytes, 16, self.state.group.0);
        write_u64(bytes, 24, self.state.guid);
        write_u64(bytes, 32, self.state.moment);
        write_pointer(bytes, 40, &self.state.root);
        write_u64(bytes, 88, self.state.import_number);
        write_u64(bytes, 96, self.state.log_address);
        write_u64(bytes, 104, self.state.log_number);
    }

    /// Writes the entry of the map after them.
    fn write_map(self, bytes: &mut [u8])
        requires { length bytes.old ≡ mapped_slot_size }
        ensures written { bytes.new ≡ put 112 (map_entry_bytes self.map) bytes.old }
        ensures fit { EntryFits self.map }
    {
        write_map_entry(bytes, MAP_PLACE, self.map);
    }

    /// The fields of a slot, whatever it holds.
    fn read_fields(bytes: &[u8]) -> MappedUberblock
        requires { length bytes.now ≡ mapped_slot_size }
        ensures { fields_of result ≡ fields_at bytes.now }
    {
        MappedUberblock {
            state: Uberblock {
                version: WRITTEN_VERSION,
                group: Group(read_u64(bytes, 16)),
                guid: read_u64(bytes, 24),
                moment: read_u64(bytes, 32),
                root: read_pointer(bytes, 40),
                import_number: read_u64(bytes, 88),
                log_address: read_u64(bytes, 96),
                log_number: read_u64(bytes, 104),
            },
            map: read_map_entry(bytes, MAP_PLACE),
        }
    }

    /// Whether the group, the import number and the log number are ones that a pool can have.
    fn is_within_limits(&self) -> bool
        ensures { IsTrue result ↔ AreWithinLimits (fields_of self.now).state }
    {
        self.state.group.0 >= FIRST_GROUP
            && self.state.group.0 <= LAST_NUMBER
            && self.state.import_number <= LAST_NUMBER
            && self.state.log_number <= LAST_NUMBER
    }
}

/// The uberblock that 4,096 bytes hold, as `MappedUberblock::decode` has it.
pub(crate) fn read_slot(bytes: &[u8]) -> Option<MappedUberblock>
    requires { length bytes.now ≡ mapped_slot_size }
    ensures uberblock { IfSome result (λ u. IsMappedUberblock bytes.now (fields_of u)) }
    ensures found { (u : MappedUberblock) → IsMappedUberblock bytes.now (fields_of u) → result ≡ Some u }
    ensures none { IfNone result (HoldsNoMapped bytes.now) }
{
    let uberblock = MappedUberblock::read_fields(bytes);
    if has_head(bytes) && is_clear(bytes) && uberblock.is_within_limits() && is_sealed(bytes) {
        Some(uberblock)
    } else {
        None
    }
}

/// A slot of zeros.
fn empty_slot() -> [u8; SLOT_SIZE]
    ensures { result ≡ zeros mapped_slot_size }
{
    [0; SLOT_SIZE]
}

/// Whether a slot has the magic and version 3.
fn has_head(bytes: &[u8]) -> bool
    requires { length bytes.now ≡ mapped_slot_size }
    ensures { IsTrue result ↔ HasMappedHead bytes.now }
{
    read_u64(bytes, 0) == MAGIC && read_u64(bytes, 8) == MAPPED_VERSION
}

/// Whether a slot has zeros after its fields.
fn is_clear(bytes: &[u8]) -> bool
    requires { length bytes.now ≡ mapped_slot_size }
    ensures { IsTrue result ↔ HasMappedZeros bytes.now }
{
    are_zeros(&bytes[ZEROS_PLACE..CHECK_PLACE])
}

/// Whether the check of a slot agrees.
fn is_sealed(bytes: &[u8]) -> bool
    requires { length bytes.now ≡ mapped_slot_size }
    ensures { IsTrue result ↔ IsSealedMappedSlot bytes.now }
{
    let check = check_of(bytes);
    bytes[CHECK_PLACE..] == check[..]
}

/// The check of a slot: the SHA-256 digest (FIPS 180-4) of the bytes before it.
fn check_of(bytes: &[u8]) -> [u8; 32]
    requires { length bytes.now ≡ mapped_slot_size }
    ensures { result ≡ sha256 (take 4064 bytes.now) }
{
    Sha256::digest(&bytes[..CHECK_PLACE])
}
