//! The fields of an uberblock, and the 1,024 bytes that they are stored in.

ghost use Rattle.std.specs.Prelude.{◌≡◌, ◌≤◌, ◌↔◌, IfNone, IfSome, IsTrue, Some, length, take};
ghost use Rattle.sha2.specs.Sha256.{sha256};
ghost use Rattle.base.specs.disk.Disk.{put};
ghost use Rattle.base.specs.formats.Geometry.{slot_size};
ghost use Rattle.base.specs.formats.Limits.{first_group, last_number};
ghost use Rattle.base.specs.formats.Fields.{number_at};
ghost use Rattle.base.specs.formats.Versions.{number_of_version};
ghost use Rattle.base.specs.formats.Uberblocks.{IsSealedSlot, IsUberblock};
ghost use Rattle.uberblocks.specs.Slots.{FieldsFit, HasMagic, HasZeros, HoldsNoUberblock, IsWithinLimits, field_bytes, fields_at, fields_of, slot_bytes, zeros};

use base::{
    FIRST_GROUP, Group, LAST_NUMBER, Pointer, Version, are_zeros, read_pointer, read_u64,
    write_bytes, write_pointer, write_u64,
};
use sha2::{Digest, Sha256};

/// The bytes of an uberblock, and of a slot of the array.
pub const SLOT_SIZE: usize = 1024;

/// The number that an uberblock begins with.
pub const MAGIC: u64 = 0x00ba_b10c;

/// Where the zeros after the fields begin.
const ZEROS_PLACE: usize = 112;

/// Where the check begins, and how many bytes it covers.
const CHECK_PLACE: usize = 992;

/// The state of a pool as a transaction group leaves it (ZFS On-Disk Specification, chapter 1).
#[derive(Clone, Copy, PartialEq, Eq)]
pub struct Uberblock {
    /// The version of the format, by whose rules the tree is read.
    pub version: Version,
    /// The transaction group that was synced.
    pub group: Group,
    /// The sum of the guids of the pool's devices: with one device, the pool's guid.
    pub guid: u64,
    /// The moment that the caller hands in, in seconds. It is stored and never interpreted.
    pub moment: u64,
    /// The pointer to the root of the tree.
    pub root: Pointer,
    /// The number of the import that wrote it, 0 for a pool as it is created.
    pub import_number: u64,
    /// The byte address of the first block of the intent log, 0 for none.
    pub log_address: u64,
    /// The number of that block in its chain.
    pub log_number: u64,
}

impl Uberblock {
    /// The bytes of a slot with this uberblock, little-endian: magic, version, group, guid and moment (8
    /// each), root pointer (48), import number, log address and log number (8 each), 880 zeros, and the
    /// SHA-256 check (FIPS 180-4) of all of these.
    ///
    /// The group has to be 4 to 2^60, and the import number and the log number at most 2^60.
    pub fn encode(&self) -> [u8; SLOT_SIZE]
        requires no_lower_group { first_group ≤ self.now.group.0 }
        requires no_higher_group { self.now.group.0 ≤ last_number }
        requires no_higher_import { self.now.import_number ≤ last_number }
        requires no_higher_log { self.now.log_number ≤ last_number }
        ensures bytes { result ≡ slot_bytes (fields_of self.now) }
        ensures uberblock { IsUberblock result (fields_of self.now) }
    {
        let mut bytes = empty_slot();
        self.write_fields(&mut bytes);
        let check = check_of(&bytes);
        write_bytes(&mut bytes, CHECK_PLACE, &check);
        bytes
    }

    /// The uberblock that a slot holds.
    ///
    /// None if the bytes are no uberblock: the magic, the zeros or the check disagree, the version is none that is
    /// known, the group is not 4 to 2^60, or the import number or the log number is above 2^60.
    pub fn decode(bytes: &[u8; SLOT_SIZE]) -> Option<Uberblock>
        ensures uberblock { IfSome result (λ u. IsUberblock bytes.now (fields_of u)) }
        ensures found { (u : Uberblock) → IsUberblock bytes.now (fields_of u) → result ≡ Some u }
        ensures none { IfNone result (HoldsNoUberblock bytes.now) }
    {
        read_slot(bytes)
    }

    /// Writes magic, version and the fields at the front of a slot.
    fn write_fields(self, bytes: &mut [u8])
        requires { length bytes.old ≡ slot_size }
        ensures written { bytes.new ≡ put 0 (field_bytes (fields_of self)) bytes.old }
        ensures fit { FieldsFit (fields_of self) }
    {
        write_u64(bytes, 0, MAGIC);
        write_u64(bytes, 8, self.version.number());
        write_u64(bytes, 16, self.group.0);
        write_u64(bytes, 24, self.guid);
        write_u64(bytes, 32, self.moment);
        write_pointer(bytes, 40, &self.root);
        write_u64(bytes, 88, self.import_number);
        write_u64(bytes, 96, self.log_address);
        write_u64(bytes, 104, self.log_number);
    }

    /// The fields of a slot of this version, whatever it holds.
    fn read_fields(bytes: &[u8], version: Version) -> Uberblock
        requires size { length bytes.now ≡ slot_size }
        requires version { number_of_version version ≡ number_at bytes.now 8 }
        ensures { fields_of result ≡ fields_at bytes.now }
    {
        Uberblock {
            version,
            group: Group(read_u64(bytes, 16)),
            guid: read_u64(bytes, 24),
            moment: read_u64(bytes, 32),
            root: read_pointer(bytes, 40),
            import_number: read_u64(bytes, 88),
            log_address: read_u64(bytes, 96),
            log_number: read_u64(bytes, 104),
        }
    }

    /// Whether the group, the import number and the log number are ones that a pool can have, as the version is.
    fn is_within_limits(&self) -> bool
        ensures { IsTrue result ↔ IsWithinLimits (fields_of self.now) }
    {
        self.group.0 >= FIRST_GROUP
            && self.group.0 <= LAST_NUMBER
            && self.import_number <= LAST_NUMBER
            && self.log_number <= LAST_NUMBER
    }
}

/// The uberblock that 1,024 bytes hold, as `Uberblock::decode` has it.
pub(crate) fn read_slot(bytes: &[u8]) -> Option<Uberblock>
    requires { length bytes.now ≡ slot_size }
    ensures uberblock { IfSome result (λ u. IsUberblock bytes.now (fields_of u)) }
    ensures found { (u : Uberblock) → IsUberblock bytes.now (fields_of u) → result ≡ Some u }
    ensures none { IfNone result (HoldsNoUberblock bytes.now) }
{
    let Some(version) = Version::from_number(read_u64(bytes, 8)) else {
        return None;
    };
    let uberblock = Uberblock::read_fields(bytes, version);
    if has_magic(bytes) && is_clear(bytes) && uberblock.is_within_limits() && is_sealed(bytes) {
        Some(uberblock)
    } else {
        None
    }
}

/// A slot of zeros.
fn empty_slot() -> [u8; SLOT_SIZE]
    ensures { result ≡ zeros slot_size }
{
    [0; SLOT_SIZE]
}

/// Whether a slot has the magic.
fn has_magic(bytes: &[u8]) -> bool
    requires { length bytes.now ≡ slot_size }
    ensures { IsTrue result ↔ HasMagic bytes.now }
{
    read_u64(bytes, 0) == MAGIC
}

/// Whether a slot has zeros after its fields.
fn is_clear(bytes: &[u8]) -> bool
    requires { length bytes.now ≡ slot_size }
    ensures { IsTrue result ↔ HasZeros bytes.now }
{
    are_zeros(&bytes[ZEROS_PLACE..CHECK_PLACE])
}

/// Whether the check of a slot agrees.
fn is_sealed(bytes: &[u8]) -> bool
    requires { length bytes.now ≡ slot_size }
    ensures { IsTrue result ↔ IsSealedSlot bytes.now }
{
    let check = check_of(bytes);
    bytes[CHECK_PLACE..] == check[..]
}

/// The check of a slot: the SHA-256 digest (FIPS 180-4) of the bytes before it.
fn check_of(bytes: &[u8]) -> [u8; 32]
    requires { length bytes.now ≡ slot_size }
    ensures { result ≡ sha256 (take 992 bytes.now) }
{
    Sha256::digest(&bytes[..CHECK_PLACE])
}
