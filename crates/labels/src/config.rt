//! The config of a label: which pool the device belongs to, and how large it is.
//!
//! In chapter 1 of the On-Disk Specification it is a list of names and values of 112 KiB, at 16 KiB of the label, after
//! blank space and boot header. Here it lies at the same place and is one checked block of kind 1, with the pool's
//! guid, the group in which it was written and the number 0. Its payload is
//!
//! ```text
//! 0   8    the version of this layout, 1
//! 8   8    the bytes of the device
//! 16  8    the length of the name, 1 to 64
//! 24       the name, and zeros up to the end
//! ```
//!
//! The numbers are little-endian. A block is a config exactly if it opens as such a block and each byte of its payload
//! is what encoding would write, for the device's own size. So a config is spelled in one way, and one that was copied
//! from a device of another size is none.
//!
//! Pools differ by their guid, and the configs of a pool by their group: the config of an active
//! uberblock is the one of the highest group not above the uberblock's (`choose` has the rule in full). A sync or an
//! import that changes the configs writes and flushes those of two labels before the other two. So at each moment one
//! pair at least is whole.

ghost use Rattle.std.specs.Prelude.{◌≡◌, ◌+◌, ◌<◌, ◌≤◌, ◌^◌, ◌↔◌, ℕ, List, IsTrue, IfSome, IfNone, length, take};
ghost use Rattle.base.specs.formats.Labels.{IsConfigPayload};
ghost use Rattle.base.specs.formats.Limits.{max_name, payload_size};
ghost use Rattle.labels.specs.ConfigBytes.{config_bytes};

use base::{BLOCK_SIZE, Group, MAX_NAME, PoolName, are_zeros, read_u64, write_bytes, write_u64};
use checked_blocks::{Block, Expected, Kind, open, seal};
use std::marker::Model;

/// The version of this layout of a label.
const VERSION: u64 = 1;

/// The bytes of version, size and name length, which stand before the name.
const HEAD: usize = 24;

/// The most bytes of these and the name.
const MAX_FIELDS: usize = HEAD + MAX_NAME;

/// What the config of a label says (On-Disk Specification, chapter 1). Contracts see it as the record of its four
/// fields.
#[derive(Clone, Drop, PartialEq, Eq)]
pub struct LabelConfig {
    guid: u64,
    group: Group,
    size: u64,
    name: PoolName,
}

impl Model for LabelConfig {
    ghost use Rattle.base.specs.formats.Labels.{Config};

    ghost Value = { Config };

    ghost view = { λ c. record { guid = c.guid; group = c.group.0; size = c.size; name = c.name } };

    ghost inverse = { λ c. record {
      guid = c.guid;
      group = record { 0 = c.group };
      size = c.size;
      name = c.name;
    } };
}

impl LabelConfig {
    ghost use Rattle.std.specs.Prelude.{◌≡◌, ◌≤◌, ◌↔◌, IsTrue, IfSome, IfNone};
    ghost use Rattle.base.specs.formats.Labels.{Config};
    ghost use Rattle.labels.specs.Configs.{IsConfigBlock, config_block};

    /// The config of the pool of this guid and name, written in this group on a device of so many bytes.
    pub fn new(guid: u64, group: Group, size: u64, name: PoolName) -> Self
        ensures { result ≡ record { guid = guid; group = group.0; size = size; name = name } }
    {
        LabelConfig {
            guid,
            group,
            size,
            name,
        }
    }

    /// The guid of the pool.
    pub fn guid(&self) -> u64
        ensures { result ≡ self.now.guid }
    {
        self.guid
    }

    /// The group in which the config was written.
    pub fn group(&self) -> Group
        ensures { result.0 ≡ self.now.group }
    {
        self.group
    }

    /// The bytes of the device.
    pub fn size(&self) -> u64
        ensures { result ≡ self.now.size }
    {
        self.size
    }

    /// The name of the pool.
    pub fn name(&self) -> &PoolName
        ensures { result.now ≡ self.now.name }
    {
        &self.name
    }

    /// The block that holds the config: kind 1, number 0, and a payload of the version 1, the size, the length of the
    /// name, 8 bytes each, the name and zeros.
    pub fn encode(&self) -> Block
        ensures bytes { result ≡ config_block self.now }
        ensures config { IsConfigBlock result self.now.size self.now }
    {
        let name = self.name.as_slice();
        let payload = payload_of(self.size, name);
        seal(
            Kind::Config as u64,
            self.guid,
            self.group,
            0,
            &payload[..HEAD + name.len()],
        )
        .unwrap()
    }

    /// The config that a block holds, on a device of so many bytes: of any pool and group. None exactly if the block
    /// does not open as kind 1 and number 0, or its version, size, name or zeros are not those of a config.
    pub fn decode(block: &[u8; BLOCK_SIZE], size: u64) -> Option<Self>
        ensures config { IfSome result (λ c. IsConfigBlock block.now size c) }
        ensures none { IfNone result ((c : Config) → IsConfigBlock block.now size c → ⊥) }
    {
        let guid = read_u64(block, 8);
        let expected = Expected {
            address: 0,
            kind: Kind::Config as u64,
            guid,
            number: 0,
            group: None,
            check: None,
        };
        let Ok(payload) = open(block, &expected) else {
            return None;
        };
        let name = name_in(payload.as_slice(), size)?;
        Some(LabelConfig {
            guid,
            group: payload.group(),
            size,
            name,
        })
    }

    /// Whether it may be chosen for an active uberblock of this pool and group.
    pub(crate) fn is_candidate(&self, guid: u64, group: Group) -> bool
        ensures { IsTrue result ↔ ((self.now.guid ≡ guid) × (self.now.group ≤ group.0)) }
    {
        self.guid == guid && self.group <= group
    }
}

/// Version, size, length of the name and the name; zeros follow.
fn payload_of(size: u64, name: &[u8]) -> [u8; MAX_FIELDS]
    requires { length name.now ≤ max_name }
    ensures payload { take (24 + length name.now) result ≡ config_bytes size name.now }
    ensures size_fits { size < 2 ^ 64 }
{
    let mut payload = [0; MAX_FIELDS];
    write_u64(&mut payload, 0, VERSION);
    write_u64(&mut payload, 8, size);
    write_u64(&mut payload, 16, name.len() as u64);
    write_bytes(&mut payload, HEAD, name);
    payload
}

/// The name in a config's payload, or None if the payload is none of a config on a device of so many bytes.
fn name_in(payload: &[u8], size: u64) -> Option<PoolName>
    requires { length payload.now ≡ payload_size }
    ensures name { IfSome result (λ name. IsConfigPayload payload.now size name) }
    ensures none { IfNone result ((name : List ℕ) → IsConfigPayload payload.now size name → ⊥) }
{
    let length = read_u64(payload, 16);
    if read_u64(payload, 0) != VERSION || read_u64(payload, 8) != size || length > MAX_NAME as u64 {
        return None;
    }
    let end = HEAD + length as usize;
    if !are_zeros(&payload[end..]) {
        return None;
    }
    PoolName::new(&payload[HEAD..end])
}
