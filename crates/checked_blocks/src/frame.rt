//! What each reader of a pool's blocks knows: whose they are, where they may lie, and which births they may have.
//!
//! The block area begins after two labels and the boot area (On-Disk Specification, chapter 1). No block is born after
//! the group of the uberblock that leads to it (chapter 2).

use base::{BLOCK_SIZE, Group, Version};
use std::marker::Model;

/// The byte place of block 0, after two labels and the boot area (On-Disk Specification, chapter 1).
pub const BLOCK_AREA: u64 = 4_194_304;

/// What a reader of blocks knows of the pool: the version by whose rules its tree is read, its guid, the number of
/// blocks of its area, and the group that no birth may pass. Contracts see it as the record of these four numbers.
#[derive(Clone, Copy)]
pub struct Frame {
    version: Version,
    guid: u64,
    blocks: u64,
    group: Group,
}

impl Model for Frame {
    ghost use Rattle.base.specs.formats.Blocks as blocks_of;
    ghost use Rattle.base.specs.formats.Versions.{number_of_version, version_of};
    ghost use Rattle.base.proofs.formats.Versions.{version_of-number_of_version};

    ghost Value = { blocks_of.Frame };

    ghost view = { λ f. record {
      version = number_of_version f.version;
      guid = f.guid;
      blocks = f.blocks;
      group = f.group.0;
    } };

    ghost inverse = { λ f. record {
      version = version_of f.version;
      guid = f.guid;
      blocks = f.blocks;
      group = record { 0 = f.group };
    } };

    ghost inverse_ok = { λ f h i. record {
      version = version_of-number_of_version f.version i;
      guid = f.guid;
      blocks = f.blocks;
      group = f.group;
    } };
}

impl Frame {
    ghost use Rattle.std.specs.Prelude.{◌≡◌, ◌↔◌, IsTrue};
    ghost use Rattle.base.specs.formats.Geometry.{IsBlockAddress};
    ghost use Rattle.base.specs.formats.Versions.{number_of_version};

    /// The frame of this version, guid, number of blocks and greatest group.
    pub fn new(version: Version, guid: u64, blocks: u64, group: Group) -> Self
        ensures { result ≡ record {
          version = number_of_version version;
          guid = guid;
          blocks = blocks;
          group = group.0;
        } }
    {
        Frame {
            version,
            guid,
            blocks,
            group,
        }
    }

    /// The version by whose rules the pool's tree is read.
    pub fn version(&self) -> Version
        ensures { number_of_version result ≡ self.now.version }
    {
        self.version
    }

    /// The guid of the pool.
    pub fn guid(&self) -> u64
        ensures { result ≡ self.now.guid }
    {
        self.guid
    }

    /// How many blocks the pool's block area has.
    pub fn blocks(&self) -> u64
        ensures { result ≡ self.now.blocks }
    {
        self.blocks
    }

    /// The group that no birth may pass.
    pub fn group(&self) -> Group
        ensures { result.0 ≡ self.now.group }
    {
        self.group
    }

    /// Whether one of the blocks begins at this byte address.
    pub fn is_block_address(&self, address: u64) -> bool
        ensures { IsTrue result ↔ IsBlockAddress self.now.blocks address }
    {
        if address < BLOCK_AREA {
            return false;
        }
        let offset = address - BLOCK_AREA;
        offset % BLOCK_SIZE as u64 == 0 && offset / (BLOCK_SIZE as u64) < self.blocks
    }
}
