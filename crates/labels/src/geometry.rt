//! Where everything lies on a device: labels at both ends, blocks between them (On-Disk Specification, chapter 1).
//!
//! A label is 256 KiB: blank space and a boot header of 8 KiB each, the config, and from 128 KiB on the uberblock
//! array.

ghost use Rattle.std.specs.Prelude.{◌≡◌};
ghost use Rattle.base.specs.formats.Geometry.{is_geometry, block_size, label_size, sector_size, slot_count, slot_size};

use base::{BLOCK_SIZE, PoolError, SECTOR_SIZE};
use checked_blocks::BLOCK_AREA;
use std::marker::Model;

/// The bytes of a label (On-Disk Specification, chapter 1). A device's size is a multiple of them.
pub const LABEL_SIZE: u64 = 262_144;

/// The bytes of the least device: 6 MiB.
pub const MIN_SIZE: u64 = 6_291_456;

/// The bytes of the greatest device: 1 GiB.
pub const MAX_SIZE: u64 = 1_073_741_824;

/// Where a label's config begins, after the blank space and the boot header.
const CONFIG_AT: u64 = 16_384;

/// Where a label's uberblock array begins.
pub const ARRAY_AT: u64 = 131_072;

/// The bytes of a slot of the array.
const SLOT_SIZE: u64 = 1024;

/// The bytes of a block.
const BLOCK: u64 = BLOCK_SIZE as u64;

/// The layout of a device: a size in bytes that a pool's device may have. Contracts see it as that number.
///
/// Labels 0 and 1 are the first 512 KiB and labels 2 and 3 the last; blocks lie from 4 MiB up to label 2
/// (On-Disk Specification, chapter 1).
#[derive(Clone, Copy)]
pub struct Geometry {
    size: u64,
}

impl Model for Geometry {
    ghost use Rattle.std.specs.Prelude.{ℕ};
    ghost use Rattle.base.specs.formats.Geometry.{IsGeometry};

    ghost Value = { ℕ };

    ghost view = { λ g. g.size };

    ghost invariant = { λ g. IsGeometry g.size };

    ghost inverse = { λ n. record { size = n } };
}

impl Geometry {
    ghost use Rattle.std.specs.Prelude.{◌≡◌, ◌<◌, ◌*◌, ◌↔◌, IsTrue, IsOk, IfOk, IfErr};
    ghost use Rattle.base.specs.disk.Calls.{IsOnDevice};
    ghost use Rattle.base.specs.formats.Geometry as place;
    ghost use Rattle.base.specs.formats.Geometry.{IsGeometry, IsBlockAddress};

    /// The layout of a device of so many sectors of 512 bytes.
    ///
    /// # Errors
    /// `BadGeometry` exactly if these are less than 6 MiB, more than 1 GiB, or no multiple of 256 KiB.
    pub fn of(sectors: u64) -> Result<Self, PoolError>
        ensures ok { IsOk result ↔ IsGeometry (sector_size * sectors) }
        ensures size { IfOk result (λ geometry. geometry ≡ sector_size * sectors) }
        ensures refused { IfErr result (λ e. e ≡ PoolError.BadGeometry) }
    {
        if sectors <= MAX_SIZE / SECTOR_SIZE && is_pool_size(SECTOR_SIZE * sectors) {
            Ok(Geometry {
                size: SECTOR_SIZE * sectors,
            })
        } else {
            Err(PoolError::BadGeometry)
        }
    }

    /// The bytes of the device.
    pub fn size(self) -> u64
        ensures size { result ≡ self }
        ensures geometry { IsGeometry self }
    {
        self.size
    }

    /// How many blocks the device has.
    pub fn blocks(self) -> u64
        ensures { result ≡ place.block_count self }
    {
        (self.size - 2 * LABEL_SIZE - BLOCK_AREA) / BLOCK
    }

    /// The byte address of block `k`.
    pub fn block_address(self, k: u64) -> u64
        requires { k < place.block_count self }
        ensures address { result ≡ place.block_address k }
        ensures on_device { IsOnDevice self result block_size }
    {
        BLOCK_AREA + BLOCK * k
    }

    /// Whether a block begins at this byte address.
    pub fn is_block_address(self, address: u64) -> bool
        ensures { IsTrue result ↔ IsBlockAddress (place.block_count self) address }
    {
        if address < BLOCK_AREA {
            return false;
        }
        let offset = address - BLOCK_AREA;
        offset % BLOCK == 0 && offset / BLOCK < self.blocks()
    }

    /// The number of the block at this byte address.
    pub fn block_index(self, address: u64) -> u64
        requires { IsBlockAddress (place.block_count self) address }
        ensures address { place.block_address result ≡ address }
        ensures block { result < place.block_count self }
    {
        (address - BLOCK_AREA) / BLOCK
    }

    /// The byte place of a label.
    pub fn label_place(self, label: usize) -> u64
        requires { label < 4 }
        ensures place { result ≡ place.label_place self label }
        ensures on_device { IsOnDevice self result label_size }
    {
        match label {
            0 => 0,
            1 => LABEL_SIZE,
            2 => self.size - 2 * LABEL_SIZE,
            _ => self.size - LABEL_SIZE,
        }
    }

    /// The byte place of a label's config, which is one block.
    pub fn config_place(self, label: usize) -> u64
        requires { label < 4 }
        ensures place { result ≡ place.config_place self label }
        ensures on_device { IsOnDevice self result block_size }
    {
        self.label_place(label) + CONFIG_AT
    }

    /// The byte place of a slot of 1,024 bytes in a label's uberblock array. The array is the 131,072 bytes from slot 0
    /// on.
    pub fn slot_place(self, label: usize, slot: usize) -> u64
        requires label { label < 4 }
        requires slot { slot < slot_count }
        ensures place { result ≡ place.slot_place self label slot }
        ensures on_device { IsOnDevice self result slot_size }
    {
        self.label_place(label) + ARRAY_AT + SLOT_SIZE * slot as u64
    }
}

fn is_pool_size(size: u64) -> bool
    ensures { result ≡ is_geometry size }
{
    (MIN_SIZE..=MAX_SIZE).contains(&size) && size % LABEL_SIZE == 0
}
