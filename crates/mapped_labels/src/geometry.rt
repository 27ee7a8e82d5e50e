//! Where everything lies on the device of a pool with a map of its free blocks, and the shape of that map.
//!
//! The size decides which pool a device has. From 6 MiB to 1 GiB a multiple of 256 KiB is the size of a plain pool.
//! Each other multiple of 4,096 bytes up to 16 TiB is that of a pool with a map. Its labels lie as a plain pool's do,
//! and a slot of their uberblock arrays has 4,096 bytes.
//!
//! Level 0 of the map has a bits block for each 32,256 blocks of the device. Each level above has a node for 72 nodes
//! of the level below, up to the level of one node. The nodes are numbered through all levels, the bits blocks first.
//! Their sides are the last blocks before label 2, two for each node, and the blocks before them are those of the area.

ghost use Rattle.std.specs.Prelude.{◌≡◌, ◌≤◌, ◌<◌, ◌*◌, ◌^◌};
ghost use Rattle.base.specs.formats.Geometry.{is_geometry, block_size, label_size, sector_size};
ghost use Rattle.mapped_labels.specs.Shapes.{is_mapped_geometry, nodes_over, nodes_up_to, span};

use crate::side::Side;
use base::{BLOCK_SIZE, PoolError, SECTOR_SIZE};
use checked_blocks::BLOCK_AREA;
use labels::{ARRAY_AT, LABEL_SIZE, MAX_SIZE, MIN_SIZE};
use std::marker::Model;

/// The bytes of the greatest device of a pool with a map: 16 TiB.
pub const MAX_MAPPED_SIZE: u64 = 17_592_186_044_416;

/// The bytes of a block, and of a slot.
const BLOCK: u64 = BLOCK_SIZE as u64;

/// The layout of a device: a size in bytes whose pool has a map. Contracts see it as that number.
#[derive(Clone, Copy)]
pub struct MappedGeometry {
    size: u64,
}

impl Model for MappedGeometry {
    ghost use Rattle.std.specs.Prelude.{ℕ};
    ghost use Rattle.mapped_labels.specs.Shapes.{IsMappedGeometry};

    ghost Value = { ℕ };

    ghost view = { λ g. g.size };

    ghost invariant = { λ g. IsMappedGeometry g.size };

    ghost inverse = { λ n. record { size = n } };
}

impl MappedGeometry {
    ghost use Rattle.std.specs.Prelude.{◌≡◌, ◌<◌, ◌≤◌, ◌*◌, ◌^◌, ◌↔◌, IsOk, IfOk, IfErr, IfNone, IfSome};
    ghost use Rattle.base.specs.disk.Calls.{IsOnDevice};
    ghost use Rattle.base.specs.formats.Geometry as plain;
    ghost use Rattle.mapped_labels.specs.Shapes as shape;
    ghost use Rattle.mapped_labels.specs.Shapes.{IsMappedGeometry, mapped_slot_count, mapped_slot_size};

    /// The layout of a device of so many sectors of 512 bytes, whose pool has a map of its free blocks.
    ///
    /// # Errors
    /// `BadGeometry` exactly if these are less than 6 MiB, more than 16 TiB, no multiple of 4,096 bytes, or the size of a
    /// plain pool's device.
    pub fn of(sectors: u64) -> Result<Self, PoolError>
        ensures ok { IsOk result ↔ IsMappedGeometry (sector_size * sectors) }
        ensures size { IfOk result (λ geometry. geometry ≡ sector_size * sectors) }
        ensures refused { IfErr result (λ e. e ≡ PoolError.BadGeometry) }
    {
        if sectors <= MAX_MAPPED_SIZE / SECTOR_SIZE && is_mapped_size(SECTOR_SIZE * sectors) {
            Ok(MappedGeometry {
                size: SECTOR_SIZE * sectors,
            })
        } else {
            Err(PoolError::BadGeometry)
        }
    }

    /// The bytes of the device.
    pub fn size(self) -> u64
        ensures size { result ≡ self }
        ensures geometry { IsMappedGeometry self }
    {
        self.size
    }

    /// How many blocks lie between the boot area and label 2: those of the area, and the sides of the map.
    pub fn total_blocks(self) -> u64
        ensures total { result ≡ shape.total_blocks self }
        ensures most { result < 2 ^ 32 }
    {
        (self.size - 2 * LABEL_SIZE - BLOCK_AREA) / BLOCK
    }

    /// How many nodes a level of the map has. Those above the highest one have one.
    pub fn level_size(self, level: usize) -> u64
        ensures size { result ≡ shape.level_size self level }
        ensures most { result < 2 ^ 18 }
    {
        nodes_over(self.total_blocks(), level)
    }

    /// How many levels the map has: 1 to 4.
    pub fn levels(self) -> usize
        ensures count { result ≡ shape.level_count self }
        ensures least { 1 ≤ result }
        ensures most { result ≤ 4 }
    {
        if self.level_size(0) <= 1 {
            1
        } else if self.level_size(1) <= 1 {
            2
        } else if self.level_size(2) <= 1 {
            3
        } else {
            4
        }
    }

    /// The number of the first node of a level.
    pub fn first_node(self, level: usize) -> u64
        requires { level ≤ 4 }
        ensures number { result ≡ shape.first_node self level }
        ensures most { result ≤ 2 ^ 20 }
    {
        nodes_up_to(self.total_blocks(), level)
    }

    /// How many nodes the map has.
    pub fn nodes(self) -> u64
        ensures count { result ≡ shape.node_count self }
        ensures most { result ≤ 2 ^ 20 }
    {
        self.first_node(self.levels())
    }

    /// How many blocks the area has: those before the sides of the map.
    pub fn blocks(self) -> u64
        ensures count { result ≡ shape.area_blocks self }
        ensures most { result < 2 ^ 32 }
    {
        self.total_blocks().saturating_sub(2 * self.nodes())
    }

    /// The byte address of a side of the node of this number.
    pub fn side_address(self, node: u64, side: Side) -> u64
        requires { node < shape.node_count self }
        ensures address { result ≡ shape.side_address self node side }
        ensures on_device { IsOnDevice self result block_size }
    {
        BLOCK_AREA + BLOCK * (self.blocks() + (2 * node + side.number()))
    }

    /// The side of the node of this number that has a byte address.
    pub fn side_at(self, node: u64, address: u64) -> Option<Side>
        requires { node < shape.node_count self }
        ensures side { IfSome result (λ side. address ≡ shape.side_address self node side) }
        ensures on_device { IfSome result (λ side. IsOnDevice self address block_size) }
        ensures none { IfNone result ((side : Side) → address ≡ shape.side_address self node side → ⊥) }
    {
        if address == self.side_address(node, Side::First) {
            Some(Side::First)
        } else if address == self.side_address(node, Side::Second) {
            Some(Side::Second)
        } else {
            None
        }
    }

    /// How many blocks of the area lie below a node.
    pub fn blocks_below(self, level: usize, index: u64) -> u64
        requires level { level < 4 }
        requires index { index < 2 ^ 18 }
        ensures { result ≡ shape.blocks_below self level index }
    {
        let span = span_of(level);
        span.min(self.blocks().saturating_sub(span * index))
    }

    /// The byte place of a label.
    pub fn label_place(self, label: usize) -> u64
        requires { label < 4 }
        ensures place { result ≡ plain.label_place self label }
        ensures on_device { IsOnDevice self result label_size }
    {
        match label {
            0 => 0,
            1 => LABEL_SIZE,
            2 => self.size - 2 * LABEL_SIZE,
            _ => self.size - LABEL_SIZE,
        }
    }

    /// The byte place of a slot of 4,096 bytes in a label's uberblock array. The array is the 131,072 bytes from slot 0
    /// on.
    pub fn slot_place(self, label: usize, slot: usize) -> u64
        requires label { label < 4 }
        requires slot { slot < mapped_slot_count }
        ensures place { result ≡ shape.mapped_slot_place self label slot }
        ensures on_device { IsOnDevice self result mapped_slot_size }
    {
        self.label_place(label) + ARRAY_AT + BLOCK * slot as u64
    }
}

// How many nodes a level has over so many blocks.
fn nodes_over(total: u64, level: usize) -> u64
    requires { total < 2 ^ 32 }
    ensures nodes { result ≡ nodes_over total level }
    ensures most { result < 2 ^ 18 }
{
    let mut nodes = (total + 32_255) / 32_256;
    for _ in 0..level {
        nodes = (nodes + 71) / 72;
    }
    nodes
}

// How many nodes all levels below a level have.
fn nodes_up_to(total: u64, level: usize) -> u64
    requires total { total < 2 ^ 32 }
    requires level { level ≤ 4 }
    ensures nodes { result ≡ nodes_up_to total level }
    ensures most { result ≤ level * 2 ^ 18 }
{
    let mut nodes = 0;
    for below in 0..level {
        nodes += nodes_over(total, below);
    }
    nodes
}

// The blocks below a node of a level, if the area has as many.
fn span_of(level: usize) -> u64
    requires { level < 4 }
    ensures span { result ≡ span level }
    ensures most { result < 2 ^ 36 }
{
    match level {
        0 => 32_256,
        1 => 2_322_432,
        2 => 167_215_104,
        _ => 12_039_487_488,
    }
}

fn is_mapped_size(size: u64) -> bool
    ensures { result ≡ is_mapped_geometry size }
{
    (MIN_SIZE..=MAX_MAPPED_SIZE).contains(&size) && size % BLOCK == 0 && !is_plain_size(size)
}

fn is_plain_size(size: u64) -> bool
    ensures { result ≡ is_geometry size }
{
    (MIN_SIZE..=MAX_SIZE).contains(&size) && size % LABEL_SIZE == 0
}
