//! The places of a tree, and the kind and the number of the block at each.

ghost use Rattle.std.specs.Prelude.{◌≡◌, ◌<◌};
ghost use Rattle.base.specs.formats.Limits.{object_count, pointer_count};
ghost use Rattle.base.specs.tree.Places.{IsPlace, kind_of, number_of_place, record_of_strip, strip_number};
ghost use Rattle.tree_blocks.specs.BlockPlaces.{place_of};

use crate::strips::strip_number;
use base::{ObjectId, POINTER_COUNT};
use checked_blocks::Kind;

/// A record of an object.
#[derive(Clone, Copy)]
pub struct RecordPlace {
    /// The number of the object.
    pub id: ObjectId,
    /// The index of the record's strip in the object.
    pub strip: usize,
    /// The index of the record in its strip.
    pub index: usize,
}

impl RecordPlace {
    /// The number of the record in its object, counted from 0 in records of 4,032 bytes.
    pub fn number(self) -> usize
        requires strip { self.strip < pointer_count }
        requires index { self.index < pointer_count }
        ensures { result ≡ record_of_strip self.strip self.index }
    {
        POINTER_COUNT * self.strip + self.index
    }

    /// Its place in the tree.
    pub fn data_place(self) -> BlockPlace
        requires id { self.id.0 < object_count }
        requires strip { self.strip < pointer_count }
        requires index { self.index < pointer_count }
        ensures { result ≡ BlockPlace.Data (strip_number self.id.0 self.strip) self.index }
    {
        BlockPlace::Data(strip_number(self.id.0 as usize, self.strip), self.index)
    }
}

/// A place of the tree, which may have a block.
#[derive(Clone, Copy)]
pub enum BlockPlace {
    /// The root of the tree.
    Root,
    /// The directory of this number.
    Directory(usize),
    /// The top of this object.
    Top(ObjectId),
    /// The indirect block of the strip of this number.
    Indirect(usize),
    /// The data block of this record of the strip of this number.
    Data(usize, usize),
}

impl BlockPlace {
    /// The kind field of its block.
    pub fn kind(self) -> u64
        ensures { result ≡ kind_of (place_of self) }
    {
        match self {
            BlockPlace::Root => Kind::Root as u64,
            BlockPlace::Directory(_) => Kind::Directory as u64,
            BlockPlace::Top(_) => Kind::Top as u64,
            BlockPlace::Indirect(_) => Kind::Indirect as u64,
            BlockPlace::Data(_, _) => Kind::Data as u64,
        }
    }

    /// The number field of its block.
    pub fn number(self) -> u64
        requires { IsPlace (place_of self) }
        ensures { result ≡ number_of_place (place_of self) }
    {
        match self {
            BlockPlace::Root => 0,
            BlockPlace::Directory(index) => index as u64,
            BlockPlace::Top(id) => u64::from(id.0),
            BlockPlace::Indirect(number) => number as u64,
            BlockPlace::Data(number, index) => (POINTER_COUNT * number + index) as u64,
        }
    }
}
