//! The parts of a number in a list, rising by offset.
//!
//! Few locks are held of one number, so a list is searched and changed in a few steps. It has two rows for each lock
//! at most.

ghost use Rattle.std.specs.Prelude.{◌≡◌, ◌↔◌, None, Some, IfOk, IfErr, IsSome, IsTrue, OnOk, OnErr, slice_get};
ghost use Rattle.range_locks.specs.Parts.{HasNoParts};
ghost use Rattle.range_locks.specs.Rows.{IsFirstFrom, IsGapAt, IsLastUpTo, IsRowAt, part_in, PutsAt, Rise};

use crate::parts::Part;
use std::alloc::{AllocError, Global};
use std::marker::Model;

/// Parts by offset. Contracts see them as a map.
#[derive(Drop)]
pub(crate) struct PartTable {
    rows: Vec<(u64, Part)>,
}

impl Model for PartTable {
    ghost use Rattle.std.specs.Prelude.{ℕ, List};
    ghost use Rattle.range_locks.specs.declared.parts.Part.{Part};
    ghost use Rattle.range_locks.specs.Rows.{Rise};

    ghost Value = { List (ℕ × Part) };

    ghost view = { λ t. t.rows.items };

    ghost invariant = { λ t. Rise t.rows.items };
}

impl PartTable {
    /// No parts. It takes no memory.
    pub fn new(alloc: Global) -> Self
        ensures { HasNoParts result }
    {
        PartTable {
            rows: Vec::new(alloc),
        }
    }

    /// Whether there are none.
    pub fn is_empty(&self) -> bool
        ensures { IsTrue result ↔ HasNoParts self.now }
    {
        self.rows.is_empty()
    }

    /// The row at a place.
    fn row(&self, place: usize) -> Option<(u64, Part)>
        ensures { result ≡ slice_get self.now place }
    {
        self.rows.get(place).copied()
    }

    /// The place of the row that begins at an offset, or where it would be.
    fn find(&self, at: u64) -> Result<usize, usize>
        ensures found { IfOk result (λ place. IsRowAt at self.now place) }
        ensures absent { IfErr result (λ place. IsGapAt at self.now place) }
        ensures rise { Rise self.now }
    {
        self.rows.binary_search_by_key(&at, |&(begin, _)| begin)
    }

    /// The part that begins at an offset.
    pub fn get(&self, at: u64) -> Option<Part>
        ensures { result ≡ part_in self.now at }
    {
        match self.find(at) {
            Ok(place) => Some(self.rows[place].1),
            Err(_) => None,
        }
    }

    /// The first part that begins at an offset or after it, with the offset where it begins.
    pub fn first_from(&self, low: u64) -> Option<(u64, Part)>
        ensures { IsFirstFrom low self.now result }
    {
        match self.find(low) {
            Ok(place) => self.row(place),
            Err(place) => self.row(place),
        }
    }

    /// The last part that begins at an offset or before it, with the offset where it begins.
    pub fn last_up_to(&self, at: u64) -> Option<(u64, Part)>
        ensures { IsLastUpTo at self.now result }
    {
        match self.find(at) {
            Ok(place) => self.row(place),
            Err(place) => {
                if place == 0 {
                    return None;
                }
                self.row(place - 1)
            }
        }
    }

    /// A part begins at an offset. It is refused if there is no memory, and then nothing has changed.
    pub fn insert(&mut self, at: u64, part: Part) -> Result<(), AllocError>
        ensures inserted { OnOk result (PutsAt at (Some part) self.old self.new) }
        ensures unchanged { OnErr result (self.new ≡ self.old) }
    {
        match self.find(at) {
            Ok(place) => self.rows[place] = (at, part),
            Err(place) => self.rows.insert(place, (at, part))?,
        }
        Ok(())
    }

    /// Another part begins at an offset where one begins. It takes no memory.
    pub fn replace(&mut self, at: u64, part: Part)
        requires { IsSome (part_in self.old at) }
        ensures { PutsAt at (Some part) self.old self.new }
    {
        if let Ok(place) = self.find(at) {
            self.rows[place] = (at, part);
        }
    }

    /// No part begins at an offset. It takes no memory.
    pub fn remove(&mut self, at: u64)
        ensures { PutsAt at None self.old self.new }
    {
        if let Ok(place) = self.find(at) {
            self.rows.remove(place);
        }
    }
}
