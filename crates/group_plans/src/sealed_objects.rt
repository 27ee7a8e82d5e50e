//! The records at hand as blocks, which are sealed four side by side before a plan places them.

ghost use Rattle.std.specs.Prelude.{◌≡◌, ◌<◌, ◌*◌, ◌^◌, ◌↔◌, ℕ, IfErr, IfOk, IfSome, IsTrue, Some, is_some, true};
ghost use Rattle.std.specs.BTreeMap as tree;
ghost use Rattle.std.specs.Ordering.{nat_cmp};
ghost use Rattle.base.specs.declared.error.PoolError.TheVariants as error;
ghost use Rattle.base.specs.formats.Blocks.{sealed_block};
ghost use Rattle.base.specs.formats.Limits.{object_count, record_count};
ghost use Rattle.checked_blocks.specs.Sealing.{padded};
ghost use Rattle.group_plans.specs.Prepared.{at_hand};
ghost use Rattle.group_plans.specs.SealedRecords.{AreSealed, IsSealedAs, data_number, prepared_objects};

use crate::prepared::{PreparedObjects, record_number};
use base::{Group, OBJECT_COUNT, ObjectId, POINTER_COUNT, PoolError};
use checked_blocks::{Block, Content, Kind, seal, seal_four};
use extents::Laid;
use std::alloc::Global;
use std::collections::BTreeMap;
use tree_blocks::{BlockPlace, ObjectSource, RECORD_COUNT, RecordPlace, strip_number};
use tree_plans::SealedSource;

// The records of all objects.
const ALL_RECORDS: u64 = (OBJECT_COUNT as usize * RECORD_COUNT) as u64;

// Objects with their records at hand, and the blocks of some of these for a pool and a group.
#[derive(Drop)]
pub(crate) struct SealedObjects<'a, 'b> {
    guid: u64,
    group: Group,
    pub(crate) prepared: &'a PreparedObjects<'b>,
    // by the keys of their records
    blocks: BTreeMap<u64, Block>,
    ghost sealed: { AreSealed guid group.0 prepared.now.records blocks },
}

// The number of the data block of a record, by its key, the number of the record among those of all objects.
#[tactic(auto, unfolding(base::specs::formats::Limits::record_count))]
fn block_number(key: u64) -> u64
    requires { key < object_count * record_count }
    ensures { result ≡ data_number key }
{
    let index = key as usize % RECORD_COUNT;
    let strip = strip_number(key as usize / RECORD_COUNT, index / POINTER_COUNT);
    BlockPlace::Data(strip, index % POINTER_COUNT).number()
}

// Whether a number is this one.
fn is_same(number: u64, other: u64) -> bool
    ensures same { IsTrue result ↔ (number ≡ other) }
    ensures fits { number < 2 ^ 64 }
{
    number == other
}

impl<'a, 'b> SealedObjects<'a, 'b> {
    // The objects with their records at hand, sealed four side by side, and the last one or two alone. Two records at
    // most are left to `sealed_record`.
    pub(crate) fn new(
        alloc: Global,
        prepared: &'a PreparedObjects<'b>,
        guid: u64,
        group: Group,
    ) -> Result<Self, PoolError>
        ensures prepared { IfOk result (λ s. s.prepared.now ≡ prepared.now) }
        ensures refused { IfErr result (λ e. e ≡ error.NoMemory) }
    {
        let keys = Vec::from_iter(alloc, prepared.records.keys().copied())?;
        let mut sealed = SealedObjects {
            guid,
            group,
            prepared,
            blocks: BTreeMap::new(alloc),
        };
        for four in keys.chunks(4) {
            match four {
                [a, b, c, d] => sealed.seal_records(*a, *b, *c, *d)?,
                [a, b, c] => sealed.seal_records(*a, *b, *c, *c)?,
                [a, b] if keys.len() > 2 => {
                    sealed.seal_record(*a)?;
                    sealed.seal_record(*b)?;
                }
                [a] if keys.len() > 2 => sealed.seal_record(*a)?,
                _ => {}
            }
        }
        Ok(sealed)
    }

    // What the data block of a record at hand has of its own.
    #[tactic(auto, unfolding(base::specs::formats::Limits::record_count))]
    fn content(&self, key: u64) -> Option<Content<'a>>
        ensures { IfSome result (λ content. (content.number ≡ data_number key)
            × (tree.get nat_cmp self.now.prepared.now.records key ≡ Some content.payload.now)) }
    {
        if key >= ALL_RECORDS {
            return None;
        }
        let payload = self.prepared.records.get(&key)?;
        Some(Content {
            number: block_number(key),
            payload: payload.as_slice(),
        })
    }

    // Seals the record of a key.
    fn seal_record(&mut self, key: u64) -> Result<(), PoolError>
        ensures prepared { self.new.prepared.now ≡ self.old.prepared.now }
        ensures refused { IfErr result (λ e. e ≡ error.NoMemory) }
    {
        let Some(Content { number, payload }) = self.content(key) else {
            return Ok(());
        };
        let Ok(block) = seal(Kind::Data as u64, self.guid, self.group, number, payload) else {
            return Ok(());
        };
        self.keep(key, block)
    }

    // Seals the records of four keys side by side.
    fn seal_records(&mut self, a: u64, b: u64, c: u64, d: u64) -> Result<(), PoolError>
        ensures prepared { self.new.prepared.now ≡ self.old.prepared.now }
        ensures refused { IfErr result (λ e. e ≡ error.NoMemory) }
    {
        let Some(first) = self.content(a) else {
            return Ok(());
        };
        let Some(second) = self.content(b) else {
            return Ok(());
        };
        let Some(third) = self.content(c) else {
            return Ok(());
        };
        let Some(fourth) = self.content(d) else {
            return Ok(());
        };
        let kind = Kind::Data as u64;
        let sealed = seal_four(
            kind, self.guid, self.group, &first, &second, &third, &fourth,
        );
        let Ok([e, f, g, h]) = sealed else {
            return Ok(());
        };
        self.keep(a, e)?;
        self.keep(b, f)?;
        self.keep(c, g)?;
        self.keep(d, h)
    }

    // Keeps the block of the record of a key.
    fn keep(&mut self, key: u64, block: Block) -> Result<(), PoolError>
        requires { IsSealedAs self.old.guid self.old.group.0
            self.old.prepared.now.records key block }
        ensures guid { self.new.guid ≡ self.old.guid }
        ensures group { self.new.group ≡ self.old.group }
        ensures prepared { self.new.prepared.now ≡ self.old.prepared.now }
        ensures refused { IfErr result (λ e. e ≡ error.NoMemory) }
    {
        self.blocks.insert(key, block)?;
        Ok(())
    }
}

impl<'a, 'b> ObjectSource for SealedObjects<'a, 'b> {
    ghost objects = { λ s. prepared_objects s.prepared.now };

    fn length(&self, id: ObjectId) -> Option<u64> {
        Laid::new(self.prepared.extents, self.prepared.tree).length(id)
    }
}

impl<'a, 'b> SealedSource for SealedObjects<'a, 'b> {
    ghost has_record = { λ s n r. is_some (at_hand s.prepared.now.records n r) ≡ true };

    fn sealed_record(
        &self,
        guid: u64,
        group: Group,
        place: RecordPlace,
    ) -> Result<Block, PoolError> {
        let key = record_number(place.id, place.number());
        if guid == self.guid && is_same(group.0, self.group.0) {
            if let Some(block) = self.blocks.get(&key) {
                return Ok(block.copy());
            }
        }
        let Some(payload) = self.prepared.records.get(&key) else {
            unreachable!()
        };
        let number = place.data_place().number();
        seal(Kind::Data as u64, guid, group, number, payload.as_slice())
    }

    fn record_check(&self, guid: u64, group: Group, place: RecordPlace) -> Option<[u8; 32]> {
        if guid != self.guid || group != self.group {
            return None;
        }
        let key = record_number(place.id, place.number());
        Some(self.blocks.get(&key)?.check())
    }
}
