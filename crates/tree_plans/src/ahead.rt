//! Indirect blocks that are sealed before a plan comes to them. The checks of four blocks side by side cost less than
//! those of three alone (`checked_blocks::seal_four`).
//!
//! 1. A walk takes free blocks in their order. So the addresses of the records of the next objects are known before it
//!    comes to them, and with the checks of these records what their indirect blocks hold.
//! 2. A block is used if the walk asks for one with its number and its payload. Any other one is sealed alone.
//! 3. So no clause rests on what is sealed ahead. Without memory nothing is.

ghost use Rattle.std.specs.Prelude.{◌≡◌, ◌<◌, ◌≤◌, IfOk, IfSome, vec_len};
ghost use Rattle.base.specs.formats.Blocks.{IsBlock};
ghost use Rattle.base.specs.formats.Geometry.{block_count};
ghost use Rattle.base.specs.formats.Limits.{object_count, pointer_count};
ghost use Rattle.checked_blocks.specs.Sealing.{padded};

use crate::changed_object::ChangedObject;
use crate::changes::ObjectChanges;
use crate::plan_source::PlanSource;
use crate::sealed_source::SealedSource;
use base::{Group, OBJECT_COUNT, ObjectId, POINTER_COUNT, Pointer, PoolError, RecordState};
use checked_blocks::{Block, Content, Kind, PAYLOAD_SIZE, seal, seal_four};
use std::alloc::{AllocError, Global};
use std::collections::BTreeMap;
use tree_blocks::{
    ObjectSource, RecordPlace, is_long, pointer_of_list, pointer_payload, strip_number,
};

// How many blocks are sealed side by side.
const COUNT: usize = 4;

/// Indirect blocks that were sealed ahead, at most four.
#[derive(Drop)]
pub(crate) struct IndirectsAhead {
    blocks: Vec<IndirectAhead>,
    // those of the objects below this one were sealed ahead, as far as they were known
    past: u32,
    ghost few: { vec_len blocks ≤ 4 },
}

// An indirect block, with all that it was sealed of.
#[derive(Drop)]
struct IndirectAhead {
    guid: u64,
    group: Group,
    number: u64,
    payload: [u8; PAYLOAD_SIZE],
    block: Block,
    ghost sealed: { IsBlock block 4 guid group.0 number (padded payload) },
}

impl IndirectAhead {
    // The block, if it is the one of this number with this payload, for a pool of this guid and for this group.
    fn block(&self, guid: u64, group: Group, number: u64, payload: &[u8]) -> Option<Block>
        ensures { IfSome result (λ block. IsBlock block 4 guid group.0 number (padded payload.now)) }
    {
        let is_same = self.guid == guid
            && self.group == group
            && self.number == number
            && &self.payload[..] == payload;
        is_same.then(|| self.block.copy())
    }
}

impl IndirectsAhead {
    /// None was sealed. It takes no memory.
    pub fn none(alloc: Global) -> Self {
        IndirectsAhead {
            blocks: Vec::new(alloc),
            past: 0,
        }
    }

    /// The indirect block of the strip of this number with this payload, for a pool of this guid and for this group.
    pub fn seal(&self, guid: u64, group: Group, number: u64, payload: &[u8; PAYLOAD_SIZE]) -> Block
        ensures { IsBlock result 4 guid group.0 number (padded payload.now) }
    {
        if let Some(block) = self.block(guid, group, number, payload) {
            return block;
        }
        let Ok(block) = seal(Kind::Indirect as u64, guid, group, number, payload) else {
            unreachable!()
        };
        block
    }

    // The block, if it was sealed ahead.
    fn block(&self, guid: u64, group: Group, number: u64, payload: &[u8]) -> Option<Block>
        ensures { IfSome result (λ block. IsBlock block 4 guid group.0 number (padded payload.now)) }
    {
        for ahead in &self.blocks {
            if let Some(block) = ahead.block(guid, group, number, payload) {
                return Some(block);
            }
        }
        None
    }

    /// Seals the next indirect blocks of a walk that comes to this object, and takes free blocks from `next` on, unless
    /// those of the object were sealed before.
    pub fn go_on<O: SealedSource>(
        &mut self,
        source: &PlanSource<'_>,
        after: &O,
        objects: &BTreeMap<ObjectId, ObjectChanges>,
        id: ObjectId,
        next: usize,
    )
        requires { source.now.free.now.blocks ≡ block_count source.now.geometry }
    {
        if id.0 < self.past {
            return;
        }
        self.blocks.clear();
        let Ok(mut found) = Vec::with_capacity(source.alloc, COUNT) else {
            return;
        };
        let mut preview = Preview { source, next };
        for (id, changes) in objects.range(id..) {
            if found.len() >= COUNT || id.0 >= OBJECT_COUNT {
                break;
            }
            let Some(old) = source.old_maps.get(id) else {
                break;
            };
            let object = ChangedObject {
                id: *id,
                is_long: is_long(after.length(*id)),
                old,
                changes,
            };
            if preview.go_over(after, &object, &mut found).is_none() {
                break;
            }
            self.past = id.0 + 1;
        }
        if let Ok(blocks) = sealed(source, &found) {
            self.blocks = blocks;
        }
    }
}

// An indirect block that a walk will make.
#[derive(Drop)]
struct NextIndirect {
    number: u64,
    payload: [u8; PAYLOAD_SIZE],
}

impl NextIndirect {
    fn content(&self) -> Content<'_>
        ensures number { result.number ≡ self.now.number }
        ensures payload { result.payload.now ≡ self.now.payload }
    {
        Content {
            number: self.number,
            payload: &self.payload,
        }
    }

    // It was sealed: this is the block.
    fn sealed(&self, guid: u64, group: Group, block: Block) -> IndirectAhead
        requires { IsBlock block 4 guid group.0 self.now.number (padded self.now.payload) }
    {
        IndirectAhead {
            guid,
            group,
            number: self.number,
            payload: self.payload,
            block,
        }
    }
}

// Seals blocks side by side, if there are three or four.
fn sealed(source: &PlanSource<'_>, found: &[NextIndirect]) -> Result<Vec<IndirectAhead>, PoolError>
    ensures { IfOk result (λ blocks. vec_len blocks ≤ 4) }
{
    let (a, b, c, d) = match found {
        [a, b, c] => (a, b, c, c),
        [a, b, c, d] => (a, b, c, d),
        _ => return Ok(Vec::new(source.alloc)),
    };
    let mut blocks = Vec::with_capacity(source.alloc, COUNT)?;
    let PlanSource { guid, group, .. } = *source;
    let [e, f, g, h] = seal_four(
        Kind::Indirect as u64,
        guid,
        group,
        &a.content(),
        &b.content(),
        &c.content(),
        &d.content(),
    )?;
    blocks.push(a.sealed(guid, group, e))?;
    blocks.push(b.sealed(guid, group, f))?;
    blocks.push(c.sealed(guid, group, g))?;
    blocks.push(d.sealed(guid, group, h))?;
    Ok(blocks)
}

// A walk that makes no blocks: the free block that it takes next.
#[derive(Drop)]
struct Preview<'a> {
    source: &'a PlanSource<'a>,
    next: usize,
    ghost sized: { source.now.free.now.blocks ≡ block_count source.now.geometry },
}

impl Preview<'_> {
    // The address of the block that is taken next, if one is free.
    fn take(&mut self) -> Option<u64> {
        let index = self.source.free.next_from(self.next)?;
        let address = self.source.geometry.block_address(index as u64);
        self.next = index + 1;
        Some(address)
    }

    // The pointer to a record after the plan, if it is known.
    fn record<O: SealedSource>(
        &mut self,
        after: &O,
        place: RecordPlace,
        old: Pointer,
        state: RecordState,
    ) -> Option<Pointer>
        requires id { place.id.0 < object_count }
        requires strip { place.strip < pointer_count }
        requires index { place.index < pointer_count }
    {
        match state {
            RecordState::Unchanged => Some(old),
            RecordState::Hole => Some(Pointer::NONE),
            RecordState::Dirty => {
                let PlanSource { guid, group, .. } = *self.source;
                let check = after.record_check(guid, group, place)?;
                Some(Pointer {
                    address: self.take()?,
                    birth: group.0,
                    check,
                })
            }
        }
    }

    // The pointers to the records of a strip after the plan, if they are known.
    fn records<O: SealedSource>(
        &mut self,
        after: &O,
        object: &ChangedObject<'_>,
        strip: usize,
    ) -> Option<[Pointer; POINTER_COUNT]>
        requires id { object.now.id.0 < object_count }
        requires strip { strip < pointer_count }
    {
        let old = object.old.records(strip);
        let mut records = [Pointer::NONE; POINTER_COUNT];
        for index in 0..POINTER_COUNT {
            let place = RecordPlace {
                id: object.id,
                strip,
                index,
            };
            let state = object.state(strip, index);
            records[index] = self.record(after, place, pointer_of_list(old, index), state)?;
        }
        Some(records)
    }

    // The indirect block of a strip, if the plan makes one.
    fn indirect<O: SealedSource>(
        &mut self,
        after: &O,
        object: &ChangedObject<'_>,
        strip: usize,
    ) -> Option<Option<NextIndirect>>
        requires id { object.now.id.0 < object_count }
        requires strip { strip < pointer_count }
    {
        let records = self.records(after, object, strip)?;
        if object.keeps_strip(strip) || !object.has_indirect(strip, &records) {
            return Some(None);
        }
        Some(Some(NextIndirect {
            number: strip_number(object.id.0 as usize, strip) as u64,
            payload: pointer_payload(&records),
        }))
    }

    // Goes over an object, and adds the indirect blocks that the plan makes of it, as far as there is room. `None` if
    // they aren't known.
    fn go_over<O: SealedSource>(
        &mut self,
        after: &O,
        object: &ChangedObject<'_>,
        found: &mut Vec<NextIndirect>,
    ) -> Option<()>
        requires { object.now.id.0 < object_count }
    {
        let before = found.len();
        for strip in 0..object.met_end() {
            if found.len() >= COUNT {
                return None;
            }
            if !object.is_met(strip) {
                continue;
            }
            if let Some(indirect) = self.indirect(after, object, strip)? {
                found.push(indirect).ok()?;
            }
        }
        for _ in before..found.len() {
            self.take()?;
        }
        if object.is_long && object.changes.is_changed {
            self.take()?;
        }
        Some(())
    }
}
