//! The digest of a pool's contents: SHA-256 (FIPS 180-4) of the name, the number of objects, and the objects by rising
//! number.

ghost use Rattle.std.specs.Prelude.{◌≡◌, ◌<◌, ◌≤◌, IfErr, IfOk, OnOk, is_some, length, true};
ghost use Rattle.std.specs.FinMap as finite;
ghost use Rattle.base.specs.declared.error.PoolError.TheVariants as error;
ghost use Rattle.base.specs.formats.Digest.{digest_of};
ghost use Rattle.base.specs.formats.Geometry.{block_address};
ghost use Rattle.base.specs.formats.Limits.{max_length, object_count};
ghost use Rattle.device_model.specs.Reading.{OnlyReads};
ghost use Rattle.object_maps.specs.Cached.{IsReadRefusal};
ghost use Rattle.object_reads.specs.Digests.{Feeds, text_at};
ghost use Rattle.contents.specs.Judging.{with_name};
ghost use Rattle.tree_blocks.specs.Sources.{object_bytes};
ghost use Rattle.tree_blocks.specs.ListedObjects.{AreWithin};

use crate::pointer_blocks::PointerBlocks;
use crate::shown_tree::ShownTree;
use base::{OBJECT_COUNT, ObjectId, PoolError, PoolName, RECORD_SIZE};
use object_maps::BlockReader;
use sha2::{Digest, Sha256};
use tree_blocks::ObjectSource;

impl<'a> ShownTree<'a> {
    ghost use Rattle.object_reads.specs.ShownTrees.{StandsOn, shown_objects};

    /// The digest of the contents with this name: SHA-256 of the name's length (4 bytes), the name, the number of
    /// objects (4), and for each object by rising number its number (4), its length (8) and its bytes. All numbers
    /// are little-endian. The records of an object are read rising, those of a strip after its indirect block, and
    /// all after the object's top, if it has one. It takes no memory.
    ///
    /// # Errors
    /// `Read` if the device refused a read, `Damaged` if a block is not the one that its pointer names.
    pub fn digest<B: BlockReader>(
        &self,
        reader: &mut B,
        name: &PoolName,
    ) -> Result<[u8; 32], PoolError>
        requires fits { block_address self.now.frame.blocks ≤ B.size reader.old }
        requires within { AreWithin (shown_objects self.now) }
        ensures reads { OnlyReads B.SectorDevice result reader.old reader.new }
        ensures refused { IfErr result IsReadRefusal }
        ensures exact { StandsOn B.SectorDevice reader.old self.now → IfOk result (λ d. d
            ≡ digest_of (with_name (shown_objects self.now) name.now)) }
        ensures sound { StandsOn B.SectorDevice reader.old self.now
            → IfErr result (λ e. e ≡ error.Read) }
    {
        let mut hasher = Sha256::new();
        let name = name.as_slice();
        hasher.update((name.len() as u32).to_le_bytes());
        hasher.update(name);
        hasher.update(count(&self.objects()).to_le_bytes());
        for number in 0..OBJECT_COUNT {
            self.feed_object(reader, ObjectId(number), &mut hasher)?;
        }
        Ok(hasher.finalize())
    }

    // Feeds what the digest has of an object, if it is there.
    fn feed_object<B: BlockReader>(
        &self,
        reader: &mut B,
        id: ObjectId,
        hasher: &mut Sha256,
    ) -> Result<(), PoolError>
        requires fits { block_address self.now.frame.blocks ≤ B.size reader.old }
        requires number { id.0 < object_count }
        requires within { AreWithin (shown_objects self.now) }
        ensures reads { OnlyReads B.SectorDevice result reader.old reader.new }
        ensures refused { IfErr result IsReadRefusal }
        ensures fed { StandsOn B.SectorDevice reader.old self.now → OnOk result
            (Feeds (text_at (shown_objects self.now) id.0) hasher.old hasher.new) }
        ensures sound { StandsOn B.SectorDevice reader.old self.now
            → IfErr result (λ e. e ≡ error.Read) }
    {
        let Some(length) = self.length(id) else {
            return Ok(());
        };
        hasher.update(id.0.to_le_bytes());
        hasher.update(length.to_le_bytes());
        self.feed_bytes(reader, id, length as usize, hasher)
    }

    // Feeds the bytes of an object, as many as it has, record by record.
    fn feed_bytes<B: BlockReader>(
        &self,
        reader: &mut B,
        id: ObjectId,
        size: usize,
        hasher: &mut Sha256,
    ) -> Result<(), PoolError>
        requires fits { block_address self.now.frame.blocks ≤ B.size reader.old }
        requires number { id.0 < object_count }
        requires there { is_some (finite.get (shown_objects self.now) id.0) ≡ true }
        requires size { size ≡ length (object_bytes (shown_objects self.now) id.0) }
        requires within { size ≤ max_length }
        ensures reads { OnlyReads B.SectorDevice result reader.old reader.new }
        ensures refused { IfErr result IsReadRefusal }
        ensures fed { StandsOn B.SectorDevice reader.old self.now → OnOk result
            (Feeds (object_bytes (shown_objects self.now) id.0) hasher.old hasher.new) }
        ensures sound { StandsOn B.SectorDevice reader.old self.now
            → IfErr result (λ e. e ≡ error.Read) }
    {
        let mut blocks = PointerBlocks::new();
        let mut record = [0; RECORD_SIZE];
        for index in 0..size.div_ceil(RECORD_SIZE) {
            self.read_part(reader, id, &mut blocks, index, 0, &mut record)?;
            let count = RECORD_SIZE.min(size - RECORD_SIZE * index);
            hasher.update(&record[..count]);
        }
        Ok(())
    }
}

// How many objects there are.
fn count<O: ObjectSource>(objects: &O) -> u32
    requires { AreWithin (O.objects objects.now) }
    ensures { result ≡ finite.len (O.objects objects.now) }
{
    let mut count = 0;
    for number in 0..OBJECT_COUNT {
        if objects.has(ObjectId(number)) {
            count += 1;
        }
    }
    count
}
