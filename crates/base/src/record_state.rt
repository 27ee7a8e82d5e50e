//! What a sync does with a record of an object (`dbuf_dirty` and `dnode_free_range` of OpenZFS make the same
//! difference).

/// What a sync does with a record of an object.
#[derive(Clone, Copy)]
pub enum RecordState {
    /// It keeps the block that it has, or has none.
    Unchanged,
    /// It is written whole.
    Dirty,
    /// It has no block afterwards, and reads as zeros.
    Hole,
}
