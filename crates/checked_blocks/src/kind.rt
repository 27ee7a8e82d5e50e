//! The kinds of blocks, by the number of the kind field.

/// What a block holds. The number is the block's kind field: `Kind::Data as u64` is 5.
#[derive(Clone, Copy)]
pub enum Kind {
    /// The config of a label (On-Disk Specification, chapter 1).
    Config = 1,
    /// The root of the pool's tree: pointers to the directories.
    Root = 2,
    /// Entries of objects, each with a pointer to the object's top or to its one indirect block.
    Directory = 3,
    /// Pointers to 84 records of one object (On-Disk Specification, chapter 2).
    Indirect = 4,
    /// A record of an object.
    Data = 5,
    /// A block of the intent log (On-Disk Specification, chapter 7).
    Log = 6,
    /// The top of an object of two levels: pointers to its indirect blocks.
    Top = 7,
}
