//! What a reader expects of a block: the fields that the pointer, the label or the log chain that leads to it says.

use base::Group;

/// What a reader knows of a block before it reads it.
#[derive(Clone, Copy)]
pub struct Expected {
    /// The byte address that a refusal names. No test looks at it.
    pub address: u64,
    /// The kind field.
    pub kind: u64,
    /// The guid of the pool.
    pub guid: u64,
    /// The number field.
    pub number: u64,
    /// The group field, if it is known: a pointer's birth group.
    pub group: Option<Group>,
    /// The check field, if it is known: a pointer's check.
    pub check: Option<[u8; 32]>,
}
