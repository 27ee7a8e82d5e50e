//! What the transactions of a group changed of the objects of a pool and of its name, read over what lies below.
#![tactic(auto)]

mod basis;
mod clients;
mod extents;
mod laid;
mod laws;
mod object;
mod record;
mod synced;

pub use basis::Basis;
pub use extents::Extents;
pub use laid::Laid;
pub use laws::{
    added_changes, changes_follow, group_is_read, lengths_follow, nothing_changes,
    objects_stay_within,
};
pub use object::ObjectPatch;
