//! What callers of `extents` and `unsynced_extents` rest on: what unsynced groups change of objects, and reads over it.

mod groups;
mod objects;
mod reads;
