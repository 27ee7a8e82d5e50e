//! What holds of the changes of the unsynced groups: each function's contract is a law, and its body does nothing.

ghost use Rattle.unsynced_extents.specs.Laws.{AddedEntry, GroupsAreRead, LeftChanges, MovedGroups, NamesAreRead, OldestIsLaid, OldestNameIsLaid, UnsyncedAreRead};

/// Laid one over the other, oldest first, over the objects of the synced tree, the changes of the unsynced groups are
/// the contents, in whatever order their transactions were committed.
pub fn groups_are_read()
    ensures { GroupsAreRead }
{}

/// The changes of the three unsynced groups, laid over the objects of the synced tree, are the contents.
pub fn unsynced_are_read()
    ensures { UnsyncedAreRead }
{}

/// The name that the newest of the three unsynced groups gives that give one, or else the synced one, is the contents'.
pub fn names_are_read()
    ensures { NamesAreRead }
{}

/// Once the oldest group's changes are in the tree, the changes of the others over it give what all gave before.
pub fn oldest_is_laid()
    ensures { OldestIsLaid }
{}

/// Once the oldest group's name is the synced one, the names of the others over it give what all gave before.
pub fn oldest_name_is_laid()
    ensures { OldestNameIsLaid }
{}

/// The changes and names of the unsynced groups stay those of their entries if what each group made stays.
pub fn left_changes()
    ensures { LeftChanges }
{}

/// They do so with an entry more, whose operations are applied at its group's place.
pub fn added_entry()
    ensures { AddedEntry }
{}

/// They do so once the oldest group is synced, and the others have moved up.
pub fn moved_groups()
    ensures { MovedGroups }
{}
