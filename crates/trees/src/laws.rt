//! What holds of each tree: each function's contract is a law, and its body does nothing.

ghost use Rattle.trees.specs.ObjectPaths.{TreesAreByPaths};

/// Each object of a tree is what the blocks of its path say, whatever the blocks of the other objects are.
pub fn trees_are_by_paths()
    ensures { TreesAreByPaths }
{}
