//! What holds of each copy: the function's contract is a law, and its body does nothing.

ghost use Rattle.copies.specs.WholeCopies.{CopiesHaveAll};

/// A copy of a pool that mounts has each of its objects, with its bytes.
pub fn copies_have_all()
    ensures { CopiesHaveAll }
{}
