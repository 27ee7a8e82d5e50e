//! Objects and their lengths, a list in one allocation.

use base::ObjectId;
use std::marker::Model;

/// An object that is there, and its length.
#[derive(Clone, Copy, PartialEq, Eq)]
pub struct Listed {
    /// The object's number.
    pub object: ObjectId,
    /// Its length in bytes.
    pub length: u64,
}

/// Objects that are there, and their lengths. Contracts see it as a list.
///
/// It is made from a `Vec` and gives it back without taking memory.
#[derive(Drop)]
pub struct Listing {
    items: Vec<Listed>,
}

impl Model for Listing {
    ghost use Rattle.std.specs.Prelude.{List};
    ghost use Rattle.frames.specs.declared.listing.Listed.{Listed};

    ghost Value = { List Listed };

    ghost view = { λ p. p.items.items };
}

impl PartialEq for Listing {
    ghost use Rattle.std.specs.Cmp.Lexicographic.{lists_per, pointwise};
    ghost use Rattle.frames.specs.contracts.listing.ListedPartialEq.TheImpl.{ghosts};
    ghost use Rattle.frames.specs.contracts.listing.ListedPartialEq.TheImpl.Laws.{laws-law};

    ghost eq = { λ a b. pointwise ghosts.eq a b };

    ghost laws = { lists_per laws-law };

    fn eq(&self, other: &Self) -> bool {
        self.as_slice() == other.as_slice()
    }
}

impl Eq for Listing {
    ghost use Rattle.std.specs.Cmp.Lexicographic.{lists_equiv};
    ghost use Rattle.frames.specs.contracts.listing.ListedEq.TheImpl.Laws.{laws-law};

    ghost laws = { lists_equiv laws-law };
}

impl Listing {
    ghost use Rattle.std.specs.Prelude.{◌≡◌};

    /// These objects.
    pub fn new(items: Vec<Listed>) -> Self
        ensures { result ≡ items.items }
    {
        Listing { items }
    }

    /// The `Vec` that holds them.
    pub fn into_vec(self) -> Vec<Listed>
        ensures { result.items ≡ self }
    {
        self.items
    }

    /// The objects, in order.
    pub fn as_slice(&self) -> &[Listed]
        ensures { result.now ≡ self.now }
    {
        self.items.as_slice()
    }
}
