//! Pointers to blocks (On-Disk Specification, chapter 2): where a block lies, when it was born, and the check of its
//! bytes.

ghost use Rattle.std.specs.Prelude.{◌≡◌, ◌↔◌, IsTrue, replicate};

use crate::fields::read_u64;

/// The place, birth group and check of a block (On-Disk Specification, chapter 2). All zeros: none.
#[derive(Clone, Copy, PartialEq, Eq)]
pub struct Pointer {
    /// The byte address of the block on the device, 0 for none.
    pub address: u64,
    /// The transaction group in which the block was written.
    pub birth: u64,
    /// The SHA-256 check that the block carries (FIPS 180-4).
    pub check: [u8; 32],
}

impl Pointer {
    ghost use Rattle.std.specs.Prelude.{◌≡◌, ◌↔◌, IsTrue};
    ghost use Rattle.base.specs.formats.Fields.{no_pointer};

    /// The pointer to nothing, 48 zero bytes.
    pub const NONE: Pointer = Pointer {
        address: 0,
        birth: 0,
        check: [0; 32],
    };

    /// Whether it is the pointer to nothing.
    pub fn is_none(&self) -> bool
        ensures { IsTrue result ↔ (self.now ≡ no_pointer) }
    {
        self.address == 0 && self.birth == 0 && is_no_check(&self.check)
    }
}

// Whether a check is 32 zeros, by its four words.
fn is_no_check(check: &[u8; 32]) -> bool
    ensures { IsTrue result ↔ (check.now ≡ replicate 32 0) }
{
    for word in 0..4 {
        if read_u64(check, 8 * word) != 0 {
            return false;
        }
    }
    true
}
