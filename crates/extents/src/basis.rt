//! What a group leaves of an object.

ghost use Rattle.std.specs.Prelude.{ℕ, ◌≡◌, ◌<◌, ◌≤◌, ◌+◌, ◌*◌, nat_lt};
ghost use Rattle.base.specs.formats.Limits.{record_count, record_size};

use base::RECORD_SIZE;

/// What a group leaves of an object that lies below its changes. All lengths are in bytes.
#[derive(Clone, Copy, PartialEq, Eq)]
pub enum Basis {
    /// The object below, made at least this long.
    Grown(u64),
    /// So many bytes from the front of it, in an object of this length.
    Cut { kept: u64, length: u64 },
    /// Nothing of it: the group created the object, and it has this length.
    Made(u64),
    /// No object: the group removed it.
    Gone,
}

impl Basis {
    ghost use Rattle.extents.specs.Patches.{basis_after_cut, basis_after_write, is_shown, length_over};

    /// What is left once the group has written up to an offset.
    pub fn after_write(self, end: u64) -> Self
        ensures { result ≡ basis_after_write end self }
    {
        match self {
            Basis::Grown(least) => Basis::Grown(least.max(end)),
            Basis::Cut { kept, length } => Basis::Cut {
                kept,
                length: length.max(end),
            },
            Basis::Made(length) => Basis::Made(length.max(end)),
            Basis::Gone => Basis::Gone,
        }
    }

    /// What is left once the group has set a length.
    pub fn after_cut(self, length: u64) -> Self
        ensures { result ≡ basis_after_cut length self }
    {
        match self {
            Basis::Grown(_) => Basis::Cut {
                kept: length,
                length,
            },
            Basis::Cut { kept, .. } => Basis::Cut {
                kept: kept.min(length),
                length,
            },
            Basis::Made(_) => Basis::Made(length),
            Basis::Gone => Basis::Gone,
        }
    }

    /// The length of the object, from that of the one below.
    pub fn length_over(self, below: Option<u64>) -> Option<u64>
        ensures { result ≡ length_over self below }
    {
        match self {
            Basis::Grown(least) => below.map(|length| length.max(least)),
            Basis::Cut { length, .. } => below.map(|_| length),
            Basis::Made(length) => Some(length),
            Basis::Gone => None,
        }
    }

    /// How many bytes from the front of a record of the object below show. The record is at this index.
    pub(crate) fn shown_in(self, index: usize) -> usize
        requires { index < record_count }
        ensures size { result ≤ record_size }
        ensures shown { (k : ℕ) → k < record_size
            → nat_lt k result ≡ is_shown self (record_size * index + k) }
    {
        let begin = RECORD_SIZE * index;
        match self {
            Basis::Grown(_) => RECORD_SIZE,
            Basis::Cut { kept, .. } => shown_of(kept as usize, begin),
            Basis::Made(_) | Basis::Gone => 0,
        }
    }
}

// How many bytes of a record that begins at an offset lie below the first ones that are kept.
fn shown_of(kept: usize, begin: usize) -> usize
    ensures size { result ≤ record_size }
    ensures shown { (k : ℕ) → k < record_size → nat_lt k result ≡ nat_lt (begin + k) kept }
{
    (kept.max(begin) - begin).min(RECORD_SIZE)
}
