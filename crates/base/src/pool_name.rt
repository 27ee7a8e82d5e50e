//! The grammar of a pool's name (`zpool create`'s, without the colon and the space), and a name that is kept in place.

ghost use Rattle.std.specs.Prelude.{◌≡◌};
ghost use Rattle.std.specs.List.{list_all};
ghost use Rattle.base.specs.formats.Names as names;

use arrayvec::ArrayString;
use std::fmt;
use std::marker::Model;

/// The most bytes of a pool's name.
pub const MAX_NAME: usize = 64;

/// A pool's name in place: 1 to 64 bytes, first an ASCII letter, then letters, digits, `-`, `_` and `.`.
/// Contracts see it as a list of bytes.
#[derive(Clone, Debug, Drop)]
pub struct PoolName {
    text: ArrayString<MAX_NAME>,
}

impl Model for PoolName {
    ghost use Rattle.std.specs.Prelude.{List, ℕ};
    ghost use Rattle.base.specs.formats.Names.{IsName};

    ghost Value = { List ℕ };

    ghost view = { λ n. n.text.bytes };

    ghost invariant = { λ n. IsName n.text.bytes };
}

impl PartialEq for PoolName {
    ghost use Rattle.std.specs.Prelude.{nat_eq};
    ghost use Rattle.std.specs.Cmp.{partial_equiv_from_equiv};
    ghost use Rattle.std.specs.Cmp.Lexicographic.{nat_list_eq_equiv, pointwise};

    ghost eq = { λ a b. pointwise nat_eq a b };

    ghost laws = { partial_equiv_from_equiv nat_list_eq_equiv };

    fn eq(&self, other: &Self) -> bool {
        self.as_str() == other.as_str()
    }
}

impl Eq for PoolName {
    ghost use Rattle.std.specs.Cmp.Lexicographic.{nat_list_eq_equiv};

    ghost laws = { nat_list_eq_equiv };
}

impl fmt::Display for PoolName {
    fn fmt<W: fmt::Write>(&self, f: &mut fmt::Formatter<W>) -> fmt::Result {
        f.write_str(self.as_str())
    }
}

impl PoolName {
    ghost use Rattle.std.specs.Prelude.{◌≡◌, ◌≤◌, length, IfSome, IfNone, false};
    ghost use Rattle.base.specs.formats.Limits.{max_name};
    ghost use Rattle.base.specs.formats.Names.{IsName, is_name};

    /// The name of these bytes, or None if they are no name.
    pub fn new(bytes: &[u8]) -> Option<Self>
        ensures name { IfSome result (λ name. (name ≡ bytes.now) × IsName bytes.now) }
        ensures no_name { IfNone result (is_name bytes.now ≡ false) }
    {
        if !is_name(bytes) {
            return None;
        }
        let Ok(text) = str::from_utf8(bytes) else {
            return None;
        };
        let text = ArrayString::from(text).ok()?;
        Some(PoolName { text })
    }

    /// A copy of the name. It takes no memory.
    pub fn copy(&self) -> Self
        ensures copy { result ≡ self.now }
        ensures name { IsName result }
    {
        let text = self.text;
        PoolName { text }
    }

    /// The name as text.
    pub fn as_str(&self) -> &str
        ensures bytes { result.now ≡ self.now }
    {
        self.text.as_str()
    }

    /// The bytes of the name.
    pub fn as_slice(&self) -> &[u8]
        ensures bytes { result.now ≡ self.now }
        ensures name { IsName self.now }
        ensures length { length self.now ≤ max_name }
    {
        let text = &self.text;
        text.as_str().as_bytes()
    }
}

/// Whether these bytes are a name that a pool may have.
pub fn is_name(bytes: &[u8]) -> bool
    ensures { result ≡ names.is_name bytes.now }
{
    is_name_length(bytes.len()) && is_letter(bytes[0]) && are_name_bytes(bytes)
}

fn is_name_length(length: usize) -> bool
    ensures { result ≡ names.is_name_length length }
{
    0 < length && length <= MAX_NAME
}

fn is_letter(byte: u8) -> bool
    ensures { result ≡ names.is_letter byte }
{
    byte.is_ascii_alphabetic()
}

fn is_name_byte(byte: u8) -> bool
    ensures { result ≡ names.is_name_byte byte }
{
    is_letter(byte) || is_digit(byte) || byte == b'-' || byte == b'_' || byte == b'.'
}

fn is_digit(byte: u8) -> bool
    ensures { result ≡ names.is_digit byte }
{
    byte.is_ascii_digit()
}

fn are_name_bytes(bytes: &[u8]) -> bool
    ensures { result ≡ list_all names.is_name_byte bytes.now }
{
    bytes.iter().all(|byte| is_name_byte(*byte))
}
