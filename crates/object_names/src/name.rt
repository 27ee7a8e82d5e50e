//! The grammar of an object's name: as that of a file, but without control characters.

ghost use Rattle.std.specs.Prelude.{◌≡◌, length};
ghost use Rattle.std.specs.List.{list_all};
ghost use Rattle.std.specs.Str.{chars};
ghost use Rattle.object_names.specs.Names as names;

/// The most bytes of an object's name.
pub const MAX_OBJECT_NAME: usize = 254;

/// Whether an object may have these bytes as its name: 1 to 254 bytes of UTF-8 without a control character and without
/// `/`.
pub fn is_object_name(bytes: &[u8]) -> bool
    ensures { result ≡ names.is_name bytes.now }
{
    is_name_length(bytes.len()) && is_name_text(bytes)
}

fn is_name_length(length: usize) -> bool
    ensures { result ≡ names.is_name_length length }
{
    0 < length && length <= MAX_OBJECT_NAME
}

fn is_name_text(bytes: &[u8]) -> bool
    ensures { result ≡ names.is_name_text bytes.now }
{
    match str::from_utf8(bytes) {
        Ok(text) => are_name_chars(text),
        Err(_) => false,
    }
}

fn are_name_chars(text: &str) -> bool
    ensures { result ≡ list_all names.is_name_char (chars text.now) }
{
    text.chars().all(|c| is_name_char(c))
}

fn is_name_char(c: char) -> bool
    ensures { result ≡ names.is_name_char c }
{
    !c.is_control() && c != '/'
}
