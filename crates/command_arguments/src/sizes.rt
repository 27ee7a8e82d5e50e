//! Numbers of bytes as people write them: `64M` is 64 times 1,024 times 1,024.

ghost use Rattle.std.specs.Prelude.{◌≡◌, ◌<◌, ◌^◌, length};
ghost use Rattle.std.specs.Option.{SomeIff};
ghost use Rattle.command_arguments.specs.Sizes.{IsSize, count_of, last_byte, letter_bytes, size_of, unit_of};

/// The number of bytes that a text says: decimal digits, and maybe one letter after them. `K`, `M`, `G` and `T` stand
/// for 1,024 to the power of 1, 2, 3 and 4. `None` if it is another text, or says 2^64 bytes or more.
pub fn size_of(text: &str) -> Option<u64>
    ensures { SomeIff result (IsSize text.now) (size_of text.now) }
{
    let (count, unit) = split_unit(text);
    count.parse::<u64>().ok()?.checked_mul(unit)
}

// The text before the letter, and what it counts.
fn split_unit(text: &str) -> (&str, u64)
    ensures count { result.0.now ≡ count_of text.now }
    ensures unit { result.1 ≡ unit_of text.now }
{
    let unit = last_letter(text);
    if unit == 0 {
        (text, 1)
    } else {
        (&text[..text.len() - 1], unit)
    }
}

// How many bytes the last letter of a text stands for.
fn last_letter(text: &str) -> u64
    ensures bytes { result ≡ letter_bytes (last_byte text.now) }
{
    match text.as_bytes().last() {
        Some(letter) => letter_bytes(*letter),
        None => 0,
    }
}

fn letter_bytes(letter: u8) -> u64
    ensures { result ≡ letter_bytes letter }
{
    match letter {
        b'K' => 1 << 10,
        b'M' => 1 << 20,
        b'G' => 1 << 30,
        b'T' => 1 << 40,
        _ => 0,
    }
}
