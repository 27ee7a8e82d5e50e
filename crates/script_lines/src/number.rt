//! Decimal numbers in a script: digits alone, leading zeros allowed.

ghost use Rattle.std.specs.Prelude.{◌^◌};
ghost use Rattle.std.specs.Option.{SomeIff};
ghost use Rattle.script_lines.specs.Numbers.{IsNumberBelow, spelled_number};

/// The number that a word spells. `None` if it is not of digits alone, or 2^64 or more.
pub fn parse_u64(word: &str) -> Option<u64>
    ensures { SomeIff result (IsNumberBelow (2 ^ 64) word.now) (spelled_number word.now) }
{
    if word.starts_with('+') {
        return None;
    }
    word.parse::<u64>().ok()
}

/// The number that a word spells. `None` if it is not of digits alone, or 2^32 or more.
pub fn parse_u32(word: &str) -> Option<u32>
    ensures { SomeIff result (IsNumberBelow (2 ^ 32) word.now) (spelled_number word.now) }
{
    if word.starts_with('+') {
        return None;
    }
    word.parse::<u32>().ok()
}
