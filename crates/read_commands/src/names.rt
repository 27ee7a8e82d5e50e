//! How a text has names that people gave: control characters, which could change what a terminal shows, are escaped.

use std::fmt;

/// The name of a file. As text it is itself, or between quotes if it has control characters.
#[derive(Clone, Copy)]
pub struct FileName<'a>(pub &'a str);

impl fmt::Display for FileName<'_> {
    fn fmt<W: fmt::Write>(&self, f: &mut fmt::Formatter<W>) -> fmt::Result {
        if self.0.chars().any(|c| c.is_control()) {
            write_quoted(self.0, f)
        } else {
            f.write_str(self.0)
        }
    }
}

/// A name that may have any characters. As text it is between quotes.
#[derive(Clone, Copy)]
pub struct Quoted<'a>(pub &'a str);

impl fmt::Display for Quoted<'_> {
    fn fmt<W: fmt::Write>(&self, f: &mut fmt::Formatter<W>) -> fmt::Result {
        write_quoted(self.0, f)
    }
}

fn write_quoted<W: fmt::Write>(name: &str, f: &mut fmt::Formatter<W>) -> fmt::Result {
    f.write_str("\"")?;
    for c in name.chars() {
        write_escaped(c, f)?;
    }
    f.write_str("\"")
}

// A character between quotes.
fn write_escaped<W: fmt::Write>(c: char, f: &mut fmt::Formatter<W>) -> fmt::Result {
    if c == '"' || c == '\\' {
        write!(f, "\\{c}")
    } else if c.is_control() {
        write!(f, "\\x{:02x}", c as u32)
    } else {
        write!(f, "{c}")
    }
}
