//! What of the old pool is not in the copy, and the line that says so.

ghost use Rattle.std.specs.Io.KnownBytes.{Appends};
ghost use Rattle.std.specs.Prelude.{◌≡◌, IfErr, OnOk};
ghost use Rattle.copies.specs.Lines.{missing_line};

use crate::stop::Stop;
use base::{ObjectId, Range};
use std::fmt;
use std::io::Write;
use trees::BlockDamage;

/// What is not in a copy, since this block of the old pool is damaged. As text it is a line without its end.
#[derive(Clone, Copy)]
pub(crate) enum Missing {
    /// These bytes of an object, which are a hole of the copy's.
    Bytes(ObjectId, Range, BlockDamage),
    /// The objects from the first up to the last of these numbers, if they were there.
    Objects(ObjectId, ObjectId, BlockDamage),
}

impl fmt::Display for Missing {
    ghost use Rattle.std.specs.Prelude.{Some};
    ghost use Rattle.copies.specs.Lines.{missing_text};

    ghost output = { λ m. Some (missing_text m) };

    fn fmt<W: fmt::Write>(&self, f: &mut fmt::Formatter<W>) -> fmt::Result {
        match self {
            Missing::Bytes(object, range, damage) => write!(
                f,
                "damaged {} {} {} {} {}",
                object.0, range.low, range.high, damage.kind, damage.address
            ),
            Missing::Objects(first, last, damage) => write!(
                f,
                "damaged objects {} {} {} {}",
                first.0, last.0, damage.kind, damage.address
            ),
        }
    }
}

/// Writes the line of what is missing.
pub(crate) fn write_missing<W: Write>(missing: Missing, out: &mut W) -> Result<(), Stop>
    ensures written { OnOk result
        (Appends (W.contents out.old) (W.contents out.new) (missing_line missing)) }
    ensures unwritten { IfErr result (λ stop. stop ≡ Stop.Unwritten) }
{
    match writeln!(out, "{missing}") {
        Ok(()) => Ok(()),
        Err(_) => Err(Stop::Unwritten),
    }
}
