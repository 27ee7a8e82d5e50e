//! A writer before whose texts the line is cleared.

ghost use Rattle.std.specs.Prelude.{◌≡◌};

use crate::progress_line::ProgressLine;
use std::io::{self, Eprint, Write};

/// A writer that clears a line on standard error before each text, and hands the text on to another writer.
#[derive(Drop)]
pub struct ClearedWriter<'a, W: Write, R: Eprint> {
    writer: W,
    line: &'a ProgressLine<'a, R>,
}

impl<'a, W: Write, R: Eprint> ClearedWriter<'a, W, R> {
    ghost use Rattle.read_commands.specs.ShownDevices.{writer_in};

    /// A writer that hands its texts on to this one.
    pub fn new(writer: W, line: &'a ProgressLine<'a, R>) -> Self
        ensures { writer_in result ≡ writer }
    {
        ClearedWriter { writer, line }
    }

    /// The other writer.
    pub fn into_writer(self) -> W
        ensures { result ≡ writer_in self.entry }
    {
        let ClearedWriter { writer, line: _ } = self;
        writer
    }
}

/// Each call does to the other writer exactly that call, and none else.
impl<W: Write, R: Eprint> Write for ClearedWriter<'_, W, R> {
    ghost contents = { λ c. W.contents c.writer };

    fn write(&mut self, buf: &[u8]) -> io::Result<usize> {
        self.line.clear();
        self.writer.write(buf)
    }

    fn flush(&mut self) -> io::Result<()> {
        self.writer.flush()
    }

    fn write_all(&mut self, buf: &[u8]) -> io::Result<()> {
        self.line.clear();
        self.writer.write_all(buf)
    }
}
