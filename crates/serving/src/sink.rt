//! Where the answers to frames go.

ghost use Rattle.std.specs.Prelude.{ℕ, ◌≤◌, IfOk, List, Option, length};
ghost use Rattle.std.specs.Io.KnownBytes.{WriteAppends};
ghost use Rattle.serving.specs.Written.{MayBeAnswered, WritesFront};

use device_model::SectorDevice;
use pool_threads::Handle;
use std::io::{self, ErrorKind, Write};

/// Where the answers to frames go, one after another. [`serve`](crate::serve) writes by it alone.
///
/// No answer goes out too early: `put` can be called with one that says that a commit is durable only once the handle
/// has seen that no crash loses it.
pub trait AnswerSink {
    // the bytes that it holds, if these are known
    ghost contents: { Self → Option (List ℕ) };

    /// Writes the frame that answers another one, and flushes it. If that is refused, a front of the frame is written.
    fn put<'p, D: SectorDevice>(&mut self, handle: &Handle<'p, D>, answer: &[u8]) -> io::Result<()>
        requires seen { MayBeAnswered handle.now answer.now }
        ensures written { WritesFront result (contents self.old) (contents self.new) answer.now };
}

/// Answers that go to a writer.
#[derive(Drop)]
pub struct AnswerWriter<O: Drop> {
    /// The writer.
    pub output: O,
}

impl<O: Write + Drop> AnswerSink for AnswerWriter<O> {
    ghost contents = { λ writer. O.contents writer.output };

    fn put<'p, D: SectorDevice>(
        &mut self,
        _handle: &Handle<'p, D>,
        answer: &[u8],
    ) -> io::Result<()> {
        write_frame(&mut self.output, answer)
    }
}

/// Writes a frame and flushes it. If that is refused, a front of the frame is written.
pub fn write_frame<O: Write>(output: &mut O, frame: &[u8]) -> io::Result<()>
    ensures written { WritesFront result (O.contents output.old) (O.contents output.new) frame.now }
{
    match write_bytes(output, frame) {
        Ok(()) => output.flush(),
        Err(error) => Err(error),
    }
}

/// Writes all bytes, or a front of them if a write is refused.
fn write_bytes<O: Write>(output: &mut O, bytes: &[u8]) -> io::Result<()>
    ensures written { WritesFront result (O.contents output.old) (O.contents output.new) bytes.now }
{
    let mut rest = bytes;
    while !rest.is_empty() {
        match write_some(output, rest) {
            Ok(0) => return Err(io::Error::from(ErrorKind::WriteZero)),
            Ok(count) => rest = &rest[count..],
            Err(error) => return Err(error),
        }
    }
    Ok(())
}

/// One write, which is made again if a signal interrupts it.
fn write_some<O: Write>(output: &mut O, bytes: &[u8]) -> io::Result<usize>
    ensures most { IfOk result (λ count. count ≤ length bytes.now) }
    ensures written { WriteAppends (O.contents output.old) (O.contents output.new) result
        bytes.now }
{
    for _ in 0..u64::MAX {
        match output.write(bytes) {
            Ok(count) => return Ok(count),
            Err(error) => {
                if error.kind() != ErrorKind::Interrupted {
                    return Err(error);
                }
            }
        }
    }
    Err(io::Error::from(ErrorKind::Interrupted))
}
