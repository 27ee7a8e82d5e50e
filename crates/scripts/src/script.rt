//! A script, line by line.

ghost use Rattle.std.specs.Prelude.{◌≡◌, ◌≢◌, ◌≤◌, ◌↔◌, IfErr, IfOk, IfSome, IsTrue, None, Ok};
ghost use Rattle.scripts.specs.Endings.{status_number};
ghost use Rattle.script_lines.specs.Letters.{is_silent};
ghost use Rattle.scripts.specs.Lines.{RunsBadLine, RunsLine};

use crate::command_runner::CommandRunner;
use crate::session::{BadCommand, OwnSession};
use base::PoolError;
use script_lines::{Answer, FAILED, LineError, REFUSED, parse_command};
use std::alloc::Global;
use std::io::{self, BufRead, BufReader, BufWriter, Read, Write};

/// What follows if the pool refuses a command of a script.
#[derive(Clone, Copy)]
pub enum AfterRefusal {
    /// The script continues.
    GoOn,
    /// The script ends after the answer.
    Stop,
}

/// How a script ended.
#[derive(Clone, Copy)]
enum Ending {
    Done,
    Refused,
    BadLine,
    Failed,
}

fn status_of(ending: Ending) -> u8
    ensures status { result ≡ status_number ending }
    ensures range { result ≤ 3 }
{
    match ending {
        Ending::Done => 0,
        Ending::Refused => REFUSED,
        Ending::BadLine => 2,
        Ending::Failed => FAILED,
    }
}

/// Runs a script on a device in memory of `size` div 512 sectors, and prints one line for each command.
///
/// A line is a command, or empty, or begins with `#`; the last two print nothing, whatever bytes follow. A refusal is
/// printed, and the script continues. A line that is no command, also one that is no UTF-8, prints `line N: bad
/// command` and ends it.
///
/// Returns the exit status: 0 if the script ran to its end, 2 after a line that is no command, and 3 if the reader or
/// the writer failed. Nothing more is printed after a failure.
pub fn run_script<R: Read + Drop, W: Write + Drop>(
    alloc: Global,
    size: u64,
    moment: u64,
    script: R,
    out: W,
) -> u8
    ensures range { result ≤ 3 }
    ensures no_refusal { result ≢ 1 }
{
    let mut session = OwnSession::new(&(), alloc, size, moment);
    run_script_on(alloc, &mut session, script, out)
}

/// Runs a script as `run_script` does, on this session, which may have run other commands before.
pub fn run_script_on<S: CommandRunner, R: Read + Drop, W: Write + Drop>(
    alloc: Global,
    session: &mut S,
    script: R,
    out: W,
) -> u8
    ensures range { result ≤ 3 }
    ensures no_refusal { result ≢ 1 }
{
    run_script_with(alloc, session, AfterRefusal::GoOn, script, out)
}

/// Runs a script as `run_script_on` does. It may stop after the first refusal, and the status is 1 then.
pub fn run_script_with<S: CommandRunner, R: Read + Drop, W: Write + Drop>(
    alloc: Global,
    session: &mut S,
    after_refusal: AfterRefusal,
    script: R,
    out: W,
) -> u8
    ensures range { result ≤ 3 }
    ensures no_refusal { after_refusal ≡ AfterRefusal.GoOn → result ≢ 1 }
{
    let Ok(mut reader) = BufReader::new(alloc, script) else {
        return status_of(Ending::Failed);
    };
    let Ok(mut writer) = BufWriter::new(alloc, out) else {
        return status_of(Ending::Failed);
    };
    let ending = match run_lines(alloc, session, after_refusal, &mut reader, &mut writer) {
        Ok(ending) => ending,
        Err(_) => Ending::Failed,
    };
    // Bytes that the writer refused are not written again.
    let _ = writer.into_parts();
    status_of(ending)
}

fn run_lines<S: CommandRunner, R: BufRead, W: Write>(
    alloc: Global,
    session: &mut S,
    after_refusal: AfterRefusal,
    script: &mut R,
    out: &mut W,
) -> io::Result<Ending>
    ensures { after_refusal ≡ AfterRefusal.GoOn → IfOk result (λ ending. ending ≢ Ending.Refused) }
{
    let mut line = Vec::new(alloc);
    for number in 1..u64::MAX {
        line.clear();
        if script.read_until(b'\n', &mut line)? == 0 {
            return Ok(Ending::Done);
        }
        match run_line(alloc, session, without_newline(line.as_slice())) {
            Ok(None) => {}
            Ok(Some(answer)) => {
                writeln!(out, "{answer}")?;
                if matches!(after_refusal, AfterRefusal::Stop) && answer.is_refusal() {
                    out.flush()?;
                    return Ok(Ending::Refused);
                }
            }
            Err(BadCommand) => {
                writeln!(out, "line {number}: bad command")?;
                out.flush()?;
                return Ok(Ending::BadLine);
            }
        }
        out.flush()?;
    }
    Ok(Ending::Failed)
}

fn without_newline(line: &[u8]) -> &[u8] {
    line.strip_suffix(b"\n").unwrap_or(line)
}

// Whether a line is empty or a comment, which may have any bytes.
fn prints_nothing(line: &[u8]) -> bool
    ensures { result ≡ is_silent line.now }
{
    match line {
        [] | [b'#', ..] => true,
        _ => false,
    }
}

// The answer to a line, if it has one.
pub(crate) fn run_line<S: CommandRunner>(
    alloc: Global,
    session: &mut S,
    line: &[u8],
) -> Result<Option<Answer>, BadCommand>
    ensures silent { result ≡ Ok None ↔ IsTrue (is_silent line.now) }
    ensures unchanged { IsTrue (is_silent line.now) → session.new ≡ session.old }
    ensures answered { IfOk result (λ told.
        IfSome told (λ answer. RunsLine S.runs line.now session.old answer session.new)) }
    ensures bad { IfErr result (λ e. RunsBadLine S.runs line.now session.old e session.new) }
{
    if prints_nothing(line) {
        return Ok(None);
    }
    let Ok(text) = str::from_utf8(line) else {
        return Err(BadCommand);
    };
    match parse_command(alloc, text) {
        Ok(command) => Ok(Some(session.run(command)?)),
        Err(LineError::NoMemory) => Ok(Some(Answer::refused(PoolError::NoMemory))),
        Err(LineError::BadCommand) => Err(BadCommand),
    }
}
