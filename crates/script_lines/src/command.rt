//! The commands of a script.
//!
//! A line is cut into words by single spaces. A word has at least one byte.

ghost use Rattle.std.specs.Prelude.{ℕ, List, ◌≡◌, ◌↔◌, ◌^◌, ◌+◌, ◌<◌, ◌≤◌, IsOk, IfOk, IfErr, map, Some, vec_len, length, replicate, slice_index, ◌≢◌, All, IsSome};
ghost use Rattle.std.specs.Result.{OkIff, result_ok};
ghost use Rattle.script_lines.specs.Numbers.{IsNumberBelow, spelled_number};
ghost use Rattle.script_lines.specs.Commands.{IsBeginOf, IsCommitOf, IsCrashOf, IsDeviceForm, IsEndingForm, IsFailOf, IsLineForm, IsLoggingForm, IsPoolForm, IsStepForm, IsTellingForm, ReadsDeviceLine, ReadsEnding, ReadsLine, ReadsLockOf, ReadsLogging, ReadsPool, ReadsReadOf, ReadsStep, ReadsTelling, ReadsWords};
ghost use Rattle.script_lines.specs.Copies.{AreContents, AreContentsOf, AreCopies, IsContent, IsContentOf, is_printable, max_copies};
ghost use Rattle.script_lines.specs.Letters.{call_name, mode_of, piece_of};
ghost use Rattle.device_model.specs.declared.fault.Fault.{Fault};
ghost use Rattle.script_lines.specs.Shapes.{AreShapesOf, IsShapeForm, IsShapeOf, IsShapesRefusal, ReadsShape, ReadsShapeWord};
ghost use Rattle.script_lines.specs.Words.{ArePartsOf};

use crate::number::{parse_u32, parse_u64};
use base::{
    Bytes, DEFAULT_CACHE_BLOCKS, Group, LockId, Mode, ObjectId, Ordinal, Owner, Piece, Plan, Range,
    Receipt, Shape, Step, TxId,
};
use device_model::Fault;
use std::alloc::{AllocError, AllocFailed, Global};

/// The most copies that a word `@COUNT:C` stands for.
const MAX_COPIES: u64 = 338_688;

/// The byte with which a crash fills the range of a torn write.
const TORN: u8 = 0xaa;

/// What a line of a script asks for.
#[derive(Drop)]
pub enum Command {
    /// Makes a pool of this name and guid on the device, or on a new one.
    Create { name: Bytes, guid: u64 },
    /// Imports the pool on the device, with these limits of the bytes that may be dirty, and of the tree blocks that
    /// may stay in memory.
    Import { dirty_max: u64, cache_blocks: u64 },
    /// Stops the pool, and leaves these pieces of the unflushed writes of its device.
    Crash(Vec<Piece>),
    /// Makes the n-th such call of the device from now fail, once; `n` is at least 1.
    Fail { fault: Fault, n: u64 },
    /// What asks the pool for something.
    Pool(PoolCommand),
}

/// What a line asks a pool for.
#[derive(Drop)]
pub enum PoolCommand {
    /// Commits a transaction, with the bytes of its writes and names in order.
    Commit(TxId, Vec<Bytes>),
    /// Starts the sync of the quiesced group.
    Start,
    /// Takes the steps of the sync until its group is synced.
    Finish,
    /// Closes the open group and syncs it.
    Sync,
    /// One step of the pool.
    Step(Step),
}

/// Why a line gives no command.
#[derive(Clone, Copy)]
pub enum LineError {
    /// It is no command.
    BadCommand,
    /// There is no memory for what it says.
    NoMemory,
}

impl From<AllocError> for LineError {
    ghost use Rattle.script_lines.specs.declared.command.LineError.TheVariants.{NoMemory};

    ghost from_gives = { λ _ e. e ≡ NoMemory };

    fn from(_error: AllocError) -> LineError {
        LineError::NoMemory
    }
}

impl<T: Drop> From<AllocFailed<T>> for LineError {
    ghost use Rattle.script_lines.specs.declared.command.LineError.TheVariants.{NoMemory};

    ghost from_gives = { λ _ e. e ≡ NoMemory };

    fn from(_failed: AllocFailed<T>) -> LineError {
        LineError::NoMemory
    }
}

/// Reads a line as a command.
///
/// # Errors
/// `BadCommand` if it has no command's form, or a number in it is too wide for its type; `NoMemory`.
pub fn parse_command(alloc: Global, line: &str) -> Result<Command, LineError>
    ensures { ReadsLine line.now result }
{
    let words = split_words(alloc, line)?;
    parse_words(alloc, words.as_slice())
}

fn split_words(alloc: Global, line: &str) -> Result<Vec<&str>, AllocError>
    ensures { IfOk result (λ words. ArePartsOf 32 line.now words.items) }
{
    line.split(' ').collect(alloc)
}

fn parse_words(alloc: Global, words: &[&str]) -> Result<Command, LineError>
    ensures command { ReadsWords words.now result }
    ensures form { IsOk result → IsLineForm words.now }
{
    match words {
        ["create", name, guid] => parse_create(alloc, name, guid),
        ["import", dirty_max] => Ok(Command::Import {
            dirty_max: wide(dirty_max)?,
            cache_blocks: DEFAULT_CACHE_BLOCKS,
        }),
        ["import", dirty_max, cache_blocks] => Ok(Command::Import {
            dirty_max: wide(dirty_max)?,
            cache_blocks: wide(cache_blocks)?,
        }),
        ["crash"] => Ok(Command::Crash(Vec::new(alloc))),
        ["crash", letters] => parse_crash(alloc, letters),
        words => parse_device_line(alloc, words),
    }
}

// A line that works on the device as it is, and on the pool there.
fn parse_device_line(alloc: Global, words: &[&str]) -> Result<Command, LineError>
    ensures command { ReadsDeviceLine words.now result }
    ensures form { IsOk result → IsDeviceForm words.now }
{
    match words {
        ["fail", call, count] => parse_fail(call, count),
        words => Ok(Command::Pool(parse_pool_command(alloc, words)?)),
    }
}

fn parse_pool_command(alloc: Global, words: &[&str]) -> Result<PoolCommand, LineError>
    ensures asked { ReadsPool (λ asked. asked) words.now result }
    ensures form { IsOk result → IsPoolForm words.now }
{
    match words {
        ["commit", tx, contents @ ..] => parse_commit(alloc, tx, contents),
        ["start"] => Ok(PoolCommand::Start),
        ["finish"] => Ok(PoolCommand::Finish),
        ["sync"] => Ok(PoolCommand::Sync),
        words => Ok(PoolCommand::Step(parse_step(alloc, words)?)),
    }
}

fn parse_step(alloc: Global, words: &[&str]) -> Result<Step, LineError>
    ensures step { ReadsStep (λ s. s) words.now result }
    ensures form { IsOk result → IsStepForm words.now }
{
    match words {
        ["lock", owner, object, mode, low, high] => parse_lock(owner, object, mode, low, high),
        ["begin", owner, shapes @ ..] => parse_begin(alloc, owner, shapes),
        ["read", owner, object, low, high] => parse_read(owner, object, low, high),
        ["close"] => Ok(Step::CloseGroup),
        ["quiesce"] => Ok(Step::MarkQuiesced),
        ["step"] => Ok(Step::SyncStep),
        words => parse_ending(words),
    }
}

fn parse_lock(
    owner: &str,
    object: &str,
    mode: &str,
    low: &str,
    high: &str,
) -> Result<Step, LineError>
    ensures { ReadsLockOf (λ s. s) owner.now object.now mode.now low.now high.now result }
{
    Ok(Step::Lock(
        parse_owner(owner)?,
        parse_object(object)?,
        parse_range(low, high)?,
        parse_mode(mode)?,
    ))
}

fn parse_read(owner: &str, object: &str, low: &str, high: &str) -> Result<Step, LineError>
    ensures { ReadsReadOf (λ s. s) owner.now object.now low.now high.now result }
{
    Ok(Step::Read(
        parse_owner(owner)?,
        parse_object(object)?,
        parse_range(low, high)?,
    ))
}

// A step that lets a lock go, gives a transaction up, or tells something.
fn parse_ending(words: &[&str]) -> Result<Step, LineError>
    ensures step { ReadsEnding (λ s. s) words.now result }
    ensures form { IsOk result → IsEndingForm words.now }
{
    match words {
        ["unlock", owner, id] => Ok(Step::Unlock(parse_owner(owner)?, LockId(wide(id)?))),
        ["abort", tx] => Ok(Step::Abort(TxId(wide(tx)?))),
        words => parse_telling(words),
    }
}

// A step that reports what the contents are, where an object ends, or what the pool's groups and sums are, or one of
// the log.
fn parse_telling(words: &[&str]) -> Result<Step, LineError>
    ensures step { ReadsTelling (λ s. s) words.now result }
    ensures form { IsOk result → IsTellingForm words.now }
{
    match words {
        ["append", owner, object] => Ok(Step::LockAppend(
            parse_owner(owner)?,
            parse_object(object)?,
        )),
        ["length", object] => Ok(Step::Length(parse_object(object)?)),
        ["digest"] => Ok(Step::Digest),
        ["name"] => Ok(Step::Name),
        ["status"] => Ok(Step::Status),
        words => parse_logging(words),
    }
}

// A step that writes or flushes the log, or reports whether a commit is durable.
fn parse_logging(words: &[&str]) -> Result<Step, LineError>
    ensures step { ReadsLogging (λ s. s) words.now result }
    ensures form { IsOk result → IsLoggingForm words.now }
{
    match words {
        ["log-write"] => Ok(Step::LogWrite),
        ["log-flush"] => Ok(Step::LogFlush),
        ["durable", ordinal, group] => Ok(Step::Durable(Receipt {
            ordinal: Ordinal(wide(ordinal)?),
            group: Group(wide(group)?),
        })),
        _ => Err(LineError::BadCommand),
    }
}

fn wide(word: &str) -> Result<u64, LineError>
    ensures number { OkIff result (IsNumberBelow (2 ^ 64) word.now) (spelled_number word.now) }
    ensures refused { IfErr result (λ e. e ≡ LineError.BadCommand) }
{
    parse_u64(word).ok_or(LineError::BadCommand)
}

fn narrow(word: &str) -> Result<u32, LineError>
    ensures number { OkIff result (IsNumberBelow (2 ^ 32) word.now) (spelled_number word.now) }
    ensures refused { IfErr result (λ e. e ≡ LineError.BadCommand) }
{
    parse_u32(word).ok_or(LineError::BadCommand)
}

fn parse_owner(word: &str) -> Result<Owner, LineError>
    ensures ok { IsOk result ↔ IsNumberBelow (2 ^ 32) word.now }
    ensures owner { IfOk result (λ owner. owner.0 ≡ spelled_number word.now) }
    ensures refused { IfErr result (λ e. e ≡ LineError.BadCommand) }
{
    Ok(Owner(narrow(word)?))
}

fn parse_object(word: &str) -> Result<ObjectId, LineError>
    ensures ok { IsOk result ↔ IsNumberBelow (2 ^ 32) word.now }
    ensures object { IfOk result (λ object. object.0 ≡ spelled_number word.now) }
    ensures refused { IfErr result (λ e. e ≡ LineError.BadCommand) }
{
    Ok(ObjectId(narrow(word)?))
}

fn parse_range(low: &str, high: &str) -> Result<Range, LineError>
    ensures ok { IsOk result ↔ (IsNumberBelow (2 ^ 64) low.now × IsNumberBelow (2 ^ 64) high.now) }
    ensures low { IfOk result (λ range. range.low ≡ spelled_number low.now) }
    ensures high { IfOk result (λ range. range.high ≡ spelled_number high.now) }
    ensures refused { IfErr result (λ e. e ≡ LineError.BadCommand) }
{
    Ok(Range {
        low: wide(low)?,
        high: wide(high)?,
    })
}

fn parse_mode(word: &str) -> Result<Mode, LineError>
    ensures mode { result_ok result ≡ mode_of word.now }
    ensures refused { IfErr result (λ e. e ≡ LineError.BadCommand) }
{
    match word {
        "r" => Ok(Mode::Reader),
        "w" => Ok(Mode::Writer),
        _ => Err(LineError::BadCommand),
    }
}

fn parse_create(alloc: Global, name: &str, guid: &str) -> Result<Command, LineError>
    ensures command { IfOk result (λ command.
        command ≡ Command.Create name.now (spelled_number guid.now)) }
    ensures ok { IsOk result → (0 < length name.now) × IsNumberBelow (2 ^ 64) guid.now }
    ensures refused { IfErr result (λ e. 0 < length name.now → IsNumberBelow (2 ^ 64) guid.now
        → e ≡ LineError.NoMemory) }
{
    if name.is_empty() {
        return Err(LineError::BadCommand);
    }
    Ok(Command::Create {
        name: Bytes::from_slice(alloc, name.as_bytes())?,
        guid: wide(guid)?,
    })
}

fn parse_begin(alloc: Global, owner: &str, words: &[&str]) -> Result<Step, LineError>
    ensures begin { IfOk result (IsBeginOf owner.now words.now) }
    ensures refused { IsNumberBelow (2 ^ 32) owner.now
        → IfErr result (IsShapesRefusal words.now) }
{
    let owner = parse_owner(owner)?;
    Ok(Step::Begin(owner, Plan::new(parse_shapes(alloc, words)?)))
}

fn parse_shapes(alloc: Global, words: &[&str]) -> Result<Vec<Shape>, LineError>
    ensures count { IfOk result (λ shapes. vec_len shapes ≡ length words.now) }
    ensures each { IfOk result (λ shapes. AreShapesOf words.now shapes.items) }
    ensures refused { IfErr result (IsShapesRefusal words.now) }
{
    let mut shapes = Vec::new(alloc);
    for word in words {
        shapes.push(parse_shape(alloc, word)?)?;
    }
    Ok(shapes)
}

fn parse_shape(alloc: Global, word: &str) -> Result<Shape, LineError>
    ensures shape { IfOk result (IsShapeOf word.now) }
    ensures read { ReadsShapeWord word.now result }
{
    let parts = split_parts(alloc, word)?;
    parse_parts(parts.as_slice())
}

fn split_parts(alloc: Global, word: &str) -> Result<Vec<&str>, AllocError>
    ensures { IfOk result (λ parts. ArePartsOf 58 word.now parts.items) }
{
    word.split(':').collect(alloc)
}

fn parse_parts(parts: &[&str]) -> Result<Shape, LineError>
    ensures shape { ReadsShape parts.now result }
    ensures form { IsOk result → IsShapeForm parts.now }
{
    match parts {
        ["c", object] => Ok(Shape::Create(parse_object(object)?)),
        ["d", object] => Ok(Shape::Remove(parse_object(object)?)),
        ["w", object, offset, length] => Ok(Shape::Write(
            parse_object(object)?,
            wide(offset)?,
            wide(length)?,
        )),
        ["l", object, length] => Ok(Shape::SetLength(parse_object(object)?, wide(length)?)),
        ["n", length] => Ok(Shape::SetName(wide(length)?)),
        _ => Err(LineError::BadCommand),
    }
}

fn parse_commit(alloc: Global, tx: &str, words: &[&str]) -> Result<PoolCommand, LineError>
    ensures commit { IfOk result (IsCommitOf tx.now words.now) }
    ensures refused { IsNumberBelow (2 ^ 64) tx.now → AreContents words.now
        → IfErr result (λ e. e ≡ LineError.NoMemory) }
{
    let tx = TxId(wide(tx)?);
    Ok(PoolCommand::Commit(tx, parse_contents(alloc, words)?))
}

fn parse_contents(alloc: Global, words: &[&str]) -> Result<Vec<Bytes>, LineError>
    ensures count { IfOk result (λ contents. vec_len contents ≡ length words.now) }
    ensures each { IfOk result (λ contents. AreContentsOf words.now contents.items) }
    ensures refused { AreContents words.now → IfErr result (λ e. e ≡ LineError.NoMemory) }
{
    let mut contents = Vec::new(alloc);
    for word in words {
        contents.push(parse_content(alloc, word)?)?;
    }
    Ok(contents)
}

// The bytes of a word: its own, or copies of one character.
fn parse_content(alloc: Global, word: &str) -> Result<Bytes, LineError>
    ensures some { IfOk result (λ bytes. 0 < length bytes) }
    ensures plain { slice_index word.now 0 ≢ 64 → IfOk result (λ bytes. bytes ≡ word.now) }
    ensures content { IfOk result (λ bytes. IsContentOf word.now bytes) }
    ensures refused { IsContent word.now → IfErr result (λ e. e ≡ LineError.NoMemory) }
{
    if !is_printable(word) {
        return Err(LineError::BadCommand);
    }
    match word.strip_prefix('@') {
        Some(copies) => parse_copies(alloc, copies),
        None => Ok(Bytes::from_slice(alloc, word.as_bytes())?),
    }
}

// Printable ASCII without space, and at least one byte.
fn is_printable(word: &str) -> bool
    ensures { result ≡ is_printable word.now }
{
    !word.is_empty() && word.bytes().all(|byte| byte.is_ascii_graphic())
}

fn parse_copies(alloc: Global, copies: &str) -> Result<Bytes, LineError>
    ensures limits { IfOk result (λ bytes. (0 < length bytes) × (length bytes ≤ max_copies)) }
    ensures copies { IfOk result (λ bytes. AreCopies copies.now bytes) }
    ensures refused { (bytes : List ℕ) → AreCopies copies.now bytes
        → IfErr result (λ e. e ≡ LineError.NoMemory) }
{
    let Some((count, character)) = copies.split_once(':') else {
        return Err(LineError::BadCommand);
    };
    let [byte] = character.as_bytes() else {
        return Err(LineError::BadCommand);
    };
    make_copies(alloc, count, *byte)
}

fn make_copies(alloc: Global, count: &str, byte: u8) -> Result<Bytes, LineError>
    ensures number { IsOk result
        → IsNumberBelow (max_copies + 1) count.now × (0 < spelled_number count.now) }
    ensures copies { IfOk result (λ bytes. bytes ≡ replicate (spelled_number count.now) byte) }
    ensures limits { IfOk result (λ bytes. (0 < length bytes) × (length bytes ≤ max_copies)) }
    ensures refused { IfErr result (λ e. IsNumberBelow (max_copies + 1) count.now
        → 0 < spelled_number count.now → e ≡ LineError.NoMemory) }
{
    let count = wide(count)?;
    if count == 0 || count > MAX_COPIES {
        return Err(LineError::BadCommand);
    }
    Ok(Bytes::new(vec![in alloc; byte; count as usize]?))
}

fn parse_fail(call: &str, count: &str) -> Result<Command, LineError>
    ensures fail { IfOk result (IsFailOf call.now count.now) }
    ensures refused { (fault : Fault) → call.now ≡ call_name fault → 0 < spelled_number count.now
        → IsNumberBelow (2 ^ 64) count.now → IsOk result }
{
    let fault = parse_fault(call)?;
    let n = wide(count)?;
    if n == 0 {
        return Err(LineError::BadCommand);
    }
    Ok(Command::Fail { fault, n })
}

fn parse_fault(word: &str) -> Result<Fault, LineError>
    ensures named { IfOk result (λ fault. word.now ≡ call_name fault) }
    ensures refused { (fault : Fault) → word.now ≡ call_name fault → IsOk result }
{
    match word {
        "read" => Ok(Fault::Read),
        "write" => Ok(Fault::Write),
        "flush" => Ok(Fault::Flush),
        _ => Err(LineError::BadCommand),
    }
}

fn parse_crash(alloc: Global, letters: &str) -> Result<Command, LineError>
    ensures crash { IfOk result (λ command. IsCrashOf letters.now command) }
    ensures refused { 0 < length letters.now → All (λ letter. IsSome (piece_of letter)) letters.now
        → IfErr result (λ e. e ≡ LineError.NoMemory) }
{
    if letters.is_empty() {
        return Err(LineError::BadCommand);
    }
    Ok(Command::Crash(parse_pieces(alloc, letters.as_bytes())?))
}

fn parse_pieces(alloc: Global, letters: &[u8]) -> Result<Vec<Piece>, LineError>
    ensures pieces { IfOk result (λ pieces. map Some pieces.items ≡ map piece_of letters.now) }
    ensures refused { All (λ letter. IsSome (piece_of letter)) letters.now
        → IfErr result (λ e. e ≡ LineError.NoMemory) }
{
    let mut pieces = Vec::new(alloc);
    for letter in letters {
        pieces.push(parse_piece(*letter)?)?;
    }
    Ok(pieces)
}

fn parse_piece(letter: u8) -> Result<Piece, LineError>
    ensures piece { result_ok result ≡ piece_of letter }
    ensures refused { IfErr result (λ e. e ≡ LineError.BadCommand) }
{
    match letter {
        b'k' => Ok(Piece::Keep),
        b'l' => Ok(Piece::Lose),
        b't' => Ok(Piece::Fill(TORN)),
        _ => Err(LineError::BadCommand),
    }
}
