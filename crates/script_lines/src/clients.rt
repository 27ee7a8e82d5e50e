//! What callers rest on: one function for each promise of this crate's calls, proved from the contract of the call
//! alone. So it is refused as soon as that contract says less.

ghost use Rattle.std.specs.Prelude.{◌≡◌, ◌∷◌, [], IfErr, IfOk, IfSome, None, Some, codes};
ghost use Rattle.base.specs.declared.error.PoolError.TheVariants.{Throttled};
ghost use Rattle.base.specs.declared.step.Reply.TheVariants.{Refused};
ghost use Rattle.base.specs.declared.step.Step.TheVariants.{CloseGroup};

use crate::answer::Answer;
use crate::command::{Command, LineError, PoolCommand, parse_command};
use crate::number::{parse_u32, parse_u64};
use base::{Bytes, Group, PoolError};
use std::alloc::Global;

// The line of a close asks for it, and is refused only for want of memory.
fn a_close_is_read_as_a_close(alloc: Global) -> Result<Command, LineError>
    ensures read { IfOk result (λ command.
        command ≡ Command.Pool (PoolCommand.Step CloseGroup)) }
    ensures refused { IfErr result (λ e. e ≡ LineError.NoMemory) }
{
    parse_command(alloc, "close")
}

// A begin that sets a name is refused only for want of memory.
fn a_begin_may_set_a_name(alloc: Global) -> Result<Command, LineError>
    ensures { IfErr result (λ e. e ≡ LineError.NoMemory) }
{
    parse_command(alloc, "begin 1 n:4")
}

// A commit of two contents is refused only for want of memory.
fn a_commit_may_have_two_contents(alloc: Global) -> Result<Command, LineError>
    ensures { IfErr result (λ e. e ≡ LineError.NoMemory) }
{
    parse_command(alloc, "commit 1 ab c")
}

// A commit has the bytes of each of its words, in order.
fn each_word_of_a_commit_has_its_bytes(alloc: Global) -> Option<Vec<Bytes>>
    ensures { IfSome result (λ contents. contents.items ≡ codes "ab" ∷ codes "c" ∷ []) }
{
    match parse_command(alloc, "commit 1 ab c") {
        Ok(Command::Pool(PoolCommand::Commit(_, contents))) => Some(contents),
        _ => None,
    }
}

// The group after the mounted one is open, and each replayed log record counts.
fn an_import_tells_its_group_and_the_next() -> Answer
    ensures { result ≡ Answer.Imported (record { 0 = 8 }) (record { 0 = 9 }) 3 }
{
    Answer::imported(Group(8), 3)
}

fn a_refusal_is_told_as_it_is() -> Answer
    ensures { result ≡ Answer.Reply (Refused Throttled) }
{
    Answer::refused(PoolError::Throttled)
}

fn a_number_may_begin_with_zeros() -> Option<u64>
    ensures { result ≡ Some 42 }
{
    parse_u64("0042")
}

fn a_sign_is_no_digit() -> Option<u64>
    ensures { result ≡ None }
{
    parse_u64("+42")
}

// The greatest number of 32 bits is 4,294,967,295.
fn the_greatest_number_of_32_bits_is_read() -> Option<u32>
    ensures { result ≡ Some 4294967295 }
{
    parse_u32("4294967295")
}

fn the_number_after_it_is_too_wide() -> Option<u32>
    ensures { result ≡ None }
{
    parse_u32("4294967296")
}
