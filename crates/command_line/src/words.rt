//! A word of a command as a constant, and what `clap` makes of it.
//!
//! A command has its words as a table, and one loop hands them to `clap`: a function that lists the words itself drops
//! them if there is no memory, and each such drop is dear to prove.

use clap::builder::ValueParser;
use clap::{Arg, ArgAction, Command};
use std::alloc::{AllocError, Global};

/// A word of a command, or an option.
#[derive(Clone, Copy)]
pub(crate) struct Word {
    /// Its name, by which it is read. That of an option is its long form.
    pub name: &'static str,
    /// How it is given.
    pub form: Form,
    /// Whether it has to be given, and beside which others.
    pub rule: Rule,
    /// What the help says of it. `{n}` ends a line, which has at most 100 columns.
    pub help: &'static str,
}

/// How a word is given.
#[derive(Clone, Copy)]
pub(crate) enum Form {
    /// In its place after the command's name, with the texts that it may have.
    Place(ValueParser<'static>),
    /// As an option with a value: the name that the help gives it, and the texts that it may have.
    Valued(&'static str, ValueParser<'static>),
    /// As an option without a value.
    Flag,
    /// As an option without a value, which also has this letter.
    Letter(char),
    /// As an option that asks for the help.
    Help,
}

/// Whether a word has to be given, and beside which others.
#[derive(Clone, Copy)]
pub(crate) enum Rule {
    /// It may be left out.
    Free,
    /// It has to be given.
    Needed,
    /// This stands for it if it is left out.
    Default(&'static str),
    /// It has to be given if this other one is not.
    Unless(&'static str),
    /// It has to be given if this other one is not, and only then.
    InPlaceOf(&'static str),
    /// It may not be given beside this other one.
    Without(&'static str),
    /// It may be given only beside this other one.
    With(&'static str),
}

/// The place of the options of each command in the help: behind those of one command.
const BEHIND: usize = 100;

/// The command with these words, too. If they are global, each subcommand has them.
pub(crate) fn with_words<'a>(
    alloc: Global,
    command: Command<'a>,
    words: &[Word],
    are_global: bool,
) -> Result<Command<'a>, AllocError> {
    let mut command = command;
    for word in words {
        command = command.arg(shared(argument(alloc, word)?, are_global))?;
    }
    Ok(command)
}

fn shared<'a>(arg: Arg<'a>, is_global: bool) -> Arg<'a> {
    if is_global {
        arg.global(true).display_order(BEHIND)
    } else {
        arg
    }
}

// The word as `clap` has it.
fn argument<'a>(alloc: Global, word: &Word) -> Result<Arg<'a>, AllocError> {
    let named = Arg::new(alloc, word.name).help(word.help);
    ruled(formed(named, word.name, word.form), word.rule)
}

fn formed<'a>(arg: Arg<'a>, name: &'static str, form: Form) -> Arg<'a> {
    match form {
        Form::Place(parser) => arg.value_parser(parser),
        Form::Valued(value_name, parser) => arg
            .long(name)
            .value_name(value_name)
            .value_parser(parser),
        Form::Flag => arg.long(name).action(ArgAction::SetTrue),
        Form::Letter(letter) => arg.long(name).short(letter).action(ArgAction::SetTrue),
        Form::Help => arg.long(name).action(ArgAction::Help),
    }
}

fn ruled<'a>(arg: Arg<'a>, rule: Rule) -> Result<Arg<'a>, AllocError> {
    match rule {
        Rule::Free => Ok(arg),
        Rule::Needed => Ok(arg.required(true)),
        Rule::Default(value) => Ok(arg.default_value(value)),
        Rule::Unless(other) => arg.required_unless_present(other),
        Rule::InPlaceOf(other) => in_place_of(arg, other),
        Rule::Without(other) => arg.conflicts_with(other),
        Rule::With(other) => arg.requires_arg(other),
    }
}

fn in_place_of<'a>(arg: Arg<'a>, other: &'static str) -> Result<Arg<'a>, AllocError> {
    arg.required_unless_present(other)?.conflicts_with(other)
}
