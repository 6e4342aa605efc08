//! What commands and options are built of.
use clap::builder::ValueParser;
use clap::{Arg, ArgAction, Command};
use std::alloc::{AllocError, Global};

/// The command line of a command.
pub(crate) struct CommandLine {
    pub name: &'static str,
    /// What its help says before its options.
    pub about: &'static str,
    /// What its help says after its options.
    pub after: &'static str,
    /// Its options and words, in the order of its help.
    pub arguments: &'static [Argument],
}

/// An option of a command, or a word after it.
pub(crate) struct Argument {
    pub name: &'static str,
    pub shape: Shape,
    pub help: &'static str,
    /// What its value has to be, where not every text serves.
    pub values: Option<ValueParser<'static>>,
    pub need: Need,
}

/// How it is said. A value is called in the help as it is here.
pub(crate) enum Shape {
    /// An option without a value.
    Flag,
    /// An option with a value.
    Option(&'static str),
    /// A word.
    Word(&'static str),
    /// Words, one at least.
    Words(&'static str),
}

/// Whether it has to be said.
pub(crate) enum Need {
    /// It may be said.
    Free,
    /// It is always said.
    Required,
    /// Where it is not said it has this value.
    Default(&'static str),
    /// It may be said, but not beside this one.
    Without(&'static str),
    /// It may be said, but only beside this one.
    With(&'static str),
}

/// The command of a command line.
pub(crate) fn command_of<'a>(alloc: Global, line: &CommandLine) -> Result<Command<'a>, AllocError> {
    let mut command = Command::new(alloc, line.name)
        .about(line.about)
        .after_help(line.after);
    for argument in line.arguments {
        let arg = arg_of(alloc, argument)?;
        command = command.arg(arg)?;
    }
    Ok(command)
}

/// The option or the word of a command.
fn arg_of<'a>(alloc: Global, argument: &Argument) -> Result<Arg<'a>, AllocError> {
    let arg = Arg::new(alloc, argument.name).help(argument.help);
    let arg = shaped(arg, argument.name, &argument.shape);
    needed(parsed(arg, argument.values), &argument.need)
}

/// The same, said so.
fn shaped<'a>(arg: Arg<'a>, name: &'a str, shape: &Shape) -> Arg<'a> {
    match shape {
        Shape::Flag => arg.long(name).action(ArgAction::SetTrue),
        Shape::Option(value) => arg.long(name).value_name(*value),
        Shape::Word(value) => arg.value_name(*value),
        Shape::Words(value) => arg.value_name(*value).num_args(1..),
    }
}

/// The same, whose value has to be so.
fn parsed<'a>(arg: Arg<'a>, values: Option<ValueParser<'a>>) -> Arg<'a> {
    match values {
        Some(values) => arg.value_parser(values),
        None => arg,
    }
}

/// The same, which has to be said so.
fn needed<'a>(arg: Arg<'a>, need: &Need) -> Result<Arg<'a>, AllocError> {
    match need {
        Need::Free => Ok(arg),
        Need::Required => Ok(arg.required(true)),
        Need::Default(value) => Ok(arg.default_value(*value)),
        Need::Without(other) => arg.conflicts_with(*other),
        Need::With(other) => arg.requires_arg(*other),
    }
}
