//! Commands as data: what each takes, and what its help says.

use clap::builder::ValueParser;
use clap::{Arg, ArgAction, Command};
use std::alloc::{AllocError, Global};

/// A command.
#[derive(Clone, Copy)]
pub struct Outline {
    pub name: &'static str,
    /// The first line of its help.
    pub about: &'static str,
    /// The end of its help.
    pub ending: &'static str,
    /// What it takes, in the order of its help.
    pub takes: &'static [Argument],
}

/// An argument or an option of a command.
#[derive(Clone, Copy)]
pub struct Argument {
    /// The name of the argument, or of the option without its hyphens.
    pub name: &'static str,
    pub help: &'static str,
    pub form: Form,
    /// What its value has to be; any text if this is `None`.
    pub value: Option<ValueParser<'static>>,
    /// The value that it has if it is not given.
    pub default: Option<&'static str>,
    /// The options that cannot be given with it.
    pub excludes: &'static [&'static str],
}

/// Where an argument stands, and how often.
#[derive(Clone, Copy)]
pub enum Form {
    /// A word in its place, which has to be given.
    Needed,
    /// A word in its place, which may be left out.
    Optional,
    /// Words in their place: as many as the first number at least, and as the second at most.
    Words(usize, usize),
    /// An option without a value.
    Flag,
    /// An option with a value, under the name that help gives it.
    Option(&'static str),
    /// An option with a value that may be given more than once.
    Repeated(&'static str),
    /// An option that is on (`--explain`, or with `=yes`) or off (`=no`). If it is not given, the command line decides.
    Switch,
}

/// The value of a switch that is on.
pub(crate) const YES: &str = "yes";

/// The value of a switch that is off.
const NO: &str = "no";

/// The values of a switch.
static STATES: &[&str] = &[YES, NO];

impl Argument {
    /// A word that has to be given.
    pub const NEEDED: Argument = Argument {
        name: "",
        help: "",
        form: Form::Needed,
        value: None,
        default: None,
        excludes: &[],
    };

    /// An option without a value.
    pub const FLAG: Argument = Argument {
        form: Form::Flag,
        ..Argument::NEEDED
    };

    /// An option with the path of a file.
    pub const FILE: Argument = Argument {
        form: Form::Option("FILE"),
        ..Argument::NEEDED
    };

    /// An option with a number of 64 bits.
    pub const NUMBER: Argument = Argument {
        form: Form::Option("N"),
        value: Some(ValueParser::Unsigned(0, u64::MAX)),
        ..Argument::NEEDED
    };

    /// The option `--explain`.
    pub const EXPLAIN: Argument = Argument {
        name: "explain",
        help: "Adds a line to a refusal: what is wrong, and where [default: yes on a terminal]",
        form: Form::Switch,
        ..Argument::NEEDED
    };
}

/// The command line of a program that has these commands. `is_on`: whether switches that are not given are on.
pub fn line_of<'a>(
    alloc: Global,
    commands: &[&Outline],
    is_on: bool,
) -> Result<Command<'a>, AllocError> {
    let line = Command::new(alloc, "c8play").subcommand_required(true);
    with_commands(alloc, line, commands, is_on)
}

/// Adds commands to a command line. `is_on`: whether switches that are not given are on.
pub fn with_commands<'a>(
    alloc: Global,
    line: Command<'a>,
    commands: &[&Outline],
    is_on: bool,
) -> Result<Command<'a>, AllocError> {
    let mut line = line;
    for outline in commands {
        line = line.subcommand(switched(alloc, outline, is_on)?)?;
    }
    Ok(line)
}

/// A command with its arguments. Switches that are not given are off.
pub fn command_of<'a>(alloc: Global, outline: &Outline) -> Result<Command<'a>, AllocError> {
    switched(alloc, outline, false)
}

/// A command with its arguments. `is_on`: whether switches that are not given are on.
fn switched<'a>(alloc: Global, outline: &Outline, is_on: bool) -> Result<Command<'a>, AllocError> {
    let mut command = Command::new(alloc, outline.name)
        .about(outline.about)
        .after_help(outline.ending);
    for argument in outline.takes {
        command = command.arg(arg_of(alloc, argument, is_on)?)?;
    }
    Ok(command)
}

fn arg_of<'a>(alloc: Global, argument: &Argument, is_on: bool) -> Result<Arg<'a>, AllocError> {
    let arg = Arg::new(alloc, argument.name).help(argument.help);
    let arg = with_value(formed(arg, argument, is_on), argument);
    arg.conflicts_with_all(argument.excludes)
}

fn formed<'a>(arg: Arg<'a>, argument: &Argument, is_on: bool) -> Arg<'a> {
    match argument.form {
        Form::Needed => arg.required(true),
        Form::Optional => arg,
        Form::Words(least, most) => arg.required(least > 0).num_args(least..=most),
        Form::Flag => arg.long(argument.name).action(ArgAction::SetTrue),
        Form::Option(value) => arg.long(argument.name).value_name(value),
        Form::Repeated(value) => arg
            .long(argument.name)
            .value_name(value)
            .action(ArgAction::Append),
        Form::Switch => switch(arg.long(argument.name), is_on),
    }
}

/// An option that takes `yes` or `no` behind an equals sign, and is `yes` without.
fn switch<'a>(arg: Arg<'a>, is_on: bool) -> Arg<'a> {
    arg.value_name("yes|no")
        .value_parser(ValueParser::Names(STATES))
        .num_args(0usize..=1)
        .require_equals(true)
        .default_missing_value(YES)
        .default_value(if is_on { YES } else { NO })
        .hide_possible_values(true)
        .hide_default_value(true)
}

fn with_value<'a>(arg: Arg<'a>, argument: &Argument) -> Arg<'a> {
    let arg = match argument.value {
        Some(value) => arg.value_parser(value),
        None => arg,
    };
    match argument.default {
        Some(default) => arg.default_value(default),
        None => arg,
    }
}
