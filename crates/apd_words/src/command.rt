//! The commands of `apd`, with their arguments and help.

ghost use Rattle.std.specs.Prelude.{◌≡◌, false, IfOk, Some, map};
ghost use Rattle.clap.specs.Words.{App, Rule, Shape, app_of, rule_of, with_subcommand};
ghost use Rattle.clap.specs.declared.builder.value_parser.ValueParser.TheVariants.{Names};
ghost use Rattle.apd_words.specs.Built.{IsProgram, IsCommand};
ghost use Rattle.apd_words.specs.Table.{rule_of_argument, shape_of_described, with_commands};
ghost use Rattle.apd_words.specs.CommandLine.{command_line, program, required, flag, option};

use crate::table::{Argument, COMMANDS, Described};
use clap::builder::ValueParser;
use clap::{Arg, ArgAction, Command};
use std::alloc::{AllocError, Global};

pub(crate) static HOOKS: [&str; 3] = ["assoc", "addba", "data"];

pub(crate) static WORKERS: [&str; 8] = ["1", "2", "3", "4", "5", "6", "7", "8"];

/// The most units of work that a limit may name.
pub(crate) const MOST_WORK: u64 = 1099511627776;

/// The most times that a judgement may be repeated.
pub(crate) const MOST_REPEATS: u32 = 1000000;

/// The most states that a limit may name.
pub(crate) const MOST_STATES: u32 = 4194304;

const VERSION: &str = "0.1.0";

const STATUSES: &str = "Exit status:
  0  success
  1  the program, text or certificate was refused, a case failed, or the capture is cut
  2  the command line, a configuration, a script or a file is at fault
  3  out of memory

`apd <COMMAND> --help` tells more of each command.";

/// A command, or lack of memory.
type Made<'a> = Result<Command<'a>, AllocError>;

/// The whole command line, with the names of the hooks and of the numbers of workers.
pub(crate) fn command_line<'a>(
    alloc: Global,
    hooks: &'a [&'a str],
    numbers: &'a [&'a str],
) -> Made<'a>
    ensures is { IfOk result
        (λ c. app_of c ≡ command_line (Names hooks.entry) (Names numbers.entry)) }
{
    let hooks = ValueParser::Names(hooks);
    with_commands(alloc, &COMMANDS, hooks, ValueParser::Names(numbers))
}

/// The program with these commands.
fn with_commands<'a>(
    alloc: Global,
    commands: &[Described],
    hooks: ValueParser<'a>,
    numbers: ValueParser<'a>,
) -> Made<'a>
    ensures is { IfOk result (IsProgram
        (with_commands program (map (shape_of_described hooks.entry numbers.entry) commands.now))) }
{
    let mut line = program(alloc);
    for described in commands {
        line = with_command(line, command_of(alloc, described, hooks, numbers));
    }
    line
}

/// The program without its commands.
fn program<'a>(alloc: Global) -> Made<'a>
    ensures is { IfOk result (IsProgram program) }
{
    Ok(
        Command::new(alloc, "apd")
            .version(VERSION)
            .about("A programmable 802.11 access point with verified eBPF hooks")
            .after_help(STATUSES)
            .subcommand_required(true)
            .arg_required_else_help(true)
            .disable_help_subcommand(true),
    )
}

fn with_command<'a>(line: Made<'a>, command: Made<'a>) -> Made<'a>
    ensures is { (a : App) (s : Shape) → IfOk line.entry (IsProgram a)
        → IfOk command.entry (IsCommand s) → IfOk result (IsProgram (with_subcommand a s)) }
{
    let Ok(line) = line else {
        // Dropped by one call, since a command has many parts.
        drop(command);
        return Err(AllocError);
    };
    let Ok(command) = command else {
        drop(line);
        return Err(AllocError);
    };
    line.subcommand(command)
}

/// The command, with its arguments in order.
fn command_of<'a>(
    alloc: Global,
    described: &Described,
    hooks: ValueParser<'a>,
    numbers: ValueParser<'a>,
) -> Made<'a>
    ensures is { IfOk result
        (IsCommand (shape_of_described hooks.entry numbers.entry described.now)) }
{
    let mut command = Command::new(alloc, described.name).about(described.about);
    for argument in described.arguments {
        command = command.arg(arg_of(alloc, argument, hooks, numbers))?;
    }
    Ok(command)
}

fn arg_of<'a>(
    alloc: Global,
    argument: &Argument,
    hooks: ValueParser<'a>,
    numbers: ValueParser<'a>,
) -> Arg<'a>
    ensures is { rule_of result ≡ rule_of_argument hooks.entry numbers.entry argument.now }
    ensures local { result.global ≡ false }
{
    match *argument {
        Argument::Required(name, help) => required(alloc, name, help),
        Argument::Optional(name, help) => Arg::new(alloc, name).help(help),
        Argument::Files(help) => required(alloc, "FILE", help).action(ArgAction::Append),
        Argument::Hook(help) => with_values(required(alloc, "HOOK", help), hooks),
        Argument::Flag(name, help) => flag(alloc, name, help),
        Argument::Json(help) => flag(alloc, "json", help).short('j'),
        Argument::Option(name, value, help) => option(alloc, name, value, help),
        Argument::Output(help) => option(alloc, "output", "FILE", help).short('o'),
        Argument::Workers(help) => {
            let workers = option(alloc, "workers", "N", help).default_value("2");
            with_values(workers.hide_possible_values(true), numbers)
        }
        Argument::States(help) => {
            let states = option(alloc, "states", "N", help).default_value("4194304");
            with_values(states, ValueParser::Unsigned(1, u64::from(MOST_STATES)))
        }
        Argument::Limit(name, most, help) => {
            let limit = option(alloc, name, "N", help);
            with_values(limit, ValueParser::Unsigned(1, most))
        }
    }
}

fn required<'a>(alloc: Global, name: &'a str, help: &'a str) -> Arg<'a>
    ensures is { rule_of result ≡ required name.entry.now }
    ensures local { result.global ≡ false }
{
    Arg::new(alloc, name).required(true).help(help)
}

/// `--NAME`
fn flag<'a>(alloc: Global, name: &'a str, help: &'a str) -> Arg<'a>
    ensures is { rule_of result ≡ flag name.entry.now }
    ensures local { result.global ≡ false }
{
    Arg::new(alloc, name)
        .long(name)
        .action(ArgAction::SetTrue)
        .help(help)
}

/// `--NAME VALUE`
fn option<'a>(alloc: Global, name: &'a str, value: &'a str, help: &'a str) -> Arg<'a>
    ensures is { rule_of result ≡ option name.entry.now }
    ensures local { result.global ≡ false }
{
    Arg::new(alloc, name)
        .long(name)
        .value_name(value)
        .action(ArgAction::Set)
        .help(help)
}

fn with_values<'a>(arg: Arg<'a>, values: ValueParser<'a>) -> Arg<'a>
    ensures is { result ≡ record arg.entry { value_parser = Some values.entry } }
{
    arg.value_parser(values)
}
