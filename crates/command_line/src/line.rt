//! The simple command line of each command, over `clap`.

ghost use Rattle.std.specs.Prelude.{◌≡◌, Some, None, IfOk, IfErr, false, map, option_map, string_bytes};
ghost use Rattle.clap.specs.Words.{app_of, first_of, found_of, rows_of, rule_of};
ghost use Rattle.command_line.specs.Lines.{IsPlainApp, accepted_rows, app_by, argument_rule, arguments_of};
ghost use Rattle.command_line.specs.Lines.{command_named, line_app, name_rule, option_rule, simple_app};
ghost use Rattle.command_line.specs.Refusals.{IfRefused, IsToldAs};
ghost use Rattle.command_line.specs.Told.{Fault};

use crate::argument::Argument;
use crate::refusal::{WordsFail, WordsRefusal};
use clap::error::ErrorKind;
use clap::{Arg, ArgAction, ArgMatches, Command};
use std::alloc::{AllocError, Global};

/// The commands.
#[derive(Clone, Copy, Debug, PartialEq, Eq)]
pub enum CommandName {
    Check,
    Solve,
    Resume,
    Generate,
    Demo,
}

impl CommandName {
    /// The command that is written so.
    pub(crate) fn from_word(text: &str) -> Option<CommandName>
        ensures { result ≡ command_named text.now }
    {
        if text == "check" {
            Some(CommandName::Check)
        } else if text == "solve" {
            Some(CommandName::Solve)
        } else if text == "resume" {
            Some(CommandName::Resume)
        } else if text == "generate" {
            Some(CommandName::Generate)
        } else if text == "demo" {
            Some(CommandName::Demo)
        } else {
            None
        }
    }
}

/// A command's arguments: its names in their order, then its options.
#[derive(Clone, Copy)]
pub(crate) struct CommandLine {
    word: &'static str,
    about: &'static str,
    pub(crate) arguments: &'static [Argument],
}

static CHECK: [Argument; 8] = [
    Argument::Instance,
    Argument::Certificate,
    Argument::Format,
    Argument::Scale,
    Argument::Team,
    Argument::Labels,
    Argument::Workers,
    Argument::Style,
];

static SOLVE: [Argument; 10] = [
    Argument::Instance,
    Argument::Format,
    Argument::Scale,
    Argument::Team,
    Argument::Labels,
    Argument::Workers,
    Argument::Style,
    Argument::Out,
    Argument::Nodes,
    Argument::SearchSeed,
];

static RESUME: [Argument; 11] = [
    Argument::Instance,
    Argument::Certificate,
    Argument::Format,
    Argument::Scale,
    Argument::Team,
    Argument::Labels,
    Argument::Workers,
    Argument::Style,
    Argument::Out,
    Argument::Nodes,
    Argument::SearchSeed,
];

static GENERATE: [Argument; 3] = [Argument::Seed, Argument::Calls, Argument::Format];

static DEMO: [Argument; 3] = [Argument::Seed, Argument::Calls, Argument::Workers];

impl CommandName {
    pub(crate) fn line(self) -> CommandLine
        ensures arguments { result.arguments.now ≡ arguments_of self }
        ensures app { line_app result ≡ app_by self }
        ensures plain { IsPlainApp (app_by self) }
    {
        match self {
            CommandName::Check => CommandLine {
                word: "check",
                about: "Checks a certificate of an instance and reports its points and boxes",
                arguments: CHECK.as_slice(),
            },
            CommandName::Solve => CommandLine {
                word: "solve",
                about: "Searches for a certificate of an instance, checks and writes it, and reports its points \
                     and boxes",
                arguments: SOLVE.as_slice(),
            },
            CommandName::Resume => CommandLine {
                word: "resume",
                about: "Continues a stopped search from its certificate, checks and writes the new one, and \
                     reports its points and boxes",
                arguments: RESUME.as_slice(),
            },
            CommandName::Generate => CommandLine {
                word: "generate",
                about: "Generates an instance and prints it",
                arguments: GENERATE.as_slice(),
            },
            CommandName::Demo => CommandLine {
                word: "demo",
                about: "Generates and solves an instance, checks the certificate and prints a summary",
                arguments: DEMO.as_slice(),
            },
        }
    }
}

/// An argument that is known by its place.
fn name_argument<'a>(alloc: Global, word: &'static str, help: &'static str) -> Arg<'a>
    ensures rule { rule_of result ≡ name_rule word.now }
    ensures local { result.global ≡ false }
{
    Arg::new(alloc, word).help(help).action(ArgAction::Set)
}

/// An argument that is known by its word.
fn option_argument<'a>(alloc: Global, word: &'static str, help: &'static str) -> Arg<'a>
    ensures rule { rule_of result ≡ option_rule word.now }
    ensures local { result.global ≡ false }
{
    Arg::new(alloc, word)
        .long(word)
        .help(help)
        .action(ArgAction::Set)
}

/// The argument as one of `clap`.
fn clap_argument<'a>(alloc: Global, argument: Argument) -> Arg<'a>
    ensures rule { rule_of result ≡ argument_rule argument }
    ensures local { result.global ≡ false }
{
    let word = argument.id();
    let help = argument.help();
    if argument.is_name() {
        name_argument(alloc, word, help)
    } else {
        option_argument(alloc, word, help)
    }
}

/// The line as a command of `clap`.
fn simple_command<'a>(alloc: Global, line: CommandLine) -> Result<Command<'a>, AllocError>
    ensures { IfOk result (λ command. app_of command ≡ line_app line) }
{
    let mut command = Command::new(alloc, line.word).about(line.about);
    for argument in line.arguments {
        command = command.arg(clap_argument(alloc, *argument))?;
    }
    Ok(command)
}

/// What `clap` finds in the words by the command's line.
#[tactic(auto, unfolding(crate::specs::Lines::accepted_rows))]
pub(crate) fn accepted_words<'a>(
    alloc: Global,
    name: CommandName,
    words: &'a [String],
) -> Result<ArgMatches<'a>, WordsFail<'a>>
    ensures accepted { IfOk result (λ matches.
        accepted_rows (app_by name) (map string_bytes words.entry.now) ≡ Some (rows_of (found_of matches))) }
    ensures refused { IfErr result (λ fail.
        IfRefused fail (accepted_rows (app_by name) (map string_bytes words.entry.now) ≡ None)) }
    ensures told { IfErr result (λ fail. IsToldAs fail Fault) }
{
    let command = simple_command(alloc, name.line())?;
    match command.try_get_matches_from(words) {
        Ok(matches) => Ok(matches),
        Err(error) if error.kind() == ErrorKind::OutOfMemory => Err(WordsFail::Memory),
        Err(error) => Err(WordsFail::Refused(WordsRefusal::Line(error))),
    }
}

/// The value of a name or an option.
pub(crate) fn given<'a>(matches: &ArgMatches<'a>, id: &str) -> Option<&'a str>
    ensures { option_map (λ s. s.now) result ≡ first_of id.now (rows_of (found_of matches.now)) }
{
    matches.get_str(id)
}
