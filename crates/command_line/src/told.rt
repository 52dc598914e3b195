//! Which cause is told of values that ask for nothing.

ghost use Rattle.std.specs.Prelude.{◌≡◌, None};
ghost use Rattle.std.specs.List.{find};
ghost use Rattle.clap.specs.Words.{found_of, rows_of};
ghost use Rattle.command_line.specs.Lines.{arguments_of};
ghost use Rattle.command_line.specs.Refusals.{cause_of};
ghost use Rattle.command_line.specs.Requests.{request_given};
ghost use Rattle.command_line.specs.Told.{is_misformed, is_missing, told_of};

use crate::argument::Argument;
use crate::line::{CommandName, given};
use crate::refusal::WordsRefusal;
use clap::ArgMatches;

/// The argument is required and has no value.
fn is_missing(argument: Argument, matches: &ArgMatches) -> bool
    ensures { result ≡ is_missing (rows_of (found_of matches.now)) argument }
{
    argument.is_required() && given(matches, argument.id()).is_none()
}

/// The argument has a value that hasn't its form.
fn is_misformed(argument: Argument, matches: &ArgMatches) -> bool
    ensures { result ≡ is_misformed (rows_of (found_of matches.now)) argument }
{
    match given(matches, argument.id()) {
        Some(text) => !argument.fits(text),
        None => false,
    }
}

fn first_missing(arguments: &[Argument], matches: &ArgMatches) -> Option<Argument>
    ensures { result ≡ find (is_missing (rows_of (found_of matches.now))) arguments.now }
{
    for argument in arguments {
        if is_missing(*argument, matches) {
            return Some(*argument);
        }
    }
    None
}

fn first_misformed(arguments: &[Argument], matches: &ArgMatches) -> Option<Argument>
    ensures { result ≡ find (is_misformed (rows_of (found_of matches.now))) arguments.now }
{
    for argument in arguments {
        if is_misformed(*argument, matches) {
            return Some(*argument);
        }
    }
    None
}

/// Why the values of a command's line ask for nothing: what is missing comes before a form that doesn't fit.
pub(crate) fn refusal_given<'a>(name: CommandName, matches: &ArgMatches) -> WordsRefusal<'a>
    requires { request_given name (rows_of (found_of matches.now)) ≡ None }
    ensures { cause_of result ≡ told_of (arguments_of name) (rows_of (found_of matches.now)) }
{
    let arguments = name.line().arguments;
    match first_missing(arguments, matches) {
        Some(argument) => WordsRefusal::Missing(argument),
        None => WordsRefusal::Misformed(first_misformed(arguments, matches).unwrap()),
    }
}
