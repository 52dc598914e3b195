//! What a command line asks for: the words are taken apart by the simple `clap` command of the command that the first
//! word names, and each value is read by its form.
//!
//! It stands on `clap` and on the types that values have: `Scale`, `Format` and `Style`. The definition (`request_in`)
//! says for each list of words which request it is, or that it is none: the first word names a command, that command's
//! simple line takes the words by the function that `clap` promises, required values are there, and each value has its
//! form. `read_command` answers exactly this, whether the words are taken or refused; want of memory alone is free.
//!
//! A refusal has one cause, and a second definition (`told_in`) says which. The causes in their order are: no command,
//! an unknown command, a fault of the command's line, the first required argument without a value, the first value
//! without its form. `pieces` gives the user's line for the cause without memory. For a fault of the line `text` gives
//! `clap`'s own text, of which no contract speaks. The facts on numbers that callers need come with the request.
#![tactic(auto)]

mod argument;
mod command;
mod given;
mod line;
mod refusal;
mod settings;
mod told;
mod values;

ghost use Rattle.std.specs.Prelude.{◌≡◌, Some, None, IfOk, IfErr, map, string_bytes};
ghost use Rattle.command_line.specs.Requests.{request_in, request_of, IsWithinLimits};
ghost use Rattle.command_line.specs.Refusals.{IfRefused, IsToldAs};
ghost use Rattle.command_line.specs.Told.{told_in};

use crate::command::command_given;
use crate::line::accepted_words;
use crate::told::refusal_given;
pub use argument::Argument;
pub use command::{
    CheckCommand, Command, DemoCommand, GenerateCommand, ResumeCommand, SolveCommand,
};
pub use line::CommandName;
pub use refusal::{WordsFail, WordsLine, WordsRefusal};
pub use settings::Settings;
use std::alloc::Global;

/// What the words ask for. They begin with the command's name, not with the program's.
pub fn read_command<'a>(alloc: Global, words: &'a [String]) -> Result<Command<'a>, WordsFail<'a>>
    ensures accepted { IfOk result (λ command.
        request_in (map string_bytes words.entry.now) ≡ Some (request_of command)) }
    ensures refused { IfErr result (λ fail.
        IfRefused fail (request_in (map string_bytes words.entry.now) ≡ None)) }
    ensures told { IfErr result (λ fail. IsToldAs fail (told_in (map string_bytes words.entry.now))) }
    ensures within { IfOk result (λ command. IsWithinLimits (request_of command)) }
{
    let Some(first) = words.first() else {
        return Err(WordsFail::Refused(WordsRefusal::NoCommand));
    };
    let first = first.as_str();
    let Some(name) = CommandName::from_word(first) else {
        return Err(WordsFail::Refused(WordsRefusal::UnknownCommand(first)));
    };
    let matches = match accepted_words(alloc, name, words) {
        Ok(matches) => matches,
        Err(fail) => return Err(fail),
    };
    match command_given(name, &matches) {
        Some(command) => Ok(command),
        None => Err(WordsFail::Refused(refusal_given(name, &matches))),
    }
}

#[cfg(test)]
mod tests;
