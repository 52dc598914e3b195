//! Why words are refused, and the line for it.

ghost use Rattle.std.specs.Prelude.{◌≡◌, ◌++◌, IfSome};
ghost use Rattle.command_line.specs.Refusals.{cause_of};
ghost use Rattle.command_line.specs.Told.{Fault, line_of};

use crate::argument::Argument;
use std::alloc::{AllocError, Global};

const COMMANDS: &str = "; the commands are check, solve, resume, generate and demo\n";

/// Why words are refused.
#[derive(Debug, Drop)]
pub enum WordsRefusal<'a> {
    /// There is no word.
    NoCommand,
    /// The first word, which is here, is none of the commands.
    UnknownCommand(&'a str),
    /// The command's line doesn't take the words, or they call for help.
    Line(clap::Error),
    /// A required name or option has no value.
    Missing(Argument),
    /// A value hasn't the form of its name or option.
    Misformed(Argument),
}

/// Why words give no command.
#[derive(Debug, Drop)]
pub enum WordsFail<'a> {
    Refused(WordsRefusal<'a>),
    Memory,
}

impl From<AllocError> for WordsFail<'_> {
    ghost use Rattle.command_line.specs.declared.refusal.WordsFail.TheVariants.{Memory};

    ghost from_gives = { λ _ fail. fail ≡ Memory };

    fn from(_error: AllocError) -> Self {
        WordsFail::Memory
    }
}

/// A line for the user, in pieces that take no memory. It ends with a line feed.
#[derive(Clone, Copy, Debug)]
pub struct WordsLine<'a> {
    pub opening: &'a str,
    /// The word or the argument that the line is about.
    pub subject: &'a str,
    pub ending: &'a str,
}

impl<'a> WordsRefusal<'a> {
    /// The line for the user.
    pub fn line(&self) -> WordsLine<'a>
        ensures { result.opening.now ++ (result.subject.now ++ result.ending.now) ≡ line_of (cause_of self.now) }
    {
        match self {
            WordsRefusal::NoCommand => WordsLine {
                opening: "words: no command",
                subject: "",
                ending: COMMANDS,
            },
            WordsRefusal::UnknownCommand(word) => WordsLine {
                opening: "words: unknown command ",
                subject: word,
                ending: COMMANDS,
            },
            WordsRefusal::Line(_) => WordsLine {
                opening: "words\n",
                subject: "",
                ending: "",
            },
            WordsRefusal::Missing(argument) => WordsLine {
                opening: "words: ",
                subject: argument.label(),
                ending: " is missing\n",
            },
            WordsRefusal::Misformed(argument) => WordsLine {
                opening: "words: ",
                subject: argument.label(),
                ending: argument.demand(),
            },
        }
    }

    /// `clap`'s text for a fault of the command's line, which ends with a line feed. None for every other cause, and
    /// where the text finds no memory.
    pub fn text(&self, alloc: Global) -> Option<String>
        ensures { IfSome result (λ _. cause_of self.now ≡ Fault) }
    {
        match self {
            WordsRefusal::Line(error) => format!(in alloc; "{error}").ok(),
            _ => None,
        }
    }
}
