//! The names and options of the commands: how each is written, whether it is required, and the form of its value.

ghost use Rattle.std.specs.Prelude.{◌≡◌};
ghost use Rattle.command_line.specs.Arguments.{demand_of, has_form, id_of, is_name, is_required, label_of};

use crate::values::{
    MOST_CALLS, MOST_LABELS, MOST_TOURS, MOST_WORKERS, format_from_word, number_from_word,
    scale_from_word, style_from_word,
};

/// A name or an option of a command.
#[derive(Clone, Copy, Debug, PartialEq, Eq)]
pub enum Argument {
    /// The name of the instance's file.
    Instance,
    /// The name of the certificate that is read.
    Certificate,
    /// The seed of the generator.
    Seed,
    /// The number of calls that are generated.
    Calls,
    Format,
    Scale,
    Team,
    Labels,
    Workers,
    Style,
    /// The name under which the certificate is written.
    Out,
    Nodes,
    /// The seed of the starting plans.
    SearchSeed,
}

impl Argument {
    /// The word by which `clap` knows it. An option is written behind two dashes.
    pub(crate) fn id(self) -> &'static str
        ensures { result.now ≡ id_of self }
    {
        match self {
            Argument::Instance => "INSTANCE",
            Argument::Certificate => "CERT",
            Argument::Seed => "SEED",
            Argument::Calls => "CALLS",
            Argument::Format => "format",
            Argument::Scale => "scale",
            Argument::Team => "team",
            Argument::Labels => "labels",
            Argument::Workers => "workers",
            Argument::Style => "style",
            Argument::Out => "cert",
            Argument::Nodes => "nodes",
            Argument::SearchSeed => "seed",
        }
    }

    /// As the user writes it.
    pub(crate) fn label(self) -> &'static str
        ensures { result.now ≡ label_of self }
    {
        match self {
            Argument::Instance => "INSTANCE",
            Argument::Certificate => "CERT",
            Argument::Seed => "SEED",
            Argument::Calls => "CALLS",
            Argument::Format => "--format",
            Argument::Scale => "--scale",
            Argument::Team => "--team",
            Argument::Labels => "--labels",
            Argument::Workers => "--workers",
            Argument::Style => "--style",
            Argument::Out => "--cert",
            Argument::Nodes => "--nodes",
            Argument::SearchSeed => "--seed",
        }
    }

    /// What it takes, as the end of a line.
    pub(crate) fn demand(self) -> &'static str
        ensures { result.now ≡ demand_of self }
    {
        match self {
            Argument::Instance => " takes any text\n",
            Argument::Certificate => " takes any text\n",
            Argument::Seed => " takes a number from 0 to 18446744073709551615\n",
            Argument::Calls => " takes a number from 0 to 300\n",
            Argument::Format => " takes op, top or toptw\n",
            Argument::Scale => " takes 1, 10, 100 or 1000\n",
            Argument::Team => " takes a number from 1 to 32\n",
            Argument::Labels => " takes a number from 1 to 2000000\n",
            Argument::Workers => " takes a number from 1 to 16\n",
            Argument::Style => " takes plain or table\n",
            Argument::Out => " takes any text\n",
            Argument::Nodes => " takes a number from 1 to 18446744073709551615\n",
            Argument::SearchSeed => " takes a number from 0 to 18446744073709551615\n",
        }
    }

    /// Its line of the help text.
    pub(crate) fn help(self) -> &'static str {
        match self {
            Argument::Instance => "File of the instance (required)",
            Argument::Certificate => "File of the certificate (required)",
            Argument::Seed => "Seed of the generator, 0 to 18446744073709551615 (required)",
            Argument::Calls => "Number of calls, 0 to 300 (required)",
            Argument::Format => "Layout of the instance file: op, top or toptw (required)",
            Argument::Scale =>
                "Scaled units per unit of length or time: 1, 10, 100 or 1000; by default 100 for op and \
             top, 10 for toptw",
            Argument::Team =>
                "Greatest number of tours, 1 to 32; by default the number in the file",
            Argument::Labels => "Labels that a replay may keep, 1 to 2000000; by default 1000000",
            Argument::Workers => "Parallel jobs, 1 to 16; by default 1",
            Argument::Style => "Layout of the report: plain or table; by default plain",
            Argument::Out => "Name under which the certificate is written (required)",
            Argument::Nodes =>
                "Nodes after which the search stops, 1 to 18446744073709551615; by default it runs to its \
             end",
            Argument::SearchSeed =>
                "Seed of the starting plans, 0 to 18446744073709551615; by default 0",
        }
    }

    /// It is known by its place, and not by its word.
    pub(crate) fn is_name(self) -> bool
        ensures { result ≡ is_name self }
    {
        match self {
            Argument::Instance => true,
            Argument::Certificate => true,
            Argument::Seed => true,
            Argument::Calls => true,
            _ => false,
        }
    }

    /// The command asks for nothing without it.
    pub(crate) fn is_required(self) -> bool
        ensures { result ≡ is_required self }
    {
        match self {
            Argument::Format => true,
            Argument::Out => true,
            _ => self.is_name(),
        }
    }

    /// The text has the form of its values.
    pub(crate) fn fits(self, text: &str) -> bool
        ensures { result ≡ has_form self text.now }
    {
        match self {
            Argument::Instance => true,
            Argument::Certificate => true,
            Argument::Seed => number_from_word(text, 0, u64::MAX).is_some(),
            Argument::Calls => number_from_word(text, 0, MOST_CALLS).is_some(),
            Argument::Format => format_from_word(text).is_some(),
            Argument::Scale => scale_from_word(text).is_some(),
            Argument::Team => number_from_word(text, 1, MOST_TOURS).is_some(),
            Argument::Labels => number_from_word(text, 1, MOST_LABELS).is_some(),
            Argument::Workers => number_from_word(text, 1, MOST_WORKERS).is_some(),
            Argument::Style => style_from_word(text).is_some(),
            Argument::Out => true,
            Argument::Nodes => number_from_word(text, 1, u64::MAX).is_some(),
            Argument::SearchSeed => number_from_word(text, 0, u64::MAX).is_some(),
        }
    }
}
