//! What each command is asked for.

ghost use Rattle.std.specs.Prelude.{◌≡◌, IfSome, option_map};
ghost use Rattle.clap.specs.Words.{found_of, rows_of};
ghost use Rattle.command_line.specs.Requests.{check_request_in, solve_request_in, resume_request_in};
ghost use Rattle.command_line.specs.Requests.{generate_request_in, demo_request_in};
ghost use Rattle.command_line.specs.Requests.{request_given, request_of, IsWithinLimits};

use crate::given::{format_given, number_given, number_given_if, number_given_or, settings_given};
use crate::line::{CommandName, given};
use crate::settings::Settings;
use crate::values::{MOST_CALLS, MOST_WORKERS};
use clap::ArgMatches;
use instance_files::Format;

/// The certificate under one name is checked against the instance under another.
#[derive(Clone, Copy, Debug, PartialEq, Eq)]
pub struct CheckCommand<'a> {
    pub instance: &'a str,
    pub certificate: &'a str,
    pub settings: Settings,
}

/// The instance is solved, and its certificate written under a name.
#[derive(Clone, Copy, Debug, PartialEq, Eq)]
pub struct SolveCommand<'a> {
    pub instance: &'a str,
    /// The name under which the certificate is written.
    pub out: &'a str,
    pub settings: Settings,
    /// The number of nodes at which the search stops, at least 1; without it the search runs to its end.
    pub nodes: Option<u64>,
    /// The seed of the starting plans.
    pub seed: u64,
}

/// A stopped search is continued from its certificate, and the new one written under a name. The names may be the same.
#[derive(Clone, Copy, Debug, PartialEq, Eq)]
pub struct ResumeCommand<'a> {
    pub instance: &'a str,
    pub certificate: &'a str,
    /// The name under which the new certificate is written.
    pub out: &'a str,
    pub settings: Settings,
    /// The number of further nodes at which the search stops, at least 1; without it the search runs to its end.
    pub nodes: Option<u64>,
    /// The seed of the starting plans.
    pub seed: u64,
}

/// An instance is generated and printed.
#[derive(Clone, Copy, Debug, PartialEq, Eq)]
pub struct GenerateCommand {
    pub seed: u64,
    /// The number of calls, at most 300.
    pub calls: u32,
    pub format: Format,
}

/// An instance is generated and solved.
#[derive(Clone, Copy, Debug, PartialEq, Eq)]
pub struct DemoCommand {
    pub seed: u64,
    /// The number of calls, at most 300.
    pub calls: u32,
    /// The number of parallel jobs, 1 to 16.
    pub workers: u32,
}

/// What a list of words asks for.
#[derive(Clone, Copy, Debug, PartialEq, Eq)]
pub enum Command<'a> {
    Check(CheckCommand<'a>),
    Solve(SolveCommand<'a>),
    Resume(ResumeCommand<'a>),
    Generate(GenerateCommand),
    Demo(DemoCommand),
}

fn check_given<'a>(matches: &ArgMatches<'a>) -> Option<Command<'a>>
    ensures value { option_map request_of result ≡ check_request_in (rows_of (found_of matches.now)) }
    ensures within { IfSome result (λ command. IsWithinLimits (request_of command)) }
{
    let instance = given(matches, "INSTANCE")?;
    let certificate = given(matches, "CERT")?;
    let settings = settings_given(matches)?;
    Some(Command::Check(CheckCommand {
        instance,
        certificate,
        settings,
    }))
}

fn solve_given<'a>(matches: &ArgMatches<'a>) -> Option<Command<'a>>
    ensures value { option_map request_of result ≡ solve_request_in (rows_of (found_of matches.now)) }
    ensures within { IfSome result (λ command. IsWithinLimits (request_of command)) }
{
    let instance = given(matches, "INSTANCE")?;
    let out = given(matches, "cert")?;
    let settings = settings_given(matches)?;
    let nodes = number_given_if(matches, "nodes", 1, u64::MAX)?;
    let seed = number_given_or(matches, "seed", 0, u64::MAX, 0)?;
    Some(Command::Solve(SolveCommand {
        instance,
        out,
        settings,
        nodes,
        seed,
    }))
}

fn resume_given<'a>(matches: &ArgMatches<'a>) -> Option<Command<'a>>
    ensures value { option_map request_of result ≡ resume_request_in (rows_of (found_of matches.now)) }
    ensures within { IfSome result (λ command. IsWithinLimits (request_of command)) }
{
    let instance = given(matches, "INSTANCE")?;
    let certificate = given(matches, "CERT")?;
    let out = given(matches, "cert")?;
    let settings = settings_given(matches)?;
    let nodes = number_given_if(matches, "nodes", 1, u64::MAX)?;
    let seed = number_given_or(matches, "seed", 0, u64::MAX, 0)?;
    Some(Command::Resume(ResumeCommand {
        instance,
        certificate,
        out,
        settings,
        nodes,
        seed,
    }))
}

fn generate_given<'a>(matches: &ArgMatches<'a>) -> Option<Command<'a>>
    ensures value { option_map request_of result ≡ generate_request_in (rows_of (found_of matches.now)) }
    ensures within { IfSome result (λ command. IsWithinLimits (request_of command)) }
{
    let seed = number_given(matches, "SEED", 0, u64::MAX)?;
    let calls = number_given(matches, "CALLS", 0, MOST_CALLS)? as u32;
    let format = format_given(matches)?;
    Some(Command::Generate(GenerateCommand {
        seed,
        calls,
        format,
    }))
}

fn demo_given<'a>(matches: &ArgMatches<'a>) -> Option<Command<'a>>
    ensures value { option_map request_of result ≡ demo_request_in (rows_of (found_of matches.now)) }
    ensures within { IfSome result (λ command. IsWithinLimits (request_of command)) }
{
    let seed = number_given(matches, "SEED", 0, u64::MAX)?;
    let calls = number_given(matches, "CALLS", 0, MOST_CALLS)? as u32;
    let workers = number_given_or(matches, "workers", 1, MOST_WORKERS, 1)? as u32;
    Some(Command::Demo(DemoCommand {
        seed,
        calls,
        workers,
    }))
}

/// What the values of a command's line ask for.
pub(crate) fn command_given<'a>(name: CommandName, matches: &ArgMatches<'a>) -> Option<Command<'a>>
    ensures value { option_map request_of result ≡ request_given name (rows_of (found_of matches.now)) }
    ensures within { IfSome result (λ command. IsWithinLimits (request_of command)) }
{
    match name {
        CommandName::Check => check_given(matches),
        CommandName::Solve => solve_given(matches),
        CommandName::Resume => resume_given(matches),
        CommandName::Generate => generate_given(matches),
        CommandName::Demo => demo_given(matches),
    }
}
