//! The outcomes of a run that print nothing, with their statuses.

ghost use Rattle.std.specs.Prelude.{◌≡◌};
ghost use Rattle.frontier_cli.specs.Outcome.{refusal_status, status_of};
ghost use Rattle.frontier_cli.specs.Ran.{Tells};
ghost use Rattle.frontier_cli.specs.Refusal.{refused};

use crate::lines::write_line;
use cert_text::TextCause;
use edge_core::{Sink, SinkFail};
use instance_files::FileCause;
use orienteering::CheckFail;

/// Why a run prints nothing.
#[derive(Drop)]
pub(crate) enum Refusal<'a> {
    /// The words; the three texts make the line that says why.
    Words {
        opening: &'a str,
        subject: &'a str,
        ending: &'a str,
    },
    /// The words, with the text of the option reader.
    Reader(String),
    InstanceTooLong,
    Instance {
        line: u64,
        cause: FileCause,
    },
    CertText {
        at: u64,
        cause: TextCause,
    },
    Cert(CheckFail),
    /// The file of this name can't be read.
    Read(&'a str),
    Write,
    Memory,
}

fn check_status(fail: CheckFail) -> u8
    ensures { result ≡ refusal_status fail }
{
    match fail {
        CheckFail::TooManyLabels { .. } => 8,
        _ => 1,
    }
}

fn status(refusal: &Refusal<'_>) -> u8
    ensures { result ≡ status_of (refused refusal.now) }
{
    match refusal {
        Refusal::CertText { .. } => 1,
        Refusal::Words { .. } | Refusal::Reader(_) => 2,
        Refusal::Instance { .. } => 4,
        Refusal::Read(_) => 5,
        Refusal::Write => 6,
        Refusal::Memory => 7,
        Refusal::Cert(fail) => check_status(*fail),
        Refusal::InstanceTooLong => 9,
    }
}

/// Writes the line of a refusal and answers its status, or that of want of memory where the sink finds none.
pub(crate) fn tell<E: Sink>(err: &mut E, refusal: &Refusal<'_>) -> u8
    ensures { Tells (refused refusal.now) (E.state err.old) (E.state err.new) result }
{
    match write_line(err, refusal) {
        Err(SinkFail::Memory) => 7,
        Ok(()) | Err(SinkFail::Failed) => status(refusal),
    }
}
