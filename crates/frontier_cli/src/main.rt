//! Checks certificates of Pareto frontiers for team orienteering, and prints what they prove.
//!
//! Stands on `command_line` for the words, on `instance_files` and `cert_text` for the files, on `proof_check` for the
//! verdict, on `report_text` for what is printed, and on `edge_core` for the outside. `run` is the whole program over any
//! store and sinks, and carries every promise to users; `main` lends it the real ones.
#![tactic(auto)]

ghost use Rattle.std.specs.Prelude.{◌≡◌};
ghost use Rattle.frontier_cli.specs.Unread.{status_without_words};

mod lines;
mod refusal;
#[cfg(test)]
mod resume_tests;
mod run;
#[cfg(test)]
mod solve_tests;
#[cfg(test)]
mod tests;
mod work;

use edge_core::{FileStore, OutSink};
use std::alloc::{AllocError, Global};
use std::env::{self, Args};
use std::io::ErrorKind;
use std::process::ExitCode;

/// The status with which the program ends where it has no words: want of memory, or a word that isn't text.
fn status_without_words(why: ErrorKind) -> u8
    ensures { result ≡ status_without_words why }
{
    match why {
        ErrorKind::OutOfMemory => 7,
        _ => 2,
    }
}

fn main(rt: HostRuntime) -> ExitCode {
    let args = match env::args(&rt) {
        Ok(args) => args,
        Err(error) => return ExitCode::from(status_without_words(error.kind())),
    };
    let Ok(words) = collect_words(rt.alloc(), args) else {
        return ExitCode::from(status_without_words(ErrorKind::OutOfMemory));
    };
    let mut store = FileStore::new(&rt, rt.alloc());
    let mut out = OutSink::new(rt.stdout());
    let mut err = OutSink::new(rt.stderr());
    let status = run::run(&rt, rt.alloc(), &words, &mut store, &mut out, &mut err);
    ExitCode::from(status)
}

/// The words without the program's name.
fn collect_words(alloc: Global, args: Args) -> Result<Vec<String>, AllocError> {
    args.skip(1).collect(alloc)
}
