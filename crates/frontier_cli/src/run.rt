//! The top call.

ghost use Rattle.std.specs.Prelude.{◌≡◌, ◌⊎◌, None, map, string_bytes, IfSome, IsSomeAnd};
ghost use Rattle.command_line.specs.Requests.{request_in};
ghost use Rattle.frontier_cli.specs.Expected.{Accepted};
ghost use Rattle.frontier_cli.specs.Promises.{Certified, Closes, Comes, EndsSo, FilesStay, HeadlineOf, IsOfCause, IsPrinted, IsRefusedWith, MayEnd, NeedsNoFile, PrintedFront, PutFailedOrAnswered, ReadFailed, TellsFront, TellsLine, WriteFailed};
ghost use Rattle.frontier_cli.specs.Ran.{Prints, Ran};

use crate::refusal::{Refusal, tell};
use crate::work::{Report, work};
use cert_text::laws_of_texts;
use edge_core::{Sink, SinkFail, Store};
use std::alloc::Global;
use std::thread::Threads;

/// Does all that the program does, and answers its status: 0 or 3 where a text was printed, without a box or with one;
/// 1 where the certificate is refused, 2 the words, 4 the instance; 5 and 6 where a read or a write failed; 7 for want of
/// memory; 8 where a replay has too many labels; 9 where the instance file is too long.
pub fn run<R: Threads + Sync, S: Store, K: Sink, E: Sink>(
    rt: &R,
    alloc: Global,
    words: &[String],
    store: &mut S,
    out: &mut K,
    err: &mut E,
) -> u8
    // The headline: what was printed is a frontier with plans, and the boxes in which it may be incomplete.
    ensures headline { IsPrinted result → IfSome (S.state store.old).files (λ before.
        IsSomeAnd (request_in (map string_bytes words.now)) (λ asked.
        HeadlineOf asked before (K.state out.old) (K.state out.new) result)) }

    // Each step, with what it read, came to, printed and told.
    ensures ran { Ran (request_in (map string_bytes words.now)) (S.state store.old) (S.state store.new)
        (K.state out.old) (K.state out.new) (E.state err.old) (E.state err.new) result }

    // What is printed answers the request by the files.
    ensures certified { IsPrinted result → IfSome (S.state store.old).files (λ before.
        IsSomeAnd (S.state store.new).files (λ after.
        Certified (request_in (map string_bytes words.now)) before after (K.state out.old) (K.state out.new) result)) }

    // Status 2 comes exactly where the words are refused, the others by the files and by what kept the run from them.
    ensures words { result ≡ 2 → request_in (map string_bytes words.now) ≡ None }
    ensures words_refused { request_in (map string_bytes words.now) ≡ None → (result ≡ 2) ⊎ (result ≡ 7) }
    ensures only_cause { IsOfCause result → Comes (request_in (map string_bytes words.now)) (S.state store.old).files (IsRefusedWith result) }
    ensures only_printed { IsPrinted result → Comes (request_in (map string_bytes words.now)) (S.state store.old).files (λ e. e ≡ Accepted) }
    ensures always { EndsSo (request_in (map string_bytes words.now))
        (S.state store.old) (S.state store.new) (K.state out.old) (K.state out.new) result }

    // A fault is answered only where it came.
    ensures read_fault { result ≡ 5 → ReadFailed (request_in (map string_bytes words.now)) (S.state store.old) (S.state store.new) }
    ensures write_fault { result ≡ 6 → WriteFailed (request_in (map string_bytes words.now))
        (S.state store.old) (S.state store.new) (K.state out.old) (K.state out.new) }
    ensures answered { result ≡ 6 → PutFailedOrAnswered (request_in (map string_bytes words.now)) (S.state store.old) (S.state store.new) }

    // What reads no file can't be refused by one, and a search whose budget suffices leaves no box.
    ensures no_file { NeedsNoFile (request_in (map string_bytes words.now))
        (S.state store.old) (S.state store.new) (K.state out.old) (K.state out.new) result }
    ensures closes { Closes (request_in (map string_bytes words.now))
        (S.state store.old) (S.state store.new) (K.state out.old) (K.state out.new) result }

    // What the streams get where no report is printed in full, and which files stay.
    ensures not_printed { (IsPrinted result → ⊥) → PrintedFront (request_in (map string_bytes words.now))
        (S.state store.old) (S.state store.new) (K.state out.old) (K.state out.new) }
    ensures silent { IsPrinted result → E.state err.new ≡ E.state err.old }
    ensures told { (IsPrinted result → ⊥) → (result ≡ 7 → ⊥) → TellsLine
        (MayEnd (request_in (map string_bytes words.now)) (S.state store.old) (S.state store.new) (K.state out.old) (K.state out.new))
        (E.state err.old) (E.state err.new) result }
    ensures told_front { result ≡ 7 → TellsFront
        (MayEnd (request_in (map string_bytes words.now)) (S.state store.old) (S.state store.new) (K.state out.old) (K.state out.new))
        (E.state err.old) (E.state err.new) }
    ensures files { FilesStay (request_in (map string_bytes words.now)) result (S.state store.old).files (S.state store.new).files }
{
    laws_of_texts();
    match work(rt, alloc, words, store) {
        Ok(report) => finish(out, err, &report),
        Err(refusal) => tell(err, &refusal),
    }
}

/// Prints a report, and answers the status.
fn finish<K: Sink, E: Sink>(out: &mut K, err: &mut E, report: &Report) -> u8
    ensures { Prints report.now.text.items report.now.has_box
        (K.state out.old) (K.state out.new) (E.state err.old) (E.state err.new) result }
{
    match out.write_all(report.text.as_slice()) {
        Ok(()) => { if report.has_box { 3 } else { 0 } }
        Err(SinkFail::Failed) => tell(err, &Refusal::Write),
        Err(SinkFail::Memory) => tell(err, &Refusal::Memory),
    }
}
