//! The work of the words, up to what is to be printed.

ghost use Rattle.std.specs.Prelude.{◌≡◌, ◌≤◌, ◌++◌, Some, Ok, take, map, string_bytes, IfOk, IfErr, OnOk};
ghost use Rattle.command_line.specs.Refusals.{cause_of};
ghost use Rattle.command_line.specs.Limits.{AreSettingsWithin, IsBetween};
ghost use Rattle.command_line.specs.Requests.{check_request, solve_request, resume_request, request_in, request_of, Check, Solve, Resume, IsDemoWithin, IsResumeWithin, IsSolveWithin, IsWithinLimits};
ghost use Rattle.sweep_solver.specs.Solved.{IsAccepted};
ghost use Rattle.cert_text.specs.Text.{cert_text, IsCert};
ghost use Rattle.frontier_cli.specs.Files.{demo_instance, demo_settings, instance_in, IsReadAs};
ghost use Rattle.frontier_cli.specs.Ran.{DeclinesWords, Declines, Demos, TellsCause, Does, Generates, IsContinuation, IsContinued, IsFound, IsSummary, IsTold, Judges, LooksAt, Puts, Reads, ReportsAll, Works, refused_by};
ghost use Rattle.frontier_cli.specs.Outcome.{OutOfMemory};
ghost use Rattle.frontier_cli.specs.Refusal.{bytes_of, outcome_of, refused, step_of};

use crate::refusal::Refusal;
use cert_text::{Cert, TextFail, read_cert, write_cert};
use command_line::{
    CheckCommand, Command, DemoCommand, GenerateCommand, ResumeCommand, Settings, SolveCommand,
    WordsFail, WordsRefusal, read_command,
};
use edge_core::{GetFail, PutFail, Store};
use fixed_num::Scale;
use instance_files::{FileFail, Format, read_instance};
use instance_gen::{generate, laws_of_generated_files};
use orienteering::CheckFail;
use proof_check::{Accepted, check};
use report_text::{Style, report, summary};
use site_model::Instance;
use std::alloc::Global;
use std::thread::Threads;
use sweep_solver::{Options, resume, solve};

/// The most bytes of an instance file.
const INSTANCE_LIMIT: u64 = 16_777_216;

/// A text to print.
#[derive(Drop)]
pub(crate) struct Report {
    pub text: Vec<u8>,
    pub has_box: bool,
}

/// Does what the words ask for.
pub(crate) fn work<'a, R: Threads + Sync, S: Store>(
    rt: &R,
    alloc: Global,
    words: &'a [String],
    store: &mut S,
) -> Result<Report, Refusal<'a>>
    ensures { Works (request_in (map string_bytes words.entry.now)) (S.state store.old) (S.state store.new) (outcome_of result) }
{
    let command = read_words(alloc, words)?;
    serve(rt, alloc, store, command)
}

/// Serves a command.
fn serve<'a, R: Threads + Sync, S: Store>(
    rt: &R,
    alloc: Global,
    store: &mut S,
    command: Command<'a>,
) -> Result<Report, Refusal<'a>>
    requires { IsWithinLimits (request_of command) }
    ensures { Does (request_of command.entry) (S.state store.old) (S.state store.new) (outcome_of result) }
{
    match command {
        Command::Check(command) => check_files(rt, alloc, store, command),
        Command::Generate(command) => generated(alloc, command),
        Command::Solve(command) => solve_file(rt, alloc, store, command),
        Command::Resume(command) => resume_file(rt, alloc, store, command),
        Command::Demo(command) => demonstrated(rt, alloc, command),
    }
}

/// The refusal of words: the option reader's own text where there is one, and else the line of their cause.
fn declined<'a>(alloc: Global, refusal: WordsRefusal<'a>) -> Refusal<'a>
    ensures declines { Declines (refused result) }
    ensures told { TellsCause (cause_of refusal.entry) (refused result) }
{
    match refusal.text(alloc) {
        Some(text) => Refusal::Reader(text),
        None => {
            let line = refusal.line();
            Refusal::Words {
                opening: line.opening,
                subject: line.subject,
                ending: line.ending,
            }
        }
    }
}

/// What the words ask for.
fn read_words<'a>(alloc: Global, words: &'a [String]) -> Result<Command<'a>, Refusal<'a>>
    ensures asked { IfOk result (λ command. request_in (map string_bytes words.entry.now) ≡ Some (request_of command)) }
    ensures within { IfOk result (λ command. IsWithinLimits (request_of command)) }
    ensures refused { IfErr result (λ refusal. DeclinesWords (request_in (map string_bytes words.entry.now)) (refused refusal)) }
{
    match read_command(alloc, words) {
        Ok(command) => Ok(command),
        Err(WordsFail::Refused(refusal)) => Err(declined(alloc, refusal)),
        Err(WordsFail::Memory) => Err(Refusal::Memory),
    }
}

/// A certificate with what it accepts.
#[derive(Drop)]
struct Found {
    cert: Cert,
    accepted: Accepted,
}

/// Solves an instance, and checks the certificate. What is solved is accepted, so only memory can be wanting.
fn find_certificate<R: Threads + Sync>(
    rt: &R,
    alloc: Global,
    inst: &Instance,
    options: Options,
) -> Result<Found, Refusal<'static>>
    requires { IsBetween 1 16 options.workers }
    ensures found { IfOk result (λ f. IsFound inst.now options.labels options.nodes options.seed f.cert f.accepted) }
    ensures memory { IfErr result (λ refusal. refused refusal ≡ OutOfMemory) }
{
    let Ok(cert) = solve(rt, alloc, inst, &options) else {
        return Err(Refusal::Memory);
    };
    match check(rt, alloc, inst, &cert, options.labels, options.workers) {
        Ok(accepted) => Ok(Found { cert, accepted }),
        Err(_) => Err(Refusal::Memory),
    }
}

/// The text of a certificate, and the report of what it proves.
#[derive(Drop)]
struct Solution {
    certificate: Vec<u8>,
    report: Report,
}

/// The text of a certificate and its report.
fn texts_of(alloc: Global, found: &Found, settings: Settings) -> Result<Solution, Refusal<'static>>
    ensures told { IfOk result (λ s. IsTold settings found.now.cert found.now.accepted s.certificate.items s.report.text.items s.report.has_box) }
    ensures memory { IfErr result (λ refusal. refused refusal ≡ OutOfMemory) }
{
    let Ok(certificate) = write_cert(alloc, &found.cert) else {
        return Err(Refusal::Memory);
    };
    let report = reported(alloc, &found.accepted, settings)?;
    Ok(Solution {
        certificate,
        report,
    })
}

/// Reads an instance, solves it, puts the certificate once it is checked, and makes its report.
fn solve_file<'a, R: Threads + Sync, S: Store>(
    rt: &R,
    alloc: Global,
    store: &mut S,
    command: SolveCommand<'a>,
) -> Result<Report, Refusal<'a>>
    requires { IsSolveWithin (solve_request command) }
    ensures { Does (Solve (solve_request command.entry)) (S.state store.old) (S.state store.new) (outcome_of result) }
{
    let settings = command.settings;
    let inst = get_instance(alloc, store, command.instance, settings)?;
    let options = Options {
        nodes: command.nodes,
        labels: settings.labels,
        workers: settings.workers,
        seed: command.seed,
    };
    let found = find_certificate(rt, alloc, &inst, options)?;
    let solution = texts_of(alloc, &found, settings)?;
    put(store, command.out, solution.certificate.as_slice())?;
    Ok(solution.report)
}

/// Whether a certificate is accepted, and else its refusal.
fn accept<R: Threads + Sync>(
    rt: &R,
    alloc: Global,
    inst: &Instance,
    cert: &Cert,
    settings: Settings,
) -> Result<(), Refusal<'static>>
    requires { AreSettingsWithin settings }
    ensures accepted { OnOk result (IsAccepted inst.now settings.labels cert.now) }
    ensures refused { IfErr result (λ refusal. Judges settings inst.now cert.now (refused refusal)) }
{
    match check(rt, alloc, inst, cert, settings.labels, settings.workers) {
        Ok(_) => Ok(()),
        Err(fail) => Err(cert_refusal(fail)),
    }
}

/// Goes on from an accepted certificate, and checks the new one. That is accepted, so only memory can be wanting.
fn continue_certificate<R: Threads + Sync>(
    rt: &R,
    alloc: Global,
    inst: &Instance,
    old: &Cert,
    options: Options,
) -> Result<Found, Refusal<'static>>
    requires workers { IsBetween 1 16 options.workers }
    requires accepted { IsAccepted inst.now options.labels old.now }
    ensures continued { IfOk result (λ f. IsContinued inst.now options.labels options.nodes options.seed old.now f.cert f.accepted) }
    ensures memory { IfErr result (λ refusal. refused refusal ≡ OutOfMemory) }
{
    let Ok(cert) = resume(rt, alloc, inst, old, &options) else {
        return Err(Refusal::Memory);
    };
    match check(rt, alloc, inst, &cert, options.labels, options.workers) {
        Ok(accepted) => Ok(Found { cert, accepted }),
        Err(_) => Err(Refusal::Memory),
    }
}

/// Checks a certificate and goes on from it.
fn resumed<'a, R: Threads + Sync>(
    rt: &R,
    alloc: Global,
    inst: &Instance,
    old: &Cert,
    command: ResumeCommand<'a>,
) -> Result<Solution, Refusal<'static>>
    requires { IsResumeWithin (resume_request command) }
    ensures continued { IfOk result (λ s. IsContinuation (resume_request command.entry) inst.now old.now s.certificate.items s.report.text.items s.report.has_box) }
    ensures refused { IfErr result (λ refusal. Judges command.entry.settings inst.now old.now (refused refusal)) }
{
    let ResumeCommand {
        settings,
        nodes,
        seed,
        ..
    } = command;
    accept(rt, alloc, inst, old, settings)?;
    let options = Options {
        nodes,
        labels: settings.labels,
        workers: settings.workers,
        seed,
    };
    let found = continue_certificate(rt, alloc, inst, old, options)?;
    texts_of(alloc, &found, settings)
}

/// Reads an instance and a certificate, goes on from the certificate where it is accepted, puts the new one once it is checked,
/// and makes its report.
fn resume_file<'a, R: Threads + Sync, S: Store>(
    rt: &R,
    alloc: Global,
    store: &mut S,
    command: ResumeCommand<'a>,
) -> Result<Report, Refusal<'a>>
    requires { IsResumeWithin (resume_request command) }
    ensures { Does (Resume (resume_request command.entry)) (S.state store.old) (S.state store.new) (outcome_of result) }
{
    let inst = get_instance(alloc, store, command.instance, command.settings)?;
    let old = get_cert(alloc, store, command.certificate)?;
    let continued = resumed(rt, alloc, &inst, &old, command)?;
    put(store, command.out, continued.certificate.as_slice())?;
    Ok(continued.report)
}

/// Puts bytes under a name.
fn put<'a, S: Store>(store: &mut S, name: &str, bytes: &[u8]) -> Result<(), Refusal<'a>>
    ensures { Puts name.now bytes.now (S.state store.old) (S.state store.new) (step_of result) }
{
    match store.put(name, bytes) {
        Ok(()) => Ok(()),
        Err(PutFail::Failed) => Err(Refusal::Write),
        Err(PutFail::Memory) => Err(Refusal::Memory),
    }
}

/// The text of a generated instance.
fn generated(alloc: Global, command: GenerateCommand) -> Result<Report, Refusal<'static>>
    requires { command.calls ≤ 300 }
    ensures { Generates command (outcome_of result) }
{
    match generate(alloc, command.seed, command.calls, command.format) {
        Ok(text) => Ok(Report {
            text,
            has_box: false,
        }),
        Err(_) => Err(Refusal::Memory),
    }
}

/// How many nodes the search of a demonstration has.
const DEMO_NODES: u64 = 2_000;

/// How the instance of a demonstration is read and checked.
fn demo_settings(command: DemoCommand) -> Settings
    ensures { result ≡ demo_settings command }
{
    Settings {
        format: Format::Op,
        scale: Scale::Hundred,
        team: None,
        labels: 1_000_000,
        workers: command.workers,
        style: Style::Plain,
    }
}

/// The instance that is generated for a demonstration. Its file is read without refusal, so only memory can be wanting.
fn generated_instance(
    alloc: Global,
    command: DemoCommand,
    settings: Settings,
) -> Result<Instance, Refusal<'static>>
    requires within { IsDemoWithin command }
    requires settings { settings ≡ demo_settings command }
    ensures found { IfOk result (λ inst. demo_instance command ≡ Ok inst) }
    ensures memory { IfErr result (λ refusal. refused refusal ≡ OutOfMemory) }
{
    laws_of_generated_files();
    let Ok(file) = generate(alloc, command.seed, command.calls, Format::Op) else {
        return Err(Refusal::Memory);
    };
    instance_of(alloc, file.as_slice(), settings)
}

/// Generates an instance and solves it, and makes the summary.
fn demonstrated<R: Threads + Sync>(
    rt: &R,
    alloc: Global,
    command: DemoCommand,
) -> Result<Report, Refusal<'static>>
    requires { IsDemoWithin command }
    ensures { Demos command (outcome_of result) }
{
    let settings = demo_settings(command);
    let inst = generated_instance(alloc, command, settings)?;
    let options = Options {
        nodes: Some(DEMO_NODES),
        labels: settings.labels,
        workers: settings.workers,
        seed: 0,
    };
    let found = find_certificate(rt, alloc, &inst, options)?;
    summarised(alloc, &found, command.calls)
}

/// The summary of what a certificate proves, and the certificate behind it where a box is left.
fn summarised(alloc: Global, found: &Found, calls: u32) -> Result<Report, Refusal<'static>>
    ensures summary { IfOk result (λ r. IsSummary calls found.now.cert found.now.accepted r.text.items r.has_box) }
    ensures memory { IfErr result (λ refusal. refused refusal ≡ OutOfMemory) }
{
    let accepted = &found.accepted;
    let Ok(text) = summary(alloc, calls, accepted.points(), accepted.boxes()) else {
        return Err(Refusal::Memory);
    };
    if accepted.boxes().is_empty() {
        return Ok(Report {
            text,
            has_box: false,
        });
    }
    let text = with_certificate(alloc, text, &found.cert)?;
    Ok(Report {
        text,
        has_box: true,
    })
}

/// The text with a certificate behind it.
fn with_certificate(alloc: Global, text: Vec<u8>, cert: &Cert) -> Result<Vec<u8>, Refusal<'static>>
    ensures text { IfOk result (λ both. both.items ≡ text.items ++ cert_text cert.now) }
    ensures valid { OnOk result (IsCert cert.now) }
    ensures memory { IfErr result (λ refusal. refused refusal ≡ OutOfMemory) }
{
    let Ok(certificate) = write_cert(alloc, cert) else {
        return Err(Refusal::Memory);
    };
    let mut both = text;
    if both.extend_from_slice(certificate.as_slice()).is_err() {
        return Err(Refusal::Memory);
    }
    Ok(both)
}

/// Reads an instance and a certificate, and checks one against the other.
fn check_files<'a, R: Threads + Sync, S: Store>(
    rt: &R,
    alloc: Global,
    store: &mut S,
    command: CheckCommand<'a>,
) -> Result<Report, Refusal<'a>>
    requires { AreSettingsWithin command.settings }
    ensures { Does (Check (check_request command.entry)) (S.state store.old) (S.state store.new) (outcome_of result) }
{
    let instance = get_instance(alloc, store, command.instance, command.settings)?;
    let cert = get_cert(alloc, store, command.certificate)?;
    checked(rt, alloc, &instance, &cert, command.settings)
}

/// Checks a certificate, and makes its report.
fn checked<R: Threads + Sync>(
    rt: &R,
    alloc: Global,
    inst: &Instance,
    cert: &Cert,
    settings: Settings,
) -> Result<Report, Refusal<'static>>
    requires { AreSettingsWithin settings }
    ensures { Judges settings inst.now cert.now (outcome_of result) }
{
    match check(rt, alloc, inst, cert, settings.labels, settings.workers) {
        Ok(accepted) => reported(alloc, &accepted, settings),
        Err(refusal) => Err(cert_refusal(refusal)),
    }
}

/// The refusal of a certificate, or want of memory.
fn cert_refusal(fail: CheckFail) -> Refusal<'static>
    ensures { refused result ≡ refused_by fail }
{
    match fail {
        CheckFail::Memory => Refusal::Memory,
        CheckFail::OtherInstance
        | CheckFail::PointRefused { .. }
        | CheckFail::NotRising { .. }
        | CheckFail::NodeRefused { .. }
        | CheckFail::Shape { .. }
        | CheckFail::TooManyLabels { .. } => Refusal::Cert(fail),
    }
}

/// The report of what is accepted.
fn reported(
    alloc: Global,
    accepted: &Accepted,
    settings: Settings,
) -> Result<Report, Refusal<'static>>
    ensures { ReportsAll settings accepted.now (outcome_of result) }
{
    let Ok(text) = report(alloc, accepted.points(), accepted.boxes(), settings.style) else {
        return Err(Refusal::Memory);
    };
    let has_box = !accepted.boxes().is_empty();
    Ok(Report { text, has_box })
}

/// Gets an instance, measures it and reads it.
fn get_instance<'a, S: Store>(
    alloc: Global,
    store: &mut S,
    name: &'a str,
    settings: Settings,
) -> Result<Instance, Refusal<'a>>
    requires { AreSettingsWithin settings }
    ensures { Reads (λ bytes read. read ≡ instance_in settings bytes) name.entry.now (S.state store.old) (S.state store.new) (step_of result) }
{
    let bytes = get(store, name, INSTANCE_LIMIT + 1)?;
    instance_of(alloc, &bytes, settings)
}

fn instance_of(
    alloc: Global,
    bytes: &[u8],
    settings: Settings,
) -> Result<Instance, Refusal<'static>>
    requires { AreSettingsWithin settings }
    ensures { LooksAt (λ read. read ≡ instance_in settings bytes.now) (step_of result) }
{
    if bytes.len() as u64 > INSTANCE_LIMIT {
        return Err(Refusal::InstanceTooLong);
    }
    match read_instance(alloc, bytes, settings.format, settings.scale, settings.team) {
        Ok(inst) => Ok(inst),
        Err(FileFail::Refused { line, cause }) => Err(Refusal::Instance { line, cause }),
        Err(FileFail::Memory) => Err(Refusal::Memory),
    }
}

/// Gets a certificate and reads it.
fn get_cert<'a, S: Store>(alloc: Global, store: &mut S, name: &'a str) -> Result<Cert, Refusal<'a>>
    ensures { Reads IsReadAs name.entry.now (S.state store.old) (S.state store.new) (step_of result) }
{
    let bytes = get(store, name, u64::MAX)?;
    cert_of(alloc, &bytes)
}

fn cert_of(alloc: Global, bytes: &[u8]) -> Result<Cert, Refusal<'static>>
    ensures { LooksAt (IsReadAs bytes.now) (step_of result) }
{
    match read_cert(alloc, bytes) {
        Ok(cert) => Ok(cert),
        Err(TextFail::Refused { at, cause }) => Err(Refusal::CertText { at, cause }),
        Err(TextFail::Memory) => Err(Refusal::Memory),
    }
}

/// Gets the first bytes of a file.
fn get<'a, S: Store>(store: &mut S, name: &'a str, limit: u64) -> Result<Vec<u8>, Refusal<'a>>
    ensures { Reads (λ whole read. read ≡ Ok (take limit whole)) name.entry.now (S.state store.old) (S.state store.new) (bytes_of result) }
{
    match store.get(name, limit) {
        Ok(bytes) => Ok(bytes),
        Err(GetFail::Failed) => Err(Refusal::Read(name)),
        Err(GetFail::Memory) => Err(Refusal::Memory),
    }
}
