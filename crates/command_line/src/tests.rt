use crate::{WordsFail, WordsRefusal, read_command};
use std::alloc::{AllocError, Global};
use std::test::Fail;

/// The words of a line, cut at its spaces.
fn words_of(alloc: Global, line: &str) -> Result<Vec<String>, AllocError> {
    let mut words = Vec::new(alloc);
    for word in line.split(' ') {
        words.push(word.to_string(alloc)?)?;
    }
    Ok(words)
}

/// The command that the line asks for, or what the user is told of it.
fn answer(alloc: Global, line: &str) -> Result<String, AllocError> {
    let words = words_of(alloc, line)?;
    match read_command(alloc, words.as_slice()) {
        Ok(command) => format!(in alloc; "{command:?}"),
        Err(WordsFail::Refused(refusal)) => told(alloc, &refusal),
        Err(WordsFail::Memory) => Err(AllocError),
    }
}

/// The line for the cause, and behind it `clap`'s text where there is one.
fn told(alloc: Global, refusal: &WordsRefusal<'_>) -> Result<String, AllocError> {
    let mut told = String::new(alloc);
    let line = refusal.line();
    told.push_str(line.opening)?;
    told.push_str(line.subject)?;
    told.push_str(line.ending)?;
    if let Some(text) = refusal.text(alloc) {
        told.push_str(text.as_str())?;
    }
    Ok(told)
}

#[test]
fn takes_lines(rt: HostRuntime) -> Result<(), Fail> {
    let cases = [
        (
            "check --format op a.op --scale=1 c1",
            "Check(CheckCommand { instance: \"a.op\", certificate: \"c1\", settings: Settings { format: Op, scale: One, team: None, \
             labels: 1000000, workers: 1, style: Plain } })",
        ),
        (
            "check a c --format toptw --team 32 --labels +7 --style table --workers 016",
            "Check(CheckCommand { instance: \"a\", certificate: \"c\", settings: Settings { format: Toptw, scale: Ten, team: \
             Some(32), labels: 7, workers: 16, style: Table } })",
        ),
        (
            "solve --cert=o a.op --format top",
            "Solve(SolveCommand { instance: \"a.op\", out: \"o\", settings: Settings { format: Top, scale: Hundred, team: None, \
             labels: 1000000, workers: 1, style: Plain }, nodes: None, seed: 0 })",
        ),
        (
            "solve a --format op --scale 1000 --team +1 --nodes 18446744073709551615 --seed 09 --cert p --labels 2000000",
            "Solve(SolveCommand { instance: \"a\", out: \"p\", settings: Settings { format: Op, scale: Thousand, team: Some(1), \
             labels: 2000000, workers: 1, style: Plain }, nodes: Some(18446744073709551615), seed: 9 })",
        ),
        (
            "resume a.op p --cert q --format op --scale 1 --nodes 7",
            "Resume(ResumeCommand { instance: \"a.op\", certificate: \"p\", out: \"q\", settings: Settings { format: Op, scale: One, \
             team: None, labels: 1000000, workers: 1, style: Plain }, nodes: Some(7), seed: 0 })",
        ),
        (
            "resume a --format top --cert=a a --seed 3 --workers 2",
            "Resume(ResumeCommand { instance: \"a\", certificate: \"a\", out: \"a\", settings: Settings { format: Top, scale: Hundred, \
             team: None, labels: 1000000, workers: 2, style: Plain }, nodes: None, seed: 3 })",
        ),
        (
            "generate 18446744073709551615 300 --format top",
            "Generate(GenerateCommand { seed: 18446744073709551615, calls: 300, format: Top })",
        ),
        (
            "generate +0 0300 --format op",
            "Generate(GenerateCommand { seed: 0, calls: 300, format: Op })",
        ),
        (
            "demo 5 12",
            "Demo(DemoCommand { seed: 5, calls: 12, workers: 1 })",
        ),
        (
            "demo 5 --workers 16 0",
            "Demo(DemoCommand { seed: 5, calls: 0, workers: 16 })",
        ),
    ];
    for (line, wanted) in cases {
        let found = answer(rt.alloc(), line)?;
        assert!(rt; found.as_str() == wanted, "{line}: {found}");
    }
    Ok(())
}

#[test]
fn says_why_lines_are_refused(rt: HostRuntime) -> Result<(), Fail> {
    let cases = [
        ("check a.op --format op", "words: CERT is missing\n"),
        (
            "chek a.op c1 --format op",
            "words: unknown command chek; the commands are check, solve, resume, generate and demo\n",
        ),
        (
            "check a.op c1 --format xyz",
            "words: --format takes op, top or toptw\n",
        ),
        ("check a.op c1", "words: --format is missing\n"),
        (
            "check a.op c1 c2 --format op",
            "words\nerror: unexpected argument 'c2' found\n",
        ),
        (
            "check a.op c1 --format op --nodes 1",
            "words\nerror: unexpected argument '--nodes' found\n",
        ),
        (
            "check a.op c1 --format op --workers 17",
            "words: --workers takes a number from 1 to 16\n",
        ),
        (
            "check a.op --scale 7 --workers 0",
            "words: CERT is missing\n",
        ),
        (
            "check a.op c1 --format op --style Plain --team 33",
            "words: --team takes a number from 1 to 32\n",
        ),
        (
            "check a.op c1 --format op --labels 2000001",
            "words: --labels takes a number from 1 to 2000000\n",
        ),
        ("check a.op c1 --format op --labels", "words\nerror: "),
        (
            "check a.op c1 --format op --scale +1",
            "words: --scale takes 1, 10, 100 or 1000\n",
        ),
        (
            "check a.op c1 --format op --scale 1 --scale 1",
            "words\nerror: ",
        ),
        (
            "check a.op c1 --format op --style Plain",
            "words: --style takes plain or table\n",
        ),
        (
            "check --help",
            "words\nChecks a certificate of an instance and reports its points and boxes\n\n\
             Usage: check [OPTIONS] [INSTANCE] [CERT]\n",
        ),
        (
            "--help",
            "words: unknown command --help; the commands are check, solve, resume, generate and demo\n",
        ),
        (
            "resume --help",
            "words\nContinues a stopped search from its certificate, checks and writes the new one, and reports its \
             points and boxes\n\nUsage: resume [OPTIONS] [INSTANCE] [CERT]\n",
        ),
        (
            "demo --help",
            "words\nGenerates and solves an instance, checks the certificate and prints a summary\n\n\
             Usage: demo [OPTIONS] [SEED] [CALLS]\n",
        ),
        ("resume a.op c1 --format op", "words: --cert is missing\n"),
        ("resume --nodes 0", "words: INSTANCE is missing\n"),
        (
            "resume a.op c1 --format op --cert o --nodes 0",
            "words: --nodes takes a number from 1 to 18446744073709551615\n",
        ),
        ("solve a.op", "words: --format is missing\n"),
        (
            "solve a.op --cert o --format op --seed 18446744073709551616",
            "words: --seed takes a number from 0 to 18446744073709551615\n",
        ),
        (
            "generate 0 301 --format op",
            "words: CALLS takes a number from 0 to 300\n",
        ),
        ("generate -1 1 --format op", "words\nerror: "),
        (
            "generate x 1 --format xyz",
            "words: SEED takes a number from 0 to 18446744073709551615\n",
        ),
        ("generate --format op", "words: SEED is missing\n"),
        ("generate 0 --format xyz", "words: CALLS is missing\n"),
        (
            "demo 0 1 --format op",
            "words\nerror: unexpected argument '--format' found\n",
        ),
        (
            "",
            "words: unknown command ; the commands are check, solve, resume, generate and demo\n",
        ),
    ];
    for (line, wanted) in cases {
        let found = answer(rt.alloc(), line)?;
        assert!(rt; found.as_str().starts_with(wanted), "{line}: {found}");
        assert!(rt;
            wanted.starts_with("words\n") || found.len() == wanted.len(),
            "{line}: {found}"
        );
    }
    let Err(WordsFail::Refused(refusal)) = read_command(rt.alloc(), &[]) else {
        panic!(rt; "no words");
    };
    let found = told(rt.alloc(), &refusal)?;
    let wanted = "words: no command; the commands are check, solve, resume, generate and demo\n";
    assert!(rt; found.as_str() == wanted, "{found}");
    Ok(())
}
