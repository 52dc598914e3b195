use crate::run::run;
use crate::solve_tests::{printed, store};
use crate::tests::{POINTS, TWO_CALLS, words};
use cert_text::read_cert;
use edge_core::{MemSink, MemStore, Store};
use std::alloc::Global;
use std::test::Fail;
use std::thread::Threads;

const STOPPED: &[&str] = &[
    "solve", "a.op", "--cert", "p", "--format", "op", "--scale", "1", "--nodes", "1",
];

const STOPPED_CHECKED: &[&str] = &["check", "a.op", "p", "--format", "op", "--scale", "1"];

const NO_BOXES: &str = "boxes 0\n";

/// A store with the instance of two calls, and a certificate of one or two nodes, under `p`, that leaves its whole box.
fn stopped<R: Threads + Sync>(rt: &R, alloc: Global) -> Result<MemStore, Fail> {
    let mut store = store(alloc, TWO_CALLS)?;
    printed(rt, alloc, &mut store, STOPPED)?;
    Ok(store)
}

/// The words that go on from one certificate to another.
fn resuming<'a>(from: &'a str, to: &'a str) -> [&'a str; 9] {
    [
        "resume", "a.op", from, "--cert", to, "--format", "op", "--scale", "1",
    ]
}

/// Whether these are the points of the instance of two calls, without a box.
fn is_closed(out: &MemSink) -> bool {
    let written = out.written();
    written.starts_with(POINTS.as_bytes())
        && written.ends_with(NO_BOXES.as_bytes())
        && written.len() == POINTS.len().saturating_add(NO_BOXES.len())
}

/// With one node the whole box is left. Going on from there closes it, and going on from the closed certificate puts the same
/// bytes.
#[test]
fn stopped_and_resumed(rt: HostRuntime) -> Result<(), Fail> {
    let alloc = rt.alloc();
    let mut store = store(alloc, TWO_CALLS)?;
    let (ended, solved) = printed(&rt, alloc, &mut store, STOPPED)?;
    assert_eq!(rt; ended, 3);
    let left = "boxes 1\nbox 0 12 0 10\n";
    assert!(rt; solved.written().ends_with(left.as_bytes()));
    let bytes = store.get("p", u64::MAX)?;
    let cert = read_cert(alloc, &bytes).ok().ok_or("a certificate")?;
    assert!(rt; matches!(cert.nodes().len(), 1 | 2));
    let (ended, checked) = printed(&rt, alloc, &mut store, STOPPED_CHECKED)?;
    assert_eq!(rt; ended, 3);
    assert_eq!(rt; checked.written(), solved.written());

    let (ended, resumed) = printed(&rt, alloc, &mut store, &resuming("p", "q"))?;
    assert_eq!(rt; ended, 0);
    assert!(rt; is_closed(&resumed));
    assert!(rt; store.get("p", u64::MAX)? == bytes);

    let (ended, again) = printed(&rt, alloc, &mut store, &resuming("q", "again"))?;
    assert_eq!(rt; ended, 0);
    assert!(rt; is_closed(&again));
    let closed = store.get("q", u64::MAX)?;
    assert!(rt; store.get("again", u64::MAX)? == closed);
    Ok(())
}

/// The new certificate may take the place of the old one, or of the instance.
#[test]
fn resumed_under_the_same_name(rt: HostRuntime) -> Result<(), Fail> {
    let alloc = rt.alloc();
    for name in ["p", "a.op"] {
        let mut store = stopped(&rt, alloc)?;
        let (ended, resumed) = printed(&rt, alloc, &mut store, &resuming("p", name))?;
        assert_eq!(rt; ended, 0, "{name}");
        assert!(rt; is_closed(&resumed), "{name}");
        let bytes = store.get(name, u64::MAX)?;
        assert!(rt; read_cert(alloc, &bytes).is_ok(), "{name}");
    }
    Ok(())
}

/// A case: its name, a certificate, and the status and the line with which it is refused.
const REFUSED: &[(&str, &str, u8, &str)] = &[
    ("no bytes", "", 1, "certificate: byte 0: end\n"),
    (
        "a cut that isn't above",
        "PARETO 1\ninstance 2 1 1\npoints 2\npoint 0 0 0\npoint 5 6 1\ntour 1 1\nnodes 11\nprofit 0\ndominated\ncount 0\nstuck box\ntime 5\ncut 0 1 0 0\ncutoff 1\nprofit 5\ndominated\ncut 1 0 0 0\ncutoff 1\nend\n",
        1,
        "certificate: node 11: not above\n",
    ),
];

/// A certificate that is refused is not gone on from, and nothing is put.
#[test]
fn refused_certificates(rt: HostRuntime) -> Result<(), Fail> {
    let alloc = rt.alloc();
    let words = words(alloc, &resuming("p", "q"))?;
    for (name, certificate, status, told) in REFUSED {
        let mut store = store(alloc, TWO_CALLS)?;
        store.put("p", certificate.as_bytes())?;
        let mut out = MemSink::new(alloc);
        let mut err = MemSink::new(alloc);
        let ended = run(&rt, alloc, &words, &mut store, &mut out, &mut err);
        assert_eq!(rt; err.written(), told.as_bytes(), "{name}");
        assert_eq!(rt; ended, *status, "{name}");
        assert_eq!(rt; out.written().len(), 0, "{name}");
        assert!(rt; store.get("q", 1).is_err(), "{name}");
    }
    Ok(())
}

/// A read or a put that fails ends the run, which prints nothing.
#[test]
fn failing_devices(rt: HostRuntime) -> Result<(), Fail> {
    let alloc = rt.alloc();
    let words = words(alloc, &resuming("p", "q"))?;
    for (call, status, told) in [
        (1, 5, "read fault: a.op\n"),
        (2, 5, "read fault: p\n"),
        (3, 6, "write fault\n"),
    ] {
        let mut store = stopped(&rt, alloc)?;
        store.fail_calls(&[call])?;
        let mut out = MemSink::new(alloc);
        let mut err = MemSink::new(alloc);
        let ended = run(&rt, alloc, &words, &mut store, &mut out, &mut err);
        assert_eq!(rt; err.written(), told.as_bytes());
        assert_eq!(rt; ended, status);
        assert_eq!(rt; out.written().len(), 0);
        assert!(rt; store.get("q", 1).is_err());
    }
    Ok(())
}
