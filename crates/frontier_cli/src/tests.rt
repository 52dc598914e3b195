use crate::run::run;
use edge_core::{MemSink, MemStore, Store};
use std::alloc::Global;
use std::test::Fail;

/// Two calls at distances 3 and 4 from the start, which is also the end, and 5 from each other.
pub(crate) const TWO_CALLS: &str = "10 1\n0 0 0\n0 0 0\n3 0 5\n0 4 7\n";

/// The first lines of the certificates of that instance.
const HEAD: &str =
    "PARETO 1\ninstance 2 1 1\npoints 3\npoint 0 0 0\npoint 5 6 1\ntour 1 1\npoint 7 8 1\ntour 1 2\n";

const OPEN: &str = "nodes 1\nopen\nend\n";

/// A tree that leaves nothing open.
const CLOSED: &str =
    "nodes 19\nprofit 0\ndominated\ncount 0\nstuck box\ntime 5\ncut 0 1 0 0\ncutoff 1\nprofit 5\ndominated\ntime 7\narc 0 1\ncut 1 0 1 0 1 -2\ncutoff 1\ncut 0 1 0 0\ncutoff 1\nprofit 7\ndominated\ncut 1 0 0 0\ncutoff 1\nend\n";

pub(crate) const POINTS: &str = "points 3\npoint 0 0 0\npoint 5 6 1\ntour 1\npoint 7 8 1\ntour 2\n";

/// A case: its name, an instance, the two parts of a certificate, and the status, the two parts of the report, and the
/// error line.
type Case<'a> = (
    &'a str,
    &'a str,
    &'a str,
    &'a str,
    u8,
    &'a str,
    &'a str,
    &'a str,
);

const VERDICTS: &[Case<'static>] = &[
    (
        "open_box_of_two_calls",
        TWO_CALLS,
        HEAD,
        OPEN,
        3,
        POINTS,
        "boxes 1\nbox 0 12 0 10\n",
        "",
    ),
    (
        "no_calls_closed",
        "10 1\n0 0 0\n0 0 0\n",
        "PARETO 1\ninstance 0 1 1\npoints 1\npoint 0 0 0\n",
        "nodes 1\ndominated\nend\n",
        0,
        "points 1\npoint 0 0 0\n",
        "boxes 0\n",
        "",
    ),
    (
        "closed_certificate",
        TWO_CALLS,
        HEAD,
        CLOSED,
        0,
        POINTS,
        "boxes 0\n",
        "",
    ),
    (
        "missing_point_not_above",
        TWO_CALLS,
        "PARETO 1\ninstance 2 1 1\npoints 2\npoint 0 0 0\npoint 5 6 1\ntour 1 1\n",
        "nodes 11\nprofit 0\ndominated\ncount 0\nstuck box\ntime 5\ncut 0 1 0 0\ncutoff 1\nprofit 5\ndominated\ncut 1 0 0 0\ncutoff 1\nend\n",
        1,
        "",
        "",
        "certificate: node 11: not above\n",
    ),
    (
        "negative_sigma_counts_zero_times",
        TWO_CALLS,
        HEAD,
        "nodes 6\nprofit 0\ndominated\ntime 5\ncut 0 1 0 0\ncutoff 1\nopen\nend\n",
        1,
        "",
        "",
        "certificate: node 5: not above\n",
    ),
    (
        "corner_equals_bound",
        TWO_CALLS,
        HEAD,
        "nodes 13\nprofit 0\ndominated\ncount 0\nstuck box\ntime 5\ncut 0 1 0 0\ncutoff 1\nprofit 5\ndominated\ntime 7\ncut 1 1 0 0\ncutoff 1\nopen\nend\n",
        1,
        "",
        "",
        "certificate: node 12: not above\n",
    ),
    (
        "negative_price_on_free_call",
        TWO_CALLS,
        HEAD,
        "nodes 19\nprofit 0\ndominated\ncount 0\nstuck box\ntime 5\ncut 0 1 1 0 1 -1\ncutoff 1\nprofit 5\ndominated\ntime 7\narc 0 1\ncut 1 0 1 0 1 -2\ncutoff 1\ncut 0 1 0 0\ncutoff 1\nprofit 7\ndominated\ncut 1 0 0 0\ncutoff 1\nend\n",
        1,
        "",
        "",
        "certificate: node 6: price 1 negative\n",
    ),
    (
        "negative_price_on_free_call: at the root",
        TWO_CALLS,
        HEAD,
        "nodes 2\ncut 0 1 1 0 1 -1\nopen\nend\n",
        1,
        "",
        "",
        "certificate: node 1: price 1 negative\n",
    ),
    (
        "decimals_and_floored_lengths: score",
        "10 1\n0 0 0\n0 0 0\n3 0 10.5\n0 4 7\n",
        HEAD,
        OPEN,
        4,
        "",
        "",
        "instance: line 4: score\n",
    ),
    (
        "certificate_text_places: first line alone",
        TWO_CALLS,
        "PARETO 1\n",
        "",
        1,
        "",
        "",
        "certificate: byte 9: end\n",
    ),
    (
        "certificate_text_places: no bytes",
        TWO_CALLS,
        "",
        "",
        1,
        "",
        "",
        "certificate: byte 0: end\n",
    ),
    (
        "certificate_text_places: leading zero",
        TWO_CALLS,
        "PARETO 1\ninstance 02 1 1\npoints 3\npoint 0 0 0\npoint 5 6 1\ntour 1 1\npoint 7 8 1\ntour 1 2\n",
        OPEN,
        1,
        "",
        "",
        "certificate: byte 19: syntax\n",
    ),
    (
        "certificate_text_places: one more byte",
        TWO_CALLS,
        HEAD,
        "nodes 1\nopen\nend\n\n",
        1,
        "",
        "",
        "certificate: byte 104: syntax\n",
    ),
    (
        "call_shared_by_two_tours",
        "10 2\n0 0 0\n0 0 0\n3 0 5\n0 4 7\n",
        "PARETO 1\ninstance 2 2 1\npoints 1\npoint 10 12 2\ntour 1 1\ntour 1 1\n",
        OPEN,
        1,
        "",
        "",
        "certificate: point 1: tour 2: call 1 shared\n",
    ),
    (
        "refused_points_and_shapes: other instance",
        TWO_CALLS,
        "PARETO 1\ninstance 2 2 1\npoints 3\npoint 0 0 0\npoint 5 6 1\ntour 1 1\npoint 7 8 1\ntour 1 2\n",
        OPEN,
        1,
        "",
        "",
        "certificate: other instance\n",
    ),
    (
        "refused_points_and_shapes: other instance without points",
        TWO_CALLS,
        "PARETO 1\ninstance 2 2 1\npoints 0\n",
        OPEN,
        1,
        "",
        "",
        "certificate: other instance\n",
    ),
    (
        "refused_points_and_shapes: wrong value",
        TWO_CALLS,
        "PARETO 1\ninstance 2 1 1\npoints 3\npoint 0 0 0\npoint 5 7 1\ntour 1 1\npoint 7 8 1\ntour 1 2\n",
        OPEN,
        1,
        "",
        "",
        "certificate: point 2: wrong value\n",
    ),
    (
        "refused_points_and_shapes: wrong value of the first point",
        TWO_CALLS,
        "PARETO 1\ninstance 2 1 1\npoints 1\npoint 5 7 1\ntour 1 1\n",
        OPEN,
        1,
        "",
        "",
        "certificate: point 1: wrong value\n",
    ),
    (
        "refused_points_and_shapes: not rising",
        TWO_CALLS,
        "PARETO 1\ninstance 2 1 1\npoints 3\npoint 5 6 1\ntour 1 1\npoint 0 0 0\npoint 7 8 1\ntour 1 2\n",
        OPEN,
        1,
        "",
        "",
        "certificate: point 2: not rising\n",
    ),
    (
        "refused_points_and_shapes: not rising at the last point",
        TWO_CALLS,
        "PARETO 1\ninstance 2 1 1\npoints 2\npoint 5 6 1\ntour 1 1\npoint 0 0 0\n",
        OPEN,
        1,
        "",
        "",
        "certificate: point 2: not rising\n",
    ),
    (
        "refused_points_and_shapes: no node",
        TWO_CALLS,
        HEAD,
        "nodes 0\nend\n",
        1,
        "",
        "",
        "certificate: node 1: shape\n",
    ),
    (
        "refused_points_and_shapes: node behind the tree",
        TWO_CALLS,
        HEAD,
        "nodes 2\nopen\nopen\nend\n",
        1,
        "",
        "",
        "certificate: node 2: shape\n",
    ),
    (
        "refused_nodes: no progress",
        TWO_CALLS,
        HEAD,
        "nodes 3\nprofit 12\nopen\nopen\nend\n",
        1,
        "",
        "",
        "certificate: node 1: no progress\n",
    ),
    (
        "refused_nodes: not stuck",
        TWO_CALLS,
        HEAD,
        "nodes 1\nstuck cycle\nend\n",
        1,
        "",
        "",
        "certificate: node 1: not stuck\n",
    ),
    (
        "refused_nodes: no such cut",
        TWO_CALLS,
        HEAD,
        "nodes 1\ncutoff 1\nend\n",
        1,
        "",
        "",
        "certificate: node 1: no such cut\n",
    ),
    (
        "refused_nodes: not dominated",
        TWO_CALLS,
        HEAD,
        "nodes 1\ndominated\nend\n",
        1,
        "",
        "",
        "certificate: node 1: not dominated\n",
    ),
    (
        "refused_nodes: not dominated below a split",
        TWO_CALLS,
        HEAD,
        "nodes 3\nprofit 7\ndominated\nopen\nend\n",
        1,
        "",
        "",
        "certificate: node 2: not dominated\n",
    ),
    (
        "cut_under_cut_and_critical_set: cut under cut",
        TWO_CALLS,
        HEAD,
        "nodes 3\ncut 1 0 0 0\ncut 1 0 0 0\nopen\nend\n",
        1,
        "",
        "",
        "certificate: node 2: cut under cut\n",
    ),
    (
        "cut_under_cut_and_critical_set: critical set",
        TWO_CALLS,
        HEAD,
        "nodes 2\ncut 1 0 0 1 3\nopen\nend\n",
        1,
        "",
        "",
        "certificate: node 1: critical set\n",
    ),
];

const CHECK: &[&str] = &["check", "a.op", "c1", "--format", "op", "--scale", "1"];

pub(crate) fn words(alloc: Global, texts: &[&str]) -> Result<Vec<String>, Fail> {
    let mut words = Vec::new(alloc);
    for text in texts {
        words.push(String::from_str(alloc, text)?)?;
    }
    Ok(words)
}

fn joined(alloc: Global, first: &str, second: &str) -> Result<Vec<u8>, Fail> {
    let mut bytes = Vec::from_slice(alloc, first.as_bytes())?;
    bytes.extend_from_slice(second.as_bytes())?;
    Ok(bytes)
}

fn store(alloc: Global, instance: &[u8], certificate: &[u8]) -> Result<MemStore, Fail> {
    let mut store = MemStore::new(alloc);
    store.put("a.op", instance)?;
    store.put("c1", certificate)?;
    Ok(store)
}

#[test]
fn verdicts_and_their_lines(rt: HostRuntime) -> Result<(), Fail> {
    let alloc = rt.alloc();
    let words = words(alloc, CHECK)?;
    for (name, instance, head, tree, status, points, boxes, told) in VERDICTS {
        let mut store = store(alloc, instance.as_bytes(), &joined(alloc, head, tree)?)?;
        let mut out = MemSink::new(alloc);
        let mut err = MemSink::new(alloc);
        let ended = run(&rt, alloc, &words, &mut store, &mut out, &mut err);
        assert_eq!(rt; err.written(), told.as_bytes(), "{name}");
        assert_eq!(rt; ended, *status, "{name}");
        let printed = joined(alloc, points, boxes)?;
        assert_eq!(rt; out.written(), printed.as_slice(), "{name}");
    }
    Ok(())
}

const CLOSED_REPORT: &str =
    "points 3\npoint 0 0 0\npoint 5 6 1\ntour 1\npoint 7 8 1\ntour 2\nboxes 0\n";

const TABLE_REPORT: &str =
    "    profit        time tours  calls\n         0           0     0\n         5           6     1  1\n         7           8     1  2\nboxes 1\nbox 0 12 0 10\n";

/// A case: its name, words for the open certificate `c1` or the closed one `c3`, the status, what is printed, and the
/// error line.
const WORDS: &[(&str, &[&str], u8, &str, &str)] = &[
    (
        "label_limit_exact: as many as the greatest replay",
        &[
            "check", "a.op", "c3", "--labels", "4", "--format", "op", "--scale", "1",
        ],
        0,
        CLOSED_REPORT,
        "",
    ),
    (
        "label_limit_exact: 3",
        &[
            "check", "a.op", "c3", "--labels", "3", "--format", "op", "--scale", "1",
        ],
        8,
        "",
        "certificate: node 18: too many labels\n",
    ),
    (
        "label_limit_exact: 2",
        &[
            "check", "a.op", "c3", "--labels", "2", "--format", "op", "--scale", "1",
        ],
        8,
        "",
        "certificate: node 12: too many labels\n",
    ),
    (
        "label_limit_exact: 1",
        &[
            "check", "a.op", "c3", "--labels", "1", "--format", "op", "--scale", "1",
        ],
        8,
        "",
        "certificate: node 6: too many labels\n",
    ),
    (
        "label_limit_with_workers: 1",
        &[
            "check",
            "a.op",
            "c3",
            "--labels",
            "2",
            "--workers",
            "1",
            "--format",
            "op",
            "--scale",
            "1",
        ],
        8,
        "",
        "certificate: node 12: too many labels\n",
    ),
    (
        "label_limit_with_workers: 2",
        &[
            "check",
            "a.op",
            "c3",
            "--labels",
            "2",
            "--workers",
            "2",
            "--format",
            "op",
            "--scale",
            "1",
        ],
        8,
        "",
        "certificate: node 12: too many labels\n",
    ),
    (
        "label_limit_with_workers: 16",
        &[
            "check",
            "a.op",
            "c3",
            "--labels",
            "2",
            "--workers",
            "16",
            "--format",
            "op",
            "--scale",
            "1",
        ],
        8,
        "",
        "certificate: node 12: too many labels\n",
    ),
    (
        "label_limit_with_workers: 1 and no limit",
        &[
            "check",
            "a.op",
            "c3",
            "--workers",
            "1",
            "--format",
            "op",
            "--scale",
            "1",
        ],
        0,
        CLOSED_REPORT,
        "",
    ),
    (
        "label_limit_with_workers: 2 and no limit",
        &[
            "check",
            "a.op",
            "c3",
            "--workers",
            "2",
            "--format",
            "op",
            "--scale",
            "1",
        ],
        0,
        CLOSED_REPORT,
        "",
    ),
    (
        "label_limit_with_workers: 16 and no limit",
        &[
            "check",
            "a.op",
            "c3",
            "--workers",
            "16",
            "--format",
            "op",
            "--scale",
            "1",
        ],
        0,
        CLOSED_REPORT,
        "",
    ),
    (
        "options before the names",
        &[
            "check",
            "--scale",
            "1",
            "--workers",
            "16",
            "--format",
            "op",
            "a.op",
            "c3",
        ],
        0,
        CLOSED_REPORT,
        "",
    ),
    (
        "table_report",
        &[
            "check", "a.op", "c1", "--style", "table", "--format", "op", "--scale", "1",
        ],
        3,
        TABLE_REPORT,
        "",
    ),
    (
        "missing instance",
        &["check", "b.op", "c1", "--format", "op", "--scale", "1"],
        5,
        "",
        "read fault: b.op\n",
    ),
    (
        "missing certificate",
        &["check", "a.op", "d", "--format", "op", "--scale", "1"],
        5,
        "",
        "read fault: d\n",
    ),
    (
        "malformed instance before a missing certificate",
        &["check", "bad.op", "d", "--format", "op", "--scale", "1"],
        4,
        "",
        "instance: line 4: score\n",
    ),
    (
        "no word",
        &[],
        2,
        "",
        "words: no command; the commands are check, solve, resume, generate and demo\n",
    ),
    (
        "refused_words_and_long_file: no certificate",
        &["check", "a.op", "--format", "op"],
        2,
        "",
        "words: CERT is missing\n",
    ),
    (
        "refused_words_and_long_file: unknown command",
        &["chek", "a.op", "c1", "--format", "op"],
        2,
        "",
        "words: unknown command chek; the commands are check, solve, resume, generate and demo\n",
    ),
    (
        "refused_words_and_long_file: unknown format",
        &["check", "a.op", "c1", "--format", "xyz"],
        2,
        "",
        "words: --format takes op, top or toptw\n",
    ),
    (
        "too many calls of a demonstration",
        &["demo", "0", "301"],
        2,
        "",
        "words: CALLS takes a number from 0 to 300\n",
    ),
    (
        "resume without a format",
        &["resume", "a.op", "c1", "--cert", "o"],
        2,
        "",
        "words: --format is missing\n",
    ),
];

#[test]
fn options_and_words(rt: HostRuntime) -> Result<(), Fail> {
    let alloc = rt.alloc();
    let mut store = store(alloc, TWO_CALLS.as_bytes(), &joined(alloc, HEAD, OPEN)?)?;
    store.put("c3", &joined(alloc, HEAD, CLOSED)?)?;
    store.put("bad.op", "10 1\n0 0 0\n0 0 0\n3 0 10.5\n".as_bytes())?;
    for (name, texts, status, printed, told) in WORDS {
        let words = words(alloc, texts)?;
        let mut out = MemSink::new(alloc);
        let mut err = MemSink::new(alloc);
        let ended = run(&rt, alloc, &words, &mut store, &mut out, &mut err);
        assert_eq!(rt; err.written(), told.as_bytes(), "{name}");
        assert_eq!(rt; ended, *status, "{name}");
        assert_eq!(rt; out.written(), printed.as_bytes(), "{name}");
    }
    Ok(())
}

/// A file of the most bytes is read, its last line being blank. One of one byte more is refused for its length, also where
/// the certificate is missing.
#[test]
fn refused_words_and_long_file(rt: HostRuntime) -> Result<(), Fail> {
    let alloc = rt.alloc();
    for (length, certificate, status, told) in [
        (16_777_216, "c1", 3, ""),
        (16_777_217, "c1", 9, "instance: too long\n"),
        (16_777_217, "d", 9, "instance: too long\n"),
    ] {
        let words = words(
            alloc,
            &[
                "check",
                "a.op",
                certificate,
                "--format",
                "op",
                "--scale",
                "1",
            ],
        )?;
        let mut instance = Vec::from_slice(alloc, TWO_CALLS.as_bytes())?;
        instance.resize(length, b' ')?;
        let mut store = store(alloc, &instance, &joined(alloc, HEAD, OPEN)?)?;
        let mut out = MemSink::new(alloc);
        let mut err = MemSink::new(alloc);
        let ended = run(&rt, alloc, &words, &mut store, &mut out, &mut err);
        assert_eq!(rt; err.written(), told.as_bytes(), "{length} bytes");
        assert_eq!(rt; ended, status, "{length} bytes");
    }
    Ok(())
}

/// A check whose first or second read fails prints nothing.
#[test]
fn failing_devices_of_reads(rt: HostRuntime) -> Result<(), Fail> {
    let alloc = rt.alloc();
    let words = words(alloc, CHECK)?;
    for (call, told) in [(1, "read fault: a.op\n"), (2, "read fault: c1\n")] {
        let mut store = store(alloc, TWO_CALLS.as_bytes(), &joined(alloc, HEAD, OPEN)?)?;
        store.fail_calls(&[call])?;
        let mut out = MemSink::new(alloc);
        let mut err = MemSink::new(alloc);
        let ended = run(&rt, alloc, &words, &mut store, &mut out, &mut err);
        assert_eq!(rt; ended, 5);
        assert_eq!(rt; out.written().len(), 0);
        assert_eq!(rt; err.written(), told.as_bytes());
    }
    Ok(())
}

/// Three calls with windows; the walk through the last two and the first is worth most.
const WINDOWS: &str =
    "0 1 4 0\n0 0\n0 0 0 0 0 0 0 0 100\n1 0 0 5 5 0 0 0 100\n2 0 0 8 1 0 0 0 0\n3 0 0 1 1 0 0 10 10\n";

/// A case: its name, a certificate of the instance with windows, its status and its line.
const CRITICAL: &[(&str, &str, u8, &str)] = &[
    (
        "critical_set_in_dominance: a walk of more worth",
        "PARETO 1\ninstance 3 1 1\npoints 1\npoint 6 0 1\ntour 2 1 3\nnodes 4\nprofit 6\ndominated\ncut 1 0 0 1 1\ncutoff 1\nend\n",
        1,
        "certificate: node 4: not above\n",
    ),
    (
        "critical_set_in_dominance: that walk listed",
        "PARETO 1\ninstance 3 1 1\npoints 1\npoint 7 0 1\ntour 3 2 3 1\nnodes 1\ndominated\nend\n",
        0,
        "",
    ),
];

#[test]
fn critical_set_in_dominance(rt: HostRuntime) -> Result<(), Fail> {
    let alloc = rt.alloc();
    let words = words(
        alloc,
        &["check", "a.op", "c1", "--format", "toptw", "--scale", "1"],
    )?;
    for (name, certificate, status, told) in CRITICAL {
        let mut store = store(alloc, WINDOWS.as_bytes(), certificate.as_bytes())?;
        let mut out = MemSink::new(alloc);
        let mut err = MemSink::new(alloc);
        let ended = run(&rt, alloc, &words, &mut store, &mut out, &mut err);
        assert_eq!(rt; err.written(), told.as_bytes(), "{name}");
        assert_eq!(rt; ended, *status, "{name}");
    }
    Ok(())
}

/// A stream that fails within the report gets its front.
#[test]
fn failing_devices_of_streams(rt: HostRuntime) -> Result<(), Fail> {
    let alloc = rt.alloc();
    let mut store = store(alloc, TWO_CALLS.as_bytes(), &joined(alloc, HEAD, OPEN)?)?;
    let words = words(alloc, CHECK)?;
    let mut out = MemSink::new(alloc);
    let mut err = MemSink::new(alloc);
    out.fail_after(10);
    let ended = run(&rt, alloc, &words, &mut store, &mut out, &mut err);
    assert_eq!(rt; ended, 6);
    assert_eq!(rt; out.written(), "points 3\np".as_bytes());
    assert_eq!(rt; err.written(), "write fault\n".as_bytes());
    Ok(())
}
