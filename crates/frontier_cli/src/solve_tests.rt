use crate::run::run;
use crate::tests::{POINTS, TWO_CALLS, words};
use edge_core::{MemSink, MemStore, Store};
use std::alloc::Global;
use std::test::Fail;
use std::thread::Threads;

/// A case: its name, words that generate an instance, and its text.
const GENERATED: &[(&str, &[&str], &str)] = &[
    (
        "generated_files: op",
        &["generate", "0", "1", "--format", "op"],
        "120 2\n50 50 0\n50 50 0\n94 16 7\n",
    ),
    (
        "generated_files: top",
        &["generate", "0", "2", "--format", "top"],
        "n 4\nm 2\ntmax 60\n50 50 0\n94 16 7\n7 60 4\n50 50 0\n",
    ),
    (
        "generated_files: toptw",
        &["generate", "0", "1", "--format", "toptw"],
        "0 2 2 0\n0 0\n0 50 50 0 0 0 0 0 240\n1 94 16 10 7 0 0 37 97\n",
    ),
];

#[test]
fn generated_files(rt: HostRuntime) -> Result<(), Fail> {
    let alloc = rt.alloc();
    let mut store = MemStore::new(alloc);
    for (name, texts, text) in GENERATED {
        let words = words(alloc, texts)?;
        let mut out = MemSink::new(alloc);
        let mut err = MemSink::new(alloc);
        let ended = run(&rt, alloc, &words, &mut store, &mut out, &mut err);
        assert_eq!(rt; ended, 0, "{name}");
        assert_eq!(rt; out.written(), text.as_bytes(), "{name}");
    }
    Ok(())
}

/// A store that holds an instance.
pub(crate) fn store(alloc: Global, instance: &str) -> Result<MemStore, Fail> {
    let mut store = MemStore::new(alloc);
    store.put("a.op", instance.as_bytes())?;
    Ok(store)
}

/// Solves an instance with these further words, and answers the status, what is printed and what is told.
fn solve<R: Threads + Sync>(
    rt: &R,
    alloc: Global,
    store: &mut MemStore,
    more: &[&str],
) -> Result<(u8, MemSink, MemSink), Fail> {
    let mut words = words(alloc, &["solve", "a.op", "--cert", "o"])?;
    for text in more {
        words.push(String::from_str(alloc, text)?)?;
    }
    let mut out = MemSink::new(alloc);
    let mut err = MemSink::new(alloc);
    let ended = run(rt, alloc, &words, store, &mut out, &mut err);
    Ok((ended, out, err))
}

/// Two calls with decimals, services and windows.
const WINDOWS: &str =
    "1 1 2 1\n0 0\n0 40.00 50.00 0.00 0.00 0 0 0 1236\n1 45.00 68.00 90.00 10.00 1 1 1 912 967\n2 45.00 70.00 90.00 30.00 1 1 1 825 870\n";

/// Four places between tabs, with lines that end as on other systems.
const TABS: &str =
    "n\t4\r\nm\t1\r\ntmax\t7.5\r\n0.0\t0.0\t0\r\n1.5\t2.0\t10\r\n3.0\t0.0\t15\r\n3.0\t4.0\t0\r\n\r\n";

const FIVE_PLACES: &str =
    "n\t5\r\nm\t1\r\ntmax\t7.5\r\n0.0\t0.0\t0\r\n1.5\t2.0\t10\r\n3.0\t0.0\t15\r\n3.0\t4.0\t0\r\n\r\n";

/// A case: its name, an instance with further words, and the status, what is printed and what is told.
const SOLVED: &[(&str, &str, &[&str], u8, &str, &str)] = &[
    (
        "two calls",
        TWO_CALLS,
        &["--format", "op", "--scale", "1"],
        0,
        "points 3\npoint 0 0 0\npoint 5 6 1\ntour 1\npoint 7 8 1\ntour 2\nboxes 0\n",
        "",
    ),
    (
        "windows_and_decimals",
        WINDOWS,
        &["--format", "toptw"],
        0,
        "points 3\npoint 0 0 0\npoint 10 372 1\ntour 1\npoint 40 412 1\ntour 2 1\nboxes 0\n",
        "",
    ),
    (
        "top_with_tabs_and_line_ends",
        TABS,
        &["--format", "top"],
        0,
        "points 3\npoint 0 0 0\npoint 10 500 1\ntour 1\npoint 15 700 1\ntour 2\nboxes 0\n",
        "",
    ),
    (
        "top_with_tabs_and_line_ends: row count",
        FIVE_PLACES,
        &["--format", "top"],
        4,
        "",
        "instance: line 9: row count\n",
    ),
];

#[test]
fn solved_files(rt: HostRuntime) -> Result<(), Fail> {
    for (name, instance, more, status, printed, told) in SOLVED {
        let mut store = store(rt.alloc(), instance)?;
        let (ended, out, err) = solve(&rt, rt.alloc(), &mut store, more)?;
        assert_eq!(rt; err.written(), told.as_bytes(), "{name}");
        assert_eq!(rt; out.written(), printed.as_bytes(), "{name}");
        assert_eq!(rt; ended, *status, "{name}");
    }
    Ok(())
}

/// A tour that reaches the end exactly at its closing is found; in which direction is left free.
#[test]
fn limit_reached_exactly(rt: HostRuntime) -> Result<(), Fail> {
    let mut store = store(rt.alloc(), "12 1\n0 0 0\n0 0 0\n3 0 5\n0 4 7\n")?;
    let (ended, out, _) = solve(
        &rt,
        rt.alloc(),
        &mut store,
        &["--format", "op", "--scale", "1"],
    )?;
    assert_eq!(rt; ended, 0);
    let begin =
        "points 4\npoint 0 0 0\npoint 5 6 1\ntour 1\npoint 7 8 1\ntour 2\npoint 12 12 1\ntour ";
    assert!(rt; out.written().starts_with(begin.as_bytes()));
    assert!(rt; out.written().ends_with("\nboxes 0\n".as_bytes()));
    Ok(())
}

/// Forty calls at one place make one tour, and few nodes are enough to see that.
#[test]
fn forty_equal_calls(rt: HostRuntime) -> Result<(), Fail> {
    let alloc = rt.alloc();
    let mut text = String::from_str(alloc, "10 1\n0 0 0\n0 0 0\n")?;
    for _ in 0..40 {
        text.push_str("3 0 1\n")?;
    }
    let mut store = store(alloc, text.as_str())?;
    let more = ["--format", "op", "--scale", "1", "--nodes", "100"];
    let (ended, out, _) = solve(&rt, alloc, &mut store, &more)?;
    assert_eq!(rt; ended, 0);
    let begin = "points 2\npoint 0 0 0\npoint 40 6 1\ntour ";
    assert!(rt; out.written().starts_with(begin.as_bytes()));
    assert!(rt; out.written().ends_with("\nboxes 0\n".as_bytes()));
    Ok(())
}

/// Ten calls that each make a tour of their own, two at once: prices of calls show that the best two are the best plan.
#[test]
fn ten_single_call_tours(rt: HostRuntime) -> Result<(), Fail> {
    let alloc = rt.alloc();
    let mut text = String::from_str(alloc, "0 2 10 0\n0 0\n0 0 0 0 0 0 0 0 10\n")?;
    text.push_str("1 3 0 1 9 0 0 3 3\n")?;
    for number in ["2", "3", "4", "5", "6", "7", "8", "9", "10"] {
        text.push_str(number)?;
        text.push_str(" 3 0 1 5 0 0 3 3\n")?;
    }
    let mut store = store(alloc, text.as_str())?;
    let more = ["--format", "toptw", "--scale", "1", "--nodes", "100"];
    let (ended, out, _) = solve(&rt, alloc, &mut store, &more)?;
    assert_eq!(rt; ended, 0);
    let begin = "points 3\npoint 0 0 0\npoint 9 6 1\ntour 1\npoint 14 12 2\ntour ";
    assert!(rt; out.written().starts_with(begin.as_bytes()));
    assert!(rt; out.written().ends_with("\nboxes 0\n".as_bytes()));
    Ok(())
}

/// Runs these words, and answers the status and what is printed.
pub(crate) fn printed<R: Threads + Sync>(
    rt: &R,
    alloc: Global,
    store: &mut MemStore,
    texts: &[&str],
) -> Result<(u8, MemSink), Fail> {
    let words = words(alloc, texts)?;
    let mut out = MemSink::new(alloc);
    let mut err = MemSink::new(alloc);
    let ended = run(rt, alloc, &words, store, &mut out, &mut err);
    Ok((ended, out))
}

/// A put that fails ends with status 6 and prints nothing; a stream that fails leaves the certificate that was put.
#[test]
fn failing_devices(rt: HostRuntime) -> Result<(), Fail> {
    let alloc = rt.alloc();
    let more = ["--format", "op", "--scale", "1"];
    for (call, status, told) in [(1, 5, "read fault: a.op\n"), (2, 6, "write fault\n")] {
        let mut store = store(alloc, TWO_CALLS)?;
        store.fail_calls(&[call])?;
        let (ended, out, err) = solve(&rt, rt.alloc(), &mut store, &more)?;
        assert_eq!(rt; ended, status);
        assert_eq!(rt; out.written().len(), 0);
        assert_eq!(rt; err.written(), told.as_bytes());
        assert!(rt; store.get("o", 1).is_err());
    }
    let mut store = store(alloc, TWO_CALLS)?;
    let words = words(
        alloc,
        &[
            "solve", "a.op", "--cert", "o", "--format", "op", "--scale", "1",
        ],
    )?;
    let mut out = MemSink::new(alloc);
    let mut err = MemSink::new(alloc);
    out.fail_after(10);
    let ended = run(&rt, alloc, &words, &mut store, &mut out, &mut err);
    assert_eq!(rt; ended, 6);
    assert_eq!(rt; out.written(), POINTS.as_bytes().split_at(10).0);
    assert!(rt; store.get("o", 1).is_ok());
    Ok(())
}

#[test]
fn demo_of_one_call(rt: HostRuntime) -> Result<(), Fail> {
    let mut store = MemStore::new(rt.alloc());
    let (ended, out) = printed(&rt, rt.alloc(), &mut store, &["demo", "0", "1"])?;
    assert_eq!(rt; ended, 0);
    let summary = "calls 1\npoints 2\nboxes 0\nprofit 7\ntime 11120\n";
    assert_eq!(rt; out.written(), summary.as_bytes());
    Ok(())
}

/// A larger run ends the same way twice, with a report.
#[test]
fn demo_of_twelve_calls_twice(rt: HostRuntime) -> Result<(), Fail> {
    let mut store = MemStore::new(rt.alloc());
    let (ended, first) = printed(&rt, rt.alloc(), &mut store, &["demo", "5", "12"])?;
    let (again, second) = printed(&rt, rt.alloc(), &mut store, &["demo", "5", "12"])?;
    assert_eq!(rt; ended, again);
    assert!(rt; matches!(ended, 0 | 3));
    assert!(rt; first.written().starts_with("calls 12\n".as_bytes()));
    assert!(rt; first.written() == second.written());
    Ok(())
}
