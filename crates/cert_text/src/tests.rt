use super::*;
use orienteering::{Entries, Listed, Plan, Point, Price, Reason, Tour};
use std::test::*;

/// Two points beside the empty plan, and one open node.
const OPEN_BOX: &[u8] =
    b"PARETO 1\ninstance 2 1 1\npoints 3\npoint 0 0 0\npoint 5 6 1\ntour 1 1\npoint 7 8 1\ntour 1 2\nnodes 1\nopen\nend\n";

/// The same points, and a tree that leaves no box.
const CLOSED: &[u8] =
    b"PARETO 1\ninstance 2 1 1\npoints 3\npoint 0 0 0\npoint 5 6 1\ntour 1 1\npoint 7 8 1\ntour 1 2\nnodes 19\nprofit 0\ndominated\ncount 0\nstuck box\ntime 5\ncut 0 1 0 0\ncutoff 1\nprofit 5\ndominated\ntime 7\narc 0 1\ncut 1 0 1 0 1 -2\ncutoff 1\ncut 0 1 0 0\ncutoff 1\nprofit 7\ndominated\ncut 1 0 0 0\ncutoff 1\nend\n";

const HEAD: &[u8] = b"PARETO 1\ninstance 2 1 1\n";

fn refused(rt: &HostRuntime, bytes: &[u8]) -> Option<(u64, TextCause)> {
    match read_cert(rt.alloc(), bytes) {
        Ok(_cert) => None,
        Err(TextFail::Refused { at, cause }) => Some((at, cause)),
        Err(TextFail::Memory) => Some((u64::MAX, TextCause::End)),
    }
}

#[test]
fn closed_certificate_is_written_as_it_was_read(rt: HostRuntime) -> Result<(), Fail> {
    let cert = read_cert(rt.alloc(), CLOSED).ok().ok_or("a text")?;
    assert_eq!(rt; (cert.customers(), cert.team(), cert.scale()), (2, 1, 1));
    assert_eq!(rt; (cert.points().len(), cert.nodes().len()), (3, 19));
    let text = write_cert(rt.alloc(), &cert)?;
    assert!(rt; text.as_slice() == CLOSED);
    Ok(())
}

#[test]
fn every_part_is_written(rt: HostRuntime) -> Result<(), Fail> {
    let tour = Tour::from_calls(vec![in rt.alloc(); 2, 1]?);
    let listed = Listed {
        point: Point {
            profit: 12,
            time: u64::MAX,
        },
        plan: Plan::from_tours(vec![in rt.alloc(); tour, Tour::from_calls(Vec::new(rt.alloc()))]?),
    };
    let price = Price {
        alpha: u32::MAX,
        beta: 0,
        pi: Entries::from_list(vec![in rt.alloc(); (1, i64::MIN), (2, 30)]?),
    };
    let critical = Tour::from_calls(vec![in rt.alloc(); 7]?);
    let mut nodes = vec![in rt.alloc();
        Node::Profit { v: 5 },
        Node::Time { v: 0 },
        Node::Count { c: 1 },
        Node::Arc { i: 0, j: 2 },
        Node::Cut { price, critical },
        Node::Dominated,
        Node::Cutoff { k: 1 },
        Node::Left,
    ]?;
    for reason in [
        Reason::NoBox,
        Reason::Cycle,
        Reason::Late,
        Reason::Side,
        Reason::Many,
        Reason::Few,
    ] {
        nodes.push(Node::Stuck { reason })?;
    }
    let cert = Cert::from_parts(2, 32, 1000, vec![in rt.alloc(); listed]?, nodes);
    let text = write_cert(rt.alloc(), &cert)?;
    assert!(rt;
        text.as_slice()
            == b"PARETO 1\ninstance 2 32 1000\npoints 1\npoint 12 18446744073709551615 2\ntour 2 2 1\ntour 0\nnodes 14\nprofit 5\ntime 0\ncount 1\narc 0 2\ncut 4294967295 0 2 1 1 -9223372036854775808 2 30 7\ndominated\ncutoff 1\nopen\nstuck box\nstuck cycle\nstuck late\nstuck side\nstuck many\nstuck few\nend\n".as_slice()
    );
    let again = read_cert(rt.alloc(), text.as_slice()).ok().ok_or("a text")?;
    let text_again = write_cert(rt.alloc(), &again)?;
    assert!(rt; text_again.as_slice() == text.as_slice());
    Ok(())
}

#[test]
fn certificate_text_places(rt: HostRuntime) -> Result<(), Fail> {
    for n in 0..OPEN_BOX.len() {
        assert_eq!(rt;
            refused(&rt, &OPEN_BOX[..n]),
            Some((n as u64, TextCause::End)),
            "{n} bytes"
        );
    }
    let mut longer = Vec::from_slice(rt.alloc(), OPEN_BOX)?;
    longer.push(b'\n')?;
    assert_eq!(rt;
        refused(&rt, longer.as_slice()),
        Some((OPEN_BOX.len() as u64, TextCause::Syntax))
    );
    Ok(())
}

#[test]
fn hostile_texts_are_refused_where_none_goes_on(rt: HostRuntime) -> Result<(), Fail> {
    let syntax = |at: u64| Some((at, TextCause::Syntax));
    let end = |at: u64| Some((at, TextCause::End));
    let heads: [(&[u8], Option<(u64, TextCause)>); 9] = [
        (b"", end(0)),
        (b"pareto 1\n", syntax(0)),
        (b"PARETO 1\r\n", syntax(8)),
        (b"PARETO 2\n", syntax(7)),
        (b"PARETO 1\ninstance 02 1 1\n", syntax(19)),
        (b"PARETO 1\ninstance 2  1 1\n", syntax(20)),
        (b"PARETO 1\ninstance +2 1 1\n", syntax(18)),
        (b"PARETO 1\ninstance 18446744073709551615", end(38)),
        (b"PARETO 1\ninstance 18446744073709551616", syntax(37)),
    ];
    for (bytes, want) in heads {
        assert_eq!(rt; refused(&rt, bytes), want);
    }
    // Each text behind the head, and its place counted from there.
    let tails: [(&[u8], Option<(u64, TextCause)>); 16] = [
        (b"points 18446744073709551615\n", end(28)),
        (b"points 0\nnodes 10000000000000000000\nopen\n", end(41)),
        (b"points 1\npoint 0 0 0\ntour 0\n", syntax(21)),
        (b"points 1\npoint 0 0 1\ntour 0\nnodes 0\nend\n", None),
        (b"points 1\npoint 5 6 1\ntour 2 1\n", syntax(29)),
        (b"points 1\npoint 5 6 1\ntour 1 4294967296\n", syntax(37)),
        (b"points 0\nnodes 1\ncux\n", syntax(19)),
        (b"points 0\nnodes 1\ncutoff +1\n", syntax(24)),
        (b"points 0\nnodes 1\ncut 1 0 1 0 1 -0\n", syntax(32)),
        (
            b"points 0\nnodes 1\ncut 1 0 1 0 1 -9223372036854775809\n",
            syntax(50),
        ),
        (
            b"points 0\nnodes 1\ncut 1 0 18446744073709551615 0 1 2",
            end(51),
        ),
        (b"points 0\nnodes 1\nstuck boy\n", syntax(25)),
        (b"points 0\nnodes 1\nopen \nend\n", syntax(21)),
        (b"points 0\nnodes 0\nend", end(20)),
        (b"points 0\nnodes 0\nend\n", None),
        (b"points 0\nnodes 0\nend\n\n", syntax(21)),
    ];
    for (tail, want) in tails {
        let mut text = Vec::from_slice(rt.alloc(), HEAD)?;
        text.extend_from_slice(tail)?;
        let place = match refused(&rt, text.as_slice()) {
            Some((at, cause)) => Some((at.saturating_sub(HEAD.len() as u64), cause)),
            None => None,
        };
        assert_eq!(rt; place, want);
    }
    Ok(())
}
