use crate::search::solve_from;
use crate::{Options, resume, solve};
use cert_text::Cert;
use fixed_num::Scale;
use orienteering::{Node, Place, Plan, Tour};
use site_model::{Instance, Parts, Places};
use std::alloc::Global;
use std::test::Fail;

const LABELS: u64 = 1_000_000;

fn spot(x: i64, y: i64, score: u32) -> Place {
    Place {
        x,
        y,
        score,
        service: 0,
        opening: 0,
        closing: 10,
    }
}

/// The start, which is also the end, with these calls, for one member.
fn instance(alloc: Global, calls: &[Place]) -> Result<Instance, Fail> {
    let mut places = Vec::new(alloc);
    places.push(spot(0, 0, 0))?;
    places.extend_from_slice(calls)?;
    places.push(spot(0, 0, 0))?;
    let parts = Parts {
        scale: Scale::One,
        team: 1,
        places: Places::from_list(places),
    };
    Ok(Instance::new(alloc, parts)?)
}

/// Two calls at distances 3 and 4 from the start, and 5 from each other.
fn triangle(alloc: Global) -> Result<Instance, Fail> {
    instance(alloc, &[spot(30_000, 0, 5), spot(0, 40_000, 7)])
}

fn open_nodes(cert: &Cert) -> usize {
    let mut count: usize = 0;
    for node in cert.nodes() {
        if matches!(node, Node::Left) {
            count = count.saturating_add(1);
        }
    }
    count
}

#[test]
fn closes_every_box_without_a_budget(rt: HostRuntime) -> Result<(), Fail> {
    let alloc = rt.alloc();
    let inst = triangle(alloc)?;
    let cert = solve_from(alloc, &inst, Vec::new(alloc), None, LABELS)?;
    assert_eq!(rt; open_nodes(&cert), 0);
    let wanted = [(0, 0), (5, 6), (7, 8)];
    assert_eq!(rt; cert.points().len(), wanted.len());
    for (listed, want) in cert.points().iter().zip(wanted.iter()) {
        assert_eq!(rt; (listed.point.profit, listed.point.time), *want);
    }
    Ok(())
}

#[test]
fn stops_at_its_budget(rt: HostRuntime) -> Result<(), Fail> {
    let alloc = rt.alloc();
    let inst = triangle(alloc)?;
    for budget in [1, 4, 7] {
        let cert = solve_from(alloc, &inst, Vec::new(alloc), Some(budget), LABELS)?;
        let nodes = cert.nodes().len() as u64;
        assert!(rt; nodes == budget || nodes == budget + 1);
        assert!(rt; open_nodes(&cert) > 0);
    }
    Ok(())
}

#[test]
fn goes_on_from_a_certificate(rt: HostRuntime) -> Result<(), Fail> {
    let alloc = rt.alloc();
    let inst = triangle(alloc)?;
    let stopping = Options {
        nodes: Some(2),
        labels: LABELS,
        workers: 1,
        seed: 0,
    };
    let first = solve(&rt, alloc, &inst, &stopping)?;
    let second = resume(&rt, alloc, &inst, &first, &stopping)?;
    let more = second.nodes().len().saturating_sub(first.nodes().len());
    assert!(rt; more == 2 || more == 3);
    assert!(rt; open_nodes(&second) > 0);
    let closing = Options {
        nodes: None,
        ..stopping
    };
    let last = resume(&rt, alloc, &inst, &second, &closing)?;
    assert_eq!(rt; open_nodes(&last), 0);
    assert_eq!(rt; last.points().len(), 3);
    let again = resume(&rt, alloc, &inst, &last, &closing)?;
    assert_eq!(rt; again.nodes().len(), last.nodes().len());
    Ok(())
}

// A body that branches on arcs alone leaves boxes.
#[test]
fn forty_equal_calls(rt: HostRuntime) -> Result<(), Fail> {
    let alloc = rt.alloc();
    let inst = instance(alloc, &[spot(30_000, 0, 1); 40])?;
    let mut calls = Vec::new(alloc);
    for call in 1..41 {
        calls.push(call)?;
    }
    let mut tours = Vec::new(alloc);
    tours.push(Tour::from_calls(calls))?;
    let mut starts = Vec::new(alloc);
    starts.push(Plan::from_tours(tours))?;
    let cert = solve_from(alloc, &inst, starts, Some(100), LABELS)?;
    assert_eq!(rt; open_nodes(&cert), 0);
    assert_eq!(rt; cert.points().len(), 2);
    Ok(())
}
