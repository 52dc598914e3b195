use super::*;
use fixed_num::Scale;
use orienteering::Place;
use site_model::{Instance, Parts, Places};
use std::alloc::Global;
use std::test::Fail;

/// The root over these calls, each as x, y and score; start and end are the origin.
fn root(alloc: Global, calls: &[(i64, i64, u32)]) -> Result<Context, Fail> {
    let mut places = Vec::new(alloc);
    for (x, y, score) in [(0, 0, 0)].iter().chain(calls).chain(&[(0, 0, 0)]) {
        places.push(Place {
            x: *x,
            y: *y,
            score: *score,
            service: 0,
            opening: 0,
            closing: 10,
        })?;
    }
    let parts = Parts {
        scale: Scale::One,
        team: 1,
        places: Places::from_list(places),
    };
    let inst = Instance::new(alloc, parts)?;
    Ok(Context::root(alloc, &inst)?)
}

const fn share(from: u32, to: u32, parts: u32) -> ArcShare {
    ArcShare { from, to, parts }
}

const fn arc(from: u32, to: u32) -> Option<Choice> {
    Some(Choice { from, to })
}

#[test]
fn branch_choice(rt: HostRuntime) -> Result<(), Fail> {
    let two_calls = root(rt.alloc(), &[(30_000, 0, 5), (0, 40_000, 7)])?;
    for (shares, wanted) in [
        ([].as_slice(), arc(0, 1)),
        ([share(1, 2, 400_000)].as_slice(), arc(1, 2)),
        // Equally near: the least place that is left, then the least that is entered.
        (
            [share(2, 1, 400_000), share(1, 2, 600_000)].as_slice(),
            arc(1, 2),
        ),
        (
            [share(1, 3, 600_000), share(1, 2, 400_000)].as_slice(),
            arc(1, 2),
        ),
        // The first entry of an arc counts.
        (
            [share(1, 2, 0), share(0, 2, 900_000), share(1, 2, 500_000)].as_slice(),
            arc(0, 2),
        ),
        // What is no nearer than an arc without an entry comes behind it, unless its places do.
        ([share(2, 1, 1_000_000)].as_slice(), arc(0, 1)),
        ([share(0, 1, 1_000_000)].as_slice(), arc(0, 1)),
        ([share(0, 1, 2_000_000)].as_slice(), arc(0, 2)),
        // No arcs at all.
        (
            [share(0, 3, 500_000), share(7, 7, 500_000)].as_slice(),
            arc(0, 1),
        ),
    ] {
        assert_eq!(rt; pick(&two_calls, shares), wanted);
    }
    let no_call = root(rt.alloc(), &[])?;
    assert_eq!(rt; pick(&no_call, &[share(0, 1, 500_000)]), None);
    Ok(())
}

#[test]
fn decided_arcs_are_passed_over(rt: HostRuntime) -> Result<(), Fail> {
    let two_calls = root(rt.alloc(), &[(30_000, 0, 5), (0, 40_000, 7)])?;
    let (used, banned) = two_calls.split_arc(0, 1)?;
    let half = share(0, 1, 500_000);
    for child in [&used, &banned] {
        assert_eq!(rt; pick(child, &[half]), arc(0, 2));
    }
    let shut = share(2, 1, 500_000);
    assert_eq!(rt; pick(&used, &[shut, share(1, 2, 100_000)]), arc(1, 2));
    assert_eq!(rt; pick(&banned, &[shut, share(1, 2, 100_000)]), arc(2, 1));
    Ok(())
}
