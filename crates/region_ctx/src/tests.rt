ghost use Rattle.std.specs.Prelude.{◌≡◌, ◌+◌, ◌≤◌, IfOk};
ghost use Rattle.orienteering.specs.Instance.{calls};

use crate::{Context, Reason, SplitFail};
use fixed_num::Scale;
use orienteering::{Box2, Place};
use site_model::{Instance, Parts, Places};
use std::alloc::Global;
use std::test::Fail;

const fn spot(x: i64, y: i64, score: u32) -> Place {
    Place {
        x,
        y,
        score,
        service: 0,
        opening: 0,
        closing: 10,
    }
}

/// Two calls at distances 3 and 4 from the start, which is also the end, and 5 from each other; one member, limit 10.
fn two_calls(alloc: Global) -> Result<Instance, Fail> {
    let places = [
        spot(0, 0, 0),
        spot(30_000, 0, 5),
        spot(0, 40_000, 7),
        spot(0, 0, 0),
    ];
    let parts = Parts {
        scale: Scale::One,
        team: 1,
        places: Places::from_list(Vec::from_slice(alloc, &places)?),
    };
    Ok(Instance::new(alloc, parts)?)
}

/// What every plan of a part does.
#[derive(Clone, Copy, Debug, PartialEq, Eq)]
enum Limit {
    Travels(u32, u32),
    Avoids(u32, u32),
    EarnsMore(u64),
    TakesAtMost(u64),
    HasNoTour,
    HasATour,
}

/// The part of the region whose plans keep the limit.
fn part(context: &Context, limit: Limit) -> Result<Context, SplitFail>
    ensures { IfOk result (λ c. c.calls ≡ context.now.calls) }
{
    match limit {
        Limit::Travels(i, j) => Ok(context.split_arc(i, j)?.0),
        Limit::Avoids(i, j) => Ok(context.split_arc(i, j)?.1),
        Limit::EarnsMore(v) => Ok(context.split_profit(v)?.1),
        Limit::TakesAtMost(v) => Ok(context.split_time(v)?.0),
        Limit::HasNoTour => Ok(context.split_count(0)?.0),
        Limit::HasATour => Ok(context.split_count(0)?.1),
    }
}

/// The part of all plans that keep the limits.
fn region(alloc: Global, inst: &Instance, limits: &[Limit]) -> Result<Context, SplitFail>
    ensures { IfOk result (λ c. c.calls ≡ calls inst.now) }
{
    let mut context = Context::root(alloc, inst)?;
    for limit in limits {
        context = part(&context, *limit)?;
    }
    Ok(context)
}

const fn area(p_lo: u64, p_hi: u64, t_lo: u64, t_hi: u64) -> Box2 {
    Box2 {
        p_lo,
        p_hi,
        t_lo,
        t_hi,
    }
}

#[test]
fn splits_of_two_calls(rt: HostRuntime) -> Result<(), Fail> {
    let inst = two_calls(rt.alloc())?;
    let root = Context::root(rt.alloc(), &inst)?;
    assert!(rt; matches!(root.split_profit(12), Err(SplitFail::NoProgress)));
    let Ok((none, some)) = root.split_profit(0) else {
        return Err("no split".into());
    };
    assert_eq!(rt; none.raw(), area(0, 0, 0, 10));
    assert_eq!(rt; some.raw(), area(1, 12, 0, 10));

    let Ok(first) = region(rt.alloc(), &inst, &[Limit::Travels(0, 1)]) else {
        return Err("no split".into());
    };
    assert!(rt; matches!(first.split_arc(2, 1), Err(SplitFail::NoProgress)));
    let calls = inst.calls();
    assert!(rt; calls == 2 && first.forced(1) && !first.forced(2));
    Ok(())
}

/// Whether two contexts answer the same of the arc between two places.
fn same_arc(a: &Context, b: &Context, i: u32, j: u32) -> bool
    requires same { a.now.calls ≡ b.now.calls }
    requires from { i ≤ a.now.calls + 1 }
    requires to { j ≤ a.now.calls + 1 }
{
    a.is_used(i, j) == b.is_used(i, j)
        && a.is_banned(i, j) == b.is_banned(i, j)
        && a.is_shut(i, j) == b.is_shut(i, j)
        && a.is_open(i, j) == b.is_open(i, j)
        && a.is_undecided(i, j) == b.is_undecided(i, j)
}

fn same_arcs(a: &Context, b: &Context) -> bool
    requires { a.now.calls ≡ b.now.calls }
{
    for i in 0..a.calls() + 2 {
        for j in 0..a.calls() + 2 {
            if !same_arc(a, b, i, j) {
                return false;
            }
        }
    }
    true
}

fn same_forced_calls(a: &Context, b: &Context) -> bool
    requires { a.now.calls ≡ b.now.calls }
{
    for call in 1..a.calls() + 1 {
        if a.forced(call) != b.forced(call) {
            return false;
        }
    }
    true
}

fn same_reasons(inst: &Instance, a: &Context, b: &Context) -> bool
    requires first { a.now.calls ≡ calls inst.now }
    requires second { b.now.calls ≡ calls inst.now }
{
    for (reason, _) in REASONS {
        if a.stuck(inst, *reason) != b.stuck(inst, *reason) {
            return false;
        }
    }
    true
}

/// Whether two contexts of an instance give the same answers.
fn same_answers(inst: &Instance, a: &Context, b: &Context) -> bool
    requires first { a.now.calls ≡ calls inst.now }
    requires second { b.now.calls ≡ calls inst.now }
{
    a.raw() == b.raw()
        && a.counts() == b.counts()
        && a.undecided() == b.undecided()
        && a.tight(inst) == b.tight(inst)
        && same_arcs(a, b)
        && same_forced_calls(a, b)
        && same_reasons(inst, a, b)
}

/// The root has six undecided arcs, and copies equal their sources.
#[test]
fn small_surface(rt: HostRuntime) -> Result<(), Fail> {
    let inst = two_calls(rt.alloc())?;
    let root = Context::root(rt.alloc(), &inst)?;
    assert_eq!(rt; root.undecided(), 6);
    assert!(rt; same_answers(&inst, &root, &root.copy()?));
    let limits = [Limit::Travels(0, 1), Limit::Avoids(1, 2), Limit::HasATour];
    let Ok(part) = region(rt.alloc(), &inst, &limits) else {
        return Err("no split".into());
    };
    let copy = part.copy()?;
    assert!(rt; copy.calls() == 2 && copy.is_used(0, 1) && copy.is_banned(1, 2));
    assert!(rt; same_answers(&inst, &part, &copy));
    Ok(())
}

/// The least and the most profit, the least and the most time.
type Sides = (u64, u64, u64, u64);

const fn sides(area: Box2) -> Sides {
    (area.p_lo, area.p_hi, area.t_lo, area.t_hi)
}

/// Limits, and the tight box of the part of all plans that keeps them.
const TIGHT_BOXES: &[(&[Limit], Option<Sides>)] = &[
    (&[], Some((0, 12, 0, 10))),
    (&[Limit::Travels(0, 1)], Some((0, 12, 3, 10))),
    (
        &[Limit::Travels(0, 1), Limit::Travels(1, 2)],
        Some((0, 12, 8, 10)),
    ),
    (
        &[Limit::Avoids(0, 1), Limit::Avoids(2, 1)],
        Some((0, 7, 0, 10)),
    ),
    (
        &[Limit::Travels(0, 2), Limit::Travels(2, 3)],
        Some((0, 12, 8, 10)),
    ),
    (&[Limit::HasNoTour], Some((0, 0, 0, 10))),
    (
        &[
            Limit::TakesAtMost(7),
            Limit::Travels(0, 1),
            Limit::Travels(1, 2),
        ],
        None,
    ),
];

#[test]
fn tight_boxes_of_two_calls(rt: HostRuntime) -> Result<(), Fail> {
    let inst = two_calls(rt.alloc())?;
    for (limits, expected) in TIGHT_BOXES {
        match region(rt.alloc(), &inst, limits) {
            Ok(context) => assert!(rt; context.tight(&inst).map(sides) == *expected),
            Err(_) => return Err("no split".into()),
        }
    }
    Ok(())
}

/// Reasons, and limits with which each holds. Without the last limit it doesn't.
const REASONS: &[(Reason, &[Limit])] = &[
    (Reason::NoBox, &[Limit::EarnsMore(0), Limit::HasNoTour]),
    (Reason::Cycle, &[Limit::Travels(1, 2), Limit::Travels(2, 1)]),
    (
        Reason::Late,
        &[
            Limit::Travels(0, 1),
            Limit::Travels(1, 2),
            Limit::Travels(2, 3),
        ],
    ),
    (
        Reason::Side,
        &[
            Limit::Travels(0, 1),
            Limit::Avoids(1, 2),
            Limit::Avoids(1, 3),
        ],
    ),
    (Reason::Many, &[Limit::Travels(0, 1), Limit::Travels(0, 2)]),
    (
        Reason::Few,
        &[Limit::HasATour, Limit::Avoids(0, 1), Limit::Avoids(0, 2)],
    ),
];

/// Whether the part of all plans that keeps the limits is stuck for the reason.
fn is_stuck(
    alloc: Global,
    inst: &Instance,
    limits: &[Limit],
    reason: Reason,
) -> Result<bool, Fail> {
    match region(alloc, inst, limits) {
        Ok(context) => Ok(context.stuck(inst, reason)),
        Err(_) => Err("no split".into()),
    }
}

#[test]
fn reasons_hit_and_missed(rt: HostRuntime) -> Result<(), Fail> {
    let inst = two_calls(rt.alloc())?;
    for (reason, limits) in REASONS {
        let fewer = limits.len().saturating_sub(1);
        assert!(rt; is_stuck(rt.alloc(), &inst, limits, *reason)?, "{reason:?}");
        assert!(rt;
            !is_stuck(rt.alloc(), &inst, &limits[..fewer], *reason)?,
            "{reason:?}"
        );
    }
    Ok(())
}
