ghost use Rattle.std.specs.Prelude.{IfOk};
ghost use Rattle.orienteering.specs.Tour.{IsPlan};

use crate::{Weight, build, improve_plan, many_starts};
use fixed_num::Scale;
use orienteering::{Place, Plan, Point, Tour};
use site_model::{Instance, Parts, Places};
use std::alloc::Global;
use std::test::Fail;
use tour_check::plan_value;

fn spot(x: i64, y: i64, score: u32, limit: u64) -> Place {
    Place {
        x,
        y,
        score,
        service: 0,
        opening: 0,
        closing: limit,
    }
}

/// Two calls at distances 3 and 4 from the start, which is also the end, and 5 from each other.
fn triangle(alloc: Global, limit: u64, team: u32) -> Result<Instance, Fail> {
    let mut places = Vec::new(alloc);
    places.push(spot(0, 0, 0, limit))?;
    places.push(spot(30_000, 0, 5, limit))?;
    places.push(spot(0, 40_000, 7, limit))?;
    places.push(spot(0, 0, 0, limit))?;
    let parts = Parts {
        scale: Scale::One,
        team,
        places: Places::from_list(places),
    };
    Ok(Instance::new(alloc, parts)?)
}

/// Whether the plan has these tours, in this order.
fn has_tours(plan: &Plan, tours: &[&[u32]]) -> bool {
    let mut same = plan.tours().len() == tours.len();
    for (tour, calls) in plan.tours().iter().zip(tours) {
        same = same && tour.calls() == *calls;
    }
    same
}

const PROFIT: Weight = Weight { alpha: 1, beta: 0 };

#[test]
fn insertion_of_two_calls(rt: HostRuntime) -> Result<(), Fail> {
    let alloc = rt.alloc();
    let inst = triangle(alloc, 10, 1)?;
    for (seed, call) in [(0, 1), (1, 2)] {
        let plan = build(alloc, &inst, seed, PROFIT)?;
        assert!(rt; has_tours(&plan, &[&[call]]), "seed {seed}");
    }
    for workers in [1, 2, 16] {
        let plans = many_starts(&rt, alloc, &inst, &[0, 1], PROFIT, workers)?;
        assert_eq!(rt; plans.len(), 2);
        assert!(rt; has_tours(&plans[0], &[&[1]]), "{workers} workers");
        assert!(rt; has_tours(&plans[1], &[&[2]]), "{workers} workers");
    }
    Ok(())
}

/// The plan of these tours.
fn plan(alloc: Global, inst: &Instance, tours: &[&[u32]]) -> Result<Plan, Fail>
    ensures { IfOk result (IsPlan inst.now) }
{
    let mut list = Vec::new(alloc);
    for calls in tours {
        list.push(Tour::from_calls(Vec::from_slice(alloc, calls)?))?;
    }
    let plan = Plan::from_tours(list);
    match plan_value(alloc, inst, &plan) {
        Ok(_) => Ok(plan),
        Err(_) => Err("no plan".into()),
    }
}

#[test]
fn two_tours_made_one(rt: HostRuntime) -> Result<(), Fail> {
    let alloc = rt.alloc();
    let inst = triangle(alloc, 12, 2)?;
    let better = improve_plan(alloc, &inst, plan(alloc, &inst, &[&[1], &[2]])?)?;
    assert_eq!(rt; better.tours().len(), 1);
    assert_eq!(rt; better.tours()[0].calls().len(), 2);
    let reached = Point {
        profit: 12,
        time: 12,
    };
    assert!(rt; plan_value(alloc, &inst, &better) == Ok(reached));
    Ok(())
}
