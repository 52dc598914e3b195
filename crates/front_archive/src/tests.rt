ghost use Rattle.std.specs.Prelude.{IfOk};
ghost use Rattle.orienteering.specs.Tour.{IsPlan};

use crate::{Added, Archive};
use fixed_num::Scale;
use orienteering::{Place, Plan, Point, Tour};
use site_model::{Instance, Parts, Places};
use std::alloc::Global;
use std::test::Fail;
use tour_check::plan_value;

fn spot(x: i64, y: i64, score: u32, closing: u64) -> Place {
    Place {
        x,
        y,
        score,
        service: 0,
        opening: 0,
        closing,
    }
}

/// Two calls at distances 3 and 4 from the start, which is also the end, and 5 from each other.
fn triangle(alloc: Global, limit: u64, team: u32) -> Result<Instance, Fail> {
    let mut places = Vec::new(alloc);
    places.push(spot(0, 0, 0, limit))?;
    places.push(spot(30_000, 0, 5, limit))?;
    places.push(spot(0, 40_000, 7, limit))?;
    places.push(spot(0, 0, 0, limit))?;
    let parts = Parts {
        scale: Scale::One,
        team,
        places: Places::from_list(places),
    };
    Ok(Instance::new(alloc, parts)?)
}

/// The plan of these tours.
fn plan(alloc: Global, inst: &Instance, tours: &[&[u32]]) -> Result<Plan, Fail>
    ensures { IfOk result (IsPlan inst.now) }
{
    let mut list = Vec::new(alloc);
    for calls in tours {
        list.push(Tour::from_calls(Vec::from_slice(alloc, calls)?))?;
    }
    let plan = Plan::from_tours(list);
    match plan_value(alloc, inst, &plan) {
        Ok(_) => Ok(plan),
        Err(_) => Err("no plan".into()),
    }
}

const fn point(profit: u64, time: u64) -> Point {
    Point { profit, time }
}

#[test]
fn archive_of_three_plans(rt: HostRuntime) -> Result<(), Fail> {
    let alloc = rt.alloc();
    let inst = triangle(alloc, 10, 1)?;
    let mut archive = Archive::new(alloc);
    for (tours, added) in [
        ([[1].as_slice()].as_slice(), Added::New),
        ([[2].as_slice()].as_slice(), Added::New),
        ([[1].as_slice()].as_slice(), Added::Covered),
        ([].as_slice(), Added::New),
    ] {
        let plan = plan(alloc, &inst, tours)?;
        assert_eq!(rt; archive.insert(&inst, plan)?, added);
    }
    assert_eq!(rt; archive.points().len(), 3);
    assert_eq!(rt; archive.points()[0].point, point(0, 0));
    assert_eq!(rt; archive.points()[1].point, point(5, 6));
    assert_eq!(rt; archive.points()[2].point, point(7, 8));
    for (asked, covered) in [
        (point(6, 8), true),
        (point(5, 6), true),
        (point(5, 5), false),
        (point(8, 90), false),
    ] {
        assert_eq!(rt; archive.covers(asked), covered);
    }
    Ok(())
}

#[test]
fn dominated_plan_given_up(rt: HostRuntime) -> Result<(), Fail> {
    let alloc = rt.alloc();
    let inst = triangle(alloc, 12, 2)?;
    let mut archive = Archive::new(alloc);
    for (tours, reached) in [
        ([[1].as_slice(), [2].as_slice()].as_slice(), point(12, 14)),
        ([[1, 2].as_slice()].as_slice(), point(12, 12)),
    ] {
        let plan = plan(alloc, &inst, tours)?;
        assert_eq!(rt; archive.insert(&inst, plan)?, Added::New);
        assert_eq!(rt; archive.points().len(), 1);
        assert_eq!(rt; archive.points()[0].point, reached);
    }
    Ok(())
}
