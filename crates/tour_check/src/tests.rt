use crate::{plan_value, tour_value};
use fixed_num::Scale;
use orienteering::{Place, Plan, PlanRefusal, Point, Tour, TourRefusal};
use site_model::{Instance, Parts, PartsRefusal, Places};
use std::alloc::Global;
use std::test::Fail;

fn spot(x: i64, y: i64, score: u32, closing: u64) -> Place {
    Place {
        x,
        y,
        score,
        service: 0,
        opening: 0,
        closing,
    }
}

fn tour(alloc: Global, calls: &[u32]) -> Result<Tour, Fail> {
    Ok(Tour::from_calls(Vec::from_slice(alloc, calls)?))
}

/// Two calls at distances 3 and 4 from the start, which is also the end, and 5 from each other.
fn triangle(alloc: Global, limit: u64, team: u32) -> Result<Instance, Fail> {
    let mut places = Vec::new(alloc);
    places.push(spot(0, 0, 0, limit))?;
    places.push(spot(30_000, 0, 5, limit))?;
    places.push(spot(0, 40_000, 7, limit))?;
    places.push(spot(0, 0, 0, limit))?;
    let parts = Parts {
        scale: Scale::One,
        team,
        places: Places::from_list(places),
    };
    Ok(Instance::new(alloc, parts)?)
}

/// Two calls with windows and a service of 90.0 each, at scale 10; the first closes at `closing`.
fn windows(alloc: Global, closing: u64) -> Result<Instance, Fail> {
    let mut depot = spot(400_000, 500_000, 0, 12_360);
    let mut places = Vec::new(alloc);
    places.push(depot)?;
    for (x, y, score, opening, until) in [
        (450_000, 680_000, 10, 9_120, closing),
        (450_000, 700_000, 30, 8_250, 8_700),
    ] {
        places.push(Place {
            x,
            y,
            score,
            service: 900,
            opening,
            closing: until,
        })?;
    }
    depot.opening = 0;
    places.push(depot)?;
    let parts = Parts {
        scale: Scale::Ten,
        team: 1,
        places: Places::from_list(places),
    };
    Ok(Instance::new(alloc, parts)?)
}

#[test]
fn limit_reached_exactly(rt: HostRuntime) -> Result<(), Fail> {
    let alloc = rt.alloc();
    let both = tour(alloc, &[1, 2])?;
    let reached = Point {
        profit: 12,
        time: 12,
    };
    assert!(rt; tour_value(alloc, &triangle(alloc, 12, 1)?, &both) == Ok(reached));
    assert!(rt; tour_value(alloc, &triangle(alloc, 11, 1)?, &both) == Err(TourRefusal::Late(3)));
    Ok(())
}

#[test]
fn windows_and_decimals(rt: HostRuntime) -> Result<(), Fail> {
    let alloc = rt.alloc();
    let (later_first, earlier_first) = (tour(alloc, &[2, 1])?, tour(alloc, &[1, 2])?);
    let reached = Point {
        profit: 40,
        time: 412,
    };
    assert!(rt; tour_value(alloc, &windows(alloc, 9_670)?, &later_first) == Ok(reached));
    assert!(rt; tour_value(alloc, &windows(alloc, 9_170)?, &later_first) == Ok(reached));
    assert!(rt;
        tour_value(alloc, &windows(alloc, 9_169)?, &later_first) == Err(TourRefusal::Late(1))
    );
    assert!(rt;
        tour_value(alloc, &windows(alloc, 9_670)?, &earlier_first) == Err(TourRefusal::Late(2))
    );
    Ok(())
}

#[test]
fn first_violated_parts(rt: HostRuntime) -> Result<(), Fail> {
    let alloc = rt.alloc();
    let inst = triangle(alloc, 12, 2)?;
    for (calls, why) in [
        ([].as_slice(), TourRefusal::Empty),
        ([0].as_slice(), TourRefusal::UnknownCall(0)),
        ([1, 3].as_slice(), TourRefusal::UnknownCall(3)),
        ([1, 1].as_slice(), TourRefusal::Repeat(1)),
        ([1, 2, 1].as_slice(), TourRefusal::Repeat(1)),
    ] {
        assert!(rt; tour_value(alloc, &inst, &tour(alloc, calls)?) == Err(why));
    }
    Ok(())
}

#[test]
fn call_shared_by_two_tours(rt: HostRuntime) -> Result<(), Fail> {
    let alloc = rt.alloc();
    let inst = triangle(alloc, 10, 2)?;
    let mut tours = Vec::new(alloc);
    tours.push(tour(alloc, &[1])?)?;
    tours.push(tour(alloc, &[1])?)?;
    let shared = PlanRefusal::Shared { tour: 2, call: 1 };
    assert!(rt; plan_value(alloc, &inst, &Plan::from_tours(tours)) == Err(shared));
    let nothing = Point { profit: 0, time: 0 };
    assert!(rt; plan_value(alloc, &inst, &Plan::from_tours(Vec::new(alloc))) == Ok(nothing));
    Ok(())
}

/// One place is too few for an instance, and copies equal their sources.
#[test]
fn small_surface(rt: HostRuntime) -> Result<(), Fail> {
    let alloc = rt.alloc();
    let one = Parts {
        scale: Scale::One,
        team: 1,
        places: Places::from_list(Vec::from_slice(alloc, &[spot(0, 0, 0, 10)])?),
    };
    assert!(rt; matches!(Instance::new(alloc, one), Err(PartsRefusal::TooFew)));

    let both = tour(alloc, &[1, 2])?;
    assert!(rt; both.copy(alloc)?.calls() == [1, 2].as_slice());
    let mut tours = Vec::new(alloc);
    tours.push(both)?;
    let plan = Plan::from_tours(tours).copy(alloc)?;
    assert_eq!(rt; plan.tours().len(), 1);
    assert!(rt; plan.tours()[0].calls() == [1, 2].as_slice());
    Ok(())
}
