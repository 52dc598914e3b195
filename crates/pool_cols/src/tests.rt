ghost use Rattle.std.specs.Prelude.{IfOk};
ghost use Rattle.orienteering.specs.Tour.{IsFeasibleTour};

use crate::Pool;
use fixed_num::Scale;
use orienteering::{Place, Point, Tour};
use site_model::{Instance, Parts, Places};
use std::alloc::Global;
use std::test::Fail;
use tour_check::tour_value;

fn spot(x: i64, y: i64, score: u32) -> Place {
    Place {
        x,
        y,
        score,
        service: 0,
        opening: 0,
        closing: 10,
    }
}

/// Two calls at distances 3 and 4 from the start, which is also the end, and 5 from each other.
fn triangle(alloc: Global) -> Result<Instance, Fail> {
    let mut places = Vec::new(alloc);
    places.push(spot(0, 0, 0))?;
    places.push(spot(30_000, 0, 5))?;
    places.push(spot(0, 40_000, 7))?;
    places.push(spot(0, 0, 0))?;
    let parts = Parts {
        scale: Scale::One,
        team: 1,
        places: Places::from_list(places),
    };
    Ok(Instance::new(alloc, parts)?)
}

/// The tour of one call, if it is feasible.
fn tour_of(alloc: Global, inst: &Instance, call: u32) -> Result<Tour, Fail>
    ensures { IfOk result (IsFeasibleTour inst.now) }
{
    let tour = Tour::from_calls(Vec::from_slice(alloc, &[call])?);
    match tour_value(alloc, inst, &tour) {
        Ok(_) => Ok(tour),
        Err(_) => Err("no tour".into()),
    }
}

#[test]
fn pool_and_prices(rt: HostRuntime) -> Result<(), Fail> {
    let alloc = rt.alloc();
    let inst = triangle(alloc)?;
    let mut pool = Pool::new(alloc)?;
    for (call, place) in [(1, 0), (2, 1), (1, 0)] {
        let tour = tour_of(alloc, &inst, call)?;
        assert_eq!(rt; pool.add(&inst, tour)?, place);
    }
    assert_eq!(rt; pool.len(), 2);
    for (place, call, profit, time) in [(0, 1, 5, 6), (1, 2, 7, 8)] {
        let Some((tour, point)) = pool.get(place) else {
            return Err("no tour at the place".into());
        };
        assert!(rt; tour.calls() == [call].as_slice());
        assert_eq!(rt; point, Point { profit, time });
    }
    assert!(rt; pool.get(2).is_none());
    Ok(())
}
