//! What a search has learned: tours, and points with their plans.

use crate::regions::Regions;
use front_archive::Archive;
use insert_heur::improve_plan;
use orienteering::{Listed, Plan, Point, Tour};
use pool_cols::Pool;
use region_ctx::Context;
use std::alloc::{AllocError, Global};
use tour_check::{plan_value, tour_value};

/// The points of an archive and those that were found since, with the plans of these.
#[derive(Drop)]
pub(crate) struct Learned {
    /// By rising profit and time.
    pub points: Vec<Point>,
    pub plans: Vec<Plan>,
}

/// Whether one of the points, which rise in profit and time, weakly dominates the point.
fn is_covered(points: &[Point], point: Point) -> bool {
    let poorer = points.partition_point(|held| held.profit < point.profit);
    points
        .get(poorer)
        .is_some_and(|held| held.time <= point.time)
}

impl Learned {
    /// The points of the archive.
    pub fn of(alloc: Global, archive: &Archive) -> Result<Learned, AllocError> {
        let mut points = Vec::new(alloc);
        for listed in archive.points() {
            points.push(listed.point)?;
        }
        Ok(Learned {
            points,
            plans: Vec::new(alloc),
        })
    }

    pub fn covers(&self, point: Point) -> bool {
        is_covered(self.points.as_slice(), point)
    }

    /// Keeps the list of tours where it is a plan and no point so far weakly dominates its point.
    pub fn learn_plan(
        &mut self,
        alloc: Global,
        regions: &Regions<'_>,
        plan: &Plan,
    ) -> Result<(), AllocError> {
        match plan_value(alloc, regions.inst, plan) {
            Ok(point) if !self.covers(point) => {
                let copy = plan.copy(alloc)?;
                self.keep(alloc, point, copy)
            }
            _ => Ok(()),
        }
    }

    /// Keeps a plan with its point, which no point so far dominates.
    fn keep(&mut self, alloc: Global, point: Point, plan: Plan) -> Result<(), AllocError> {
        let mut points = Vec::new(alloc);
        let mut is_in = false;
        for held in self.points.iter() {
            if held.profit <= point.profit && point.time <= held.time {
                continue;
            }
            if !is_in && point.profit < held.profit {
                points.push(point)?;
                is_in = true;
            }
            points.push(*held)?;
        }
        if !is_in {
            points.push(point)?;
        }
        self.points = points;
        self.plans.push(plan)?;
        Ok(())
    }
}

/// Whether no call is visited by both.
fn are_disjoint(a: &Tour, b: &Tour) -> bool {
    !a.calls().iter().any(|call| b.calls().contains(call))
}

fn sum(a: Point, b: Point) -> Point {
    Point {
        profit: a.profit.saturating_add(b.profit),
        time: a.time.saturating_add(b.time),
    }
}

/// The tour alone, unless a point dominates it.
fn keep_tour(
    alloc: Global,
    tour: &Tour,
    point: Point,
    learned: &mut Learned,
) -> Result<(), AllocError> {
    if learned.covers(point) {
        return Ok(());
    }
    let mut tours = Vec::new(alloc);
    tours.push(tour.copy(alloc)?)?;
    learned.keep(alloc, point, Plan::from_tours(tours))
}

/// Joins the tour with the listed plans that leave a member and its calls free.
fn join_listed(
    alloc: Global,
    team: u32,
    listed: &[Listed],
    tour: &Tour,
    point: Point,
    learned: &mut Learned,
) -> Result<(), AllocError> {
    for entry in listed {
        let others = entry.plan.tours();
        let joined = sum(entry.point, point);
        if others.len() as u64 >= u64::from(team)
            || learned.covers(joined)
            || !others.iter().all(|other| are_disjoint(other, tour))
        {
            continue;
        }
        let mut tours = Vec::new(alloc);
        for other in others {
            tours.push(other.copy(alloc)?)?;
        }
        tours.push(tour.copy(alloc)?)?;
        learned.keep(alloc, joined, Plan::from_tours(tours))?;
    }
    Ok(())
}

/// Joins the tour with the tours of the pool that leave its calls free.
fn join_pool(
    alloc: Global,
    pool: &Pool,
    tour: &Tour,
    point: Point,
    learned: &mut Learned,
) -> Result<(), AllocError> {
    for place in 0..pool.len() {
        if let Some((other, value)) = pool.get(place) {
            let joined = sum(value, point);
            if learned.covers(joined) || !are_disjoint(other, tour) {
                continue;
            }
            let mut tours = Vec::new(alloc);
            tours.push(other.copy(alloc)?)?;
            tours.push(tour.copy(alloc)?)?;
            learned.keep(alloc, joined, Plan::from_tours(tours))?;
        }
    }
    Ok(())
}

/// Puts the tour into the pool, and the plans that it makes possible to what was learned. Answers whether it is a new tour.
pub(crate) fn learn(
    alloc: Global,
    regions: &Regions<'_>,
    archive: &Archive,
    pool: &mut Pool,
    learned: &mut Learned,
    tour: Tour,
) -> Result<bool, AllocError> {
    let Ok(point) = tour_value(alloc, regions.inst, &tour) else {
        return Ok(false);
    };
    let copy = tour.copy(alloc)?;
    let before = pool.len();
    pool.add(regions.inst, copy)?;
    if pool.len() == before {
        return Ok(false);
    }
    keep_tour(alloc, &tour, point, learned)?;
    if regions.inst.team() > 1 {
        join_listed(
            alloc,
            regions.inst.team(),
            archive.points(),
            &tour,
            point,
            learned,
        )?;
        join_pool(alloc, pool, &tour, point, learned)?;
    }
    Ok(true)
}

/// The plan after moves of single calls that save time, where it is a plan.
pub(crate) fn improved(
    alloc: Global,
    regions: &Regions<'_>,
    plan: &Plan,
) -> Result<Option<Plan>, AllocError> {
    let copy = plan.copy(alloc)?;
    match plan_value(alloc, regions.inst, &copy) {
        Err(_) => Ok(None),
        Ok(_) => Ok(Some(improve_plan(alloc, regions.inst, copy)?)),
    }
}

/// Whether no arc of the tour is shut.
pub(crate) fn is_open_tour(ctx: &Context, calls: &[u32]) -> bool {
    let mut from = 0;
    for call in calls {
        if !ctx.is_open(from, *call) {
            return false;
        }
        from = *call;
    }
    ctx.is_open(from, ctx.calls() + 1)
}

/// The places of the pool's tours without a shut arc.
pub(crate) fn open_places(
    alloc: Global,
    pool: &Pool,
    ctx: &Context,
) -> Result<Vec<u64>, AllocError> {
    let mut places = Vec::new(alloc);
    for place in 0..pool.len() {
        if let Some((tour, _)) = pool.get(place) {
            if is_open_tour(ctx, tour.calls()) {
                places.push(place)?;
            }
        }
    }
    Ok(places)
}
