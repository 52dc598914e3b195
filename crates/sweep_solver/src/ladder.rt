//! Plans by a ladder of weights of profit, from dear to cheap travel. Each plan is taken apart call by call, and what is left is
//! improved again.

ghost use Rattle.std.specs.Prelude.{◌≤◌};
ghost use Rattle.orienteering.specs.Price.{most_weight};

use crate::learned::improved;
use crate::regions::Regions;
use insert_heur::{Weight, build};
use orienteering::{Box2, Plan, Tour};
use site_model::Instance;
use std::alloc::{AllocError, Global};

/// How many weights there are, each half the one before.
const RUNGS: u32 = 10;

/// How many visits a plan may have that is taken apart.
const MOST_VISITS: usize = 100;

const MOST_WEIGHT: u64 = 1_000_000_000;

fn fit_weight(value: u64) -> u32
    ensures { result ≤ most_weight }
{
    value.clamp(1, MOST_WEIGHT) as u32
}

/// A visit of a plan, with what it costs.
#[derive(Clone, Copy, Debug, PartialEq, Eq)]
struct Visit {
    tour: usize,
    place: usize,
    /// The time that is saved without it.
    time: u64,
    /// At least 1.
    score: u64,
}

impl Visit {
    /// Whether it takes more time for its score.
    fn is_dearer(self, other: Visit) -> bool {
        self.time.saturating_mul(other.score) > other.time.saturating_mul(self.score)
    }
}

fn length(inst: &Instance, from: u32, to: u32) -> u64 {
    let end = inst.calls() + 1;
    if from <= end && to <= end {
        inst.length(from, to)
    } else {
        0
    }
}

fn score(inst: &Instance, call: u32) -> u64 {
    if call <= inst.calls() {
        u64::from(inst.score(call)).max(1)
    } else {
        1
    }
}

/// The time that the tour saves without the call at a place.
fn saving(inst: &Instance, calls: &[u32], place: usize) -> u64 {
    let end = inst.calls() + 1;
    let before = match place.checked_sub(1) {
        Some(before) => calls.get(before).copied().unwrap_or(0),
        None => 0,
    };
    let call = calls.get(place).copied().unwrap_or(end);
    let after = calls.get(place.saturating_add(1)).copied().unwrap_or(end);
    let with = length(inst, before, call).saturating_add(length(inst, call, after));
    if calls.len() < 2 {
        with
    } else {
        with.saturating_sub(length(inst, before, after))
    }
}

/// The dearest visit of a tour, if it is dearer than the dearest so far.
fn dearest_of_tour(
    inst: &Instance,
    calls: &[u32],
    tour: usize,
    so_far: Option<Visit>,
) -> Option<Visit> {
    let mut dearest = so_far;
    for (place, call) in calls.iter().enumerate() {
        let visit = Visit {
            tour,
            place,
            time: saving(inst, calls, place),
            score: score(inst, *call),
        };
        let is_dearest = match dearest {
            None => true,
            Some(most) => visit.is_dearer(most),
        };
        if is_dearest {
            dearest = Some(visit);
        }
    }
    dearest
}

/// The visit that takes the most time for its score.
fn dearest(inst: &Instance, plan: &Plan) -> Option<Visit> {
    let mut dearest = None;
    for (tour, visited) in plan.tours().iter().enumerate() {
        dearest = dearest_of_tour(inst, visited.calls(), tour, dearest);
    }
    dearest
}

/// The tour without the call at a place.
fn without_place(alloc: Global, calls: &[u32], place: usize) -> Result<Tour, AllocError> {
    let mut rest = Vec::new(alloc);
    for (at, call) in calls.iter().enumerate() {
        if at != place {
            rest.push(*call)?;
        }
    }
    Ok(Tour::from_calls(rest))
}

/// The plan without a visit. A tour that is left without calls is dropped.
fn without(alloc: Global, plan: &Plan, visit: Visit) -> Result<Plan, AllocError> {
    let mut tours = Vec::new(alloc);
    for (place, tour) in plan.tours().iter().enumerate() {
        if place != visit.tour {
            tours.push(tour.copy(alloc)?)?;
        } else if tour.calls().len() > 1 {
            tours.push(without_place(alloc, tour.calls(), visit.place)?)?;
        }
    }
    Ok(Plan::from_tours(tours))
}

/// The plan without its dearest visit, improved, where one is left and it is a plan. A plan of many visits is left as it is.
pub(crate) fn lightened(
    alloc: Global,
    regions: &Regions<'_>,
    plan: &Plan,
) -> Result<Option<Plan>, AllocError> {
    let visits: usize = plan.tours().iter().fold(
        0,
        |sum: usize, tour| sum.saturating_add(tour.calls().len()),
    );
    if visits > MOST_VISITS {
        return Ok(None);
    }
    let Some(visit) = dearest(regions.inst, plan) else {
        return Ok(None);
    };
    let rest = without(alloc, plan, visit)?;
    if rest.tours().is_empty() {
        return Ok(None);
    }
    improved(alloc, regions, &rest)
}

/// An improved insertion plan of each weight, from the greatest weight of profit on.
pub(crate) fn ladder(
    alloc: Global,
    regions: &Regions<'_>,
    root: Box2,
) -> Result<Vec<Plan>, AllocError> {
    let mut plans = Vec::new(alloc);
    let mut alpha = root.t_hi.saturating_mul(8);
    for _ in 0..RUNGS {
        let weight = Weight {
            alpha: fit_weight(alpha),
            beta: fit_weight(root.p_hi),
        };
        let plan = build(alloc, regions.inst, 0, weight)?;
        if let Some(plan) = improved(alloc, regions, &plan)? {
            plans.push(plan)?;
        }
        alpha /= 2;
    }
    Ok(plans)
}
