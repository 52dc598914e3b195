//! Moves of one call.

ghost use Rattle.std.specs.Prelude.{◌≡◌, ◌+◌, ◌*◌, ◌≤◌, ◌<◌, length, IfOk, MatchOption};
ghost use Rattle.std.specs.Bool.{OnTrue, OnFalse};
ghost use Rattle.orienteering.specs.Instance.{IsCall};
ghost use Rattle.orienteering.specs.Tour.{IsPlan, plan_time};
ghost use Rattle.insert_heur.specs.Places.{tour_at, spent_at};
ghost use Rattle.insert_heur.specs.Walk.{farthest, AreTours};
ghost use Rattle.insert_heur.specs.Improvement.{without_call, IsNoCheaper, IsNoCheaperInTour, IsNoCheaperAnywhere, IsCheaper, IsBetter, IsSettledFor, IsSwept, IsImproved};

use crate::tours::{copies, put_in, some_visits, tour_at, without_call};
use crate::travel::{total_travel, travel_at};
use crate::walk::time_with;
use orienteering::{Plan, Tour};
use site_model::Instance;
use std::alloc::{AllocError, Global};
use tour_check::{plan_point, plan_value};

/// A plan without one of its calls, which is to be put back elsewhere.
#[derive(Drop)]
struct Taken<'a> {
    inst: &'a Instance,
    /// The call that was taken out.
    call: u32,
    /// The tours without the call. One of them may be late.
    rest: &'a [Tour],
    /// What the rest travels.
    rest_time: u64,
    /// What the plan travels with the call.
    time: u64,
    ghost is_call: { IsCall inst.now call },
    ghost travelled: { rest_time ≡ plan_time inst.now rest.now },
    ghost within: { rest_time ≤ farthest * 32 },
}

/// Whether the call can save time at this place, as far as its tour alone tells. The other tours travel `others`.
fn may_save(taken: &Taken<'_>, tour: usize, position: usize, others: u64) -> bool
    requires tours { AreTours taken.now.inst.now taken.now.rest.now }
    requires tour { tour ≤ length taken.now.rest.now }
    requires position { position ≤ length (tour_at taken.now.rest.now tour) }
    requires others { others + spent_at taken.now.inst.now taken.now.rest.now tour ≡ taken.now.rest_time }
    requires within { others ≤ farthest * 32 }
    ensures { OnFalse result (IsNoCheaper taken.now.inst.now taken.now.time taken.now.rest.now taken.now.call tour position) }
{
    match time_with(taken.inst, tour_at(taken.rest, tour), position, taken.call) {
        Some(travelled) => others + travelled < taken.time,
        None => false,
    }
}

/// Whether it is a plan with less time.
fn is_cheaper(alloc: Global, inst: &Instance, time: u64, next: &Plan) -> bool
    ensures yes { OnTrue result (IsPlan inst.now next.now × (plan_time inst.now next.now < time)) }
    ensures no { OnFalse result (IsPlan inst.now next.now → time ≤ plan_time inst.now next.now) }
{
    match plan_value(alloc, inst, next) {
        Ok(point) => point.time < time,
        Err(_) => false,
    }
}

/// The plan with the call put back at this place, if it has less time.
fn cheaper_at(
    alloc: Global,
    taken: &Taken<'_>,
    tour: usize,
    position: usize,
    others: u64,
) -> Result<Option<Plan>, AllocError>
    requires tours { AreTours taken.now.inst.now taken.now.rest.now }
    requires tour { tour ≤ length taken.now.rest.now }
    requires position { position ≤ length (tour_at taken.now.rest.now tour) }
    requires others { others + spent_at taken.now.inst.now taken.now.rest.now tour ≡ taken.now.rest_time }
    requires within { others ≤ farthest * 32 }
    ensures { IfOk result (λ found.
        MatchOption found (IsNoCheaper taken.now.inst.now taken.now.time taken.now.rest.now taken.now.call tour position)
        (IsCheaper taken.now.inst.now taken.now.time taken.now.rest.now taken.now.call)) }
{
    if !may_save(taken, tour, position, others) {
        return Ok(None);
    }
    let mut tours = copies(alloc, taken.rest)?;
    put_in(alloc, &mut tours, tour, position, taken.call)?;
    let next = Plan::from_tours(tours);
    if is_cheaper(alloc, taken.inst, taken.time, &next) {
        Ok(Some(next))
    } else {
        Ok(None)
    }
}

/// The same for the first position of the tour at which it has less time.
fn cheaper_in_tour(
    alloc: Global,
    taken: &Taken<'_>,
    tour: usize,
) -> Result<Option<Plan>, AllocError>
    requires tours { AreTours taken.now.inst.now taken.now.rest.now }
    requires tour { tour ≤ length taken.now.rest.now }
    ensures { IfOk result (λ found.
        MatchOption found (IsNoCheaperInTour taken.now.inst.now taken.now.time taken.now.rest.now taken.now.call tour)
        (IsCheaper taken.now.inst.now taken.now.time taken.now.rest.now taken.now.call)) }
{
    let others = taken.rest_time - travel_at(taken.inst, taken.rest, tour);
    let places = tour_at(taken.rest, tour).len();
    prove!(places < usize::MAX);
    for position in 0..places + 1 {
        if let Some(next) = cheaper_at(alloc, taken, tour, position, others)? {
            return Ok(Some(next));
        }
    }
    Ok(None)
}

/// The same for the first tour, the new one included.
fn cheaper_anywhere(alloc: Global, taken: &Taken<'_>) -> Result<Option<Plan>, AllocError>
    requires tours { AreTours taken.now.inst.now taken.now.rest.now }
    ensures { IfOk result (λ found.
        MatchOption found (IsNoCheaperAnywhere taken.now.inst.now taken.now.time taken.now.rest.now taken.now.call)
        (IsCheaper taken.now.inst.now taken.now.time taken.now.rest.now taken.now.call)) }
{
    let tours = taken.rest.len();
    prove!(tours < usize::MAX);
    for tour in 0..tours + 1 {
        if let Some(next) = cheaper_in_tour(alloc, taken, tour)? {
            return Ok(Some(next));
        }
    }
    Ok(None)
}

/// A plan with less time, made by moving this call, if there is one.
fn cheaper_with(
    alloc: Global,
    inst: &Instance,
    plan: &Plan,
    time: u64,
    call: u32,
) -> Result<Option<Plan>, AllocError>
    requires plan { IsPlan inst.now plan.now }
    requires call { IsCall inst.now call }
    ensures { IfOk result (λ found.
        MatchOption found (IsNoCheaperAnywhere inst.now time (without_call plan.now call) call)
        (IsCheaper inst.now time (without_call plan.now call) call)) }
{
    let rest = without_call(alloc, plan.tours(), call)?;
    let _calls = inst.calls();
    let taken = Taken {
        inst,
        call,
        rest: rest.as_slice(),
        rest_time: total_travel(inst, rest.as_slice()),
        time,
    };
    cheaper_anywhere(alloc, &taken)
}

/// A plan with the same calls and less time, made by moving this call, if there is one.
fn cheaper_by(
    alloc: Global,
    inst: &Instance,
    plan: &Plan,
    time: u64,
    call: u32,
) -> Result<Option<Plan>, AllocError>
    requires plan { IsPlan inst.now plan.now }
    requires time { time ≡ plan_time inst.now plan.now }
    requires call { IsCall inst.now call }
    ensures { IfOk result (λ found.
        MatchOption found (IsSettledFor inst.now plan.now call) (IsBetter inst.now plan.now)) }
{
    if some_visits(plan.tours(), call) {
        cheaper_with(alloc, inst, plan, time, call)
    } else {
        Ok(None)
    }
}

/// A plan after each of its calls was tried in turn.
#[derive(Drop)]
struct Swept {
    plan: Plan,
    /// Some move saved time.
    better: bool,
}

/// Tries to move each call in turn, and keeps each move that saves time.
fn sweep(alloc: Global, inst: &Instance, plan: Plan) -> Result<Swept, AllocError>
    requires { IsPlan inst.now plan }
    ensures { IfOk result (λ swept. IsSwept inst.now plan swept.plan swept.better) }
{
    let mut best = plan;
    let mut time = plan_point(inst, &best).time;
    let mut better = false;
    for call in 1..inst.calls() + 1 {
        if let Some(next) = cheaper_by(alloc, inst, &best, time, call)? {
            time = plan_point(inst, &next).time;
            best = next;
            better = true;
        }
    }
    Ok(Swept { plan: best, better })
}

/// A plan with the same calls and no more time, in which no move of one call saves time: the call may go to another place
/// of its tour, into another tour, or into a tour of its own where a member is left, and a tour left empty is dropped.
pub fn improve_plan(alloc: Global, inst: &Instance, plan: Plan) -> Result<Plan, AllocError>
    requires { IsPlan inst.now plan }
    ensures { IfOk result (IsImproved inst.now plan) }
{
    let mut best = plan;
    loop {
        let swept = sweep(alloc, inst, best)?;
        best = swept.plan;
        if !swept.better {
            return Ok(best);
        }
    }
}
