//! A way to go on with any region: an undecided arc, a reason why no plan agrees, or the plan of the used arcs.

ghost use Rattle.std.specs.Prelude.{◌≡◌, ◌+◌, ◌≤◌, ℕ, List, IfNone, IfOk, IfSome, IsTrue, false};
ghost use Rattle.orienteering.specs.Instance.{Problem, calls};
ghost use Rattle.orienteering.specs.Region.{is_undecided, is_used, IsRealised, IsStuck};
ghost use Rattle.region_ctx.specs.Links.{AreSingle};
ghost use Rattle.sweep_solver.specs.UsedTours.{IsUsedTour};

use orienteering::{Plan, Reason, Tour};
use region_ctx::Context;
use site_model::Instance;
use std::alloc::{AllocError, Global};

/// The first place to which an undecided arc leads from this one.
fn undecided_after(ctx: &Context, from: u32) -> Option<u32>
    ensures some { IfSome result (λ to. IsTrue (is_undecided ctx.now from to)) }
    ensures none { IfNone result ((to : ℕ) → is_undecided ctx.now from to ≡ false) }
{
    for to in 1..ctx.calls() + 2 {
        if ctx.is_undecided(from, to) {
            return Some(to);
        }
    }
    None
}

/// The first undecided arc, by the place that it leaves and then by the place that it enters.
pub(crate) fn undecided_arc(ctx: &Context) -> Option<(u32, u32)>
    ensures some { IfSome result (λ a. IsTrue (is_undecided ctx.now a.0 a.1)) }
    ensures none { IfNone result ((i j : ℕ) → is_undecided ctx.now i j ≡ false) }
{
    for from in 0..ctx.calls() + 1 {
        if let Some(to) = undecided_after(ctx, from) {
            return Some((from, to));
        }
    }
    None
}

/// The first reason, if there is one, why no plan belongs to the region.
pub(crate) fn stuck_reason(inst: &Instance, ctx: &Context) -> Option<Reason>
    requires { ctx.now.calls ≡ calls inst.now }
    ensures some { IfSome result (λ why. IsStuck inst.now ctx.now why) }
    ensures none { IfNone result ((why : Reason) → IsStuck inst.now ctx.now why → ⊥) }
{
    if ctx.stuck(inst, Reason::NoBox) {
        return Some(Reason::NoBox);
    }
    if ctx.stuck(inst, Reason::Many) {
        return Some(Reason::Many);
    }
    if ctx.stuck(inst, Reason::Few) {
        return Some(Reason::Few);
    }
    if ctx.stuck(inst, Reason::Side) {
        return Some(Reason::Side);
    }
    if ctx.stuck(inst, Reason::Cycle) {
        return Some(Reason::Cycle);
    }
    if ctx.stuck(inst, Reason::Late) {
        return Some(Reason::Late);
    }
    None
}

/// The place that the used arc out of a call enters. The end stands for none.
fn next_used(ctx: &Context, from: u32) -> u32
    requires low { 1 ≤ from }
    requires high { from ≤ ctx.now.calls }
    ensures low { 1 ≤ result }
    ensures high { result ≤ ctx.now.calls + 1 }
    ensures used { (to : ℕ) → IsTrue (is_used ctx.now from to) → to ≡ result }
{
    let calls = ctx.calls();
    for to in 1..calls + 1 {
        if ctx.is_used(from, to) {
            return to;
        }
    }
    calls + 1
}

/// The calls along used arcs from a first call to the end, where they lead there.
fn tour_from(alloc: Global, ctx: &Context, first: u32) -> Result<Tour, AllocError>
    requires low { 1 ≤ first }
    requires high { first ≤ ctx.now.calls }
    ensures { IfOk result (λ tour. (used : List ℕ) → IsUsedTour ctx.now first used → tour ≡ used) }
{
    let n = ctx.calls();
    let mut calls = Vec::new(alloc);
    let mut place = first;
    while calls.len() < n as usize {
        if place > n {
            return Ok(Tour::from_calls(calls));
        }
        calls.push(place)?;
        place = next_used(ctx, place);
    }
    Ok(Tour::from_calls(calls))
}

/// The plan of the used arcs, where they are the arcs of a plan.
pub(crate) fn plan_of_used_arcs(
    alloc: Global,
    inst: &Instance,
    ctx: &Context,
) -> Result<Plan, AllocError>
    requires { ctx.now.calls ≡ calls inst.now }
    ensures { IfOk result (λ plan. (realised : List (List ℕ)) → IsRealised inst.now ctx.now realised →
        IsRealised inst.now ctx.now plan) }
{
    let mut tours = Vec::new(alloc);
    for first in 1..ctx.calls() + 1 {
        if ctx.is_used(0, first) {
            tours.push(tour_from(alloc, ctx, first)?)?;
        }
    }
    Ok(Plan::from_tours(tours))
}
