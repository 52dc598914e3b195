//! Walks along the places of a tour with one call more.

ghost use Rattle.std.specs.Prelude.{◌≡◌, ◌≤◌, length, IfSome};
ghost use Rattle.std.specs.List.{AllByRecursion, insert};
ghost use Rattle.orienteering.specs.Instance.{IsCall, end_place};
ghost use Rattle.orienteering.specs.Limits.{latest};
ghost use Rattle.insert_heur.specs.Walk.{stepped, walked, time_of};

use site_model::Instance;

/// A member on the way: the place, the clock there, and the travel so far, both in scaled units.
#[derive(Clone, Copy, Drop)]
pub struct Standing {
    pub place: u32,
    pub clock: u64,
    pub travelled: u64,
}

/// One step further, unless it is late.
fn step(inst: &Instance, from: Standing, place: u32) -> Option<Standing>
    requires from { from.place ≤ end_place inst.now }
    requires now { from.clock ≤ latest }
    requires spent { from.travelled ≤ from.clock }
    requires to { place ≤ end_place inst.now }
    ensures value { result ≡ stepped inst.now from place }
    ensures spent { IfSome result (λ s. s.travelled ≤ s.clock) }
    ensures within { IfSome result (λ s. s.clock ≤ latest) }
{
    let clock = inst.clock_step(from.clock, from.place, place)?;
    Some(Standing {
        place,
        clock,
        travelled: from.travelled + inst.length(from.place, place),
    })
}

/// The walk along these calls, unless a step is late.
fn walk(inst: &Instance, from: Standing, calls: &[u32]) -> Option<Standing>
    requires from { from.place ≤ end_place inst.now }
    requires now { from.clock ≤ latest }
    requires spent { from.travelled ≤ from.clock }
    requires calls { AllByRecursion (IsCall inst.now) calls.now }
    ensures value { result ≡ walked inst.now from calls.now }
    ensures place { IfSome result (λ s. s.place ≤ end_place inst.now) }
    ensures spent { IfSome result (λ s. s.travelled ≤ s.clock) }
    ensures within { IfSome result (λ s. s.clock ≤ latest) }
{
    let mut standing = from;
    for call in calls {
        standing = step(inst, standing, *call)?;
    }
    Some(standing)
}

/// The travel of the tour with the call put in, unless a step is late. It takes no memory, and no other tour is looked at.
pub fn time_with(inst: &Instance, tour: &[u32], position: usize, call: u32) -> Option<u64>
    requires tour { AllByRecursion (IsCall inst.now) tour.now }
    requires call { IsCall inst.now call }
    requires position { position ≤ length tour.now }
    ensures value { result ≡ time_of inst.now (insert tour.now position call) }
    ensures within { IfSome result (λ time. time ≤ latest) }
{
    let start = Standing {
        place: 0,
        clock: inst.opening(0),
        travelled: 0,
    };
    let reached = walk(inst, start, &tour[..position])?;
    let visited = step(inst, reached, call)?;
    let done = walk(inst, visited, &tour[position..])?;
    let home = step(inst, done, inst.calls() + 1)?;
    Some(home.travelled)
}
