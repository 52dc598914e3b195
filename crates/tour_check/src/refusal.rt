//! The first violated part of a tour and of a plan.

ghost use Rattle.std.specs.Prelude.{◌≡◌, ℕ, ◌≤◌, ◌<◌, ◌++◌, List};
ghost use Rattle.bit_sets.specs.NumberSet.{IsSmall};
ghost use Rattle.std.specs.Bool.{OnTrue};
ghost use Rattle.orienteering.specs.Instance.{calls, is_call};
ghost use Rattle.orienteering.specs.PlanCheck.{tour_refusal, first_shared, plan_refusal};
ghost use Rattle.tour_check.specs.Seen.{HasSame};

use bit_sets::Bits;
use orienteering::{PlanRefusal, Tour, TourRefusal};
use site_model::Instance;
use std::alloc::Global;

fn is_call(inst: &Instance, call: u32) -> bool
    ensures value { result ≡ is_call (calls inst.now) call }
    ensures within { OnTrue result (call ≤ calls inst.now) }
    ensures small { OnTrue result (call < 320) }
{
    1 <= call && call <= inst.calls()
}

/// The first violated part of a tour.
pub(crate) fn tour_refusal(alloc: Global, inst: &Instance, tour: &[u32]) -> Option<TourRefusal>
    ensures { result ≡ tour_refusal inst.now tour.now }
{
    if tour.is_empty() {
        return Some(TourRefusal::Empty);
    }
    let mut seen = Bits::empty(alloc);
    let mut place = 0;
    let mut clock = inst.opening(0);
    for next in tour {
        let call = *next;
        if !is_call(inst, call) {
            return Some(TourRefusal::UnknownCall(call));
        }
        if !seen.insert_small(call) {
            return Some(TourRefusal::Repeat(call));
        }
        match inst.clock_step(clock, place, call) {
            None => return Some(TourRefusal::Late(call)),
            Some(arrival) => {
                clock = arrival;
                place = call;
            }
        }
    }
    let end = inst.calls() + 1;
    match inst.clock_step(clock, place, end) {
        None => Some(TourRefusal::Late(end)),
        Some(_) => None,
    }
}

/// The first of the calls that an earlier tour visits.
fn first_shared(earlier: &Bits, tour: &[u32]) -> Option<u32>
    ensures { (seen : List ℕ) → HasSame earlier.now seen → result ≡ first_shared seen tour.now }
{
    for next in tour {
        if earlier.contains(*next) {
            return Some(*next);
        }
    }
    None
}

/// Adds the calls of a tour to those of the tours before it.
fn hold_tour(earlier: &mut Bits, tour: &[u32])
    requires { IsSmall tour.now }
    ensures { (seen : List ℕ) → HasSame earlier.old seen → HasSame earlier.new (seen ++ tour.now) }
{
    for next in tour {
        earlier.insert_small(*next);
    }
}

/// The first violated part of a plan.
pub(crate) fn plan_refusal(alloc: Global, inst: &Instance, plan: &[Tour]) -> Option<PlanRefusal>
    ensures { result ≡ plan_refusal inst.now plan.now }
{
    if (inst.team() as usize) < plan.len() {
        return Some(PlanRefusal::TooManyTours);
    }
    let _calls = inst.calls();
    let mut earlier = Bits::empty(alloc);
    for (i, next) in plan.iter().enumerate() {
        let tour = i as u64 + 1;
        if let Some(why) = tour_refusal(alloc, inst, next.calls()) {
            return Some(PlanRefusal::Tour { tour, why });
        }
        if let Some(call) = first_shared(&earlier, next.calls()) {
            return Some(PlanRefusal::Shared { tour, call });
        }
        hold_tour(&mut earlier, next.calls());
    }
    None
}
