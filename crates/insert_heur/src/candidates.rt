//! The candidates for an insertion, the best ones first.

ghost use Rattle.std.specs.Prelude.{◌≡◌, ◌||◌, nat_lt, ◌≤◌, ◌*◌, pos, ◌-ℤ◌, ◌+◌, ◌++◌, false, take, length, IfOk, OnOk};
ghost use Rattle.std.specs.List.{concat};
ghost use Rattle.std.specs.Vec.Iter.{into_iter_items};
ghost use Rattle.std.proofs.Common.{rules};
ghost use Rattle.std.specs.Cmp.{partial_order_from_own_ties};
ghost use Rattle.std.specs.Cmp.Rules.{comparing};
ghost use Rattle.std.specs.Ordering.{as_partial_cmp, flip_args, int_cmp, nat_cmp, on, then_cmp};
ghost use Rattle.itertools.specs.Extremes.{IsKLeast, by_cmp};
ghost use Rattle.orienteering.specs.Instance.{IsCall, site};
ghost use Rattle.orienteering.specs.Tour.{IsPlan};
ghost use Rattle.orienteering.specs.PlanCheck.{is_one_of};
ghost use Rattle.insert_heur.specs.Places.{tour_at, spent_at};
ghost use Rattle.orienteering.specs.Price.{most_weight};
ghost use Rattle.insert_heur.specs.Walk.{farthest};
ghost use Rattle.insert_heur.specs.Candidates.{candidate_at, at_tour, at_call, candidates, in_order, ranked, candidate_cmp};

use crate::tours::{some_visits, tour_at};
use crate::travel::travel_at;
use crate::walk::time_with;
use itertools::Itertools;
use orienteering::Tour;
use site_model::Instance;
use std::alloc::{AllocError, Global};
use std::cmp::Ordering;
use std::vec::IntoIter;

/// What a unit of profit and a scaled unit of travel weigh: each at most 1,000,000,000.
#[derive(Clone, Copy, Debug, PartialEq, Eq)]
pub struct Weight {
    pub alpha: u32,
    pub beta: u32,
}

/// A call that may be put into a tour at a position. The greater gain comes first, then the smaller
/// call, the smaller tour number and the smaller position.
#[derive(Debug, Clone, Copy, PartialEq, Eq)]
pub struct Candidate {
    pub gain: i128,
    pub call: u32,
    pub tour: usize,
    pub position: usize,
}

impl Ord for Candidate {
    ghost cmp = { then_cmp (flip_args (on (λ c. c.gain) int_cmp)) (then_cmp (on (λ c. c.call) nat_cmp)
        (then_cmp (on (λ c. c.tour) nat_cmp) (on (λ c. c.position) nat_cmp))) };

    ghost total = { Prim.search (comparing, rules) depth 9 };

    ghost matches_partial_cmp = { Prim.search (comparing, rules) depth 9 };

    ghost matches_eq = { Prim.search (comparing, rules) depth 9 };

    fn cmp(&self, other: &Candidate) -> Ordering {
        other
            .gain
            .cmp(&self.gain)
            .then(self.call.cmp(&other.call))
            .then(self.tour.cmp(&other.tour))
            .then(self.position.cmp(&other.position))
    }
}

impl PartialOrd for Candidate {
    ghost partial_cmp = { as_partial_cmp (then_cmp (flip_args (on (λ c. c.gain) int_cmp)) (then_cmp (on (λ c. c.call) nat_cmp)
        (then_cmp (on (λ c. c.tour) nat_cmp) (on (λ c. c.position) nat_cmp)))) };

    ghost laws = { partial_order_from_own_ties (Prim.search (comparing, rules) depth 9) (Prim.search (comparing, rules) depth 9) };

    fn partial_cmp(&self, other: &Candidate) -> Option<Ordering> {
        Some(self.cmp(other))
    }
}

/// What the call's weighted score gains over the weighted travel that is added.
fn gain(inst: &Instance, weight: Weight, call: u32, time: u64, spent: u64) -> i128
    requires alpha { weight.alpha ≤ most_weight }
    requires beta { weight.beta ≤ most_weight }
    requires call { IsCall inst.now call }
    requires time { time ≤ farthest }
    requires spent { spent ≤ farthest }
    ensures { result
        ≡ pos (weight.alpha * (site inst.now call).score + weight.beta * spent) -ℤ pos (weight.beta * time) }
{
    let score = u128::from(weight.alpha) * u128::from(inst.score(call));
    let saved = u128::from(weight.beta) * u128::from(spent);
    let added = u128::from(weight.beta) * u128::from(time);
    (score + saved) as i128 - added as i128
}

/// The tour is there, or a member is left for a new one.
fn has_room(inst: &Instance, plan: &[Tour], tour: usize) -> bool
    ensures { result ≡ (nat_lt tour (length plan.now) || nat_lt (length plan.now) inst.now.team) }
{
    tour < plan.len() || plan.len() < inst.team() as usize
}

/// The call put into this tour, whose travel is known, at this position, if the plan stays a plan and gains.
fn candidate_at(
    inst: &Instance,
    weight: Weight,
    plan: &[Tour],
    call: u32,
    tour: usize,
    position: usize,
    spent: u64,
) -> Option<Candidate>
    requires alpha { weight.alpha ≤ most_weight }
    requires beta { weight.beta ≤ most_weight }
    requires plan { IsPlan inst.now plan.now }
    requires call { IsCall inst.now call }
    requires unvisited { is_one_of (concat plan.now) call ≡ false }
    requires tour { tour ≤ length plan.now }
    requires position { position ≤ length (tour_at plan.now tour) }
    requires spent { spent ≡ spent_at inst.now plan.now tour }
    requires within { spent ≤ farthest }
    ensures { result ≡ candidate_at inst.now weight plan.now call tour position }
{
    if !has_room(inst, plan, tour) {
        return None;
    }
    let time = time_with(inst, tour_at(plan, tour), position, call)?;
    let gain = gain(inst, weight, call, time, spent);
    if 0 < gain {
        Some(Candidate {
            gain,
            call,
            tour,
            position,
        })
    } else {
        None
    }
}

/// Adds the candidates with one call and one tour.
fn add_at_tour(
    inst: &Instance,
    weight: Weight,
    plan: &[Tour],
    call: u32,
    tour: usize,
    found: &mut Vec<Candidate>,
) -> Result<(), AllocError>
    requires alpha { weight.alpha ≤ most_weight }
    requires beta { weight.beta ≤ most_weight }
    requires plan { IsPlan inst.now plan.now }
    requires call { IsCall inst.now call }
    requires unvisited { is_one_of (concat plan.now) call ≡ false }
    requires tour { tour ≤ length plan.now }
    ensures { OnOk result (found.new.items
        ≡ found.old.items ++ at_tour inst.now weight plan.now call tour) }
{
    let _calls = inst.calls();
    let spent = travel_at(inst, plan, tour);
    let calls = tour_at(plan, tour).len();
    prove!(calls < usize::MAX);
    for position in 0..calls + 1 {
        let at = candidate_at(inst, weight, plan, call, tour, position, spent);
        if let Some(candidate) = at {
            found.push(candidate)?;
        }
    }
    Ok(())
}

/// Adds the candidates with one call.
fn add_at_call(
    inst: &Instance,
    weight: Weight,
    plan: &[Tour],
    call: u32,
    found: &mut Vec<Candidate>,
) -> Result<(), AllocError>
    requires alpha { weight.alpha ≤ most_weight }
    requires beta { weight.beta ≤ most_weight }
    requires plan { IsPlan inst.now plan.now }
    requires call { IsCall inst.now call }
    ensures { OnOk result (found.new.items
        ≡ found.old.items ++ at_call inst.now weight plan.now call) }
{
    if some_visits(plan, call) {
        return Ok(());
    }
    for tour in 0..plan.len() + 1 {
        add_at_tour(inst, weight, plan, call, tour, found)?;
    }
    Ok(())
}

/// All candidates.
fn all_candidates(
    alloc: Global,
    inst: &Instance,
    weight: Weight,
    plan: &[Tour],
) -> Result<Vec<Candidate>, AllocError>
    requires alpha { weight.alpha ≤ most_weight }
    requires beta { weight.beta ≤ most_weight }
    requires plan { IsPlan inst.now plan.now }
    ensures { IfOk result (λ found. found.items ≡ candidates inst.now weight plan.now) }
{
    let mut found = Vec::new(alloc);
    for call in 1..inst.calls() + 1 {
        add_at_call(inst, weight, plan, call, &mut found)?;
    }
    Ok(found)
}

/// The three least of the candidates in their order.
fn three_least(alloc: Global, found: &[Candidate]) -> Result<IntoIter<Candidate>, AllocError>
    ensures { IfOk result (λ best.
        IsKLeast (by_cmp candidate_cmp) 3 found.now (into_iter_items best)) }
{
    found.iter().copied().k_smallest(alloc, 3)
}

/// The same, once the candidates stand in order.
fn three_first(alloc: Global, found: &[Candidate]) -> Result<Vec<Candidate>, AllocError>
    ensures { IfOk result (λ best. best.items ≡ take 3 (in_order (by_cmp candidate_cmp) found.now)) }
{
    three_least(alloc, found)?.collect(alloc)
}

/// The three best candidates, or all of them where there are fewer, the best first.
pub fn best_candidates(
    alloc: Global,
    inst: &Instance,
    weight: Weight,
    plan: &[Tour],
) -> Result<Vec<Candidate>, AllocError>
    requires alpha { weight.alpha ≤ most_weight }
    requires beta { weight.beta ≤ most_weight }
    requires plan { IsPlan inst.now plan.now }
    ensures { IfOk result (λ best. best.items ≡ take 3 (ranked inst.now weight plan.now)) }
{
    let found = all_candidates(alloc, inst, weight, plan)?;
    three_first(alloc, found.as_slice())
}
