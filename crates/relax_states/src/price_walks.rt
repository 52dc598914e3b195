//! The best walks of a price, to find new tours and calls that must be critical. Nothing is promised of how good they are: what a
//! price is worth is the answer of a replay.

ghost use Rattle.std.specs.Prelude.{◌≤◌, All, IfOk, IfSome, length, vec_len};
ghost use Rattle.orienteering.specs.Instance.{calls};
ghost use Rattle.relax_states.specs.BestWalks.{AreWalksAmong, IsWalkAmong};

use crate::fronts::{Front, settled};
use crate::legs::Legs;
use orienteering::{Price, Tour};
use region_ctx::Context;
use site_model::Instance;
use std::alloc::{AllocError, Global};

/// How many walks of a price are looked at.
const MOST_WALKS: usize = 40;

/// The bound that a price seems to have, and its best walks.
#[derive(Drop)]
pub struct Walks {
    /// At most so much are `alpha` times the profit of a plan less `beta` times its time, if no label was dropped that counts.
    pub bound: i128,
    /// The greatest first.
    pub best: Vec<Tour>,
}

/// The place of a front whose walk goes to the end, and what the walk is worth below 0.
#[derive(Clone, Copy, Debug, PartialEq, Eq)]
struct Closed {
    place: usize,
    loss: i64,
}

/// Keeps the walk among the best, which stand by falling value.
fn keep_best(best: &mut Vec<Closed>, closed: Closed) -> Result<(), AllocError>
    requires { vec_len best.old ≤ 40 }
    ensures { IfOk result (λ _. vec_len best.new ≤ 40) }
{
    let rank = best
        .as_slice()
        .partition_point(|held| held.loss <= closed.loss);
    if rank < MOST_WALKS {
        best.insert(rank, closed)?;
        best.truncate(MOST_WALKS);
    }
    Ok(())
}

/// The walks that are worth most.
fn best_closed(alloc: Global, legs: &Legs, fronts: &[Front]) -> Result<Vec<Closed>, AllocError>
    ensures { IfOk result (λ best. vec_len best ≤ 40) }
{
    let mut best = Vec::new(alloc);
    for (place, front) in fronts.iter().enumerate().skip(1) {
        if let Some(leg) = legs.leg_home(front.call) {
            let loss = front.loss.saturating_sub(leg.worth);
            keep_best(&mut best, Closed { place, loss })?;
        }
    }
    Ok(best)
}

/// The calls of the walk of a front, up to a last one.
fn walk_of(alloc: Global, fronts: &[Front], last: u32, place: usize) -> Result<Tour, AllocError>
    ensures { IfOk result (IsWalkAmong last) }
{
    let mut calls = Vec::new(alloc);
    let mut at = place;
    for _ in 0..last {
        match fronts.get(at) {
            Some(front) if 0 < front.call && front.call <= last => {
                calls.push(front.call)?;
                at = front.parent;
            }
            _ => break,
        }
    }
    calls.reverse();
    Ok(Tour::from_calls(calls))
}

/// The bound of a price whose best walk is worth so much.
fn bound_with(ctx: &Context, price: &Price, worth: i128) -> i128 {
    let mut bound: i128 = 0;
    for (_, part) in price.pi.list() {
        bound = bound.saturating_add(i128::from(*part));
    }
    let (fewest, most) = ctx.counts();
    let tours = if worth < 0 { fewest } else { most };
    bound.saturating_add(worth.saturating_mul(i128::from(tours)))
}

/// The walks of these that are worth more.
fn walks_above(
    alloc: Global,
    closed: &[Closed],
    fronts: &[Front],
    last: u32,
    above: i128,
) -> Result<Vec<Tour>, AllocError>
    requires { length closed.now ≤ 40 }
    ensures among { IfOk result (λ walks. All (IsWalkAmong last) walks.items) }
    ensures few { IfOk result (λ walks. vec_len walks ≤ 40) }
{
    let mut walks = Vec::new(alloc);
    for one in closed {
        if above < -i128::from(one.loss) {
            walks.push(walk_of(alloc, fronts, last, one.place)?)?;
        }
    }
    Ok(walks)
}

/// The best walks of a region under a price that are worth more than so much, the greatest first and at most 40, with the bound
/// that the price seems to have: by labels that drop what can't go straight to the end in time. No critical call should stand
/// twice on a walk. None where more than `limit` labels were kept.
pub fn best_walks(
    alloc: Global,
    inst: &Instance,
    ctx: &Context,
    price: &Price,
    critical: &[u32],
    above: i128,
    limit: u64,
) -> Result<Option<Walks>, AllocError>
    ensures { IfOk result (λ found. IfSome found (λ walks. AreWalksAmong (calls inst.now) walks.best.items)) }
{
    let last = inst.calls();
    let legs = Legs::of(alloc, inst, ctx, price, critical)?;
    let Some(fronts) = settled(alloc, &legs, limit)? else {
        return Ok(None);
    };
    let closed = best_closed(alloc, &legs, fronts.as_slice())?;
    let worth = closed.first().map_or(0, |first| -i128::from(first.loss));
    Ok(Some(Walks {
        bound: bound_with(ctx, price, worth),
        best: walks_above(alloc, closed.as_slice(), fronts.as_slice(), last, above)?,
    }))
}
