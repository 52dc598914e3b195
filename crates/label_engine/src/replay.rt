ghost use Rattle.std.specs.Prelude.{◌≡◌, ◌<◌, ◌≤◌, ◌^◌, All, ℤ, ◌-ℤ◌, FitsSigned, unsigned_abs, is_some, true, length, IfOk, IfSome, MatchOption, OnOk};
ghost use Rattle.std.specs.Int.{w128};
ghost use Rattle.label_core.specs.Clock.{clock_after};
ghost use Rattle.label_engine.specs.Cut.{IsCut, cut_rules, flagged_moves, relaxed};
ghost use Rattle.label_engine.specs.Settled.{CoversFronts, HasMoreThan};
ghost use Rattle.label_engine.specs.Greatest.{sigma_of, HasWalk, IsAnswer, is_open_tour, IsAtCall, value_of, IsBest, better};
ghost use Rattle.label_engine.specs.SmallSums.{HasSmallSums, small_moves, small_rules};
ghost use Rattle.orienteering.specs.Duality.{BoundsTours};
ghost use Rattle.orienteering.specs.Instance.{calls, end_place, next_clock, IsCall};
ghost use Rattle.orienteering.specs.Price.{IsFit};
ghost use Rattle.orienteering.specs.Region.{IsProper, is_forced};
ghost use Rattle.orienteering.specs.Replay.{is_critical_set, relaxation};
ghost use Rattle.orienteering.specs.Sigma.{sigma, undominated};

use crate::bounded_rows::cover_fronts;
use crate::cut_moves::CutMoves;
use crate::flagged_moves::{FlaggedMoves, FlaggedState};
use crate::label::{Label, ReplayFail};
use crate::moves::Moves;
use crate::search::settle;
use crate::small_moves::{SmallMoves, SmallState};
use crate::walk::front_of;
use orienteering::{Price, Tour};
use region_ctx::Context;
use site_model::Instance;
use std::alloc::{AllocError, Global};

/// The greatest value of a relaxed walk.
#[derive(Drop)]
pub enum Outcome {
    /// There is no relaxed walk.
    NoWalk,
    /// The greatest value, and a relaxed walk that has it; which one is left free.
    Best { sigma: i128, walk: Tour },
}

/// The place of a label that can go to the end, and the value of its walk.
#[derive(Clone, Copy, Debug, PartialEq, Eq)]
struct Closed {
    place: usize,
    value: i128,
}

/// The better of the best label so far and the label at a place, whose value is given where it can go to the end.
fn better(best: Option<Closed>, place: usize, value: Option<i128>) -> Option<Closed>
    ensures { result ≡ better best place value }
{
    match value {
        None => best,
        Some(value) => match best {
            None => Some(Closed { place, value }),
            Some(best) => {
                if value <= best.value {
                    Some(best)
                } else {
                    Some(Closed { place, value })
                }
            }
        },
    }
}

/// The value of the walk of a label, None where it can't go to the end.
fn closed_value(cut: &CutMoves, label: &Label<FlaggedState>) -> Option<i128>
    requires { IsAtCall cut.now label.now }
    ensures { result ≡ value_of cut.now label.now }
{
    cut.closed_sum(label.call, &label.state.a, label.state.b.b.sum)
}

/// The best of the labels that can go to the end.
fn best_closed(cut: &CutMoves, labels: &[Label<FlaggedState>]) -> Option<Closed>
    requires { All (IsAtCall cut.now) labels.now }
    ensures { IsBest cut.now labels.now result }
{
    let mut best = None;
    for place in 0..labels.len() {
        best = better(best, place, closed_value(cut, &labels[place]));
    }
    best
}

/// The outcome that labels give which cover all fronts.
fn answer(
    alloc: Global,
    moves: &FlaggedMoves,
    labels: &[Label<FlaggedState>],
) -> Result<Outcome, AllocError>
    requires cut { IsCut moves.now }
    requires covers { CoversFronts cut_rules (flagged_moves moves.now) (calls moves.now.problem) labels.now }
    ensures sigma { IfOk result (λ outcome. sigma_of outcome ≡ sigma moves.now.problem (relaxed moves.now)) }
    ensures walk { IfOk result (HasWalk moves.now.problem (relaxed moves.now)) }
{
    match best_closed(moves.cut(), labels) {
        None => Ok(Outcome::NoWalk),
        Some(best) => {
            let walk = front_of(alloc, moves, labels, best.place)?;
            Ok(Outcome::Best {
                sigma: best.value,
                walk: Tour::from_calls(walk),
            })
        }
    }
}

/// The value of the walk of a label with a small sum, None where it can't go to the end.
fn small_value(cut: &CutMoves, label: &Label<SmallState>) -> Option<i128>
    requires { IsAtCall cut.now label.now }
    ensures { result ≡ value_of cut.now label.now }
{
    cut.closed_sum(label.call, &label.state.a, i128::from(label.state.b.b.sum))
}

/// The best of the labels with small sums that can go to the end.
fn best_closed_small(cut: &CutMoves, labels: &[Label<SmallState>]) -> Option<Closed>
    requires { All (IsAtCall cut.now) labels.now }
    ensures { IsBest cut.now labels.now result }
{
    let mut best = None;
    for place in 0..labels.len() {
        best = better(best, place, small_value(cut, &labels[place]));
    }
    best
}

/// The outcome that labels with small sums give which cover all fronts.
fn small_answer(
    alloc: Global,
    moves: &SmallMoves,
    labels: &[Label<SmallState>],
) -> Result<Outcome, AllocError>
    requires cut { IsCut moves.now }
    requires small { HasSmallSums moves.now }
    requires covers { CoversFronts small_rules (small_moves moves.now) (calls moves.now.problem) labels.now }
    ensures sigma { IfOk result (λ outcome. sigma_of outcome ≡ sigma moves.now.problem (relaxed moves.now)) }
    ensures walk { IfOk result (HasWalk moves.now.problem (relaxed moves.now)) }
{
    match best_closed_small(moves.cut(), labels) {
        None => Ok(Outcome::NoWalk),
        Some(best) => {
            let walk = front_of(alloc, moves, labels, best.place)?;
            Ok(Outcome::Best {
                sigma: best.value,
                walk: Tour::from_calls(walk),
            })
        }
    }
}

/// The outcome by rows of bounded length and small sums, None where they keep more than `limit` labels.
fn replayed_small(
    alloc: Global,
    moves: &FlaggedMoves,
    limit: u64,
) -> Result<Option<Outcome>, AllocError>
    requires cut { IsCut moves.now }
    requires small { HasSmallSums moves.now }
    ensures { IfOk result (λ found. IfSome found (IsAnswer moves.now limit)) }
{
    let small = SmallMoves::of(moves);
    let hops = small.calls();
    let Some(found) = cover_fronts(alloc, &small, hops, limit)? else {
        return Ok(None);
    };
    let outcome = small_answer(alloc, &small, found.labels())?;
    Ok(Some(outcome))
}

/// The outcome by rows of bounded length, None where they keep more than `limit` labels.
fn replayed_by_rows(
    alloc: Global,
    moves: &FlaggedMoves,
    limit: u64,
) -> Result<Option<Outcome>, AllocError>
    requires { IsCut moves.now }
    ensures { IfOk result (λ found. IfSome found (IsAnswer moves.now limit)) }
{
    if moves.has_small_sums() {
        return replayed_small(alloc, moves, limit);
    }
    let hops = moves.calls();
    let Some(found) = cover_fronts(alloc, moves, hops, limit)? else {
        return Ok(None);
    };
    let outcome = answer(alloc, moves, found.labels())?;
    Ok(Some(outcome))
}

/// The outcome of a replay: by rows of bounded length where these keep at most `limit` labels, and by the settled labels
/// otherwise, which alone tell whether there are too many.
fn replayed(alloc: Global, moves: &FlaggedMoves, limit: u64) -> Result<Outcome, ReplayFail>
    requires cut { IsCut moves.now }
    ensures answer { IfOk result (IsAnswer moves.now limit) }
    ensures many { result ≡ Err ReplayFail.TooManyLabels → HasMoreThan cut_rules (flagged_moves moves.now) limit (calls moves.now.problem) }
{
    if let Some(outcome) = replayed_by_rows(alloc, moves, limit)? {
        return Ok(outcome);
    }
    let hops = moves.calls();
    let settled = settle(alloc, moves, hops, limit)?;
    Ok(answer(alloc, moves, settled.labels())?)
}

/// The greatest value of a relaxed walk of the region under the price, in which no critical call stands twice
/// (Righini and Salani 2009). `TooManyLabels` comes exactly where more than `limit` states of fronts are covered by no
/// different one, whether or not there is a relaxed walk, and `Memory` is want of memory.
pub fn greatest(
    alloc: Global,
    inst: &Instance,
    ctx: &Context,
    price: &Price,
    critical: &[u32],
    limit: u64,
) -> Result<Outcome, ReplayFail>
    requires proper { IsProper inst.now ctx.now }
    requires fit { IsFit (calls inst.now) (is_forced ctx.now) price.now }
    requires critical { is_critical_set (calls inst.now) critical.now ≡ true }

    // The value is sigma, a walk that is answered has it, and no feasible tour without a shut arc is worth more.
    ensures sigma { IfOk result (λ outcome. sigma_of outcome ≡ sigma inst.now (relaxation ctx.now price.now critical.now)) }
    ensures walk { IfOk result (HasWalk inst.now (relaxation ctx.now price.now critical.now)) }
    ensures tours { IfOk result (λ outcome. BoundsTours inst.now price.now (is_open_tour inst.now ctx.now) (sigma_of outcome)) }
    ensures within { IfOk result (λ outcome. MatchOption (sigma_of outcome) (Unit {0}) (λ s. unsigned_abs s ≤ 10 ^ 24)) }

    // The states are too many exactly where it says so.
    ensures few { OnOk result (length (undominated inst.now (relaxation ctx.now price.now critical.now)) ≤ limit) }
    ensures many { result ≡ Err ReplayFail.TooManyLabels → limit < length (undominated inst.now (relaxation ctx.now price.now critical.now)) }
{
    let _calls = inst.calls();
    let cut = CutMoves::new(alloc, inst, ctx, price, critical);
    let moves = FlaggedMoves::of(alloc, cut)?;
    let outcome = replayed(alloc, &moves, limit)?;
    Ok(outcome)
}
