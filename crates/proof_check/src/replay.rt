//! The replay of a cut.

ghost use Rattle.std.specs.Prelude.{◌≡◌, ◌^◌, ◌<◌, ◌≤◌, length, true, IfOk, MatchOption, OnOk};
ghost use Rattle.label_engine.specs.Greatest.{sigma_of};
ghost use Rattle.orienteering.specs.Decision.{replay_step};
ghost use Rattle.orienteering.specs.Instance.{Problem, calls};
ghost use Rattle.orienteering.specs.Price.{IsFit};
ghost use Rattle.orienteering.specs.Region.{is_forced, IsProper};
ghost use Rattle.orienteering.specs.Replay.{is_critical_set, relaxation};
ghost use Rattle.orienteering.specs.Sigma.{sigma, undominated};
ghost use Rattle.price_bound.specs.Magnitude.{IsWithin};
ghost use Rattle.proof_check.specs.Judged.{Gives, HasProperParts, branch_at, points_of, refusal_of, rules_of};

use crate::judge::{Judge, Judged, Spot};
use label_engine::{Outcome, ReplayFail, greatest};
use orienteering::{CheckFail, CutOnPath, Price};
use price_bound::bound;

fn value_of(outcome: Outcome) -> Option<i128>
    ensures { result ≡ sigma_of outcome }
{
    match outcome {
        Outcome::NoWalk => None,
        Outcome::Best { sigma, .. } => Some(sigma),
    }
}

/// The greatest value of a relaxed walk, none where there is no relaxed walk.
fn greatest_value(
    judge: &Judge<'_>,
    spot: &Spot<'_>,
    price: &Price,
    critical: &[u32],
) -> Result<Option<i128>, ReplayFail>
    requires proper { IsProper judge.now.inst.now spot.now.context.now }
    requires fit { IsFit (calls judge.now.inst.now) (is_forced spot.now.context.now) price.now }
    requires set { is_critical_set (calls judge.now.inst.now) critical.now ≡ true }
    ensures value { IfOk result (λ s. s ≡ sigma judge.now.inst.now (relaxation spot.now.context.now price.now critical.now)) }
    ensures within { IfOk result (λ s. MatchOption s (Unit {0}) (IsWithin (10 ^ 24))) }
    ensures few { OnOk result (length (undominated judge.now.inst.now (relaxation spot.now.context.now price.now critical.now)) ≤ judge.now.labels) }
    ensures many { result ≡ Err ReplayFail.TooManyLabels → judge.now.labels < length (undominated judge.now.inst.now (relaxation spot.now.context.now price.now critical.now)) }
{
    let outcome = greatest(
        judge.alloc,
        judge.inst,
        spot.context,
        price,
        critical,
        judge.labels,
    )?;
    Ok(value_of(outcome))
}

fn cut_on_path(price: &Price, bound: i128) -> CutOnPath
    ensures { result ≡ record { alpha = price.now.alpha; beta = price.now.beta; bound = bound } }
{
    CutOnPath {
        alpha: price.alpha,
        beta: price.beta,
        bound,
    }
}

/// The refusal of a cut that can't be replayed.
fn refusal_of(index: u64, fail: ReplayFail) -> CheckFail
    ensures { result ≡ refusal_of index fail }
{
    match fail {
        ReplayFail::TooManyLabels => CheckFail::TooManyLabels { index },
        ReplayFail::Memory => CheckFail::Memory,
    }
}

/// Replays a cut, and adds its bound to the path.
pub(crate) fn replay(
    judge: &Judge<'_>,
    spot: &Spot<'_>,
    price: &Price,
    critical: &[u32],
) -> Result<Judged, CheckFail>
    requires proper { IsProper judge.now.inst.now spot.now.context.now }
    requires fit { IsFit (calls judge.now.inst.now) (is_forced spot.now.context.now) price.now }
    requires set { is_critical_set spot.now.context.now.calls critical.now ≡ true }
    ensures rule { Gives (branch_at spot.now) result
        (replay_step (rules_of judge.now) (points_of judge.now) spot.now.index (branch_at spot.now) price.now critical.now) }
    ensures proper { IfOk result (HasProperParts judge.now.inst.now) }
{
    match greatest_value(judge, spot, price, critical) {
        Ok(sigma) => {
            let bound = bound(price, sigma, spot.context);
            Ok(Judged::Below(cut_on_path(price, bound)))
        }
        Err(fail) => Err(refusal_of(spot.index, fail)),
    }
}
