//! The replay of a cut.

ghost use Rattle.std.specs.Prelude.{◌≡◌, ◌^◌, ◌<◌, ◌≤◌, length, true, IfOk, MatchOption, OnOk};
ghost use Rattle.growth.specs.Growth.{bound_of};
ghost use Rattle.label_engine.specs.Greatest.{sigma_of};
ghost use Rattle.orienteering.specs.Instance.{calls};
ghost use Rattle.orienteering.specs.Price.{bound, IsFit};
ghost use Rattle.orienteering.specs.Region.{is_forced, IsProper};
ghost use Rattle.orienteering.specs.Replay.{is_critical_set, relaxation, replay};
ghost use Rattle.orienteering.specs.Sigma.{sigma, undominated};
ghost use Rattle.price_bound.specs.Magnitude.{IsWithin};

use crate::regions::Regions;
use label_engine::{Outcome, ReplayFail, greatest};
use orienteering::Price;
use price_bound::bound;
use region_ctx::Context;
use std::alloc::{AllocError, Global};

/// The value of the walk, where there is one.
fn value_of(outcome: Outcome) -> Option<i128>
    ensures { result ≡ sigma_of outcome }
{
    match outcome {
        Outcome::NoWalk => None,
        Outcome::Best { sigma, .. } => Some(sigma),
    }
}

/// The greatest value of a relaxed walk, where there is one.
fn greatest_value(
    alloc: Global,
    regions: &Regions<'_>,
    ctx: &Context,
    price: &Price,
    critical: &[u32],
) -> Result<Option<i128>, ReplayFail>
    requires proper { IsProper regions.now.inst.now ctx.now }
    requires fit { IsFit (calls regions.now.inst.now) (is_forced ctx.now) price.now }
    requires set { is_critical_set (calls regions.now.inst.now) critical.now ≡ true }
    ensures value { IfOk result (λ value. value ≡ sigma regions.now.inst.now (relaxation ctx.now price.now critical.now)) }
    ensures within { IfOk result (λ value. MatchOption value (Unit {0}) (IsWithin (10 ^ 24))) }
    ensures few { OnOk result (length (undominated regions.now.inst.now (relaxation ctx.now price.now critical.now)) ≤ regions.now.labels) }
    ensures many { result ≡ Err ReplayFail.TooManyLabels → regions.now.labels < length (undominated regions.now.inst.now (relaxation ctx.now price.now critical.now)) }
{
    let outcome = greatest(alloc, regions.inst, ctx, price, critical, regions.labels)?;
    Ok(value_of(outcome))
}

/// The bound of a cut by its replay, none where there are too many labels.
pub(crate) fn replay_cut(
    alloc: Global,
    regions: &Regions<'_>,
    ctx: &Context,
    price: &Price,
    critical: &[u32],
) -> Result<Option<i128>, AllocError>
    requires proper { IsProper regions.now.inst.now ctx.now }
    requires fit { IsFit (calls regions.now.inst.now) (is_forced ctx.now) price.now }
    requires set { is_critical_set (calls regions.now.inst.now) critical.now ≡ true }
    ensures { IfOk result (λ b. b ≡ bound_of (replay regions.now.inst.now regions.now.labels ctx.now price.now critical.now)) }
{
    match greatest_value(alloc, regions, ctx, price, critical) {
        Ok(sigma) => Ok(Some(bound(price, sigma, ctx))),
        Err(ReplayFail::TooManyLabels) => Ok(None),
        Err(ReplayFail::Memory) => Err(AllocError),
    }
}
