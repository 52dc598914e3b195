//! The better of a start and of what is found from it.

ghost use Rattle.std.specs.Prelude.{◌≡◌, ◌^◌, ◌*ℤ◌, ◌-ℤ◌, ◌≤ℤ◌, ◌⊎◌, pos, map, IfOk, IfSome};
ghost use Rattle.orienteering.specs.Instance.{calls};
ghost use Rattle.orienteering.specs.Price.{IsFit, bound};
ghost use Rattle.orienteering.specs.Region.{IsProper, is_forced};
ghost use Rattle.pool_cols.specs.Pool.{IsPoolOf};
ghost use Rattle.price_bound.specs.Magnitude.{IsWithin};
ghost use Rattle.dual_master.specs.Sigma.{IsPoolSigma, is_open_tour};
ghost use Rattle.dual_master.specs.Shares.{AreShares, worth_of};
ghost use Rattle.dual_master.specs.Candidate.{IsNoWorse, IsRated, IsSmallSigma};

use crate::open_tours::open_flags;
use crate::rating::{Candidate, rate};
use crate::search::found_from;
use crate::shares::{Shares, limited, worth_of};
use orienteering::Price;
use pool_cols::Pool;
use region_ctx::Context;
use site_model::Instance;
use std::alloc::{AllocError, Global};

/// A price with the greatest value of a pool tour under it, shares of the tours, and how far apart the two are.
#[derive(Drop)]
pub struct MasterAnswer {
    pub price: Price,
    /// The greatest value of a pool tour without a shut arc, or none where there is no such tour.
    pub sigma: Option<i128>,
    pub shares: Shares,
    /// A million times the bound, less what the shares are worth.
    pub gap: i128,
}

/// The one with the smaller bound.
fn lesser(best: Candidate, found: Candidate) -> Candidate
    ensures { (result ≡ best) ⊎ ((result ≡ found) × (found.bound ≤ℤ best.bound)) }
{
    if found.bound < best.bound {
        found
    } else {
        best
    }
}

/// The candidate, or the price if there is one with a smaller bound.
fn better(
    alloc: Global,
    inst: &Instance,
    pool: &Pool,
    ctx: &Context,
    allowed: &[bool],
    begun: Candidate,
    price: Option<Price>,
) -> Result<Candidate, AllocError>
    requires proper { IsProper inst.now ctx.now }
    requires pool { IsPoolOf inst.now pool.now }
    requires allowed { allowed.now ≡ map (λ c. is_open_tour inst.now ctx.now c.0) pool.now }
    requires rated { IsRated inst.now ctx.now pool.now begun.price begun.sigma begun.bound }
    requires fit { IfSome price (IsFit (calls inst.now) (is_forced ctx.now)) }
    requires alpha { IfSome price (λ price. price.alpha ≡ begun.price.alpha) }
    requires beta { IfSome price (λ price. price.beta ≡ begun.price.beta) }
    ensures rated { IfOk result (λ best. IsRated inst.now ctx.now pool.now best.price best.sigma best.bound) }
    ensures alpha { IfOk result (λ best. best.price.alpha ≡ begun.price.alpha) }
    ensures beta { IfOk result (λ best. best.price.beta ≡ begun.price.beta) }
    ensures bound { IfOk result (λ best. best.bound ≤ℤ begun.bound) }
{
    match price {
        None => Ok(begun),
        Some(price) => {
            let found = rate(alloc, inst, pool, ctx, allowed, price)?;
            Ok(lesser(begun, found))
        }
    }
}

/// A million times the bound, less what the shares are worth.
fn gap_between(bound: i128, worth: i128) -> i128
    requires bound { IsWithin (10 ^ 23) bound }
    requires worth { IsWithin (10 ^ 25) worth }
    ensures { result ≡ (pos 1000000 *ℤ bound) -ℤ worth }
{
    1_000_000 * bound - worth
}

/// Looks in so many rounds for a price whose bound over the pool is smaller than that of a starting price. Without a round
/// the start is answered. Tours with a shut arc don't count. The shares of the other tours, in parts of a million, are
/// about how often the best tours of the rounds were these, an average in which later rounds weigh more.
pub fn improve(
    alloc: Global,
    inst: &Instance,
    pool: &Pool,
    ctx: &Context,
    start: &Price,
    rounds: u32,
) -> Result<MasterAnswer, AllocError>
    requires proper { IsProper inst.now ctx.now }
    requires pool { IsPoolOf inst.now pool.now }
    requires fit { IsFit (calls inst.now) (is_forced ctx.now) start.now }
    ensures fit { IfOk result (λ answer. IsFit (calls inst.now) (is_forced ctx.now) answer.price) }
    ensures alpha { IfOk result (λ answer. answer.price.alpha ≡ start.now.alpha) }
    ensures beta { IfOk result (λ answer. answer.price.beta ≡ start.now.beta) }
    ensures sigma { IfOk result (λ answer. IsPoolSigma inst.now ctx.now answer.price pool.now answer.sigma) }
    ensures small { IfOk result (λ answer. IsSmallSigma answer.sigma) }
    ensures bound { IfOk result (λ answer. IsNoWorse inst.now ctx.now pool.now start.now
        (bound answer.price answer.sigma ctx.now.fewest ctx.now.most)) }
    ensures shares { IfOk result (λ answer. AreShares inst.now ctx.now pool.now answer.shares) }
    ensures gap { IfOk result (λ answer. answer.gap
        ≡ (pos 1000000 *ℤ bound answer.price answer.sigma ctx.now.fewest ctx.now.most)
        -ℤ worth_of answer.price pool.now answer.shares) }
{
    let _ = inst.team();
    let allowed = open_flags(alloc, inst, pool, ctx)?;
    let begun = rate(
        alloc,
        inst,
        pool,
        ctx,
        allowed.as_slice(),
        start.copy(alloc)?,
    )?;
    let found = found_from(alloc, inst, pool, ctx, allowed.as_slice(), start, rounds)?;
    let best = better(
        alloc,
        inst,
        pool,
        ctx,
        allowed.as_slice(),
        begun,
        found.price,
    )?;
    let list = limited(
        alloc,
        inst,
        pool,
        ctx,
        allowed.as_slice(),
        found.wanted.as_slice(),
    )?;
    let worth = worth_of(inst, pool, ctx, &best.price, list.as_slice());
    let gap = gap_between(best.bound, worth);
    Ok(MasterAnswer {
        price: best.price,
        sigma: best.sigma,
        shares: Shares::from_list(list),
        gap,
    })
}
