//! The greatest value of a pool tour under a price, and the bound that it gives.

ghost use Rattle.std.specs.Prelude.{◌≡◌, ◌-◌, ◌*◌, ◌^◌, ◌<◌, ◌≤◌, ◌-ℤ◌, length, map, IfOk};
ghost use Rattle.std.specs.List.{AllByRecursion};
ghost use Rattle.orienteering.specs.Instance.{calls};
ghost use Rattle.orienteering.specs.Price.{IsFit, prices_of, weighted};
ghost use Rattle.orienteering.specs.Region.{IsProper, is_forced};
ghost use Rattle.pool_cols.specs.Pool.{IsPoolOf};
ghost use Rattle.price_bound.specs.Magnitude.{IsWithin};
ghost use Rattle.dual_master.specs.Sigma.{IsPoolSigma, better_of, is_open_tour, open_value};
ghost use Rattle.dual_master.specs.Shares.{column};
ghost use Rattle.dual_master.specs.Candidate.{IsRated, IsTableOf};

use crate::table::by_call;
use orienteering::{Point, Price};
use pool_cols::Pool;
use price_bound::bound;
use region_ctx::Context;
use site_model::Instance;
use std::alloc::{AllocError, Global};

/// A price with the greatest value of a pool tour under it and the bound that this gives.
#[derive(Drop)]
pub struct Candidate {
    pub price: Price,
    pub sigma: Option<i128>,
    pub bound: i128,
}

/// What a point is worth under the weights.
pub fn weighted(price: &Price, point: Point) -> i128
    requires alpha { price.now.alpha ≤ 10 ^ 9 }
    requires beta { price.now.beta ≤ 10 ^ 9 }
    requires profit { point.profit ≤ 3 * 10 ^ 7 }
    requires time { point.time ≤ 10 ^ 8 }
    ensures value { result ≡ weighted price.now point }
    ensures within { IsWithin (2 * 10 ^ 17) result }
{
    let gain = u64::from(price.alpha) * point.profit;
    let cost = u64::from(price.beta) * point.time;
    i128::from(gain) - i128::from(cost)
}

/// The prices of these calls, which stand in the table too.
fn prices_along(price: &Price, table: &[i64], calls: &[u32]) -> i128
    requires table { IsTableOf (length table.now - 1) price.now.pi table.now }
    requires within { AllByRecursion (λ call. call < length table.now) calls.now }
    ensures value { result ≡ prices_of price.now.pi calls.now }
    ensures within { IsWithin (2 ^ 126) result }
{
    let mut sum: i128 = 0;
    for call in calls {
        sum += i128::from(table[*call as usize]);
    }
    sum
}

/// What a tour with this point is worth.
fn value(price: &Price, table: &[i64], calls: &[u32], point: Point) -> i128
    requires alpha { price.now.alpha ≤ 10 ^ 9 }
    requires beta { price.now.beta ≤ 10 ^ 9 }
    requires profit { point.profit ≤ 3 * 10 ^ 7 }
    requires time { point.time ≤ 10 ^ 8 }
    requires table { IsTableOf (length table.now - 1) price.now.pi table.now }
    requires within { AllByRecursion (λ call. call < length table.now) calls.now }
    ensures { result ≡ weighted price.now point -ℤ prices_of price.now.pi calls.now }
{
    weighted(price, point) - prices_along(price, table, calls)
}

/// The greater of the two values, where there are two.
fn better(best: Option<i128>, found: Option<i128>) -> Option<i128>
    ensures { result ≡ better_of best found }
{
    match found {
        None => best,
        Some(value) => match best {
            None => Some(value),
            Some(best) => Some(best.max(value)),
        },
    }
}

/// The value of the tour at a place, where no arc of it is shut.
fn open_value(
    inst: &Instance,
    pool: &Pool,
    ctx: &Context,
    allowed: &[bool],
    price: &Price,
    table: &[i64],
    place: u64,
) -> Option<i128>
    requires within { place < length pool.now }
    requires pool { IsPoolOf inst.now pool.now }
    requires allowed { allowed.now ≡ map (λ c. is_open_tour inst.now ctx.now c.0) pool.now }
    requires fit { IsFit (calls inst.now) (is_forced ctx.now) price.now }
    requires table { IsTableOf (calls inst.now) price.now.pi table.now }
    ensures { result ≡ open_value inst.now ctx.now price.now (column pool.now place) }
{
    let _ = inst.calls();
    if !allowed[place as usize] {
        return None;
    }
    match pool.get(place) {
        Some((tour, point)) => Some(value(price, table, tour.calls(), point)),
        None => None,
    }
}

/// The greatest value of a tour of the pool without a shut arc.
fn greatest_value(
    inst: &Instance,
    pool: &Pool,
    ctx: &Context,
    allowed: &[bool],
    price: &Price,
    table: &[i64],
) -> Option<i128>
    requires pool { IsPoolOf inst.now pool.now }
    requires allowed { allowed.now ≡ map (λ c. is_open_tour inst.now ctx.now c.0) pool.now }
    requires fit { IsFit (calls inst.now) (is_forced ctx.now) price.now }
    requires table { IsTableOf (calls inst.now) price.now.pi table.now }
    ensures { IsPoolSigma inst.now ctx.now price.now pool.now result }
{
    let mut sigma = None;
    for place in 0..pool.len() {
        let found = open_value(inst, pool, ctx, allowed, price, table, place);
        sigma = better(sigma, found);
    }
    sigma
}

/// The price with its bound over the pool.
pub fn rate(
    alloc: Global,
    inst: &Instance,
    pool: &Pool,
    ctx: &Context,
    allowed: &[bool],
    price: Price,
) -> Result<Candidate, AllocError>
    requires proper { IsProper inst.now ctx.now }
    requires pool { IsPoolOf inst.now pool.now }
    requires allowed { allowed.now ≡ map (λ c. is_open_tour inst.now ctx.now c.0) pool.now }
    requires fit { IsFit (calls inst.now) (is_forced ctx.now) price }
    ensures price { IfOk result (λ c. c.price ≡ price) }
    ensures rated { IfOk result (λ c. IsRated inst.now ctx.now pool.now c.price c.sigma c.bound) }
{
    let table = by_call(alloc, inst.calls(), price.pi.list())?;
    let sigma = greatest_value(inst, pool, ctx, allowed, &price, table.as_slice());
    let bound = bound(&price, sigma, ctx);
    Ok(Candidate {
        price,
        sigma,
        bound,
    })
}
