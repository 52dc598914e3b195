//! Shares of tours: what is wanted of each tour in turn, as far as its calls and the number of tours leave room.

ghost use Rattle.std.specs.Prelude.{◌≡◌, ℕ, ◌+◌, ◌*◌, ◌^◌, ◌<◌, ◌≤◌, pos, ◌*ℤ◌, length, vec_len, map, IfOk, slice_index, if◌then◌else◌};
ghost use Rattle.std.specs.List.{AllByRecursion};
ghost use Rattle.orienteering.specs.Instance.{calls};
ghost use Rattle.orienteering.specs.Price.{weighted};
ghost use Rattle.orienteering.specs.Region.{IsProper};
ghost use Rattle.pool_cols.specs.Pool.{IsPoolOf};
ghost use Rattle.price_bound.specs.Magnitude.{IsWithin};
ghost use Rattle.dual_master.specs.Sigma.{is_open_tour};
ghost use Rattle.dual_master.specs.Shares.{AreShares, IsBalanced, all_parts, column, visits, worth_of};

use crate::rating::weighted;
use orienteering::Price;
use pool_cols::Pool;
use region_ctx::Context;
use site_model::Instance;
use std::alloc::{AllocError, Global};
use std::marker::Model;

/// A whole tour has so many parts.
pub const WHOLE_TOUR: u32 = 1_000_000;

/// Tours of a pool by their places, which rise, each with its parts of a million.
#[derive(Drop)]
pub struct Shares {
    list: Vec<(u64, u32)>,
}

impl Model for Shares {
    ghost use Rattle.std.specs.Prelude.{List};
    ghost use Rattle.dual_master.specs.Shares.{Share};

    ghost Value = { List Share };

    ghost view = { λ s. s.list.items };
}

impl Shares {
    pub(crate) fn from_list(list: Vec<(u64, u32)>) -> Shares
        ensures { result ≡ list.items }
    {
        Shares { list }
    }

    pub fn list(&self) -> &[(u64, u32)]
        ensures { result.now ≡ self.now }
    {
        self.list.as_slice()
    }
}

/// The least room on the calls, or the most where they leave more.
fn least_room(room: &[u32], calls: &[u32], most: u32) -> u32
    requires { AllByRecursion (λ call. call < length room.now) calls.now }
    ensures most { result ≤ most }
    ensures rooms { AllByRecursion (λ call. result ≤ slice_index room.now call) calls.now }
{
    let mut least = most;
    for call in calls {
        least = least.min(room[*call as usize]);
    }
    least
}

/// Takes so many parts of the room on each of the calls.
fn take_room(room: &mut Vec<u32>, calls: &[u32], parts: u32)
    requires within { AllByRecursion (λ call. call < vec_len room.old) calls.now }
    requires rooms { AllByRecursion (λ call. parts ≤ slice_index room.old.items call) calls.now }
    ensures size { vec_len room.new ≡ vec_len room.old }
    ensures rooms { (call : ℕ) → slice_index room.new.items call + (if visits call calls.now then parts else 0) ≤ slice_index room.old.items call }
{
    for call in calls {
        let place = *call as usize;
        room[place] = room[place].saturating_sub(parts);
    }
}

/// Gives the tour at a place as many of the wanted parts as there is room for, and answers how many are left in all.
fn grant(
    inst: &Instance,
    pool: &Pool,
    ctx: &Context,
    allowed: &[bool],
    place: u64,
    wanted: u32,
    left: u32,
    room: &mut Vec<u32>,
    shares: &mut Vec<(u64, u32)>,
) -> Result<u32, AllocError>
    requires within { place < length pool.now }
    requires same { ctx.now.calls ≡ calls inst.now }
    requires pool { IsPoolOf inst.now pool.now }
    requires allowed { allowed.now ≡ map (λ c. is_open_tour inst.now ctx.now c.0) pool.now }
    requires balanced { IsBalanced inst.now ctx.now pool.now place room.old.items left shares.old.items }
    ensures { IfOk result (λ rest. IsBalanced inst.now ctx.now pool.now (place + 1) room.new.items rest shares.new.items) }
{
    let _ = inst.calls();
    if !allowed[place as usize] {
        return Ok(left);
    }
    match pool.get(place) {
        None => Ok(left),
        Some((tour, _)) => {
            let parts = least_room(room.as_slice(), tour.calls(), wanted.min(left));
            if parts == 0 {
                return Ok(left);
            }
            take_room(room, tour.calls(), parts);
            shares.push((place, parts))?;
            Ok(left - parts)
        }
    }
}

/// So many numbers, each of this value.
#[tactic(auto, using(crate::proofs::Balance::filled_room))]
pub fn filled(alloc: Global, size: usize, value: u32) -> Result<Vec<u32>, AllocError>
    ensures size { IfOk result (λ numbers. vec_len numbers ≡ size) }
    ensures values { IfOk result (λ numbers. (k : ℕ) → slice_index numbers.items k ≤ value) }
{
    vec![in alloc; value; size]
}

/// Shares that keep the limits, of each tour at most what is wanted.
pub fn limited(
    alloc: Global,
    inst: &Instance,
    pool: &Pool,
    ctx: &Context,
    allowed: &[bool],
    wanted: &[u32],
) -> Result<Vec<(u64, u32)>, AllocError>
    requires proper { IsProper inst.now ctx.now }
    requires pool { IsPoolOf inst.now pool.now }
    requires allowed { allowed.now ≡ map (λ c. is_open_tour inst.now ctx.now c.0) pool.now }
    requires wanted { length wanted.now ≡ length pool.now }
    ensures { IfOk result (λ shares. AreShares inst.now ctx.now pool.now shares.items) }
{
    let _ = inst.team();
    let (_, most) = ctx.counts();
    let mut room = filled(alloc, ctx.calls() as usize + 1, WHOLE_TOUR)?;
    let mut left = most * WHOLE_TOUR;
    let mut shares = Vec::new(alloc);
    for place in 0..pool.len() {
        left = grant(
            inst,
            pool,
            ctx,
            allowed,
            place,
            wanted[place as usize],
            left,
            &mut room,
            &mut shares,
        )?;
    }
    Ok(shares)
}

/// What so many parts of a tour are worth.
fn parts_worth(parts: u32, worth: i128) -> i128
    requires { IsWithin (2 * 10 ^ 17) worth }
    ensures value { result ≡ pos parts *ℤ worth }
    ensures within { IsWithin (parts * (2 * 10 ^ 17)) result }
{
    i128::from(parts) * worth
}

/// What the tour at a place is worth before the prices of its calls.
fn worth_at(inst: &Instance, pool: &Pool, price: &Price, place: u64) -> i128
    requires within { place < length pool.now }
    requires pool { IsPoolOf inst.now pool.now }
    requires alpha { price.now.alpha ≤ 10 ^ 9 }
    requires beta { price.now.beta ≤ 10 ^ 9 }
    ensures value { result ≡ weighted price.now (column pool.now place).1 }
    ensures within { IsWithin (2 * 10 ^ 17) result }
{
    let _ = inst.calls();
    match pool.get(place) {
        None => 0,
        Some((_, point)) => weighted(price, point),
    }
}

/// What the shares are worth before the prices of their calls.
pub fn worth_of(
    inst: &Instance,
    pool: &Pool,
    ctx: &Context,
    price: &Price,
    shares: &[(u64, u32)],
) -> i128
    requires few { ctx.now.most ≤ 32 }
    requires shares { AreShares inst.now ctx.now pool.now shares.now }
    requires pool { IsPoolOf inst.now pool.now }
    requires alpha { price.now.alpha ≤ 10 ^ 9 }
    requires beta { price.now.beta ≤ 10 ^ 9 }
    ensures value { result ≡ worth_of price.now pool.now shares.now }
    ensures within { IsWithin (32 * 10 ^ 6 * (2 * 10 ^ 17)) result }
{
    let mut sum: i128 = 0;
    for share in shares {
        sum += parts_worth(share.1, worth_at(inst, pool, price, share.0));
    }
    sum
}
