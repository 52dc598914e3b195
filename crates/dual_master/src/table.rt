//! Prices by the number of their call, and as a list of the calls that have one.

ghost use Rattle.std.specs.Prelude.{◌≡◌, ◌≤◌, ◌^◌, ◌≤ℤ◌, ◌<ℤ◌, pos, true, IfOk};
ghost use Rattle.std.specs.List.{AllByRecursion};
ghost use Rattle.orienteering.specs.Price.{IsFitEntry, RiseFrom, most_price};
ghost use Rattle.orienteering.specs.Region.{is_forced};
ghost use Rattle.price_bound.specs.Magnitude.{IsWithin};
ghost use Rattle.dual_master.specs.Candidate.{IsTableOf};
ghost use Rattle.dual_master.specs.Search.{AreSought, most_worth};

use region_ctx::Context;
use std::alloc::{AllocError, Global};

/// The most that a tour is worth at the greatest weight of profit. No price of a call need be greater, and the prices of
/// all calls together fit.
pub const MOST_WORTH: i64 = 30_000_000_000_000_000;

/// The price of each call, by its number.
pub fn by_call(alloc: Global, calls: u32, entries: &[(u32, i64)]) -> Result<Vec<i64>, AllocError>
    requires few { calls ≤ 300 }
    requires rising { RiseFrom calls 0 entries.now }
    ensures { IfOk result (λ table. IsTableOf calls entries.now table.items) }
{
    let mut table = Vec::new(alloc);
    table.resize(calls as usize + 1, 0i64)?;
    for back in 0..entries.len() {
        let entry = entries[entries.len() - 1 - back];
        table[entry.0 as usize] = entry.1;
    }
    Ok(table)
}

/// So many parts of each unit of the value, as far as a tour can be worth.
pub fn in_parts(value: i128, parts: u32) -> i64
    requires { IsWithin (10 ^ 24) value }
    ensures { IsWithin most_worth result }
{
    let limit = i128::from(MOST_WORTH);
    (i128::from(parts) * value).clamp(-limit, limit) as i64
}

/// The price of each call in parts of a unit, by its number.
pub fn sought(
    alloc: Global,
    calls: u32,
    entries: &[(u32, i64)],
    parts: u32,
) -> Result<Vec<i64>, AllocError>
    requires few { calls ≤ 300 }
    requires rising { RiseFrom calls 0 entries.now }
    ensures { IfOk result (λ prices. AreSought calls prices.items) }
{
    let table = by_call(alloc, calls, entries)?;
    let mut prices = Vec::new(alloc);
    for price in &table {
        prices.push(in_parts(i128::from(*price), parts))?;
    }
    Ok(prices)
}

/// The lowest price of a call: 0, unless each plan of the region visits it.
pub fn lowest(ctx: &Context, call: u32) -> i64
    requires low { 1 ≤ call }
    requires high { call ≤ ctx.now.calls }
    ensures within { IsWithin most_worth result }
    ensures below { result ≤ℤ pos 0 }
    ensures negative { result <ℤ pos 0 → is_forced ctx.now call ≡ true }
{
    if ctx.forced(call) { -MOST_WORTH } else { 0 }
}

/// The nearest whole price, but not below the lowest.
fn rounded(price: i64, parts: u32, low: i64) -> i64
    requires price { IsWithin most_worth price }
    requires low { IsWithin most_worth low }
    requires below { low ≤ℤ pos 0 }
    ensures within { IsWithin most_price result }
    ensures above { low ≤ℤ result }
{
    let parts = i64::from(parts.max(1));
    let units = (price + parts / 2) / parts;
    units.clamp(low, MOST_WORTH)
}

/// The calls that have a price, each with it, rounded to whole units.
pub fn listed(
    alloc: Global,
    ctx: &Context,
    prices: &[i64],
    parts: u32,
) -> Result<Vec<(u32, i64)>, AllocError>
    requires { AreSought ctx.now.calls prices.now }
    ensures rising { IfOk result (λ entries. RiseFrom ctx.now.calls 0 entries.items) }
    ensures fit { IfOk result (λ entries. AllByRecursion (IsFitEntry (is_forced ctx.now)) entries.items) }
{
    let mut entries = Vec::new(alloc);
    for call in 1..ctx.calls() + 1 {
        let price = rounded(prices[call as usize], parts, lowest(ctx, call));
        if price != 0 {
            entries.push((call, price))?;
        }
    }
    Ok(entries)
}
