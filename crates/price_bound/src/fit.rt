//! Whether a price is fit.

ghost use Rattle.std.specs.Prelude.{◌≡◌, ◌≤◌, None, Some, IfErr, OnOk};
ghost use Rattle.orienteering.specs.Instance.{calls};
ghost use Rattle.orienteering.specs.Price.{IsFit, entry_refusal, entries_refusal, price_refusal};
ghost use Rattle.orienteering.specs.Region.{is_forced};

use orienteering::{Price, PriceRefusal};
use region_ctx::Context;
use site_model::Instance;

/// The greatest weight of profit or of time.
const MOST_WEIGHT: u32 = 1_000_000_000;

/// The greatest magnitude of the price of a call.
const MOST_PRICE: u64 = 100_000_000_000_000_000;

/// What is wrong with the `k`-th entry, behind one for the call before.
fn entry_refusal(ctx: &Context, before: u32, k: u64, entry: (u32, i64)) -> Option<PriceRefusal>
    ensures { result ≡ entry_refusal ctx.now.calls (is_forced ctx.now) before k entry }
{
    let (call, price) = entry;
    if call == 0 || call > ctx.calls() {
        return Some(PriceRefusal::UnknownCall(k));
    }
    if call <= before {
        return Some(PriceRefusal::NotRising(k));
    }
    if price.unsigned_abs() > MOST_PRICE {
        return Some(PriceRefusal::OutOfRange(k));
    }
    if price < 0 && !ctx.forced(call) {
        return Some(PriceRefusal::Negative(k));
    }
    None
}

/// The first unfit entry.
fn entries_refusal(ctx: &Context, entries: &[(u32, i64)]) -> Option<PriceRefusal>
    ensures { result ≡ entries_refusal ctx.now.calls (is_forced ctx.now) 0 1 entries.now }
{
    let mut before = 0;
    for (index, entry) in entries.iter().enumerate() {
        if let Some(refusal) = entry_refusal(ctx, before, index as u64 + 1, *entry) {
            return Some(refusal);
        }
        before = entry.0;
    }
    None
}

/// The first unfit part of a price.
fn price_refusal(ctx: &Context, price: &Price) -> Option<PriceRefusal>
    ensures { result ≡ price_refusal ctx.now.calls (is_forced ctx.now) price.now }
{
    if price.alpha > MOST_WEIGHT || price.beta > MOST_WEIGHT {
        return Some(PriceRefusal::OutOfRange(0));
    }
    entries_refusal(ctx, price.pi.list())
}

/// Whether a price is fit for the plans of a region, or its first unfit part. The weights `alpha` of profit and `beta` of
/// time come first, with the number 0; then each entry, from 1: its call is one of the instance (`UnknownCall`) and greater
/// than the one before (`NotRising`), its price has a magnitude of at most 10^17 (`OutOfRange`) and is negative only on a
/// call that every plan of the region visits (`Negative`).
pub fn check_price(inst: &Instance, ctx: &Context, price: &Price) -> Result<(), PriceRefusal>
    requires { ctx.now.calls ≡ calls inst.now }
    ensures accepted { OnOk result (price_refusal (calls inst.now) (is_forced ctx.now) price.now ≡ None) }
    ensures fit { OnOk result (IsFit (calls inst.now) (is_forced ctx.now) price.now) }
    ensures refused { IfErr result (λ why. price_refusal (calls inst.now) (is_forced ctx.now) price.now ≡ Some why) }
{
    match price_refusal(ctx, price) {
        None => Ok(()),
        Some(refusal) => Err(refusal),
    }
}
