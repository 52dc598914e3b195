//! The bound of a price.

ghost use Rattle.std.specs.Prelude.{◌≡◌, ◌*◌, ◌^◌, pos, ◌*ℤ◌, MatchOption};
ghost use Rattle.orienteering.specs.Price.{IsFit, bound, sum_of_prices, tours_bound};
ghost use Rattle.orienteering.specs.Region.{is_forced};
ghost use Rattle.price_bound.specs.Magnitude.{IsWithin};

use orienteering::Price;
use region_ctx::Context;

fn sum_of_prices(entries: &[(u32, i64)]) -> i128
    ensures value { result ≡ sum_of_prices entries.now }
    ensures within { IsWithin (2 ^ 126) result }
{
    let mut sum: i128 = 0;
    for entry in entries {
        sum += i128::from(entry.1);
    }
    sum
}

/// So many tours of this value.
fn times(tours: u32, value: i128) -> i128
    requires { IsWithin (10 ^ 24) value }
    ensures value { result ≡ pos tours *ℤ value }
    ensures within { IsWithin (2 ^ 32 * 10 ^ 24) result }
{
    i128::from(tours) * value
}

fn tours_bound(sigma: Option<i128>, fewest: u32, most: u32) -> i128
    requires { MatchOption sigma (Unit {0}) (IsWithin (10 ^ 24)) }
    ensures value { result ≡ tours_bound sigma fewest most }
    ensures within { IsWithin (2 ^ 32 * 10 ^ 24) result }
{
    match sigma {
        None => 0,
        Some(value) => {
            if value >= 0 {
                times(most, value)
            } else {
                times(fewest, value)
            }
        }
    }
}

/// The bound of a price on the plans of a region, where sigma is the greatest value of a tour, or none: the sum of the
/// prices, and sigma once for each tour, as many as there may be where it is not negative, as few where it is.
pub fn bound(price: &Price, sigma: Option<i128>, ctx: &Context) -> i128
    requires fit { IsFit ctx.now.calls (is_forced ctx.now) price.now }
    requires sigma { MatchOption sigma (Unit {0}) (IsWithin (10 ^ 24)) }
    ensures { result ≡ bound price.now sigma ctx.now.fewest ctx.now.most }
{
    let (fewest, most) = ctx.counts();
    sum_of_prices(price.pi.list()) + tours_bound(sigma, fewest, most)
}
