//! A search for prices of calls with a small bound, by volume averages (Barahona and Anbil 2000).
//!
//! Each round moves the best prices so far along an average of the subgradients of the rounds: a call that the best tours
//! visit more often than once becomes dearer, and one that they visit less often becomes cheaper. How far a round aims
//! grows where it succeeds and is halved where rounds miss. Prices are counted in parts of a unit, so that small weights
//! can be searched too. No contract here says how good the prices are.

ghost use Rattle.std.specs.Prelude.{◌≡◌, ◌+◌, ◌*◌, ◌^◌, ◌<◌, ◌≤◌, ◌≤ℤ◌, ◌⊎◌, pos, length, vec_len, map, All, Some, IfOk, IfSome};
ghost use Rattle.orienteering.specs.Instance.{calls};
ghost use Rattle.orienteering.specs.Price.{IsFit};
ghost use Rattle.orienteering.specs.Region.{IsProper, is_forced};
ghost use Rattle.pool_cols.specs.Pool.{IsPoolOf};
ghost use Rattle.price_bound.specs.Magnitude.{IsWithin};
ghost use Rattle.dual_master.specs.Search.{AreLaidOut, AreSought, IsSearch, IsSpan, most_worth};

use crate::open_tours::{OpenTours, Span, laid_out};
use crate::shares::{WHOLE_TOUR, filled};
use crate::table::{MOST_WORTH, listed, lowest, sought};
use orienteering::{Entries, Price};
use pool_cols::Pool;
use region_ctx::Context;
use site_model::Instance;
use std::alloc::{AllocError, Global};

/// Where a round aims at less, in parts of a unit, the search ends.
const LEAST_AIM: u64 = 64;

/// A tour and its value under some prices.
#[derive(Clone, Copy)]
struct Valued {
    span: Span,
    value: i64,
}

/// What a search knows after some rounds. Prices and bounds are in parts of a unit.
#[derive(Drop)]
pub struct Search {
    /// The prices of the least bound so far, and that bound.
    prices: Vec<i64>,
    least: i128,
    /// Whether that bound is less than at the start.
    improved: bool,
    /// The prices of a round.
    trial: Vec<i64>,
    /// How many visits of each call the bound counts, and how much of each tour of the pool, in parts of a million: averages
    /// over the rounds.
    visits: Vec<u32>,
    wanted: Vec<u32>,
    /// How far below the least bound a round aims, and how many rounds missed since that was last changed.
    aim: u64,
    misses: u32,
}

/// The value of a tour under the prices.
fn value_of(tours: &OpenTours, prices: &[i64], span: Span) -> i64
    requires span { IsSpan (length tours.now.calls.items) span }
    requires calls { All (λ call. call < length prices.now) tours.now.calls.items }
    requires prices { All (IsWithin most_worth) prices.now }
    ensures { IsWithin (301 * most_worth) result }
{
    let mut value = span.worth;
    for place in span.begin..span.end {
        value -= prices[tours.calls[place] as usize];
    }
    value
}

/// The one of greater value; of two that are equal the first.
fn greater(best: Option<Valued>, span: Span, value: i64) -> Option<Valued>
    ensures { (result ≡ best) ⊎ (result ≡ Some (record { span = span; value = value })) }
{
    match best {
        Some(valued) if value <= valued.value => best,
        _ => Some(Valued { span, value }),
    }
}

/// The first tour of greatest value under the prices.
fn best_tour(tours: &OpenTours, prices: &[i64]) -> Option<Valued>
    requires spans { All (IsSpan (length tours.now.calls.items)) tours.now.spans.items }
    requires calls { All (λ call. call < length prices.now) tours.now.calls.items }
    requires prices { All (IsWithin most_worth) prices.now }
    ensures span { IfSome result (λ best. IsSpan (length tours.now.calls.items) best.span) }
    ensures value { IfSome result (λ best. IsWithin (301 * most_worth) best.value) }
{
    let mut best = None;
    for span in &tours.spans {
        best = greater(best, *span, value_of(tours, prices, *span));
    }
    best
}

/// The sum of the prices of at most 301 places.
fn sum_of(prices: &[i64]) -> i64
    requires few { length prices.now ≤ 301 }
    requires prices { All (IsWithin most_worth) prices.now }
    ensures { IsWithin (301 * most_worth) result }
{
    let mut sum = 0;
    for price in prices {
        sum += *price;
    }
    sum
}

/// How many times the bound counts the value of the best tour.
fn counted(ctx: &Context, best: Option<Valued>) -> u32 {
    let (fewest, most) = ctx.counts();
    match best {
        None => 0,
        Some(valued) if valued.value < 0 => fewest,
        Some(_) => most,
    }
}

/// So many times the value.
fn times(count: u32, value: i64) -> i128
    ensures { IsWithin (2 ^ 96) result }
{
    i128::from(count) * i128::from(value)
}

/// The bound of the prices, where the best tour under them is counted so often.
fn bound_of(prices: &[i64], best: Option<Valued>, count: u32) -> i128
    requires few { length prices.now ≤ 301 }
    requires prices { All (IsWithin most_worth) prices.now }
{
    let sum = i128::from(sum_of(prices));
    match best {
        None => sum,
        Some(valued) => sum + times(count, valued.value),
    }
}

/// By how much the bound falls with the price of a call, where the best tours visit the call so often: whole visits are a
/// million parts. Nothing where the price would fall below the lowest.
fn slope_of(price: i64, low: i64, visits: u32) -> i64 {
    let slope = i64::from(visits) - i64::from(WHOLE_TOUR);
    if slope < 0 && price <= low { 0 } else { slope }
}

/// The sum of the squares of all slopes.
fn steepness(ctx: &Context, prices: &[i64], visits: &[u32]) -> u64
    requires prices { length prices.now ≡ ctx.now.calls + 1 }
    requires visits { length visits.now ≡ ctx.now.calls + 1 }
{
    let mut sum: u64 = 0;
    for call in 1..ctx.calls() + 1 {
        let place = call as usize;
        let slope = slope_of(prices[place], lowest(ctx, call), visits[place]).unsigned_abs();
        sum = sum.saturating_add(slope.saturating_mul(slope));
    }
    sum
}

/// How far a price of this slope moves where all prices together are to lower the bound by so much.
fn reach(aim: u64, slope: u64, steepness: u64) -> i64
    ensures low { pos 0 ≤ℤ result }
    ensures high { result ≤ℤ pos most_worth }
{
    let parts = slope.saturating_mul(u64::from(WHOLE_TOUR));
    let whole = u128::from(aim) * u128::from(parts);
    let far = whole / u128::from(steepness.max(1));
    i64::try_from(far).unwrap_or(MOST_WORTH).min(MOST_WORTH)
}

/// The price, moved along its slope.
fn moved(price: i64, low: i64, visits: u32, aim: u64, steepness: u64) -> i64
    requires price { IsWithin most_worth price }
    requires low { IsWithin most_worth low }
    requires below { low ≤ℤ pos 0 }
    ensures { IsWithin most_worth result }
{
    let slope = slope_of(price, low, visits);
    let far = reach(aim, slope.unsigned_abs(), steepness);
    let next = if slope < 0 { price - far } else { price + far };
    next.clamp(low, MOST_WORTH)
}

/// Moves all prices, so that they aim so far below their bound.
fn move_all(ctx: &Context, prices: &[i64], visits: &[u32], aim: u64, trial: &mut Vec<i64>)
    requires prices { AreSought ctx.now.calls prices.now }
    requires visits { length visits.now ≡ ctx.now.calls + 1 }
    requires trial { AreSought ctx.now.calls trial.old.items }
    ensures { AreSought ctx.now.calls trial.new.items }
{
    let steep = steepness(ctx, prices, visits);
    for call in 1..ctx.calls() + 1 {
        let place = call as usize;
        trial[place] = moved(prices[place], lowest(ctx, call), visits[place], aim, steep);
    }
}

/// Takes away the part of each number that so many halvings leave.
fn fade(parts: &mut Vec<u32>, halvings: u32)
    requires { halvings < 32 }
    ensures { vec_len parts.new ≡ vec_len parts.old }
{
    for part in parts.iter_mut() {
        *part -= *part >> halvings;
    }
}

/// Adds so many parts at a place.
fn add_parts(numbers: &mut Vec<u32>, place: usize, parts: u32)
    ensures { vec_len numbers.new ≡ vec_len numbers.old }
{
    if let Some(number) = numbers.get_mut(place) {
        *number = number.saturating_add(parts);
    }
}

/// Adds so many parts at each call of a tour.
fn add_visits(tours: &OpenTours, span: Span, parts: u32, visits: &mut Vec<u32>)
    requires { IsSpan (length tours.now.calls.items) span }
    ensures { vec_len visits.new ≡ vec_len visits.old }
{
    for place in span.begin..span.end {
        add_parts(visits, tours.calls[place] as usize, parts);
    }
}

/// How many times the weight of a round in the averages is halved: the first rounds count alike, the last ones an eighth.
fn halvings(round: u32) -> u32
    ensures { result < 4 }
{
    match round {
        0 | 1 => 1,
        2..=5 => 2,
        _ => 3,
    }
}

/// How far the first round aims: a part of the bound, or of the best value where the bound is near 0.
fn first_aim(least: i128, best: Option<Valued>) -> u64 {
    let value = match best {
        None => 0,
        Some(valued) => valued.value.unsigned_abs(),
    };
    let bound = u64::try_from(least.unsigned_abs()).unwrap_or(0);
    bound.max(value) / 20
}

impl Search {
    /// A search that knows the bound of its start.
    fn begun(
        alloc: Global,
        ctx: &Context,
        tours: &OpenTours,
        prices: Vec<i64>,
        size: u64,
    ) -> Result<Search, AllocError>
        requires tours { AreLaidOut ctx.now.calls tours.now }
        requires prices { AreSought ctx.now.calls prices.items }
        ensures search { IfOk result (IsSearch ctx.now.calls) }
        ensures wanted { IfOk result (λ search. vec_len search.wanted ≡ size) }
    {
        let mut trial = Vec::new(alloc);
        trial.extend_from_slice(prices.as_slice())?;
        let best = best_tour(tours, prices.as_slice());
        let count = counted(ctx, best);
        let least = bound_of(prices.as_slice(), best, count);
        let mut search = Search {
            prices,
            least,
            improved: false,
            trial,
            visits: filled(alloc, ctx.calls() as usize + 1, 0)?,
            wanted: filled(alloc, size as usize, 0)?,
            aim: first_aim(least, best),
            misses: 0,
        };
        search.count_in(tours, best, count, 0);
        Ok(search)
    }

    /// Lets the averages fade and counts the best tour of a round in.
    fn count_in(&mut self, tours: &OpenTours, best: Option<Valued>, count: u32, halvings: u32)
        requires few { halvings < 32 }
        requires span { IfSome best (λ valued. IsSpan (length tours.now.calls.items) valued.span) }
        ensures prices { self.new.prices ≡ self.old.prices }
        ensures trial { self.new.trial ≡ self.old.trial }
        ensures visits { vec_len self.new.visits ≡ vec_len self.old.visits }
        ensures wanted { vec_len self.new.wanted ≡ vec_len self.old.wanted }
    {
        fade(&mut self.visits, halvings);
        fade(&mut self.wanted, halvings);
        if let Some(valued) = best {
            let parts = count.saturating_mul(WHOLE_TOUR) >> halvings;
            add_visits(tours, valued.span, parts, &mut self.visits);
            add_parts(&mut self.wanted, valued.span.place, parts);
        }
    }

    /// Keeps the prices of a round if their bound is less, and aims farther then, or else nearer after two misses.
    fn judge(&mut self, bound: i128)
        requires { vec_len self.old.prices ≡ vec_len self.old.trial }
        ensures prices { (self.new.prices.items ≡ self.old.prices.items) ⊎ (self.new.prices.items ≡ self.old.trial.items) }
        ensures trial { self.new.trial ≡ self.old.trial }
        ensures visits { self.new.visits ≡ self.old.visits }
        ensures wanted { self.new.wanted ≡ self.old.wanted }
    {
        if bound < self.least {
            self.prices
                .as_mut_slice()
                .copy_from_slice(self.trial.as_slice());
            self.least = bound;
            self.improved = true;
            self.aim = self.aim.saturating_add(self.aim / 2);
            self.misses = 0;
        } else if self.misses == 0 {
            self.misses = 1;
        } else {
            self.aim /= 2;
            self.misses = 0;
        }
    }

    /// One round.
    fn run(&mut self, ctx: &Context, tours: &OpenTours, halvings: u32)
        requires few { halvings < 32 }
        requires tours { AreLaidOut ctx.now.calls tours.now }
        requires search { IsSearch ctx.now.calls self.old }
        ensures search { IsSearch ctx.now.calls self.new }
        ensures wanted { vec_len self.new.wanted ≡ vec_len self.old.wanted }
    {
        move_all(
            ctx,
            self.prices.as_slice(),
            self.visits.as_slice(),
            self.aim,
            &mut self.trial,
        );
        let best = best_tour(tours, self.trial.as_slice());
        let count = counted(ctx, best);
        let bound = bound_of(self.trial.as_slice(), best, count);
        self.count_in(tours, best, count, halvings);
        self.judge(bound);
    }
}

/// So many parts of a unit prices are counted in: many, unless the weight of profit is too great.
fn parts_of_unit(alpha: u32) -> u32 {
    if alpha < 900_000 { 1024 } else { 1 }
}

/// What a search from a price ends with: other prices with the same weights, if it found any that are better, and how much
/// is wanted of each tour of the pool, in parts of a million.
#[derive(Drop)]
pub struct Findings {
    pub price: Option<Price>,
    pub wanted: Vec<u32>,
}

/// Searches from a price in so many rounds.
pub fn found_from(
    alloc: Global,
    inst: &Instance,
    pool: &Pool,
    ctx: &Context,
    allowed: &[bool],
    start: &Price,
    rounds: u32,
) -> Result<Findings, AllocError>
    requires same { ctx.now.calls ≡ calls inst.now }
    requires pool { IsPoolOf inst.now pool.now }
    requires allowed { length allowed.now ≡ length pool.now }
    requires fit { IsFit (calls inst.now) (is_forced ctx.now) start.now }
    ensures wanted { IfOk result (λ found. vec_len found.wanted ≡ length pool.now) }
    ensures fit { IfOk result (λ found. IfSome found.price (IsFit (calls inst.now) (is_forced ctx.now))) }
    ensures alpha { IfOk result (λ found. IfSome found.price (λ price. price.alpha ≡ start.now.alpha)) }
    ensures beta { IfOk result (λ found. IfSome found.price (λ price. price.beta ≡ start.now.beta)) }
{
    let parts = parts_of_unit(start.alpha);
    let tours = laid_out(alloc, inst, pool, ctx, allowed, start, parts)?;
    let prices = sought(alloc, ctx.calls(), start.pi.list(), parts)?;
    let mut search = Search::begun(alloc, ctx, &tours, prices, pool.len())?;
    for round in 0..rounds {
        if search.aim < LEAST_AIM {
            break;
        }
        search.run(ctx, &tours, halvings(round));
    }
    let price = if search.improved {
        let entries = listed(alloc, ctx, search.prices.as_slice(), parts)?;
        Some(Price {
            alpha: start.alpha,
            beta: start.beta,
            pi: Entries::from_list(entries),
        })
    } else {
        None
    };
    Ok(Findings {
        price,
        wanted: search.wanted,
    })
}
