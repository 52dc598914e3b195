//! What a price makes of the arcs and calls of a region: the tables that walks are extended by. They are advice: numbers saturate,
//! and a call may be arrived at only while the end can be reached straight from it.

use orienteering::Price;
use region_ctx::Context;
use site_model::Instance;
use std::alloc::{AllocError, Global};

/// How many critical calls there are marks for.
const MOST_MARKS: usize = 64;

/// The time from the arrival at one place to that at another, and what it earns.
#[derive(Clone, Copy, Debug, PartialEq, Eq)]
pub(crate) struct Leg {
    pub time: u64,
    pub worth: i64,
}

/// A call, when it may be arrived at, and its mark where it is critical.
#[derive(Clone, Copy, Debug, PartialEq, Eq)]
pub(crate) struct Stop {
    pub call: u32,
    pub opening: u64,
    pub latest: u64,
    pub mark: u64,
}

/// The legs and stops of a price.
#[derive(Drop)]
pub(crate) struct Legs {
    calls: u32,
    opening: u64,
    /// By the place that is left, then by that which is entered; none where the arc is shut.
    legs: Vec<Option<Leg>>,
    /// By call, from 1 on.
    stops: Vec<Stop>,
}

fn worth_of(price: &Price, score: u32, length: u64, priced: i64) -> i64 {
    let earned = i64::from(price.alpha).saturating_mul(i64::from(score));
    let paid = i64::from(price.beta).saturating_mul(length.min(1 << 32) as i64);
    earned.saturating_sub(paid).saturating_sub(priced)
}

/// The price of each place.
fn prices(alloc: Global, calls: u32, price: &Price) -> Result<Vec<i64>, AllocError> {
    let mut prices = vec![in alloc; 0; calls as usize + 2]?;
    for (call, part) in price.pi.list() {
        if let Some(own) = prices.get_mut(*call as usize) {
            *own = *part;
        }
    }
    Ok(prices)
}

/// Adds the legs from one place to all.
fn put_legs(
    inst: &Instance,
    ctx: &Context,
    price: &Price,
    prices: &[i64],
    from: u32,
    legs: &mut Vec<Option<Leg>>,
) -> Result<(), AllocError> {
    for to in 0..inst.calls() + 2 {
        if inst.calls() < from || !ctx.is_open(from, to) {
            legs.push(None)?;
            continue;
        }
        let length = inst.length(from, to);
        let priced = prices.get(to as usize).copied().unwrap_or(0);
        legs.push(Some(Leg {
            time: inst.service(from).saturating_add(length),
            worth: worth_of(price, inst.score(to), length, priced),
        }))?;
    }
    Ok(())
}

/// The mark of a call, 0 where it isn't critical.
fn mark_of(critical: &[u32], call: u32) -> u64 {
    let mut mark: u64 = 1;
    for other in critical.iter().take(MOST_MARKS) {
        if *other == call {
            return mark;
        }
        mark = mark.wrapping_add(mark);
    }
    0
}

/// The stops at all calls.
fn stops(alloc: Global, inst: &Instance, critical: &[u32]) -> Result<Vec<Stop>, AllocError> {
    let end = inst.calls() + 1;
    let mut stops = Vec::new(alloc);
    for before in 0..inst.calls() {
        let call = before + 1;
        let back = inst.service(call).saturating_add(inst.length(call, end));
        let in_time = inst.closing(end).saturating_sub(back);
        stops.push(Stop {
            call,
            opening: inst.opening(call),
            latest: in_time.min(inst.closing(call)),
            mark: mark_of(critical, call),
        })?;
    }
    Ok(stops)
}

impl Legs {
    pub fn of(
        alloc: Global,
        inst: &Instance,
        ctx: &Context,
        price: &Price,
        critical: &[u32],
    ) -> Result<Legs, AllocError> {
        let prices = prices(alloc, inst.calls(), price)?;
        let mut legs = Vec::new(alloc);
        for from in 0..inst.calls() + 1 {
            put_legs(inst, ctx, price, prices.as_slice(), from, &mut legs)?;
        }
        Ok(Legs {
            calls: inst.calls(),
            opening: inst.opening(0),
            legs,
            stops: stops(alloc, inst, critical)?,
        })
    }

    pub fn calls(&self) -> u32 {
        self.calls
    }

    /// The earliest clock of a walk.
    pub fn opening(&self) -> u64 {
        self.opening
    }

    /// By call, from 1 on.
    pub fn stops(&self) -> &[Stop] {
        self.stops.as_slice()
    }

    /// The leg between two places, none where the arc is shut.
    pub fn leg(&self, from: u32, to: u32) -> Option<Leg> {
        let row = (from as usize).wrapping_mul((self.calls as usize).wrapping_add(2));
        *self.legs.get(row.wrapping_add(to as usize))?
    }

    /// The leg to the end.
    pub fn leg_home(&self, from: u32) -> Option<Leg> {
        self.leg(from, self.calls.wrapping_add(1))
    }
}
