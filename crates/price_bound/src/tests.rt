use crate::{bound, check_price};
use fixed_num::Scale;
use orienteering::{Entries, Place, Price, Split};
use region_ctx::Context;
use site_model::{Instance, Parts, Places};
use std::alloc::Global;
use std::test::Fail;

const fn spot(x: i64, y: i64, score: u32) -> Place {
    Place {
        x,
        y,
        score,
        service: 0,
        opening: 0,
        closing: 10,
    }
}

/// Two calls at distances 3 and 4 from the start, which is also the end, and 5 from each other; one member, limit 10.
fn two_calls(alloc: Global) -> Result<Instance, Fail> {
    let places = [
        spot(0, 0, 0),
        spot(30_000, 0, 5),
        spot(0, 40_000, 7),
        spot(0, 0, 0),
    ];
    let parts = Parts {
        scale: Scale::One,
        team: 1,
        places: Places::from_list(Vec::from_slice(alloc, &places)?),
    };
    Ok(Instance::new(alloc, parts)?)
}

/// One side of a split: the first part of the region, or the second.
type Side = (Split, bool);

const SOME_PROFIT: Side = (Split::Profit { v: 0 }, false);

const A_TOUR: Side = (Split::Count { c: 0 }, false);

const LATER_THAN_5: Side = (Split::Time { v: 5 }, false);

const MORE_THAN_5: Side = (Split::Profit { v: 5 }, false);

const UP_TO_7: Side = (Split::Time { v: 7 }, true);

/// The part of all plans on these sides.
fn region(alloc: Global, inst: &Instance, sides: &[Side]) -> Result<Context, Fail> {
    let mut ctx = Context::root(alloc, inst)?;
    for (split, is_first) in sides {
        let Ok((first, second)) = ctx.split(*split) else {
            return Err("no split".into());
        };
        ctx = if *is_first { first } else { second };
    }
    Ok(ctx)
}

/// A cut and its region: the weights of profit and time, the price of call 1 or 0 where it has none, the greatest value
/// of a relaxed walk, the bound, and the value of the best corner of the region.
type Cut = (&'static [Side], u32, u32, i64, i32, i128, i128);

const CUTS: &[Cut] = &[
    (
        &[SOME_PROFIT, A_TOUR, (Split::Time { v: 5 }, true)],
        0,
        1,
        0,
        -6,
        -6,
        -5,
    ),
    (
        &[
            SOME_PROFIT,
            A_TOUR,
            LATER_THAN_5,
            MORE_THAN_5,
            UP_TO_7,
            (Split::Arc { i: 0, j: 1 }, true),
        ],
        1,
        0,
        -2,
        7,
        5,
        6,
    ),
    (
        &[
            SOME_PROFIT,
            A_TOUR,
            LATER_THAN_5,
            MORE_THAN_5,
            UP_TO_7,
            (Split::Arc { i: 0, j: 1 }, false),
        ],
        0,
        1,
        0,
        -8,
        -8,
        -7,
    ),
    (
        &[
            SOME_PROFIT,
            A_TOUR,
            LATER_THAN_5,
            MORE_THAN_5,
            (Split::Time { v: 7 }, false),
            (Split::Profit { v: 7 }, false),
        ],
        1,
        0,
        0,
        7,
        7,
        8,
    ),
];

/// The price of a cut.
fn price_of(alloc: Global, alpha: u32, beta: u32, entry: i64) -> Result<Price, Fail> {
    let mut entries = Vec::new(alloc);
    if entry != 0 {
        entries.push((1, entry))?;
    }
    Ok(Price {
        alpha,
        beta,
        pi: Entries::from_list(entries),
    })
}

/// The bound of a cut, and the value of the best corner of its region.
fn bound_and_corner(
    inst: &Instance,
    ctx: &Context,
    price: &Price,
    sigma: i32,
) -> Result<(i128, i128), Fail> {
    if ctx.calls() != inst.calls() {
        return Err("another instance".into());
    }
    if check_price(inst, ctx, price).is_err() {
        return Err("an unfit price".into());
    }
    let Some(area) = ctx.tight(inst) else {
        return Err("an empty region".into());
    };
    let earned = i128::from(price.alpha) * i128::from(area.p_lo);
    let paid = i128::from(price.beta) * i128::from(area.t_hi);
    let corner = earned.saturating_sub(paid);
    Ok((bound(price, Some(i128::from(sigma)), ctx), corner))
}

/// The four cuts of a closed certificate: each corner is above the bound.
#[test]
fn closed_certificate(rt: HostRuntime) -> Result<(), Fail> {
    let inst = two_calls(rt.alloc())?;
    for (sides, alpha, beta, entry, sigma, bound, corner) in CUTS {
        let ctx = region(rt.alloc(), &inst, sides)?;
        let price = price_of(rt.alloc(), *alpha, *beta, *entry)?;
        let found = bound_and_corner(&inst, &ctx, &price, *sigma)?;
        assert!(rt; found == (*bound, *corner), "{found:?}");
    }
    Ok(())
}
