ghost use Rattle.std.specs.Prelude.{IfOk, OnOk};
ghost use Rattle.orienteering.specs.Instance.{calls};
ghost use Rattle.orienteering.specs.Price.{IsFit};
ghost use Rattle.orienteering.specs.Region.{IsProper, is_forced};
ghost use Rattle.orienteering.specs.Tour.{IsFeasibleTour};
ghost use Rattle.pool_cols.specs.Pool.{IsPoolOf};

use super::*;
use fixed_num::Scale;
use orienteering::{Box2, Entries, Place, Point, Price, Tour};
use pool_cols::Pool;
use price_bound::bound;
use region_ctx::Context;
use site_model::{Instance, Parts, Places};
use std::alloc::{AllocError, Global};
use std::test::Fail;
use tour_check::tour_value;

const fn spot(x: i64, y: i64, score: u32, closing: u64) -> Place {
    Place {
        x,
        y,
        score,
        service: 0,
        opening: 0,
        closing,
    }
}

fn instance(alloc: Global, places: Vec<Place>, team: u32) -> Result<Instance, Fail> {
    let parts = Parts {
        scale: Scale::One,
        team,
        places: Places::from_list(places),
    };
    Ok(Instance::new(alloc, parts)?)
}

/// Calls at one place, three units from the start, which is also the end: the first and nine more.
fn ten_calls(alloc: Global, first: u32, others: u32, closing: u64) -> Result<Instance, Fail> {
    let mut places = Vec::new(alloc);
    places.push(spot(0, 0, 0, 10))?;
    places.push(spot(30_000, 0, first, closing))?;
    for _ in 0..9u32 {
        places.push(spot(30_000, 0, others, closing))?;
    }
    places.push(spot(0, 0, 0, 10))?;
    instance(alloc, places, 2)
}

/// Two calls at distances 3 and 4 from the start, which is also the end. No tour visits both.
fn triangle(alloc: Global) -> Result<Instance, Fail> {
    let mut places = Vec::new(alloc);
    places.push(spot(0, 0, 0, 10))?;
    places.push(spot(30_000, 0, 5, 10))?;
    places.push(spot(0, 40_000, 7, 10))?;
    places.push(spot(0, 0, 0, 10))?;
    instance(alloc, places, 1)
}

#[tactic(auto, using(orienteering::proofs::SplitLaws::root_is_proper))]
fn root(alloc: Global, inst: &Instance) -> Result<Context, AllocError>
    ensures { IfOk result (IsProper inst.now) }
{
    Context::root(alloc, inst)
}

/// Profit alone, and no call has a price.
fn profit(alloc: Global, inst: &Instance, ctx: &Context) -> Price
    ensures { IsFit (calls inst.now) (is_forced ctx.now) result }
{
    Price {
        alpha: 1,
        beta: 0,
        pi: Entries::from_list(Vec::new(alloc)),
    }
}

/// The tour, if it is feasible.
fn feasible(alloc: Global, inst: &Instance, tour: Tour) -> Result<Tour, Fail>
    ensures { IfOk result (IsFeasibleTour inst.now) }
{
    match tour_value(alloc, inst, &tour) {
        Ok(_) => Ok(tour),
        Err(_) => Err("no tour".into()),
    }
}

/// The tours of single calls up to the last, and if it is wanted one through all of them.
fn pool_of(alloc: Global, inst: &Instance, last: u32, all: bool) -> Result<Pool, Fail>
    ensures { IfOk result (IsPoolOf inst.now) }
{
    let mut pool = Pool::new(alloc)?;
    let mut through = Vec::new(alloc);
    for before in 0..last {
        let call = before + 1;
        let single = Tour::from_calls(Vec::from_slice(alloc, &[call])?);
        pool.add(inst, feasible(alloc, inst, single)?)?;
        through.push(call)?;
    }
    if all {
        pool.add(inst, feasible(alloc, inst, Tour::from_calls(through))?)?;
    }
    Ok(pool)
}

/// The plans of a region that don't travel the arc.
fn without(inst: &Instance, ctx: &Context, i: u32, j: u32) -> Result<Context, Fail>
    requires { IsProper inst.now ctx.now }
    ensures { IfOk result (IsProper inst.now) }
{
    match ctx.split_arc(i, j) {
        Ok(children) => Ok(children.1),
        Err(_) => Err("no arc to split by".into()),
    }
}

/// The plans of the instance that travel none of these arcs.
fn region(alloc: Global, inst: &Instance, shut: &[(u32, u32)]) -> Result<Context, Fail>
    ensures { IfOk result (IsProper inst.now) }
{
    let mut ctx = root(alloc, inst)?;
    for (i, j) in shut {
        ctx = without(inst, &ctx, *i, *j)?;
    }
    Ok(ctx)
}

/// What was found: the bound, sigma and the gap, and how many prices and shares there are with the first of them.
#[derive(Clone, Copy)]
struct Summary {
    bound: i128,
    sigma: Option<i128>,
    gap: i128,
    prices: usize,
    call: u32,
    price: i64,
    shares: usize,
    place: u64,
    parts: u32,
}

/// What is found from profit alone in so many rounds.
fn found(
    alloc: Global,
    inst: &Instance,
    pool: &Pool,
    ctx: &Context,
    rounds: u32,
) -> Result<Summary, Fail>
    requires proper { IsProper inst.now ctx.now }
    requires pool { IsPoolOf inst.now pool.now }
{
    let start = profit(alloc, inst, ctx);
    let answer = improve(alloc, inst, pool, ctx, &start, rounds)?;
    let bound = bound(&answer.price, answer.sigma, ctx);
    let (call, price) = match answer.price.pi.list() {
        [] => (0, 0),
        [first, ..] => *first,
    };
    let (place, parts) = match answer.shares.list() {
        [] => (0, 0),
        [first, ..] => *first,
    };
    Ok(Summary {
        bound,
        sigma: answer.sigma,
        gap: answer.gap,
        prices: answer.price.pi.list().len(),
        call,
        price,
        shares: answer.shares.list().len(),
        place,
        parts,
    })
}

fn of_triangle(alloc: Global, shut: &[(u32, u32)], rounds: u32) -> Result<Summary, Fail> {
    let inst = triangle(alloc)?;
    let pool = pool_of(alloc, &inst, 2, false)?;
    let ctx = region(alloc, &inst, shut)?;
    found(alloc, &inst, &pool, &ctx, rounds)
}

#[test]
fn pool_and_prices(rt: HostRuntime) -> Result<(), Fail> {
    for rounds in [0, 1, 100] {
        let found = of_triangle(rt.alloc(), &[], rounds)?;
        assert_eq!(rt; found.bound, 7, "{rounds} rounds");
        assert_eq!(rt; found.sigma, Some(7));
        assert_eq!(rt; found.gap, 0);
        assert_eq!(rt; found.prices, 0);
        assert_eq!(rt; found.shares, 1);
        assert_eq!(rt; found.place, 1);
        assert_eq!(rt; found.parts, 1_000_000);
    }
    Ok(())
}

// The richer tour is shut first, then also the other one.
#[test]
fn shut_tours_do_not_count(rt: HostRuntime) -> Result<(), Fail> {
    let one = of_triangle(rt.alloc(), &[(2, 3)], 100)?;
    assert_eq!(rt; one.bound, 5);
    assert_eq!(rt; one.shares, 1);
    assert_eq!(rt; one.place, 0);
    assert_eq!(rt; one.parts, 1_000_000);
    let none = of_triangle(rt.alloc(), &[(2, 3), (0, 1)], 100)?;
    assert_eq!(rt; none.bound, 0);
    assert_eq!(rt; none.sigma, None);
    assert_eq!(rt; none.shares, 0);
    Ok(())
}

fn of_ten(alloc: Global, inst: &Instance, all: bool, rounds: u32) -> Result<Summary, Fail> {
    let pool = pool_of(alloc, inst, 10, all)?;
    let ctx = root(alloc, inst)?;
    found(alloc, inst, &pool, &ctx, rounds)
}

// Each of ten calls takes a tour of its own, and there are two tours: what call 1 earns beyond the others becomes its price.
#[test]
fn ten_single_call_tours(rt: HostRuntime) -> Result<(), Fail> {
    let inst = ten_calls(rt.alloc(), 9, 5, 3)?;
    assert_eq!(rt; of_ten(rt.alloc(), &inst, false, 0)?.bound, 18);
    let found = of_ten(rt.alloc(), &inst, false, 100)?;
    assert_eq!(rt; found.bound, 14);
    assert_eq!(rt; found.sigma, Some(5));
    assert_eq!(rt; found.prices, 1);
    assert_eq!(rt; found.call, 1);
    assert_eq!(rt; found.price, 4);
    Ok(())
}

// One tour visits all calls and so earns all that there is: prices halve the bound of two tours.
#[test]
fn prices_halve_the_bound(rt: HostRuntime) -> Result<(), Fail> {
    let inst = ten_calls(rt.alloc(), 1, 1, 10)?;
    assert_eq!(rt; of_ten(rt.alloc(), &inst, true, 0)?.bound, 20);
    assert_eq!(rt; of_ten(rt.alloc(), &inst, true, 100)?.bound, 10);
    Ok(())
}

/// The master over the two tours of the triangle and these corners, in its solution.
fn solved(alloc: Global, corners: &[Point]) -> Result<(CornerMaster, i64), Fail> {
    let inst = triangle(alloc)?;
    let ctx = root(alloc, &inst)?;
    let whole = Box2 {
        p_lo: 0,
        p_hi: 7,
        t_lo: 0,
        t_hi: 10,
    };
    let mut master = CornerMaster::new(alloc, &ctx, whole, corners)?;
    master.add(0, &[1], Point { profit: 5, time: 6 })?;
    master.add(1, &[2], Point { profit: 7, time: 8 })?;
    let value = master.solve(alloc)?;
    Ok((master, value))
}

// Six sevenths of the richer tour earn as much as the corner, in 48 sevenths of a unit.
#[test]
fn corner_out_of_reach(rt: HostRuntime) -> Result<(), Fail> {
    let alloc = rt.alloc();
    let (master, value) = solved(alloc, &[Point { profit: 6, time: 6 }])?;
    assert_eq!(rt; value, 8_571);
    let shares = master.shares(alloc)?;
    assert!(rt; shares.as_slice() == [(1, 857_143)].as_slice());
    let inst = triangle(alloc)?;
    let price = master.price(alloc, &root(alloc, &inst)?)?;
    assert_eq!(rt; price.alpha, 1_142_857);
    assert_eq!(rt; price.beta, 1_000_000);
    assert!(rt; price.pi.list().is_empty());
    assert_eq!(rt; master.level(price.beta), 0);
    Ok(())
}

#[test]
fn corner_within_reach(rt: HostRuntime) -> Result<(), Fail> {
    let alloc = rt.alloc();
    let far = Point { profit: 6, time: 6 };
    let near = Point { profit: 5, time: 7 };
    let (mut master, value) = solved(alloc, &[far, near])?;
    assert!(rt; value < 0);
    master.focus(0, 6);
    assert_eq!(rt; master.solve(alloc)?, 8_571);
    Ok(())
}

#[test]
fn what_a_solution_leans_on(rt: HostRuntime) -> Result<(), Fail> {
    let alloc = rt.alloc();
    let (master, _) = solved(alloc, &[Point { profit: 6, time: 6 }])?;
    let mut trials = master.solved(alloc)?;
    for (lost, visited, gain) in [
        ([false, false], [].as_slice(), 0),
        ([true, false], [].as_slice(), 0),
        ([false, true], [].as_slice(), 50_000),
        ([false, false], [2].as_slice(), 11_429),
        ([false, false], [1].as_slice(), 50_000),
    ] {
        let found = trials.gain(alloc, lost.as_slice(), visited, 50_000)?;
        assert_eq!(rt; found, gain);
    }
    Ok(())
}
