//! The tours of a pool that no shut arc stops, laid out one after another.

ghost use Rattle.std.specs.Prelude.{◌≡◌, ◌<◌, ◌≤◌, ◌+◌, length, map, vec_len, IfOk, OnOk};
ghost use Rattle.std.specs.List.{AllByRecursion};
ghost use Rattle.orienteering.specs.Instance.{calls, IsCall};
ghost use Rattle.orienteering.specs.Limits.{most_calls};
ghost use Rattle.orienteering.specs.Price.{IsFit};
ghost use Rattle.orienteering.specs.Region.{is_forced};
ghost use Rattle.pool_cols.specs.Pool.{IsPoolOf};
ghost use Rattle.price_bound.specs.Magnitude.{IsWithin};
ghost use Rattle.dual_master.specs.Sigma.{is_open_tour};
ghost use Rattle.dual_master.specs.Shares.{column};
ghost use Rattle.dual_master.specs.Search.{AreLaidOut, most_worth};

use crate::rating::weighted;
use crate::table::in_parts;
use orienteering::{Point, Price};
use pool_cols::Pool;
use region_ctx::Context;
use site_model::Instance;
use std::alloc::{AllocError, Global};

/// Where the calls of a tour stand among those of all, and what the tour is worth before the prices of its calls, in the
/// parts of a unit that a search counts in.
#[derive(Clone, Copy)]
pub struct Span {
    /// The place of the tour in the pool.
    pub place: usize,
    pub begin: usize,
    pub end: usize,
    pub worth: i64,
}

/// Tours of a pool by rising places, with the calls of all of them in one list.
#[derive(Drop)]
pub struct OpenTours {
    pub spans: Vec<Span>,
    pub calls: Vec<u32>,
}

/// Whether no arc of the tour is shut.
fn is_open_tour(inst: &Instance, ctx: &Context, tour: &[u32]) -> bool
    requires same { ctx.now.calls ≡ calls inst.now }
    requires calls { AllByRecursion (IsCall inst.now) tour.now }
    ensures { result ≡ is_open_tour inst.now ctx.now tour.now }
{
    let mut place = 0;
    for call in tour {
        if ctx.is_shut(place, *call) {
            return false;
        }
        place = *call;
    }
    !ctx.is_shut(place, inst.calls() + 1)
}

/// Whether no arc of the tour at a place of the pool is shut.
fn is_open_at(inst: &Instance, ctx: &Context, pool: &Pool, place: u64) -> bool
    requires within { place < length pool.now }
    requires same { ctx.now.calls ≡ calls inst.now }
    requires pool { IsPoolOf inst.now pool.now }
    ensures { result ≡ is_open_tour inst.now ctx.now (column pool.now place).0 }
{
    match pool.get(place) {
        Some((tour, _)) => is_open_tour(inst, ctx, tour.calls()),
        None => false,
    }
}

/// For each tour of the pool whether no arc of it is shut.
pub fn open_flags(
    alloc: Global,
    inst: &Instance,
    pool: &Pool,
    ctx: &Context,
) -> Result<Vec<bool>, AllocError>
    requires same { ctx.now.calls ≡ calls inst.now }
    requires pool { IsPoolOf inst.now pool.now }
    ensures { IfOk result (λ flags. flags.items ≡ map (λ c. is_open_tour inst.now ctx.now c.0) pool.now) }
{
    let mut flags = Vec::new(alloc);
    for place in 0..pool.len() {
        flags.push(is_open_at(inst, ctx, pool, place))?;
    }
    Ok(flags)
}

/// Lays a tour behind the others.
fn lay_out(
    inst: &Instance,
    pool: &Pool,
    ctx: &Context,
    price: &Price,
    parts: u32,
    place: u64,
    tours: &mut OpenTours,
) -> Result<(), AllocError>
    requires within { place < length pool.now }
    requires same { ctx.now.calls ≡ calls inst.now }
    requires pool { IsPoolOf inst.now pool.now }
    requires fit { IsFit (calls inst.now) (is_forced ctx.now) price.now }
    requires tours { AreLaidOut ctx.now.calls tours.old }
    ensures { OnOk result (AreLaidOut ctx.now.calls tours.new) }
{
    let _ = inst.calls();
    let Some((tour, point)) = pool.get(place) else {
        return Ok(());
    };
    let begin = tours.calls.len();
    tours.calls.extend_from_slice(tour.calls())?;
    tours.spans.push(Span {
        place: place as usize,
        begin,
        end: tours.calls.len(),
        worth: in_parts(weighted(price, point), parts),
    })?;
    Ok(())
}

/// The allowed tours, each worth what its point is under the weights of a price.
pub fn laid_out(
    alloc: Global,
    inst: &Instance,
    pool: &Pool,
    ctx: &Context,
    allowed: &[bool],
    price: &Price,
    parts: u32,
) -> Result<OpenTours, AllocError>
    requires same { ctx.now.calls ≡ calls inst.now }
    requires pool { IsPoolOf inst.now pool.now }
    requires fit { IsFit (calls inst.now) (is_forced ctx.now) price.now }
    requires allowed { length allowed.now ≡ length pool.now }
    ensures { IfOk result (AreLaidOut ctx.now.calls) }
{
    let mut tours = OpenTours {
        spans: Vec::new(alloc),
        calls: Vec::new(alloc),
    };
    for place in 0..pool.len() {
        if allowed[place as usize] {
            lay_out(inst, pool, ctx, price, parts, place, &mut tours)?;
        }
    }
    Ok(tours)
}
