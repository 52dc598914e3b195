//! What to branch on: the number of tours, or an arc that is chosen by trials over the tours.

use crate::pricing::{Search, master_of, open_master};
use crate::trials::{Trials, rated};
use branch_pick::{ArcShare, pick};
use dual_master::{CornerMaster, TIME_PARTS, WHOLE_TOUR};
use orienteering::{Node, Point, Tour};
use pool_cols::Pool;
use std::alloc::{AllocError, Global};

/// Half of a tour.
const HALF: u32 = WHOLE_TOUR / 2;

/// How many arcs are tried.
const MOST_TRIED: usize = 16;

/// An arc to branch on, and the arc the other way round where that is the next in the part without it.
#[derive(Clone, Copy, Debug, PartialEq, Eq)]
pub(crate) struct Edge {
    pub from: u32,
    pub to: u32,
    pub mirror: Option<(u32, u32)>,
}

/// What to branch on.
#[derive(Clone, Copy, Debug, PartialEq, Eq)]
pub(crate) enum Branching {
    Count(u32),
    Arc(Edge),
    /// No arc is undecided.
    Decided,
}

/// Adds parts to an arc.
fn put_share(shares: &mut Vec<ArcShare>, from: u32, to: u32, parts: u32) -> Result<(), AllocError> {
    for share in shares.iter_mut() {
        if share.from == from && share.to == to {
            share.parts = share.parts.saturating_add(parts);
            return Ok(());
        }
    }
    shares.push(ArcShare { from, to, parts })?;
    Ok(())
}

fn put_tour(
    shares: &mut Vec<ArcShare>,
    tour: &Tour,
    end: u32,
    parts: u32,
) -> Result<(), AllocError> {
    let mut from = 0;
    for call in tour.calls() {
        put_share(shares, from, *call, parts)?;
        from = *call;
    }
    put_share(shares, from, end, parts)
}

/// The parts of a solution, by arcs, and how many parts of tours there are.
#[derive(Drop)]
struct Shares {
    arcs: Vec<ArcShare>,
    tours: u64,
}

fn arc_shares(
    alloc: Global,
    pool: &Pool,
    master: &CornerMaster,
    end: u32,
) -> Result<Shares, AllocError> {
    let mut arcs = Vec::new(alloc);
    let mut tours: u64 = 0;
    for (place, parts) in master.shares(alloc)? {
        tours = tours.saturating_add(u64::from(parts));
        if let Some((tour, _)) = pool.get(place) {
            put_tour(&mut arcs, tour, end, parts)?;
        }
    }
    Ok(Shares { arcs, tours })
}

/// Whether the parts are neither none nor all.
fn is_fraction(parts: u64) -> bool {
    let rest = parts % u64::from(WHOLE_TOUR);
    1 < rest && rest < u64::from(WHOLE_TOUR) - 1
}

/// The shares of undecided arcs that are neither none nor all.
fn fractions(
    alloc: Global,
    search: &Search<'_>,
    shares: &[ArcShare],
) -> Result<Vec<ArcShare>, AllocError> {
    let mut found = Vec::new(alloc);
    for share in shares {
        if is_fraction(u64::from(share.parts)) && search.ctx.is_undecided(share.from, share.to) {
            found.push(*share)?;
        }
    }
    Ok(found)
}

/// The undecided arc of the greatest share, if there is one, as if it were a half.
fn greatest_share(
    alloc: Global,
    search: &Search<'_>,
    shares: &[ArcShare],
) -> Result<Vec<ArcShare>, AllocError> {
    let mut chosen = Vec::new(alloc);
    let mut most = 0;
    for share in shares {
        if most < share.parts && search.ctx.is_undecided(share.from, share.to) {
            most = share.parts;
            chosen.clear();
            chosen.push(ArcShare {
                from: share.from,
                to: share.to,
                parts: HALF,
            })?;
        }
    }
    Ok(chosen)
}

/// The arc that is picked by shares.
fn picked(search: &Search<'_>, shares: &[ArcShare]) -> Branching {
    match pick(search.ctx, shares) {
        Some(choice) => Branching::Arc(Edge {
            from: choice.from,
            to: choice.to,
            mirror: None,
        }),
        None => Branching::Decided,
    }
}

/// The shares without the one of an arc.
fn without(
    alloc: Global,
    shares: &[ArcShare],
    from: u32,
    to: u32,
) -> Result<Vec<ArcShare>, AllocError> {
    let mut rest = Vec::new(alloc);
    for share in shares {
        if share.from != from || share.to != to {
            rest.push(*share)?;
        }
    }
    Ok(rest)
}

/// The best of the arcs whose shares are nearest to a half, by trials.
fn tried(
    alloc: Global,
    search: &Search<'_>,
    pool: &Pool,
    corners: &[Point],
    master: &CornerMaster,
    value: i64,
    shares: Vec<ArcShare>,
) -> Result<Branching, AllocError> {
    let goal = value.saturating_neg().max(TIME_PARTS);
    let places = master.near_places(alloc, goal.saturating_mul(2))?;
    let near = master_of(alloc, search, pool, corners, places.as_slice())?;
    let mut trials = Trials {
        search,
        pool,
        corners,
        master: near.solved(alloc)?,
        goal,
    };
    let mut left = shares;
    let mut best: Option<(i64, Edge)> = None;
    for _ in 0..MOST_TRIED {
        let Some(choice) = pick(search.ctx, left.as_slice()) else {
            break;
        };
        let rest = without(alloc, left.as_slice(), choice.from, choice.to)?;
        if rest.len() == left.len() {
            break;
        }
        left = rest;
        let (score, edge) = rated(alloc, &mut trials, choice.from, choice.to)?;
        let is_better = match best {
            None => true,
            Some((most, _)) => most < score,
        };
        if is_better {
            best = Some((score, edge));
        }
    }
    match best {
        Some((_, edge)) => Ok(Branching::Arc(edge)),
        None => Ok(picked(search, &[])),
    }
}

/// What to branch on: the number of tours where that is no whole number, else an arc. None where the tours' parts are whole
/// and there is no must.
pub(crate) fn choose_branching(
    alloc: Global,
    search: &Search<'_>,
    pool: &Pool,
    corners: &[Point],
    must: bool,
) -> Result<Option<Branching>, AllocError> {
    let mut master = open_master(alloc, search, pool, corners)?;
    let value = master.solve(alloc)?;
    let shares = arc_shares(alloc, pool, &master, search.ctx.calls() + 1)?;
    let (fewest, most) = search.ctx.counts();
    let count = shares.tours / u64::from(WHOLE_TOUR);
    if is_fraction(shares.tours) && u64::from(fewest) <= count && count < u64::from(most) {
        return Ok(Some(Branching::Count(count as u32)));
    }
    let open = fractions(alloc, search, shares.arcs.as_slice())?;
    if open.len() > 1 {
        return Ok(Some(tried(alloc, search, pool, corners, &master, value, open)?));
    }
    if !open.is_empty() {
        return Ok(Some(picked(search, open.as_slice())));
    }
    if !must {
        return Ok(None);
    }
    let whole = greatest_share(alloc, search, shares.arcs.as_slice())?;
    Ok(Some(picked(search, whole.as_slice())))
}
