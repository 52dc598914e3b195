//! Cuts with prices of calls, by the generation of tours.

ghost use Rattle.std.specs.Prelude.{IfOk, IfSome};
ghost use Rattle.growth.specs.Growth.{IsReplayed};
ghost use Rattle.sweep_solver.specs.Rules.{rules_of, IsProperIn};

use crate::aim::{greatest_closed_time, is_closed_by};
use crate::learned::{Learned, is_open_tour, learn, open_places};
use crate::regions::Regions;
use crate::replay::replay_cut;
use dual_master::CornerMaster;
use front_archive::Archive;
use growth::Proposal;
use orienteering::{Box2, CutOnPath, Point, Price, Tour};
use pool_cols::Pool;
use price_bound::check_price;
use proof_check::is_critical_set;
use region_ctx::Context;
use relax_states::{Walks, best_walks};
use std::alloc::{AllocError, Global};

/// How many replays a cut may take.
const MOST_REPLAYS: u32 = 400;

/// How many replays a cut that lifts a box may take.
const MOST_LIFTS: u32 = 60;

/// How many labels such a replay may keep.
const MOST_LIFT_LABELS: u64 = 20_000;

/// How many walks put the calls that they repeat into a critical set.
const MOST_REPEATED: usize = 3;

/// What a search goes on with at a node.
#[derive(Drop)]
pub(crate) struct Search<'a> {
    pub regions: &'a Regions<'a>,
    pub ctx: &'a Context,
    pub archive: &'a Archive,
    pub root: Box2,
    /// Whether tours may be travelled the other way round.
    pub is_reversible: bool,
    /// Whether a box that needs arcs may wait for its turn.
    pub may_wait: bool,
}

/// Whether the bound leaves out all of the corners.
fn closes_all(price: &Price, bound: i128, corners: &[Point]) -> bool {
    let cut = CutOnPath {
        alpha: price.alpha,
        beta: price.beta,
        bound,
    };
    corners.iter().all(|corner| {
        is_closed_by(
            cut,
            Box2 {
                p_lo: corner.profit,
                p_hi: corner.profit,
                t_lo: corner.time,
                t_hi: corner.time,
            },
        )
    })
}

/// Whether the walk comes to no call again.
fn is_elementary(walk: &[u32]) -> bool {
    walk.iter().enumerate().all(|(place, call)| !walk.iter().take(place).any(|other| other == call))
}

/// The tour the other way round.
pub(crate) fn reversed(alloc: Global, calls: &[u32]) -> Result<Tour, AllocError> {
    let mut back = Vec::new(alloc);
    for call in calls.iter().rev() {
        back.push(*call)?;
    }
    Ok(Tour::from_calls(back))
}

/// The critical set with the calls that the walk repeats, by rising number.
fn with_repeats(
    alloc: Global,
    calls: u32,
    critical: &[u32],
    walk: &[u32],
) -> Result<Vec<u32>, AllocError> {
    let mut grown = Vec::new(alloc);
    for before in 0..calls {
        let call = before + 1;
        let visits = walk.iter().filter(|other| **other == call).count();
        if critical.contains(&call) || visits > 1 {
            grown.push(call)?;
        }
    }
    Ok(grown)
}

/// A master over tours of the pool.
pub(crate) fn master_of(
    alloc: Global,
    search: &Search<'_>,
    pool: &Pool,
    corners: &[Point],
    places: &[u64],
) -> Result<CornerMaster, AllocError> {
    let mut master = CornerMaster::new(alloc, search.ctx, search.root, corners)?;
    for place in places {
        if let Some((tour, point)) = pool.get(*place) {
            master.add(*place, tour.calls(), point)?;
        }
    }
    Ok(master)
}

/// A master over the tours of the pool without a shut arc.
pub(crate) fn open_master(
    alloc: Global,
    search: &Search<'_>,
    pool: &Pool,
    corners: &[Point],
) -> Result<CornerMaster, AllocError> {
    let places = open_places(alloc, pool, search.ctx)?;
    master_of(alloc, search, pool, corners, places.as_slice())
}

/// Learns a tour, and puts it into the master where it is new and has no shut arc. Answers whether it did.
fn put_tour(
    alloc: Global,
    search: &Search<'_>,
    pool: &mut Pool,
    learned: &mut Learned,
    master: &mut CornerMaster,
    tour: Tour,
) -> Result<bool, AllocError> {
    let place = pool.len();
    if !learn(alloc, search.regions, search.archive, pool, learned, tour)? {
        return Ok(false);
    }
    match pool.get(place) {
        Some((tour, point)) if is_open_tour(search.ctx, tour.calls()) => {
            master.add(place, tour.calls(), point)?;
            Ok(true)
        }
        _ => Ok(false),
    }
}

/// The bound of a cut by its replay, unless its price isn't fit or has too many labels.
fn replayed(
    alloc: Global,
    search: &Search<'_>,
    price: &Price,
    critical: &[u32],
) -> Result<Option<i128>, AllocError>
    requires { IsProperIn search.now.regions.now search.now.ctx.now }
    ensures { IfOk result (λ found. IfSome found (λ bound.
        IsReplayed (rules_of search.now.regions.now) search.now.ctx.now (Proposal.Replayed price.now critical.now bound))) }
{
    if check_price(search.regions.inst, search.ctx, price).is_err()
        || !is_critical_set(search.regions.inst.calls(), critical)
    {
        return Ok(None);
    }
    replay_cut(alloc, search.regions, search.ctx, price, critical)
}

/// A cut whose bound is replayed and leaves out all of the corners, unless its price isn't fit or has too many labels.
fn replayed_cut(
    alloc: Global,
    search: &Search<'_>,
    found: Found,
    corners: &[Point],
) -> Result<Option<Proposal>, AllocError>
    requires { IsProperIn search.now.regions.now search.now.ctx.now }
    ensures { IfOk result (λ found. IfSome found (IsReplayed (rules_of search.now.regions.now) search.now.ctx.now)) }
{
    let Found { price, critical } = found;
    match replayed(alloc, search, &price, critical.as_slice())? {
        Some(bound) if closes_all(&price, bound, corners) => Ok(Some(Proposal::Replayed {
            price,
            critical: Tour::from_calls(critical),
            bound,
        })),
        _ => Ok(None),
    }
}

/// What walks are worth more than to be looked at: the worth of the master's tours. Where a region asks for no tour, all are: tours
/// that are worth less don't help there, but in regions below, and save nodes.
fn least_worth(search: &Search<'_>, master: &CornerMaster, price: &Price) -> i128 {
    let (fewest, _) = search.ctx.counts();
    if fewest == 0 {
        return i128::MIN;
    }
    let slack = i128::from(price.beta / 100 + 1);
    master.level(price.beta).saturating_add(slack)
}

/// The walks of a price that are worth looking at.
fn better_walks(
    alloc: Global,
    search: &Search<'_>,
    labels: u64,
    master: &CornerMaster,
    price: &Price,
    critical: &[u32],
) -> Result<Option<Walks>, AllocError> {
    let above = least_worth(search, master, price);
    let inst = search.regions.inst;
    best_walks(alloc, inst, search.ctx, price, critical, above, labels)
}

/// Learns the first of the walks that is a new tour, with its mirror. Answers whether there is one.
fn learn_first(
    alloc: Global,
    search: &Search<'_>,
    pool: &mut Pool,
    learned: &mut Learned,
    master: &mut CornerMaster,
    walks: &[Tour],
) -> Result<bool, AllocError> {
    for walk in walks {
        if !is_elementary(walk.calls()) {
            continue;
        }
        let copy = walk.copy(alloc)?;
        let back = reversed(alloc, walk.calls())?;
        let one = put_tour(alloc, search, pool, learned, master, copy)?;
        let other = put_tour(alloc, search, pool, learned, master, back)?;
        if one || other {
            return Ok(true);
        }
    }
    Ok(false)
}

/// The critical set with the calls that the first walks repeat.
fn grown_set(
    alloc: Global,
    calls: u32,
    critical: &[u32],
    walks: &[Tour],
) -> Result<Vec<u32>, AllocError> {
    let mut grown = with_repeats(alloc, calls, critical, &[])?;
    for walk in walks.iter().take(MOST_REPEATED) {
        grown = with_repeats(alloc, calls, grown.as_slice(), walk.calls())?;
    }
    Ok(grown)
}

/// Goes on from the walks that are worth more than the master's tours: the first that is a new tour joins them, and where there
/// is none, the calls that the best walks repeat become critical. Answers whether anything is new.
fn widen(
    alloc: Global,
    search: &Search<'_>,
    pool: &mut Pool,
    learned: &mut Learned,
    master: &mut CornerMaster,
    critical: &mut Vec<u32>,
    walks: &[Tour],
) -> Result<bool, AllocError> {
    if learn_first(alloc, search, pool, learned, master, walks)? {
        return Ok(true);
    }
    let grown = grown_set(alloc, search.ctx.calls(), critical.as_slice(), walks)?;
    let is_new = critical.len() < grown.len();
    *critical = grown;
    Ok(is_new)
}

/// A cut that leaves out all of the corners, or none where the tours show that there is none. It ends where a better plan
/// was found, since the corners are others then.
pub(crate) fn price_for(
    alloc: Global,
    search: &Search<'_>,
    pool: &mut Pool,
    learned: &mut Learned,
    corners: &[Point],
) -> Result<Option<Proposal>, AllocError>
    requires { IsProperIn search.now.regions.now search.now.ctx.now }
    ensures { IfOk result (λ found. IfSome found (IsReplayed (rules_of search.now.regions.now) search.now.ctx.now)) }
{
    match closing_price(alloc, search, pool, learned, corners)? {
        Some(found) => replayed_cut(alloc, search, found, corners),
        None => Ok(None),
    }
}

/// A price with its critical set.
#[derive(Drop)]
struct Found {
    price: Price,
    critical: Vec<u32>,
}

/// A price whose walks seem to leave out all of the corners.
fn closing_price(
    alloc: Global,
    search: &Search<'_>,
    pool: &mut Pool,
    learned: &mut Learned,
    corners: &[Point],
) -> Result<Option<Found>, AllocError> {
    let known = learned.plans.len();
    let mut master = open_master(alloc, search, pool, corners)?;
    let mut critical = Vec::new(alloc);
    for _ in 0..MOST_REPLAYS {
        if master.solve(alloc)? <= 1 {
            return Ok(None);
        }
        let price = master.price(alloc, search.ctx)?;
        let Some(walks) = better_walks(
            alloc,
            search,
            search.regions.labels,
            &master,
            &price,
            critical.as_slice(),
        )?
        else {
            return Ok(None);
        };
        if closes_all(&price, walks.bound, corners) {
            return Ok(Some(Found { price, critical }));
        }
        let best = walks.best.as_slice();
        let goes_on = widen(
            alloc,
            search,
            pool,
            learned,
            &mut master,
            &mut critical,
            best,
        )?;
        if learned.plans.len() != known || !goes_on {
            return Ok(None);
        }
    }
    Ok(None)
}

/// The farthest price so far, and the time up to which its bound leaves nothing of a box.
#[derive(Drop)]
struct Reaching {
    found: Option<Found>,
    time: u64,
}

impl Reaching {
    /// Keeps the price where it reaches farther.
    fn reach(
        &mut self,
        alloc: Global,
        area: Box2,
        price: Price,
        critical: &[u32],
        bound: i128,
    ) -> Result<(), AllocError> {
        let cut = CutOnPath {
            alpha: price.alpha,
            beta: price.beta,
            bound,
        };
        if let Some(time) = greatest_closed_time(cut, area) {
            if area.t_lo <= time && (self.found.is_none() || self.time < time) {
                let mut copy = Vec::new(alloc);
                copy.extend_from_slice(critical)?;
                self.time = time;
                self.found = Some(Found {
                    price,
                    critical: copy,
                });
            }
        }
        Ok(())
    }
}

/// The farthest price at the low end of the box that few replays with few labels find.
fn farthest(
    alloc: Global,
    search: &Search<'_>,
    labels: u64,
    pool: &mut Pool,
    learned: &mut Learned,
    area: Box2,
) -> Result<Option<Found>, AllocError> {
    let corner = [Point {
        profit: area.p_lo,
        time: area.t_hi,
    }];
    let known = learned.plans.len();
    let mut master = open_master(alloc, search, pool, &corner)?;
    let mut critical = Vec::new(alloc);
    let mut best = Reaching {
        found: None,
        time: 0,
    };
    for _ in 0..MOST_LIFTS {
        master.solve(alloc)?;
        let price = master.price(alloc, search.ctx)?;
        let Some(walks) = better_walks(alloc, search, labels, &master, &price, critical.as_slice())?
        else {
            break;
        };
        best.reach(alloc, area, price, critical.as_slice(), walks.bound)?;
        let better = walks.best.as_slice();
        let goes_on = widen(
            alloc,
            search,
            pool,
            learned,
            &mut master,
            &mut critical,
            better,
        )?;
        if learned.plans.len() != known || !goes_on {
            break;
        }
    }
    Ok(best.found)
}

/// A cut whose bound reaches far into the low end of the box, though it may close no corner.
pub(crate) fn price_to_lift(
    alloc: Global,
    search: &Search<'_>,
    pool: &mut Pool,
    learned: &mut Learned,
    area: Box2,
) -> Result<Option<Proposal>, AllocError>
    requires { IsProperIn search.now.regions.now search.now.ctx.now }
    ensures { IfOk result (λ found. IfSome found (IsReplayed (rules_of search.now.regions.now) search.now.ctx.now)) }
{
    let labels = search.regions.labels.min(MOST_LIFT_LABELS);
    match farthest(alloc, search, labels, pool, learned, area)? {
        Some(found) => replayed_cut(alloc, search, found, &[]),
        None => Ok(None),
    }
}
