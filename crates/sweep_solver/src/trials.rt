//! Trials of branchings over the tours near a master's solution.

use crate::arcs::Edge;
use crate::pricing::Search;
use crate::resort::stuck_reason;
use dual_master::SolvedMaster;
use orienteering::{Point, Tour};
use pool_cols::Pool;
use region_ctx::Context;
use std::alloc::{AllocError, Global};

/// The gain of a part that is closed.
const ALL: i64 = 1_000;

/// A master over few tours, and its solution.
#[derive(Drop)]
pub(crate) struct Trials<'a> {
    pub search: &'a Search<'a>,
    pub pool: &'a Pool,
    pub corners: &'a [Point],
    pub master: SolvedMaster,
    /// How much the value may rise by before the part is closed, in parts of a unit of time.
    pub goal: i64,
}

/// An arc that is used or banned.
#[derive(Clone, Copy, Debug, PartialEq, Eq)]
struct Step {
    from: u32,
    to: u32,
    is_used: bool,
}

/// Whether a plan of the step's part may have the tour.
fn keeps(tour: &Tour, end: u32, step: Step) -> bool {
    let mut at = 0;
    let mut has = false;
    let mut touches = false;
    for call in tour.calls() {
        has = has || (at == step.from && *call == step.to);
        touches = touches || *call == step.to || *call == step.from;
        at = *call;
    }
    has = has || (at == step.from && end == step.to);
    if step.is_used { has || !touches } else { !has }
}

/// Whether no plan of the part is at one of the corners.
fn is_lost(search: &Search<'_>, corners: &[Point], part: &Context) -> bool {
    let inst = search.regions.inst;
    if part.calls() != inst.calls() {
        return false;
    }
    let Some(area) = part.tight(inst) else {
        return true;
    };
    corners.iter().all(|corner| corner.time < area.t_lo || area.p_hi < corner.profit)
        || stuck_reason(inst, part).is_some()
}

/// Whether the place is a call that plans need not visit.
fn is_free_call(ctx: &Context, place: u32) -> bool {
    1 <= place && place <= ctx.calls() && !ctx.forced(place)
}

/// The calls that plans need not visit before the steps, and visit after them.
fn visited_calls(alloc: Global, ctx: &Context, steps: &[Step]) -> Result<Vec<u32>, AllocError> {
    let mut visited = Vec::new(alloc);
    for step in steps {
        if step.is_used && is_free_call(ctx, step.from) {
            visited.push(step.from)?;
        }
        if step.is_used && is_free_call(ctx, step.to) {
            visited.push(step.to)?;
        }
    }
    Ok(visited)
}

impl Trials<'_> {
    /// Whether the steps leave the tour.
    fn is_left(&self, place: u64, end: u32, steps: &[Step]) -> bool {
        match self.pool.get(place) {
            Some((tour, _)) => steps.iter().all(|step| keeps(tour, end, *step)),
            None => false,
        }
    }

    /// The part of the way, in thousandths, that the steps go to where the part is closed.
    fn gain(&mut self, alloc: Global, part: &Context, steps: &[Step]) -> Result<i64, AllocError> {
        if is_lost(self.search, self.corners, part) {
            return Ok(ALL);
        }
        let end = part.calls() + 1;
        let visited = visited_calls(alloc, self.search.ctx, steps)?;
        let mut lost = Vec::new(alloc);
        for place in self.master.places() {
            lost.push(!self.is_left(*place, end, steps))?;
        }
        let goal = self.goal.max(0);
        let rise = self
            .master
            .gain(alloc, lost.as_slice(), visited.as_slice(), goal)?;
        Ok(
            rise.saturating_mul(ALL)
                .checked_div(self.goal)
                .unwrap_or(ALL),
        )
    }
}

/// The arc that tours the other way round travel.
fn mirror(end: u32, from: u32, to: u32) -> (u32, u32) {
    let back = if to == end { 0 } else { to };
    let forth = if from == 0 { end } else { from };
    (back, forth)
}

/// How good a branching is by the gains of its two parts.
fn score(one: i64, other: i64) -> i64 {
    one.max(1).saturating_mul(other.max(1))
}

/// The score of an arc, alone or with its mirror where that is better.
pub(crate) fn rated(
    alloc: Global,
    trials: &mut Trials<'_>,
    from: u32,
    to: u32,
) -> Result<(i64, Edge), AllocError> {
    let alone = Edge {
        from,
        to,
        mirror: None,
    };
    let Ok((used, banned)) = trials.search.ctx.split_arc(from, to) else {
        return Ok((0, alone));
    };
    let with = Step {
        from,
        to,
        is_used: true,
    };
    let without = Step {
        from,
        to,
        is_used: false,
    };
    let gained = trials.gain(alloc, &used, &[with])?;
    let left = trials.gain(alloc, &banned, &[without])?;
    let best = score(gained, left);
    let (back, forth) = mirror(trials.search.ctx.calls() + 1, from, to);
    if !trials.search.is_reversible || left >= ALL {
        return Ok((best, alone));
    }
    let Ok((other, neither)) = banned.split_arc(back, forth) else {
        return Ok((best, alone));
    };
    let turned = Step {
        from: back,
        to: forth,
        is_used: true,
    };
    let none = Step {
        from: back,
        to: forth,
        is_used: false,
    };
    let turned = trials.gain(alloc, &other, &[without, turned])?;
    let none = trials.gain(alloc, &neither, &[without, none])?;
    let both = score(gained.min(turned), none) / 2;
    if both <= best {
        return Ok((best, alone));
    }
    let edge = Edge {
        from,
        to,
        mirror: Some((back, forth)),
    };
    Ok((both, edge))
}
