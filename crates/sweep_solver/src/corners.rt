//! The corners of a box: the best points of its undominated steps.

use crate::aim::{is_closed_by, split_high, split_low};
use orienteering::{Box2, CutOnPath, Node, Point};
use std::alloc::{AllocError, Global};

/// The least profit of a step of the box that no point dominates, with its greatest time.
#[derive(Clone, Copy, Debug, PartialEq, Eq)]
pub(crate) struct Corner {
    pub profit: u64,
    pub time: u64,
    /// No bound of the path leaves it out.
    pub is_open: bool,
}

fn is_open(cuts: &[CutOnPath], area: Box2) -> bool {
    !cuts.iter().any(|cut| is_closed_by(*cut, area))
}

/// The corner of the step that begins at the profit and ends before the time.
fn corner_at(cuts: &[CutOnPath], area: Box2, profit: u64, end: Option<u64>) -> Option<Corner> {
    let time = match end {
        Some(end) => area.t_hi.min(end.checked_sub(1)?),
        None => area.t_hi,
    };
    if time < area.t_lo {
        return None;
    }
    let rest = Box2 {
        p_lo: profit,
        p_hi: area.p_hi,
        t_lo: area.t_lo,
        t_hi: time,
    };
    Some(Corner {
        profit,
        time,
        is_open: is_open(cuts, rest),
    })
}

/// The corners of the box by rising profit. The points rise in profit and time.
pub(crate) fn corners(
    alloc: Global,
    points: &[Point],
    cuts: &[CutOnPath],
    area: Box2,
) -> Result<Vec<Corner>, AllocError> {
    let mut found = Vec::new(alloc);
    let mut profit = area.p_lo;
    for point in points {
        if point.profit < profit {
            continue;
        }
        if let Some(corner) = corner_at(cuts, area, profit, Some(point.time)) {
            found.push(corner)?;
        }
        profit = point.profit.saturating_add(1);
        if area.t_hi < point.time || area.p_hi < profit {
            return Ok(found);
        }
    }
    if let Some(corner) = corner_at(cuts, area, profit, None) {
        found.push(corner)?;
    }
    Ok(found)
}

/// A split of what the bounds of cuts close at the ends of the box.
pub(crate) fn trim(cuts: &[CutOnPath], area: Box2, found: &[Corner]) -> Option<Node> {
    if found.first().is_none_or(|corner| !corner.is_open) {
        if let Some(node) = split_low(cuts, area) {
            return Some(node);
        }
    }
    if found.last().is_none_or(|corner| !corner.is_open) {
        return split_high(cuts, area);
    }
    None
}
