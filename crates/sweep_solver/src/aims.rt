//! The open corners of a box, with the master's values at them: which of them a price may leave out, and where a box is split
//! between them.

use crate::corners::Corner;
use crate::pricing::{Search, open_master};
use dual_master::TIME_PARTS;
use orienteering::{Node, Point};
use pool_cols::Pool;
use std::alloc::{AllocError, Global};

/// An open corner, and the master's value at it, in parts of a scaled unit of time: above 0 where a price may leave it out.
#[derive(Clone, Copy, Debug, PartialEq, Eq)]
pub(crate) struct Aim {
    pub point: Point,
    pub value: i64,
}

/// A run of corners from one place to before another.
#[derive(Clone, Copy, Debug, PartialEq, Eq)]
pub(crate) struct Run {
    pub begin: usize,
    pub end: usize,
}

/// The longest run of hopes.
pub(crate) fn longest_run(hopes: &[bool]) -> Option<Run> {
    let mut best: Option<Run> = None;
    let mut begin = 0;
    for (place, hope) in hopes.iter().enumerate() {
        if !*hope {
            begin = place.saturating_add(1);
            continue;
        }
        let end = place.saturating_add(1);
        let length = end.saturating_sub(begin);
        let is_longer = match best {
            None => true,
            Some(best) => best.end.saturating_sub(best.begin) < length,
        };
        if is_longer {
            best = Some(Run { begin, end });
        }
    }
    best
}

/// Forgets the hopes from a place on, to before another.
fn forget(hopes: &mut Vec<bool>, begin: usize, end: usize) {
    for (place, hope) in hopes.iter_mut().enumerate() {
        if begin <= place && place < end {
            *hope = false;
        }
    }
}

/// Forgets the corners of the run that no price leaves out, by the values again; where one price can't leave out all that are
/// left, the second half.
pub(crate) fn lower_hopes(hopes: &mut Vec<bool>, run: Run, again: &[Aim]) {
    let mut is_none = true;
    for (place, aim) in again.iter().enumerate() {
        if aim.value <= 1 {
            let at = run.begin.saturating_add(place);
            forget(hopes, at, at.saturating_add(1));
            is_none = false;
        }
    }
    if is_none {
        let half = run.end.saturating_sub(run.begin) / 2;
        forget(hopes, run.begin.saturating_add(half), run.end);
    }
}

/// Which corners a price may leave out.
pub(crate) fn hopes_of(alloc: Global, aims: &[Aim]) -> Result<Vec<bool>, AllocError> {
    let mut hopes = Vec::new(alloc);
    for aim in aims {
        hopes.push(aim.value > 1)?;
    }
    Ok(hopes)
}

/// The points of a run.
pub(crate) fn points_of(alloc: Global, aims: &[Aim], run: Run) -> Result<Vec<Point>, AllocError> {
    let mut points = Vec::new(alloc);
    for aim in aims.iter().take(run.end).skip(run.begin) {
        points.push(aim.point)?;
    }
    Ok(points)
}

/// The master's value at each of the points alone.
pub(crate) fn values(
    alloc: Global,
    search: &Search<'_>,
    pool: &Pool,
    points: &[Point],
) -> Result<Vec<Aim>, AllocError> {
    let mut master = open_master(alloc, search, pool, points)?;
    let mut aims = Vec::new(alloc);
    for (place, point) in points.iter().enumerate() {
        master.focus(place, point.time);
        let value = master.solve(alloc)?;
        aims.push(Aim {
            point: *point,
            value,
        })?;
    }
    Ok(aims)
}

/// The points of the open corners.
pub(crate) fn open_points(alloc: Global, found: &[Corner]) -> Result<Vec<Point>, AllocError> {
    let mut points = Vec::new(alloc);
    for corner in found {
        if corner.is_open {
            points.push(Point {
                profit: corner.profit,
                time: corner.time,
            })?;
        }
    }
    Ok(points)
}

/// The time in parts.
fn parts(time: u64) -> i64 {
    (time.min(1_000_000_000) as i64).saturating_mul(TIME_PARTS)
}

/// How far the box of the corners from one to another is from being closed.
fn miss(first: Aim, last: Aim) -> i64 {
    let reach = first.value.saturating_add(parts(first.point.time));
    parts(last.point.time).saturating_sub(reach)
}

/// The corner at which a split by profit leaves the least miss on both sides.
pub(crate) fn middle(aims: &[Aim]) -> Option<Point> {
    let first = *aims.first()?;
    let last = *aims.last()?;
    let mut best: Option<(i64, Point)> = None;
    let mut before = first;
    for aim in aims.iter().skip(1) {
        let greater = miss(first, before).max(miss(*aim, last));
        let is_less = match best {
            None => true,
            Some((least, _)) => greater < least,
        };
        if is_less {
            best = Some((greater, aim.point));
        }
        before = *aim;
    }
    let (_, point) = best?;
    Some(point)
}

/// A split by profit, where the worst corner misses by less than half of what the box misses.
pub(crate) fn split_between(aims: &[Aim]) -> Option<Node> {
    let first = *aims.first()?;
    let last = *aims.last()?;
    let worst = aims
        .iter()
        .map(|aim| aim.value.saturating_neg())
        .fold(i64::MIN, |worst, miss| worst.max(miss));
    if worst < miss(first, last) / 2 {
        let point = middle(aims)?;
        return Some(Node::Profit {
            v: point.profit.saturating_sub(1),
        });
    }
    None
}

/// How far the box of the corners is from being closed: the worst corner's miss, as a part of the last corner's time, for each
/// corner.
pub(crate) fn relative_miss(aims: &[Aim]) -> u64 {
    let mut worst = 0;
    let mut last = 0;
    for aim in aims {
        worst = worst.max(aim.value.saturating_neg().max(0) as u64);
        last = aim.point.time;
    }
    let all = worst.saturating_mul(aims.len() as u64);
    all.checked_div(last.saturating_add(1)).unwrap_or(all)
}
