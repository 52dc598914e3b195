//! Where the box of a region is split: at the points so far, and at the bound of a cut.

ghost use Rattle.std.specs.Prelude.{◌^◌, ◌<◌, ◌<ℤ◌, ◌≤ℤ◌, pos, IfSome};

use orienteering::{Box2, CutOnPath, Node, Point};

/// A weight times a profit or a time.
fn weighted(weight: u32, value: u64) -> i128
    ensures low { pos 0 ≤ℤ result }
    ensures high { result <ℤ pos (2 ^ 96) }
{
    (u128::from(weight) * u128::from(value)) as i128
}

/// Whether the bound of the cut leaves no plan in the box.
pub(crate) fn is_closed_by(cut: CutOnPath, area: Box2) -> bool {
    cut.bound < weighted(cut.alpha, area.p_lo) - weighted(cut.beta, area.t_hi)
}

/// The greatest profit at which the bound of the cut leaves a plan in the box.
fn greatest_profit(cut: CutOnPath, area: Box2) -> Option<u64> {
    let value = cut.bound.checked_add(weighted(cut.beta, area.t_hi))?;
    let value = u128::try_from(value).ok()?;
    u64::try_from(value.checked_div(u128::from(cut.alpha))?).ok()
}

/// The greatest time up to which the bound of the cut leaves no plan in the box.
pub(crate) fn greatest_closed_time(cut: CutOnPath, area: Box2) -> Option<u64> {
    let value = weighted(cut.alpha, area.p_lo).checked_sub(cut.bound)?;
    let value = u128::try_from(value.checked_sub(1)?).ok()?;
    u64::try_from(value.checked_div(u128::from(cut.beta))?).ok()
}

/// The greatest profit that the bounds of all cuts leave, where the box has more.
fn profit_left(cuts: &[CutOnPath], area: Box2) -> Option<u64> {
    let mut left = area.p_hi;
    for cut in cuts {
        if let Some(profit) = greatest_profit(*cut, area) {
            left = left.min(profit);
        }
    }
    if area.p_lo <= left && left < area.p_hi {
        Some(left)
    } else {
        None
    }
}

/// The greatest time up to which the bound of some cut leaves nothing, where the box has more.
fn time_closed(cuts: &[CutOnPath], area: Box2) -> Option<u64> {
    let mut closed = None;
    for cut in cuts {
        if let Some(time) = greatest_closed_time(*cut, area) {
            if area.t_lo <= time && time < area.t_hi && closed.is_none_or(|most| most < time) {
                closed = Some(time);
            }
        }
    }
    closed
}

/// A split that leaves what the bounds of cuts close at the low end of the box.
pub(crate) fn split_low(cuts: &[CutOnPath], area: Box2) -> Option<Node> {
    Some(Node::Time {
        v: time_closed(cuts, area)?,
    })
}

/// A split that leaves what the bounds of cuts close at the high end of the box.
pub(crate) fn split_high(cuts: &[CutOnPath], area: Box2) -> Option<Node> {
    Some(Node::Profit {
        v: profit_left(cuts, area)?,
    })
}

/// The profit of the last point that isn't later than the box, if it lies in the box's profits: no plan of at most
/// this profit is wanted.
fn profit_below(points: &[Point], area: Box2) -> Option<u64> {
    let mut below = None;
    for point in points {
        if point.time <= area.t_lo && area.p_lo <= point.profit && point.profit < area.p_hi {
            below = Some(point.profit);
        }
    }
    below
}

/// The time of the first point that is at least as rich as the box, if it lies in the box's times: no plan of at least this
/// time is wanted.
fn time_above(points: &[Point], area: Box2) -> Option<u64>
    ensures { IfSome result (λ time. area.t_lo < time) }
{
    for point in points {
        if area.p_hi <= point.profit && area.t_lo < point.time && point.time <= area.t_hi {
            return Some(point.time);
        }
    }
    None
}

/// A split of what the points so far dominate at the ends of the box.
pub(crate) fn split_at_points(points: &[Point], area: Box2) -> Option<Node> {
    if let Some(profit) = profit_below(points, area) {
        return Some(Node::Profit { v: profit });
    }
    let time = time_above(points, area)?;
    Some(Node::Time { v: time - 1 })
}
