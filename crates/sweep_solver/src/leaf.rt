//! The leaves that close a branch.

ghost use Rattle.sweep_solver.specs.Rules.{IsProperIn};

use crate::aim::is_closed_by;
use crate::regions::Regions;
use crate::resort::stuck_reason;
use front_archive::Archive;
use growth::Branch;
use orienteering::{Box2, CutOnPath, Node, Point};
use region_ctx::Context;

/// The number of the first cut on the path, from 1, whose bound leaves no plan in the box.
fn closing_cut(cuts: &[CutOnPath], area: Box2) -> Option<u64> {
    for (place, cut) in cuts.iter().enumerate() {
        if is_closed_by(*cut, area) {
            return Some(place as u64 + 1);
        }
    }
    None
}

/// A leaf that closes the branch.
pub(crate) fn leaf(
    regions: &Regions<'_>,
    branch: &Branch<Context>,
    archive: &Archive,
    area: Box2,
) -> Option<Node>
    requires { IsProperIn regions.now branch.now.region }
{
    if let Some(reason) = stuck_reason(regions.inst, branch.region()) {
        return Some(Node::Stuck { reason });
    }
    let best = Point {
        profit: area.p_hi,
        time: area.t_lo,
    };
    if archive.covers(best) {
        return Some(Node::Dominated);
    }
    let k = closing_cut(branch.cuts(), area)?;
    Some(Node::Cutoff { k })
}
