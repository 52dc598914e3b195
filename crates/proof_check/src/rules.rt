//! The rule of each kind of node.

ghost use Rattle.std.specs.Prelude.{◌≡◌, true, IfOk};
ghost use Rattle.orienteering.specs.Decision.{cut_at, cut_step, cutoff_step, node_step, split_step};
ghost use Rattle.orienteering.specs.Frontier.{AllRise};
ghost use Rattle.orienteering.specs.Instance.{Problem};
ghost use Rattle.orienteering.specs.Region.{IsProper};
ghost use Rattle.orienteering.specs.RegionTests.{is_stuck};
ghost use Rattle.proof_check.specs.Judged.{Gives, HasProperParts, branch_at, ends_if, points_of, rules_of};

use crate::critical::is_critical_set;
use crate::judge::{Judge, Judged, Spot};
use crate::leaves::{is_cut_off, is_dominated, tight_of};
use crate::replay::replay;
use orienteering::{CheckFail, CutOnPath, Node, NodeCause, Price, Reason, Split};
use price_bound::check_price;
use region_ctx::{Context, SplitFail};
use site_model::Instance;

/// The refusal of a node.
fn refused(spot: &Spot<'_>, cause: NodeCause) -> CheckFail
    ensures { result ≡ CheckFail.NodeRefused spot.now.index cause }
{
    CheckFail::NodeRefused {
        index: spot.index,
        cause,
    }
}

/// A leaf where the test passed.
fn leaf_if(spot: &Spot<'_>, passed: bool, cause: NodeCause) -> Result<Judged, CheckFail>
    ensures rule { Gives (branch_at spot.now) result (ends_if spot.now.index passed cause) }
    ensures proper { (p : Problem) → IfOk result (HasProperParts p) }
{
    if passed {
        Ok(Judged::Leaf)
    } else {
        Err(refused(spot, cause))
    }
}

fn judge_split(judge: &Judge<'_>, spot: &Spot<'_>, split: Split) -> Result<Judged, CheckFail>
    requires { IsProper judge.now.inst.now spot.now.context.now }
    ensures rule { Gives (branch_at spot.now) result
        (split_step (rules_of judge.now) (points_of judge.now) spot.now.index (branch_at spot.now) split) }
    ensures proper { IfOk result (HasProperParts judge.now.inst.now) }
{
    match spot.context.split(split) {
        Ok((first, second)) => Ok(Judged::Parts(first, second)),
        Err(SplitFail::NoProgress) => Err(refused(spot, NodeCause::NoProgress)),
        Err(SplitFail::Memory) => Err(CheckFail::Memory),
    }
}

fn judge_cut(
    judge: &Judge<'_>,
    spot: &Spot<'_>,
    price: &Price,
    critical: &[u32],
) -> Result<Judged, CheckFail>
    requires { IsProper judge.now.inst.now spot.now.context.now }
    ensures rule { Gives (branch_at spot.now) result
        (cut_step (rules_of judge.now) (points_of judge.now) spot.now.index (branch_at spot.now) price.now critical.now) }
    ensures proper { IfOk result (HasProperParts judge.now.inst.now) }
{
    if spot.under_cut {
        return Err(refused(spot, NodeCause::CutUnderCut));
    }
    if let Err(why) = check_price(judge.inst, spot.context, price) {
        return Err(refused(spot, NodeCause::Price(why)));
    }
    if !is_critical_set(spot.context.calls(), critical) {
        return Err(refused(spot, NodeCause::Critical));
    }
    replay(judge, spot, price, critical)
}

/// The `k`-th cut of the path, counted from 1 at the root's end.
fn cut_at(cuts: &[CutOnPath], k: u64) -> Option<CutOnPath>
    ensures { result ≡ cut_at cuts.now k }
{
    let place = k.checked_sub(1)?;
    cuts.get(place as usize).copied()
}

fn judge_cutoff(judge: &Judge<'_>, spot: &Spot<'_>, k: u64) -> Result<Judged, CheckFail>
    requires { IsProper judge.now.inst.now spot.now.context.now }
    ensures rule { Gives (branch_at spot.now) result
        (cutoff_step (rules_of judge.now) (points_of judge.now) spot.now.index (branch_at spot.now) k) }
    ensures proper { IfOk result (HasProperParts judge.now.inst.now) }
{
    match cut_at(spot.cuts, k) {
        None => Err(refused(spot, NodeCause::NoSuchCut)),
        Some(cut) => {
            let passed = is_cut_off(cut, tight_of(judge.inst, spot.context));
            leaf_if(spot, passed, NodeCause::NotAbove)
        }
    }
}

/// Whether no plan belongs to the region for this reason.
fn is_stuck(inst: &Instance, context: &Context, reason: Reason) -> bool
    requires { IsProper inst.now context.now }
    ensures { result ≡ is_stuck inst.now context.now reason }
{
    context.stuck(inst, reason)
}

/// What a node does where it stands, or its refusal.
pub(crate) fn judge_node(
    judge: &Judge<'_>,
    spot: &Spot<'_>,
    node: &Node,
) -> Result<Judged, CheckFail>
    requires proper { IsProper judge.now.inst.now spot.now.context.now }
    requires rising { AllRise judge.now.points.now }
    ensures rule { Gives (branch_at spot.now) result
        (node_step (rules_of judge.now) (points_of judge.now) spot.now.index (branch_at spot.now) node.now) }
    ensures proper { IfOk result (HasProperParts judge.now.inst.now) }
{
    match node {
        Node::Profit { v } => judge_split(judge, spot, Split::Profit { v: *v }),
        Node::Time { v } => judge_split(judge, spot, Split::Time { v: *v }),
        Node::Count { c } => judge_split(judge, spot, Split::Count { c: *c }),
        Node::Arc { i, j } => judge_split(judge, spot, Split::Arc { i: *i, j: *j }),
        Node::Cut { price, critical } => judge_cut(judge, spot, price, critical.calls()),
        Node::Dominated => {
            let tight = tight_of(judge.inst, spot.context);
            leaf_if(
                spot,
                is_dominated(judge.points, tight),
                NodeCause::NotDominated,
            )
        }
        Node::Cutoff { k } => judge_cutoff(judge, spot, *k),
        Node::Stuck { reason } => {
            let stuck = is_stuck(judge.inst, spot.context, *reason);
            leaf_if(spot, stuck, NodeCause::NotStuck)
        }
        Node::Left => Ok(Judged::Leaf),
    }
}
