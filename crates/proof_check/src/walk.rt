//! The walk over the nodes in preorder. The branches that are still to be read wait in a vector, so that depth takes no call
//! stack.

ghost use Rattle.std.specs.Prelude.{◌≡◌, Bool, List, OnOk};
ghost use Rattle.orienteering.specs.declared.CutOnPath.{CutOnPath};
ghost use Rattle.orienteering.specs.Decide.{keep_open, AnswersOrMemory};
ghost use Rattle.orienteering.specs.Frontier.{AllRise};
ghost use Rattle.orienteering.specs.Instance.{calls};
ghost use Rattle.proof_check.specs.Judged.{boxes_behind, branches_behind};
ghost use Rattle.proof_check.specs.Verdict.{decide_boxes};
ghost use Rattle.proof_check.specs.Waiting.{branch};

use crate::boxes::{keep_box, listed};
use crate::judge::{Judge, Judged, Spot};
use crate::leaves::tight_of;
use crate::pending::Pending;
use crate::rules::judge_node;
use indexmap::IndexSet;
use orienteering::{Box2, CheckFail, Node};
use region_ctx::Context;
use site_model::Instance;
use std::alloc::AllocError;

/// Keeps the tight box of an open leaf, if it isn't empty.
fn keep_open(
    inst: &Instance,
    boxes: &mut IndexSet<Box2>,
    context: &Context,
    node: &Node,
) -> Result<(), AllocError>
    requires { context.now.calls ≡ calls inst.now }
    ensures { OnOk result ((cuts : List CutOnPath) (under_cut : Bool) → boxes.new.keys
        ≡ keep_open inst.now boxes.old.keys (record { branch = branch context.now cuts under_cut; node = node.now })) }
{
    if let Node::Left = node {
        if let Some(area) = tight_of(inst, context) {
            keep_box(boxes, area)?;
        }
    }
    Ok(())
}

/// Puts what a node leaves behind: the branches that wait, or the box of an open leaf.
fn put(
    inst: &Instance,
    boxes: &mut IndexSet<Box2>,
    pending: &mut Pending,
    context: Context,
    under_cut: bool,
    node: &Node,
    judged: Judged,
) -> Result<(), AllocError>
    requires { context.calls ≡ calls inst.now }
    ensures branches { OnOk result (pending.new.branches
        ≡ branches_behind (branch context pending.old.cuts under_cut) judged pending.old.branches) }
    ensures boxes { OnOk result (boxes.new.keys
        ≡ boxes_behind inst.now (branch context pending.old.cuts under_cut) node.now judged boxes.old.keys) }
{
    match judged {
        Judged::Leaf => keep_open(inst, boxes, &context, node),
        Judged::Below(cut) => pending.put_below(context, cut),
        Judged::Parts(first, second) => pending.put_parts(first, second),
    }
}

/// The boxes that the tree leaves open, or the first refusal.
pub(crate) fn read_boxes(judge: &Judge<'_>, nodes: &[Node]) -> Result<Vec<Box2>, CheckFail>
    requires { AllRise judge.now.points.now }
    ensures { AnswersOrMemory (λ boxes. boxes.items) result
        (decide_boxes judge.now.inst.now judge.now.labels judge.now.points.now nodes.now) }
{
    let mut boxes = IndexSet::new(judge.alloc);
    let mut pending = Pending::root(judge.alloc, Context::root(judge.alloc, judge.inst)?)?;
    for (place, node) in nodes.iter().enumerate() {
        let index = place as u64 + 1;
        let Some((context, under_cut)) = pending.take() else {
            return Err(CheckFail::Shape { index });
        };
        let spot = Spot {
            index,
            context: &context,
            cuts: pending.cuts(),
            under_cut,
        };
        let judged = judge_node(judge, &spot, node)?;
        put(
            judge.inst,
            &mut boxes,
            &mut pending,
            context,
            under_cut,
            node,
            judged,
        )?;
    }
    if !pending.is_empty() {
        return Err(CheckFail::Shape {
            index: nodes.len() as u64 + 1,
        });
    }
    Ok(listed(judge.alloc, boxes)?)
}
