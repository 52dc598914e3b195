//! A tree that is grown in the place of an open node.

ghost use Rattle.std.specs.Prelude.{◌≡◌, true, ◌+◌, ◌<◌, ◌^◌, ◌++◌, ◌⊎◌, ◌↔◌, [], ◌∷◌, length, reverse, replicate, IsTrue, IfOk, OnOk, OnErr};
ghost use Rattle.std.specs.List.{AllByRecursion};
ghost use Rattle.orienteering.specs.Tour.{IsPlan};
ghost use Rattle.orienteering.specs.Decision.{node_step};
ghost use Rattle.orienteering.specs.declared.Node.TheVariants.{Left};
ghost use Rattle.growth.specs.Growth.{IsArchive, Improves, IsReplayed, IsPlain, IsRefused, Grows, Advances, GrowsTree, HasRoom, IsSpent, IsNext, IsWithin, children_of, split_node};

use crate::branch::Branch;
use crate::judge::{is_refused, judge};
use crate::waiting::Waiting;
use crate::world::{Proposal, Resort, Strategy, World};
use front_archive::Archive;
use orienteering::{CutOnPath, Node, Plan, Price, Split, Step, Tour};
use std::alloc::{AllocError, Global};

/// Puts the branches below a node on the stack, the first of them last.
pub(crate) fn push_children<R: Drop>(
    pending: &mut Vec<Branch<R>>,
    step: Step<Branch<R>, ()>,
) -> Result<(), AllocError>
    ensures { OnOk result (pending.new.items ≡ pending.old.items ++ reverse (children_of step)) }
{
    match step {
        Step::Refused(()) | Step::Ends => {}
        Step::Child(child) => pending.push(child)?,
        Step::Children(first, second) => {
            pending.push(second)?;
            pending.push(first)?;
        }
    }
    Ok(())
}

fn split_node(by: Split) -> Node
    ensures { result ≡ split_node by }
{
    match by {
        Split::Profit { v } => Node::Profit { v },
        Split::Time { v } => Node::Time { v },
        Split::Count { c } => Node::Count { c },
        Split::Arc { i, j } => Node::Arc { i, j },
    }
}

/// The node that always serves, with the plan that it rests on in the archive.
#[tactic(auto, using(crate::proofs::Archives::improves_same))]
fn resort_node<W: World>(
    alloc: Global,
    world: &W,
    archive: &mut Archive,
    branch: &Branch<W::Region>,
) -> Result<Node, AllocError>
    requires proper { W.proper world.now branch.now.region }
    requires archive { IsArchive (W.problem world.now) archive.old }
    ensures archive { IsArchive (W.problem world.now) archive.new }
    ensures improved { Improves archive.old archive.new }
    ensures plain { IfOk result (λ node. IsPlain node) }
    ensures accepted { IfOk result (λ node.
        IsRefused (node_step (W.rules world.now) archive.new 0 branch.now node) → ⊥) }
{
    match world.last_resort(alloc, branch.region())? {
        Resort::Halves(by) => Ok(split_node(by)),
        Resort::Empty(reason) => Ok(Node::Stuck { reason }),
        Resort::Realised(plan) => {
            world.offer(alloc, archive, plan)?;
            Ok(Node::Dominated)
        }
    }
}

/// Grows a branch in the way that always serves.
#[tactic(auto, using(crate::proofs::Archives::improves_same))]
fn grow_as_last_resort<W: World>(
    alloc: Global,
    world: &W,
    archive: &mut Archive,
    branch: &Branch<W::Region>,
    nodes: &mut Vec<Node>,
    pending: &mut Vec<Branch<W::Region>>,
) -> Result<(), AllocError>
    requires proper { W.proper world.now branch.now.region }
    requires archive { IsArchive (W.problem world.now) archive.old }
    ensures archive { IsArchive (W.problem world.now) archive.new }
    ensures improved { Improves archive.old archive.new }
    ensures grows { OnOk result (Grows (W.rules world.now) archive.new branch.now nodes.old.items nodes.new.items pending.old.items pending.new.items) }
{
    let node = resort_node(alloc, world, archive, branch)?;
    let step = judge(alloc, world, archive, branch, &node)?;
    nodes.push(node)?;
    push_children(pending, step)
}

/// Grows a branch by a node where the checker's rule accepts it.
#[tactic(auto, using(crate::proofs::Archives::improves_same))]
fn grow_as_judged<W: World>(
    alloc: Global,
    world: &W,
    archive: &mut Archive,
    branch: &Branch<W::Region>,
    node: Node,
    nodes: &mut Vec<Node>,
    pending: &mut Vec<Branch<W::Region>>,
) -> Result<(), AllocError>
    requires proper { W.proper world.now branch.now.region }
    requires archive { IsArchive (W.problem world.now) archive.old }
    ensures archive { IsArchive (W.problem world.now) archive.new }
    ensures improved { Improves archive.old archive.new }
    ensures grows { OnOk result (Grows (W.rules world.now) archive.new branch.now nodes.old.items nodes.new.items pending.old.items pending.new.items) }
{
    let step = judge(alloc, world, archive, branch, &node)?;
    if is_refused(&step) {
        return grow_as_last_resort(alloc, world, archive, branch, nodes, pending);
    }
    nodes.push(node)?;
    push_children(pending, step)
}

/// Grows a branch by a cut whose replay is known, where no cut stands right above it.
#[tactic(auto, using(crate::proofs::Archives::improves_same))]
fn grow_by_cut<W: World>(
    alloc: Global,
    world: &W,
    archive: &mut Archive,
    branch: Branch<W::Region>,
    price: Price,
    critical: Tour,
    bound: i128,
    nodes: &mut Vec<Node>,
    pending: &mut Vec<Branch<W::Region>>,
) -> Result<(), AllocError>
    requires proper { W.proper world.now branch.region }
    requires archive { IsArchive (W.problem world.now) archive.old }
    requires replayed { IsReplayed (W.rules world.now) branch.region (Proposal.Replayed price critical bound) }
    ensures archive { IsArchive (W.problem world.now) archive.new }
    ensures improved { Improves archive.old archive.new }
    ensures grows { OnOk result (Grows (W.rules world.now) archive.new branch nodes.old.items nodes.new.items pending.old.items pending.new.items) }
{
    if branch.is_under_cut() {
        return grow_as_last_resort(alloc, world, archive, &branch, nodes, pending);
    }
    let cut = CutOnPath {
        alpha: price.alpha,
        beta: price.beta,
        bound,
    };
    let below = branch.below(cut)?;
    nodes.push(Node::Cut { price, critical })?;
    pending.push(below)?;
    Ok(())
}

/// Leaves a branch open and lets it wait, where that is allowed.
#[tactic(auto, using(crate::proofs::Archives::improves_same))]
fn put_off<W: World>(
    alloc: Global,
    world: &W,
    archive: &mut Archive,
    may_wait: bool,
    branch: Branch<W::Region>,
    miss: u64,
    nodes: &mut Vec<Node>,
    pending: &mut Vec<Branch<W::Region>>,
    waiting: &mut Vec<Waiting<W::Region>>,
) -> Result<(), AllocError>
    requires proper { W.proper world.now branch.region }
    requires archive { IsArchive (W.problem world.now) archive.old }
    ensures archive { IsArchive (W.problem world.now) archive.new }
    ensures improved { Improves archive.old archive.new }
    ensures advances { OnOk result (Advances may_wait (W.rules world.now) archive.new branch nodes.old.items nodes.new.items pending.old.items pending.new.items waiting.old.items waiting.new.items) }
{
    if !may_wait {
        return grow_as_last_resort(alloc, world, archive, &branch, nodes, pending);
    }
    let place = waiting.len();
    waiting.push(Waiting {
        branch,
        miss,
        place,
    })?;
    nodes.push(Node::Left)?;
    Ok(())
}

/// Offers all these lists of tours to the archive.
#[tactic(auto, using(crate::proofs::Archives::improves_same))]
fn offer_all<W: World>(
    alloc: Global,
    world: &W,
    archive: &mut Archive,
    plans: Vec<Plan>,
) -> Result<(), AllocError>
    requires archive { IsArchive (W.problem world.now) archive.old }
    ensures archive { IsArchive (W.problem world.now) archive.new }
    ensures improved { Improves archive.old archive.new }
{
    for plan in plans {
        world.offer(alloc, archive, plan)?;
    }
    Ok(())
}

/// Grows a branch as the strategy proposes, and else in the way that always serves.
#[tactic(auto, using(crate::proofs::Archives::improves_same))]
fn grow_branch<W: World, S: Strategy<W>>(
    alloc: Global,
    world: &W,
    archive: &mut Archive,
    strategy: &mut S,
    may_wait: bool,
    branch: Branch<W::Region>,
    nodes: &mut Vec<Node>,
    pending: &mut Vec<Branch<W::Region>>,
    waiting: &mut Vec<Waiting<W::Region>>,
) -> Result<(), AllocError>
    requires proper { W.proper world.now branch.region }
    requires archive { IsArchive (W.problem world.now) archive.old }
    ensures archive { IsArchive (W.problem world.now) archive.new }
    ensures improved { Improves archive.old archive.new }
    ensures advances { OnOk result (Advances may_wait (W.rules world.now) archive.new branch nodes.old.items nodes.new.items pending.old.items pending.new.items waiting.old.items waiting.new.items) }
{
    let advice = strategy.advise(alloc, world, &branch, archive, may_wait)?;
    offer_all(alloc, world, archive, advice.plans)?;
    match advice.proposal {
        Proposal::Later { miss } => put_off(
            alloc, world, archive, may_wait, branch, miss, nodes, pending, waiting,
        ),
        Proposal::Plain(node) => {
            grow_as_judged(alloc, world, archive, &branch, node, nodes, pending)
        }
        Proposal::Replayed {
            price,
            critical,
            bound,
        } => grow_by_cut(
            alloc, world, archive, branch, price, critical, bound, nodes, pending,
        ),
    }
}

pub(crate) fn has_room(limit: Option<u64>, count: u128) -> bool
    ensures room { IsTrue result → HasRoom limit count }
    ensures spent { (IsTrue result → ⊥) → IsSpent limit count }
{
    match limit {
        None => true,
        Some(most) => count < most as u128,
    }
}

/// Takes the next branch off the stack where the budget allows another growth.
fn next_branch<R: Drop>(
    pending: &mut Vec<Branch<R>>,
    limit: Option<u64>,
    others: u128,
) -> Option<Branch<R>>
    requires { others < 2 ^ 65 }
    ensures { IsNext limit (others + length pending.old.items) pending.old.items pending.new.items result }
{
    if has_room(limit, others + pending.len() as u128) {
        pending.pop()
    } else {
        None
    }
}

/// Leaves so many branches open.
fn leave_open(nodes: &mut Vec<Node>, count: usize) -> Result<(), AllocError>
    ensures { OnOk result (nodes.new.items ≡ nodes.old.items ++ replicate count Left) }
{
    for written in 0..count {
        nodes.push(Node::Left)?;
    }
    Ok(())
}

/// Writes the nodes of a tree in the place of an open node, behind the nodes that stand before it, and puts the branches
/// that wait behind those that waited before. The tree is left open at other branches only where the budget is spent: a
/// number of nodes that counts those written, those that are pending, and the others.
#[tactic(auto, using(crate::proofs::Archives::improves_same))]
pub(crate) fn grow_tree<W: World, S: Strategy<W>>(
    alloc: Global,
    world: &W,
    archive: &mut Archive,
    strategy: &mut S,
    may_wait: bool,
    branch: Branch<W::Region>,
    limit: Option<u64>,
    others: u64,
    nodes: &mut Vec<Node>,
    waiting: &mut Vec<Waiting<W::Region>>,
) -> Result<(), AllocError>
    requires proper { W.proper world.now branch.region }
    requires archive { IsArchive (W.problem world.now) archive.old }
    requires within { IsWithin limit (length nodes.old.items + 1 + others) }
    ensures archive { IsArchive (W.problem world.now) archive.new }
    ensures improved { Improves archive.old archive.new }
    ensures grown { OnOk result (GrowsTree may_wait (W.rules world.now) archive.new branch limit others nodes.old.items nodes.new.items waiting.old.items waiting.new.items) }
{
    let mut pending = Vec::new(alloc);
    pending.push(branch)?;
    while let Some(next) = next_branch(&mut pending, limit, nodes.len() as u128 + others as u128) {
        grow_branch(
            alloc,
            world,
            archive,
            strategy,
            may_wait,
            next,
            nodes,
            &mut pending,
            waiting,
        )?;
    }
    leave_open(nodes, pending.len())
}
