//! A tree that is written again, grown at its open nodes.

ghost use Rattle.std.specs.Prelude.{◌≡◌, ◌+◌, ◌++◌, [], ◌∷◌, ℕ, List, length, reverse, IfOk, OnOk};
ghost use Rattle.orienteering.specs.Preorder.{Leaf};
ghost use Rattle.orienteering.specs.Decision.{node_step, Branch};
ghost use Rattle.orienteering.specs.declared.Node.{Node};
ghost use Rattle.orienteering.specs.declared.Node.TheVariants.{Cut};
ghost use Rattle.growth.specs.Reading.{IsTree};
ghost use Rattle.growth.specs.Growth.{IsArchive, Improves, IsRefused, IsPlain, IsWithin, Copies, Regrows, IsAccepted, with_trees};

use crate::branch::Branch;
use crate::grow::{grow_tree, push_children};
use crate::judge::judge;
use crate::waiting::Waiting;
use crate::world::{Strategy, World};
use front_archive::Archive;
use orienteering::{CutOnPath, Node, Price, Tour};
use std::alloc::{AllocError, Global};

/// Writes a cut of the tree again, with its bound replayed.
fn copy_cut<W: World>(
    alloc: Global,
    world: &W,
    archive: &Archive,
    branch: Branch<W::Region>,
    price: Price,
    critical: Tour,
    nodes: &mut Vec<Node>,
    pending: &mut Vec<Branch<W::Region>>,
) -> Result<(), AllocError>
    requires proper { W.proper world.now branch.region }
    requires accepted { IsRefused (node_step (W.rules world.now) archive.now 0 branch (Cut price critical)) → ⊥ }
    ensures { OnOk result (Copies (W.rules world.now) archive.now branch (Cut price critical) nodes.old.items nodes.new.items pending.old.items pending.new.items) }
{
    let Some(bound) = world.bound_of(alloc, branch.region(), &price, &critical)? else {
        return Ok(());
    };
    let cut = CutOnPath {
        alpha: price.alpha,
        beta: price.beta,
        bound,
    };
    let below = branch.below(cut)?;
    nodes.push(Node::Cut { price, critical })?;
    pending.push(below)?;
    Ok(())
}

/// Writes a split or a closed leaf of the tree again.
fn copy_plain<W: World>(
    alloc: Global,
    world: &W,
    archive: &Archive,
    branch: &Branch<W::Region>,
    node: Node,
    nodes: &mut Vec<Node>,
    pending: &mut Vec<Branch<W::Region>>,
) -> Result<(), AllocError>
    requires proper { W.proper world.now branch.now.region }
    requires plain { IsPlain node }
    requires accepted { IsRefused (node_step (W.rules world.now) archive.now 0 branch.now node) → ⊥ }
    ensures { OnOk result (Copies (W.rules world.now) archive.now branch.now node nodes.old.items nodes.new.items pending.old.items pending.new.items) }
{
    let step = judge(alloc, world, archive, branch, &node)?;
    nodes.push(node)?;
    push_children(pending, step)
}

/// Writes an accepted tree again, with a tree in the place of each open node while the budget lasts, and answers the
/// branches that wait, which are those of its open leaves where the budget isn't spent. The nodes are handed in with the
/// root last.
#[tactic(auto, using(crate::proofs::Archives::improves_same))]
pub(crate) fn grow_open_nodes<W: World, S: Strategy<W>>(
    alloc: Global,
    world: &W,
    archive: &mut Archive,
    strategy: &mut S,
    root: Branch<W::Region>,
    behind: Vec<Node>,
    limit: Option<u64>,
    waiting: &mut Vec<Waiting<W::Region>>,
) -> Result<Vec<Node>, AllocError>
    requires proper { W.proper world.now root.region }
    requires archive { IsArchive (W.problem world.now) archive.old }
    requires accepted { IsAccepted (W.rules world.now) archive.old root (reverse behind.items) }
    requires within { IsWithin limit (length behind.items) }
    requires none { waiting.old.items ≡ [] }
    ensures archive { IsArchive (W.problem world.now) archive.new }
    ensures improved { Improves archive.old archive.new }
    ensures grown { IfOk result (λ nodes. (leaves : List (Leaf (Branch W.Region) Node)) →
        IsTree (node_step (W.rules world.now) archive.old) root (reverse behind.items) leaves →
        Regrows (W.rules world.now) archive.new root limit leaves nodes.items waiting.new.items) }
    ensures kept { IfOk result (λ nodes.
        (trees : List (List Node)) × (nodes.items ≡ with_trees (reverse behind.items) trees)) }
{
    let mut behind = behind;
    let mut nodes = Vec::new(alloc);
    let mut pending = Vec::new(alloc);
    pending.push(root)?;
    while let Some(node) = behind.pop() {
        let Some(branch) = pending.pop() else {
            return Ok(nodes);
        };
        match node {
            Node::Left => grow_tree(
                alloc,
                world,
                archive,
                strategy,
                true,
                branch,
                limit,
                behind.len() as u64,
                &mut nodes,
                waiting,
            )?,
            Node::Cut { price, critical } => copy_cut(
                alloc,
                world,
                archive,
                branch,
                price,
                critical,
                &mut nodes,
                &mut pending,
            )?,
            node => copy_plain(
                alloc,
                world,
                archive,
                &branch,
                node,
                &mut nodes,
                &mut pending,
            )?,
        }
    }
    Ok(nodes)
}
