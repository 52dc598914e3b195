//! Branches that were put off, and the trees that take their places.

ghost use Rattle.std.specs.Prelude.{◌≡◌, ◌+◌, ◌≤◌, ◌++◌, [], ◌∷◌, List, length, reverse, map, replicate, IfOk, OnOk, MatchOption};
ghost use Rattle.std.specs.List.Sorted.{IsPermutation, IsNonDecreasingBy, IsStableByKey};
ghost use Rattle.std.specs.Ordering.{nat_cmp};
ghost use Rattle.orienteering.specs.Preorder.{Leaf};
ghost use Rattle.orienteering.specs.Decision.{Branch as Spot};
ghost use Rattle.orienteering.specs.declared.Node.{Node};
ghost use Rattle.orienteering.specs.declared.Node.TheVariants.{Left};
ghost use Rattle.growth.specs.Growth.{IsArchive, Improves, IsWithin, HasRoom, AreAwaited, Completes, IsRoom, room_after, with_trees};

use crate::branch::Branch;
use crate::grow::grow_tree;
use crate::world::{Strategy, World};
use front_archive::Archive;
use orienteering::Node;
use std::alloc::{AllocError, Global};

/// A branch that waits.
#[derive(Drop)]
pub(crate) struct Waiting<R> {
    pub(crate) branch: Branch<R>,
    /// How much it misses: the least comes first.
    pub(crate) miss: u64,
    /// How many branches wait before it in the tree.
    pub(crate) place: usize,
}

/// So many trees of one open node each.
fn open_trees(alloc: Global, count: usize) -> Result<Vec<Vec<Node>>, AllocError>
    ensures { IfOk result (λ trees. map (λ t. t.items) trees.items ≡ replicate count (Left ∷ [])) }
{
    let mut trees = Vec::new(alloc);
    for place in 0..count {
        let mut tree = Vec::new(alloc);
        tree.push(Node::Left)?;
        trees.push(tree)?;
    }
    Ok(trees)
}

/// Puts the nearest branches last, of equal ones the first in the tree.
fn put_nearest_last<R: Drop>(waiting: &mut Vec<Waiting<R>>) -> Result<(), AllocError>
    ensures same { IsPermutation waiting.old.items waiting.new.items }
    ensures nearest_last { OnOk result (IsNonDecreasingBy (λ w. w.miss) (reverse waiting.new.items)) }
    ensures equal_ones { OnOk result (IsStableByKey (λ w. w.miss) nat_cmp waiting.old.items (reverse waiting.new.items)) }
{
    waiting.sort_by_key(|one| one.miss)?;
    waiting.reverse();
    Ok(())
}

/// Writes the next tree, or an open node where there is none.
fn push_tree(whole: &mut Vec<Node>, tree: Option<Vec<Node>>) -> Result<(), AllocError>
    ensures { OnOk result (MatchOption tree (whole.new.items ≡ whole.old.items ++ Left ∷ []) (λ t. whole.new.items ≡ whole.old.items ++ t.items)) }
{
    match tree {
        None => whole.push(Node::Left)?,
        Some(tree) => {
            let mut tree = tree;
            whole.append(&mut tree)?;
        }
    }
    Ok(())
}

/// Writes the nodes with the trees in the places of the open ones.
fn put_in_places(
    alloc: Global,
    nodes: Vec<Node>,
    trees: Vec<Vec<Node>>,
) -> Result<Vec<Node>, AllocError>
    ensures { IfOk result (λ whole. whole.items ≡ with_trees nodes.items (map (λ t. t.items) trees.items)) }
{
    let mut behind = nodes;
    behind.reverse();
    let mut trees = trees;
    trees.reverse();
    let mut whole = Vec::new(alloc);
    while let Some(node) = behind.pop() {
        match node {
            Node::Left => push_tree(&mut whole, trees.pop())?,
            node => whole.push(node)?,
        }
    }
    Ok(whole)
}

/// The budget of a tree that takes the place of one open node, in a tree of so many nodes.
fn room_for(limit: Option<u64>, count: usize) -> Option<u64>
    requires some { 1 ≤ count }
    requires room { HasRoom limit count }
    ensures { IsRoom limit result count }
{
    match limit {
        None => None,
        Some(most) => Some(most - (count as u64 - 1)),
    }
}

/// The same budget once one open node has given way to so many nodes.
fn room_after(room: Option<u64>, count: usize) -> Option<u64>
    requires some { 1 ≤ count }
    requires within { IsWithin room count }
    ensures { result ≡ room_after room count }
{
    match room {
        None => None,
        Some(more) => Some(more - (count as u64 - 1)),
    }
}

/// Grows the open nodes of a tree at the branches that wait, the nearest first, each in depth.
#[tactic(auto, using(crate::proofs::Archives::improves_same))]
pub(crate) fn grow_waiting<W: World, S: Strategy<W>>(
    alloc: Global,
    world: &W,
    archive: &mut Archive,
    strategy: &mut S,
    nodes: Vec<Node>,
    waiting: Vec<Waiting<W::Region>>,
    limit: Option<u64>,
) -> Result<Vec<Node>, AllocError>
    requires archive { IsArchive (W.problem world.now) archive.old }
    requires awaited { (root : Spot W.Region) × (leaves : List (Leaf (Spot W.Region) Node))
        × AreAwaited (W.rules world.now) (W.proper world.now) archive.old root nodes.items leaves waiting.items }
    requires room { HasRoom limit (length nodes.items) }
    ensures archive { IsArchive (W.problem world.now) archive.new }
    ensures improved { Improves archive.old archive.new }
    ensures grown { IfOk result (λ whole. (root : Spot W.Region) (leaves : List (Leaf (Spot W.Region) Node)) →
        AreAwaited (W.rules world.now) (W.proper world.now) archive.old root nodes.items leaves waiting.items →
        Completes (W.rules world.now) archive.new root limit leaves whole.items) }
    ensures kept { IfOk result (λ whole. (trees : List (List Node)) × (whole.items ≡ with_trees nodes.items trees)) }
{
    let mut waiting = waiting;
    let mut trees = open_trees(alloc, waiting.len())?;
    put_nearest_last(&mut waiting)?;
    let mut room = room_for(limit, nodes.len());
    while let Some(next) = waiting.pop() {
        let place = next.place;
        let mut tree = Vec::new(alloc);
        grow_tree(
            alloc,
            world,
            archive,
            strategy,
            false,
            next.branch,
            room,
            0,
            &mut tree,
            &mut waiting,
        )?;
        room = room_after(room, tree.len());
        trees[place] = tree;
    }
    put_in_places(alloc, nodes, trees)
}
