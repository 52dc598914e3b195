//! The growth of a certificate, in the words of the checker.

ghost use Rattle.std.specs.Prelude.{◌≡◌, List, length, reverse, IfOk, Ok};
ghost use Rattle.orienteering.specs.Preorder.{Leaf};
ghost use Rattle.orienteering.specs.Decision.{read_nodes, Branch};
ghost use Rattle.orienteering.specs.declared.Node.{Node};
ghost use Rattle.growth.specs.Growth.{IsArchive, Improves, IsWithin, Continues};

use crate::branch::Branch;
use crate::grow::has_room;
use crate::regrow::grow_open_nodes;
use crate::waiting::grow_waiting;
use crate::world::{Strategy, World};
use front_archive::Archive;
use orienteering::Node;
use std::alloc::{AllocError, Global};

/// Grows the open nodes of a tree that the checker accepts, and answers the nodes of the grown tree, which the
/// checker accepts with the better points of the archive. Every node that was not open stays as it is, in its order;
/// only trees in the places of open nodes are new.
///
/// `limit` is a number of nodes of the whole tree: the answer has at most one more, and a node is left open only where the
/// answer has as many. Where there is no limit, none is left open: branches that the strategy puts off are grown once the
/// others are closed, the nearest first. The box of each node that is left open lies in the box of one that was open
/// before. The archive stays one of plans with their points, and improves alone, also where memory is wanted.
#[tactic(auto, using(crate::proofs::Archives::improves_same))]
pub fn grow_certificate<W: World, S: Strategy<W>>(
    alloc: Global,
    world: &W,
    archive: &mut Archive,
    strategy: &mut S,
    root: W::Region,
    nodes: Vec<Node>,
    limit: Option<u64>,
) -> Result<Vec<Node>, AllocError>
    requires proper { W.proper world.now root }
    requires archive { IsArchive (W.problem world.now) archive.old }
    requires accepted { (leaves : List (Leaf (Branch W.Region) Node))
        × (read_nodes (W.rules world.now) archive.old root nodes.items ≡ Ok leaves) }
    requires within { IsWithin limit (length nodes.items) }
    ensures archive { IsArchive (W.problem world.now) archive.new }
    ensures improved { Improves archive.old archive.new }
    ensures grown { IfOk result (λ grown. (leaves : List (Leaf (Branch W.Region) Node)) →
        read_nodes (W.rules world.now) archive.old root nodes.items ≡ Ok leaves →
        Continues (W.rules world.now) archive.new root limit nodes.items leaves grown.items) }
{
    let mut behind = nodes;
    behind.reverse();
    let branch = Branch::root(alloc, root);
    let mut waiting = Vec::new(alloc);
    let nodes = grow_open_nodes(
        alloc,
        world,
        archive,
        strategy,
        branch,
        behind,
        limit,
        &mut waiting,
    )?;
    if !has_room(limit, nodes.len() as u128) {
        return Ok(nodes);
    }
    grow_waiting(alloc, world, archive, strategy, nodes, waiting, limit)
}
