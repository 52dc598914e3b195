//! A certificate that is grown from one open node and starting plans.

ghost use Rattle.std.specs.Prelude.{◌≡◌, ◌∷◌, [], List, IfOk, OnOk, Ok};
ghost use Rattle.growth.specs.Growth.{Continues, Improves, IsArchive};
ghost use Rattle.orienteering.specs.Decide.{region_rules};
ghost use Rattle.orienteering.specs.Decision.{Branch, read_nodes};
ghost use Rattle.orienteering.specs.Instance.{calls};
ghost use Rattle.orienteering.specs.Preorder.{Leaf};
ghost use Rattle.orienteering.specs.Region.{Region, root};
ghost use Rattle.orienteering.specs.declared.Node.{Node};
ghost use Rattle.orienteering.specs.declared.Node.TheVariants.{Left};
ghost use Rattle.sweep_solver.specs.Solved.{CoversPlans, IsAccepted, KeepsBudget};
ghost use Rattle.sweep_solver.specs.Trees.{IsClosedWithin, IsTreeWithin};

use crate::regions::Regions;
use crate::strategy::PricedStrategy;
use crate::world::offer;
use cert_text::Cert;
use front_archive::Archive;
use growth::grow_certificate;
use orienteering::{Node, Plan, copy_listed};
use region_ctx::Context;
use site_model::Instance;
use std::alloc::{AllocError, Global};

/// The tree that is grown: one open node.
fn open_tree(alloc: Global) -> Result<Vec<Node>, AllocError>
    ensures { IfOk result (λ nodes. nodes.items ≡ Left ∷ []) }
{
    let mut nodes = Vec::new(alloc);
    nodes.push(Node::Left)?;
    Ok(nodes)
}

/// The archive of the empty plan and of those of these lists of tours that are plans.
pub(crate) fn archive_of(
    alloc: Global,
    inst: &Instance,
    starts: Vec<Plan>,
) -> Result<Archive, AllocError>
    ensures archive { IfOk result (IsArchive inst.now) }
    ensures covered { IfOk result (CoversPlans inst.now starts.items) }
{
    let mut archive = Archive::new(alloc);
    offer(alloc, inst, &mut archive, Plan::from_tours(Vec::new(alloc)))?;
    let mut left = starts;
    while let Some(plan) = left.pop() {
        offer(alloc, inst, &mut archive, plan)?;
    }
    Ok(archive)
}

/// The certificate of these points and nodes.
pub(crate) fn certificate_of(
    alloc: Global,
    inst: &Instance,
    archive: &Archive,
    nodes: Vec<Node>,
) -> Result<Cert, AllocError>
    ensures { IfOk result (λ c. c ≡ record {
      customers = calls inst.now;
      team = inst.now.team;
      scale = inst.now.scale;
      points = archive.now;
      nodes = nodes.items;
    }) }
{
    let points = copy_listed(alloc, archive.points())?;
    Ok(Cert::from_parts(
        u64::from(inst.calls()),
        u64::from(inst.team()),
        inst.scale().number(),
        points,
        nodes,
    ))
}

/// Offers all these lists of tours to the archive.
#[tactic(auto, using(growth::proofs::Archives::improves_same))]
pub(crate) fn offer_all(
    alloc: Global,
    inst: &Instance,
    archive: &mut Archive,
    plans: Vec<Plan>,
) -> Result<(), AllocError>
    requires archive { IsArchive inst.now archive.old }
    ensures archive { IsArchive inst.now archive.new }
    ensures improved { Improves archive.old archive.new }
    ensures covered { OnOk result (CoversPlans inst.now plans.items archive.new) }
{
    for plan in plans {
        offer(alloc, inst, archive, plan)?;
    }
    Ok(())
}

/// A strategy that has learned the tours of the archive. The better plans that they make together are in the archive then.
#[tactic(auto, using(growth::proofs::Archives::improves_same))]
pub(crate) fn begun(
    alloc: Global,
    regions: &Regions<'_>,
    archive: &mut Archive,
) -> Result<PricedStrategy, AllocError>
    requires archive { IsArchive regions.now.inst.now archive.old }
    ensures archive { IsArchive regions.now.inst.now archive.new }
    ensures improved { Improves archive.old archive.new }
{
    let root = Context::root(alloc, regions.inst)?;
    let mut strategy = PricedStrategy::new(alloc, regions.inst, root.raw())?;
    let plans = strategy.begin(alloc, regions, archive)?;
    offer_all(alloc, regions.inst, archive, plans)?;
    Ok(strategy)
}

/// Grows the open nodes of a tree.
#[tactic(auto, using(growth::proofs::Archives::improves_same))]
pub(crate) fn grow(
    alloc: Global,
    regions: &Regions<'_>,
    archive: &mut Archive,
    strategy: &mut PricedStrategy,
    nodes: Vec<Node>,
    limit: Option<u64>,
) -> Result<Vec<Node>, AllocError>
    requires archive { IsArchive regions.now.inst.now archive.old }
    requires tree { IsTreeWithin regions.now.inst.now regions.now.labels archive.old limit nodes.items }
    ensures archive { IsArchive regions.now.inst.now archive.new }
    ensures improved { Improves archive.old archive.new }
    ensures tree { IfOk result (λ grown. IsTreeWithin regions.now.inst.now regions.now.labels archive.new limit grown.items) }
    ensures closed { IfOk result (λ grown. IsClosedWithin limit grown.items) }
    ensures continued { IfOk result (λ grown. (old : List (Leaf (Branch Region) Node)) →
        read_nodes (region_rules regions.now.inst.now regions.now.labels) archive.old (root regions.now.inst.now) nodes.items ≡ Ok old →
        Continues (region_rules regions.now.inst.now regions.now.labels) archive.new (root regions.now.inst.now) limit nodes.items old grown.items) }
{
    let root = Context::root(alloc, regions.inst)?;
    grow_certificate(alloc, regions, archive, strategy, root, nodes, limit)
}

/// A tree that is grown from one open node. With a budget, boxes are lifted before they wait for arcs.
#[tactic(auto, using(growth::proofs::Archives::improves_same))]
pub(crate) fn grown_tree(
    alloc: Global,
    regions: &Regions<'_>,
    archive: &mut Archive,
    limit: Option<u64>,
) -> Result<Vec<Node>, AllocError>
    requires archive { IsArchive regions.now.inst.now archive.old }
    ensures archive { IsArchive regions.now.inst.now archive.new }
    ensures improved { Improves archive.old archive.new }
    ensures tree { IfOk result (λ grown. IsTreeWithin regions.now.inst.now regions.now.labels archive.new limit grown.items) }
    ensures closed { IfOk result (λ grown. IsClosedWithin limit grown.items) }
{
    let mut strategy = begun(alloc, regions, archive)?;
    strategy.lifts = limit.is_some();
    let tree = open_tree(alloc)?;
    grow(alloc, regions, archive, &mut strategy, tree, limit)
}

/// A certificate of the instance that the checker accepts where a replay may keep `labels` undominated states. Its points
/// are the best that were found; each starting plan is weakly dominated by one of them. With a budget of `nodes`
/// the search stops once there are so many, and the certificate has at most one more; without one it closes every box,
/// however long that takes. The only error is want of memory.
pub(crate) fn solve_from(
    alloc: Global,
    inst: &Instance,
    starts: Vec<Plan>,
    nodes: Option<u64>,
    labels: u64,
) -> Result<Cert, AllocError>
    ensures accepted { IfOk result (IsAccepted inst.now labels) }
    ensures budget { IfOk result (λ cert. KeepsBudget nodes cert.nodes) }
    ensures starts { IfOk result (λ cert. CoversPlans inst.now starts.items cert.points) }
{
    let mut archive = archive_of(alloc, inst, starts)?;
    let regions = Regions { inst, labels };
    let grown = grown_tree(alloc, &regions, &mut archive, nodes)?;
    certificate_of(alloc, inst, &archive, grown)
}
