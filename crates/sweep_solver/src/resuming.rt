//! The solver, from a certificate on.

ghost use Rattle.std.specs.Prelude.{◌≡◌, ◌≤◌, ◌↔◌, IsTrue, List, length, map, IfOk, Ok};
ghost use Rattle.growth.specs.Growth.{Continues, Improves, IsArchive, IsWithin};
ghost use Rattle.orienteering.specs.Decide.{region_rules};
ghost use Rattle.orienteering.specs.Decision.{Branch, read_nodes};
ghost use Rattle.orienteering.specs.Preorder.{Leaf};
ghost use Rattle.orienteering.specs.Region.{Region, root};
ghost use Rattle.orienteering.specs.declared.Node.{Node};
ghost use Rattle.sweep_solver.specs.Resumed.{IsLimitAfter, IsResumed, LeavesNoBox};
ghost use Rattle.sweep_solver.specs.Solved.{CoversPlans, IsAccepted, start_plans};

use crate::options::{Options, starting_plans};
use crate::regions::Regions;
use crate::search::{archive_of, begun, certificate_of, grow, offer_all};
use cert_text::Cert;
use front_archive::Archive;
use orienteering::{Listed, Node, Plan, copy_listed};
use proof_check::check;
use site_model::Instance;
use std::alloc::{AllocError, Global};
use std::thread::Threads;

/// The same nodes.
fn copy_nodes(alloc: Global, nodes: &[Node]) -> Result<Vec<Node>, AllocError>
    ensures { IfOk result (λ copies. copies.items ≡ nodes.now) }
{
    let mut copies = Vec::new(alloc);
    for node in nodes {
        copies.push(node.copy(alloc)?)?;
    }
    Ok(copies)
}

/// The same certificate.
fn copy_of(alloc: Global, cert: &Cert) -> Result<Cert, AllocError>
    ensures { IfOk result (λ copy. copy ≡ cert.now) }
{
    let points = copy_listed(alloc, cert.points())?;
    let nodes = copy_nodes(alloc, cert.nodes())?;
    Ok(Cert::from_parts(cert.customers(), cert.team(), cert.scale(), points, nodes))
}

/// The plans of the listed points.
fn plans_of(alloc: Global, points: &[Listed]) -> Result<Vec<Plan>, AllocError>
    ensures { IfOk result (λ plans. plans.items ≡ map (λ l. l.plan) points.now) }
{
    let mut plans = Vec::new(alloc);
    for listed in points {
        plans.push(listed.plan.copy(alloc)?)?;
    }
    Ok(plans)
}

/// Whether the verdict on an accepted certificate leaves no box.
fn leaves_no_box<R: Threads + Sync>(
    rt: &R,
    alloc: Global,
    inst: &Instance,
    cert: &Cert,
    options: &Options,
) -> Result<bool, AllocError>
    requires few_workers { (1 ≤ options.now.workers) × (options.now.workers ≤ 16) }
    requires accepted { IsAccepted inst.now options.now.labels cert.now }
    ensures { IfOk result (λ none. IsTrue none ↔ LeavesNoBox inst.now options.now.labels cert.now) }
{
    match check(rt, alloc, inst, cert, options.labels, options.workers) {
        Ok(accepted) => Ok(accepted.boxes().is_empty()),
        Err(_) => Err(AllocError),
    }
}

/// The number of nodes at which a tree stops that has `count` and may get `more`. Without one it never stops, as where no tree
/// has so many.
fn limit_after(count: u64, more: Option<u64>) -> Option<u64>
    ensures { IsLimitAfter count more result }
{
    match more {
        None => None,
        Some(more) => count.checked_add(more),
    }
}

/// The best points that a search begins with: those of the certificate, and of the starting plans that are plans.
#[tactic(auto, using(growth::proofs::Archives::improves_same))]
fn archive_from(
    alloc: Global,
    inst: &Instance,
    cert: &Cert,
    labels: u64,
    starts: Vec<Plan>,
) -> Result<Archive, AllocError>
    requires accepted { IsAccepted inst.now labels cert.now }
    ensures archive { IfOk result (IsArchive inst.now) }
    ensures improved { IfOk result (λ archive. Improves cert.now.points archive) }
    ensures covered { IfOk result (λ archive. CoversPlans inst.now starts.items archive) }
{
    let plans = plans_of(alloc, cert.points())?;
    let mut archive = archive_of(alloc, inst, plans)?;
    offer_all(alloc, inst, &mut archive, starts)?;
    Ok(archive)
}

/// The nodes of an accepted certificate, grown where they are open, over points that are at least as good as its own.
fn regrown(
    alloc: Global,
    regions: &Regions<'_>,
    archive: &mut Archive,
    cert: &Cert,
    limit: Option<u64>,
) -> Result<Vec<Node>, AllocError>
    requires archive { IsArchive regions.now.inst.now archive.old }
    requires improved { Improves cert.now.points archive.old }
    requires accepted { IsAccepted regions.now.inst.now regions.now.labels cert.now }
    requires within { IsWithin limit (length cert.now.nodes) }
    ensures archive { IsArchive regions.now.inst.now archive.new }
    ensures improved { Improves archive.old archive.new }
    ensures grown { IfOk result (λ grown. (old : List (Leaf (Branch Region) Node)) →
        read_nodes (region_rules regions.now.inst.now regions.now.labels) cert.now.points (root regions.now.inst.now) cert.now.nodes ≡ Ok old →
        Continues (region_rules regions.now.inst.now regions.now.labels) archive.new (root regions.now.inst.now) limit cert.now.nodes old grown.items) }
{
    let mut strategy = begun(alloc, regions, archive)?;
    strategy.lifts = limit.is_some();
    let nodes = copy_nodes(alloc, cert.nodes())?;
    grow(alloc, regions, archive, &mut strategy, nodes, limit)
}

/// A certificate that goes on from one that leaves a box.
fn resume_from(
    alloc: Global,
    inst: &Instance,
    cert: &Cert,
    options: &Options,
    starts: Vec<Plan>,
) -> Result<Cert, AllocError>
    requires accepted { IsAccepted inst.now options.now.labels cert.now }
    requires some { LeavesNoBox inst.now options.now.labels cert.now → ⊥ }
    requires starts { starts.items ≡ start_plans inst.now options.now.seed }
    ensures { IfOk result (IsResumed inst.now options.now.labels options.now.nodes options.now.seed cert.now) }
{
    let labels = options.labels;
    let mut archive = archive_from(alloc, inst, cert, labels, starts)?;
    let regions = Regions { inst, labels };
    let limit = limit_after(cert.nodes().len() as u64, options.nodes);
    let grown = regrown(alloc, &regions, &mut archive, cert, limit)?;
    certificate_of(alloc, inst, &archive, grown)
}

/// A certificate of the instance that the checker accepts and that goes on from one that it accepts. Where the old
/// certificate leaves no box, the answer is the same certificate. Else its tree is the old tree: every node that is
/// not open stays as it is, in its order, and subtrees take the places of open nodes. Each box of the answer lies in
/// a box of the old certificate. The points are the best of the old ones, of the four starting plans of the seed, and
/// of those that the search finds: each old point and each starting plan is weakly dominated by one of them. With
/// `nodes` the search stops once there are so many nodes more than in the old tree. The answer has at most one more
/// than that, and a box only where it has at least so many more. Without `nodes` the search closes every box, however
/// long that takes. The only error is want of memory.
pub fn resume<R: Threads + Sync>(
    rt: &R,
    alloc: Global,
    inst: &Instance,
    cert: &Cert,
    options: &Options,
) -> Result<Cert, AllocError>
    requires few_workers { (1 ≤ options.now.workers) × (options.now.workers ≤ 16) }
    requires accepted { IsAccepted inst.now options.now.labels cert.now }
    ensures { IfOk result (IsResumed inst.now options.now.labels options.now.nodes options.now.seed cert.now) }
{
    if leaves_no_box(rt, alloc, inst, cert, options)? {
        return copy_of(alloc, cert);
    }
    let starts = starting_plans(rt, alloc, inst, options)?;
    resume_from(alloc, inst, cert, options, starts)
}
