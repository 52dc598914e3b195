//! The rule of the checker, for nodes that are no cut.

ghost use Rattle.std.specs.Prelude.{◌≡◌, ◌*◌, ◌^◌, ◌<ℤ◌, ◌≤ℤ◌, pos, [], IfOk, IsTrue, ◌↔◌};
ghost use Rattle.std.specs.List.{list_any};
ghost use Rattle.orienteering.specs.Decision.{is_above, dominates_box, passes_tight, cut_at, split_step, cutoff_step, node_step};
ghost use Rattle.growth.specs.Reading.{IsKept};
ghost use Rattle.growth.specs.Growth.{IsGrown, IsPlain, IsRefused, leaf_step};

use crate::branch::Branch;
use crate::world::World;
use front_archive::Archive;
use orienteering::{Box2, CutOnPath, Node, Point, Split, Step};
use std::alloc::{AllocError, Global};

/// A weight times a profit or a time.
fn weighted(weight: u32, value: u64) -> i128
    ensures value { result ≡ pos (weight * value) }
    ensures low { pos 0 ≤ℤ result }
    ensures high { result <ℤ pos (2 ^ 96) }
{
    (u128::from(weight) * u128::from(value)) as i128
}

/// Whether no point of the box is within the bound of the cut.
fn is_above(cut: CutOnPath, area: Box2) -> bool
    ensures { result ≡ is_above cut area }
{
    cut.bound < weighted(cut.alpha, area.p_lo) - weighted(cut.beta, area.t_hi)
}

/// Whether a held point weakly dominates every point of the box: then it does so to the best corner.
fn some_dominates(archive: &Archive, area: Box2) -> bool
    ensures { result ≡ list_any (dominates_box area) archive.now }
{
    archive.covers(Point {
        profit: area.p_hi,
        time: area.t_lo,
    })
}

/// Whether a held point weakly dominates every point of the tight box, or that is empty.
fn is_dominated<W: World>(world: &W, archive: &Archive, region: &W::Region) -> bool
    requires { W.proper world.now region.now }
    ensures { result ≡ passes_tight (W.rules world.now) (λ b. list_any (dominates_box b) archive.now) region.now }
{
    match world.tight(region) {
        None => true,
        Some(area) => some_dominates(archive, area),
    }
}

/// Whether the bound of the cut leaves no plan in the tight box, or that is empty.
fn is_cut_off<W: World>(world: &W, cut: CutOnPath, region: &W::Region) -> bool
    requires { W.proper world.now region.now }
    ensures { result ≡ passes_tight (W.rules world.now) (is_above cut) region.now }
{
    match world.tight(region) {
        None => true,
        Some(area) => is_above(cut, area),
    }
}

/// The `k`-th cut of the path, counted from 1 at the root's end.
fn cut_at(cuts: &[CutOnPath], k: u64) -> Option<CutOnPath>
    ensures { result ≡ cut_at cuts.now k }
{
    let place = k.checked_sub(1)?;
    cuts.get(place as usize).copied()
}

/// A leaf where the test passed.
fn leaf_if<R: Drop>(passed: bool) -> Step<Branch<R>, ()>
    ensures { result ≡ leaf_step passed }
{
    if passed {
        Step::Ends
    } else {
        Step::Refused(())
    }
}

fn judge_split<W: World>(
    alloc: Global,
    world: &W,
    branch: &Branch<W::Region>,
    by: Split,
) -> Result<Step<Branch<W::Region>, ()>, AllocError>
    requires { W.proper world.now branch.now.region }
    ensures sound { IfOk result (λ s. IsKept s (split_step (W.rules world.now) [] 0 branch.now by)) }
    ensures complete { IfOk result (λ s. IsRefused s → IsRefused (split_step (W.rules world.now) [] 0 branch.now by)) }
{
    let Some((first, second)) = world.split(alloc, branch.region(), by)? else {
        return Ok(Step::Refused(()));
    };
    let first = branch.part(alloc, first)?;
    let second = branch.part(alloc, second)?;
    Ok(Step::Children(first, second))
}

fn judge_cutoff<W: World>(
    world: &W,
    branch: &Branch<W::Region>,
    k: u64,
) -> Step<Branch<W::Region>, ()>
    requires { W.proper world.now branch.now.region }
    ensures sound { IsKept result (cutoff_step (W.rules world.now) [] 0 branch.now k) }
    ensures complete { IsRefused result → IsRefused (cutoff_step (W.rules world.now) [] 0 branch.now k) }
{
    match cut_at(branch.cuts(), k) {
        None => Step::Refused(()),
        Some(cut) => leaf_if(is_cut_off(world, cut, branch.region())),
    }
}

/// Judges a node that is no cut. Cuts and open nodes are refused here.
pub(crate) fn judge<W: World>(
    alloc: Global,
    world: &W,
    archive: &Archive,
    branch: &Branch<W::Region>,
    node: &Node,
) -> Result<Step<Branch<W::Region>, ()>, AllocError>
    requires { W.proper world.now branch.now.region }
    ensures sound { IfOk result (λ s. IsKept s (node_step (W.rules world.now) archive.now 0 branch.now node.now)) }
    ensures grown { IfOk result (λ s. (IsRefused s → ⊥) → IsGrown node.now) }
    ensures complete { IfOk result (λ s. IsPlain node.now → IsRefused s →
        IsRefused (node_step (W.rules world.now) archive.now 0 branch.now node.now)) }
{
    match node {
        Node::Profit { v } => judge_split(alloc, world, branch, Split::Profit { v: *v }),
        Node::Time { v } => judge_split(alloc, world, branch, Split::Time { v: *v }),
        Node::Count { c } => judge_split(alloc, world, branch, Split::Count { c: *c }),
        Node::Arc { i, j } => judge_split(alloc, world, branch, Split::Arc { i: *i, j: *j }),
        Node::Dominated => Ok(leaf_if(is_dominated(world, archive, branch.region()))),
        Node::Cutoff { k } => Ok(judge_cutoff(world, branch, *k)),
        Node::Stuck { reason } => Ok(leaf_if(world.is_stuck(branch.region(), *reason))),
        Node::Cut { .. } | Node::Left => Ok(Step::Refused(())),
    }
}

pub(crate) fn is_refused<R: Drop>(step: &Step<Branch<R>, ()>) -> bool
    ensures { IsTrue result ↔ IsRefused step.now }
{
    matches!(step, Step::Refused(()))
}
