//! The tests of leaves, on the tight box of their region.

ghost use Rattle.std.specs.Prelude.{◌≡◌, ◌*◌, ◌^◌, ◌<◌, ◌≤◌, ◌≤ℤ◌, ◌<ℤ◌, pos, length};
ghost use Rattle.std.specs.List.{list_any};
ghost use Rattle.std.specs.List.Sorted.{IsPartitionPoint};
ghost use Rattle.orienteering.specs.Decision.{dominates_box, is_above};
ghost use Rattle.orienteering.specs.Frontier.{AllRise};
ghost use Rattle.orienteering.specs.Instance.{calls};
ghost use Rattle.proof_check.specs.Leaves.{passes, tight_of};

use orienteering::{Box2, CutOnPath, Listed};
use region_ctx::Context;
use site_model::Instance;

/// The tight box, none where it is empty.
pub(crate) fn tight_of(inst: &Instance, ctx: &Context) -> Option<Box2>
    requires { ctx.now.calls ≡ calls inst.now }
    ensures { result ≡ tight_of inst.now ctx.now }
{
    ctx.tight(inst)
}

/// A weight times a profit or a time.
fn weighted(weight: u32, value: u64) -> i128
    ensures value { result ≡ pos (weight * value) }
    ensures low { pos 0 ≤ℤ result }
    ensures high { result <ℤ pos (2 ^ 96) }
{
    (u128::from(weight) * u128::from(value)) as i128
}

/// Whether no point of the box is within the bound of the cut.
fn is_above(cut: CutOnPath, area: Box2) -> bool
    ensures { result ≡ is_above cut area }
{
    cut.bound < weighted(cut.alpha, area.p_lo) - weighted(cut.beta, area.t_hi)
}

/// Whether the bound of the cut leaves no plan in the tight box, or that is empty.
pub(crate) fn is_cut_off(cut: CutOnPath, tight: Option<Box2>) -> bool
    ensures { result ≡ passes (is_above cut) tight }
{
    match tight {
        None => true,
        Some(area) => is_above(cut, area),
    }
}

/// The place of the first listed point with at least this profit.
fn first_with(points: &[Listed], profit: u64) -> usize
    requires { AllRise points.now }
    ensures within { result ≤ length points.now }
    ensures place { IsPartitionPoint (λ listed. listed.point.profit < profit) (λ listed. profit ≤ listed.point.profit) points.now result }
{
    points.partition_point(|listed| listed.point.profit < profit)
}

/// Whether a listed point weakly dominates every point of the box. Both numbers rise from point to point, so it is enough to
/// ask the first that has the profit.
fn some_dominates(points: &[Listed], area: Box2) -> bool
    requires { AllRise points.now }
    ensures { result ≡ list_any (dominates_box area) points.now }
{
    match points.get(first_with(points, area.p_hi)) {
        None => false,
        Some(listed) => listed.point.time <= area.t_lo,
    }
}

/// Whether a listed point weakly dominates every point of the tight box, or that is empty.
pub(crate) fn is_dominated(points: &[Listed], tight: Option<Box2>) -> bool
    requires { AllRise points.now }
    ensures { result ≡ passes (λ area. list_any (dominates_box area) points.now) tight }
{
    match tight {
        None => true,
        Some(area) => some_dominates(points, area),
    }
}
