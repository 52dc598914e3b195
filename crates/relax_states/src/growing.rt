//! The critical set that grows.

ghost use Rattle.std.specs.Prelude.{◌≡◌, ◌↔◌, ◌<◌, ◌≤◌, [], true, false, length, IsTrue, IfOk, OnOk, MatchOption, None};
ghost use Rattle.label_engine.specs.Greatest.{sigma_of, HasWalk};
ghost use Rattle.orienteering.specs.Instance.{calls};
ghost use Rattle.orienteering.specs.Price.{IsFit};
ghost use Rattle.orienteering.specs.Region.{IsProper, is_forced};
ghost use Rattle.orienteering.specs.Replay.{is_critical_set, relaxation};
ghost use Rattle.orienteering.specs.Sigma.{sigma};
ghost use Rattle.relax_states.specs.CriticalSet.{with_call};
ghost use Rattle.relax_states.specs.Elementary.{IsTourOutcome, IsStopped, states};
ghost use Rattle.relax_states.specs.Growing.{IsReplayed, IsGrown};
ghost use Rattle.relax_states.specs.Repeats.{repeated};

use crate::critical::with_call;
use crate::repeats::repeated;
use label_engine::{Outcome, ReplayFail, greatest};
use orienteering::{Price, Tour};
use region_ctx::Context;
use site_model::Instance;
use std::alloc::{AllocError, Global};

/// The outcome of a replay, and whether it is that of tours.
#[derive(Drop)]
pub struct Relaxed {
    /// The critical calls, strictly rising.
    pub critical: Tour,
    /// The greatest value of a relaxed walk on which no critical call stands twice.
    pub outcome: Outcome,
    /// Whether there is no such walk, or the one that is answered comes to no call again: it is the best tour then.
    pub elementary: bool,
}

/// A critical set with the outcome of its replay.
#[derive(Drop)]
struct Replayed {
    critical: Vec<u32>,
    outcome: Outcome,
}

/// The most calls that may be critical at once.
const MOST_CRITICAL: u32 = 64;

impl Replayed {
    /// The answer for the set as it is.
    fn into_relaxed(self, elementary: bool) -> Relaxed
        ensures { result ≡ record { critical = self.critical.items; outcome = self.outcome; elementary = elementary } }
    {
        Relaxed {
            critical: Tour::from_calls(self.critical),
            outcome: self.outcome,
            elementary,
        }
    }
}

/// The replay without critical calls.
fn begun(
    alloc: Global,
    inst: &Instance,
    ctx: &Context,
    price: &Price,
    limit: u64,
) -> Result<Replayed, ReplayFail>
    requires proper { IsProper inst.now ctx.now }
    requires fit { IsFit (calls inst.now) (is_forced ctx.now) price.now }
    ensures replayed { IfOk result (λ r. IsReplayed inst.now ctx.now price.now limit 0 r.critical.items r.outcome) }
    ensures few { OnOk result (states inst.now ctx.now price.now [] ≤ limit) }
    ensures many { result ≡ Err ReplayFail.TooManyLabels → limit < states inst.now ctx.now price.now [] }
{
    let critical = Vec::new(alloc);
    let outcome = greatest(alloc, inst, ctx, price, critical.as_slice(), limit)?;
    Ok(Replayed { critical, outcome })
}

/// The replay with one more critical call, or none where that has too many undominated states.
fn extended(
    alloc: Global,
    inst: &Instance,
    ctx: &Context,
    price: &Price,
    critical: &[u32],
    call: u32,
    limit: u64,
) -> Result<Option<Replayed>, AllocError>
    requires proper { IsProper inst.now ctx.now }
    requires fit { IsFit (calls inst.now) (is_forced ctx.now) price.now }
    requires set { is_critical_set (calls inst.now) (with_call critical.now call) ≡ true }
    ensures { IfOk result (λ found. MatchOption found
        (limit < states inst.now ctx.now price.now (with_call critical.now call))
        (λ r. IsReplayed inst.now ctx.now price.now limit (length (with_call critical.now call)) r.critical.items r.outcome)) }
{
    let critical = with_call(alloc, critical, call)?;
    match greatest(alloc, inst, ctx, price, critical.as_slice(), limit) {
        Ok(outcome) => Ok(Some(Replayed { critical, outcome })),
        Err(ReplayFail::TooManyLabels) => Ok(None),
        Err(ReplayFail::Memory) => Err(AllocError),
    }
}

/// Grows the critical set of a replay by the first call that the best walk repeats, until the walk repeats none, the set is
/// full, or the next set has too many undominated states.
fn grown(
    alloc: Global,
    inst: &Instance,
    ctx: &Context,
    price: &Price,
    first: Replayed,
    limit: u64,
) -> Result<Relaxed, AllocError>
    requires proper { IsProper inst.now ctx.now }
    requires fit { IsFit (calls inst.now) (is_forced ctx.now) price.now }
    requires first { IsReplayed inst.now ctx.now price.now limit 0 first.critical.items first.outcome }
    ensures { IfOk result (IsGrown inst.now ctx.now price.now limit) }
{
    let mut now = first;
    for _ in 0..MOST_CRITICAL {
        let Some(call) = repeated(&now.outcome) else {
            return Ok(now.into_relaxed(true));
        };
        match extended(
            alloc,
            inst,
            ctx,
            price,
            now.critical.as_slice(),
            call,
            limit,
        )? {
            None => return Ok(now.into_relaxed(false)),
            Some(next) => now = next,
        }
    }
    let elementary = repeated(&now.outcome).is_none();
    Ok(now.into_relaxed(elementary))
}

/// The greatest value of a relaxed walk of the region under the price, over a critical set that grows from nothing by the
/// first call that the best walk repeats, until the walk repeats none, the set has 64 calls, or the next set has more than
/// `limit` undominated states. `TooManyLabels` comes exactly where the set without calls has more than `limit` of them, and
/// `Memory` is want of memory.
pub fn decremental(
    alloc: Global,
    inst: &Instance,
    ctx: &Context,
    price: &Price,
    limit: u64,
) -> Result<Relaxed, ReplayFail>
    requires proper { IsProper inst.now ctx.now }
    requires fit { IsFit (calls inst.now) (is_forced ctx.now) price.now }

    // The outcome is that of the answered set, which has at most as many undominated states as the limit says.
    ensures set { IfOk result (λ a. is_critical_set (calls inst.now) a.critical ≡ true) }
    ensures sigma { IfOk result (λ a. sigma_of a.outcome ≡ sigma inst.now (relaxation ctx.now price.now a.critical)) }
    ensures walk { IfOk result (λ a. HasWalk inst.now (relaxation ctx.now price.now a.critical) a.outcome) }
    ensures few { IfOk result (λ a. states inst.now ctx.now price.now a.critical ≤ limit) }

    // It is that of tours where its walk comes to no call again; else the set could grow no further.
    ensures elementary { IfOk result (λ a. IsTrue a.elementary ↔ (repeated a.outcome ≡ None)) }
    ensures tours { IfOk result (λ a. IsTrue a.elementary → IsTourOutcome inst.now ctx.now price.now a.outcome) }
    ensures stopped { IfOk result (λ a. a.elementary ≡ false → IsStopped inst.now ctx.now price.now limit a.critical a.outcome) }

    // The states are too many exactly where it says so.
    ensures begins { OnOk result (states inst.now ctx.now price.now [] ≤ limit) }
    ensures many { result ≡ Err ReplayFail.TooManyLabels → limit < states inst.now ctx.now price.now [] }
{
    let first = begun(alloc, inst, ctx, price, limit)?;
    Ok(grown(alloc, inst, ctx, price, first, limit)?)
}
