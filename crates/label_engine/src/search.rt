ghost use Rattle.std.specs.Prelude.{◌≡◌, ℕ, ◌<◌, ◌≤◌, length, OnOk, IfOk};
ghost use Rattle.label_engine.specs.Settled.{IsSettled, HasMoreThan};

use crate::label::{ReplayFail, Settled};
use crate::layer::{first_layer, next_layer};
use crate::moves::Moves;
use label_core::Resource;
use std::alloc::Global;

/// The states of fronts of at most `hops` calls that no different one covers, each once, by rising number of calls.
/// `TooManyLabels` comes exactly where there are more than `limit` of them, and `Memory` is want of memory.
pub fn settle<R: Resource, M: Moves<R>>(
    alloc: Global,
    moves: &M,
    hops: u32,
    limit: u64,
) -> Result<Settled<R>, ReplayFail>
    ensures settled { IfOk result (λ labels. IsSettled R.rules (M.moves moves.now) hops labels) }
    ensures few { IfOk result (λ labels. length labels ≤ limit) }
    ensures no_more { OnOk result (¬ HasMoreThan R.rules (M.moves moves.now) limit hops) }
    ensures many { result ≡ Err ReplayFail.TooManyLabels → HasMoreThan R.rules (M.moves moves.now) limit hops }
{
    let calls = moves.calls();
    if hops == 0 {
        return Ok(Settled::none(alloc));
    }
    let mut labels = Vec::new(alloc);
    let mut rivals = Vec::new(alloc);
    let mut bucket = Vec::new(alloc);
    first_layer(alloc, moves, calls, &mut labels, &mut rivals)?;
    if labels.len() as u64 > limit {
        return Err(ReplayFail::TooManyLabels);
    }
    let mut start = 0;
    for length in 1..hops {
        let end = labels.len();
        if start == end {
            return Ok(Settled::of(labels));
        }
        next_layer(
            moves,
            calls,
            start,
            length,
            limit,
            &mut labels,
            &mut rivals,
            &mut bucket,
        )?;
        start = end;
    }
    Ok(Settled::of(labels))
}
