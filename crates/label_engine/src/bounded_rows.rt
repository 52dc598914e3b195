ghost use Rattle.std.specs.Prelude.{◌≡◌, ◌+◌, ◌<◌, ◌≤◌, ◌^◌, ◌++◌, take, All, true, length, vec_len, [], OnOk, IfOk, IfSome};
ghost use Rattle.std.specs.List.{list_any};
ghost use Rattle.std.specs.List.Sorted.{IsPermutation};
ghost use Rattle.label_engine.specs.BoundedRows.{replaced, kept, gathered, IsLonger, AreRowsOf, CallLayer};
ghost use Rattle.label_engine.specs.Front.{IsCallOf, GivesFitting};
ghost use Rattle.label_engine.specs.Layer.{IsLastLayer, Covering, Grown};
ghost use Rattle.label_engine.specs.Offer.{beats};
ghost use Rattle.label_engine.specs.Rivals.{StandsFor};
ghost use Rattle.label_engine.specs.Settled.{CoversFronts};

use crate::bucket::{KnownStep, extension, is_beaten, know_step};
use crate::flagged_moves::FlaggedState;
use crate::label::{Label, Settled};
use crate::layer::first_layer;
use crate::moves::Moves;
use crate::small_moves::SmallState;
use label_core::Resource;
use std::alloc::{AllocError, Global};

/// A number by which candidates are tried, those of the greatest first. Any number is right; a good one leaves fewer
/// labels.
pub(crate) trait Ranked {
    fn rank(&self) -> i128;
}

impl Ranked for FlaggedState {
    fn rank(&self) -> i128 {
        self.b.b.sum
    }
}

impl Ranked for SmallState {
    fn rank(&self) -> i128 {
        i128::from(self.b.b.sum)
    }
}

/// How many rivals a row has at most.
const ROW: usize = 32;

/// How many rivals are tried before a label becomes a candidate.
const FIRST: usize = 8;

/// The labels of the last layer, from a place up to another, each of so many calls.
#[derive(Clone, Copy)]
struct LastLayer {
    start: usize,
    end: usize,
    hops: u32,
}

/// Puts a rival behind the row while there is room, and then over the one at a place.
fn put_rival<R: Resource>(row: &mut Vec<R>, place: usize, state: R) -> Result<(), AllocError>
    requires { place < 32 }
    ensures { OnOk result (row.new.items ≡ replaced row.old.items place state) }
{
    if row.len() < ROW {
        row.push(state)?;
        return Ok(());
    }
    row[place] = state;
    Ok(())
}

/// Keeps a label, unless a rival of its call is at least as good. One that is kept is a rival.
fn keep<R: Resource>(
    labels: &mut Vec<Label<R>>,
    row: &mut Vec<R>,
    label: Label<R>,
    to: u32,
) -> Result<(), AllocError>
    requires call { label.call ≡ to }
    requires row { All (StandsFor labels.old.items to) row.old.items }
    ensures labels { OnOk result (labels.new.items ≡ labels.old.items ++ kept R.rules row.old.items label) }
    ensures row { OnOk result (All (StandsFor labels.new.items to) row.new.items) }
{
    if is_beaten(row, &label.state) {
        return Ok(());
    }
    put_rival(row, ROW / 2 + labels.len() % (ROW / 2), label.state.copy())?;
    labels.push(label)?;
    Ok(())
}

/// Whether one of the first rivals is at least as good as a state.
fn is_beaten_at_once<R: Resource>(row: &[R], state: &R) -> bool
    ensures { result ≡ list_any (beats R.rules state.now) (take 8 row.now) }
{
    row.iter().take(FIRST).any(|rival| rival.leq(state))
}

/// Makes a label a candidate, where there is one, unless one of the first rivals is at least as good.
fn gather_label<R: Resource>(
    candidates: &mut Vec<Label<R>>,
    row: &[R],
    found: Option<Label<R>>,
) -> Result<(), AllocError>
    ensures { OnOk result (candidates.new.items ≡ candidates.old.items ++ gathered R.rules row.now found) }
{
    if let Some(label) = found {
        if !is_beaten_at_once(row, &label.state) {
            candidates.push(label)?;
        }
    }
    Ok(())
}

/// Gathers the candidates of a call: what follows by it from the labels of the last layer.
fn gather<R: Resource, M: Moves<R>>(
    moves: &M,
    layer: LastLayer,
    to: u32,
    labels: &[Label<R>],
    row: &[R],
    candidates: &mut Vec<Label<R>>,
) -> Result<(), AllocError>
    requires fitting { GivesFitting R.fits R.fits_step (M.moves moves.now) }
    requires call { IsCallOf (M.moves moves.now) to }
    requires long { layer.hops + 1 < 2 ^ 32 }
    requires start { layer.start ≤ layer.end }
    requires end { layer.end ≤ length labels.now }
    requires covering { Covering R.rules (M.moves moves.now) layer.hops (take layer.end labels.now) }
    requires layer { IsLastLayer layer.hops layer.start (take layer.end labels.now) }
    requires grown { Grown R.rules (M.moves moves.now) layer.hops (take layer.end labels.now) labels.now }
    requires row { All (StandsFor labels.now to) row.now }
    requires empty { candidates.old.items ≡ [] }
    ensures { OnOk result (CallLayer R.rules (M.moves moves.now) R.fits layer.hops layer.start (take layer.end labels.now) labels.now candidates.new.items to layer.end) }
{
    let mut known = KnownStep {
        from: 0,
        step: None,
    };
    for place in layer.start..layer.end {
        let label = &labels[place];
        know_step(moves, &mut known, label.call, to);
        let found = extension(label, place, &known.step, to);
        gather_label(candidates, row, found)?;
    }
    Ok(())
}

/// Puts the candidates of the greatest rank last.
fn put_best_last<R: Resource + Ranked>(candidates: &mut Vec<Label<R>>) -> Result<(), AllocError>
    ensures { IsPermutation candidates.old.items candidates.new.items }
{
    candidates.sort_by_key(|label| label.state.rank())?;
    Ok(())
}

/// Adds what follows by a call from the labels of the last layer.
fn extend_to_call<R: Resource + Ranked, M: Moves<R>>(
    moves: &M,
    layer: LastLayer,
    to: u32,
    labels: &mut Vec<Label<R>>,
    row: &mut Vec<R>,
    candidates: &mut Vec<Label<R>>,
) -> Result<(), AllocError>
    requires fitting { GivesFitting R.fits R.fits_step (M.moves moves.now) }
    requires call { IsCallOf (M.moves moves.now) to }
    requires long { layer.hops + 1 < 2 ^ 32 }
    requires start { layer.start ≤ layer.end }
    requires end { layer.end ≤ vec_len labels.old }
    requires covering { Covering R.rules (M.moves moves.now) layer.hops (take layer.end labels.old.items) }
    requires layer { IsLastLayer layer.hops layer.start (take layer.end labels.old.items) }
    requires grown { Grown R.rules (M.moves moves.now) layer.hops (take layer.end labels.old.items) labels.old.items }
    requires row { All (StandsFor labels.old.items to) row.old.items }
    requires empty { candidates.old.items ≡ [] }
    ensures extended { OnOk result (CallLayer R.rules (M.moves moves.now) R.fits layer.hops layer.start (take layer.end labels.old.items) labels.new.items [] to layer.end) }
    ensures longer { OnOk result (IsLonger labels.old.items labels.new.items) }
    ensures row { OnOk result (All (StandsFor labels.new.items to) row.new.items) }
    ensures empty { OnOk result (candidates.new.items ≡ []) }
{
    gather(moves, layer, to, labels, row, candidates)?;
    put_best_last(candidates)?;
    while let Some(label) = candidates.pop() {
        keep(labels, row, label, to)?;
    }
    Ok(())
}

/// Adds labels of fronts that are one call longer than those of the last layer, call after call. False where there are
/// more than `limit` labels then.
fn longer_fronts<R: Resource + Ranked, M: Moves<R>>(
    alloc: Global,
    moves: &M,
    layer: LastLayer,
    limit: u64,
    labels: &mut Vec<Label<R>>,
    rows: &mut Vec<Vec<R>>,
) -> Result<bool, AllocError>
    requires some { 1 ≤ layer.hops }
    requires long { layer.hops + 1 < 2 ^ 32 }
    requires start { layer.start ≤ layer.end }
    requires end { layer.end ≡ vec_len labels.old }
    requires few { vec_len labels.old ≤ limit }
    requires covering { Covering R.rules (M.moves moves.now) layer.hops labels.old.items }
    requires layer { IsLastLayer layer.hops layer.start labels.old.items }
    requires count_rows { vec_len rows.old ≡ (M.moves moves.now).calls }
    requires rows { AreRowsOf labels.old.items rows.old.items }
    ensures covering { IfOk result (λ within. within ≡ true → Covering R.rules (M.moves moves.now) (layer.hops + 1) labels.new.items) }
    ensures layer { IfOk result (λ within. within ≡ true → IsLastLayer (layer.hops + 1) layer.end labels.new.items) }
    ensures longer { IfOk result (λ within. within ≡ true → layer.end ≤ vec_len labels.new) }
    ensures few { IfOk result (λ within. within ≡ true → vec_len labels.new ≤ limit) }
    ensures count_rows { IfOk result (λ within. within ≡ true → vec_len rows.new ≡ (M.moves moves.now).calls) }
    ensures rows { IfOk result (λ within. within ≡ true → AreRowsOf labels.new.items rows.new.items) }
{
    let mut candidates = Vec::new(alloc);
    for index in 0..moves.calls() {
        let row = &mut rows[index as usize];
        extend_to_call(moves, layer, index + 1, labels, row, &mut candidates)?;
        if labels.len() as u64 > limit {
            return Ok(false);
        }
    }
    Ok(true)
}

/// Labels that cover the state of each front of at most `hops` calls, each of such a front, by rising number of calls. A
/// new label is compared with the rivals of a row of bounded length alone, the greatest rank first, so some labels may
/// be covered by others. None where there would be more than `limit` labels, which says nothing of the states.
pub(crate) fn cover_fronts<R: Resource + Ranked, M: Moves<R>>(
    alloc: Global,
    moves: &M,
    hops: u32,
    limit: u64,
) -> Result<Option<Settled<R>>, AllocError>
    ensures covers { IfOk result (λ found. IfSome found (λ labels. CoversFronts R.rules (M.moves moves.now) hops labels)) }
    ensures few { IfOk result (λ found. IfSome found (λ labels. length labels ≤ limit)) }
{
    let calls = moves.calls();
    if hops == 0 {
        return Ok(Some(Settled::none(alloc)));
    }
    let mut labels = Vec::new(alloc);
    let mut rows = Vec::new(alloc);
    first_layer(alloc, moves, calls, &mut labels, &mut rows)?;
    if limit < labels.len() as u64 {
        return Ok(None);
    }
    let mut start = 0;
    for length in 1..hops {
        let end = labels.len();
        if start == end {
            return Ok(Some(Settled::of(labels)));
        }
        let layer = LastLayer {
            start,
            end,
            hops: length,
        };
        if !longer_fronts(alloc, moves, layer, limit, &mut labels, &mut rows)? {
            return Ok(None);
        }
        start = end;
    }
    Ok(Some(Settled::of(labels)))
}
