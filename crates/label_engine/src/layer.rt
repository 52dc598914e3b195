ghost use Rattle.std.specs.Prelude.{◌≡◌, ℕ, ◌+◌, ◌<◌, ◌≤◌, ◌^◌, ◌++◌, [], map, vec_len, OnOk, IfOk};
ghost use Rattle.std.specs.Option.{option_to_list};
ghost use Rattle.label_engine.specs.Front.{IsCallOf, GivesFitting};
ghost use Rattle.label_engine.specs.Layer.{Whole, IsLastLayer};
ghost use Rattle.label_engine.specs.Offer.{begun_label};
ghost use Rattle.label_engine.specs.Rivals.{AreAllRivals};
ghost use Rattle.label_engine.specs.Settled.{HasMoreThan};

use crate::bucket::{close_bucket, fill_bucket};
use crate::label::{Label, ReplayFail};
use crate::moves::Moves;
use label_core::Resource;
use std::alloc::{AllocError, Global};

/// The state at a call to begin with, as a label.
fn beginning<R: Resource, M: Moves<R>>(moves: &M, call: u32) -> Option<Label<R>>
    requires { IsCallOf (M.moves moves.now) call }
    ensures { result ≡ begun_label R.rules (M.moves moves.now) call }
{
    let state = moves.begin(call)?;
    Some(Label {
        call,
        hops: 1,
        state,
        parent: None,
    })
}

/// Adds the label of the front of one call, if there is one, and answers the rivals of that call.
fn begin_call<R: Resource, M: Moves<R>>(
    alloc: Global,
    moves: &M,
    labels: &mut Vec<Label<R>>,
    call: u32,
) -> Result<Vec<R>, AllocError>
    requires { IsCallOf (M.moves moves.now) call }
    ensures labels { OnOk result (labels.new.items ≡ labels.old.items ++ option_to_list (begun_label R.rules (M.moves moves.now) call)) }
    ensures rivals { IfOk result (λ rivals. rivals.items ≡ map (λ label. label.state) (option_to_list (begun_label R.rules (M.moves moves.now) call))) }
{
    let mut rivals = Vec::new(alloc);
    if let Some(label) = beginning(moves, call) {
        rivals.push(label.state.copy())?;
        labels.push(label)?;
    }
    Ok(rivals)
}

/// The labels of fronts of one call, and the rivals of each call.
pub(crate) fn first_layer<R: Resource, M: Moves<R>>(
    alloc: Global,
    moves: &M,
    calls: u32,
    labels: &mut Vec<Label<R>>,
    rivals: &mut Vec<Vec<R>>,
) -> Result<(), AllocError>
    requires count { calls ≡ (M.moves moves.now).calls }
    requires fitting { GivesFitting R.fits R.fits_step (M.moves moves.now) }
    requires none { labels.old.items ≡ [] }
    requires no_rivals { rivals.old.items ≡ [] }
    ensures whole { OnOk result (Whole R.rules (M.moves moves.now) 1 labels.new.items) }
    ensures layer { OnOk result (IsLastLayer 1 0 labels.new.items) }
    ensures count { OnOk result (vec_len rivals.new ≡ calls) }
    ensures rivals { OnOk result (AreAllRivals R.rules labels.new.items rivals.new.items) }
{
    for index in 0..calls {
        rivals.push(begin_call(alloc, moves, labels, index + 1)?)?;
    }
    Ok(())
}

/// Adds the labels of fronts that are one call longer than those of the last layer, which begins at a place, bucket after
/// bucket. It stops where more than `limit` labels are kept.
pub(crate) fn next_layer<R: Resource, M: Moves<R>>(
    moves: &M,
    calls: u32,
    start: usize,
    hops: u32,
    limit: u64,
    labels: &mut Vec<Label<R>>,
    rivals: &mut Vec<Vec<R>>,
    bucket: &mut Vec<Label<R>>,
) -> Result<(), ReplayFail>
    requires count { calls ≡ (M.moves moves.now).calls }
    requires fitting { GivesFitting R.fits R.fits_step (M.moves moves.now) }
    requires some { 1 ≤ hops }
    requires long { hops + 1 < 2 ^ 32 }
    requires start { start ≤ vec_len labels.old }
    requires few { vec_len labels.old ≤ limit }
    requires whole { Whole R.rules (M.moves moves.now) hops labels.old.items }
    requires layer { IsLastLayer hops start labels.old.items }
    requires rows { vec_len rivals.old ≡ calls }
    requires rivals { AreAllRivals R.rules labels.old.items rivals.old.items }
    requires empty { bucket.old.items ≡ [] }
    ensures whole { OnOk result (Whole R.rules (M.moves moves.now) (hops + 1) labels.new.items) }
    ensures layer { OnOk result (IsLastLayer (hops + 1) (vec_len labels.old) labels.new.items) }
    ensures longer { OnOk result (vec_len labels.old ≤ vec_len labels.new) }
    ensures few { OnOk result (vec_len labels.new ≤ limit) }
    ensures rows { OnOk result (vec_len rivals.new ≡ calls) }
    ensures rivals { OnOk result (AreAllRivals R.rules labels.new.items rivals.new.items) }
    ensures empty { OnOk result (bucket.new.items ≡ []) }
    ensures many { result ≡ Err ReplayFail.TooManyLabels → (most : ℕ) → hops + 1 ≤ most → HasMoreThan R.rules (M.moves moves.now) limit most }
{
    let end = labels.len();
    for index in 0..calls {
        let row = &mut rivals[index as usize];
        fill_bucket(moves, &labels[..end], start, hops, index + 1, row, bucket)?;
        close_bucket(labels, row, bucket)?;
        if labels.len() as u64 > limit {
            return Err(ReplayFail::TooManyLabels);
        }
    }
    Ok(())
}
