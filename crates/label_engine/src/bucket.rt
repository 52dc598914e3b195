ghost use Rattle.std.specs.Prelude.{◌≡◌, ◌+◌, ◌<◌, ◌≤◌, ◌^◌, ◌++◌, [], not, filter, map, length, OnOk, IfSome, IsSome, IsNone, true, false};
ghost use Rattle.std.specs.List.{list_any};
ghost use Rattle.std.specs.List.Sorted.{IsPermutation};
ghost use Rattle.label_engine.specs.Front.{IsCallOf, GivesFitting};
ghost use Rattle.label_engine.specs.Known.{Knows};
ghost use Rattle.label_engine.specs.Layer.{Whole, IsLastLayer, Bucket};
ghost use Rattle.label_engine.specs.Offer.{stepped_label, beats, is_better, is_outdone, offered, taken};
ghost use Rattle.label_engine.specs.Rivals.{AreRivals, closed_rivals};

use crate::label::Label;
use crate::moves::Moves;
use label_core::Resource;
use std::alloc::AllocError;

/// The step from a call to the call of a bucket, kept while the labels that are extended stand at that call.
#[derive(Drop)]
pub(crate) struct KnownStep<S> {
    pub from: u32,
    pub step: Option<S>,
}

pub(crate) fn know_step<R: Resource, M: Moves<R>>(
    moves: &M,
    known: &mut KnownStep<R::Step>,
    from: u32,
    to: u32,
)
    requires from { IsCallOf (M.moves moves.now) from }
    requires to { IsCallOf (M.moves moves.now) to }
    requires known { Knows (M.moves moves.now) to known.old }
    ensures known { Knows (M.moves moves.now) to known.new }
    ensures from { known.new.from ≡ from }
{
    if known.from != from {
        known.from = from;
        known.step = moves.step(from, to);
    }
}

/// The label at a place, one call further by the step.
pub(crate) fn extension<R: Resource>(
    label: &Label<R>,
    place: usize,
    step: &Option<R::Step>,
    to: u32,
) -> Option<Label<R>>
    requires { label.now.hops + 1 < 2 ^ 32 }
    ensures { result ≡ stepped_label R.rules label.now place step.now to }
{
    match step {
        None => None,
        Some(step) => {
            let state = label.state.extend(step)?;
            Some(Label {
                call: to,
                hops: label.hops + 1,
                state,
                parent: Some(place as u64),
            })
        }
    }
}

/// The place of a rival that is at least as good as a state, None where there is none.
fn first_better<R: Resource>(rivals: &[R], state: &R) -> Option<usize>
    ensures within { IfSome result (λ index. index < length rivals.now) }
    ensures found { IsSome result → list_any (beats R.rules state.now) rivals.now ≡ true }
    ensures none { IsNone result → list_any (beats R.rules state.now) rivals.now ≡ false }
{
    for index in 0..rivals.len() {
        if rivals[index].leq(state) {
            return Some(index);
        }
    }
    None
}

/// Whether a rival is at least as good as a state. One that is moves halfway to the front, so that it is met sooner.
pub(crate) fn is_beaten<R: Resource>(rivals: &mut [R], state: &R) -> bool
    ensures value { result ≡ list_any (beats R.rules state.now) rivals.old }
    ensures rivals { IsPermutation rivals.old rivals.new }
{
    match first_better(rivals, state) {
        None => false,
        Some(index) => {
            rivals.swap(index / 2, index);
            true
        }
    }
}

fn is_covered<R: Resource>(bucket: &[Label<R>], candidate: &Label<R>) -> bool
    ensures { result ≡ list_any (λ label. is_better R.rules label candidate.now) bucket.now }
{
    bucket.iter().any(|label| label.state.leq(&candidate.state))
}

fn drop_covered<R: Resource>(bucket: &mut Vec<Label<R>>, candidate: &Label<R>)
    ensures { bucket.new.items ≡ filter (λ label. not (is_better R.rules candidate.now label)) bucket.old.items }
{
    bucket.retain(|label| !candidate.state.leq(&label.state));
}

/// Keeps a label, unless one in the bucket is at least as good, and drops those that it is at least as good as.
fn offer<R: Resource>(bucket: &mut Vec<Label<R>>, candidate: Label<R>) -> Result<(), AllocError>
    ensures { OnOk result (bucket.new.items ≡ offered (is_better R.rules) bucket.old.items candidate) }
{
    if is_covered(bucket, &candidate) {
        return Ok(());
    }
    drop_covered(bucket, &candidate);
    bucket.push(candidate)?;
    Ok(())
}

/// Takes a label into the bucket, where there is one, unless a rival is at least as good.
fn take<R: Resource>(
    rivals: &mut [R],
    bucket: &mut Vec<Label<R>>,
    found: Option<Label<R>>,
) -> Result<(), AllocError>
    ensures bucket { OnOk result (bucket.new.items ≡ taken R.rules rivals.old bucket.old.items found) }
    ensures rivals { IsPermutation rivals.old rivals.new }
{
    match found {
        None => Ok(()),
        Some(label) => {
            if is_beaten(rivals, &label.state) {
                return Ok(());
            }
            offer(bucket, label)
        }
    }
}

/// Fills the bucket of a call with what follows from the labels of the last layer, which begins at a place.
pub(crate) fn fill_bucket<R: Resource, M: Moves<R>>(
    moves: &M,
    labels: &[Label<R>],
    start: usize,
    hops: u32,
    to: u32,
    rivals: &mut [R],
    bucket: &mut Vec<Label<R>>,
) -> Result<(), AllocError>
    requires fitting { GivesFitting R.fits R.fits_step (M.moves moves.now) }
    requires call { IsCallOf (M.moves moves.now) to }
    requires long { hops + 1 < 2 ^ 32 }
    requires start { start ≤ length labels.now }
    requires whole { Whole R.rules (M.moves moves.now) hops labels.now }
    requires layer { IsLastLayer hops start labels.now }
    requires rivals { AreRivals R.rules labels.now to rivals.old }
    requires empty { bucket.old.items ≡ [] }
    ensures filled { OnOk result (Bucket R.rules (M.moves moves.now) R.fits hops start labels.now bucket.new.items to (length labels.now)) }
    ensures rivals { OnOk result (AreRivals R.rules labels.now to rivals.new) }
{
    let mut known = KnownStep {
        from: 0,
        step: None,
    };
    for place in start..labels.len() {
        let label = &labels[place];
        know_step(moves, &mut known, label.call, to);
        let found = extension(label, place, &known.step, to);
        take(rivals, bucket, found)?;
    }
    Ok(())
}

/// Whether a label of the bucket is at least as good as a rival.
fn is_outdone<R: Resource>(bucket: &[Label<R>], rival: &R) -> bool
    ensures { result ≡ is_outdone R.rules bucket.now rival.now }
{
    bucket.iter().any(|label| label.state.leq(rival))
}

/// Drops the rivals that a label of the bucket outdoes.
fn drop_outdone<R: Resource>(bucket: &[Label<R>], rivals: &mut Vec<R>)
    ensures { rivals.new.items ≡ filter (λ rival. not (is_outdone R.rules bucket.now rival)) rivals.old.items }
{
    rivals.retain(|rival| !is_outdone(bucket, rival));
}

/// Makes the labels of the bucket rivals.
fn add_rivals<R: Resource>(bucket: &[Label<R>], rivals: &mut Vec<R>) -> Result<(), AllocError>
    ensures { OnOk result (rivals.new.items ≡ rivals.old.items ++ map (λ label. label.state) bucket.now) }
{
    for label in bucket {
        rivals.push(label.state.copy())?;
    }
    Ok(())
}

/// Puts the bucket of a call behind the labels, and makes its labels rivals in place of those that they outdo.
pub(crate) fn close_bucket<R: Resource>(
    labels: &mut Vec<Label<R>>,
    rivals: &mut Vec<R>,
    bucket: &mut Vec<Label<R>>,
) -> Result<(), AllocError>
    ensures labels { OnOk result (labels.new.items ≡ labels.old.items ++ bucket.old.items) }
    ensures rivals { OnOk result (rivals.new.items ≡ closed_rivals R.rules bucket.old.items rivals.old.items) }
    ensures bucket { OnOk result (bucket.new.items ≡ []) }
{
    drop_outdone(bucket, rivals);
    add_rivals(bucket, rivals)?;
    labels.append(bucket)
}
