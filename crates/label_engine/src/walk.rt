ghost use Rattle.std.specs.Prelude.{◌≡◌, ◌<◌, All, length, IfOk};
ghost use Rattle.label_engine.specs.Front.{IsCallOf};
ghost use Rattle.label_engine.specs.Settled.{HasParent, IsFrontOf};

use crate::label::Label;
use crate::moves::Moves;
use label_core::Resource;
use std::alloc::{AllocError, Global};

/// The calls of a front whose state the label at a place has.
pub(crate) fn front_of<R: Resource, M: Moves<R>>(
    alloc: Global,
    moves: &M,
    labels: &[Label<R>],
    place: usize,
) -> Result<Vec<u32>, AllocError>
    requires place { place < length labels.now }
    requires parents { All (HasParent R.rules (M.moves moves.now) labels.now) labels.now }
    requires calls { All (λ label. IsCallOf (M.moves moves.now) label.call) labels.now }
    ensures { IfOk result (λ front. IsFrontOf R.rules (M.moves moves.now) labels.now place front.items) }
{
    let label = &labels[place];
    let mut front = match label.parent {
        None => Vec::new(alloc),
        Some(parent) => front_of(alloc, moves, labels, parent as usize)?,
    };
    front.push(label.call)?;
    Ok(front)
}
