//! The boxes that are left, each once, in the order in which they came.

ghost use Rattle.std.specs.Prelude.{◌≡◌, IfOk, OnOk};
ghost use Rattle.orienteering.specs.Decide.{keep_box};

use indexmap::IndexSet;
use orienteering::Box2;
use std::alloc::{AllocError, Global};

/// Puts the box last, unless it is there.
pub(crate) fn keep_box(boxes: &mut IndexSet<Box2>, area: Box2) -> Result<(), AllocError>
    ensures { OnOk result (boxes.new.keys ≡ keep_box boxes.old.keys area) }
{
    match boxes.insert_full(area) {
        Ok(_) => Ok(()),
        Err(_) => Err(AllocError),
    }
}

/// The boxes as a list.
pub(crate) fn listed(alloc: Global, boxes: IndexSet<Box2>) -> Result<Vec<Box2>, AllocError>
    ensures { IfOk result (λ list. list.items ≡ boxes.keys) }
{
    boxes.into_iter().collect(alloc)
}
