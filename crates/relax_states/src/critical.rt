//! A critical set with one more call.

ghost use Rattle.std.specs.Prelude.{◌≡◌, IfOk};
ghost use Rattle.relax_states.specs.CriticalSet.{with_call};

use std::alloc::{AllocError, Global};

/// Rising calls with one more in its place.
pub fn with_call(alloc: Global, calls: &[u32], call: u32) -> Result<Vec<u32>, AllocError>
    ensures { IfOk result (λ more. more.items ≡ with_call calls.now call) }
{
    let mut more = Vec::from_slice(alloc, calls)?;
    for index in 0..calls.len() {
        if calls[index] >= call {
            more.insert(index, call)?;
            return Ok(more);
        }
    }
    more.push(call)?;
    Ok(more)
}
