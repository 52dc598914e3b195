//! Lines of numbers.

ghost use Rattle.std.specs.Prelude.{◌≡◌, ◌++◌, OnOk};
ghost use Rattle.instance_gen.specs.Generated.{spaced, numbers_line};

use std::alloc::AllocError;
use text_parts::writing::{WritePart, put, put_all, put_number};

/// A number behind a space.
struct SpacedNumber;

impl WritePart for SpacedNumber {
    type Value = u64;

    ghost text = { spaced };

    ghost valid = { λ _. Unit {0} };

    #[tactic(auto, using(text_parts::proofs::Appends::appends))]
    fn write(value: &u64, out: &mut Vec<u8>) -> Result<(), AllocError> {
        put(out, b" ")?;
        put_number(out, *value)?;
        Ok(())
    }
}

/// Puts a line of numbers.
#[tactic(auto, using(text_parts::proofs::Appends::appends))]
pub fn put_numbers(out: &mut Vec<u8>, numbers: &[u64]) -> Result<(), AllocError>
    ensures { OnOk result (out.new.items ≡ out.old.items ++ numbers_line numbers.now) }
{
    if let Some((first, others)) = numbers.split_first() {
        put_number(out, *first)?;
        put_all::<SpacedNumber>(out, others)?;
    }
    put(out, b"\n")?;
    Ok(())
}
