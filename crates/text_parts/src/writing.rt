//! Writing at the end of bytes: words, numbers, and parts of one kind.

ghost use Rattle.std.specs.Prelude.{◌≡◌, ◌++◌, List, ℕ, OnOk, decimal, codes};
ghost use Rattle.std.specs.Fmt.{signed_decimal};
ghost use Rattle.std.specs.List.{flat_map, AllByRecursion};
ghost use Rattle.text_parts.specs.Texts.{ended_number, counted_text, AreItems};

use itoa::Buffer;
use std::alloc::{AllocError, Global};

/// A kind of part: the one text of its value.
pub trait WritePart {
    type Value;

    ghost text: { Self.Value → List ℕ };

    // What holds of each value that can be written, as that its numbers are those of their types.
    ghost valid: { Self.Value → Type 0 };

    /// Puts the text at the end.
    fn write(value: &Self::Value, out: &mut Vec<u8>) -> Result<(), AllocError>
        ensures text { OnOk result (out.new.items ≡ out.old.items ++ text value.now) }
        ensures valid { OnOk result (valid value.now) };
}

/// Puts the bytes at the end.
pub fn put(out: &mut Vec<u8>, text: &[u8]) -> Result<(), AllocError>
    ensures { OnOk result (out.new.items ≡ out.old.items ++ text.now) }
{
    out.extend_from_slice(text)?;
    Ok(())
}

/// Puts the decimal digits of a number.
pub fn put_number(out: &mut Vec<u8>, n: u64) -> Result<(), AllocError>
    ensures { OnOk result (out.new.items ≡ out.old.items ++ decimal n) }
{
    let mut buffer = Buffer::new();
    put(out, buffer.format(n).as_bytes())
}

/// Puts the decimal digits of a number, behind a minus where it is below 0.
pub fn put_signed(out: &mut Vec<u8>, n: i64) -> Result<(), AllocError>
    ensures { OnOk result (out.new.items ≡ out.old.items ++ signed_decimal n) }
{
    let mut buffer = Buffer::new();
    put(out, buffer.format(n).as_bytes())
}

/// Puts a number, and what ends it.
#[tactic(auto, using(crate::proofs::Appends::appends))]
pub fn put_ended(out: &mut Vec<u8>, n: u64, end: &[u8]) -> Result<(), AllocError>
    ensures { OnOk result (out.new.items ≡ out.old.items ++ ended_number end.now n) }
{
    put_number(out, n)?;
    put(out, end)?;
    Ok(())
}

/// Puts a line with a word and a number.
#[tactic(auto, using(crate::proofs::Appends::appends))]
pub fn put_line(out: &mut Vec<u8>, first: &[u8], n: u64) -> Result<(), AllocError>
    ensures { OnOk result (out.new.items ≡ out.old.items ++ (first.now ++ ended_number (codes "\n") n)) }
{
    put(out, first)?;
    put_ended(out, n, b"\n")?;
    Ok(())
}

/// Puts the texts of the items, one behind the other.
pub fn put_all<P: WritePart>(out: &mut Vec<u8>, items: &[P::Value]) -> Result<(), AllocError>
    ensures text { OnOk result (out.new.items ≡ out.old.items ++ flat_map P.text items.now) }
    ensures valid { OnOk result (AllByRecursion P.valid items.now) }
{
    for item in items {
        P::write(item, out)?;
    }
    Ok(())
}

/// Puts a line with a word and the number of the items, and the items.
#[tactic(auto, using(crate::proofs::Appends::appends))]
pub fn put_counted<P: WritePart>(
    out: &mut Vec<u8>,
    first: &[u8],
    items: &[P::Value],
) -> Result<(), AllocError>
    ensures text { OnOk result (out.new.items ≡ out.old.items ++ counted_text first.now P.text items.now) }
    ensures valid { OnOk result (AreItems P.valid items.now) }
{
    put_line(out, first, items.len() as u64)?;
    put_all::<P>(out, items)?;
    Ok(())
}
