//! Parts of one kind: what is read for a value, lists of such values, and words of a set.

ghost use Rattle.std.specs.Prelude.{◌≡◌, ℕ, List, Result};
ghost use Rattle.text_parts.specs.Reading.{list_at, counted_at, one_of, word_at};
ghost use Rattle.text_parts.specs.Gives.{Gives, GivesInMemory};

use crate::reading::{ended_number, word};
use crate::stop::{ReadFail, Stop};
use std::alloc::Global;

/// A kind of part: how its value is read from the front of bytes.
pub trait ReadPart {
    type Value: Drop;

    ghost reading: { List ℕ → Result (Self.Value × List ℕ) ℕ };

    fn read(alloc: Global, bytes: &[u8]) -> Result<(Self::Value, &[u8]), ReadFail>
        ensures { GivesInMemory (λ x. (x.0, x.1.now)) result (reading bytes.now) };
}

/// So many parts, one behind the other. The count comes from the bytes, so no room is made for it.
pub fn list<P: ReadPart>(
    alloc: Global,
    bytes: &[u8],
    count: u64,
) -> Result<(Vec<P::Value>, &[u8]), ReadFail>
    ensures { GivesInMemory (λ x. (x.0.items, x.1.now)) result (list_at count P.reading bytes.now) }
{
    let mut items = Vec::new(alloc);
    let mut rest = bytes;
    for _ in 0..count {
        let (item, after) = P::read(alloc, rest)?;
        items.push(item)?;
        rest = after;
    }
    Ok((items, rest))
}

/// A line with a word and a number, and that many parts behind it.
#[tactic(auto, unfolding(crate::specs::Reading::counted_at))]
pub fn counted<'a, P: ReadPart>(
    alloc: Global,
    bytes: &'a [u8],
    first: &[u8],
) -> Result<(Vec<P::Value>, &'a [u8]), ReadFail>
    ensures { GivesInMemory (λ x. (x.0.items, x.1.now)) result (counted_at first.now P.reading bytes.now) }
{
    let rest = word(bytes, first)?;
    let (count, rest) = ended_number(rest, u64::MAX, b"\n")?;
    let (items, rest) = list::<P>(alloc, rest, count)?;
    Ok((items, rest))
}

/// A set of words, each of which stands for a value.
pub trait Words {
    type Value: Copy;

    ghost word: { Self.Value → List ℕ };

    fn word(value: Self::Value) -> &'static [u8]
        ensures { result.now ≡ word value };
}

/// The first of the values whose word stands at the front; else the stop that is farthest on.
pub fn find_word<'a, W: Words>(
    bytes: &'a [u8],
    values: &[W::Value],
) -> Result<(W::Value, &'a [u8]), Stop>
    ensures { Gives (λ x. (x.0, x.1.now)) result (one_of W.word values.now bytes.now) }
{
    let mut left = bytes.len();
    for value in values {
        match word(bytes, W::word(*value)) {
            Ok(rest) => return Ok((*value, rest)),
            Err(stop) => left = left.min(stop.left),
        }
    }
    Err(Stop { left })
}
