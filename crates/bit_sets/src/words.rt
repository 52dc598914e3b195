ghost use Rattle.std.specs.Prelude.{◌≡◌, ◌≢◌, ◌<◌, ◌≤◌, ◌+◌, ◌-◌, ◌*◌, ◌/◌, ◌%◌, ◌==◌, ◌||◌, ◌&&◌, ◌^◌, ◌++◌, ℕ, List, [], IfOk, IsOk, OnErr, OnOk, length, not, replicate, slice_index};
ghost use Rattle.bit_sets.specs.NumberSet.{is_subset};
ghost use Rattle.bit_sets.specs.Words.{has_bit, members};

use smallvec::SmallVec;
use std::alloc::{AllocError, Global};

/// Whether the bit of `x` is set. Bits past the words aren't.
pub(crate) fn has_bit(words: &[u64], x: u32) -> bool
    ensures { result ≡ has_bit words.now x }
{
    match words.get((x / 64) as usize) {
        Some(word) => (*word >> (x % 64)) & 1 == 1,
        None => false,
    }
}

/// Sets the bit of `x`, and answers whether it was clear.
pub(crate) fn set_bit(words: &mut SmallVec<u64, 5>, x: u32) -> bool
    requires { x / 64 < length words.old.items }
    ensures fresh { result ≡ not (has_bit words.old.items x) }
    ensures set { (y : ℕ) → has_bit words.new.items y ≡ (y == x || has_bit words.old.items y) }
    ensures len { length words.new.items ≡ length words.old.items }
{
    set_bit_of(words.as_mut_slice(), x)
}

/// The same in a slice of words.
pub(crate) fn set_bit_of(words: &mut [u64], x: u32) -> bool
    requires { x / 64 < length words.old }
    ensures fresh { result ≡ not (has_bit words.old x) }
    ensures set { (y : ℕ) → has_bit words.new y ≡ (y == x || has_bit words.old y) }
{
    let place = (x / 64) as usize;
    let is_new = !has_bit(words, x);
    words[place] |= 1 << (x % 64);
    is_new
}

/// Clears the bit of `x`.
pub(crate) fn clear_bit(words: &mut [u64], x: u32)
    requires { x / 64 < length words.old }
    ensures { (y : ℕ) → has_bit words.new y ≡ (not (y == x) && has_bit words.old y) }
{
    words[(x / 64) as usize] &= !(1 << (x % 64));
}

/// Adds clear words up to the word of `x`.
pub(crate) fn reach(words: &mut SmallVec<u64, 5>, x: u32) -> Result<(), AllocError>
    ensures grown { OnOk result (words.new.items ≡ words.old.items ++ replicate (x / 64 + 1 - length words.old.items) 0) }
    ensures err { OnErr result (words.new.items ≡ words.old.items) }
    ensures within { x / 64 < length words.old.items → IsOk result }
{
    let wanted = (x / 64) as usize + 1;
    if words.len() < wanted {
        words.resize(wanted, 0)?;
    }
    Ok(())
}

/// Whether each bit that is set in the first is set in the second.
pub(crate) fn is_subset(first: &[u64], second: &[u64]) -> bool
    ensures { result ≡ is_subset (members first.now) (members second.now) }
{
    for place in 0..first.len() {
        let word = first[place];
        if word & word_at(second, place) != word {
            return false;
        }
    }
    true
}

/// How many bits are set.
pub(crate) fn count(words: &[u64]) -> u64
    requires { length words.now ≤ 2 ^ 26 }
    ensures { result ≡ length (members words.now) }
{
    let mut count = 0;
    for word in words {
        count += u64::from(word.count_ones());
    }
    count
}

/// Sets the bits that are set in the others too.
pub(crate) fn unite(words: &mut [u64], others: &[u64])
    requires { length others.now ≤ length words.old }
    ensures { (y : ℕ) → has_bit words.new y ≡ (has_bit words.old y || has_bit others.now y) }
{
    for place in 0..others.len() {
        words[place] |= others[place];
    }
}

/// Words with the bits of both, of which the first has as many words at least.
pub(crate) fn joined(
    alloc: Global,
    long: &[u64],
    short: &[u64],
) -> Result<SmallVec<u64, 5>, AllocError>
    requires { length short.now ≤ length long.now }
    ensures both { IfOk result (λ v. (y : ℕ) → has_bit v.items y ≡ (has_bit long.now y || has_bit short.now y)) }
    ensures len { IfOk result (λ v. length v.items ≡ length long.now) }
    ensures inline { length long.now ≤ 5 → IsOk result }
{
    let mut words = SmallVec::from_slice(alloc, long)?;
    unite(words.as_mut_slice(), short);
    Ok(words)
}

/// The word at a place, and 0 past the end.
fn word_at(words: &[u64], place: usize) -> u64
    ensures { result ≡ slice_index words.now place }
{
    match words.get(place) {
        Some(word) => *word,
        None => 0,
    }
}
