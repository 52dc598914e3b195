ghost use Rattle.std.specs.Prelude.{◌≡◌, ◌<◌, ◌≤◌, ◌^◌, ℕ, [], IfSome, IsNone, length, slice_index};
ghost use Rattle.std.specs.Iterator.{YieldsFirst, item_count};
ghost use Rattle.bit_sets.specs.Words.{left_members, members};

use std::iter::FusedIterator;
use std::marker::Model;

/// The numbers of a set that are left, in rising order.
#[derive(Drop)]
pub struct BitsIter<'a> {
    words: &'a [u64],
    place: usize,
    word: u64,
}

impl<'a> Model for BitsIter<'a> {
    ghost use Rattle.std.specs.Prelude.{◌<◌, ◌≤◌, ◌^◌, ℕ, List, length};
    ghost use Rattle.bit_sets.specs.Words.{left_members};

    ghost Value = { List ℕ };

    ghost view = { λ it. left_members it.words.now it.place it.word };

    ghost invariant = { λ it. (it.place < length it.words.now) × (length it.words.now ≤ 2 ^ 26) × (it.word < 2 ^ 64) };
}

impl<'a> BitsIter<'a> {
    /// The numbers whose bits are set.
    pub(crate) fn over(words: &'a [u64]) -> BitsIter<'a>
        requires some { 0 < length words.now }
        requires few { length words.now ≤ 2 ^ 26 }
        ensures { result ≡ members words.now }
    {
        BitsIter {
            words,
            place: 0,
            word: words[0],
        }
    }
}

/// The first word from this one on that has a bit, with its place.
fn next_word(words: &[u64], place: usize, word: u64) -> Option<(usize, u64)>
    requires { place < length words.now }
    ensures same { IfSome result (λ next. left_members words.now next.0 next.1 ≡ left_members words.now place word) }
    ensures within { IfSome result (λ next. next.0 < length words.now) }
    ensures some_bit { IfSome result (λ next. 0 < next.1) }
    ensures fits { IfSome result (λ next. next.1 < 2 ^ 64) }
    ensures none { IsNone result → left_members words.now place word ≡ [] }
{
    if word != 0 {
        return Some((place, word));
    }
    for next in place + 1..words.len() {
        if words[next] != 0 {
            return Some((next, words[next]));
        }
    }
    None
}

impl<'a> Iterator for BitsIter<'a> {
    type Item = u32;

    ghost next_gives = { YieldsFirst (λ rest. rest) };

    ghost remaining = { item_count (λ rest. rest) };

    fn next(&mut self) -> Option<u32> {
        let (place, word) = next_word(self.words, self.place, self.word)?;
        let bit = word.trailing_zeros();
        self.place = place;
        self.word = word & !(1 << bit);
        Some(64 * place as u32 + bit)
    }
}

impl<'a> FusedIterator for BitsIter<'a> {}
