ghost use Rattle.std.specs.Prelude.{◌≡◌, ◌+◌, ◌*◌, ◌≤◌, IfOk};
ghost use Rattle.std.specs.FinSet as set;
ghost use Rattle.orienteering.specs.Arc.{arc};
ghost use Rattle.bit_sets.specs.ArcTable.{bit_of};

use crate::words;
use std::alloc::{AllocError, Global};
use std::marker::Model;

/// How many words the arcs into one place take: a bit for each place that they leave.
const PLACE_WORDS: usize = 5;

/// A set of arcs between the places `0..=n + 1` of an instance with `n` calls. The arcs into one place stand side by side.
#[derive(Drop)]
pub struct ArcSet {
    calls: u32,
    words: Vec<u64>,
}

impl Model for ArcSet {
    ghost use Rattle.std.specs.Prelude.{◌≡◌, ◌+◌, ◌*◌, ◌≤◌, vec_len};
    ghost use Rattle.bit_sets.specs.ArcTable.{ArcTable, table_code, arcs_of};

    ghost Value = { ArcTable };

    ghost coded = { table_code };

    ghost view = { λ a. record { calls = a.calls; arcs = arcs_of a.calls a.words.items } };

    ghost invariant = { λ a. (a.calls ≤ 300) × (vec_len a.words ≡ 5 * (a.calls + 2)) };
}

/// The bit of an arc.
fn bit_of(i: u32, j: u32) -> u32
    requires from { i ≤ 301 }
    requires to { j ≤ 301 }
    ensures { result ≡ bit_of i j }
{
    64 * PLACE_WORDS as u32 * j + i
}

impl ArcSet {
    /// No arc between the places of an instance with so many calls.
    pub fn new(alloc: Global, n: u32) -> Result<ArcSet, AllocError>
        requires { n ≤ 300 }
        ensures { IfOk result (λ s. s ≡ record { calls = n; arcs = set.empty }) }
    {
        let words = vec![in alloc; 0; PLACE_WORDS * (n as usize + 2)]?;
        Ok(ArcSet { calls: n, words })
    }

    /// Whether the arc is in the set.
    pub fn has(&self, i: u32, j: u32) -> bool
        requires from { i ≤ self.now.calls + 1 }
        requires to { j ≤ self.now.calls + 1 }
        ensures { result ≡ set.contains self.now.arcs (arc i j) }
    {
        words::has_bit(&self.words, bit_of(i, j))
    }

    /// Adds the arc.
    pub fn set(&mut self, i: u32, j: u32)
        requires from { i ≤ self.old.calls + 1 }
        requires to { j ≤ self.old.calls + 1 }
        ensures { self.new ≡ record self.old { arcs = set.insert self.old.arcs (arc i j) } }
    {
        words::set_bit_of(&mut self.words, bit_of(i, j));
    }

    /// Takes the arc out.
    pub fn clear(&mut self, i: u32, j: u32)
        requires from { i ≤ self.old.calls + 1 }
        requires to { j ≤ self.old.calls + 1 }
        ensures { self.new ≡ record self.old { arcs = set.remove self.old.arcs (arc i j) } }
    {
        words::clear_bit(&mut self.words, bit_of(i, j));
    }

    /// A copy, on the same allocator.
    pub fn copy(&self) -> Result<ArcSet, AllocError>
        ensures { IfOk result (λ s. s ≡ self.now) }
    {
        let words = self.words.clone()?;
        Ok(ArcSet {
            calls: self.calls,
            words,
        })
    }
}
