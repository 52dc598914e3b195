ghost use Rattle.std.specs.Prelude.{◌≡◌, ℕ, ◌+◌, ◌<◌, ◌≤◌, IfOk, IsTrue, false, length};
ghost use Rattle.std.specs.FinSet as set;
ghost use Rattle.orienteering.specs.Arc.{arc};
ghost use Rattle.orienteering.specs.Instance.{IsArc};
ghost use Rattle.region_ctx.specs.Links.{AreSingle, has_arc_into, has_arc_out, is_link};

use std::alloc::{AllocError, Global};
use std::marker::Model;

/// Arcs of which each call has at most one into it and at most one out of it, as the place after each call, 0 for none, and
/// the place before it, n + 1 for none.
#[derive(Drop)]
pub(crate) struct Links {
    calls: u32,
    next: Vec<u32>,
    previous: Vec<u32>,
}

impl Model for Links {
    ghost use Rattle.bit_sets.specs.ArcTable.{ArcTable, table_code};
    ghost use Rattle.region_ctx.specs.Links.{AreLinks, links};

    ghost Value = { ArcTable };

    ghost coded = { table_code };

    ghost view = { λ l. record { calls = l.calls; arcs = links l.calls l.next.items l.previous.items } };

    ghost invariant = { λ l. AreLinks l.calls l.next.items l.previous.items };
}

/// Whether the places after and before calls say that the arc is there.
fn is_link(calls: u32, next: &[u32], previous: &[u32], i: u32, j: u32) -> bool
    requires from { i < length next.now }
    requires to { calls < length previous.now }
    ensures { result ≡ is_link calls next.now previous.now i j }
{
    if i == 0 {
        1 <= j && j <= calls && previous[j as usize] == 0
    } else {
        1 <= j && next[i as usize] == j
    }
}

impl Links {
    /// No arc.
    pub(crate) fn new(alloc: Global, n: u32) -> Result<Links, AllocError>
        requires { n ≤ 300 }
        ensures { IfOk result (λ l. l ≡ record { calls = n; arcs = set.empty }) }
    {
        let next = vec![in alloc; 0; n as usize + 2]?;
        let previous = vec![in alloc; n + 1; n as usize + 2]?;
        Ok(Links {
            calls: n,
            next,
            previous,
        })
    }

    /// How many calls there are.
    pub(crate) fn calls(&self) -> u32
        ensures value { result ≡ self.now.calls }
        ensures within { result ≤ 300 }
        ensures single { AreSingle self.now.calls self.now.arcs }
    {
        self.calls
    }

    /// Whether the arc is one of them.
    pub(crate) fn has(&self, i: u32, j: u32) -> bool
        requires from { i ≤ self.now.calls + 1 }
        requires to { j ≤ self.now.calls + 1 }
        ensures { result ≡ set.contains self.now.arcs (arc i j) }
    {
        is_link(self.calls, &self.next, &self.previous, i, j)
    }

    /// The place after a call or after the end, 0 where there is none.
    pub(crate) fn next(&self, i: u32) -> u32
        requires low { 1 ≤ i }
        requires high { i ≤ self.now.calls + 1 }
        ensures within { result ≤ self.now.calls + 1 }
        ensures some { 1 ≤ result → IsTrue (set.contains self.now.arcs (arc i result)) }
        ensures alone { (j : ℕ) → IsTrue (set.contains self.now.arcs (arc i j)) → j ≡ result }
        ensures none { result ≡ 0 → (j : ℕ) → set.contains self.now.arcs (arc i j) ≡ false }
    {
        self.next[i as usize]
    }

    /// The place before a call, n + 1 where there is none.
    pub(crate) fn previous(&self, j: u32) -> u32
        requires low { 1 ≤ j }
        requires high { j ≤ self.now.calls }
        ensures some { result ≤ self.now.calls → IsTrue (set.contains self.now.arcs (arc result j)) }
        ensures none { self.now.calls < result → (i : ℕ) → set.contains self.now.arcs (arc i j) ≡ false }
    {
        self.previous[j as usize]
    }

    /// Adds an arc out of a place and into a place that may have one more.
    pub(crate) fn link(&mut self, i: u32, j: u32)
        requires arc { IsArc self.old.calls i j }
        requires out { 1 ≤ i → has_arc_out self.old.calls self.old.arcs i ≡ false }
        requires into { j ≤ self.old.calls → has_arc_into self.old.calls self.old.arcs j ≡ false }
        ensures { self.new ≡ record self.old { arcs = set.insert self.old.arcs (arc i j) } }
    {
        self.next[i as usize] = j;
        self.previous[j as usize] = i;
    }

    /// A copy, on the same allocator.
    pub(crate) fn copy(&self) -> Result<Links, AllocError>
        ensures { IfOk result (λ l. l ≡ self.now) }
    {
        let next = self.next.clone()?;
        let previous = self.previous.clone()?;
        Ok(Links {
            calls: self.calls,
            next,
            previous,
        })
    }
}
