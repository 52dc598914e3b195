ghost use Rattle.std.specs.Prelude.{◌≡◌, ◌↔◌, IfOk, OnOk, Err};
ghost use Rattle.orienteering.specs.Region.{MakesProgress, first_child, second_child};
ghost use Rattle.orienteering.specs.declared.Split.TheVariants as split;

use crate::context::Context;
use orienteering::Split;
use std::alloc::AllocError;

/// Why there are no children.
#[derive(Clone, Copy, Debug, PartialEq, Eq)]
pub enum SplitFail {
    /// One of the children would be the parent, or the arc is decided.
    NoProgress,
    Memory,
}

impl From<AllocError> for SplitFail {
    ghost use Rattle.std.specs.Prelude.{◌≡◌};
    ghost use Rattle.region_ctx.specs.declared.splits.SplitFail.TheVariants.{Memory};

    ghost from_gives = { λ _ fail. fail ≡ Memory };

    fn from(_: AllocError) -> SplitFail {
        SplitFail::Memory
    }
}

impl Context {
    /// The children of a split, on copies. Each plan of the region belongs to exactly one of them.
    pub fn split(&self, split: Split) -> Result<(Context, Context), SplitFail>
        ensures first { IfOk result (λ pair. pair.0 ≡ first_child self.now split) }
        ensures second { IfOk result (λ pair. pair.1 ≡ second_child self.now split) }
        ensures progress { OnOk result (MakesProgress self.now split) }
        ensures none { (result ≡ Err SplitFail.NoProgress) ↔ (MakesProgress self.now split → ⊥) }
    {
        if !self.makes_progress(split) {
            return Err(SplitFail::NoProgress);
        }
        let mut first = self.copy()?;
        let mut second = self.copy()?;
        first.enter_first(split);
        second.enter_second(split);
        Ok((first, second))
    }

    /// The plans that earn at most `v`, and those that earn more.
    pub fn split_profit(&self, v: u64) -> Result<(Context, Context), SplitFail>
        ensures first { IfOk result (λ pair. pair.0 ≡ first_child self.now (split.Profit v)) }
        ensures second { IfOk result (λ pair. pair.1 ≡ second_child self.now (split.Profit v)) }
        ensures progress { OnOk result (MakesProgress self.now (split.Profit v)) }
        ensures none { (result ≡ Err SplitFail.NoProgress) ↔ (MakesProgress self.now (split.Profit v) → ⊥) }
    {
        self.split(Split::Profit { v })
    }

    /// The plans that travel at most `v` scaled units, and those that travel longer.
    pub fn split_time(&self, v: u64) -> Result<(Context, Context), SplitFail>
        ensures first { IfOk result (λ pair. pair.0 ≡ first_child self.now (split.Time v)) }
        ensures second { IfOk result (λ pair. pair.1 ≡ second_child self.now (split.Time v)) }
        ensures progress { OnOk result (MakesProgress self.now (split.Time v)) }
        ensures none { (result ≡ Err SplitFail.NoProgress) ↔ (MakesProgress self.now (split.Time v) → ⊥) }
    {
        self.split(Split::Time { v })
    }

    /// The plans of at most `c` tours, and those of more.
    pub fn split_count(&self, c: u32) -> Result<(Context, Context), SplitFail>
        ensures first { IfOk result (λ pair. pair.0 ≡ first_child self.now (split.Count c)) }
        ensures second { IfOk result (λ pair. pair.1 ≡ second_child self.now (split.Count c)) }
        ensures progress { OnOk result (MakesProgress self.now (split.Count c)) }
        ensures none { (result ≡ Err SplitFail.NoProgress) ↔ (MakesProgress self.now (split.Count c) → ⊥) }
    {
        self.split(Split::Count { c })
    }

    /// The plans that travel the arc, and those that don't.
    pub fn split_arc(&self, i: u32, j: u32) -> Result<(Context, Context), SplitFail>
        ensures first { IfOk result (λ pair. pair.0 ≡ first_child self.now (split.Arc i j)) }
        ensures second { IfOk result (λ pair. pair.1 ≡ second_child self.now (split.Arc i j)) }
        ensures progress { OnOk result (MakesProgress self.now (split.Arc i j)) }
        ensures none { (result ≡ Err SplitFail.NoProgress) ↔ (MakesProgress self.now (split.Arc i j) → ⊥) }
    {
        self.split(Split::Arc { i, j })
    }
}
