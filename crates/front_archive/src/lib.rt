//! The archive of the best points so far, with a plan for each.
//!
//! Stands on `tour_check` for the points of plans. An `Archive` is seen as the list of its entries, whose profits and times
//! rise strictly, so none weakly dominates another. The contract of `insert` gives the exact list after each plan, and
//! says what a search relies on: exactly the undominated points are held, each plan still reaches its point, and what was
//! covered stays covered. An entry is found by binary search and put in by one splice.
#![tactic(auto)]

ghost use Rattle.std.specs.Prelude.{◌≡◌, ◌↔◌, ◌≤◌, ◌<◌, ℕ, List, [], ◌∷◌, length, IsTrue, IfOk, OnOk, OnErr};
ghost use Rattle.std.specs.List.{splice};
ghost use Rattle.std.specs.List.Sorted.{IsPartitionPoint};
ghost use Rattle.orienteering.specs.Tour.{IsPlan};
ghost use Rattle.orienteering.specs.Frontier.{point_of, AllRise, IsCovered};
ghost use Rattle.front_archive.specs.Archive.{listed, with_entry, HoldsTheBest};

use orienteering::{Listed, Plan, Point};
use site_model::Instance;
use std::alloc::{AllocError, Global};
use std::iter;
use std::marker::Model;
use tour_check::plan_point;

/// Whether an archive took a plan.
#[derive(Clone, Copy, Debug, PartialEq, Eq)]
pub enum Added {
    /// The plan is held, and what its point weakly dominates was given up.
    New,
    /// A held point weakly dominates the plan's, and nothing changed.
    Covered,
}

/// Plans with their points, of which none weakly dominates another, by rising profit and time.
#[derive(Drop)]
pub struct Archive {
    entries: Vec<Listed>,
}

impl Model for Archive {
    ghost use Rattle.std.specs.Prelude.{List};
    ghost use Rattle.orienteering.specs.declared.Listed.{Listed};
    ghost use Rattle.orienteering.specs.Frontier.{AllRise};

    ghost Value = { List Listed };

    ghost view = { λ a. a.entries.items };

    ghost invariant = { λ a. AllRise a.entries.items };
}

/// How many entries have less time than this.
fn earlier_than(entries: &[Listed], time: u64) -> usize
    requires { AllRise entries.now }
    ensures bound { result ≤ length entries.now }
    ensures place { IsPartitionPoint (λ h. h.point.time < time) (λ h. time ≤ h.point.time) entries.now result }
{
    entries.partition_point(|h| h.point.time < time)
}

/// How many entries have at most this time.
fn no_later_than(entries: &[Listed], time: u64) -> usize
    requires { AllRise entries.now }
    ensures bound { result ≤ length entries.now }
    ensures place { IsPartitionPoint (λ h. h.point.time ≤ time) (λ h. time < h.point.time) entries.now result }
{
    entries.partition_point(|h| h.point.time <= time)
}

/// How many entries have at most this profit.
fn no_richer_than(entries: &[Listed], profit: u64) -> usize
    requires { AllRise entries.now }
    ensures bound { result ≤ length entries.now }
    ensures place { IsPartitionPoint (λ h. h.point.profit ≤ profit) (λ h. profit < h.point.profit) entries.now result }
{
    entries.partition_point(|h| h.point.profit <= profit)
}

/// One of the entries weakly dominates the point. It is enough to look at the last one that isn't later.
fn some_covers(entries: &[Listed], point: Point) -> bool
    requires { AllRise entries.now }
    ensures { IsTrue result ↔ IsCovered point entries.now }
{
    let count = no_later_than(entries, point.time);
    count > 0 && entries[count - 1].point.profit >= point.profit
}

/// Puts the entry in the place of those from `low` up to `high`.
fn replace(
    entries: &mut Vec<Listed>,
    low: usize,
    high: usize,
    entry: Listed,
) -> Result<(), AllocError>
    requires in_order { low ≤ high }
    requires in_bounds { high ≤ length entries.old.items }
    ensures ok { OnOk result (entries.new.items ≡ splice entries.old.items low high (entry ∷ [])) }
    ensures err { OnErr result (entries.new.items ≡ entries.old.items) }
{
    entries.splice(low..high, iter::once(entry))?;
    Ok(())
}

/// Puts in an entry whose point no other entry weakly dominates, in the place of those that it weakly dominates.
fn put_in(entries: &mut Vec<Listed>, entry: Listed) -> Result<(), AllocError>
    requires rising { AllRise entries.old.items }
    requires uncovered { IsCovered entry.point entries.old.items → ⊥ }
    ensures ok { OnOk result (entries.new.items ≡ with_entry entry entries.old.items) }
    ensures rising { OnOk result (AllRise entries.new.items) }
    ensures err { OnErr result (entries.new.items ≡ entries.old.items) }
{
    let held = entries.as_slice();
    let low = earlier_than(held, entry.point.time);
    let high = no_richer_than(held, entry.point.profit);
    replace(entries, low, high, entry)
}

impl Archive {
    /// An archive of no plan. It keeps the allocator for what is put in later.
    pub fn new(alloc: Global) -> Archive
        ensures { result ≡ [] }
    {
        Archive {
            entries: Vec::new(alloc),
        }
    }

    /// Takes the plan unless a held point weakly dominates its point, and gives up what its point weakly dominates. After
    /// want of memory nothing is changed.
    pub fn insert(&mut self, inst: &Instance, plan: Plan) -> Result<Added, AllocError>
        requires { IsPlan inst.now plan }
        ensures covered { IfOk result (λ added.
            added ≡ Added.Covered ↔ IsCovered (point_of inst.now plan) self.old) }
        ensures kept { result ≡ Ok Added.Covered → self.new ≡ self.old }
        ensures taken { result ≡ Ok Added.New → self.new ≡ with_entry (listed inst.now plan) self.old }
        ensures err { OnErr result (self.new ≡ self.old) }
        ensures rising { AllRise self.new }
        ensures best { OnOk result (HoldsTheBest inst.now plan self.old self.new) }
    {
        let point = plan_point(inst, &plan);
        if some_covers(self.entries.as_slice(), point) {
            return Ok(Added::Covered);
        }
        put_in(&mut self.entries, Listed { point, plan })?;
        Ok(Added::New)
    }

    /// Whether a held point weakly dominates this one.
    pub fn covers(&self, point: Point) -> bool
        ensures { IsTrue result ↔ IsCovered point self.now }
    {
        some_covers(self.entries.as_slice(), point)
    }

    /// The held points with their plans, by rising profit and time.
    pub fn points(&self) -> &[Listed]
        ensures list { result.now ≡ self.now }
        ensures rising { AllRise self.now }
    {
        self.entries.as_slice()
    }
}

#[cfg(test)]
mod tests;
