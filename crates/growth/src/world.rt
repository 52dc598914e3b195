//! What a growth stands on: the instance with its regions, and a strategy.

ghost use Rattle.std.specs.Prelude.{◌≡◌, ℕ, true, None, IfOk, OnOk};
ghost use Rattle.orienteering.specs.Instance.{Problem};
ghost use Rattle.orienteering.specs.Tour.{IsPlan};
ghost use Rattle.orienteering.specs.Frontier.{point_of, IsCovered};
ghost use Rattle.orienteering.specs.RegionRules.{RegionRules};
ghost use Rattle.orienteering.specs.Size.{IsWeight};
ghost use Rattle.growth.specs.Growth.{bound_of, SplitsShrink, IsArchive, Improves, IsResort, IsReplayed};

use crate::branch::Branch;
use front_archive::Archive;
use orienteering::{Box2, Node, Plan, Price, Reason, Split, Tour};
use std::alloc::{AllocError, Global};

/// A way to go on with a region that always serves.
#[derive(Drop)]
pub enum Resort {
    /// The split makes progress.
    Halves(Split),
    /// No plan agrees with the region, for this reason.
    Empty(Reason),
    /// The plan's point weakly dominates every point of the tight box.
    Realised(Plan),
}

/// What to do at an open node.
#[derive(Drop)]
pub enum Proposal {
    /// A node that is judged before it is taken. It is no cut.
    Plain(Node),
    /// A cut, with the bound that its replay gave.
    Replayed {
        price: Price,
        critical: Tour,
        bound: i128,
    },
    /// The branch waits. Of those that wait the one that misses least comes first, of equal ones the first in the tree.
    Later {
        miss: u64,
    },
}

/// A proposal, and plans that were found on the way.
#[derive(Drop)]
pub struct Advice {
    pub plans: Vec<Plan>,
    pub proposal: Proposal,
}

/// The instance with its regions, as the growth of a tree asks for them.
pub trait World {
    type Region: Drop;

    ghost rules: { Self → RegionRules Self.Region };

    ghost proper: { Self → Self.Region → Type 0 };

    ghost weight: { Self → Self.Region → ℕ };

    ghost problem: { Self → Problem };

    /// The parts of a region, if the split makes progress.
    fn split(
        &self,
        alloc: Global,
        region: &Self::Region,
        by: Split,
    ) -> Result<Option<(Self::Region, Self::Region)>, AllocError>
        requires { proper self.now region.now }
        ensures { IfOk result (λ parts. parts ≡ (rules self.now).split region.now by) };

    fn tight(&self, region: &Self::Region) -> Option<Box2>
        requires { proper self.now region.now }
        ensures { result ≡ (rules self.now).tight region.now };

    fn is_stuck(&self, region: &Self::Region, reason: Reason) -> bool
        requires { proper self.now region.now }
        ensures { result ≡ (rules self.now).is_stuck region.now reason };

    /// Replays a cut that the rule would replay, and answers its bound, none where there are too many labels.
    fn bound_of(
        &self,
        alloc: Global,
        region: &Self::Region,
        price: &Price,
        critical: &Tour,
    ) -> Result<Option<i128>, AllocError>
        requires proper { proper self.now region.now }
        requires fit { (rules self.now).price_refusal region.now price.now ≡ None }
        requires set { (rules self.now).is_critical_set region.now critical.now ≡ true }
        ensures { IfOk result (λ b. b ≡ bound_of ((rules self.now).replay region.now price.now critical.now)) };

    /// A way to go on with any region.
    fn last_resort(&self, alloc: Global, region: &Self::Region) -> Result<Resort, AllocError>
        requires { proper self.now region.now }
        ensures { IfOk result (λ r. IsResort (rules self.now) (problem self.now) region.now r) };

    /// Puts the list of tours into the archive where it is a plan and no held point weakly dominates its point.
    fn offer(&self, alloc: Global, archive: &mut Archive, plan: Plan) -> Result<(), AllocError>
        requires { IsArchive (problem self.now) archive.old }
        ensures archive { IsArchive (problem self.now) archive.new }
        ensures improved { Improves archive.old archive.new }
        ensures held { OnOk result (IsPlan (problem self.now) plan → IsCovered (point_of (problem self.now) plan) archive.new) };

    ghost shrinks: { (world : Self) → SplitsShrink (rules world) (proper world) };

    ghost weighs: { (world : Self) → IsWeight (rules world) (proper world) (weight world) };
}

/// What to do at an open node. No proof rests on how good the advice is.
pub trait Strategy<W: World> {
    /// The advice for the branch, with the best points so far. Its plans may be any lists of tours. Where the branch may
    /// not wait, the last resort answers for `Later`.
    fn advise(
        &mut self,
        alloc: Global,
        world: &W,
        branch: &Branch<W::Region>,
        archive: &Archive,
        may_wait: bool,
    ) -> Result<Advice, AllocError>
        requires { W.proper world.now branch.now.region }
        ensures { IfOk result (λ a. IsReplayed (W.rules world.now) branch.now.region a.proposal) };
}
