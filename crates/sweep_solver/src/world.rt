//! The regions of an instance, as the growth of a tree asks for them.

ghost use Rattle.std.specs.Prelude.{◌≡◌, ◌↔◌, None, true, IfOk, OnOk};
ghost use Rattle.growth.specs.Growth.{bound_of, Improves, IsArchive, IsResort};
ghost use Rattle.orienteering.specs.Frontier.{point_of, IsCovered};
ghost use Rattle.orienteering.specs.Instance.{Problem};
ghost use Rattle.orienteering.specs.Tour.{IsPlan};
ghost use Rattle.orienteering.specs.Weight.{weight};
ghost use Rattle.sweep_solver.specs.Rules.{problem_of, rules_of, IsProperIn};
ghost use Rattle.sweep_solver.specs.Narrowing.{splits_shrink};
ghost use Rattle.sweep_solver.specs.Weights.{is_weight};

use crate::regions::Regions;
use crate::replay::replay_cut;
use crate::resort::{plan_of_used_arcs, stuck_reason, undecided_arc};
use front_archive::Archive;
use growth::{Resort, World};
use orienteering::{Box2, Plan, Price, Reason, Split, Tour};
use region_ctx::{Context, SplitFail};
use site_model::Instance;
use std::alloc::{AllocError, Global};
use tour_check::plan_value;

impl Regions<'_> {
    /// The parts of a region, if the split makes progress.
    fn parts(&self, ctx: &Context, by: Split) -> Result<Option<(Context, Context)>, AllocError>
        ensures { IfOk result (λ parts. parts ≡ (rules_of self.now).split ctx.now by) }
    {
        match ctx.split(by) {
            Ok(parts) => Ok(Some(parts)),
            Err(SplitFail::NoProgress) => Ok(None),
            Err(SplitFail::Memory) => Err(AllocError),
        }
    }

    /// The tight box, none where it is empty.
    pub(crate) fn area(&self, ctx: &Context) -> Option<Box2>
        requires { IsProperIn self.now ctx.now }
        ensures { result ≡ (rules_of self.now).tight ctx.now }
    {
        ctx.tight(self.inst)
    }

    /// Whether no plan belongs to the region for this reason.
    fn is_empty_for(&self, ctx: &Context, reason: Reason) -> bool
        requires { IsProperIn self.now ctx.now }
        ensures { result ≡ (rules_of self.now).is_stuck ctx.now reason }
    {
        ctx.stuck(self.inst, reason)
    }

    /// The bound of a cut, none where there are too many labels.
    fn replayed_bound(
        &self,
        alloc: Global,
        ctx: &Context,
        price: &Price,
        critical: &Tour,
    ) -> Result<Option<i128>, AllocError>
        requires proper { IsProperIn self.now ctx.now }
        requires fit { (rules_of self.now).price_refusal ctx.now price.now ≡ None }
        requires set { (rules_of self.now).is_critical_set ctx.now critical.now ≡ true }
        ensures { IfOk result (λ b. b ≡ bound_of ((rules_of self.now).replay ctx.now price.now critical.now)) }
    {
        replay_cut(alloc, self, ctx, price, critical.calls())
    }

    /// A way to go on with the region that always serves.
    fn resort(&self, alloc: Global, ctx: &Context) -> Result<Resort, AllocError>
        requires { IsProperIn self.now ctx.now }
        ensures { IfOk result (IsResort (rules_of self.now) (problem_of self.now) ctx.now) }
    {
        if let Some((i, j)) = undecided_arc(ctx) {
            return Ok(Resort::Halves(Split::Arc { i, j }));
        }
        if let Some(reason) = stuck_reason(self.inst, ctx) {
            return Ok(Resort::Empty(reason));
        }
        Ok(Resort::Realised(plan_of_used_arcs(alloc, self.inst, ctx)?))
    }
}

/// Puts the list of tours into the archive where it is a plan and no held point weakly dominates its point.
pub(crate) fn offer(
    alloc: Global,
    inst: &Instance,
    archive: &mut Archive,
    plan: Plan,
) -> Result<(), AllocError>
    requires { IsArchive inst.now archive.old }
    ensures archive { IsArchive inst.now archive.new }
    ensures improved { Improves archive.old archive.new }
    ensures held { OnOk result (IsPlan inst.now plan → IsCovered (point_of inst.now plan) archive.new) }
{
    match plan_value(alloc, inst, &plan) {
        Err(_) => Ok(()),
        Ok(_) => {
            archive.insert(inst, plan)?;
            Ok(())
        }
    }
}

impl World for Regions<'_> {
    type Region = Context;

    ghost rules = { rules_of };

    ghost proper = { IsProperIn };

    ghost weight = { λ _ r. weight r };

    ghost problem = { problem_of };

    fn split(
        &self,
        _alloc: Global,
        region: &Context,
        by: Split,
    ) -> Result<Option<(Context, Context)>, AllocError> {
        self.parts(region, by)
    }

    fn tight(&self, region: &Context) -> Option<Box2> {
        self.area(region)
    }

    fn is_stuck(&self, region: &Context, reason: Reason) -> bool {
        self.is_empty_for(region, reason)
    }

    fn bound_of(
        &self,
        alloc: Global,
        region: &Context,
        price: &Price,
        critical: &Tour,
    ) -> Result<Option<i128>, AllocError> {
        self.replayed_bound(alloc, region, price, critical)
    }

    fn last_resort(&self, alloc: Global, region: &Context) -> Result<Resort, AllocError> {
        self.resort(alloc, region)
    }

    fn offer(&self, alloc: Global, archive: &mut Archive, plan: Plan) -> Result<(), AllocError> {
        offer(alloc, self.inst, archive, plan)
    }

    ghost shrinks = { λ regions. splits_shrink regions.inst.now regions.labels };

    ghost weighs = { λ regions. is_weight regions.inst.now regions.labels };
}
