//! The strategy with prices of calls: a leaf where one serves; else one cut for the whole box; else splits at the points so far
//! and at the bounds of cuts; else a cut for a run of its corners; else a split between corners that are far apart; else
//! the number of tours or an arc, by the shares of the tours. No proof rests on how good its choices are.

ghost use Rattle.std.specs.Prelude.{IfOk, IfSome};
ghost use Rattle.growth.specs.Growth.{IsReplayed};
ghost use Rattle.sweep_solver.specs.Rules.{rules_of, IsProperIn};

use crate::aim::{split_at_points, split_low};
use crate::aims::{
    Aim, Run, hopes_of, longest_run, lower_hopes, middle, open_points, points_of, relative_miss,
    split_between, values,
};
use crate::arcs::{Branching, Edge, choose_branching};
use crate::corners::{corners, trim};
use crate::ladder::{ladder, lightened};
use crate::leaf::leaf;
use crate::learned::{Learned, improved, learn};
use crate::pricing::{Search, price_for, price_to_lift, reversed};
use crate::regions::Regions;
use front_archive::Archive;
use growth::{Advice, Branch, Proposal, Strategy};
use orienteering::{Box2, Node, Plan, Point, Reason};
use pool_cols::Pool;
use region_ctx::Context;
use site_model::Instance;
use std::alloc::{AllocError, Global};

/// How often the corners are looked at again after a better plan was found.
const MOST_LOOKS: u32 = 100;

/// A strategy that keeps the tours that it has met.
#[derive(Drop)]
pub(crate) struct PricedStrategy {
    pool: Pool,
    root: Box2,
    is_reversible: bool,
    /// Arcs whose mirrors come next where they are banned.
    edges: Vec<Edge>,
    /// Whether boxes are lifted before they wait.
    pub lifts: bool,
    /// The least profits of the boxes that were lifted, with their greatest times.
    lifted: Vec<Point>,
}

/// How many arcs with mirrors are kept.
const MOST_EDGES: usize = 64;

/// Whether every tour may be travelled the other way round: the start is where the end is, and no call has hours of its own.
fn is_reversible(inst: &Instance) -> bool {
    let end = inst.calls() + 1;
    (0..inst.calls()).all(|before| {
        let call = before + 1;
        inst.length(0, call) == inst.length(call, end)
            && inst.opening(call) <= inst.opening(0)
            && inst.closing(end) <= inst.closing(call)
    })
}

impl PricedStrategy {
    pub(crate) fn new(
        alloc: Global,
        inst: &Instance,
        root: Box2,
    ) -> Result<PricedStrategy, AllocError> {
        Ok(PricedStrategy {
            pool: Pool::new(alloc)?,
            root,
            is_reversible: is_reversible(inst),
            edges: Vec::new(alloc),
            lifts: false,
            lifted: Vec::new(alloc),
        })
    }

    /// Puts the tours of the listed plans and of a ladder of plans into the pool, as they are and after moves that save time,
    /// and answers the better plans that they make.
    pub(crate) fn begin(
        &mut self,
        alloc: Global,
        regions: &Regions<'_>,
        archive: &Archive,
    ) -> Result<Vec<Plan>, AllocError> {
        let mut learned = Learned::of(alloc, archive)?;
        for listed in archive.points() {
            self.learn_plan(alloc, regions, archive, &mut learned, &listed.plan)?;
            if let Some(plan) = improved(alloc, regions, &listed.plan)? {
                self.learn_plan(alloc, regions, archive, &mut learned, &plan)?;
            }
        }
        for plan in ladder(alloc, regions, self.root)? {
            self.take_apart(alloc, regions, archive, &mut learned, plan)?;
        }
        Ok(learned.plans)
    }

    /// Learns the plan, and what is left of it as its dearest calls are taken out one by one.
    fn take_apart(
        &mut self,
        alloc: Global,
        regions: &Regions<'_>,
        archive: &Archive,
        learned: &mut Learned,
        plan: Plan,
    ) -> Result<(), AllocError> {
        self.learn_plan(alloc, regions, archive, learned, &plan)?;
        let mut left = plan;
        for _ in 0..regions.inst.calls() {
            match lightened(alloc, regions, &left)? {
                Some(rest) => left = rest,
                None => return Ok(()),
            }
            self.learn_plan(alloc, regions, archive, learned, &left)?;
        }
        Ok(())
    }

    /// Learns the plan and its tours, both ways round where they may be travelled so.
    fn learn_plan(
        &mut self,
        alloc: Global,
        regions: &Regions<'_>,
        archive: &Archive,
        learned: &mut Learned,
        plan: &Plan,
    ) -> Result<(), AllocError> {
        learned.learn_plan(alloc, regions, plan)?;
        for tour in plan.tours() {
            let copy = tour.copy(alloc)?;
            learn(alloc, regions, archive, &mut self.pool, learned, copy)?;
            if self.is_reversible {
                let back = reversed(alloc, tour.calls())?;
                learn(alloc, regions, archive, &mut self.pool, learned, back)?;
            }
        }
        Ok(())
    }

    /// A cut that leaves out the whole box.
    fn cut_of_box(
        &mut self,
        alloc: Global,
        search: &Search<'_>,
        branch: &Branch<Context>,
        area: Box2,
        learned: &mut Learned,
    ) -> Result<Option<Proposal>, AllocError>
        requires { IsProperIn search.now.regions.now search.now.ctx.now }
        ensures { IfOk result (λ found. IfSome found (IsReplayed (rules_of search.now.regions.now) search.now.ctx.now)) }
    {
        if branch.is_under_cut() {
            return Ok(None);
        }
        let whole = [Point {
            profit: area.p_lo,
            time: area.t_hi,
        }];
        price_for(alloc, search, &mut self.pool, learned, &whole)
    }

    /// A cut for a run of corners. Where there is none, the hopes are lowered.
    fn cut_of_run(
        &mut self,
        alloc: Global,
        search: &Search<'_>,
        learned: &mut Learned,
        aims: &[Aim],
        run: Run,
        hopes: &mut Vec<bool>,
    ) -> Result<Option<Proposal>, AllocError>
        requires { IsProperIn search.now.regions.now search.now.ctx.now }
        ensures { IfOk result (λ found. IfSome found (IsReplayed (rules_of search.now.regions.now) search.now.ctx.now)) }
    {
        let known = learned.plans.len();
        let targets = points_of(alloc, aims, run)?;
        let cut = price_for(alloc, search, &mut self.pool, learned, targets.as_slice())?;
        if cut.is_none() && learned.plans.len() == known {
            let again = values(alloc, search, &self.pool, targets.as_slice())?;
            lower_hopes(hopes, run, again.as_slice());
        }
        Ok(cut)
    }

    /// A cut for the longest run of corners that the tours leave hope for, else for a part of it, else for others.
    fn cut_of_corners(
        &mut self,
        alloc: Global,
        search: &Search<'_>,
        branch: &Branch<Context>,
        learned: &mut Learned,
        aims: &[Aim],
    ) -> Result<Option<Proposal>, AllocError>
        requires { IsProperIn search.now.regions.now search.now.ctx.now }
        ensures { IfOk result (λ found. IfSome found (IsReplayed (rules_of search.now.regions.now) search.now.ctx.now)) }
    {
        if branch.is_under_cut() || aims.len() < 2 {
            return Ok(None);
        }
        let known = learned.plans.len();
        let mut hopes = hopes_of(alloc, aims)?;
        for _ in 0..MOST_LOOKS {
            let Some(run) = longest_run(hopes.as_slice()) else {
                return Ok(None);
            };
            let cut = self.cut_of_run(alloc, search, learned, aims, run, &mut hopes)?;
            if cut.is_some() || learned.plans.len() != known {
                return Ok(cut);
            }
        }
        Ok(None)
    }

    /// What to do at a box, where its corners aren't closed.
    fn choice(
        &mut self,
        alloc: Global,
        search: &Search<'_>,
        branch: &Branch<Context>,
        area: Box2,
        learned: &mut Learned,
    ) -> Result<Option<Proposal>, AllocError>
        requires { IsProperIn search.now.regions.now search.now.ctx.now }
        ensures { IfOk result (λ found. IfSome found (IsReplayed (rules_of search.now.regions.now) search.now.ctx.now)) }
    {
        let known = learned.plans.len();
        let found = corners(alloc, learned.points.as_slice(), branch.cuts(), area)?;
        if found.iter().any(|corner| corner.is_open) {
            let cut = self.cut_of_box(alloc, search, branch, area, learned)?;
            if cut.is_some() || learned.plans.len() != known {
                return Ok(cut);
            }
        }
        if let Some(node) = split_at_points(learned.points.as_slice(), area) {
            return Ok(Some(Proposal::Plain(node)));
        }
        if let Some(node) = trim(branch.cuts(), area, found.as_slice()) {
            return Ok(Some(Proposal::Plain(node)));
        }
        let open = open_points(alloc, found.as_slice())?;
        self.choice_at_corners(alloc, search, branch, area, learned, open.as_slice())
    }

    /// What to do at a box whose ends are trimmed.
    fn choice_at_corners(
        &mut self,
        alloc: Global,
        search: &Search<'_>,
        branch: &Branch<Context>,
        area: Box2,
        learned: &mut Learned,
        open: &[Point],
    ) -> Result<Option<Proposal>, AllocError>
        requires { IsProperIn search.now.regions.now search.now.ctx.now }
        ensures { IfOk result (λ found. IfSome found (IsReplayed (rules_of search.now.regions.now) search.now.ctx.now)) }
    {
        let known = learned.plans.len();
        let aims = values(alloc, search, &self.pool, open)?;
        let cut = self.cut_of_corners(alloc, search, branch, learned, aims.as_slice())?;
        if cut.is_some() || learned.plans.len() != known {
            return Ok(cut);
        }
        if let Some(node) = split_between(aims.as_slice()) {
            return Ok(Some(Proposal::Plain(node)));
        }
        if search.may_wait {
            return self.lift_or_wait(alloc, search, branch, area, learned, aims.as_slice());
        }
        let node = self.branch(alloc, search, open, aims.as_slice())?;
        Ok(Some(Proposal::Plain(node)))
    }

    /// Puts off a box that needs arcs, once it is lifted.
    fn lift_or_wait(
        &mut self,
        alloc: Global,
        search: &Search<'_>,
        branch: &Branch<Context>,
        area: Box2,
        learned: &mut Learned,
        aims: &[Aim],
    ) -> Result<Option<Proposal>, AllocError>
        requires { IsProperIn search.now.regions.now search.now.ctx.now }
        ensures { IfOk result (λ found. IfSome found (IsReplayed (rules_of search.now.regions.now) search.now.ctx.now)) }
    {
        let known = learned.plans.len();
        if self.lifts {
            let lift = self.lift(alloc, search, branch, area, learned)?;
            if lift.is_some() || learned.plans.len() != known {
                return Ok(lift);
            }
        }
        Ok(Some(Proposal::Later {
            miss: relative_miss(aims),
        }))
    }

    /// What leaves out the low end of the box, once: a cut that reaches as far as it can, though it closes nothing, and a
    /// split at its reach.
    fn lift(
        &mut self,
        alloc: Global,
        search: &Search<'_>,
        branch: &Branch<Context>,
        area: Box2,
        learned: &mut Learned,
    ) -> Result<Option<Proposal>, AllocError>
        requires { IsProperIn search.now.regions.now search.now.ctx.now }
        ensures { IfOk result (λ found. IfSome found (IsReplayed (rules_of search.now.regions.now) search.now.ctx.now)) }
    {
        if branch.is_under_cut() {
            return match split_low(branch.cuts(), area) {
                Some(node) => Ok(Some(Proposal::Plain(node))),
                None => Ok(None),
            };
        }
        let corner = Point {
            profit: area.p_lo,
            time: area.t_hi,
        };
        if self.lifted.contains(&corner) {
            return Ok(None);
        }
        let known = learned.plans.len();
        let cut = price_to_lift(alloc, search, &mut self.pool, learned, area)?;
        if learned.plans.len() == known {
            self.lifted.push(corner)?;
        }
        Ok(cut)
    }

    /// The mirror of an arc that is banned here, where it comes next.
    fn pending(&self, ctx: &Context) -> Option<(u32, u32)> {
        let end = ctx.calls() + 1;
        for edge in self.edges.iter().rev() {
            if let Some((from, to)) = edge.mirror {
                if edge.from <= end
                    && edge.to <= end
                    && ctx.is_banned(edge.from, edge.to)
                    && ctx.is_undecided(from, to)
                {
                    return Some((from, to));
                }
            }
        }
        None
    }

    fn keep_edge(&mut self, edge: Edge) -> Result<(), AllocError> {
        if edge.mirror.is_some() {
            if self.edges.len() >= MOST_EDGES {
                self.edges.remove(0);
            }
            self.edges.push(edge)?;
        }
        Ok(())
    }

    /// A split by the number of tours or by an arc, else between the corners. A decided region is left to the last resort,
    /// which has the plan of its arcs.
    fn branch(
        &mut self,
        alloc: Global,
        search: &Search<'_>,
        open: &[Point],
        aims: &[Aim],
    ) -> Result<Node, AllocError> {
        if let Some((i, j)) = self.pending(search.ctx) {
            return Ok(Node::Arc { i, j });
        }
        match choose_branching(alloc, search, &self.pool, open, aims.len() < 2)? {
            Some(Branching::Count(c)) => Ok(Node::Count { c }),
            Some(Branching::Arc(edge)) => {
                self.keep_edge(edge)?;
                Ok(Node::Arc {
                    i: edge.from,
                    j: edge.to,
                })
            }
            Some(Branching::Decided) => Ok(Node::Left),
            None => match middle(aims) {
                Some(point) => Ok(Node::Profit {
                    v: point.profit.saturating_sub(1),
                }),
                None => Ok(Node::Left),
            },
        }
    }
}

/// What to do at the branch, and the plans that were found on the way.
fn propose(
    strategy: &mut PricedStrategy,
    alloc: Global,
    regions: &Regions<'_>,
    branch: &Branch<Context>,
    archive: &Archive,
    may_wait: bool,
    learned: &mut Learned,
) -> Result<Proposal, AllocError>
    requires { IsProperIn regions.now branch.now.region }
    ensures { IfOk result (IsReplayed (rules_of regions.now) branch.now.region) }
{
    let ctx = branch.region();
    let Some(area) = regions.area(ctx) else {
        return Ok(Proposal::Plain(Node::Stuck {
            reason: Reason::NoBox,
        }));
    };
    if let Some(node) = leaf(regions, branch, archive, area) {
        return Ok(Proposal::Plain(node));
    }
    let search = Search {
        regions,
        ctx,
        archive,
        root: strategy.root,
        is_reversible: strategy.is_reversible,
        may_wait,
    };
    for _ in 0..MOST_LOOKS {
        let best = Point {
            profit: area.p_hi,
            time: area.t_lo,
        };
        if learned.covers(best) {
            return Ok(Proposal::Plain(Node::Dominated));
        }
        let known = learned.plans.len();
        if let Some(proposal) = strategy.choice(alloc, &search, branch, area, learned)? {
            return Ok(proposal);
        }
        if learned.plans.len() == known {
            return Ok(Proposal::Plain(Node::Left));
        }
    }
    Ok(Proposal::Plain(Node::Left))
}

impl Strategy<Regions<'_>> for PricedStrategy {
    fn advise(
        &mut self,
        alloc: Global,
        regions: &Regions<'_>,
        branch: &Branch<Context>,
        archive: &Archive,
        may_wait: bool,
    ) -> Result<Advice, AllocError> {
        let mut learned = Learned::of(alloc, archive)?;
        let proposal = propose(
            self,
            alloc,
            regions,
            branch,
            archive,
            may_wait,
            &mut learned,
        )?;
        Ok(Advice {
            plans: learned.plans,
            proposal,
        })
    }
}
