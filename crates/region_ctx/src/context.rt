ghost use Rattle.std.specs.Prelude.{◌≡◌, ◌+◌, ◌<◌, ◌≤◌, ◌↔◌, ◌&&◌, ℕ, IfNone, IfOk, IfSome, IsTrue, false};
ghost use Rattle.orienteering.specs.Instance.{calls, is_arc, is_call};
ghost use Rattle.orienteering.specs.Region.{is_banned, is_entered, is_forced, is_left, is_open, is_shut, is_undecided, is_used, root, total_score, MakesProgress, first_child, second_child};
ghost use Rattle.region_ctx.specs.Links.{AreSingle};

use crate::links::Links;
use bit_sets::ArcSet;
use orienteering::{Box2, Split};
use site_model::Instance;
use std::alloc::{AllocError, Global};
use std::marker::Model;

/// A region of plans: the values and the numbers of tours that are left, the arcs that each plan of the region travels, and
/// those that none does. It keeps the place after and before each call along used arcs, so that a question about one arc or
/// call takes a few steps, whatever the number of calls.
#[derive(Drop)]
pub struct Context {
    raw: Box2,
    fewest: u32,
    most: u32,
    used: Links,
    banned: ArcSet,
}

impl Model for Context {
    ghost use Rattle.std.specs.Prelude.{◌≡◌};
    ghost use Rattle.orienteering.specs.Region.{Region, region_code};

    ghost Value = { Region };

    ghost coded = { region_code };

    ghost view = { λ c. record { calls = c.used.calls; raw = c.raw; fewest = c.fewest; most = c.most; used = c.used.arcs; banned = c.banned.arcs } };

    ghost invariant = { λ c. c.banned.calls ≡ c.used.calls };
}

/// The score of all calls.
fn total_score(inst: &Instance) -> u64
    ensures { result ≡ total_score inst.now }
{
    let mut sum = 0;
    for call in 1..inst.calls() + 1 {
        sum += u64::from(inst.score(call));
    }
    sum
}

impl Context {
    /// The region of all plans.
    pub fn root(alloc: Global, inst: &Instance) -> Result<Context, AllocError>
        ensures { IfOk result (λ c. c ≡ root inst.now) }
    {
        let calls = inst.calls();
        let most = inst.team().min(calls);
        let longest = inst.closing(calls + 1) - inst.opening(0);
        let used = Links::new(alloc, calls)?;
        let banned = ArcSet::new(alloc, calls)?;
        let raw = Box2 {
            p_lo: 0,
            p_hi: total_score(inst),
            t_lo: 0,
            t_hi: u64::from(most) * longest,
        };
        Ok(Context {
            raw,
            fewest: 0,
            most,
            used,
            banned,
        })
    }

    /// An equal region.
    pub fn copy(&self) -> Result<Context, AllocError>
        ensures { IfOk result (λ c. c ≡ self.now) }
    {
        let used = self.used.copy()?;
        let banned = self.banned.copy()?;
        Ok(Context {
            raw: self.raw,
            fewest: self.fewest,
            most: self.most,
            used,
            banned,
        })
    }

    /// How many calls there are: at most 300. Each has at most one used arc into it and at most one out of it.
    pub fn calls(&self) -> u32
        ensures value { result ≡ self.now.calls }
        ensures within { result ≤ 300 }
        ensures single { AreSingle self.now.calls self.now.used }
    {
        self.used.calls()
    }

    /// The profits and the times that are left.
    pub fn raw(&self) -> Box2
        ensures { result ≡ self.now.raw }
    {
        self.raw
    }

    /// The fewest and the most tours of a plan.
    pub fn counts(&self) -> (u32, u32)
        ensures fewest { result.0 ≡ self.now.fewest }
        ensures most { result.1 ≡ self.now.most }
    {
        (self.fewest, self.most)
    }

    /// Whether each plan of the region travels the arc.
    pub fn is_used(&self, i: u32, j: u32) -> bool
        requires from { i ≤ self.now.calls + 1 }
        requires to { j ≤ self.now.calls + 1 }
        ensures { result ≡ is_used self.now i j }
    {
        self.used.has(i, j)
    }

    /// Whether a split forbade the arc.
    pub fn is_banned(&self, i: u32, j: u32) -> bool
        requires from { i ≤ self.now.calls + 1 }
        requires to { j ≤ self.now.calls + 1 }
        ensures { result ≡ is_banned self.now i j }
    {
        self.banned.has(i, j)
    }

    /// The place that the used arc out of a call enters. There is none out of the end.
    pub(crate) fn next_place(&self, i: u32) -> Option<u32>
        requires low { 1 ≤ i }
        requires high { i ≤ self.now.calls + 1 }
        ensures used { IfSome result (λ j. IsTrue (is_used self.now i j)) }
        ensures low { IfSome result (λ j. 1 ≤ j) }
        ensures high { IfSome result (λ j. j ≤ self.now.calls + 1) }
        ensures alone { IfSome result (λ j. (k : ℕ) → IsTrue (is_used self.now i k) → k ≡ j) }
        ensures none { IfNone result ((j : ℕ) → is_used self.now i j ≡ false) }
    {
        let next = self.used.next(i);
        if next == 0 { None } else { Some(next) }
    }

    /// Whether a used arc leaves the call.
    pub(crate) fn is_left(&self, call: u32) -> bool
        requires low { 1 ≤ call }
        requires high { call ≤ self.now.calls }
        ensures { result ≡ is_left self.now call }
    {
        self.used.next(call) != 0
    }

    /// Whether a used arc enters the call.
    pub(crate) fn is_entered(&self, call: u32) -> bool
        requires low { 1 ≤ call }
        requires high { call ≤ self.now.calls }
        ensures { result ≡ is_entered self.now call }
    {
        self.used.previous(call) <= self.used.calls()
    }

    /// Whether each plan of the region visits the call, since an arc into it or out of it is used.
    pub fn forced(&self, call: u32) -> bool
        requires low { 1 ≤ call }
        requires high { call ≤ self.now.calls }
        ensures { result ≡ is_forced self.now call }
    {
        self.is_entered(call) || self.is_left(call)
    }

    /// Whether the place is a call that a used arc leaves.
    fn is_left_call(&self, place: u32) -> bool
        ensures { result ≡ (is_call self.now.calls place && is_left self.now place) }
    {
        1 <= place && place <= self.calls() && self.is_left(place)
    }

    /// Whether the place is a call that a used arc enters.
    fn is_entered_call(&self, place: u32) -> bool
        ensures { result ≡ (is_call self.now.calls place && is_entered self.now place) }
    {
        1 <= place && place <= self.calls() && self.is_entered(place)
    }

    /// Whether no plan of the region travels the arc, since it is banned or another arc at one of its calls is used.
    pub fn is_shut(&self, i: u32, j: u32) -> bool
        requires from { i ≤ self.now.calls + 1 }
        requires to { j ≤ self.now.calls + 1 }
        ensures { result ≡ is_shut self.now i j }
    {
        !self.is_used(i, j)
            && (self.is_banned(i, j) || self.is_left_call(i) || self.is_entered_call(j))
    }

    /// Whether two places make an arc.
    fn is_arc(&self, i: u32, j: u32) -> bool
        ensures { result ≡ is_arc self.now.calls i j }
    {
        let n = self.calls();
        i <= n && 1 <= j && j <= n + 1 && i != j && !(i == 0 && j == n + 1)
    }

    /// Whether two places make an arc that is not shut.
    pub fn is_open(&self, i: u32, j: u32) -> bool
        ensures { result ≡ is_open self.now i j }
    {
        self.is_arc(i, j) && !self.is_shut(i, j)
    }

    /// Whether two places make an arc that is neither used nor shut.
    pub fn is_undecided(&self, i: u32, j: u32) -> bool
        ensures { result ≡ is_undecided self.now i j }
    {
        self.is_open(i, j) && !self.is_used(i, j)
    }

    /// Whether the split leaves something on both sides.
    pub fn makes_progress(&self, split: Split) -> bool
        ensures { IsTrue result ↔ MakesProgress self.now split }
    {
        match split {
            Split::Profit { v } => self.raw.p_lo <= v && v < self.raw.p_hi,
            Split::Time { v } => self.raw.t_lo <= v && v < self.raw.t_hi,
            Split::Count { c } => self.fewest <= c && c < self.most,
            Split::Arc { i, j } => self.is_undecided(i, j),
        }
    }

    /// Goes to the first child in place.
    pub(crate) fn enter_first(&mut self, split: Split)
        requires { MakesProgress self.old split }
        ensures { self.new ≡ first_child self.old split }
    {
        match split {
            Split::Profit { v } => self.raw.p_hi = v,
            Split::Time { v } => self.raw.t_hi = v,
            Split::Count { c } => self.most = c,
            Split::Arc { i, j } => self.used.link(i, j),
        }
    }

    /// Goes to the second child in place.
    pub(crate) fn enter_second(&mut self, split: Split)
        requires { MakesProgress self.old split }
        ensures { self.new ≡ second_child self.old split }
    {
        match split {
            Split::Profit { v } => self.raw.p_lo = v + 1,
            Split::Time { v } => self.raw.t_lo = v + 1,
            Split::Count { c } => self.fewest = c + 1,
            Split::Arc { i, j } => self.banned.set(i, j),
        }
    }
}

fn is_shared<T: Send + Sync>(_: &T) {}

fn context_is_shared(context: &Context) {
    is_shared(context);
}
