ghost use Rattle.std.specs.Prelude.{◌≡◌, ◌*◌, ◌<◌, ◌≤◌, ℕ, pos, ◌-ℤ◌, FitsSigned, unsigned_abs, IfSome, is_some, length, true, if◌then◌else◌};
ghost use Rattle.std.specs.Int.{w64};
ghost use Rattle.label_engine.specs.Cut.{cut, at_start, closed_sum, flag_of, IsCut, IsVisit, relaxed, cut_moves, step_between};
ghost use Rattle.label_core.specs.Worth.{most};
ghost use Rattle.orienteering.specs.Instance.{calls, end_place, next_clock, IsCall};
ghost use Rattle.orienteering.specs.Limits.{longest_arc};
ghost use Rattle.orienteering.specs.Price.{price_of, most_weight, IsFit};
ghost use Rattle.orienteering.specs.Region.{IsProper, is_forced};
ghost use Rattle.orienteering.specs.Replay.{is_critical_set};
ghost use Rattle.orienteering.specs.Walk.{step_value};

use crate::moves::Moves;
use crate::visit::Visit;
use bit_sets::Bits;
use label_core::{Clock, ClockStep, Critical, Gain, Mark, Pair, PairStep, Resource, Worth};
use orienteering::Price;
use region_ctx::Context;
use site_model::Instance;
use std::alloc::Global;
use std::marker::Model;

/// What a relaxed walk carries: its clock, the critical calls that it visited, and its value so far.
pub type CutState = Pair<Clock, Pair<Critical, Worth>>;

/// A step of a relaxed walk.
pub type CutStep = PairStep<ClockStep, PairStep<Mark, Gain>>;

/// The moves of the relaxed walks of a region under a price: no arc is shut, consecutive calls differ, no step is late,
/// and no critical call is visited twice.
#[derive(Drop)]
pub struct CutMoves<'a> {
    alloc: Global,
    inst: &'a Instance,
    ctx: &'a Context,
    price: &'a Price,
    critical: &'a [u32],
}

impl<'a> Model for CutMoves<'a> {
    ghost use Rattle.label_engine.specs.Cut.{Cut, cut, IsCut};
    ghost use Rattle.std.specs.Coded.{codes};
    ghost use Rattle.orienteering.specs.Region.{region_code};

    ghost Value = { Cut };

    ghost coded = { Prim.hlevel (codes, region_code) };

    ghost view = { λ m. cut m.inst.now m.ctx.now m.price.now m.critical.now };

    ghost invariant = { λ m. IsCut (cut m.inst.now m.ctx.now m.price.now m.critical.now) };
}

/// An amount of profit or time by its weight.
fn weighted(weight: u32, amount: u64) -> i64
    requires weight { weight ≤ most_weight }
    requires amount { amount ≤ longest_arc }
    ensures value { result ≡ pos (weight * amount) }
    ensures within { weight * amount ≤ most_weight * longest_arc }
{
    (u64::from(weight) * amount) as i64
}

fn difference(a: i64, b: i64) -> i64
    requires { FitsSigned w64 (a -ℤ b) }
    ensures { result ≡ a -ℤ b }
{
    a - b
}

/// The mark of a visit: the call where it is critical.
fn mark(call: u32, is_critical: bool) -> Mark
    requires { call < 320 }
    ensures { result ≡ (if is_critical then Some call else None) }
{
    Mark {
        number: if is_critical { Some(call) } else { None },
    }
}

/// Where a call stands in the critical set.
fn position_of(critical: &[u32], call: u32) -> Option<usize>
    ensures place { result ≡ flag_of critical.now call }
    ensures within { IfSome result (λ place. place < length critical.now) }
{
    critical.iter().position(|known| *known == call)
}

/// The place of a call in the critical set, None where it isn't critical.
fn place_of(critical: &[u32], call: u32) -> Option<u32>
    requires { length critical.now ≤ 64 }
    ensures { result ≡ flag_of critical.now call }
{
    match position_of(critical, call) {
        None => None,
        Some(place) => Some(place as u32),
    }
}

/// The price of a call, 0 without an entry.
fn price_of(entries: &[(u32, i64)], call: u32) -> i64
    ensures { result ≡ price_of entries.now call }
{
    for (priced, price) in entries {
        if *priced == call {
            return *price;
        }
    }
    0
}

impl<'a> CutMoves<'a> {
    /// Takes no memory. Its conditions are those of `greatest`.
    pub fn new(
        alloc: Global,
        inst: &'a Instance,
        ctx: &'a Context,
        price: &'a Price,
        critical: &'a [u32],
    ) -> CutMoves<'a>
        requires proper { IsProper inst.now ctx.now }
        requires fit { IsFit (calls inst.now) (is_forced ctx.now) price.now }
        requires critical { is_critical_set (calls inst.now) critical.now ≡ true }
        ensures { result ≡ cut inst.now ctx.now price.now critical.now }
    {
        let _calls = inst.calls();
        CutMoves {
            alloc,
            inst,
            ctx,
            price,
            critical,
        }
    }

    /// What a visit of a call is.
    pub(crate) fn visit(&self, call: u32) -> Visit
        requires { IsCall self.now.problem call }
        ensures { IsVisit self.now call result }
    {
        let earned = weighted(self.price.alpha, u64::from(self.inst.score(call)));
        Visit {
            place: place_of(self.critical, call),
            worth: difference(earned, price_of(self.price.pi.list(), call)),
        }
    }

    /// What the step from a place to a call is worth.
    pub(crate) fn worth(&self, from: u32, to: u32, visit: Visit) -> i64
        requires from { from ≤ calls self.now.problem }
        requires to { IsCall self.now.problem to }
        requires visit { IsVisit self.now to visit }
        ensures { result ≡ step_value self.now.problem (relaxed self.now) from to }
    {
        let paid = weighted(self.price.beta, self.inst.length(from, to));
        difference(visit.worth, paid)
    }

    /// The step from a place to a call whose visit is known, None where the arc is shut or leads nowhere.
    pub(crate) fn step_to(&self, from: u32, to: u32, visit: Visit) -> Option<CutStep>
        requires from { from ≤ calls self.now.problem }
        requires to { IsCall self.now.problem to }
        requires visit { IsVisit self.now to visit }
        ensures { result ≡ step_between self.now.problem (relaxed self.now) from to }
    {
        if from == to || self.ctx.is_shut(from, to) {
            return None;
        }
        let time = ClockStep {
            travel: self.inst.service(from) + self.inst.length(from, to),
            opening: self.inst.opening(to),
            closing: self.inst.closing(to),
        };
        let gain = Gain {
            by: i128::from(self.worth(from, to, visit)),
        };
        Some(PairStep {
            a: time,
            b: PairStep {
                a: mark(to, visit.place.is_some()),
                b: gain,
            },
        })
    }

    /// Whether a walk can go from a call to the end in time.
    fn is_in_time(&self, call: u32, clock: &Clock) -> bool
        requires { IsCall self.now.problem call }
        ensures { result ≡ is_some (next_clock self.now.problem clock.now.at call (end_place self.now.problem)) }
    {
        let end = self.inst.calls() + 1;
        let step = ClockStep {
            travel: self.inst.service(call) + self.inst.length(call, end),
            opening: self.inst.opening(end),
            closing: self.inst.closing(end),
        };
        clock.extend(&step).is_some()
    }

    /// The value of a walk that ends at a call with this clock and sum, None where it can't go to the end.
    pub(crate) fn closed_sum(&self, call: u32, clock: &Clock, sum: i128) -> Option<i128>
        requires call { IsCall self.now.problem call }
        requires sum { unsigned_abs sum ≤ most }
        ensures { result ≡ closed_sum self.now.problem (relaxed self.now) call clock.now.at sum }
    {
        let end = self.inst.calls() + 1;
        if self.ctx.is_shut(call, end) || !self.is_in_time(call, clock) {
            return None;
        }
        let paid = weighted(self.price.beta, self.inst.length(call, end));
        Some(sum - i128::from(paid))
    }

    /// When a walk leaves the start.
    pub(crate) fn start(&self) -> Clock
        ensures { result ≡ (at_start self.now.problem).a }
    {
        Clock {
            at: self.inst.opening(0),
        }
    }
}

impl Moves<CutState> for CutMoves<'_> {
    ghost moves = { λ m. cut_moves m.problem (relaxed m) };

    fn calls(&self) -> u32 {
        self.inst.calls()
    }

    fn begin(&self, call: u32) -> Option<CutState> {
        let start = Pair {
            a: self.start(),
            b: Pair {
                a: Critical {
                    held: Bits::empty(self.alloc),
                },
                b: Worth { sum: 0 },
            },
        };
        let step = self.step_to(0, call, self.visit(call))?;
        start.extend(&step)
    }

    fn step(&self, from: u32, to: u32) -> Option<CutStep> {
        self.step_to(from, to, self.visit(to))
    }
}
