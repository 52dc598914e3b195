ghost use Rattle.std.specs.Prelude.{◌≡◌, ◌≤◌, ℕ, true, unsigned_abs, IfOk};
ghost use Rattle.label_core.specs.Flags.{IsFlag};
ghost use Rattle.label_engine.specs.Cut.{IsCut, relaxed, flagged_between, flagged_moves, marked};
ghost use Rattle.label_engine.specs.SmallSums.{HasSmallSums};
ghost use Rattle.orienteering.specs.Instance.{calls, IsCall};
ghost use Rattle.orienteering.specs.Walk.{step_value};

use crate::cut_moves::{CutMoves, CutStep};
use crate::moves::Moves;
use crate::visit::Visit;
use label_core::{Clock, ClockStep, Flag, Flags, Gain, Pair, PairStep, Resource, Worth};
use std::alloc::{AllocError, Global};
use std::marker::Model;

/// What a relaxed walk carries, where each critical call that it visited is a bit of one word.
pub(crate) type FlaggedState = Pair<Clock, Pair<Flags, Worth>>;

/// A step of such a walk.
pub(crate) type FlaggedStep = PairStep<ClockStep, PairStep<Flag, Gain>>;

/// The moves of a cut, whose walks hold critical calls by their places in the critical set. The visit of each call is
/// worked out once.
#[derive(Drop)]
pub(crate) struct FlaggedMoves<'a> {
    cut: CutMoves<'a>,
    visits: Vec<Visit>,
}

impl<'a> Model for FlaggedMoves<'a> {
    ghost use Rattle.std.specs.Coded.{codes};
    ghost use Rattle.orienteering.specs.Region.{region_code};
    ghost use Rattle.label_engine.specs.Cut.{Cut, IsCut};
    ghost use Rattle.label_engine.specs.Greatest.{AreVisits};

    ghost Value = { Cut };

    ghost coded = { Prim.hlevel (codes, region_code) };

    ghost view = { λ m. m.cut };

    ghost invariant = { λ m. IsCut m.cut × AreVisits m.cut m.visits.items };
}

/// Where sums of 8 bytes stop.
const MOST_SMALL: u128 = 4_000_000_000_000_000_000;

/// The step with the place of its call in the critical set in place of the call.
fn flagged(step: &CutStep, visit: Visit) -> FlaggedStep
    requires { IsFlag visit.place }
    ensures { result ≡ marked visit.place step.now }
{
    PairStep {
        a: step.a,
        b: PairStep {
            a: Flag {
                number: visit.place,
            },
            b: step.b.b,
        },
    }
}

impl<'a> FlaggedMoves<'a> {
    pub(crate) fn of(alloc: Global, cut: CutMoves<'a>) -> Result<FlaggedMoves<'a>, AllocError>
        ensures { IfOk result (λ m. m ≡ cut.entry) }
    {
        let mut visits = Vec::new(alloc);
        for index in 0..cut.calls() {
            visits.push(cut.visit(index + 1))?;
        }
        Ok(FlaggedMoves { cut, visits })
    }

    /// Does nothing. The conditions of the cut hold.
    pub(crate) fn tell(&self)
        ensures { IsCut self.now }
    {
        let _calls = self.cut.calls();
    }

    pub(crate) fn cut(&self) -> &CutMoves<'a>
        ensures { result.now ≡ self.now }
    {
        &self.cut
    }

    /// What the step from a place to a call is worth.
    fn worth(&self, from: u32, to: u32) -> i64
        requires from { from ≤ calls self.now.problem }
        requires to { IsCall self.now.problem to }
        ensures { result ≡ step_value self.now.problem (relaxed self.now) from to }
    {
        self.cut.worth(from, to, self.visits[to as usize - 1])
    }

    /// At least the magnitude of what each step to a call is worth.
    fn greatest_step_to(&self, to: u32) -> u64
        requires { IsCall self.now.problem to }
        ensures { (i : ℕ) → i ≤ calls self.now.problem → unsigned_abs (step_value self.now.problem (relaxed self.now) i to) ≤ result }
    {
        let mut greatest: u64 = 0;
        for from in 0..self.cut.calls() + 1 {
            greatest = greatest.max(self.worth(from, to).unsigned_abs());
        }
        greatest
    }

    /// At least the magnitude of what each step is worth.
    fn greatest_step(&self) -> u64
        ensures { (i j : ℕ) → i ≤ calls self.now.problem → IsCall self.now.problem j → unsigned_abs (step_value self.now.problem (relaxed self.now) i j) ≤ result }
    {
        let mut greatest: u64 = 0;
        for index in 0..self.cut.calls() {
            greatest = greatest.max(self.greatest_step_to(index + 1));
        }
        greatest
    }

    /// Whether the sums of all walks that a replay looks at keep within 4 * 10^18.
    pub(crate) fn has_small_sums(&self) -> bool
        ensures { result ≡ true → HasSmallSums self.now }
    {
        u128::from(self.cut.calls()) * u128::from(self.greatest_step()) <= MOST_SMALL
    }

    /// The step from a place to a call, None where the arc is shut or leads nowhere.
    pub(crate) fn step_to(&self, from: u32, to: u32) -> Option<FlaggedStep>
        requires from { from ≤ calls self.now.problem }
        requires to { IsCall self.now.problem to }
        ensures { result ≡ flagged_between self.now from to }
    {
        let visit = self.visits[to as usize - 1];
        match self.cut.step_to(from, to, visit) {
            None => None,
            Some(step) => Some(flagged(&step, visit)),
        }
    }
}

impl Moves<FlaggedState> for FlaggedMoves<'_> {
    ghost moves = { λ m. flagged_moves m };

    fn calls(&self) -> u32 {
        self.cut.calls()
    }

    fn begin(&self, call: u32) -> Option<FlaggedState> {
        let start = Pair {
            a: self.cut.start(),
            b: Pair {
                a: Flags::none(),
                b: Worth { sum: 0 },
            },
        };
        let step = self.step_to(0, call)?;
        start.extend(&step)
    }

    fn step(&self, from: u32, to: u32) -> Option<FlaggedStep> {
        self.step_to(from, to)
    }
}
