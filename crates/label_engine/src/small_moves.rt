//! The moves of a cut with sums of 8 bytes, for cuts whose walks keep within them.

ghost use Rattle.std.specs.Prelude.{◌≡◌, ◌≤◌, FitsSigned};
ghost use Rattle.std.specs.Int.{w64};
ghost use Rattle.label_engine.specs.Cut.{flagged_between};
ghost use Rattle.label_engine.specs.SmallSums.{small_moves};
ghost use Rattle.orienteering.specs.Instance.{calls, IsCall};

use crate::cut_moves::CutMoves;
use crate::flagged_moves::{FlaggedMoves, FlaggedStep};
use crate::moves::Moves;
use label_core::{Clock, ClockStep, Flag, Flags, Pair, PairStep, Resource};
use std::marker::Model;

/// What a walk is worth so far, as `Worth` has it. Sums stop at 4 * 10^18 and at its negative.
#[derive(Clone, Copy)]
pub(crate) struct SmallWorth {
    pub sum: i64,
}

impl Model for SmallWorth {
    ghost use Rattle.label_core.specs.declared.worth.Worth.{Worth};

    ghost Value = { Worth };

    ghost view = { λ worth. record { sum = worth.sum } };

    ghost inverse = { λ worth. record { sum = worth.sum } };
}

/// What a step adds, as `Gain` has it.
#[derive(Clone, Copy)]
pub(crate) struct SmallGain {
    pub by: i64,
}

impl Model for SmallGain {
    ghost use Rattle.label_core.specs.declared.worth.Gain.{Gain};

    ghost Value = { Gain };

    ghost view = { λ gain. record { by = gain.by } };

    ghost inverse = { λ gain. record { by = gain.by } };
}

const MOST: i64 = 4_000_000_000_000_000_000;

impl Resource for SmallWorth {
    ghost use Rattle.label_engine.specs.SmallSums.{small_worth_rules, IsSmallWorth, IsSmallGain};
    ghost use Rattle.label_engine.specs.SmallSumsLaws.{small_worth_laws};

    type Step = SmallGain;

    ghost rules = { small_worth_rules };

    ghost fits = { IsSmallWorth };

    ghost fits_step = { IsSmallGain };

    #[inline]
    fn extend(&self, step: &SmallGain) -> Option<SmallWorth> {
        let sum = self.sum.saturating_add(step.by).clamp(-MOST, MOST);
        Some(SmallWorth { sum })
    }

    #[inline]
    fn leq(&self, other: &SmallWorth) -> bool {
        self.sum >= other.sum
    }

    #[inline]
    fn copy(&self) -> SmallWorth {
        *self
    }

    #[inline]
    fn tell(&self) {
        let _sum = self.sum;
    }

    #[inline]
    fn tell_step(step: &SmallGain) {
        let _by = step.by;
    }

    ghost laws = { small_worth_laws };
}

/// What a relaxed walk carries, in 24 bytes.
pub(crate) type SmallState = Pair<Clock, Pair<Flags, SmallWorth>>;

/// A step of such a walk.
pub(crate) type SmallStep = PairStep<ClockStep, PairStep<Flag, SmallGain>>;

/// The moves of a cut with sums of 8 bytes.
#[derive(Drop)]
pub(crate) struct SmallMoves<'a> {
    moves: &'a FlaggedMoves<'a>,
}

impl<'a> Model for SmallMoves<'a> {
    ghost use Rattle.std.specs.Coded.{codes};
    ghost use Rattle.orienteering.specs.Region.{region_code};
    ghost use Rattle.label_engine.specs.Cut.{Cut, IsCut};

    ghost Value = { Cut };

    ghost coded = { Prim.hlevel (codes, region_code) };

    ghost view = { λ m. m.moves.now };

    ghost invariant = { λ m. IsCut m.moves.now };
}

/// The step with its value in 8 bytes.
fn small_step(step: &FlaggedStep) -> SmallStep
    requires { FitsSigned w64 step.now.b.b.by }
    ensures { result ≡ step.now }
{
    PairStep {
        a: step.a,
        b: PairStep {
            a: step.b.a,
            b: SmallGain {
                by: step.b.b.by as i64,
            },
        },
    }
}

impl<'a> SmallMoves<'a> {
    pub(crate) fn of(moves: &'a FlaggedMoves<'a>) -> SmallMoves<'a>
        ensures { result ≡ moves.now }
    {
        moves.tell();
        SmallMoves { moves }
    }

    pub(crate) fn cut(&self) -> &CutMoves<'a>
        ensures { result.now ≡ self.now }
    {
        self.moves.cut()
    }

    /// The step from a place to a call, None where the arc is shut or leads nowhere.
    fn step_to(&self, from: u32, to: u32) -> Option<SmallStep>
        requires from { from ≤ calls self.now.problem }
        requires to { IsCall self.now.problem to }
        ensures { result ≡ flagged_between self.now from to }
    {
        match self.moves.step_to(from, to) {
            None => None,
            Some(step) => Some(small_step(&step)),
        }
    }
}

impl Moves<SmallState> for SmallMoves<'_> {
    ghost moves = { λ m. small_moves m };

    fn calls(&self) -> u32 {
        self.moves.cut().calls()
    }

    fn begin(&self, call: u32) -> Option<SmallState> {
        let start = Pair {
            a: self.moves.cut().start(),
            b: Pair {
                a: Flags::none(),
                b: SmallWorth { sum: 0 },
            },
        };
        let step = self.step_to(0, call)?;
        start.extend(&step)
    }

    fn step(&self, from: u32, to: u32) -> Option<SmallStep> {
        self.step_to(from, to)
    }
}
