//! The laws of the definitions. These functions do nothing: what they promise is the law.

ghost use Rattle.orienteering.specs.Instance.{LengthsAreGreatest};
ghost use Rattle.orienteering.specs.Limits.{LengthsAreShort};
ghost use Rattle.orienteering.specs.Examples.{WorkedValues};
ghost use Rattle.orienteering.specs.Frontier.{WholeWithoutBoxes};
ghost use Rattle.orienteering.specs.PlanCheck.{ToursAreAccepted, PlansAreAccepted};
ghost use Rattle.orienteering.specs.Duality.{Duality};
ghost use Rattle.orienteering.specs.Decide.{TreesCover, AcceptsFrontiers};
ghost use Rattle.orienteering.specs.Weight.{AcceptedAreSmall};
ghost use Rattle.orienteering.specs.Laws.{RootHoldsAll, SplitsPart, ChildrenAreProper, PlansAreOpenAndTight, StuckHoldsNone, DecidedIsStuckOrRealised};
ghost use Rattle.orienteering.specs.Laws.{AgreementIsTested, StuckIsTested, ProgressIsTested, FitPricesAreAccepted};
ghost use Rattle.orienteering.specs.Laws.{ToursAreRelaxedWalks, SigmaIsGreatest, UndominatedAreCounted, ToursKeepTheirWorth, ReplaysBoundPlans};

/// Lengths: which they are, and how great one can be within the limits of instances.
pub fn laws_of_lengths()
    ensures greatest { LengthsAreGreatest }
    ensures short { LengthsAreShort }
{}

/// Plans and frontiers.
pub fn laws_of_plans()
    ensures tours { ToursAreAccepted }
    ensures plans { PlansAreAccepted }
    ensures whole { WholeWithoutBoxes }
{}

/// What every search tree over regions rests on.
pub fn laws_of_regions()
    ensures root { RootHoldsAll }
    ensures parts { SplitsPart }
    ensures proper { ChildrenAreProper }
    ensures tight { PlansAreOpenAndTight }
    ensures stuck { StuckHoldsNone }
    ensures decided { DecidedIsStuckOrRealised }
{}

/// The tests that a verdict is made of say what the relations say.
pub fn laws_of_tests()
    ensures agreement { AgreementIsTested }
    ensures stuck { StuckIsTested }
    ensures progress { ProgressIsTested }
    ensures prices { FitPricesAreAccepted }
{}

/// Relaxed walks, and the bound that they give.
pub fn laws_of_walks()
    ensures tours { ToursAreRelaxedWalks }
    ensures sigma { SigmaIsGreatest }
    ensures undominated { UndominatedAreCounted }
    ensures worth { ToursKeepTheirWorth }
    ensures duality { Duality }
    ensures bounds { ReplaysBoundPlans }
{}

/// What a verdict means: an accepted tree has exactly one leaf for each plan, and what is accepted is a
/// frontier, and small.
pub fn laws_of_verdicts()
    ensures cover { TreesCover }
    ensures frontier { AcceptsFrontiers }
    ensures small { AcceptedAreSmall }
{}

/// The definitions give the values that were worked out by hand on small instances.
pub fn worked_examples()
    ensures { WorkedValues }
{}
