//! What tours and plans earn, and how long they travel.

ghost use Rattle.std.specs.Prelude.{◌≡◌, ◌+◌, ◌*◌, ◌≤◌, length};
ghost use Rattle.std.specs.List.{AllByRecursion};
ghost use Rattle.orienteering.specs.Instance.{IsCall};
ghost use Rattle.orienteering.specs.Limits.{longest_arc, most_score};
ghost use Rattle.orienteering.specs.Tour.{IsFeasibleTour, IsPlan, tour_profit, tour_time};
ghost use Rattle.orienteering.specs.Frontier.{point_of};
ghost use Rattle.orienteering.specs.PlanCheck.{tour_point, tour_value, plan_value};

use crate::refusal::{plan_refusal, tour_refusal};
use orienteering::{Plan, PlanRefusal, Point, Tour, TourRefusal};
use site_model::Instance;
use std::alloc::Global;

/// The scores of the calls together.
fn tour_profit(inst: &Instance, tour: &[u32]) -> u64
    requires calls { AllByRecursion (IsCall inst.now) tour.now }
    requires few { length tour.now ≤ 300 }
    ensures value { result ≡ tour_profit inst.now tour.now }
    ensures within { result ≤ most_score * length tour.now }
{
    let mut profit = 0;
    for next in tour {
        profit += u64::from(inst.score(*next));
    }
    profit
}

/// The travel from the start through the calls to the end.
fn tour_time(inst: &Instance, tour: &[u32]) -> u64
    requires calls { AllByRecursion (IsCall inst.now) tour.now }
    requires few { length tour.now ≤ 300 }
    ensures value { result ≡ tour_time inst.now tour.now }
    ensures within { result ≤ longest_arc * (length tour.now + 1) }
{
    let mut place = 0;
    let mut time = 0;
    for next in tour {
        time += inst.length(place, *next);
        place = *next;
    }
    time + inst.length(place, inst.calls() + 1)
}

/// What a feasible tour earns, and how long it travels in scaled units, the ways from the start and to the end included.
pub fn tour_point(inst: &Instance, tour: &Tour) -> Point
    requires { IsFeasibleTour inst.now tour.now }
    ensures { result ≡ tour_point inst.now tour.now }
{
    let _calls = inst.calls();
    Point {
        profit: tour_profit(inst, tour.calls()),
        time: tour_time(inst, tour.calls()),
    }
}

/// The scores of all calls together, and the travel of all tours.
fn tours_point(inst: &Instance, tours: &[Tour]) -> Point
    requires { IsPlan inst.now tours.now }
    ensures { result ≡ point_of inst.now tours.now }
{
    let _calls = inst.calls();
    let _team = inst.team();
    let mut profit = 0;
    let mut time = 0;
    for tour in tours {
        profit += tour_profit(inst, tour.calls());
        time += tour_time(inst, tour.calls());
    }
    Point { profit, time }
}

/// What the tours of a plan earn together, and how long they travel in scaled units.
pub fn plan_point(inst: &Instance, plan: &Plan) -> Point
    requires { IsPlan inst.now plan.now }
    ensures { result ≡ point_of inst.now plan.now }
{
    tours_point(inst, plan.tours())
}

/// The point of a tour, or its first violated part: no call at all; else, call by call, one that the instance doesn't have,
/// one that stands earlier in the tour, one that is reached too late; last, the end that is reached too late.
pub fn tour_value(alloc: Global, inst: &Instance, tour: &Tour) -> Result<Point, TourRefusal>
    ensures { result ≡ tour_value inst.now tour.now }
{
    match tour_refusal(alloc, inst, tour.calls()) {
        Some(why) => Err(why),
        None => Ok(tour_point(inst, tour)),
    }
}

/// The point of a plan, or its first violated part: more tours than members; else, tour by tour, what is wrong with the tour
/// itself, then its first call that an earlier tour visits.
pub fn plan_value(alloc: Global, inst: &Instance, plan: &Plan) -> Result<Point, PlanRefusal>
    ensures { result ≡ plan_value inst.now plan.now }
{
    match plan_refusal(alloc, inst, plan.tours()) {
        Some(why) => Err(why),
        None => Ok(plan_point(inst, plan)),
    }
}
