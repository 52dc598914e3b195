//! The listed points: each has a plan, that plan is one and has this point, and both numbers rise from point to point.

ghost use Rattle.std.specs.Prelude.{◌≡◌, None};
ghost use Rattle.orienteering.specs.PlanCheck.{listed_refusal, points_refusal, rises_from, same_point};

use orienteering::{CheckFail, Listed, Point, PointWhy};
use site_model::Instance;
use std::alloc::Global;
use tour_check::plan_value;

fn same_point(a: Point, b: Point) -> bool
    ensures { result ≡ same_point a b }
{
    a.profit == b.profit && a.time == b.time
}

/// What is wrong with the `k`-th listed point by itself.
fn listed_refusal(alloc: Global, inst: &Instance, k: u64, listed: &Listed) -> Option<CheckFail>
    ensures { result ≡ listed_refusal inst.now k listed.now }
{
    match plan_value(alloc, inst, &listed.plan) {
        Err(why) => Some(CheckFail::PointRefused {
            k,
            why: PointWhy::Plan(why),
        }),
        Ok(point) => {
            if same_point(point, listed.point) {
                None
            } else {
                Some(CheckFail::PointRefused {
                    k,
                    why: PointWhy::WrongValue,
                })
            }
        }
    }
}

fn rises_from(before: Option<Point>, next: Point) -> bool
    ensures { result ≡ rises_from before next }
{
    match before {
        None => true,
        Some(point) => point.profit < next.profit && point.time < next.time,
    }
}

/// The first refusal of the listed points.
pub(crate) fn points_refusal(alloc: Global, inst: &Instance, points: &[Listed]) -> Option<CheckFail>
    ensures { result ≡ points_refusal inst.now None 1 points.now }
{
    let mut before = None;
    for (index, listed) in points.iter().enumerate() {
        let k = index as u64 + 1;
        if let Some(fail) = listed_refusal(alloc, inst, k, listed) {
            return Some(fail);
        }
        if !rises_from(before, listed.point) {
            return Some(CheckFail::NotRising { k });
        }
        before = Some(listed.point);
    }
    None
}
