//! What tours travel, late or not.

ghost use Rattle.std.specs.Prelude.{◌≡◌, ◌+◌, ◌*◌, ◌≤◌, length};
ghost use Rattle.std.specs.List.{AllByRecursion};
ghost use Rattle.orienteering.specs.Instance.{IsCall};
ghost use Rattle.orienteering.specs.Limits.{longest_arc};
ghost use Rattle.orienteering.specs.Tour.{tour_time, plan_time};
ghost use Rattle.insert_heur.specs.Places.{spent_at};
ghost use Rattle.insert_heur.specs.Walk.{farthest, AreTours};

use orienteering::Tour;
use site_model::Instance;

/// The travel of a tour, the ways from the start and to the end included.
fn travel(inst: &Instance, tour: &[u32]) -> u64
    requires calls { AllByRecursion (IsCall inst.now) tour.now }
    requires few { length tour.now ≤ 300 }
    ensures value { result ≡ tour_time inst.now tour.now }
    ensures within { result ≤ longest_arc * (length tour.now + 1) }
{
    let mut place = 0;
    let mut travelled = 0;
    for call in tour {
        travelled += inst.length(place, *call);
        place = *call;
    }
    travelled + inst.length(place, inst.calls() + 1)
}

/// The travel of one of the tours, and 0 for a new one.
pub fn travel_at(inst: &Instance, tours: &[Tour], tour: usize) -> u64
    requires { AreTours inst.now tours.now }
    ensures value { result ≡ spent_at inst.now tours.now tour }
    ensures within { result ≤ farthest }
{
    if tour < tours.len() {
        travel(inst, tours[tour].calls())
    } else {
        0
    }
}

/// The travel of all tours.
pub fn total_travel(inst: &Instance, tours: &[Tour]) -> u64
    requires { AreTours inst.now tours.now }
    ensures value { result ≡ plan_time inst.now tours.now }
    ensures within { result ≤ farthest * 32 }
{
    let mut travelled = 0;
    for tour in tours {
        travelled += travel(inst, tour.calls());
    }
    travelled
}
