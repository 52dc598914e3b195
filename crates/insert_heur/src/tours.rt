//! Lists of tours, read and changed at a place.

ghost use Rattle.std.specs.Prelude.{◌≡◌, ◌≤◌, length, not, nat_eq, IfOk, OnOk};
ghost use Rattle.std.specs.List.{concat, filter, insert};
ghost use Rattle.orienteering.specs.PlanCheck.{is_one_of};
ghost use Rattle.insert_heur.specs.Places.{tour_at, with_call};
ghost use Rattle.insert_heur.specs.Improvement.{without_call};

use orienteering::Tour;
use std::alloc::{AllocError, Global};

fn is_one_of(calls: &[u32], call: u32) -> bool
    ensures { result ≡ is_one_of calls.now call }
{
    calls.iter().any(|other| call == *other)
}

/// One of the tours visits the call.
pub fn some_visits(tours: &[Tour], call: u32) -> bool
    ensures { result ≡ is_one_of (concat tours.now) call }
{
    for tour in tours {
        if is_one_of(tour.calls(), call) {
            return true;
        }
    }
    false
}

/// The calls of a tour, and none for a new one.
pub fn tour_at(tours: &[Tour], tour: usize) -> &[u32]
    ensures { result.now ≡ tour_at tours.now tour }
{
    if tour < tours.len() {
        tours[tour].calls()
    } else {
        &[]
    }
}

/// The tour with the call put in, `position` calls before it.
fn tour_with(alloc: Global, tour: &[u32], position: usize, call: u32) -> Result<Tour, AllocError>
    requires { position ≤ length tour.now }
    ensures { IfOk result (λ longer. longer ≡ insert tour.now position call) }
{
    let mut calls = Vec::new(alloc);
    calls.extend_from_slice(tour)?;
    calls.insert(position, call)?;
    Ok(Tour::from_calls(calls))
}

/// Puts the call in at a place.
pub fn put_in(
    alloc: Global,
    tours: &mut Vec<Tour>,
    tour: usize,
    position: usize,
    call: u32,
) -> Result<(), AllocError>
    requires tour { tour ≤ length tours.old.items }
    requires position { position ≤ length (tour_at tours.old.items tour) }
    ensures { OnOk result (tours.new.items ≡ with_call tours.old.items call tour position) }
{
    let longer = tour_with(alloc, tour_at(tours.as_slice(), tour), position, call)?;
    if tour < tours.len() {
        tours[tour] = longer;
    } else {
        tours.push(longer)?;
    }
    Ok(())
}

/// The same tours once more.
pub fn copies(alloc: Global, tours: &[Tour]) -> Result<Vec<Tour>, AllocError>
    ensures { IfOk result (λ copies. copies.items ≡ tours.now) }
{
    let mut copies = Vec::new(alloc);
    for tour in tours {
        copies.push(tour.copy(alloc)?)?;
    }
    Ok(copies)
}

/// The other calls of the tour.
fn calls_without(alloc: Global, tour: &[u32], call: u32) -> Result<Vec<u32>, AllocError>
    ensures { IfOk result (λ kept. kept.items ≡ filter (λ c. not (nat_eq c call)) tour.now) }
{
    tour.iter().copied().filter(|c| *c != call).collect(alloc)
}

/// The tours with the call taken out; a tour that is left empty is dropped.
pub fn without_call(alloc: Global, plan: &[Tour], call: u32) -> Result<Vec<Tour>, AllocError>
    ensures { IfOk result (λ rest. rest.items ≡ without_call plan.now call) }
{
    let mut tours = Vec::new(alloc);
    for tour in plan {
        let kept = calls_without(alloc, tour.calls(), call)?;
        if !kept.is_empty() {
            tours.push(Tour::from_calls(kept))?;
        }
    }
    Ok(tours)
}
