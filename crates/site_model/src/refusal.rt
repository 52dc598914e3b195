//! What is refused among the parts of an instance.

ghost use Rattle.std.specs.Prelude.{◌≡◌, ◌≤◌, length, nat_le, unsigned_abs};
ghost use Rattle.orienteering.specs.Limits.{most_coordinate};
ghost use Rattle.site_model.specs.Parts.{is_bare, is_within_limits, parts_refusal, place_refusal, places_refusal, problem_of, InstancesAreAccepted};

use crate::parts::{Parts, PartsRefusal};
use orienteering::Place;

/// Nothing is refused of parts exactly where they keep every limit of an instance.
pub fn laws_of_parts()
    ensures { InstancesAreAccepted }
{}

fn is_near(coordinate: i64) -> bool
    ensures { result ≡ nat_le (unsigned_abs coordinate) most_coordinate }
{
    coordinate.unsigned_abs() <= 1_000_000_000
}

fn is_within_limits(place: Place) -> bool
    ensures { result ≡ is_within_limits place }
{
    is_near(place.x)
        && is_near(place.y)
        && place.score <= 100_000
        && place.service <= 100_000_000
        && place.opening <= 100_000_000
        && place.closing <= 100_000_000
}

fn is_bare(place: Place) -> bool
    ensures { result ≡ is_bare place }
{
    place.score == 0 && place.service == 0
}

/// What is wrong with one place. An end is the start or the end.
fn place_refusal(place: Place, number: u32, is_end: bool) -> Option<PartsRefusal>
    ensures { result ≡ place_refusal is_end number place }
{
    if !is_within_limits(place) || (is_end && !is_bare(place)) {
        return Some(PartsRefusal::Range(number));
    }
    if place.closing < place.opening {
        return Some(PartsRefusal::Window(number));
    }
    None
}

fn first_refusal(places: &[Place]) -> Option<PartsRefusal>
    requires { length places.now ≤ 302 }
    ensures { result ≡ places_refusal 0 places.now }
{
    let mut rest = places;
    let mut number = 0;
    while let Some((place, behind)) = rest.split_first() {
        let is_end = number == 0 || behind.is_empty();
        if let Some(refusal) = place_refusal(*place, number, is_end) {
            return Some(refusal);
        }
        rest = behind;
        number += 1;
    }
    None
}

/// The first part that is refused.
#[tactic(auto, unfolding(crate::specs::Parts::parts_refusal))]
pub(crate) fn parts_refusal(parts: &Parts) -> Option<PartsRefusal>
    ensures { result ≡ parts_refusal (problem_of parts.now) }
{
    let places = parts.places.list();
    if places.len() < 2 {
        return Some(PartsRefusal::TooFew);
    }
    if places.len() > 302 {
        return Some(PartsRefusal::TooMany);
    }
    if parts.team == 0 || parts.team > 32 {
        return Some(PartsRefusal::Team);
    }
    if let Some(refusal) = first_refusal(places) {
        return Some(refusal);
    }
    let end = places.len() - 1;
    if places[end].closing < places[0].opening {
        return Some(PartsRefusal::Window(end as u32));
    }
    None
}
