//! The first call of a walk that comes back.

ghost use Rattle.std.specs.Prelude.{◌≡◌, ◌<◌, take, length, slice_index};
ghost use Rattle.relax_states.specs.Repeats.{first_repeated, repeated, stands_in};

use label_engine::Outcome;

/// Whether a call is one of these.
fn stands_in(calls: &[u32], call: u32) -> bool
    ensures { result ≡ stands_in calls.now call }
{
    calls.iter().any(|other| call == *other)
}

/// Whether the call at a place of the walk stands at an earlier place too.
fn stands_before(walk: &[u32], place: usize) -> bool
    requires { place < length walk.now }
    ensures { result ≡ stands_in (take place walk.now) (slice_index walk.now place) }
{
    stands_in(&walk[..place], walk[place])
}

/// The call at the earliest place of the walk whose call also stands at an earlier place.
fn first_repeated(walk: &[u32]) -> Option<u32>
    ensures { result ≡ first_repeated walk.now }
{
    for place in 0..walk.len() {
        if stands_before(walk, place) {
            return Some(walk[place]);
        }
    }
    None
}

/// The call that the walk of an outcome repeats first.
pub fn repeated(outcome: &Outcome) -> Option<u32>
    ensures { result ≡ repeated outcome.now }
{
    match outcome {
        Outcome::NoWalk => None,
        Outcome::Best { walk, .. } => first_repeated(walk.calls()),
    }
}
