//! The plan that grows by insertions.

ghost use Rattle.std.specs.Prelude.{◌≡◌, ◌≤◌, ◌<◌, Some, length, IfOk};
ghost use Rattle.orienteering.specs.Price.{most_weight};
ghost use Rattle.insert_heur.specs.Insertion.{chosen, insertion};

use crate::candidates::{Candidate, Weight, best_candidates};
use crate::tours::put_in;
use draws::Draws;
use orienteering::Plan;
use site_model::Instance;
use std::alloc::{AllocError, Global};

/// The candidate whose number, from 0, is the rest of the draw.
fn pick(best: &[Candidate], draw: u64) -> Candidate
    requires { 0 < length best.now }
    ensures { Some result ≡ chosen draw best.now }
{
    best[(draw % best.len() as u64) as usize]
}

/// The insertion plan of a seed: it begins with no tour, and grows by one of the three best candidates after the other, as
/// the draws of the seed choose, until none gains. The randomised choice among the best is that of Hart and Shogan (1987).
pub fn build(alloc: Global, inst: &Instance, seed: u64, weight: Weight) -> Result<Plan, AllocError>
    requires alpha { weight.alpha ≤ most_weight }
    requires beta { weight.beta ≤ most_weight }
    ensures { IfOk result (λ plan. plan ≡ insertion inst.now seed weight) }
{
    let mut tours = Vec::new(alloc);
    let mut draws = Draws::of_seed(seed);
    for _ in 0..inst.calls() {
        let draw = draws.draw();
        let best = best_candidates(alloc, inst, weight, tours.as_slice())?;
        if best.is_empty() {
            return Ok(Plan::from_tours(tours));
        }
        let chosen = pick(best.as_slice(), draw);
        put_in(alloc, &mut tours, chosen.tour, chosen.position, chosen.call)?;
    }
    Ok(Plan::from_tours(tours))
}
