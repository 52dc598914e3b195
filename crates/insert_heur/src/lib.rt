//! Starting plans: calls are put in one by one, the choice is drawn from the best, and a plan is improved by moving one
//! call at a time.
//!
//! Stands on `site_model` and `tour_check` for instances, plans and their points, on `draws` for the draws of a seed, and
//! on `job_pool` for many starts beside each other. The contract of `build` is an equation with the insertion plan, whose
//! definition lists and sorts all candidates; `k_smallest` of `itertools` finds the best ones here. The contract of
//! `improve_plan` says that the same calls are visited, that no time is lost, and that no move of one call saves time. That
//! each insertion is a plan to which nothing can be added is a law of its own.
#![tactic(auto)]

ghost use Rattle.insert_heur.specs.Insertion.{InsertionsFinish};

mod candidates;
mod insertion;
mod moves;
mod starts;
mod tours;
mod travel;
mod walk;

pub use candidates::{Candidate, Weight};
pub use insertion::build;
pub use moves::improve_plan;
pub use starts::many_starts;

/// Each insertion is a plan to which no candidate is left.
pub fn insertions_finish()
    ensures { InsertionsFinish }
{}

#[cfg(test)]
mod tests;
