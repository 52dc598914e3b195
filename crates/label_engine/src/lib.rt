//! Labels of walks, settled by number of calls, and the greatest value of a relaxed walk.
//!
//! Stands on `label_core` for lawful resources, and on `region_ctx`, `bit_sets` and `site_model` for the moves of a cut.
//! `settle` answers exactly the states of fronts that no different state covers, each once with its parent, for every
//! resource that keeps its laws and all moves. `greatest` answers exactly the greatest value of a relaxed walk under a
//! price, with a walk that has it, and carries what a bound rests on: no feasible tour without a shut arc is worth more.
//! Labels stand by layer and by call; a state takes no memory. A replay first compares each new state with a few of its
//! call (`bounded_rows`), by sums of 8 bytes where these are enough (`small_moves`), and settles labels where that keeps
//! more than the limit.
#![tactic(auto)]

mod bounded_rows;
mod bucket;
mod cut;
mod cut_moves;
mod flagged_moves;
mod label;
mod layer;
mod moves;
mod replay;
mod search;
mod small_moves;
#[cfg(test)]
mod tests;
mod visit;
mod walk;

pub use cut::{settled_labels_give_sigma, uncovered_states_are_undominated};
pub use cut_moves::{CutMoves, CutState, CutStep};
pub use label::{Label, ReplayFail, Settled};
pub use moves::Moves;
pub use replay::{Outcome, greatest};
pub use search::settle;
