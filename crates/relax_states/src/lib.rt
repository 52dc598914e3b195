//! Replays with a critical set that grows until the best walk is a tour.
//!
//! Stands on `label_engine`. A walk on which few calls are critical is cheap to bound but may come to a call again;
//! `decremental` makes just those calls critical that come back (decremental state space relaxation, Righini and Salani
//! 2008; Boland, Dethridge and Dumitrescu 2006). Its contract says that the outcome is the exact one of the answered set,
//! when it is that of tours, and why the set grew no further. `best_walks` finds walks to go on from, by labels of its own, and
//! promises nothing of how good they are.
#![tactic(auto)]

mod critical;
mod fronts;
mod growing;
mod legs;
mod price_walks;
mod repeats;

pub use growing::{Relaxed, decremental};
pub use price_walks::{Walks, best_walks};

#[cfg(test)]
mod tests;
