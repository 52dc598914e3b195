//! The checker of certificates: it answers the listed points and the boxes that are left open, or the first refusal.
//!
//! Stands on `tour_check` for the listed plans, on `region_ctx`, `price_bound` and `label_engine` for the nodes of the tree,
//! and on `cert_text` for certificates. `check` answers the verdict of the definitions exactly, and carries what the
//! verdict means: what it accepts is a frontier, and lists exactly the nondominated points where no box is left. It takes
//! nothing on trust from a solver: every cut is replayed here.
#![tactic(auto)]

mod acceptance;
mod boxes;
mod critical;
mod judge;
mod leaves;
mod pending;
mod points;
mod replay;
mod rules;
mod verdict;
mod walk;

pub use acceptance::Accepted;
pub use critical::is_critical_set;
pub use orienteering::{CheckFail, NodeCause, PointWhy};
pub use verdict::check;
