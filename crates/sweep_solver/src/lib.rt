//! The solver: it makes a certificate that the checker accepts.
//!
//! Stands on `growth`, which grows a tree at its open nodes whatever a strategy proposes. Here are the regions of an
//! instance as that asks for them, over `region_ctx`, with the replay of a cut by `label_engine`; a way to go on with
//! any region; and a strategy, on which no proof leans: it aims cuts with prices of calls at the corners of a box, by
//! the master of `dual_master` over the tours of `pool_cols` and the walks of `relax_states`, and branches on arcs by
//! `branch_pick`.
//!
//! `solve` begins with one open node and the starting plans of `insert_heur`. Its contract says that the verdict of
//! the checker on the answer is a yes; that no node is open without a budget, and with one only where it is spent,
//! with at most one node more; that a box is left only where the budget is spent; and that each starting plan is
//! weakly dominated by a listed point.
//!
//! `resume` goes on from a certificate that the checker accepts. Its contract says that the verdict on the answer is
//! a yes, and that a certificate without a box is answered as it is. The new tree is the old one, with trees in the
//! places of open nodes. Each old point is weakly dominated by a listed point, and each starting plan too where the
//! old certificate leaves a box. Each box lies in an old one. The budget counts the nodes that the old tree does not
//! have, and a box is left only where it is spent.
#![tactic(auto)]

mod aim;
mod aims;
mod arcs;
mod corners;
mod ladder;
mod leaf;
mod learned;
mod options;
mod pricing;
mod regions;
mod replay;
mod resort;
mod resuming;
mod search;
mod strategy;
#[cfg(test)]
mod tests;
mod trials;
mod world;

pub use options::{Options, solve};
pub use resuming::resume;
