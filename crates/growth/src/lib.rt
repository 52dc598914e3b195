//! The growth of a tree at its open nodes: whatever a strategy proposes, the tree stays one that the checker accepts.
//!
//! Stands on `orienteering` for the rule of each node and on `front_archive` for the points. A `World` is the
//! instance with its regions, as a growth asks for them; a `Strategy` says what to do at an open node, and no proof
//! rests on how good its advice is. `grow_certificate` reads the nodes of an accepted tree in preorder and writes
//! them again, with a tree in the place of each open node, grown depth first: what is proposed is judged by the rule
//! of the checker before it is written, and what is refused gives way to a last resort that always serves. Branches
//! that the strategy puts off are kept, and grown once the others are closed, the nearest first. Its contract says
//! that the grown tree is accepted with the better points, and that it is the old tree with trees in the places of
//! open nodes. It says how many nodes the tree has, that nodes stay open only where the budget is spent, and that
//! what is left open lies in what was open before.
#![tactic(auto)]

mod branch;
mod certificate;
mod grow;
mod judge;
mod regrow;
mod waiting;
mod world;

pub use branch::Branch;
pub use certificate::grow_certificate;
pub use world::{Advice, Proposal, Resort, Strategy, World};
