//! Resources: what a walk uses up or gathers on its way, and which of two values is at least as good.
//!
//! Stands on `bit_sets`. A `Resource` says what a step makes of a value, and orders values. Each implementation proves the
//! laws that dominance of labels rests on, for values and steps that fit: the order is reflexive, transitive and
//! antisymmetric, and a value that is at least as good can do whatever the other can, and stays at least as good. No call
//! takes memory. `Clock`, `Critical` and `Worth` are what a relaxed walk of team orienteering carries, and a `Pair` of
//! resources is a resource. `Flags` is what `Critical` is, by the same rules, where the numbers of the calls are below 64:
//! it is kept in one word, so that two values are compared in a few machine steps.
#![tactic(auto)]

mod clock;
mod critical;
mod flags;
mod pair;
mod resource;
#[cfg(test)]
mod tests;
mod worth;

pub use clock::{Clock, ClockStep};
pub use critical::{Critical, Mark};
pub use flags::{Flag, Flags};
pub use pair::{Pair, PairStep};
pub use resource::Resource;
pub use worth::{Gain, Worth};
