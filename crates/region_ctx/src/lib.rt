//! Contexts: the regions of plans that a search tree splits.
//!
//! It stands on `site_model` and `bit_sets`. A `Context` is seen as a `Region` of the definitions; each call answers exactly
//! what the definition says: the splits give its children, `tight` its tight box, `stuck` its reasons. `laws` says what
//! else holds of regions. All queries take no memory.
#![tactic(auto)]

mod context;
pub mod laws;
mod links;
mod splits;
mod stuck;
#[cfg(test)]
mod tests;
mod tight;
mod walks;

pub use context::Context;
pub use orienteering::{Reason, Split};
pub use splits::SplitFail;
