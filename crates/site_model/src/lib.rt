//! Instances of team orienteering, and the plain data of plans, points and boxes.
//!
//! Stands on `orienteering`, whose plain data it names, and on `fixed_num`. An `Instance` is seen as the `Problem` of the
//! definitions; it keeps its lengths in a table, so no reader takes memory. Every reader's contract is an equation with
//! the definition, and `Instance::calls` tells that all limits are kept.
#![tactic(auto)]

mod dominance;
mod instance;
mod lengths;
mod parts;
mod refusal;

pub use dominance::{dominates, weakly_dominates};
pub use instance::Instance;
pub use orienteering::{Box2, Listed, Place, Plan, Point, Tour};
pub use parts::{Parts, PartsRefusal, Places};
pub use refusal::laws_of_parts;
