//! Whether tours and plans are feasible, with the first violated part, and their points.
//!
//! Stands on `site_model` for instances and on `bit_sets` for the calls that were seen. Every contract is an equation with
//! the definition of the first violated part, or of the point.
#![tactic(auto)]

mod point;
mod refusal;

pub use orienteering::{PlanRefusal, TourRefusal};
pub use point::{plan_point, plan_value, tour_point, tour_value};

#[cfg(test)]
mod tests;
