//! Prices of calls: when a price is fit, and the bound that it gives on every plan of a region.
//!
//! Stands on `region_ctx` for the forced calls and the count range of a region. The contracts are equations with the
//! definitions; what a fit price and its bound mean for plans is the law of duality of `orienteering`.
#![tactic(auto)]

mod dual;
mod fit;

pub use dual::bound;
pub use fit::check_price;
pub use orienteering::{Entries, Price, PriceRefusal};

#[cfg(test)]
mod tests;
