//! The master: a price whose bound over a pool of tours is no worse than that of a starting price, with shares of the
//! tours.
//!
//! Stands on `pool_cols` for the tours and on `price_bound` for the bound of a price. Prices are sought in rounds by volume
//! averages (Barahona and Anbil 2000) of subgradients (Held and Karp 1971), in whole numbers. The contract leans on no
//! step of that search: the start and the prices that it ends with are both rated over the whole pool, the one with the
//! smaller bound is answered, and the shares that the search wants are cut down to what calls and tours leave room for.
#![tactic(auto)]

mod columns;
mod corners;
mod fixed;
mod master;
mod open_tours;
mod program;
mod rating;
mod search;
mod shares;
mod table;
#[cfg(test)]
mod tests;
mod trials;

pub use corners::{CornerMaster, TIME_PARTS};
pub use master::{MasterAnswer, improve};
pub use shares::{Shares, WHOLE_TOUR};
pub use trials::SolvedMaster;
