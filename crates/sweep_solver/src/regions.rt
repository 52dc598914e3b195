//! What the regions of a search are asked by.

use site_model::Instance;

/// An instance, and how many undominated states a replay may keep.
#[derive(Drop)]
pub(crate) struct Regions<'a> {
    pub inst: &'a Instance,
    pub labels: u64,
}
