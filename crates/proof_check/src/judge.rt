//! What nodes are judged by, where a node stands, and what it does there.

use orienteering::{CutOnPath, Listed};
use region_ctx::Context;
use site_model::Instance;
use std::alloc::Global;

/// What every node of a certificate is judged by: the instance, the listed points, and how many undominated states a
/// replay may keep.
#[derive(Drop)]
pub(crate) struct Judge<'a> {
    pub alloc: Global,
    pub inst: &'a Instance,
    pub points: &'a [Listed],
    pub labels: u64,
}

/// Where a node stands: its number from 1, its region, the cuts on the path to it, and whether its parent is a cut.
#[derive(Drop)]
pub(crate) struct Spot<'a> {
    pub index: u64,
    pub context: &'a Context,
    pub cuts: &'a [CutOnPath],
    pub under_cut: bool,
}

/// What an accepted node does on its branch: it ends there, it adds a cut, or it has two parts.
#[derive(Drop)]
pub(crate) enum Judged {
    Leaf,
    Below(CutOnPath),
    Parts(Context, Context),
}
