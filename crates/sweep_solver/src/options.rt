//! The solver, from its options on.

ghost use Rattle.std.specs.Prelude.{◌≡◌, ◌≤◌, IfOk};
ghost use Rattle.sweep_solver.specs.Solved.{IsSolved, start_plans};

use crate::search::solve_from;
use cert_text::Cert;
use insert_heur::{Weight, many_starts};
use orienteering::Plan;
use site_model::Instance;
use std::alloc::{AllocError, Global};
use std::thread::Threads;

/// How far a search goes, and where it begins.
#[derive(Clone, Copy, Debug, PartialEq, Eq)]
pub struct Options {
    /// The number of nodes at which the search stops, at least 1. Without it the search closes every box.
    pub nodes: Option<u64>,
    /// How many undominated states the replay of a cut may keep: 1 to 2,000,000.
    pub labels: u64,
    /// How many starting plans are made beside each other: 1 to 16.
    pub workers: u32,
    /// The seed of the starting plans.
    pub seed: u64,
}

/// Profit alone, by which the starting plans are made.
const PROFIT_ALONE: Weight = Weight { alpha: 1, beta: 0 };

/// The insertion plans of the seed and the three numbers after it.
pub(crate) fn starting_plans<R: Threads + Sync>(
    rt: &R,
    alloc: Global,
    inst: &Instance,
    options: &Options,
) -> Result<Vec<Plan>, AllocError>
    requires few_workers { (1 ≤ options.now.workers) × (options.now.workers ≤ 16) }
    ensures { IfOk result (λ plans. plans.items ≡ start_plans inst.now options.now.seed) }
{
    let seed = options.seed;
    let seeds = [
        seed,
        seed.wrapping_add(1),
        seed.wrapping_add(2),
        seed.wrapping_add(3),
    ];
    many_starts(rt, alloc, inst, &seeds, PROFIT_ALONE, options.workers)
}

/// A certificate of the instance that the checker accepts, with its points, the best that were found. With `nodes` the
/// search stops once there are so many, and the certificate has at most one more, and boxes only where it has so many;
/// without it the search closes every box, however long that takes. The four insertion plans of the seed and the three
/// numbers after it are where it begins. The only error is want of memory.
pub fn solve<R: Threads + Sync>(
    rt: &R,
    alloc: Global,
    inst: &Instance,
    options: &Options,
) -> Result<Cert, AllocError>
    requires few_workers { (1 ≤ options.now.workers) × (options.now.workers ≤ 16) }
    ensures { IfOk result (IsSolved inst.now options.now.labels options.now.nodes options.now.seed) }
{
    let starts = starting_plans(rt, alloc, inst, options)?;
    solve_from(alloc, inst, starts, options.nodes, options.labels)
}
