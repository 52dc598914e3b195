//! Many insertion plans beside each other.

ghost use Rattle.std.specs.Prelude.{◌≡◌, ◌≤◌, map, IfOk};
ghost use Rattle.orienteering.specs.Price.{most_weight};
ghost use Rattle.insert_heur.specs.Insertion.{insertion};

use crate::candidates::Weight;
use crate::insertion::build;
use job_pool::{Job, NoGate, run_jobs};
use orienteering::Plan;
use site_model::Instance;
use std::alloc::{AllocError, Global};
use std::thread::Threads;

/// One insertion plan to be built.
#[derive(Drop)]
struct Start<'a> {
    inst: &'a Instance,
    seed: u64,
    weight: Weight,
    ghost alpha: { weight.alpha ≤ most_weight },
    ghost beta: { weight.beta ≤ most_weight },
}

impl Job for Start<'_> {
    type Answer = Plan;

    ghost fits = { λ job plan. plan ≡ insertion job.inst.now job.seed job.weight };

    fn work(&self, alloc: Global) -> Result<Plan, AllocError> {
        build(alloc, self.inst, self.seed, self.weight)
    }
}

/// One job for each seed.
fn starts<'a>(
    alloc: Global,
    inst: &'a Instance,
    seeds: &[u64],
    weight: Weight,
) -> Result<Vec<Start<'a>>, AllocError>
    requires alpha { weight.alpha ≤ most_weight }
    requires beta { weight.beta ≤ most_weight }
    ensures { IfOk result (λ jobs. map (λ job. insertion job.inst.now job.seed job.weight) jobs.items
        ≡ map (λ seed. insertion inst.now seed weight) seeds.now) }
{
    let mut jobs = Vec::new(alloc);
    for seed in seeds {
        jobs.push(Start {
            inst,
            seed: *seed,
            weight,
        })?;
    }
    Ok(jobs)
}

/// The insertion plan of each seed, in the seeds' order, by at most `workers` threads: 1 to 16.
pub fn many_starts<R: Threads + Sync>(
    rt: &R,
    alloc: Global,
    inst: &Instance,
    seeds: &[u64],
    weight: Weight,
    workers: u32,
) -> Result<Vec<Plan>, AllocError>
    requires alpha { weight.alpha ≤ most_weight }
    requires beta { weight.beta ≤ most_weight }
    requires few_workers { (1 ≤ workers) × (workers ≤ 16) }
    ensures { IfOk result (λ plans. plans.items ≡ map (λ seed. insertion inst.now seed weight) seeds.now) }
{
    let jobs = starts(alloc, inst, seeds, weight)?;
    run_jobs(rt, alloc, jobs.as_slice(), workers, &NoGate)
}
