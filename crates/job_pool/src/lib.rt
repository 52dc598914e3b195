//! Jobs that share nothing that changes, worked beside each other, with the answers in the jobs' order.
//!
//! Stands on std alone, and its `join` is the only call on threads. A job's trait has a ghost member that says which
//! answers fit it. The contract of `run_jobs` says that there are as many answers as jobs, and that each fits the job of
//! the same place, for every number of workers and whatever the order in which the jobs end. That jobs do run beside
//! each other no contract can say: a test shows it.
#![tactic(auto)]

ghost use Rattle.std.specs.List.{AllZip};
ghost use Rattle.std.specs.Prelude.{◌≡◌, ℕ, ◌+◌, ◌<◌, ◌≤◌, ◌^◌, IfOk, length};
ghost use denote.Param.Send.{IsSend, IsSync};

use std::alloc::{AllocError, Global};
use std::thread::{Threads, join};

/// A piece of work that only reads what it shares with others.
pub trait Job: Sync {
    type Answer: Send + Drop;

    // which answers fit the job
    ghost fits: { Self → Self.Answer → Type 0 };

    /// Does the work. The only error is want of memory.
    fn work(&self, alloc: Global) -> Result<Self::Answer, AllocError>
        ensures { IfOk result (λ answer. fits self.now answer) };
}

/// What each job passes before its work begins. It takes no memory, and no answer depends on it.
pub trait Gate: Sync {
    /// The job with this number, counted from 1, begins.
    fn enter(&self, job: u64);
}

/// The gate that does nothing.
#[derive(Clone, Copy)]
pub struct NoGate;

impl Gate for NoGate {
    fn enter(&self, _job: u64) {}
}

/// Works every job, by at most `workers` threads: 1 to 16. The answers stand in the order of the jobs. Want of memory in
/// one job is the answer of the whole call.
pub fn run_jobs<R: Threads + Sync, J: Job, G: Gate>(
    rt: &R,
    alloc: Global,
    jobs: &[J],
    workers: u32,
    gate: &G,
) -> Result<Vec<J::Answer>, AllocError>
    requires few_workers { (1 ≤ workers) × (workers ≤ 16) }
    ensures { IfOk result (λ answers. AllZip J.fits jobs.now answers.items) }
{
    work_part(rt, alloc, jobs, 0, workers, gate)
}

/// Works the jobs of one part, before which `before` jobs stand. With more than one worker the part is halved.
#[cycle(part)]
fn work_part<R: Threads + Sync, J: Job, G: Gate>(
    rt: &R,
    alloc: Global,
    jobs: &[J],
    before: u64,
    workers: u32,
    gate: &G,
) -> Result<Vec<J::Answer>, AllocError>
    requires room { before + length jobs.now < 2 ^ 64 }
    ensures { IfOk result (λ answers. AllZip J.fits jobs.now answers.items) }
{
    if workers < 2 || jobs.len() < 2 {
        return work_in_turn(alloc, jobs, before, gate);
    }
    let middle = jobs.len() / 2;
    let (front, back) = jobs.split_at(middle);
    let back_before = before + middle as u64;
    let back_workers = workers - workers / 2;
    let work_front = move || -> Result<Vec<J::Answer>, AllocError>
        requires { IsSync R.row × IsSync J.row × IsSync G.row × IsSend J.Answer.row
            × (before + length front.now < 2 ^ 64) }
        ensures { IfOk result (λ answers. AllZip J.fits front.entry.now answers.items) }
    { work_part(rt, alloc, front, before, workers / 2, gate) };
    let work_back = move || -> Result<Vec<J::Answer>, AllocError>
        requires { IsSync R.row × IsSync J.row × IsSync G.row × IsSend J.Answer.row
            × (back_before + length back.now < 2 ^ 64) }
        ensures { IfOk result (λ answers. AllZip J.fits back.entry.now answers.items) }
    { work_part(rt, alloc, back, back_before, back_workers, gate) };
    let (front_answers, back_answers) = join(rt, work_front, work_back);
    let mut answers = front_answers?;
    let mut rest = back_answers?;
    answers.append(&mut rest)?;
    Ok(answers)
}

/// Works the jobs of one part one after another.
fn work_in_turn<J: Job, G: Gate>(
    alloc: Global,
    jobs: &[J],
    before: u64,
    gate: &G,
) -> Result<Vec<J::Answer>, AllocError>
    requires room { before + length jobs.now < 2 ^ 64 }
    ensures { IfOk result (λ answers. AllZip J.fits jobs.now answers.items) }
{
    let mut answers = Vec::new(alloc);
    for (index, job) in jobs.iter().enumerate() {
        gate.enter(before + index as u64 + 1);
        answers.push(job.work(alloc)?)?;
    }
    Ok(answers)
}

#[cfg(test)]
mod tests;
