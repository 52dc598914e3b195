ghost use Rattle.std.specs.Prelude.{◌≡◌, ◌≤◌};

use crate::{Gate, Job, NoGate, run_jobs};
use std::alloc::{AllocError, Global};
use std::sync::atomic::{AtomicBool, AtomicU64, Ordering};
use std::test::Fail;
use std::thread::Threads;

/// How often a flag is read before it counts as not raised.
const TURNS: u32 = 200_000_000;

/// Raises a flag, and then waits for another one for a bounded number of reads.
fn sees_after_raising(mine: &AtomicBool, theirs: &AtomicBool) -> bool {
    mine.store(true, Ordering::SeqCst);
    for _ in 0..TURNS {
        if theirs.load(Ordering::SeqCst) {
            return true;
        }
    }
    false
}

/// Answers whether it saw the other job's flag.
#[derive(Drop)]
struct Meeting<'a> {
    mine: &'a AtomicBool,
    theirs: &'a AtomicBool,
}

impl Job for Meeting<'_> {
    type Answer = bool;

    ghost fits = { λ _ _. Unit {0} };

    fn work(&self, _alloc: Global) -> Result<bool, AllocError> {
        Ok(sees_after_raising(self.mine, self.theirs))
    }
}

#[test]
fn jobs_beside_each_other(rt: HostRuntime) -> Result<(), Fail> {
    let first = AtomicBool::new(false);
    let second = AtomicBool::new(false);
    let jobs = [
        Meeting {
            mine: &first,
            theirs: &second,
        },
        Meeting {
            mine: &second,
            theirs: &first,
        },
    ];
    let answers = run_jobs(&rt, rt.alloc(), &jobs, 2, &NoGate)?;
    assert!(rt; answers.as_slice() == [true, true].as_slice());
    Ok(())
}

/// A job that answers its own number.
#[derive(Drop)]
struct Numbered(u32);

impl Job for Numbered {
    type Answer = u32;

    ghost fits = { λ job answer. answer ≡ job.0 };

    fn work(&self, _alloc: Global) -> Result<u32, AllocError> {
        Ok(self.0)
    }
}

/// Holds up the first and the third job until each has seen that the other was entered.
#[derive(Drop)]
struct FirstAndThird<'a> {
    first: &'a AtomicBool,
    third: &'a AtomicBool,
    first_saw: &'a AtomicBool,
    third_saw: &'a AtomicBool,
}

impl Gate for FirstAndThird<'_> {
    fn enter(&self, job: u64) {
        if job == 1 {
            self.first_saw.store(sees_after_raising(self.first, self.third), Ordering::SeqCst);
        }
        if job == 3 {
            self.third_saw.store(sees_after_raising(self.third, self.first), Ordering::SeqCst);
        }
    }
}

#[test]
fn gate_before_each_job(rt: HostRuntime) -> Result<(), Fail> {
    let first = AtomicBool::new(false);
    let third = AtomicBool::new(false);
    let first_saw = AtomicBool::new(false);
    let third_saw = AtomicBool::new(false);
    let gate = FirstAndThird {
        first: &first,
        third: &third,
        first_saw: &first_saw,
        third_saw: &third_saw,
    };
    let jobs = [Numbered(10), Numbered(20), Numbered(30), Numbered(40)];
    let answers = run_jobs(&rt, rt.alloc(), &jobs, 2, &gate)?;
    assert!(rt; answers.as_slice() == [10, 20, 30, 40].as_slice());
    assert!(rt; first_saw.load(Ordering::SeqCst));
    assert!(rt; third_saw.load(Ordering::SeqCst));
    Ok(())
}

#[test]
fn answers_by_place(rt: HostRuntime) -> Result<(), Fail> {
    let jobs = [Numbered(3), Numbered(1), Numbered(2)];
    for workers in [1, 2, 3, 16] {
        let answers = run_jobs(&rt, rt.alloc(), &jobs, workers, &NoGate)?;
        assert!(rt;
            answers.as_slice() == [3, 1, 2].as_slice(),
            "{workers} workers"
        );
    }
    Ok(())
}

/// The numbers with which a gate was entered: their sum, and a bit for each of those below 64.
#[derive(Drop)]
struct Entered {
    sum: AtomicU64,
    bits: AtomicU64,
}

/// The bit of a number.
fn bit(number: u64) -> u64 {
    if number < 64 { 1 << number } else { 0 }
}

impl Gate for Entered {
    fn enter(&self, job: u64) {
        self.sum.fetch_add(job, Ordering::SeqCst);
        self.bits.fetch_or(bit(job), Ordering::SeqCst);
    }
}

/// Answers whether its gate was entered with its number.
#[derive(Drop)]
struct Awaiting<'a> {
    number: u64,
    gate: &'a Entered,
}

impl Job for Awaiting<'_> {
    type Answer = bool;

    ghost fits = { λ _ _. Unit {0} };

    fn work(&self, _alloc: Global) -> Result<bool, AllocError> {
        Ok(self.gate.bits.load(Ordering::SeqCst) & bit(self.number) != 0)
    }
}

/// What becomes of so many jobs: how many there were whose gate was entered before, and the sum and the bits of the numbers.
fn seen_and_entered<R: Threads + Sync>(
    rt: &R,
    alloc: Global,
    jobs: u64,
    workers: u32,
) -> Result<(usize, u64, u64), Fail>
    requires { (1 ≤ workers) × (workers ≤ 16) }
{
    let gate = Entered {
        sum: AtomicU64::new(0),
        bits: AtomicU64::new(0),
    };
    let mut list = Vec::new(alloc);
    for before in 0..jobs {
        list.push(Awaiting {
            number: before + 1,
            gate: &gate,
        })?;
    }
    let answers = run_jobs(rt, alloc, list.as_slice(), workers, &gate)?;
    let seen = answers.iter().filter(|seen| **seen).count();
    Ok((
        seen,
        gate.sum.load(Ordering::SeqCst),
        gate.bits.load(Ordering::SeqCst),
    ))
}

#[test]
fn gate_entered_once_by_each(rt: HostRuntime) -> Result<(), Fail> {
    for workers in [1, 2, 3, 16] {
        for (jobs, expected) in [
            (1, (1, 1, 0b10)),
            (2, (2, 3, 0b110)),
            (3, (3, 6, 0b1110)),
            (4, (4, 10, 0b1_1110)),
            (5, (5, 15, 0b11_1110)),
        ] {
            let found = seen_and_entered(&rt, rt.alloc(), jobs, workers)?;
            assert!(rt; found == expected, "{jobs} jobs, {workers} workers");
        }
    }
    Ok(())
}
