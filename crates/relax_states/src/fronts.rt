//! Fronts of walks under a price, settled by number of calls. They are advice: no proof rests on them.

use crate::legs::{Leg, Legs, Stop};
use std::alloc::{AllocError, Global};

/// A front, ordered by its value from the greatest, then by its clock and by the calls that it holds: so none covers one before it.
#[derive(Clone, Copy, Debug, PartialEq, Eq, PartialOrd, Ord)]
pub(crate) struct Front {
    /// Its value below 0.
    pub loss: i64,
    clock: u64,
    /// The marks of the critical calls on it.
    held: u64,
    /// The last call, 0 at the start.
    pub call: u32,
    /// The place of the front that was extended.
    pub parent: usize,
}

/// What others are compared with.
#[derive(Clone, Copy, Debug, PartialEq, Eq, PartialOrd, Ord)]
struct Rival {
    loss: i64,
    clock: u64,
    held: u64,
}

/// Fronts of one call, from one place to before another.
#[derive(Clone, Copy, Debug, PartialEq, Eq)]
struct Run {
    call: u32,
    begin: usize,
    end: usize,
}

/// The settled fronts, and what they are settled with.
#[derive(Drop)]
struct Settling {
    fronts: Vec<Front>,
    /// By call, from 1 on, by falling value.
    rows: Vec<Vec<Rival>>,
    bucket: Vec<Front>,
    fresh: Vec<Rival>,
}

impl Front {
    fn rival(self) -> Rival {
        Rival {
            loss: self.loss,
            clock: self.clock,
            held: self.held,
        }
    }

    /// The front at a place, extended to a call.
    fn extended(self, place: usize, leg: Leg, stop: Stop) -> Option<Front> {
        if self.held & stop.mark != 0 {
            return None;
        }
        let clock = self.clock.saturating_add(leg.time).max(stop.opening);
        if stop.latest < clock {
            return None;
        }
        Some(Front {
            loss: self.loss.saturating_sub(leg.worth),
            clock,
            held: self.held | stop.mark,
            call: stop.call,
            parent: place,
        })
    }
}

/// Whether a front of the row, which stands by falling value, is at least as good.
fn is_covered(row: &[Rival], front: Front) -> bool {
    let greater = row.partition_point(|rival| rival.loss <= front.loss);
    row.iter().take(greater).any(|rival| rival.clock <= front.clock
        && rival.held & front.held == rival.held)
}

impl Settling {
    /// The start alone.
    fn new(alloc: Global, legs: &Legs) -> Result<Settling, AllocError> {
        let mut fronts = Vec::new(alloc);
        fronts.push(Front {
            loss: 0,
            clock: legs.opening(),
            held: 0,
            call: 0,
            parent: 0,
        })?;
        let mut rows = Vec::new(alloc);
        for _ in 0..legs.calls() {
            rows.push(Vec::new(alloc))?;
        }
        Ok(Settling {
            fronts,
            rows,
            bucket: Vec::new(alloc),
            fresh: Vec::new(alloc),
        })
    }

    /// Puts the extensions of a run to a call into the bucket.
    fn extend_run(&mut self, run: Run, leg: Leg, stop: Stop) -> Result<(), AllocError> {
        let fronts = self
            .fronts
            .as_slice()
            .get(run.begin..run.end)
            .unwrap_or(&[]);
        let mut place = run.begin;
        for front in fronts {
            if let Some(longer) = front.extended(place, leg, stop) {
                self.bucket.push(longer)?;
            }
            place = place.wrapping_add(1);
        }
        Ok(())
    }

    /// Keeps the fronts of the bucket that none covers.
    fn take_bucket(&mut self, before: usize) -> Result<(), AllocError> {
        let Some(row) = self.rows.get_mut(before) else {
            return Ok(());
        };
        self.bucket.sort()?;
        self.fresh.clear();
        for front in self.bucket.iter() {
            if !is_covered(row.as_slice(), *front) && !is_covered(self.fresh.as_slice(), *front) {
                self.fresh.push(front.rival())?;
                self.fronts.push(*front)?;
            }
        }
        row.extend_from_slice(self.fresh.as_slice())?;
        row.sort()
    }

    /// Adds the fronts that are one call longer than those of the runs to a call.
    fn add_call(
        &mut self,
        legs: &Legs,
        runs: &[Run],
        before: usize,
        stop: Stop,
    ) -> Result<Run, AllocError> {
        self.bucket.clear();
        for run in runs {
            if let Some(leg) = legs.leg(run.call, stop.call) {
                self.extend_run(*run, leg, stop)?;
            }
        }
        let begin = self.fronts.len();
        self.take_bucket(before)?;
        Ok(Run {
            call: stop.call,
            begin,
            end: self.fronts.len(),
        })
    }

    /// Adds the fronts that are one call longer than those of the runs; none where there are more than the limit.
    fn next_layer(
        &mut self,
        alloc: Global,
        legs: &Legs,
        runs: &[Run],
        limit: u64,
    ) -> Result<Option<Vec<Run>>, AllocError> {
        let mut next = Vec::new(alloc);
        for (before, stop) in legs.stops().iter().enumerate() {
            let run = self.add_call(legs, runs, before, *stop)?;
            if self.fronts.len() as u64 > limit {
                return Ok(None);
            }
            if run.begin < run.end {
                next.push(run)?;
            }
        }
        Ok(Some(next))
    }
}

/// The fronts that none covers, the start first; none where there are more than the limit.
pub(crate) fn settled(
    alloc: Global,
    legs: &Legs,
    limit: u64,
) -> Result<Option<Vec<Front>>, AllocError> {
    let mut settling = Settling::new(alloc, legs)?;
    let mut runs = vec![in alloc; Run {
        call: 0,
        begin: 0,
        end: 1
    }; 1]?;
    for _ in 0..legs.calls() {
        match settling.next_layer(alloc, legs, runs.as_slice(), limit)? {
            Some(next) => runs = next,
            None => return Ok(None),
        }
        if runs.is_empty() {
            break;
        }
    }
    Ok(Some(settling.fronts))
}
