//! Trials of what a master's solution leans on.

ghost use Rattle.std.specs.Prelude.{◌≡◌, ◌≤ℤ◌, pos, IfOk};

use crate::corners::{CornerMaster, TIME_PARTS};
use crate::fixed::Fixed;
use crate::program::Basis;
use std::alloc::{AllocError, Global};
use std::marker::Model;

/// The most steps of a trial.
const MOST_STEPS: u32 = 100;

/// How many columns stand before that of the first call, less one: those of profit, the most and the fewest tours.
const BEFORE_CALLS: usize = 4;

/// A master over corners with its solution, to go back to. It is seen as the master is.
#[derive(Drop)]
pub struct SolvedMaster {
    pub(crate) master: CornerMaster,
    pub(crate) basis: Basis,
    pub(crate) value: i64,
}

impl Model for SolvedMaster {
    ghost use Rattle.std.specs.Prelude.{List, ℕ};

    ghost Value = { List ℕ };

    ghost view = { λ s. s.master };
}

impl SolvedMaster {
    /// The places of the tours, in the order in which they were added.
    pub fn places(&self) -> &[u64]
        ensures { result.now ≡ self.now }
    {
        self.master.places()
    }

    /// Which columns are banned where these tours are lost, in the order in which they were added, and these calls visited.
    fn bans(&self, alloc: Global, lost: &[bool], visited: &[u32]) -> Result<Vec<bool>, AllocError> {
        let mut bans = vec![in alloc; false; self.master.first_tour]?;
        bans.extend_from_slice(lost)?;
        for call in visited {
            if let Some(ban) = bans.get_mut((*call as usize).saturating_add(BEFORE_CALLS)) {
                *ban = true;
            }
        }
        Ok(bans)
    }

    /// How many parts of a scaled unit of time the value rises by where these tours are lost, in the order in which they were
    /// added, and these calls visited: at most so many. The solution is as before then.
    pub fn gain(
        &mut self,
        alloc: Global,
        lost: &[bool],
        visited: &[u32],
        most: i64,
    ) -> Result<i64, AllocError>
        requires { pos 0 ≤ℤ most }
        ensures some { IfOk result (λ gain. pos 0 ≤ℤ gain) }
        ensures few { IfOk result (λ gain. gain ≤ℤ most) }
        ensures same { self.new ≡ self.old }
    {
        let bans = self.bans(alloc, lost, visited)?;
        let stop = Fixed::of(self.value.saturating_add(most) / TIME_PARTS + 1);
        let cost = self
            .master
            .program
            .solve_without(alloc, bans.as_slice(), stop, MOST_STEPS)?;
        self.master.program.go_back(&self.basis);
        match cost {
            None => Ok(most),
            Some(cost) => {
                let rise = cost.whole(TIME_PARTS).saturating_sub(self.value);
                Ok(rise.clamp(0, most))
            }
        }
    }
}
