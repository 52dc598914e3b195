//! Linear programs in fixed point, solved by the revised primal simplex method (Dantzig and Orchard-Hays 1954). The solution is
//! advice: it is wrong where numbers leave their range or the method is stopped, and no proof leans on it.

use crate::columns::Columns;
use crate::fixed::Fixed;
use std::alloc::{AllocError, Global};

/// How far a row may be from its right side.
#[derive(Clone, Copy, Debug, PartialEq, Eq)]
pub(crate) enum Slack {
    /// Not at all.
    None,
    /// Below it.
    Below,
    /// Above it.
    Above,
}

/// A row: the columns add up to the right side, up to its slack.
#[derive(Clone, Copy, Debug, PartialEq, Eq)]
pub(crate) struct Row {
    /// At least 0.
    pub right: i64,
    pub slack: Slack,
    /// What each unit costs that the columns don't add. It is left out where the row can be 0 by itself.
    pub artificial: Option<i64>,
}

/// How many steps a solution may take.
const MOST_STEPS: u32 = 4000;

/// How many steps without gain are taken before columns come in by their number.
const MOST_FLAT: u32 = 60;

/// A linear program: the least cost of parts of columns, none below 0, that add up to the right sides.
#[derive(Drop)]
pub(crate) struct Program {
    columns: Columns,
    /// The column of each row that is in the basis.
    basis: Vec<usize>,
    /// The inverse of the basis, by rows.
    inverse: Vec<Vec<Fixed>>,
    /// The part of the basis' column of each row.
    parts: Vec<Fixed>,
    duals: Vec<Fixed>,
}

/// A basis of a program, to go back to.
#[derive(Drop)]
pub(crate) struct Basis {
    columns: Vec<usize>,
    inverse: Vec<Vec<Fixed>>,
    parts: Vec<Fixed>,
}

/// A column that may come in, and what a unit of it changes the cost by: less than 0.
#[derive(Clone, Copy, Debug, PartialEq, Eq)]
struct Saving {
    column: usize,
    cost: Fixed,
}

/// The row of a basis that gives way, and the part that comes in.
#[derive(Clone, Copy, Debug, PartialEq, Eq)]
struct Leaving {
    row: usize,
    part: Fixed,
}

impl Program {
    /// A program of these rows, without columns.
    pub fn new(alloc: Global, rows: &[Row]) -> Result<Program, AllocError> {
        let mut program = Program {
            columns: Columns::none(alloc),
            basis: Vec::new(alloc),
            inverse: Vec::new(alloc),
            parts: Vec::new(alloc),
            duals: Vec::new(alloc),
        };
        for (place, row) in rows.iter().enumerate() {
            program.add_row(alloc, place, rows.len(), *row)?;
        }
        Ok(program)
    }

    fn add_row(
        &mut self,
        alloc: Global,
        place: usize,
        rows: usize,
        row: Row,
    ) -> Result<(), AllocError> {
        match row.slack {
            Slack::None => {}
            Slack::Below => self.add_unit(place, 1, Fixed::ZERO, false)?,
            Slack::Above => self.add_unit(place, -1, Fixed::ZERO, false)?,
        }
        if let Some(cost) = row.artificial {
            self.add_unit(place, 1, Fixed::of(cost), true)?;
        }
        let last = self.columns.count().saturating_sub(1);
        self.columns.set_held(last, true);
        self.basis.push(last)?;
        let mut line = vec![in alloc; Fixed::ZERO; rows]?;
        if let Some(own) = line.get_mut(place) {
            *own = Fixed::of(1);
        }
        self.inverse.push(line)?;
        self.parts.push(Fixed::of(row.right))?;
        self.duals.push(Fixed::ZERO)?;
        Ok(())
    }

    fn add_unit(
        &mut self,
        row: usize,
        value: i64,
        cost: Fixed,
        is_barred: bool,
    ) -> Result<(), AllocError> {
        self.columns.put_entry(row, value)?;
        self.columns.close(cost, is_barred)
    }

    /// Puts an entry to the column that is added next.
    pub fn put_entry(&mut self, row: usize, value: i64) -> Result<(), AllocError> {
        self.columns.put_entry(row, value)
    }

    /// Adds the column of the entries that were put, and answers its number.
    pub fn add_column(&mut self, cost: i64) -> Result<usize, AllocError> {
        let column = self.columns.count();
        self.columns.close(Fixed::of(cost), false)?;
        Ok(column)
    }

    pub fn columns(&self) -> usize {
        self.columns.count()
    }

    pub fn set_cost(&mut self, column: usize, cost: i64) {
        self.columns.set_cost(column, Fixed::of(cost));
    }

    /// The dual of a row after `solve`: what the cost would rise by with its right side.
    pub fn dual(&self, row: usize) -> Fixed {
        match self.duals.get(row) {
            Some(dual) => *dual,
            None => Fixed::ZERO,
        }
    }

    /// What a unit of the column would change the cost by, after `solve`.
    pub fn reduced_cost(&self, column: usize) -> Fixed {
        let sum = self.columns.sum(column, self.duals.as_slice());
        self.columns.cost(column).minus(sum)
    }

    /// The columns that have a part after `solve`.
    pub fn shares(&self, alloc: Global) -> Result<Vec<(usize, Fixed)>, AllocError> {
        let mut shares = Vec::new(alloc);
        for (column, part) in self.basis.iter().zip(self.parts.iter()) {
            if Fixed::SMALL.is_less(*part) {
                shares.push((*column, *part))?;
            }
        }
        Ok(shares)
    }

    fn find_duals(&mut self) {
        for dual in self.duals.iter_mut() {
            *dual = Fixed::ZERO;
        }
        for (column, line) in self.basis.iter().zip(self.inverse.iter()) {
            let cost = self.columns.cost(*column);
            if cost.is_zero() {
                continue;
            }
            for (dual, value) in self.duals.iter_mut().zip(line.iter()) {
                *dual = dual.plus(cost.times(*value));
            }
        }
    }

    /// The first column that saves.
    fn first_saving(&self) -> Option<Saving> {
        for column in 0..self.columns.count() {
            if let Some(saving) = self.saving(column) {
                return Some(saving);
            }
        }
        None
    }

    /// What a unit of the column saves, if it may come in and saves anything.
    fn saving(&self, column: usize) -> Option<Saving> {
        if !self.columns.may_enter(column) {
            return None;
        }
        let cost = self.reduced_cost(column);
        if cost.is_less(Fixed::SMALL_COST.negated()) {
            Some(Saving { column, cost })
        } else {
            None
        }
    }

    /// Lists the columns that save at least half as much as the one that saves most.
    fn find_savings(&self, savings: &mut Vec<Saving>) -> Result<(), AllocError> {
        savings.clear();
        let mut least = Fixed::ZERO;
        for column in 0..self.columns.count() {
            if let Some(saving) = self.saving(column) {
                if saving.cost.is_less(least) {
                    least = saving.cost;
                }
                if !least.half().is_less(saving.cost) {
                    savings.push(saving)?;
                }
            }
        }
        Ok(())
    }

    /// The listed column that saves most now.
    fn greatest_saving(&self, savings: &[Saving]) -> Option<Saving> {
        let mut best: Option<Saving> = None;
        for listed in savings {
            if let Some(saving) = self.saving(listed.column) {
                if best.is_none_or(|best| saving.cost.is_less(best.cost)) {
                    best = Some(saving);
                }
            }
        }
        best
    }

    /// The column that comes in: the one of the list that saves most, and of a new list where none of it saves; or, where the
    /// cost stands still, the first that saves.
    fn entering(
        &mut self,
        savings: &mut Vec<Saving>,
        takes_first: bool,
    ) -> Result<Option<Saving>, AllocError> {
        if takes_first {
            self.find_duals();
            return Ok(self.first_saving());
        }
        if let Some(saving) = self.greatest_saving(savings.as_slice()) {
            return Ok(Some(saving));
        }
        self.find_duals();
        self.find_savings(savings)?;
        Ok(self.greatest_saving(savings.as_slice()))
    }

    /// Brings the duals to a basis into which a column came whose unit saved so much, by its row's new line.
    fn move_duals(&mut self, cost: Fixed, line: &[Fixed]) {
        for (dual, value) in self.duals.iter_mut().zip(line.iter()) {
            *dual = dual.plus(cost.times(*value));
        }
    }

    /// What a unit of the column takes from the part of each row.
    fn find_direction(&self, column: usize, direction: &mut Vec<Fixed>) -> Result<(), AllocError> {
        direction.clear();
        for line in self.inverse.iter() {
            direction.push(self.columns.sum(column, line.as_slice()))?;
        }
        Ok(())
    }

    /// The row that is used up first.
    fn leaving(&self, direction: &[Fixed]) -> Option<Leaving> {
        let mut best: Option<Leaving> = None;
        for (row, step) in direction.iter().enumerate() {
            if !Fixed::SMALL.is_less(*step) {
                continue;
            }
            let part = match self.parts.get(row) {
                Some(part) => part.over(*step),
                None => Fixed::ZERO,
            };
            let is_better = match best {
                None => true,
                Some(best) => part.is_less(best.part),
            };
            if is_better {
                best = Some(Leaving { row, part });
            }
        }
        best
    }

    /// Takes a column into the basis in the place of a row's.
    fn exchange(
        &mut self,
        column: usize,
        leaving: Leaving,
        direction: &[Fixed],
        line: &mut Vec<Fixed>,
    ) -> Result<(), AllocError> {
        let step = direction.get(leaving.row).copied().unwrap_or(Fixed::of(1));
        line.clear();
        if let Some(old) = self.inverse.get(leaving.row) {
            for value in old.iter() {
                line.push(value.over(step))?;
            }
        }
        for (place, step) in direction.iter().enumerate() {
            if place == leaving.row {
                self.put_line(place, line.as_slice(), leaving.part);
            } else if !step.is_zero() {
                self.take_line(place, line.as_slice(), *step, leaving.part);
            }
        }
        if let Some(old) = self.basis.get_mut(leaving.row) {
            self.columns.set_held(*old, false);
            *old = column;
        }
        self.columns.set_held(column, true);
        Ok(())
    }

    fn put_line(&mut self, row: usize, line: &[Fixed], part: Fixed) {
        if let Some(own) = self.inverse.get_mut(row) {
            for (value, new) in own.iter_mut().zip(line.iter()) {
                *value = *new;
            }
        }
        if let Some(own) = self.parts.get_mut(row) {
            *own = part;
        }
    }

    fn take_line(&mut self, row: usize, line: &[Fixed], step: Fixed, part: Fixed) {
        if let Some(own) = self.inverse.get_mut(row) {
            for (value, new) in own.iter_mut().zip(line.iter()) {
                *value = value.minus(step.times(*new));
            }
        }
        if let Some(own) = self.parts.get_mut(row) {
            *own = own.minus(step.times(part));
        }
    }

    /// Takes parts that rounding has brought below 0 for 0.
    fn lift_parts(&mut self) {
        for part in self.parts.iter_mut() {
            if part.is_less(Fixed::ZERO) {
                *part = Fixed::ZERO;
            }
        }
    }

    /// The cost of the parts.
    pub fn cost(&self) -> Fixed {
        let mut cost = Fixed::ZERO;
        for (column, part) in self.basis.iter().zip(self.parts.iter()) {
            cost = cost.plus(self.columns.cost(*column).times(*part));
        }
        cost
    }

    /// Goes on from the parts so far to those of least cost.
    pub fn solve(&mut self, alloc: Global) -> Result<(), AllocError> {
        let mut direction = Vec::new(alloc);
        let mut line = Vec::new(alloc);
        let mut savings = Vec::new(alloc);
        let mut flat: u32 = 0;
        for _ in 0..MOST_STEPS {
            let Some(saving) = self.entering(&mut savings, flat > MOST_FLAT)? else {
                return Ok(());
            };
            self.find_direction(saving.column, &mut direction)?;
            let Some(leaving) = self.leaving(direction.as_slice()) else {
                return Ok(());
            };
            flat = if Fixed::SMALL.is_less(leaving.part) {
                0
            } else {
                flat.saturating_add(1)
            };
            self.exchange(saving.column, leaving, direction.as_slice(), &mut line)?;
            self.move_duals(saving.cost, line.as_slice());
            self.lift_parts();
        }
        Ok(())
    }

    /// The basis as it is.
    pub fn basis(&self, alloc: Global) -> Result<Basis, AllocError> {
        let mut basis = Basis {
            columns: Vec::new(alloc),
            inverse: Vec::new(alloc),
            parts: Vec::new(alloc),
        };
        basis.columns.extend_from_slice(self.basis.as_slice())?;
        basis.parts.extend_from_slice(self.parts.as_slice())?;
        for line in self.inverse.iter() {
            let mut copy = Vec::new(alloc);
            copy.extend_from_slice(line.as_slice())?;
            basis.inverse.push(copy)?;
        }
        Ok(basis)
    }

    /// Goes back to an earlier basis.
    pub fn go_back(&mut self, to: &Basis) {
        for column in self.basis.iter() {
            self.columns.set_held(*column, false);
        }
        for (own, column) in self.basis.iter_mut().zip(to.columns.iter()) {
            *own = *column;
            self.columns.set_held(*column, true);
        }
        for (own, part) in self.parts.iter_mut().zip(to.parts.iter()) {
            *own = *part;
        }
        for (own, line) in self.inverse.iter_mut().zip(to.inverse.iter()) {
            for (value, old) in own.iter_mut().zip(line.iter()) {
                *value = *old;
            }
        }
    }

    /// The row that is farthest from what it may be: a part below 0, or one of a banned column.
    fn worst_row(&self, bans: &[bool]) -> Option<usize> {
        let mut worst = Fixed::SMALL;
        let mut found = None;
        for (row, (column, part)) in self.basis.iter().zip(self.parts.iter()).enumerate() {
            let miss = if part.is_less(Fixed::ZERO) {
                part.negated()
            } else if bans.get(*column).copied().unwrap_or(false) {
                *part
            } else {
                Fixed::ZERO
            };
            if worst.is_less(miss) {
                worst = miss;
                found = Some(row);
            }
        }
        found
    }

    /// The column that comes in for a row at the least cost.
    fn entering_for(&self, row: usize, bans: &[bool]) -> Option<usize> {
        let line = self.inverse.get(row)?;
        let is_above = Fixed::ZERO.is_less(*self.parts.get(row)?);
        let mut least = Fixed::ZERO;
        let mut found = None;
        for column in 0..self.columns.count() {
            if !self.columns.may_enter(column) || bans.get(column).copied().unwrap_or(false) {
                continue;
            }
            let sum = self.columns.sum(column, line.as_slice());
            let step = if is_above { sum } else { sum.negated() };
            if !Fixed::SMALL.is_less(step) {
                continue;
            }
            let cost = self.reduced_cost(column);
            let rate = if cost.is_less(Fixed::ZERO) {
                Fixed::ZERO
            } else {
                cost.over(step)
            };
            if found.is_none() || rate.is_less(least) {
                found = Some(column);
                least = rate;
            }
        }
        found
    }

    /// Goes on, by the dual simplex method (Lemke 1954), to parts in which banned columns have none, until the cost is more
    /// than `stop` or so many steps are taken. Answers the cost then, none where no parts are left.
    pub fn solve_without(
        &mut self,
        alloc: Global,
        bans: &[bool],
        stop: Fixed,
        steps: u32,
    ) -> Result<Option<Fixed>, AllocError> {
        let mut direction = Vec::new(alloc);
        let mut line = Vec::new(alloc);
        for _ in 0..steps {
            let cost = self.cost();
            let Some(row) = self.worst_row(bans) else {
                return Ok(Some(cost));
            };
            if stop.is_less(cost) {
                return Ok(Some(cost));
            }
            self.find_duals();
            let Some(column) = self.entering_for(row, bans) else {
                return Ok(None);
            };
            self.find_direction(column, &mut direction)?;
            let step = direction.get(row).copied().unwrap_or(Fixed::of(1));
            let part = self.parts.get(row).copied().unwrap_or(Fixed::ZERO);
            let leaving = Leaving {
                row,
                part: part.over(step),
            };
            self.exchange(column, leaving, direction.as_slice(), &mut line)?;
        }
        Ok(Some(self.cost()))
    }
}
