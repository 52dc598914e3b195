//! The columns of a program, one behind the other.

use crate::fixed::Fixed;
use std::alloc::{AllocError, Global};

/// What a column adds to a row.
#[derive(Clone, Copy, Debug, PartialEq, Eq)]
pub(crate) struct Entry {
    pub row: u32,
    pub value: i32,
}

/// A column, without its entries.
#[derive(Clone, Copy, Debug, PartialEq, Eq)]
struct Head {
    cost: Fixed,
    /// Where its entries end.
    end: usize,
    /// It may not come in.
    is_barred: bool,
    /// It stands in the basis.
    is_held: bool,
}

/// Columns with their entries in one list.
#[derive(Drop)]
pub(crate) struct Columns {
    heads: Vec<Head>,
    entries: Vec<Entry>,
}

impl Columns {
    pub fn none(alloc: Global) -> Columns {
        Columns {
            heads: Vec::new(alloc),
            entries: Vec::new(alloc),
        }
    }

    pub fn count(&self) -> usize {
        self.heads.len()
    }

    /// Puts an entry to the column that is added next.
    pub fn put_entry(&mut self, row: usize, value: i64) -> Result<(), AllocError> {
        self.entries.push(Entry {
            row: row.min(u32::MAX as usize) as u32,
            value: value.clamp(i64::from(i32::MIN), i64::from(i32::MAX)) as i32,
        })?;
        Ok(())
    }

    /// Adds the column of the entries that were put.
    pub fn close(&mut self, cost: Fixed, is_barred: bool) -> Result<(), AllocError> {
        let end = self.entries.len();
        self.heads.push(Head {
            cost,
            end,
            is_barred,
            is_held: false,
        })?;
        Ok(())
    }

    pub fn cost(&self, column: usize) -> Fixed {
        match self.heads.get(column) {
            Some(head) => head.cost,
            None => Fixed::ZERO,
        }
    }

    pub fn set_cost(&mut self, column: usize, cost: Fixed) {
        if let Some(head) = self.heads.get_mut(column) {
            head.cost = cost;
        }
    }

    /// Whether the column may come into the basis.
    pub fn may_enter(&self, column: usize) -> bool {
        match self.heads.get(column) {
            Some(head) => !head.is_barred && !head.is_held,
            None => false,
        }
    }

    pub fn set_held(&mut self, column: usize, is_held: bool) {
        if let Some(head) = self.heads.get_mut(column) {
            head.is_held = is_held;
        }
    }

    fn begin(&self, column: usize) -> usize {
        match column.checked_sub(1) {
            Some(before) => match self.heads.get(before) {
                Some(head) => head.end,
                None => 0,
            },
            None => 0,
        }
    }

    fn end(&self, column: usize) -> usize {
        match self.heads.get(column) {
            Some(head) => head.end,
            None => 0,
        }
    }

    pub fn entries(&self, column: usize) -> &[Entry] {
        self.entries
            .as_slice()
            .get(self.begin(column)..self.end(column))
            .unwrap_or(&[])
    }

    /// The sum of the entries by their rows' numbers.
    pub fn sum(&self, column: usize, rows: &[Fixed]) -> Fixed {
        let mut sum = Fixed::ZERO;
        for entry in self.entries(column) {
            if let Some(value) = rows.get(entry.row as usize) {
                sum = sum.plus(value.times_whole(entry.value));
            }
        }
        sum
    }
}
