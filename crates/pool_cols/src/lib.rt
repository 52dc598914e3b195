//! The pool of tours that prices are improved over.
//!
//! Stands on `tour_check` for the points of tours and on `indexmap`. A `Pool` is seen as the list of its tours with their
//! points, in the order of arrival, each tour once. Every contract is an equation with that list: a tour is found by its
//! hash, and by its place in one step.
#![tactic(auto)]

ghost use Rattle.std.specs.Prelude.{◌≡◌, ◌≤◌, ◌<◌, ◌↔◌, IfOk, OnOk, OnErr, IfSome, IsNone, Some, [], length, slice_get};
ghost use Rattle.orienteering.specs.Tour.{IsFeasibleTour};
ghost use Rattle.pool_cols.specs.Pool.{IsOnceEach, IsPoolOf, place_of, with_tour};

mod key;

use crate::key::Key;
use indexmap::IndexMap;
use orienteering::{Point, Tour};
use site_model::Instance;
use std::alloc::{AllocError, Global};
use std::marker::Model;
use tour_check::tour_point;

/// Tours with their points, each once, in the order of arrival.
#[derive(Drop)]
pub struct Pool {
    columns: IndexMap<Key, Point>,
}

impl Model for Pool {
    ghost use Rattle.std.specs.Prelude.{List};
    ghost use Rattle.pool_cols.specs.Pool.{Column};

    ghost Value = { List Column };

    ghost view = { λ p. p.columns.entries };
}

impl Pool {
    /// A pool of no tour. It keeps the allocator for what is added later.
    pub fn new(alloc: Global) -> Result<Pool, AllocError>
        ensures { IfOk result (λ pool. pool ≡ []) }
    {
        Ok(Pool {
            columns: IndexMap::new(alloc),
        })
    }

    /// Adds the tour, unless it is there, and answers its place, counted from 0. A new tour goes last. After want of memory
    /// nothing is changed, and the tour is dropped.
    pub fn add(&mut self, inst: &Instance, tour: Tour) -> Result<u64, AllocError>
        requires { IsFeasibleTour inst.now tour }
        ensures place { IfOk result (λ place. place ≡ place_of self.old tour) }
        ensures pool { OnOk result (self.new ≡ with_tour inst.now self.old tour) }
        ensures unchanged { OnErr result (self.new ≡ self.old) }
        ensures kept { IsPoolOf inst.now self.old → IsPoolOf inst.now self.new }
    {
        let point = tour_point(inst, &tour);
        let key = Key { tour };
        match self.columns.get_index_of(&key) {
            Some(place) => Ok(place as u64),
            None => {
                let (place, _) = self.columns.insert_full(key, point)?;
                Ok(place as u64)
            }
        }
    }

    /// The tour at a place, counted from 0, with its point; None where no tour has the place.
    pub fn get(&self, place: u64) -> Option<(&Tour, Point)>
        ensures column { IfSome result (λ column. slice_get self.now place ≡ Some (column.0.now, column.1)) }
        ensures none { IsNone result ↔ (length self.now ≤ place) }
    {
        let (key, point) = self.columns.get_index(place as usize)?;
        Some((&key.tour, *point))
    }

    /// How many tours there are.
    pub fn len(&self) -> u64
        ensures value { result ≡ length self.now }
        ensures once { IsOnceEach self.now }
    {
        self.columns.len() as u64
    }
}

#[cfg(test)]
mod tests;
