//! The master over corners: the least time of a mixture of plans, less the time of a mixture of corners that earns no more.
//! Where its value is above 0, one price leaves out all of the corners, as far as the tours tell (Dantzig and Wolfe 1960).

ghost use Rattle.std.specs.Prelude.{◌≡◌, ◌≤◌, ◌++◌, ◌^◌, ◌∷◌, [], All, IfOk, vec_len};
ghost use Rattle.std.specs.List.{Contains};
ghost use Rattle.orienteering.specs.Price.{IsFit};
ghost use Rattle.orienteering.specs.Region.{is_forced};
ghost use Rattle.price_bound.specs.Magnitude.{IsWithin};
ghost use Rattle.dual_master.specs.Corners.{IsShareAmong};
ghost use Rattle.dual_master.specs.Search.{AreSought, most_worth};
ghost use Rattle.dual_master.specs.Shares.{whole_tour};

use crate::fixed::Fixed;
use crate::program::{Program, Row, Slack};
use crate::shares::WHOLE_TOUR;
use crate::table::{in_parts, listed};
use crate::trials::SolvedMaster;
use orienteering::{Box2, Entries, Point, Price};
use region_ctx::Context;
use std::alloc::{AllocError, Global};
use std::marker::Model;

/// Values of a master over corners are told in so many parts of a scaled unit of time.
pub const TIME_PARTS: i64 = 10_000;

/// The greatest weight of profit.
const MOST_ALPHA: i64 = 900_000_000;

/// The greatest weight of time.
const MOST_BETA: i64 = 1_000_000;

/// A value that is greater than any time or profit.
const MOST_VALUE: i64 = 1_000_000_000;

/// The most tours that are near a solution.
const MOST_NEAR: usize = 400;

/// The row of profit.
const PROFIT_ROW: usize = 0;

/// The row of the most tours.
const MOST_ROW: usize = 1;

/// The row of the fewest tours.
const FEWEST_ROW: usize = 2;

/// The row of a call is its number and so many.
const BEFORE_CALLS: usize = 2;

/// A program over corners and tours of a pool. It is seen as the places of its tours, in the order in which they were added.
#[derive(Drop)]
pub struct CornerMaster {
    pub(crate) program: Program,
    fewest: u32,
    /// The columns of the corners begin and end here; those of the tours come next.
    first_corner: usize,
    pub(crate) first_tour: usize,
    places: Vec<u64>,
    /// The cost of a corner that is left alone.
    far: i64,
}

impl Model for CornerMaster {
    ghost use Rattle.std.specs.Prelude.{List, ℕ};

    ghost Value = { List ℕ };

    ghost view = { λ m. m.places.items };
}

fn whole(value: u64) -> i64 {
    value.min(MOST_VALUE as u64) as i64
}

/// A part of a tour in parts of a million, at most all of them.
fn parts_of(part: Fixed) -> u32
    ensures { result ≤ whole_tour }
{
    let whole = i64::from(WHOLE_TOUR);
    part.whole(whole).clamp(0, whole) as u32
}

/// A row of a call: it is visited once, at most or exactly.
fn call_row(is_forced: bool, penalty: i64) -> Row {
    Row {
        right: 1,
        slack: if is_forced { Slack::None } else { Slack::Below },
        artificial: if is_forced { Some(penalty) } else { None },
    }
}

/// The rows: profit, the most and the fewest tours, the calls, and the corners.
fn rows(alloc: Global, ctx: &Context, penalty: i64, most: i64) -> Result<Vec<Row>, AllocError> {
    let (fewest, team) = ctx.counts();
    let mut rows = Vec::new(alloc);
    rows.push(Row {
        right: 0,
        slack: Slack::Above,
        artificial: Some(penalty),
    })?;
    rows.push(Row {
        right: i64::from(team),
        slack: Slack::Below,
        artificial: None,
    })?;
    rows.push(Row {
        right: i64::from(fewest),
        slack: Slack::Above,
        artificial: Some(penalty.saturating_mul(2)),
    })?;
    for before in 0..ctx.calls() {
        rows.push(call_row(ctx.forced(before + 1), penalty.saturating_mul(2)))?;
    }
    rows.push(Row {
        right: 1,
        slack: Slack::None,
        artificial: Some(most),
    })?;
    Ok(rows)
}

/// A program of the rows with the corners, whose row is the last.
fn program_of(alloc: Global, rows: &[Row], corners: &[Point]) -> Result<Program, AllocError> {
    let mut program = Program::new(alloc, rows)?;
    let last = rows.len().saturating_sub(1);
    for corner in corners {
        program.put_entry(PROFIT_ROW, whole(corner.profit).saturating_neg())?;
        program.put_entry(last, 1)?;
        program.add_column(whole(corner.time).saturating_neg())?;
    }
    Ok(program)
}

impl CornerMaster {
    /// The master of a region for some corners, without tours. `root` is the box of the whole instance.
    pub fn new(
        alloc: Global,
        ctx: &Context,
        root: Box2,
        corners: &[Point],
    ) -> Result<CornerMaster, AllocError>
        ensures { IfOk result (λ master. master ≡ []) }
    {
        let penalty = whole(root.t_hi).saturating_add(1).saturating_mul(64);
        let most = penalty
            .saturating_mul(2)
            .saturating_mul(whole(root.p_hi).saturating_add(1));
        let rows = rows(alloc, ctx, penalty, most)?;
        let program = program_of(alloc, rows.as_slice(), corners)?;
        let first_tour = program.columns();
        let (fewest, _) = ctx.counts();
        Ok(CornerMaster {
            program,
            fewest,
            first_corner: first_tour.saturating_sub(corners.len()),
            first_tour,
            places: Vec::new(alloc),
            far: most.saturating_mul(2),
        })
    }

    /// Adds a tour of the pool: its place, its calls and its point.
    pub fn add(&mut self, place: u64, calls: &[u32], point: Point) -> Result<(), AllocError>
        ensures { IfOk result (λ _. self.new ≡ self.old ++ place ∷ []) }
    {
        self.program.put_entry(PROFIT_ROW, whole(point.profit))?;
        self.program.put_entry(MOST_ROW, 1)?;
        if self.fewest > 0 {
            self.program.put_entry(FEWEST_ROW, 1)?;
        }
        for call in calls {
            self.program
                .put_entry((*call as usize).saturating_add(BEFORE_CALLS), 1)?;
        }
        self.program.add_column(whole(point.time))?;
        self.places.push(place)?;
        Ok(())
    }

    /// The places of the tours, in the order in which they were added.
    pub fn places(&self) -> &[u64]
        ensures { result.now ≡ self.now }
    {
        self.places.as_slice()
    }

    /// Leaves one of the corners alone.
    pub fn focus(&mut self, corner: usize, time: u64)
        ensures { self.new ≡ self.old }
    {
        for column in self.first_corner..self.first_tour {
            self.program.set_cost(column, self.far);
        }
        let column = self.first_corner.saturating_add(corner);
        if column < self.first_tour {
            self.program.set_cost(column, whole(time).saturating_neg());
        }
    }

    /// Solves the program, and answers its value in parts of a scaled unit of time.
    pub fn solve(&mut self, alloc: Global) -> Result<i64, AllocError>
        ensures { self.new ≡ self.old }
    {
        self.program.solve(alloc)?;
        Ok(self.program.cost().whole(TIME_PARTS))
    }

    /// The places of the tours that are in the solution or near it: those that raise the value by at most so many parts.
    pub fn near_places(&self, alloc: Global, most: i64) -> Result<Vec<u64>, AllocError>
        ensures places { IfOk result (λ near. All (Contains self.now) near.items) }
        ensures few { IfOk result (λ near. vec_len near ≤ 400) }
    {
        let mut near = Vec::new(alloc);
        self.put_near(i64::MIN, 1, &mut near)?;
        self.put_near(1, most, &mut near)?;
        Ok(near)
    }

    /// Puts the places of the tours whose reduced cost lies above one number and at most at another.
    fn put_near(&self, low: i64, high: i64, near: &mut Vec<u64>) -> Result<(), AllocError>
        requires places { All (Contains self.now) near.old.items }
        requires few { vec_len near.old ≤ 400 }
        ensures places { IfOk result (λ _. All (Contains self.now) near.new.items) }
        ensures few { IfOk result (λ _. vec_len near.new ≤ 400) }
    {
        let mut column = self.first_tour;
        for place in self.places.iter() {
            let cost = self.program.reduced_cost(column).whole(TIME_PARTS);
            if low < cost && cost <= high && near.len() < MOST_NEAR {
                near.push(*place)?;
            }
            column = column.saturating_add(1);
        }
        Ok(())
    }

    /// The weights of profit and of time that the dual of profit gives.
    fn weights(&self) -> (u32, u32)
        ensures alpha { result.0 ≤ 10 ^ 9 }
        ensures beta { result.1 ≤ 10 ^ 9 }
        ensures some { 1 ≤ result.1 }
    {
        let dual = self.program.dual(PROFIT_ROW);
        let rate = dual.whole(1).clamp(1, MOST_ALPHA);
        let beta = (MOST_ALPHA / (rate + 1)).clamp(1, MOST_BETA);
        let alpha = dual.whole(beta).clamp(0, MOST_ALPHA);
        (alpha as u32, beta as u32)
    }

    /// The price of a call, where time weighs so much.
    fn price_of(&self, call: u32, beta: u32) -> i64
        ensures { IsWithin most_worth result }
    {
        let row = (call as usize).saturating_add(BEFORE_CALLS);
        let dual = self.program.dual(row).whole(i64::from(beta));
        in_parts(i128::from(dual.saturating_neg()), 1)
    }

    /// The price of each call by its number, where time weighs so much.
    fn prices(&self, alloc: Global, calls: u32, beta: u32) -> Result<Vec<i64>, AllocError>
        requires { calls ≤ 300 }
        ensures { IfOk result (λ prices. AreSought calls prices.items) }
    {
        let mut prices = Vec::new(alloc);
        prices.push(0)?;
        for call in 1..calls + 1 {
            prices.push(self.price_of(call, beta))?;
        }
        Ok(prices)
    }

    /// The price that the duals give, in whole numbers. Time has a weight in it.
    pub fn price(&self, alloc: Global, ctx: &Context) -> Result<Price, AllocError>
        ensures fit { IfOk result (IsFit ctx.now.calls (is_forced ctx.now)) }
        ensures time { IfOk result (λ price. 1 ≤ price.beta) }
    {
        let (alpha, beta) = self.weights();
        let prices = self.prices(alloc, ctx.calls(), beta)?;
        let entries = listed(alloc, ctx, prices.as_slice(), 1)?;
        Ok(Price {
            alpha,
            beta,
            pi: Entries::from_list(entries),
        })
    }

    /// What the tours of the solution are worth under its price, where time weighs so much. In the program only tours that are worth
    /// more can raise the value.
    pub fn level(&self, beta: u32) -> i128
        ensures { IsWithin (2 ^ 63) result }
    {
        let most = self.program.dual(MOST_ROW);
        let tours = if self.fewest > 0 {
            most.plus(self.program.dual(FEWEST_ROW))
        } else {
            most
        };
        -i128::from(tours.whole(i64::from(beta)))
    }

    /// The tours of the solution, by their places, each with its parts of a million.
    pub fn shares(&self, alloc: Global) -> Result<Vec<(u64, u32)>, AllocError>
        ensures { IfOk result (λ shares. All (IsShareAmong self.now) shares.items) }
    {
        let mut shares = Vec::new(alloc);
        for (column, part) in self.program.shares(alloc)? {
            if let Some(tour) = column.checked_sub(self.first_tour) {
                if let Some(place) = self.places.get(tour) {
                    shares.push((*place, parts_of(part)))?;
                }
            }
        }
        Ok(shares)
    }

    /// Solves the program, for trials.
    pub fn solved(self, alloc: Global) -> Result<SolvedMaster, AllocError>
        ensures { IfOk result (λ solved. solved ≡ self) }
    {
        let mut master = self;
        let value = master.solve(alloc)?;
        let basis = master.program.basis(alloc)?;
        Ok(SolvedMaster {
            master,
            basis,
            value,
        })
    }
}
