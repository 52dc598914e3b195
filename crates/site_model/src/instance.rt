//! An instance.

ghost use Rattle.std.specs.Prelude.{◌≡◌, ◌+◌, ◌-◌, ◌≤◌, ◌⊎◌, Some, None, length, IfOk, IfErr, IfSome, OnOk, unsigned_abs};
ghost use Rattle.orienteering.specs.Instance.{Problem, calls, end_place, site, travel, next_clock};
ghost use Rattle.orienteering.specs.Limits.{IsInstance, IsPlaceWithinLimits, longest_arc, most_score, most_coordinate, latest};
ghost use Rattle.fixed_num.specs.Length.{scale_number};
ghost use Rattle.site_model.specs.Parts.{parts_refusal, problem_at, problem_of};
ghost use Rattle.site_model.specs.Table.{IsKept};

use crate::lengths::length_table;
use crate::parts::{Parts, PartsRefusal, Places};
use crate::refusal::parts_refusal;
use fixed_num::Scale;
use orienteering::Place;
use std::alloc::Global;
use std::marker::Model;

/// An instance of team orienteering: a fixed number of tours from one start to one end, each within the windows of its
/// places, no call visited twice (Chao, Golden and Wasil 1996; windows after Righini and Salani 2009). Places are numbered:
/// 0 is the start, 1 to n are the calls, n + 1 is the end. Times and lengths are in scaled units.
#[derive(Drop)]
pub struct Instance {
    scale: Scale,
    team: u32,
    places: Places,
    lengths: Vec<u32>,
}

impl Model for Instance {
    ghost Value = { Problem };

    ghost view = { λ i. problem_at i.scale i.team i.places };

    ghost invariant = { λ i. IsKept (problem_at i.scale i.team i.places) i.lengths.items };
}

impl Instance {
    /// The instance that the parts describe, unless one of them is refused: then the first refusal.
    pub fn new(alloc: Global, parts: Parts) -> Result<Instance, PartsRefusal>
        ensures value { IfOk result (λ i. i ≡ problem_of parts) }
        ensures accepted { OnOk result (parts_refusal (problem_of parts) ≡ None) }
        ensures refused { IfErr result (λ refusal. (refusal ≡ PartsRefusal.Memory) ⊎ (parts_refusal (problem_of parts) ≡ Some refusal)) }
    {
        if let Some(refusal) = parts_refusal(&parts) {
            return Err(refusal);
        }
        match length_table(alloc, parts.places.list(), parts.scale) {
            Ok(lengths) => Ok(Instance {
                scale: parts.scale,
                team: parts.team,
                places: parts.places,
                lengths,
            }),
            Err(_) => Err(PartsRefusal::Memory),
        }
    }

    /// How many calls there are: 0 to 300.
    pub fn calls(&self) -> u32
        ensures value { result ≡ calls self.now }
        ensures within { result ≤ 300 }
        ensures places { result + 2 ≡ length self.now.sites }
        ensures instance { IsInstance self.now }
    {
        (self.places.list().len() - 2) as u32
    }

    /// How many members there are, each of whom may make one tour: 1 to 32.
    pub fn team(&self) -> u32
        ensures value { result ≡ self.now.team }
        ensures within { result ≤ 32 }
    {
        self.team
    }

    /// The scale of the lengths and times.
    pub fn scale(&self) -> Scale
        ensures { scale_number result ≡ self.now.scale }
    {
        self.scale
    }

    fn place(&self, number: u32) -> Place
        requires { number ≤ end_place self.now }
        ensures site { result ≡ site self.now number }
        ensures limits { IsPlaceWithinLimits result }
    {
        self.places.list()[number as usize]
    }

    /// What a visit earns, 0 at the start and at the end.
    pub fn score(&self, place: u32) -> u32
        requires { place ≤ end_place self.now }
        ensures value { result ≡ (site self.now place).score }
        ensures within { result ≤ most_score }
    {
        self.place(place).score
    }

    /// How long the service takes, in scaled units, 0 at the start and at the end.
    pub fn service(&self, place: u32) -> u64
        requires { place ≤ end_place self.now }
        ensures value { result ≡ (site self.now place).service }
        ensures within { result ≤ latest }
    {
        self.place(place).service
    }

    /// The earliest time at which the place may be visited, in scaled units: who comes earlier waits.
    pub fn opening(&self, place: u32) -> u64
        requires { place ≤ end_place self.now }
        ensures value { result ≡ (site self.now place).opening }
        ensures within { result ≤ latest }
    {
        self.place(place).opening
    }

    /// The latest time at which the place may be visited, in scaled units.
    pub fn closing(&self, place: u32) -> u64
        requires { place ≤ end_place self.now }
        ensures value { result ≡ (site self.now place).closing }
        ensures within { result ≤ latest }
    {
        self.place(place).closing
    }

    /// The first coordinate in ten-thousandths.
    pub fn x(&self, place: u32) -> i64
        requires { place ≤ end_place self.now }
        ensures value { result ≡ (site self.now place).x }
        ensures within { unsigned_abs result ≤ most_coordinate }
    {
        self.place(place).x
    }

    /// The second coordinate in ten-thousandths.
    pub fn y(&self, place: u32) -> i64
        requires { place ≤ end_place self.now }
        ensures value { result ≡ (site self.now place).y }
        ensures within { unsigned_abs result ≤ most_coordinate }
    {
        self.place(place).y
    }

    /// The length between two places in scaled units, floored.
    pub fn length(&self, i: u32, j: u32) -> u64
        requires from { i ≤ end_place self.now }
        requires to { j ≤ end_place self.now }
        ensures value { result ≡ travel self.now i j }
        ensures within { result ≤ longest_arc }
    {
        let count = self.places.list().len();
        u64::from(self.lengths[i as usize * count + j as usize])
    }

    /// The clock at `j` for a member who is at `i` with this clock, unless the step is late.
    pub fn clock_step(&self, clock: u64, i: u32, j: u32) -> Option<u64>
        requires now { clock ≤ latest }
        requires from { i ≤ end_place self.now }
        requires to { j ≤ end_place self.now }
        ensures value { result ≡ next_clock self.now clock i j }
        ensures within { IfSome result (λ arrival. (clock + travel self.now i j ≤ arrival) × (arrival ≤ latest)) }
    {
        let reached = clock + self.service(i) + self.length(i, j);
        let arrival = reached.max(self.opening(j));
        if arrival <= self.closing(j) {
            Some(arrival)
        } else {
            None
        }
    }
}

fn is_shared<T: Send + Sync>(_: &T) {}

fn instance_is_shared(instance: &Instance) {
    is_shared(instance);
}
