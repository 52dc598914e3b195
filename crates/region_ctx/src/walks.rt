//! Walks along used arcs. They take no memory: a call knows the place after it.
ghost use Rattle.std.specs.Prelude.{◌≡◌, ◌+◌, ◌<◌, ◌≤◌, ◌↔◌, IsTrue};
ghost use Rattle.orienteering.specs.Instance.{calls};
ghost use Rattle.orienteering.specs.Region.{is_used, HasCycle, IsLate};
ghost use Rattle.region_ctx.specs.Links.{AreSingle};
ghost use Rattle.region_ctx.specs.Walks.{ComesBack, IsLateFrom, StartsLate};

use crate::context::Context;
use site_model::Instance;

impl Context {
    /// Whether the walk from a call comes back to it.
    fn comes_back(&self, call: u32) -> bool
        requires single { AreSingle self.now.calls self.now.used }
        requires low { 1 ≤ call }
        requires high { call ≤ self.now.calls }
        ensures { IsTrue result ↔ ComesBack self.now call }
    {
        let mut place = call;
        for steps in 0..self.calls() {
            match self.next_place(place) {
                None => return false,
                Some(next) => {
                    if next == call {
                        return true;
                    }
                    place = next;
                }
            }
        }
        false
    }

    pub(crate) fn has_cycle(&self) -> bool
        ensures { IsTrue result ↔ HasCycle self.now }
    {
        for call in 1..self.calls() + 1 {
            if self.comes_back(call) {
                return true;
            }
        }
        false
    }

    /// Whether the walk from a place through this one, begun at the place's opening, has a late step.
    fn runs_late(&self, inst: &Instance, start: u32, first: u32) -> bool
        requires same { self.now.calls ≡ calls inst.now }
        requires single { AreSingle self.now.calls self.now.used }
        requires used { IsTrue (is_used self.now start first) }
        requires start_within { start ≤ self.now.calls }
        requires first_low { 1 ≤ first }
        requires first_high { first ≤ self.now.calls + 1 }
        ensures { IsTrue result ↔ IsLateFrom inst.now self.now start first }
    {
        let mut clock = inst.opening(start);
        let mut from = start;
        let mut to = first;
        for steps in 0..self.calls() + 1 {
            match inst.clock_step(clock, from, to) {
                None => return true,
                Some(later) => clock = later,
            }
            match self.next_place(to) {
                None => return false,
                Some(next) => {
                    if next == start {
                        return false;
                    }
                    from = to;
                    to = next;
                }
            }
        }
        false
    }

    /// Whether some walk from the start, begun at its opening, has a late step.
    fn begins_late(&self, inst: &Instance) -> bool
        requires { self.now.calls ≡ calls inst.now }
        ensures { IsTrue result ↔ StartsLate inst.now self.now 0 }
    {
        for first in 1..self.calls() + 2 {
            if self.is_used(0, first) && self.runs_late(inst, 0, first) {
                return true;
            }
        }
        false
    }

    /// Whether the walk from a call, begun at its opening, has a late step.
    fn goes_on_late(&self, inst: &Instance, call: u32) -> bool
        requires same { self.now.calls ≡ calls inst.now }
        requires single { AreSingle self.now.calls self.now.used }
        requires low { 1 ≤ call }
        requires high { call ≤ self.now.calls }
        ensures { IsTrue result ↔ StartsLate inst.now self.now call }
    {
        match self.next_place(call) {
            None => false,
            Some(next) => self.runs_late(inst, call, next),
        }
    }

    pub(crate) fn is_late(&self, inst: &Instance) -> bool
        requires { self.now.calls ≡ calls inst.now }
        ensures { IsTrue result ↔ IsLate inst.now self.now }
    {
        if self.begins_late(inst) {
            return true;
        }
        for call in 1..self.calls() + 1 {
            if self.goes_on_late(inst, call) {
                return true;
            }
        }
        false
    }
}
