//! The tight box of a region, and the sums that it stands on.
ghost use Rattle.std.specs.Prelude.{◌≡◌, ◌+◌, ◌*◌, ◌<◌, ◌≤◌, ◌↔◌, false, IfSome, IsNone, sum_by, count_by, if◌then◌else◌};
ghost use Rattle.orienteering.specs.Instance.{calls, site, targets, travel};
ghost use Rattle.orienteering.specs.Limits.{longest_arc, most_score};
ghost use Rattle.orienteering.specs.Region.{can_be_entered, can_be_left, is_entered, is_left, is_open, is_undecided, is_used, open_score, tight_box, undecided_count, used_travel, IsEmptyBox};

use crate::context::Context;
use orienteering::Box2;
use site_model::Instance;

impl Context {
    /// The length of an arc out of the start where it is used.
    fn first_length(&self, inst: &Instance, j: u32) -> u64
        requires same { self.now.calls ≡ calls inst.now }
        requires to { j ≤ self.now.calls + 1 }
        ensures value { result ≡ (if is_used self.now 0 j then travel inst.now 0 j else 0) }
        ensures within { result ≤ longest_arc }
    {
        if self.is_used(0, j) {
            inst.length(0, j)
        } else {
            0
        }
    }

    /// The travel of the used arcs out of the start.
    fn first_travel(&self, inst: &Instance) -> u64
        requires { self.now.calls ≡ calls inst.now }
        ensures value { result ≡ sum_by (λ j. if is_used self.now 0 j then travel inst.now 0 j else 0) (targets self.now.calls) }
        ensures within { result ≤ 301 * longest_arc }
    {
        let mut sum = 0;
        for j in 1..self.calls() + 2 {
            sum += self.first_length(inst, j);
        }
        sum
    }

    /// The travel of the used arcs out of a call, of which there is at most one.
    fn next_travel(&self, inst: &Instance, call: u32) -> u64
        requires same { self.now.calls ≡ calls inst.now }
        requires low { 1 ≤ call }
        requires high { call ≤ self.now.calls }
        ensures value { result ≡ sum_by (λ j. if is_used self.now call j then travel inst.now call j else 0) (targets self.now.calls) }
        ensures within { result ≤ longest_arc }
    {
        match self.next_place(call) {
            None => 0,
            Some(next) => inst.length(call, next),
        }
    }

    fn used_travel(&self, inst: &Instance) -> u64
        requires { self.now.calls ≡ calls inst.now }
        ensures { result ≡ used_travel inst.now self.now }
    {
        let mut sum = self.first_travel(inst);
        for call in 1..self.calls() + 1 {
            sum += self.next_travel(inst, call);
        }
        sum
    }

    /// Whether some arc into the call is open.
    pub(crate) fn can_be_entered(&self, call: u32) -> bool
        requires low { 1 ≤ call }
        requires high { call ≤ self.now.calls }
        ensures { result ≡ can_be_entered self.now call }
    {
        let calls = self.calls();
        if self.is_entered(call) {
            return true;
        }
        for i in 0..calls + 1 {
            if self.is_open(i, call) {
                return true;
            }
        }
        false
    }

    /// Whether some arc out of the call is open.
    pub(crate) fn can_be_left(&self, call: u32) -> bool
        requires low { 1 ≤ call }
        requires high { call ≤ self.now.calls }
        ensures { result ≡ can_be_left self.now call }
    {
        let calls = self.calls();
        if self.is_left(call) {
            return true;
        }
        for j in 1..calls + 2 {
            if self.is_open(call, j) {
                return true;
            }
        }
        false
    }

    /// The score of a call that can be entered.
    fn score_to_come(&self, inst: &Instance, call: u32) -> u64
        requires same { self.now.calls ≡ calls inst.now }
        requires low { 1 ≤ call }
        requires high { call ≤ self.now.calls }
        ensures value { result ≡ (if can_be_entered self.now call then (site inst.now call).score else 0) }
        ensures within { result ≤ most_score }
    {
        if self.can_be_entered(call) {
            u64::from(inst.score(call))
        } else {
            0
        }
    }

    fn open_score(&self, inst: &Instance) -> u64
        requires { self.now.calls ≡ calls inst.now }
        ensures { result ≡ open_score inst.now self.now }
    {
        let mut sum = 0;
        for call in 1..self.calls() + 1 {
            sum += self.score_to_come(inst, call);
        }
        sum
    }

    /// The values that a plan of the region can have, unless there are none. With n calls and few decisions this takes some
    /// n steps; each call with many banned arcs into it takes up to n more.
    pub fn tight(&self, inst: &Instance) -> Option<Box2>
        requires { self.now.calls ≡ calls inst.now }
        ensures tight { IfSome result (λ b. b ≡ tight_box inst.now self.now) }
        ensures empty { IsNone result ↔ IsEmptyBox (tight_box inst.now self.now) }
    {
        let raw = self.raw();
        let (_, most) = self.counts();
        let p_hi = if most == 0 {
            0
        } else {
            raw.p_hi.min(self.open_score(inst))
        };
        let t_lo = raw.t_lo.max(self.used_travel(inst));
        if p_hi < raw.p_lo || raw.t_hi < t_lo {
            return None;
        }
        Some(Box2 {
            p_lo: raw.p_lo,
            p_hi,
            t_lo,
            t_hi: raw.t_hi,
        })
    }

    /// The undecided arcs out of a place.
    fn undecided_after(&self, i: u32) -> u64
        ensures value { result ≡ count_by (is_undecided self.now i) (targets self.now.calls) }
        ensures within { result ≤ 301 }
    {
        let mut count = 0;
        for j in 1..self.calls() + 2 {
            count += u64::from(self.is_undecided(i, j));
        }
        count
    }

    /// How many arcs are undecided.
    pub fn undecided(&self) -> u64
        ensures { result ≡ undecided_count self.now }
    {
        let mut count = 0;
        for i in 0..self.calls() + 1 {
            count += self.undecided_after(i);
        }
        count
    }
}
