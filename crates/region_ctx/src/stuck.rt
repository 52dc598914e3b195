//! Why no plan belongs to a region.
ghost use Rattle.std.specs.Prelude.{◌≡◌, ◌<◌, ◌≤◌, ◌↔◌, IsTrue};
ghost use Rattle.std.specs.List.{list_any};
ghost use Rattle.orienteering.specs.Instance.{all_calls, calls};
ghost use Rattle.orienteering.specs.Region.{is_one_sided, open_starts, used_starts, IsStuck};
ghost use Rattle.orienteering.specs.declared.Reason.TheVariants as reason;

use crate::context::Context;
use orienteering::Reason;
use site_model::Instance;

impl Context {
    /// Whether the call is entered and cannot be left, or is left and cannot be entered.
    fn is_one_sided(&self, call: u32) -> bool
        requires low { 1 ≤ call }
        requires high { call ≤ self.now.calls }
        ensures { result ≡ is_one_sided self.now call }
    {
        (self.is_entered(call) && !self.can_be_left(call))
            || (self.is_left(call) && !self.can_be_entered(call))
    }

    fn used_starts(&self) -> u32
        ensures { result ≡ used_starts self.now }
    {
        let mut count = 0;
        for j in 1..self.calls() + 2 {
            count += u32::from(self.is_used(0, j));
        }
        count
    }

    fn open_starts(&self) -> u32
        ensures { result ≡ open_starts self.now }
    {
        let mut count = 0;
        for j in 1..self.calls() + 2 {
            count += u32::from(self.is_open(0, j));
        }
        count
    }

    fn has_no_box(&self, inst: &Instance) -> bool
        requires { self.now.calls ≡ calls inst.now }
        ensures { IsTrue result ↔ IsStuck inst.now self.now reason.NoBox }
    {
        self.tight(inst).is_none()
    }

    fn has_side(&self) -> bool
        ensures { result ≡ list_any (is_one_sided self.now) (all_calls self.now.calls) }
    {
        for call in 1..self.calls() + 1 {
            if self.is_one_sided(call) {
                return true;
            }
        }
        false
    }

    fn has_many(&self) -> bool
        ensures { IsTrue result ↔ (self.now.most < used_starts self.now) }
    {
        let (_, most) = self.counts();
        most < self.used_starts()
    }

    fn has_few(&self) -> bool
        ensures { IsTrue result ↔ (open_starts self.now < self.now.fewest) }
    {
        let (fewest, _) = self.counts();
        self.open_starts() < fewest
    }

    /// Whether no plan belongs to the region for this reason. With n calls, `Many` and `Few` take some n steps, `NoBox` as
    /// many as `tight`, and `Cycle` and `Late` the sum of the lengths of all walks along used arcs. `Side` asks of each call
    /// that is entered or left, but not both, for an open arc on its other side.
    pub fn stuck(&self, inst: &Instance, reason: Reason) -> bool
        requires { self.now.calls ≡ calls inst.now }
        ensures { IsTrue result ↔ IsStuck inst.now self.now reason }
    {
        match reason {
            Reason::NoBox => self.has_no_box(inst),
            Reason::Cycle => self.has_cycle(),
            Reason::Late => self.is_late(inst),
            Reason::Side => self.has_side(),
            Reason::Many => self.has_many(),
            Reason::Few => self.has_few(),
        }
    }
}
