use crate::resource::Resource;

/// When a walk is ready to leave its last place, in scaled units. The earlier the better.
#[derive(Clone, Copy, Debug, PartialEq, Eq)]
pub struct Clock {
    pub at: u64,
}

/// A step on the clock: how long it takes, service and travel together, and the window of the place that it comes to,
/// both in scaled units. Whoever comes early waits for the opening. The step is late, and can't be made, where it comes
/// after the closing. A sum that is too great for its type stops at the type's greatest number.
#[derive(Clone, Copy, Debug, PartialEq, Eq)]
pub struct ClockStep {
    pub travel: u64,
    pub opening: u64,
    pub closing: u64,
}

impl Resource for Clock {
    ghost use Rattle.label_core.specs.Clock.{clock_rules, IsClock, IsClockStep};
    ghost use Rattle.label_core.specs.ClockLaws.{clock_laws};

    type Step = ClockStep;

    ghost rules = { clock_rules };

    ghost fits = { IsClock };

    ghost fits_step = { IsClockStep };

    fn extend(&self, step: &ClockStep) -> Option<Clock> {
        let at = self.at.saturating_add(step.travel).max(step.opening);
        if at <= step.closing {
            Some(Clock { at })
        } else {
            None
        }
    }

    fn leq(&self, other: &Clock) -> bool {
        self.at <= other.at
    }

    fn copy(&self) -> Clock {
        *self
    }

    fn tell(&self) {
        let _at = self.at;
    }

    fn tell_step(step: &ClockStep) {
        let _travel = step.travel;
        let _opening = step.opening;
        let _closing = step.closing;
    }

    ghost laws = { clock_laws };
}
