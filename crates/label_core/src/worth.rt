use crate::resource::Resource;

/// What a walk is worth so far. The greater the better. Sums stop at 10^36 and at its negative, which no walk within the
/// limits of an instance reaches.
#[derive(Clone, Copy, Debug, PartialEq, Eq)]
pub struct Worth {
    pub sum: i128,
}

/// What a step adds, negative where it costs.
#[derive(Clone, Copy, Debug, PartialEq, Eq)]
pub struct Gain {
    pub by: i128,
}

const MOST: i128 = 1_000_000_000_000_000_000_000_000_000_000_000_000;

impl Resource for Worth {
    ghost use Rattle.label_core.specs.Worth.{worth_rules, IsWorth, IsGain};
    ghost use Rattle.label_core.specs.WorthLaws.{worth_laws};

    type Step = Gain;

    ghost rules = { worth_rules };

    ghost fits = { IsWorth };

    ghost fits_step = { IsGain };

    fn extend(&self, step: &Gain) -> Option<Worth> {
        let sum = self.sum.saturating_add(step.by).clamp(-MOST, MOST);
        Some(Worth { sum })
    }

    fn leq(&self, other: &Worth) -> bool {
        self.sum >= other.sum
    }

    fn copy(&self) -> Worth {
        *self
    }

    fn tell(&self) {
        let _sum = self.sum;
    }

    fn tell_step(step: &Gain) {
        let _by = step.by;
    }

    ghost laws = { worth_laws };
}
