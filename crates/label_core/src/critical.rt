use crate::resource::Resource;
use bit_sets::Bits;
use std::marker::Model;

/// The critical calls that a walk has visited, by their numbers, which are below 320. The fewer the better, since none of
/// them may be visited again (Righini and Salani 2009).
#[derive(Drop)]
pub struct Critical {
    pub held: Bits,
}

impl Model for Critical {
    ghost use Rattle.std.specs.Prelude.{List, ℕ};
    ghost use Rattle.bit_sets.specs.NumberSet.{IsSmall};

    ghost Value = { List ℕ };

    ghost view = { λ critical. critical.held };

    ghost invariant = { λ critical. IsSmall critical.held };
}

/// The number of the call that a step comes to where that call is critical, below 320, and None elsewhere.
#[derive(Clone, Copy)]
pub struct Mark {
    pub number: Option<u32>,
}

impl Model for Mark {
    ghost use Rattle.std.specs.Prelude.{ℕ, Option};
    ghost use Rattle.label_core.specs.Critical.{IsMark};

    ghost Value = { Option ℕ };

    ghost view = { λ mark. mark.number };

    ghost inverse = { λ number. record { number = number } };

    ghost invariant = { λ mark. IsMark mark.number };
}

impl Resource for Critical {
    ghost use Rattle.label_core.specs.Critical.{critical_rules, IsCritical, IsMark};
    ghost use Rattle.label_core.specs.CriticalLaws.{critical_laws};

    type Step = Mark;

    ghost rules = { critical_rules };

    ghost fits = { IsCritical };

    ghost fits_step = { IsMark };

    fn extend(&self, step: &Mark) -> Option<Critical> {
        match step.number {
            None => Some(self.copy()),
            Some(number) => {
                if self.held.contains(number) {
                    return None;
                }
                let mut held = self.held.copy_small();
                held.insert_small(number);
                Some(Critical { held })
            }
        }
    }

    fn leq(&self, other: &Critical) -> bool {
        self.held.subset(&other.held)
    }

    fn copy(&self) -> Critical {
        Critical {
            held: self.held.copy_small(),
        }
    }

    fn tell(&self) {
        self.held.tell();
    }

    fn tell_step(step: &Mark) {
        let _number = &step.number;
    }

    ghost laws = { critical_laws };
}
