use crate::resource::Resource;
use std::marker::Model;

/// The critical calls that a walk has visited, by numbers below 64, as the bits of one word. The fewer the better, by the
/// rules of `Critical`.
#[derive(Drop)]
pub struct Flags {
    pub word: u64,
}

impl Model for Flags {
    ghost use Rattle.std.specs.Prelude.{List, ℕ, [], ◌∷◌};
    ghost use Rattle.bit_sets.specs.Words.{members};

    ghost Value = { List ℕ };

    ghost view = { λ flags. members (flags.word ∷ []) };
}

/// The number of the call that a step comes to where that call is critical, below 64, and None elsewhere.
#[derive(Clone, Copy)]
pub struct Flag {
    pub number: Option<u32>,
}

impl Model for Flag {
    ghost use Rattle.std.specs.Prelude.{ℕ, Option};
    ghost use Rattle.label_core.specs.Flags.{IsFlag};

    ghost Value = { Option ℕ };

    ghost view = { λ flag. flag.number };

    ghost inverse = { λ number. record { number = number } };

    ghost invariant = { λ flag. IsFlag flag.number };
}

impl Flags {
    ghost use Rattle.std.specs.Prelude.{◌≡◌, []};

    /// No call is visited.
    #[inline]
    pub fn none() -> Flags
        ensures { result ≡ [] }
    {
        Flags { word: 0 }
    }
}

impl Resource for Flags {
    ghost use Rattle.label_core.specs.Critical.{critical_rules};
    ghost use Rattle.label_core.specs.Flags.{IsFlags, IsFlag};
    ghost use Rattle.label_core.specs.FlagsLaws.{flags_laws};

    type Step = Flag;

    ghost rules = { critical_rules };

    ghost fits = { IsFlags };

    ghost fits_step = { IsFlag };

    #[inline]
    fn extend(&self, step: &Flag) -> Option<Flags> {
        match step.number {
            None => Some(self.copy()),
            Some(number) => {
                if (self.word >> number) & 1 == 1 {
                    return None;
                }
                Some(Flags {
                    word: self.word | 1 << number,
                })
            }
        }
    }

    #[inline]
    fn leq(&self, other: &Flags) -> bool {
        self.word & other.word == self.word
    }

    #[inline]
    fn copy(&self) -> Flags {
        Flags { word: self.word }
    }

    #[inline]
    fn tell(&self) {
        let _word = self.word;
    }

    #[inline]
    fn tell_step(step: &Flag) {
        let _number = &step.number;
    }

    ghost laws = { flags_laws };
}
