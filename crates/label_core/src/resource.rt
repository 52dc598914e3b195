ghost use Rattle.std.specs.Prelude.{◌≡◌};
ghost use Rattle.label_core.specs.Resource.{Rules, Laws};

/// What a walk uses up or gathers on its way. No call takes memory. The laws hold for values and steps that fit: `leq` is
/// reflexive, transitive and antisymmetric, and where a value is at least as good as one that a step extends, the step
/// extends it too, to a value that is at least as good and fits.
pub trait Resource: Sized + Drop {
    type Step: Drop;

    /// How a step extends a value, and which values are at least as good as others.
    ghost rules: { Rules Self Self.Step };

    /// Holds of the values that are meant: their numbers are within their types, and the type's own rule is kept.
    ghost fits: { Self → Type 0 };

    /// Holds of the steps that are meant, likewise.
    ghost fits_step: { Self.Step → Type 0 };

    /// The value after the step, None where the step can't be made.
    fn extend(&self, step: &Self::Step) -> Option<Self>
        ensures { result ≡ rules.extended self.now step.now };

    /// Whether the value is at least as good as the other.
    fn leq(&self, other: &Self) -> bool
        ensures { result ≡ rules.leq self.now other.now };

    /// The same value once more.
    fn copy(&self) -> Self
        ensures { result ≡ self.now };

    /// Does nothing. The value in hand fits.
    fn tell(&self)
        ensures { fits self.now };

    /// Does nothing. The step in hand fits.
    fn tell_step(step: &Self::Step)
        ensures { fits_step step.now };

    ghost laws: { Laws rules fits fits_step };
}
