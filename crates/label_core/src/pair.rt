use crate::resource::Resource;

/// Two resources side by side. A step extends both or can't be made, and a pair is at least as good where both parts are.
#[derive(Drop)]
pub struct Pair<A, B> {
    pub a: A,
    pub b: B,
}

/// A step of both parts.
#[derive(Drop)]
pub struct PairStep<S, T> {
    pub a: S,
    pub b: T,
}

impl<A: Resource, B: Resource> Resource for Pair<A, B> {
    ghost use Rattle.label_core.specs.Pair.{pair_rules, FitsBoth, FitsBothSteps};
    ghost use Rattle.label_core.specs.PairLaws.{pair_laws};

    type Step = PairStep<A::Step, B::Step>;

    ghost rules = { pair_rules A.rules B.rules };

    ghost fits = { FitsBoth A.fits B.fits };

    ghost fits_step = { FitsBothSteps A.fits_step B.fits_step };

    fn extend(&self, step: &PairStep<A::Step, B::Step>) -> Option<Pair<A, B>> {
        let a = self.a.extend(&step.a)?;
        let b = self.b.extend(&step.b)?;
        Some(Pair { a, b })
    }

    fn leq(&self, other: &Pair<A, B>) -> bool {
        self.a.leq(&other.a) & self.b.leq(&other.b)
    }

    fn copy(&self) -> Pair<A, B> {
        Pair {
            a: self.a.copy(),
            b: self.b.copy(),
        }
    }

    fn tell(&self) {
        self.a.tell();
        self.b.tell();
    }

    fn tell_step(step: &PairStep<A::Step, B::Step>) {
        A::tell_step(&step.a);
        B::tell_step(&step.b);
    }

    ghost laws = { pair_laws A.laws B.laws };
}
