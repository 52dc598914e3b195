//! The branches of the tree that are still to be read, and the cuts on the path to the node in hand.

ghost use Rattle.std.specs.Prelude.{◌≡◌, ◌∷◌, ◌++◌, [], Some, None, IfOk, IfSome, OnOk, IsNone, IsTrue, ◌↔◌, false, true};
ghost use Rattle.proof_check.specs.Waiting.{Branches, branch};

use orienteering::CutOnPath;
use region_ctx::Context;
use std::alloc::{AllocError, Global};
use std::marker::Model;

/// A region that waits for its node, with the number of cuts on the path to it, and whether its parent is a cut.
#[derive(Drop)]
pub(crate) struct Waiting {
    pub context: Context,
    pub cuts: usize,
    pub under_cut: bool,
}

/// The branches that wait, the nearest first. The cuts of all of them are fronts of one path, so that none is kept twice.
#[derive(Drop)]
pub(crate) struct Pending {
    waiting: Vec<Waiting>,
    path: Vec<CutOnPath>,
}

impl Model for Pending {
    ghost use Rattle.std.specs.Prelude.{length, reverse};
    ghost use Rattle.proof_check.specs.Waiting.{Branches, branches_code};

    ghost Value = { Branches };

    ghost coded = { branches_code };

    ghost use Rattle.proof_check.specs.Nested.{branches_of, AreNested};

    ghost view = { λ p. record { cuts = p.path.items; branches = branches_of p.path.items (reverse p.waiting.items) } };

    ghost invariant = { λ p. AreNested (length p.path.items) (reverse p.waiting.items) };
}

impl Pending {
    /// The root alone.
    pub(crate) fn root(alloc: Global, context: Context) -> Result<Pending, AllocError>
        ensures { IfOk result (λ p. p ≡ record { cuts = []; branches = branch context [] false ∷ [] }) }
    {
        let mut waiting = Vec::new(alloc);
        waiting.push(Waiting {
            context,
            cuts: 0,
            under_cut: false,
        })?;
        Ok(Pending {
            waiting,
            path: Vec::new(alloc),
        })
    }

    /// The cuts on the path to the branch that was taken last, the root's end first.
    pub(crate) fn cuts(&self) -> &[CutOnPath]
        ensures { result.now ≡ self.now.cuts }
    {
        self.path.as_slice()
    }

    /// Takes the nearest branch: its region, and whether its parent is a cut.
    pub(crate) fn take(&mut self) -> Option<(Context, bool)>
        ensures taken { IfSome result (λ next. self.old.branches ≡ branch next.0 self.new.cuts next.1 ∷ self.new.branches) }
        ensures none { IsNone result → self.old.branches ≡ [] }
    {
        let next = self.waiting.pop()?;
        self.path.truncate(next.cuts);
        Some((next.context, next.under_cut))
    }

    /// Puts a region below a cut of the branch that was taken last.
    pub(crate) fn put_below(&mut self, context: Context, cut: CutOnPath) -> Result<(), AllocError>
        ensures { OnOk result (self.new.branches ≡ branch context (self.old.cuts ++ cut ∷ []) true ∷ self.old.branches) }
    {
        self.path.push(cut)?;
        self.waiting.push(Waiting {
            context,
            cuts: self.path.len(),
            under_cut: true,
        })?;
        Ok(())
    }

    /// Puts the two parts of the branch that was taken last.
    pub(crate) fn put_parts(&mut self, first: Context, second: Context) -> Result<(), AllocError>
        ensures { OnOk result (self.new.branches ≡ branch first self.old.cuts false ∷ branch second self.old.cuts false ∷ self.old.branches) }
    {
        let cuts = self.path.len();
        self.waiting.push(Waiting {
            context: second,
            cuts,
            under_cut: false,
        })?;
        self.waiting.push(Waiting {
            context: first,
            cuts,
            under_cut: false,
        })?;
        Ok(())
    }

    /// Whether no branch waits.
    pub(crate) fn is_empty(&self) -> bool
        ensures { IsTrue result ↔ (self.now.branches ≡ []) }
    {
        self.waiting.is_empty()
    }
}
