//! Where a node stands in a tree.

ghost use Rattle.std.specs.Prelude.{◌≡◌, ◌∷◌, ◌++◌, [], true, IfOk};
ghost use Rattle.orienteering.specs.Decision.{part_of};
ghost use Rattle.growth.specs.Branches.{root_branch, branch_below};

use orienteering::CutOnPath;
use std::alloc::{AllocError, Global};
use std::marker::Model;

/// What a node is judged by: its region, the cuts on the path to it, the root's end first, and whether its parent is a
/// cut.
#[derive(Drop)]
pub struct Branch<R> {
    region: R,
    cuts: Vec<CutOnPath>,
    under_cut: bool,
}

impl<R> Model for Branch<R> {
    ghost use Rattle.orienteering.specs.Decision.{Branch as Spot};
    ghost use Rattle.growth.specs.Branches.{branch_code};

    ghost Value = { Spot R };

    ghost coded = { branch_code R.code };

    ghost view = { λ b. record { region = b.region; cuts = b.cuts.items; under_cut = b.under_cut } };
}

impl<R: Drop> Branch<R> {
    /// The whole tree's.
    pub(crate) fn root(alloc: Global, region: R) -> Branch<R>
        ensures { result ≡ root_branch region }
    {
        Branch {
            region,
            cuts: Vec::new(alloc),
            under_cut: false,
        }
    }

    pub fn region(&self) -> &R
        ensures { result.now ≡ self.now.region }
    {
        &self.region
    }

    pub fn cuts(&self) -> &[CutOnPath]
        ensures { result.now ≡ self.now.cuts }
    {
        self.cuts.as_slice()
    }

    /// Whether the parent is a cut, so that no cut may stand here.
    pub fn is_under_cut(&self) -> bool
        ensures { result ≡ self.now.under_cut }
    {
        self.under_cut
    }

    /// The branch of a part of the region.
    pub(crate) fn part(&self, alloc: Global, region: R) -> Result<Branch<R>, AllocError>
        ensures { IfOk result (λ part. part ≡ part_of self.now region) }
    {
        let mut cuts = Vec::new(alloc);
        cuts.extend_from_slice(self.cuts.as_slice())?;
        Ok(Branch {
            region,
            cuts,
            under_cut: false,
        })
    }

    /// The branch below a cut.
    pub(crate) fn below(self, cut: CutOnPath) -> Result<Branch<R>, AllocError>
        ensures { IfOk result (λ below. below ≡ branch_below self cut) }
    {
        let mut cuts = self.cuts;
        cuts.push(cut)?;
        Ok(Branch {
            region: self.region,
            cuts,
            under_cut: true,
        })
    }
}
