//! The arc to branch on: the most undecided one.
//!
//! Stands on `region_ctx`. A solution of the relaxation gives parts of tours to arcs; `pick` answers the undecided arc
//! whose parts are nearest to half a tour, and its contract says that exactly this arc is answered, or that none is
//! undecided. The entries are read once. Arcs without an entry count only where no entry is nearer than they are, and then
//! the first of them is looked for.
#![tactic(auto)]

ghost use Rattle.std.specs.Prelude.{◌≡◌, ◌++◌, ◌∷◌, [], ℕ, true, false, MatchOption};
ghost use Rattle.orienteering.specs.Region.{is_undecided};
ghost use Rattle.branch_pick.specs.Choice.{IsChosen};
ghost use Rattle.branch_pick.specs.Candidates.{is_listed, is_unlisted, IsNoLater, StaysFirst, GivesWay, IsNear, IsBest, IsBestListed, IsBestUnlisted, IsFirstTarget};

use region_ctx::Context;

/// Half a tour, in parts in a million.
const HALF: u32 = 500_000;

/// An arc to branch on.
#[derive(Clone, Copy, Debug, PartialEq, Eq)]
pub struct Choice {
    /// The place that the arc leaves.
    pub from: u32,
    /// The place that the arc enters.
    pub to: u32,
}

/// How much of a tour travels an arc.
#[derive(Clone, Copy, Debug, PartialEq, Eq)]
pub struct ArcShare {
    /// The place that the arc leaves.
    pub from: u32,
    /// The place that the arc enters.
    pub to: u32,
    /// Parts in a million.
    pub parts: u32,
}

/// An arc, and how far its parts are from half a tour.
#[derive(Clone, Copy)]
struct Candidate {
    from: u32,
    to: u32,
    distance: u32,
}

/// Whether an arc has an entry.
fn is_listed(shares: &[ArcShare], from: u32, to: u32) -> bool
    ensures { result ≡ is_listed shares.now from to }
{
    shares
        .iter()
        .any(|share| share.from == from && share.to == to)
}

/// Whether an arc is undecided and has no entry.
fn is_unlisted(ctx: &Context, shares: &[ArcShare], from: u32, to: u32) -> bool
    ensures { result ≡ is_unlisted ctx.now shares.now from to }
{
    ctx.is_undecided(from, to) && !is_listed(shares, from, to)
}

/// Whether the first candidate comes before the second, or is the same arc.
fn comes_first(first: Candidate, second: Candidate) -> bool
    ensures yes { result ≡ true → IsNoLater first second }
    ensures no { result ≡ false → IsNoLater second first }
{
    (first.distance, first.from, first.to) <= (second.distance, second.from, second.to)
}

/// Whether there is a best candidate so far that comes before another, or is the same arc.
fn stays_first(best: Option<Candidate>, other: Candidate) -> bool
    ensures yes { result ≡ true → StaysFirst best other }
    ensures no { result ≡ false → GivesWay best other }
{
    match best {
        Some(arc) => comes_first(arc, other),
        None => false,
    }
}

/// Whether there is a best candidate so far that is nearer to half a tour than an arc without parts.
fn is_near(best: Option<Candidate>) -> bool
    ensures { result ≡ true → IsNear best }
{
    match best {
        Some(arc) => arc.distance < HALF,
        None => false,
    }
}

/// The better of the best so far and the arc of one entry more.
fn with_entry(
    ctx: &Context,
    earlier: &[ArcShare],
    share: ArcShare,
    best: Option<Candidate>,
) -> Option<Candidate>
    requires { IsBestListed ctx.now earlier.now best }
    ensures { IsBestListed ctx.now (earlier.now ++ share ∷ []) result }
{
    let entry = Candidate {
        from: share.from,
        to: share.to,
        distance: share.parts.abs_diff(HALF),
    };
    if stays_first(best, entry) {
        return best;
    }
    if is_unlisted(ctx, earlier, share.from, share.to) {
        return Some(entry);
    }
    best
}

/// The best of the undecided arcs that have an entry. Whether an entry is the first of its arc is asked only where it would
/// be the best so far.
fn best_listed(ctx: &Context, shares: &[ArcShare]) -> Option<Candidate>
    ensures { IsBestListed ctx.now shares.now result }
{
    let mut best = None;
    for (place, share) in shares.iter().enumerate() {
        best = with_entry(ctx, &shares[..place], *share, best);
    }
    best
}

/// The first place that an undecided arc without an entry enters from this one.
fn first_target(ctx: &Context, shares: &[ArcShare], from: u32) -> Option<u32>
    ensures { IsFirstTarget ctx.now shares.now from result }
{
    for to in 0..ctx.calls() + 2 {
        if is_unlisted(ctx, shares, from, to) {
            return Some(to);
        }
    }
    None
}

/// The best of the undecided arcs that have no entry: their parts are all 0, so it is the first one.
fn best_unlisted(ctx: &Context, shares: &[ArcShare]) -> Option<Candidate>
    ensures { IsBestUnlisted ctx.now shares.now result }
{
    for from in 0..ctx.calls() + 2 {
        if let Some(to) = first_target(ctx, shares, from) {
            return Some(Candidate {
                from,
                to,
                distance: HALF,
            });
        }
    }
    None
}

/// The best of all undecided arcs, by the best of those that have an entry. An arc without one is no nearer than half a tour.
fn with_unlisted(ctx: &Context, shares: &[ArcShare], listed: Option<Candidate>) -> Option<Candidate>
    requires { IsBestListed ctx.now shares.now listed }
    ensures { IsBest ctx.now shares.now result }
{
    if is_near(listed) {
        return listed;
    }
    let Some(unlisted) = best_unlisted(ctx, shares) else {
        return listed;
    };
    if stays_first(listed, unlisted) {
        return listed;
    }
    Some(unlisted)
}

/// The undecided arc whose parts are nearest to half a tour, then the one that leaves the place with the least number, then
/// the one that enters it. The parts of an arc are those of its first entry, 0 without one; the entries may stand in any
/// order. None comes where no arc is undecided.
pub fn pick(ctx: &Context, shares: &[ArcShare]) -> Option<Choice>
    ensures { MatchOption result ((i j : ℕ) → is_undecided ctx.now i j ≡ false) (λ c. IsChosen ctx.now shares.now c.from c.to) }
{
    let listed = best_listed(ctx, shares);
    let best = with_unlisted(ctx, shares, listed)?;
    Some(Choice {
        from: best.from,
        to: best.to,
    })
}

#[cfg(test)]
mod tests;
