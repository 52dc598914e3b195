//! The verdict on a certificate.

ghost use Rattle.std.specs.Prelude.{◌≡◌, ◌≤◌, ◌*◌, [], length, IfOk, OnOk};
ghost use Rattle.orienteering.specs.Decide.{decide, is_for, AnswersOrMemory};
ghost use Rattle.orienteering.specs.Frontier.{IsFrontier, IsWholeFrontier};
ghost use Rattle.orienteering.specs.Region.{root};
ghost use Rattle.orienteering.specs.Weight.{weight};
ghost use Rattle.proof_check.specs.Verdict.{CoversPlans};

use crate::Accepted;
use crate::judge::Judge;
use crate::points::points_refusal;
use crate::walk::read_boxes;
use cert_text::Cert;
use orienteering::{CheckFail, copy_listed};
use site_model::Instance;
use std::alloc::Global;
use std::thread::Threads;

/// Whether the certificate names this instance.
fn is_for(inst: &Instance, cert: &Cert) -> bool
    ensures { result ≡ is_for inst.now cert.now }
{
    cert.customers() == u64::from(inst.calls())
        && cert.team() == u64::from(inst.team())
        && cert.scale() == inst.scale().number()
}

/// The verdict, or want of memory.
fn decide(alloc: Global, inst: &Instance, cert: &Cert, labels: u64) -> Result<Accepted, CheckFail>
    ensures { AnswersOrMemory (λ accepted. accepted) result (decide inst.now labels cert.now) }
{
    if !is_for(inst, cert) {
        return Err(CheckFail::OtherInstance);
    }
    if let Some(fail) = points_refusal(alloc, inst, cert.points()) {
        return Err(fail);
    }
    let judge = Judge {
        alloc,
        inst,
        points: cert.points(),
        labels,
    };
    let boxes = read_boxes(&judge, cert.nodes())?;
    let points = copy_listed(alloc, cert.points())?;
    Ok(Accepted::from_lists(points, boxes))
}

/// The verdict on a certificate: its points and the boxes that it leaves open, or its first refusal. A replay of a cut may
/// keep `labels` undominated states; the number of workers, 1 to 16, changes nothing in the answer.
///
/// In the order in which they are asked: the certificate names the instance (`OtherInstance`); each listed plan is one and
/// has its point (`PointRefused`), and both numbers rise from point to point (`NotRising`); each node in preorder keeps its
/// rule (`NodeRefused`, `TooManyLabels`), and the nodes make exactly one tree (`Shape`).
pub fn check<R: Threads + Sync>(
    rt: &R,
    alloc: Global,
    inst: &Instance,
    cert: &Cert,
    labels: u64,
    workers: u32,
) -> Result<Accepted, CheckFail>
    requires some { 1 ≤ workers }
    requires few { workers ≤ 16 }
    ensures decided { AnswersOrMemory (λ accepted. accepted) result (decide inst.now labels cert.now) }

    // Each plan is accounted for by exactly one leaf, so the points and the boxes are a frontier.
    ensures cover { OnOk result (CoversPlans inst.now labels cert.now) }
    ensures frontier { IfOk result (λ accepted. IsFrontier inst.now accepted.points accepted.boxes) }
    ensures whole { IfOk result (λ accepted. accepted.boxes ≡ [] → IsWholeFrontier inst.now accepted.points) }

    ensures small { OnOk result (length cert.now.nodes ≤ 4 * weight (root inst.now)) }
{
    decide(alloc, inst, cert, labels)
}
