//! Writing a certificate.

ghost use Rattle.std.specs.Prelude.{◌≡◌, ◌<◌, ◌^◌, ◌++◌, OnOk, IfOk};
ghost use Rattle.cert_text.specs.Text.{call_text, entry_text, tour_text, point_text, lists_text, cut_text, node_text, instance_line, cert_text};
ghost use Rattle.text_parts.specs.Texts.{AreItems};
ghost use Rattle.cert_text.specs.Text.{IsCall, IsEntry, IsCalls, IsListed, IsPrice, IsNode, IsCert};

use crate::cert::Cert;
use crate::head::{FirstLines, Version};
use crate::line::{PointLines, SpacedCall, SpacedEntry, TourLine};
use crate::node::{NodeLine, ReasonWords};
use orienteering::{Listed, Node, Price, Tour};
use std::alloc::{AllocError, Global};
use text_parts::part::Words;
use text_parts::writing::{
    WritePart, put, put_all, put_counted, put_ended, put_line, put_number, put_signed,
};

impl WritePart for SpacedCall {
    type Value = u32;

    ghost text = { call_text };

    ghost valid = { IsCall };

    #[tactic(auto, using(text_parts::proofs::Appends::appends))]
    fn write(value: &u32, out: &mut Vec<u8>) -> Result<(), AllocError> {
        put(out, b" ")?;
        put_number(out, u64::from(*value))?;
        Ok(())
    }
}

impl WritePart for SpacedEntry {
    type Value = (u32, i64);

    ghost text = { entry_text };

    ghost valid = { IsEntry };

    #[tactic(auto, using(text_parts::proofs::Appends::appends))]
    fn write(value: &(u32, i64), out: &mut Vec<u8>) -> Result<(), AllocError> {
        put(out, b" ")?;
        put_number(out, u64::from(value.0))?;
        put(out, b" ")?;
        put_signed(out, value.1)?;
        Ok(())
    }
}

impl WritePart for TourLine {
    type Value = Tour;

    ghost text = { tour_text };

    ghost valid = { IsCalls };

    #[tactic(auto, using(text_parts::proofs::Appends::appends))]
    fn write(value: &Tour, out: &mut Vec<u8>) -> Result<(), AllocError> {
        let calls = value.calls();
        put(out, b"tour ")?;
        put_number(out, calls.len() as u64)?;
        put_all::<SpacedCall>(out, calls)?;
        put(out, b"\n")?;
        Ok(())
    }
}

impl WritePart for PointLines {
    type Value = Listed;

    ghost text = { point_text };

    ghost valid = { IsListed };

    #[tactic(auto, using(text_parts::proofs::Appends::appends))]
    fn write(value: &Listed, out: &mut Vec<u8>) -> Result<(), AllocError> {
        let tours = value.plan.tours();
        put(out, b"point ")?;
        put_ended(out, value.point.profit, b" ")?;
        put_ended(out, value.point.time, b" ")?;
        put_ended(out, tours.len() as u64, b"\n")?;
        put_all::<TourLine>(out, tours)?;
        Ok(())
    }
}

#[tactic(auto, using(text_parts::proofs::Appends::appends))]
fn put_lists(out: &mut Vec<u8>, entries: &[(u32, i64)], critical: &[u32]) -> Result<(), AllocError>
    ensures text { OnOk result (out.new.items ≡ out.old.items ++ lists_text entries.now critical.now) }
    ensures valid { OnOk result (AreItems IsEntry entries.now × IsCalls critical.now) }
{
    put_ended(out, entries.len() as u64, b" ")?;
    put_number(out, critical.len() as u64)?;
    put_all::<SpacedEntry>(out, entries)?;
    put_all::<SpacedCall>(out, critical)?;
    put(out, b"\n")?;
    Ok(())
}

#[tactic(auto, using(text_parts::proofs::Appends::appends))]
fn put_cut(out: &mut Vec<u8>, price: &Price, critical: &Tour) -> Result<(), AllocError>
    ensures text { OnOk result (out.new.items ≡ out.old.items ++ cut_text price.now critical.now) }
    ensures valid { OnOk result (IsPrice price.now × IsCalls critical.now) }
{
    put_ended(out, u64::from(price.alpha), b" ")?;
    put_ended(out, u64::from(price.beta), b" ")?;
    put_lists(out, price.pi.list(), critical.calls())?;
    Ok(())
}

impl WritePart for NodeLine {
    type Value = Node;

    ghost text = { node_text };

    ghost valid = { IsNode };

    #[tactic(auto, using(text_parts::proofs::Appends::appends))]
    fn write(value: &Node, out: &mut Vec<u8>) -> Result<(), AllocError> {
        match value {
            Node::Profit { v } => put_line(out, b"profit ", *v),
            Node::Time { v } => put_line(out, b"time ", *v),
            Node::Count { c } => put_line(out, b"count ", u64::from(*c)),
            Node::Arc { i, j } => {
                put(out, b"arc ")?;
                put_ended(out, u64::from(*i), b" ")?;
                put_ended(out, u64::from(*j), b"\n")?;
                Ok(())
            }
            Node::Cut { price, critical } => {
                put(out, b"cut ")?;
                put_cut(out, price, critical)?;
                Ok(())
            }
            Node::Dominated => put(out, b"dominated\n"),
            Node::Cutoff { k } => put_line(out, b"cutoff ", *k),
            Node::Stuck { reason } => {
                put(out, b"stuck ")?;
                put(out, ReasonWords::word(*reason))?;
                Ok(())
            }
            Node::Left => put(out, b"open\n"),
        }
    }
}

#[tactic(auto, using(text_parts::proofs::Appends::appends))]
fn put_instance(out: &mut Vec<u8>, cert: &Cert) -> Result<(), AllocError>
    ensures text { OnOk result (out.new.items ≡ out.old.items ++ instance_line cert.now.customers cert.now.team cert.now.scale) }
    ensures valid { OnOk result ((cert.now.customers < 2 ^ 64) × (cert.now.team < 2 ^ 64) × (cert.now.scale < 2 ^ 64)) }
{
    put(out, b"instance ")?;
    put_ended(out, cert.customers(), b" ")?;
    put_ended(out, cert.team(), b" ")?;
    put_ended(out, cert.scale(), b"\n")?;
    Ok(())
}

/// The one text of the certificate. What is written is a certificate of the definition, so reading it back answers it.
#[tactic(auto, using(text_parts::proofs::Appends::appends))]
pub fn write_cert(alloc: Global, cert: &Cert) -> Result<Vec<u8>, AllocError>
    ensures text { IfOk result (λ text. text.items ≡ cert_text cert.now) }
    ensures valid { OnOk result (IsCert cert.now) }
{
    let mut out = Vec::new(alloc);
    put(&mut out, FirstLines::word(Version::One))?;
    put_instance(&mut out, cert)?;
    put_counted::<PointLines>(&mut out, b"points ", cert.points())?;
    put_counted::<NodeLine>(&mut out, b"nodes ", cert.nodes())?;
    put(&mut out, b"end\n")?;
    Ok(out)
}
