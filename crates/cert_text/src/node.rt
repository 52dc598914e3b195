//! Node lines.

ghost use Rattle.std.specs.Prelude.{◌≡◌, codes};
ghost use Rattle.text_parts.specs.Gives.{Gives, GivesInMemory};
ghost use Rattle.text_parts.specs.Reading.{mapped, one_of, U32, U64, ended_number_at};
ghost use Rattle.cert_text.specs.Text.{reason_text};
ghost use Rattle.cert_text.specs.Reading.{kind_text, arc_at, cut_at, body_at, node_at, all_reasons, all_kinds};

use crate::line::{SpacedCall, SpacedEntry};
use orienteering::{Entries, Node, Price, Reason, Tour};
use std::alloc::Global;
use text_parts::part::{ReadPart, Words, find_word, list};
use text_parts::reading::{ended_number, number, word};
use text_parts::{ReadFail, Stop};

/// What a node line begins with.
#[derive(Clone, Copy, Debug, PartialEq, Eq)]
pub enum NodeKind {
    Profit,
    Time,
    Count,
    Arc,
    Cut,
    Dominated,
    Cutoff,
    Stuck,
    Open,
}

/// The words that node lines begin with. Two of them are whole lines.
pub struct NodeWords;

/// The reasons of stuck nodes.
pub struct ReasonWords;

/// A node line.
pub struct NodeLine;

impl Words for NodeWords {
    type Value = NodeKind;

    ghost word = { kind_text };

    fn word(kind: NodeKind) -> &'static [u8] {
        match kind {
            NodeKind::Profit => b"profit ",
            NodeKind::Time => b"time ",
            NodeKind::Count => b"count ",
            NodeKind::Arc => b"arc ",
            NodeKind::Cut => b"cut ",
            NodeKind::Dominated => b"dominated\n",
            NodeKind::Cutoff => b"cutoff ",
            NodeKind::Stuck => b"stuck ",
            NodeKind::Open => b"open\n",
        }
    }
}

impl Words for ReasonWords {
    type Value = Reason;

    ghost word = { reason_text };

    fn word(reason: Reason) -> &'static [u8] {
        match reason {
            Reason::NoBox => b"box\n",
            Reason::Cycle => b"cycle\n",
            Reason::Late => b"late\n",
            Reason::Side => b"side\n",
            Reason::Many => b"many\n",
            Reason::Few => b"few\n",
        }
    }
}

fn reason(bytes: &[u8]) -> Result<(Reason, &[u8]), Stop>
    ensures { Gives (λ x. (x.0, x.1.now)) result (one_of reason_text all_reasons bytes.now) }
{
    let reasons = [
        Reason::NoBox,
        Reason::Cycle,
        Reason::Late,
        Reason::Side,
        Reason::Many,
        Reason::Few,
    ];
    find_word::<ReasonWords>(bytes, &reasons)
}

fn node_kind(bytes: &[u8]) -> Result<(NodeKind, &[u8]), Stop>
    ensures { Gives (λ x. (x.0, x.1.now)) result (one_of kind_text all_kinds bytes.now) }
{
    let kinds = [
        NodeKind::Profit,
        NodeKind::Time,
        NodeKind::Count,
        NodeKind::Arc,
        NodeKind::Cut,
        NodeKind::Dominated,
        NodeKind::Cutoff,
        NodeKind::Stuck,
        NodeKind::Open,
    ];
    find_word::<NodeWords>(bytes, &kinds)
}

/// The arc behind the word of its line.
#[tactic(auto, unfolding(crate::specs::Reading::arc_at))]
fn arc(bytes: &[u8]) -> Result<(Node, &[u8]), Stop>
    ensures { Gives (λ x. (x.0, x.1.now)) result (arc_at bytes.now) }
{
    let (i, rest) = ended_number(bytes, u64::from(u32::MAX), b" ")?;
    let (j, rest) = ended_number(rest, u64::from(u32::MAX), b"\n")?;
    let arc = Node::Arc {
        i: i as u32,
        j: j as u32,
    };
    Ok((arc, rest))
}

/// The cut behind the word of its line: two weights, two numbers of items, the entries, and the critical calls.
#[tactic(auto, unfolding(crate::specs::Reading::cut_at))]
fn cut(alloc: Global, bytes: &[u8]) -> Result<(Node, &[u8]), ReadFail>
    ensures { GivesInMemory (λ x. (x.0, x.1.now)) result (cut_at bytes.now) }
{
    let (alpha, rest) = ended_number(bytes, u64::from(u32::MAX), b" ")?;
    let (beta, rest) = ended_number(rest, u64::from(u32::MAX), b" ")?;
    let (prices, rest) = ended_number(rest, u64::MAX, b" ")?;
    let (count, rest) = number(rest, u64::MAX)?;
    let (entries, rest) = list::<SpacedEntry>(alloc, rest, prices)?;
    let (critical, rest) = list::<SpacedCall>(alloc, rest, count)?;
    let rest = word(rest, b"\n")?;
    let price = Price {
        alpha: alpha as u32,
        beta: beta as u32,
        pi: Entries::from_list(entries),
    };
    let critical = Tour::from_calls(critical);
    Ok((Node::Cut { price, critical }, rest))
}

/// What stands behind the word of a node line.
#[tactic(auto, unfolding(crate::specs::Reading::body_at))]
fn body(alloc: Global, kind: NodeKind, bytes: &[u8]) -> Result<(Node, &[u8]), ReadFail>
    ensures { GivesInMemory (λ x. (x.0, x.1.now)) result (body_at kind bytes.now) }
{
    match kind {
        NodeKind::Profit => {
            let (v, rest) = ended_number(bytes, u64::MAX, b"\n")?;
            Ok((Node::Profit { v }, rest))
        }
        NodeKind::Time => {
            let (v, rest) = ended_number(bytes, u64::MAX, b"\n")?;
            Ok((Node::Time { v }, rest))
        }
        NodeKind::Count => {
            let (c, rest) = ended_number(bytes, u64::from(u32::MAX), b"\n")?;
            Ok((Node::Count { c: c as u32 }, rest))
        }
        NodeKind::Arc => Ok(arc(bytes)?),
        NodeKind::Cut => cut(alloc, bytes),
        NodeKind::Dominated => Ok((Node::Dominated, bytes)),
        NodeKind::Cutoff => {
            let (k, rest) = ended_number(bytes, u64::MAX, b"\n")?;
            Ok((Node::Cutoff { k }, rest))
        }
        NodeKind::Stuck => {
            let (reason, rest) = reason(bytes)?;
            Ok((Node::Stuck { reason }, rest))
        }
        NodeKind::Open => Ok((Node::Left, bytes)),
    }
}

impl ReadPart for NodeLine {
    type Value = Node;

    ghost reading = { node_at };

    #[tactic(auto, unfolding(crate::specs::Reading::node_at))]
    fn read(alloc: Global, bytes: &[u8]) -> Result<(Node, &[u8]), ReadFail> {
        let (kind, rest) = node_kind(bytes)?;
        body(alloc, kind, rest)
    }
}
