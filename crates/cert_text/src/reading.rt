//! Reading a whole certificate.

ghost use Rattle.std.specs.Prelude.{◌≡◌, IfOk, IfErr};
ghost use Rattle.text_parts.specs.Gives.{GivesInMemory};
ghost use Rattle.cert_text.specs.Text.{cert_text, IsCert};
ghost use Rattle.cert_text.specs.Reading.{cert_at, whole_at};
ghost use Rattle.cert_text.specs.Refusal.{Placed, Refuses};

use crate::cert::Cert;
use crate::head::{read_head, read_version};
use crate::line::PointLines;
use crate::node::NodeLine;
use std::alloc::Global;
use text_parts::part::counted;
use text_parts::reading::word;
use text_parts::{ReadFail, Stop, TextCause};

/// Why bytes gave no certificate.
#[derive(Clone, Copy, Debug, PartialEq, Eq)]
pub enum TextFail {
    /// No certificate has these bytes. The first `at` of them begin the text of some certificate, and no more do.
    Refused { at: u64, cause: TextCause },
    /// Memory was wanting.
    Memory,
}

#[tactic(auto, unfolding(crate::specs::Reading::cert_at))]
fn cert(alloc: Global, bytes: &[u8]) -> Result<(Cert, &[u8]), ReadFail>
    ensures { GivesInMemory (λ x. (x.0, x.1.now)) result (cert_at bytes.now) }
{
    let (_version, rest) = read_version(bytes)?;
    let (head, rest) = read_head(rest)?;
    let (points, rest) = counted::<PointLines>(alloc, rest, b"points ")?;
    let (nodes, rest) = counted::<NodeLine>(alloc, rest, b"nodes ")?;
    let rest = word(rest, b"end\n")?;
    let cert = Cert::from_parts(head.customers, head.team, head.scale, points, nodes);
    Ok((cert, rest))
}

/// The certificate, where nothing stands behind its text.
#[tactic(auto, unfolding(crate::specs::Reading::whole_at))]
fn whole(alloc: Global, bytes: &[u8]) -> Result<Cert, ReadFail>
    ensures { GivesInMemory (λ c. c) result (whole_at bytes.now) }
{
    let (cert, rest) = cert(alloc, bytes)?;
    if !rest.is_empty() {
        return Err(ReadFail::Stopped(Stop { left: rest.len() }));
    }
    Ok(cert)
}

/// The refusal of so many bytes.
fn placed(len: usize, fail: ReadFail) -> TextFail
    ensures { Placed len fail result }
{
    match fail {
        ReadFail::Memory => TextFail::Memory,
        ReadFail::Stopped(stop) => TextFail::Refused {
            at: len.saturating_sub(stop.left) as u64,
            cause: stop.cause(),
        },
    }
}

/// The certificate whose text the bytes are.
///
/// It goes through the bytes once, and makes no room for more items than it has read, whatever number the text names.
pub fn read_cert(alloc: Global, bytes: &[u8]) -> Result<Cert, TextFail>
    ensures found { IfOk result (λ c. IsCert c × (bytes.now ≡ cert_text c)) }
    // Bytes are refused only where no certificate has them, at the end of their longest front that begins the text of
    // some certificate; the cause is the end exactly where that front is all of them.
    ensures refused { IfErr result (Refuses bytes.now) }
{
    match whole(alloc, bytes) {
        Ok(cert) => Ok(cert),
        Err(fail) => Err(placed(bytes.len(), fail)),
    }
}
