//! Whole reads and writes over the readers and writers of std. The contracts name the bytes where those tell them.

ghost use Rattle.std.specs.Prelude.{◌≡◌, ◌≤◌, true, take, length, IfOk, IfSome};
ghost use Rattle.edge_core.specs.Sink.{Gains, GainsFront};
ghost use Rattle.edge_core.specs.Streams.{Gives};

use crate::GetFail;
use std::alloc::Global;
use std::io::{ErrorKind, Read, Write};

/// How many bytes are read at once, at most.
const BUFFER_LEN: u64 = 4096;

/// Writes all these bytes and says whether the writer took them. An interrupted call is made again. A writer that takes
/// nothing has failed.
#[tactic(auto, using(crate::proofs::StreamLemmas::whole_write))]
pub(crate) fn write_whole<W: Write>(writer: &mut W, bytes: &[u8]) -> bool
    ensures whole { result ≡ true → Gains bytes.now (W.contents writer.old) (W.contents writer.new) }

    // also where it failed, since a call of std's `write` that fails takes nothing
    ensures front { GainsFront bytes.now (W.contents writer.old) (W.contents writer.new) }
{
    let mut done = 0;
    for _ in 0..u64::MAX {
        if done == bytes.len() {
            return true;
        }
        match writer.write(&bytes[done..]) {
            Ok(0) => return false,
            Ok(count) => done += count,
            Err(error) if error.kind() == ErrorKind::Interrupted => {}
            Err(_) => return false,
        }
    }
    false
}

/// The next bytes of a reader, at most `limit`. An interrupted call is made again. Fewer than `limit` are given only where
/// the reader is at its end, which it says by a read of nothing.
pub(crate) fn read_front<T: Read>(
    alloc: Global,
    reader: &mut T,
    limit: u64,
) -> Result<Vec<u8>, GetFail>
    ensures short { IfOk result (λ bytes. length bytes.items ≤ limit) }
    ensures front { IfOk result (λ bytes. IfSome (T.remaining reader.old) (λ left.
        bytes.items ≡ take limit left)) }
    ensures rest { IfOk result (λ bytes.
        Gives bytes.items (T.remaining reader.old) (T.remaining reader.new)) }
{
    let mut bytes = Vec::new(alloc);
    let mut buffer = [0u8; BUFFER_LEN as usize];
    for _ in 0..u64::MAX {
        let room = (limit - bytes.len() as u64).min(BUFFER_LEN) as usize;
        if room == 0 {
            return Ok(bytes);
        }
        match reader.read(&mut buffer[..room]) {
            Ok(0) => return Ok(bytes),
            Ok(count) => bytes.extend_from_slice(&buffer[..count])?,
            Err(error) if error.kind() == ErrorKind::Interrupted => {}
            Err(_) => return Err(GetFail::Failed),
        }
    }
    Err(GetFail::Failed)
}
