//! The summary: five lines with a word and a number.

ghost use Rattle.std.specs.Prelude.{◌≡◌, ◌++◌, OnOk};
ghost use Rattle.report_text.specs.Report.{last_point, summary_text};

use orienteering::{Box2, Listed, Point};
use std::alloc::AllocError;
use text_parts::writing::put_line;

/// The point that is listed last, or 0 and 0 where none is.
fn last_listed(points: &[Listed]) -> Point
    ensures { result ≡ last_point points.now }
{
    match points.last() {
        Some(listed) => listed.point,
        None => Point { profit: 0, time: 0 },
    }
}

/// Puts the summary.
#[tactic(auto, using(text_parts::proofs::Appends::appends))]
pub fn put_summary(
    out: &mut Vec<u8>,
    calls: u32,
    points: &[Listed],
    boxes: &[Box2],
) -> Result<(), AllocError>
    ensures { OnOk result (out.new.items ≡ out.old.items ++ summary_text calls points.now boxes.now) }
{
    let last = last_listed(points);
    put_line(out, b"calls ", u64::from(calls))?;
    put_line(out, b"points ", points.len() as u64)?;
    put_line(out, b"boxes ", boxes.len() as u64)?;
    put_line(out, b"profit ", last.profit)?;
    put_line(out, b"time ", last.time)?;
    Ok(())
}
