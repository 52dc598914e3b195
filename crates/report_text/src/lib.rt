//! The text of a report: the listed points with their plans, and the boxes that are left, in lines of words or in a
//! table; and the summary of a run on a generated instance.
//!
//! `specs/Report.antt` defines both texts from points and boxes. Each function here answers exactly that text, or finds
//! no memory. The crate stands on `orienteering`, whose plain data it prints, and on `text_parts`, which puts the words
//! and numbers.
#![tactic(auto)]

ghost use Rattle.std.specs.Prelude.{◌≡◌, IfOk};
ghost use Rattle.report_text.specs.Report.{report_text, summary_text};

mod plain;
mod style;
mod summary_lines;
mod table;

use orienteering::{Box2, Listed};
use std::alloc::{AllocError, Global};
pub use style::Style;

/// The report of these points and boxes: profits in units of score, times in scaled units.
pub fn report(
    alloc: Global,
    points: &[Listed],
    boxes: &[Box2],
    style: Style,
) -> Result<Vec<u8>, AllocError>
    ensures { IfOk result (λ text. text.items ≡ report_text style points.now boxes.now) }
{
    let mut out = Vec::new(alloc);
    match style {
        Style::Plain => plain::put_points(&mut out, points)?,
        Style::Table => table::put_points(&mut out, points)?,
    }
    plain::put_boxes(&mut out, boxes)?;
    Ok(out)
}

/// The summary of these points and boxes, for an instance with so many calls: how many there are of each, and the
/// profit and the time of the last point, in scaled units, or 0 and 0 where no point is listed.
pub fn summary(
    alloc: Global,
    calls: u32,
    points: &[Listed],
    boxes: &[Box2],
) -> Result<Vec<u8>, AllocError>
    ensures { IfOk result (λ text. text.items ≡ summary_text calls points.now boxes.now) }
{
    let mut out = Vec::new(alloc);
    summary_lines::put_summary(&mut out, calls, points, boxes)?;
    Ok(out)
}

#[cfg(test)]
mod tests;
