//! The plain style: lines of words and numbers.

ghost use Rattle.std.specs.Prelude.{◌≡◌, ◌++◌, OnOk, codes};
ghost use Rattle.text_parts.specs.Texts.{counted_text};
ghost use Rattle.report_text.specs.Report.{spaced, tour_line, point_lines, box_line};

use orienteering::{Box2, Listed, Tour};
use std::alloc::AllocError;
use text_parts::writing::{WritePart, put, put_all, put_counted, put_ended, put_number};

/// A call behind a space.
pub struct SpacedCall;

/// The line of a tour.
struct TourLine;

/// The line of a point, and the lines of its tours.
struct PointLines;

/// The line of a box.
struct BoxLine;

impl WritePart for SpacedCall {
    type Value = u32;

    ghost text = { spaced };

    ghost valid = { λ _. Unit {0} };

    #[tactic(auto, using(text_parts::proofs::Appends::appends))]
    fn write(value: &u32, out: &mut Vec<u8>) -> Result<(), AllocError> {
        put(out, b" ")?;
        put_number(out, u64::from(*value))?;
        Ok(())
    }
}

impl WritePart for TourLine {
    type Value = Tour;

    ghost text = { tour_line };

    ghost valid = { λ _. Unit {0} };

    #[tactic(auto, using(text_parts::proofs::Appends::appends))]
    fn write(value: &Tour, out: &mut Vec<u8>) -> Result<(), AllocError> {
        put(out, b"tour")?;
        put_all::<SpacedCall>(out, value.calls())?;
        put(out, b"\n")?;
        Ok(())
    }
}

impl WritePart for PointLines {
    type Value = Listed;

    ghost text = { point_lines };

    ghost valid = { λ _. Unit {0} };

    #[tactic(auto, using(text_parts::proofs::Appends::appends))]
    fn write(value: &Listed, out: &mut Vec<u8>) -> Result<(), AllocError> {
        let tours = value.plan.tours();
        put(out, b"point ")?;
        put_ended(out, value.point.profit, b" ")?;
        put_ended(out, value.point.time, b" ")?;
        put_ended(out, tours.len() as u64, b"\n")?;
        put_all::<TourLine>(out, tours)?;
        Ok(())
    }
}

impl WritePart for BoxLine {
    type Value = Box2;

    ghost text = { box_line };

    ghost valid = { λ _. Unit {0} };

    #[tactic(auto, using(text_parts::proofs::Appends::appends))]
    fn write(value: &Box2, out: &mut Vec<u8>) -> Result<(), AllocError> {
        put(out, b"box ")?;
        put_ended(out, value.p_lo, b" ")?;
        put_ended(out, value.p_hi, b" ")?;
        put_ended(out, value.t_lo, b" ")?;
        put_ended(out, value.t_hi, b"\n")?;
        Ok(())
    }
}

/// Puts the number of points, and the points.
pub fn put_points(out: &mut Vec<u8>, points: &[Listed]) -> Result<(), AllocError>
    ensures { OnOk result (out.new.items ≡ out.old.items ++ counted_text (codes "points ") point_lines points.now) }
{
    put_counted::<PointLines>(out, b"points ", points)
}

/// Puts the number of boxes, and the boxes.
pub fn put_boxes(out: &mut Vec<u8>, boxes: &[Box2]) -> Result<(), AllocError>
    ensures { OnOk result (out.new.items ≡ out.old.items ++ counted_text (codes "boxes ") box_line boxes.now) }
{
    put_counted::<BoxLine>(out, b"boxes ", boxes)
}
