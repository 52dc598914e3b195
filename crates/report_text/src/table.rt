//! The table: a line with columns for each point.

ghost use Rattle.std.specs.Prelude.{◌≡◌, ◌++◌, OnOk, codes, decimal};
ghost use Rattle.std.specs.List.{flat_map};
ghost use Rattle.report_text.specs.Report.{right, joined, table_head, calls_column, point_row};

use crate::plain::SpacedCall;
use itoa::Buffer;
use orienteering::{Listed, Tour};
use std::alloc::AllocError;
use text_parts::writing::{WritePart, put, put_all, put_number};

/// The calls of a tour behind a bar.
struct BarredTour;

/// The line of a point.
struct PointRow;

/// Puts the text behind spaces that fill so many places.
fn put_right(out: &mut Vec<u8>, places: usize, text: &[u8]) -> Result<(), AllocError>
    ensures { OnOk result (out.new.items ≡ out.old.items ++ right places text.now) }
{
    for _ in 0..places.saturating_sub(text.len()) {
        out.push(b' ')?;
    }
    put(out, text)
}

/// Puts the decimal digits of a number behind spaces that fill so many places.
fn put_right_number(out: &mut Vec<u8>, places: usize, n: u64) -> Result<(), AllocError>
    ensures { OnOk result (out.new.items ≡ out.old.items ++ right places (decimal n)) }
{
    let mut buffer = Buffer::new();
    put_right(out, places, buffer.format(n).as_bytes())
}

/// Puts the calls of a tour, one space between them.
fn put_calls(out: &mut Vec<u8>, calls: &[u32]) -> Result<(), AllocError>
    ensures { OnOk result (out.new.items ≡ out.old.items ++ joined (codes " ") decimal calls.now) }
{
    let Some((first, others)) = calls.split_first() else {
        return Ok(());
    };
    put_number(out, u64::from(*first))?;
    put_all::<SpacedCall>(out, others)?;
    Ok(())
}

impl WritePart for BarredTour {
    ghost use Rattle.std.specs.Prelude.{List, ℕ};

    type Value = Tour;

    ghost text = { λ tour. codes " | " ++ joined (codes " ") decimal tour };

    ghost valid = { λ _. Unit {0} };

    #[tactic(auto, using(text_parts::proofs::Appends::appends))]
    fn write(value: &Tour, out: &mut Vec<u8>) -> Result<(), AllocError> {
        put(out, b" | ")?;
        put_calls(out, value.calls())?;
        Ok(())
    }
}

/// Puts the column of calls: nothing where there is no tour.
fn put_tours(out: &mut Vec<u8>, tours: &[Tour]) -> Result<(), AllocError>
    ensures { OnOk result (out.new.items ≡ out.old.items ++ calls_column tours.now) }
{
    let Some((first, others)) = tours.split_first() else {
        return Ok(());
    };
    put(out, b"  ")?;
    put_calls(out, first.calls())?;
    put_all::<BarredTour>(out, others)?;
    Ok(())
}

impl WritePart for PointRow {
    type Value = Listed;

    ghost text = { point_row };

    ghost valid = { λ _. Unit {0} };

    #[tactic(auto, using(text_parts::proofs::Appends::appends))]
    fn write(value: &Listed, out: &mut Vec<u8>) -> Result<(), AllocError> {
        let tours = value.plan.tours();
        put_right_number(out, 10, value.point.profit)?;
        put_right_number(out, 12, value.point.time)?;
        put_right_number(out, 6, tours.len() as u64)?;
        put_tours(out, tours)?;
        put(out, b"\n")?;
        Ok(())
    }
}

/// Puts the line of the columns' names.
#[tactic(auto, using(text_parts::proofs::Appends::appends))]
fn put_head(out: &mut Vec<u8>) -> Result<(), AllocError>
    ensures { OnOk result (out.new.items ≡ out.old.items ++ table_head) }
{
    put_right(out, 10, b"profit")?;
    put_right(out, 12, b"time")?;
    put_right(out, 6, b"tours")?;
    put(out, b"  calls\n")?;
    Ok(())
}

/// Puts the table of the points.
#[tactic(auto, using(text_parts::proofs::Appends::appends))]
pub fn put_points(out: &mut Vec<u8>, points: &[Listed]) -> Result<(), AllocError>
    ensures { OnOk result (out.new.items ≡ out.old.items ++ (table_head ++ flat_map point_row points.now)) }
{
    put_head(out)?;
    put_all::<PointRow>(out, points)?;
    Ok(())
}
