//! Calls, entries of prices, tours and points.

ghost use Rattle.std.specs.Prelude.{◌≡◌};
ghost use Rattle.cert_text.specs.Reading.{call_at, entry_at, tour_at, point_at};
ghost use Rattle.text_parts.specs.Gives.{GivesInMemory};

use orienteering::{Listed, Plan, Point, Tour};
use std::alloc::Global;
use text_parts::ReadFail;
use text_parts::part::{ReadPart, list};
use text_parts::reading::{ended_number, number, signed, word};

/// A call behind a space.
pub struct SpacedCall;

/// A call and its price, each behind a space.
pub struct SpacedEntry;

/// A line with a word, a number, and that many calls.
pub struct TourLine;

/// A line with a profit, a time and a number of tours, and the lines of those tours.
pub struct PointLines;

impl ReadPart for SpacedCall {
    type Value = u32;

    ghost reading = { call_at };

    #[tactic(auto, unfolding(crate::specs::Reading::call_at))]
    fn read(_alloc: Global, bytes: &[u8]) -> Result<(u32, &[u8]), ReadFail> {
        let rest = word(bytes, b" ")?;
        let (call, rest) = number(rest, u64::from(u32::MAX))?;
        Ok((call as u32, rest))
    }
}

impl ReadPart for SpacedEntry {
    type Value = (u32, i64);

    ghost reading = { entry_at };

    #[tactic(auto, unfolding(crate::specs::Reading::entry_at))]
    fn read(_alloc: Global, bytes: &[u8]) -> Result<((u32, i64), &[u8]), ReadFail> {
        let rest = word(bytes, b" ")?;
        let (call, rest) = number(rest, u64::from(u32::MAX))?;
        let rest = word(rest, b" ")?;
        let (price, rest) = signed(rest)?;
        Ok(((call as u32, price), rest))
    }
}

impl ReadPart for TourLine {
    type Value = Tour;

    ghost reading = { tour_at };

    #[tactic(auto, unfolding(crate::specs::Reading::tour_at))]
    fn read(alloc: Global, bytes: &[u8]) -> Result<(Tour, &[u8]), ReadFail> {
        let rest = word(bytes, b"tour ")?;
        let (count, rest) = number(rest, u64::MAX)?;
        let (calls, rest) = list::<SpacedCall>(alloc, rest, count)?;
        let rest = word(rest, b"\n")?;
        Ok((Tour::from_calls(calls), rest))
    }
}

impl ReadPart for PointLines {
    type Value = Listed;

    ghost reading = { point_at };

    #[tactic(auto, unfolding(crate::specs::Reading::point_at))]
    fn read(alloc: Global, bytes: &[u8]) -> Result<(Listed, &[u8]), ReadFail> {
        let rest = word(bytes, b"point ")?;
        let (profit, rest) = ended_number(rest, u64::MAX, b" ")?;
        let (time, rest) = ended_number(rest, u64::MAX, b" ")?;
        let (count, rest) = ended_number(rest, u64::MAX, b"\n")?;
        let (tours, rest) = list::<TourLine>(alloc, rest, count)?;
        let listed = Listed {
            point: Point { profit, time },
            plan: Plan::from_tours(tours),
        };
        Ok((listed, rest))
    }
}
