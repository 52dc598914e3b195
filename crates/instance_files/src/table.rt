//! The lines of the head and the rows of a file, whatever its profile.

ghost use Rattle.std.specs.Prelude.{◌≡◌, ◌∷◌, ◌++◌, ℕ, List, Result, [], IfOk};
ghost use Rattle.orienteering.specs.declared.Place.{Place as PlaceRecord};
ghost use Rattle.instance_files.specs.declared.values.FileCause.{FileCause as Cause};
ghost use Rattle.instance_files.specs.declared.table.FileFail.TheVariants.{Memory as WantOfMemory};
ghost use Rattle.instance_files.specs.Ahead.{GivesHead};
ghost use Rattle.instance_files.specs.Rows.{Answers, at_line, places_of, tours_of};

use crate::fields::Fields;
use crate::lines::{Lines, Next, Row};
use crate::values::{FileCause, read_count, read_number};
use orienteering::Place;
use std::alloc::{AllocError, Global};

/// Why no instance is read.
#[derive(Clone, Copy, Debug, PartialEq, Eq)]
pub enum FileFail {
    /// The first line that is refused, counted from 1 with blank lines, and why. What is missing is told at the number behind
    /// that of the last line.
    Refused { line: u64, cause: FileCause },
    /// Want of memory.
    Memory,
}

impl From<AllocError> for FileFail {
    ghost from_gives = { λ _ fail. fail ≡ WantOfMemory };

    fn from(_: AllocError) -> Self {
        FileFail::Memory
    }
}

/// The number of tours that is given, or else that of the field.
pub(crate) fn tours(team: Option<u32>, field: &[u8]) -> Result<u32, FileCause>
    ensures { result ≡ tours_of team field.now }
{
    match team {
        None => read_count(field),
        Some(team) => {
            let _number = read_number(field)?;
            Ok(team)
        }
    }
}

/// The next line of the head.
pub(crate) fn head_row<'a>(lines: &mut Lines<'a>) -> Result<Row<'a>, FileFail>
    ensures { GivesHead lines.old lines.new result }
{
    match lines.next_row() {
        Next::NextRow(row) => Ok(row),
        Next::End { line } => Err(FileFail::Refused {
            line,
            cause: FileCause::Head,
        }),
    }
}

/// What a line says, or the line with its refusal.
pub(crate) fn at_line<T>(line: u64, read: Result<T, FileCause>) -> Result<T, FileFail>
    ensures { Answers (λ x. x) (at_line line read) result }
{
    read.map_err(|cause| FileFail::Refused { line, cause })
}

/// How a profile reads a row.
pub(crate) trait RowReader {
    ghost reading: { Self → ℕ → List (List ℕ) → Result PlaceRecord Cause };

    /// The place of the row with this number from 0.
    fn read_row(&self, number: u64, fields: &Fields) -> Result<Place, FileCause>
        ensures { result ≡ reading self.now number fields.now };
}

/// The places of the rows, and the number behind that of the last line.
#[derive(Drop)]
pub(crate) struct Table {
    pub places: Vec<Place>,
    pub end: u64,
}

pub(crate) fn add(places: &mut Vec<Place>, place: Place) -> Result<(), AllocError>
    ensures { IfOk result (λ _. places.new.items ≡ places.old.items ++ place ∷ []) }
{
    places.push(place)?;
    Ok(())
}

/// Reads all rows that are left.
pub(crate) fn read_places<R: RowReader>(
    alloc: Global,
    lines: &mut Lines,
    reader: &R,
) -> Result<Table, FileFail>
    ensures places { Answers (λ table. table.places.items) (places_of (R.reading reader.now) 0 lines.old.rows) result }
    ensures end { IfOk result (λ table. table.end ≡ lines.old.end) }
{
    let mut places = Vec::new(alloc);
    'rows: loop {
        match lines.next_row() {
            Next::End { line } => return Ok(Table { places, end: line }),
            Next::NextRow(row) => {
                let read = reader.read_row(places.len() as u64, &row.fields);
                let place = at_line(row.line, read)?;
                add(&mut places, place)?;
            }
        }
    }
}
