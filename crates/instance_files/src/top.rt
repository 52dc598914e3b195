//! Files of the TOP profile.

ghost use Rattle.std.specs.Prelude.{◌≡◌, IfOk};
ghost use Rattle.std.specs.Str.{bytes_eq};
ghost use Rattle.site_model.specs.Parts.{problem_of};
ghost use Rattle.fixed_num.specs.Length.{scale_number};
ghost use Rattle.instance_files.specs.Ahead.{ahead};
ghost use Rattle.instance_files.specs.Rows.{Answers, head_line};
ghost use Rattle.instance_files.specs.Finds.{Finds};
ghost use Rattle.instance_files.specs.Top.{field_behind, row_count, top_count, top_team, top_limit, top_row, top_rows, top_problem};

use crate::fields::Fields;
use crate::lines::Lines;
use crate::op::plain_place;
use crate::table::{FileFail, RowReader, at_line, head_row, read_places, tours};
use crate::values::{FileCause, read_number, read_value};
use fixed_num::{Decimal, Scale};
use orienteering::Place;
use site_model::{Parts, Places};
use std::alloc::Global;

fn same_bytes(a: &[u8], b: &[u8]) -> bool
    ensures { result ≡ bytes_eq a.now b.now }
{
    a == b
}

#[tactic(auto, unfolding(crate::specs::Top::field_behind))]
fn field_behind<'a>(fields: &Fields<'a>, word: &[u8]) -> Result<&'a [u8], FileCause>
    ensures { Finds result (field_behind word.now fields.now) }
{
    if fields.len() != 2 {
        return Err(FileCause::Head);
    }
    if same_bytes(fields.at(0), word) {
        Ok(fields.at(1))
    } else {
        Err(FileCause::Head)
    }
}

fn row_count(number: Decimal) -> Result<u64, FileCause>
    ensures { result ≡ row_count number }
{
    if !number.whole || number.tenk < 0 {
        return Err(FileCause::Head);
    }
    let tenk = number.tenk.unsigned_abs();
    if tenk < 20_000 {
        return Err(FileCause::Head);
    }
    if tenk > 3_020_000 {
        Err(FileCause::TooMany)
    } else {
        Ok(tenk / 10_000)
    }
}

#[tactic(auto, unfolding(crate::specs::Top::top_count))]
fn count(fields: &Fields) -> Result<u64, FileCause>
    ensures { result ≡ top_count fields.now }
{
    let field = field_behind(fields, b"n")?;
    let number = read_number(field)?;
    row_count(number)
}

#[tactic(auto, unfolding(crate::specs::Top::top_team))]
fn team_size(fields: &Fields, team: Option<u32>) -> Result<u32, FileCause>
    ensures { result ≡ top_team team fields.now }
{
    let field = field_behind(fields, b"m")?;
    tours(team, field)
}

#[tactic(auto, unfolding(crate::specs::Top::top_limit))]
fn limit(fields: &Fields, scale: Scale) -> Result<u64, FileCause>
    ensures { result ≡ top_limit (scale_number scale) fields.now }
{
    let field = field_behind(fields, b"tmax")?;
    read_value(field, scale)
}

/// Reads so many rows at a limit.
#[derive(Clone, Copy)]
struct TopRows {
    count: u64,
    limit: u64,
}

impl RowReader for TopRows {
    ghost reading = { λ rows. top_row rows.count rows.limit };

    #[tactic(auto, unfolding(crate::specs::Top::top_row))]
    fn read_row(&self, number: u64, fields: &Fields) -> Result<Place, FileCause> {
        if number >= self.count {
            return Err(FileCause::RowCount);
        }
        plain_place(fields, self.limit, number == 0 || number + 1 == self.count)
    }
}

#[tactic(auto, unfolding(crate::specs::Rows::head_line))]
fn count_line(lines: &mut Lines) -> Result<u64, FileFail>
    ensures line { Answers (λ count. (count, lines.new.rows)) (head_line top_count lines.old.end lines.old.rows) result }
    ensures end { IfOk result (λ _. lines.new.end ≡ lines.old.end) }
{
    let row = head_row(lines)?;
    at_line(row.line, count(&row.fields))
}

#[tactic(auto, unfolding(crate::specs::Rows::head_line))]
fn team_line(lines: &mut Lines, team: Option<u32>) -> Result<u32, FileFail>
    ensures line { Answers (λ size. (size, lines.new.rows)) (head_line (top_team team) lines.old.end lines.old.rows) result }
    ensures end { IfOk result (λ _. lines.new.end ≡ lines.old.end) }
{
    let row = head_row(lines)?;
    at_line(row.line, team_size(&row.fields, team))
}

#[tactic(auto, unfolding(crate::specs::Rows::head_line))]
fn limit_line(lines: &mut Lines, scale: Scale) -> Result<u64, FileFail>
    ensures line { Answers (λ limit. (limit, lines.new.rows)) (head_line (top_limit (scale_number scale)) lines.old.end lines.old.rows) result }
    ensures end { IfOk result (λ _. lines.new.end ≡ lines.old.end) }
{
    let row = head_row(lines)?;
    at_line(row.line, limit(&row.fields, scale))
}

/// The places of all rows, where there are so many.
#[tactic(auto, unfolding(crate::specs::Top::top_rows))]
fn read_rows(
    alloc: Global,
    lines: &mut Lines,
    count: u64,
    limit: u64,
) -> Result<Vec<Place>, FileFail>
    ensures { Answers (λ places. places.items) (top_rows count limit lines.old.end lines.old.rows) result }
{
    let table = read_places(alloc, lines, &TopRows { count, limit })?;
    if (table.places.len() as u64) < count {
        return Err(FileFail::Refused {
            line: table.end,
            cause: FileCause::RowCount,
        });
    }
    Ok(table.places)
}

/// The parts of an instance in a file of the TOP profile.
#[tactic(auto, unfolding(crate::specs::Top::top_problem))]
pub(crate) fn read_parts(
    alloc: Global,
    bytes: &[u8],
    scale: Scale,
    team: Option<u32>,
) -> Result<Parts, FileFail>
    ensures { Answers problem_of (top_problem (scale_number scale) team (ahead 1 bytes.now).end (ahead 1 bytes.now).rows) result }
{
    let mut lines = Lines::new(bytes);
    let count = count_line(&mut lines)?;
    let team = team_line(&mut lines, team)?;
    let limit = limit_line(&mut lines, scale)?;
    let places = read_rows(alloc, &mut lines, count, limit)?;
    Ok(Parts {
        scale,
        team,
        places: Places::from_list(places),
    })
}
