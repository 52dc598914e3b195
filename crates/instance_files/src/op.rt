//! Files of the OP profile.

ghost use Rattle.std.specs.Prelude.{◌≡◌, ◌≤◌, IfOk, length};
ghost use Rattle.site_model.specs.Parts.{problem_of};
ghost use Rattle.fixed_num.specs.Length.{scale_number};
ghost use Rattle.instance_files.specs.Ahead.{ahead};
ghost use Rattle.instance_files.specs.Rows.{Answers, head_line};
ghost use Rattle.instance_files.specs.Op.{row_score, plain_place, op_row, op_head, op_rows, op_problem, end_last};

use crate::fields::Fields;
use crate::lines::Lines;
use crate::table::{FileFail, RowReader, add, at_line, head_row, read_places, tours};
use crate::values::{FileCause, read_coordinate, read_score, read_value};
use fixed_num::Scale;
use orienteering::Place;
use site_model::{Parts, Places};
use std::alloc::{AllocError, Global};

/// The limit and the number of tours.
#[tactic(auto, unfolding(crate::specs::Op::op_head))]
fn head(fields: &Fields, scale: Scale, team: Option<u32>) -> Result<(u64, u32), FileCause>
    ensures { result ≡ op_head (scale_number scale) team fields.now }
{
    if fields.len() != 2 {
        return Err(FileCause::Head);
    }
    let limit = read_value(fields.at(0), scale)?;
    let tours = tours(team, fields.at(1))?;
    Ok((limit, tours))
}

pub(crate) fn row_score(field: &[u8], is_end: bool) -> Result<u32, FileCause>
    ensures { result ≡ row_score is_end field.now }
{
    if is_end { Ok(0) } else { read_score(field) }
}

/// The place of the fields x, y and score.
#[tactic(auto, unfolding(crate::specs::Op::plain_place))]
pub(crate) fn plain_place(fields: &Fields, limit: u64, is_end: bool) -> Result<Place, FileCause>
    ensures { result ≡ plain_place limit is_end fields.now }
{
    if fields.len() != 3 {
        return Err(FileCause::Fields);
    }
    let x = read_coordinate(fields.at(0))?;
    let y = read_coordinate(fields.at(1))?;
    let score = row_score(fields.at(2), is_end)?;
    Ok(Place {
        x,
        y,
        score,
        service: 0,
        opening: 0,
        closing: limit,
    })
}

/// Reads the rows at a limit.
#[derive(Clone, Copy)]
struct OpRows {
    limit: u64,
}

impl RowReader for OpRows {
    ghost reading = { λ rows. op_row rows.limit };

    #[tactic(auto, unfolding(crate::specs::Op::op_row))]
    fn read_row(&self, number: u64, fields: &Fields) -> Result<Place, FileCause> {
        if number >= 302 {
            return Err(FileCause::TooMany);
        }
        plain_place(fields, self.limit, number < 2)
    }
}

#[tactic(auto, unfolding(crate::specs::Rows::head_line))]
fn head_line(lines: &mut Lines, scale: Scale, team: Option<u32>) -> Result<(u64, u32), FileFail>
    ensures line { Answers (λ head. (head, lines.new.rows)) (head_line (op_head (scale_number scale) team) lines.old.end lines.old.rows) result }
    ensures end { IfOk result (λ _. lines.new.end ≡ lines.old.end) }
{
    let row = head_row(lines)?;
    at_line(row.line, head(&row.fields, scale, team))
}

/// Puts the end, which stands second, behind the calls.
fn end_last(places: &mut Vec<Place>) -> Result<(), AllocError>
    requires { 2 ≤ length places.old.items }
    ensures { IfOk result (λ _. places.new.items ≡ end_last places.old.items) }
{
    let end = places.remove(1);
    add(places, end)
}

/// The places of the rows: the start, the calls, the end.
#[tactic(auto, unfolding(crate::specs::Op::op_rows))]
fn read_rows(alloc: Global, lines: &mut Lines, limit: u64) -> Result<Vec<Place>, FileFail>
    ensures { Answers (λ places. places.items) (op_rows limit lines.old.end lines.old.rows) result }
{
    let table = read_places(alloc, lines, &OpRows { limit })?;
    let mut places = table.places;
    if places.len() < 2 {
        return Err(FileFail::Refused {
            line: table.end,
            cause: FileCause::RowCount,
        });
    }
    end_last(&mut places)?;
    Ok(places)
}

/// The parts of an instance in a file of the OP profile.
#[tactic(auto, unfolding(crate::specs::Op::op_problem))]
pub(crate) fn read_parts(
    alloc: Global,
    bytes: &[u8],
    scale: Scale,
    team: Option<u32>,
) -> Result<Parts, FileFail>
    ensures { Answers problem_of (op_problem (scale_number scale) team (ahead 1 bytes.now).end (ahead 1 bytes.now).rows) result }
{
    let mut lines = Lines::new(bytes);
    let (limit, team) = head_line(&mut lines, scale, team)?;
    let places = read_rows(alloc, &mut lines, limit)?;
    Ok(Parts {
        scale,
        team,
        places: Places::from_list(places),
    })
}
