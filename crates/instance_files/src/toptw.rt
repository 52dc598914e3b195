//! Files of the TOPTW profile.

ghost use Rattle.std.specs.Prelude.{◌≡◌, ◌≤◌, IfOk, length};
ghost use Rattle.site_model.specs.Parts.{problem_of};
ghost use Rattle.fixed_num.specs.Length.{scale_number};
ghost use Rattle.instance_files.specs.Ahead.{ahead};
ghost use Rattle.instance_files.specs.Rows.{Answers, head_line};
ghost use Rattle.instance_files.specs.Toptw.{toptw_head, row_service, time_of, window_of, windowed_place, toptw_row, toptw_rows, toptw_problem, start_again, unread};

use crate::fields::Fields;
use crate::lines::Lines;
use crate::op::row_score;
use crate::table::{FileFail, RowReader, add, at_line, head_row, read_places, tours};
use crate::values::{FileCause, read_coordinate, read_number, read_value, scaled_value};
use fixed_num::Scale;
use orienteering::Place;
use site_model::{Parts, Places};
use std::alloc::{AllocError, Global};

#[tactic(auto, unfolding(crate::specs::Toptw::toptw_head))]
fn head(fields: &Fields, team: Option<u32>) -> Result<u32, FileCause>
    ensures { result ≡ toptw_head team fields.now }
{
    if fields.len() < 2 {
        return Err(FileCause::Head);
    }
    tours(team, fields.at(1))
}

fn row_service(field: &[u8], scale: Scale, is_start: bool) -> Result<u64, FileCause>
    ensures { result ≡ row_service (scale_number scale) is_start field.now }
{
    if is_start {
        Ok(0)
    } else {
        read_value(field, scale)
    }
}

/// A time of a window, as it is read and scaled.
#[tactic(auto, unfolding(crate::specs::Toptw::time_of))]
fn time(field: &[u8], scale: Scale) -> Result<(u64, u64), FileCause>
    ensures { result ≡ time_of (scale_number scale) field.now }
{
    let number = read_number(field)?;
    let value = scaled_value(number.tenk, scale)?;
    Ok((number.tenk.unsigned_abs(), value))
}

/// The scaled opening and closing.
#[tactic(auto, unfolding(crate::specs::Toptw::window_of))]
fn window(first: &[u8], last: &[u8], scale: Scale) -> Result<(u64, u64), FileCause>
    ensures { result ≡ window_of (scale_number scale) first.now last.now }
{
    let opening = time(first, scale)?;
    let closing = time(last, scale)?;
    if closing.0 < opening.0 {
        Err(FileCause::Window)
    } else {
        Ok((opening.1, closing.1))
    }
}

/// The place of the fields x, y, service, score, opening and closing.
#[tactic(auto, unfolding(crate::specs::Toptw::windowed_place))]
fn windowed_place(fields: &Fields, scale: Scale, is_start: bool) -> Result<Place, FileCause>
    ensures { result ≡ windowed_place (scale_number scale) is_start fields.now }
{
    if fields.len() < 7 {
        return Err(FileCause::Fields);
    }
    let x = read_coordinate(fields.at(1))?;
    let y = read_coordinate(fields.at(2))?;
    let service = row_service(fields.at(3), scale, is_start)?;
    let score = row_score(fields.at(4), is_start)?;
    let (opening, closing) = window(
        fields.at(fields.len() - 2),
        fields.at(fields.len() - 1),
        scale,
    )?;
    Ok(Place {
        x,
        y,
        score,
        service,
        opening,
        closing,
    })
}

/// Reads the rows at a scale.
#[derive(Clone, Copy)]
struct ToptwRows {
    scale: Scale,
}

impl RowReader for ToptwRows {
    ghost reading = { λ rows. toptw_row (scale_number rows.scale) };

    #[tactic(auto, unfolding(crate::specs::Toptw::toptw_row))]
    fn read_row(&self, number: u64, fields: &Fields) -> Result<Place, FileCause> {
        if number >= 301 {
            return Err(FileCause::TooMany);
        }
        windowed_place(fields, self.scale, number == 0)
    }
}

#[tactic(auto, unfolding(crate::specs::Rows::head_line))]
fn head_line(lines: &mut Lines, team: Option<u32>) -> Result<u32, FileFail>
    ensures line { Answers (λ size. (size, lines.new.rows)) (head_line (toptw_head team) lines.old.end lines.old.rows) result }
    ensures end { IfOk result (λ _. lines.new.end ≡ lines.old.end) }
{
    let row = head_row(lines)?;
    at_line(row.line, head(&row.fields, team))
}

#[tactic(auto, unfolding(crate::specs::Rows::head_line))]
fn unread_line(lines: &mut Lines) -> Result<(), FileFail>
    ensures line { Answers (λ none. (none, lines.new.rows)) (head_line unread lines.old.end lines.old.rows) result }
    ensures end { IfOk result (λ _. lines.new.end ≡ lines.old.end) }
{
    let _row = head_row(lines)?;
    Ok(())
}

fn start_again(places: &mut Vec<Place>) -> Result<(), AllocError>
    requires { 1 ≤ length places.old.items }
    ensures { IfOk result (λ _. places.new.items ≡ start_again places.old.items) }
{
    let start = places[0];
    add(places, start)
}

/// The places of the rows: the start, the calls, the start again.
#[tactic(auto, unfolding(crate::specs::Toptw::toptw_rows))]
fn read_rows(alloc: Global, lines: &mut Lines, scale: Scale) -> Result<Vec<Place>, FileFail>
    ensures { Answers (λ places. places.items) (toptw_rows (scale_number scale) lines.old.end lines.old.rows) result }
{
    let table = read_places(alloc, lines, &ToptwRows { scale })?;
    let mut places = table.places;
    if places.is_empty() {
        return Err(FileFail::Refused {
            line: table.end,
            cause: FileCause::RowCount,
        });
    }
    start_again(&mut places)?;
    Ok(places)
}

/// The parts of an instance in a file of the TOPTW profile.
#[tactic(auto, unfolding(crate::specs::Toptw::toptw_problem))]
pub(crate) fn read_parts(
    alloc: Global,
    bytes: &[u8],
    scale: Scale,
    team: Option<u32>,
) -> Result<Parts, FileFail>
    ensures { Answers problem_of (toptw_problem (scale_number scale) team (ahead 1 bytes.now).end (ahead 1 bytes.now).rows) result }
{
    let mut lines = Lines::new(bytes);
    let team = head_line(&mut lines, team)?;
    unread_line(&mut lines)?;
    let places = read_rows(alloc, &mut lines, scale)?;
    Ok(Parts {
        scale,
        team,
        places: Places::from_list(places),
    })
}
