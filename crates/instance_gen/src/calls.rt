//! The lines of calls, drawn one behind the other.

ghost use Rattle.std.specs.Prelude.{◌≡◌, ◌++◌, ◌+◌, ◌*◌, ◌%◌, ◌<◌, ◌≤◌, OnOk};
ghost use Rattle.draws.specs.Draws.{next_draw, draws_behind};
ghost use Rattle.instance_gen.specs.Generated.{numbers_line, lines_text, plain_call, plain_calls, windowed_call, windowed_calls};

use crate::lines::put_numbers;
use draws::Draws;
use std::alloc::AllocError;

/// Draws a number below another.
fn draw_below(draws: &mut Draws, below: u64) -> u64
    requires { 0 < below }
    ensures value { result ≡ next_draw draws.old % below }
    ensures drawn { draws.new ≡ next_draw draws.old }
{
    draws.draw() % below
}

/// Puts the line of the next call as x, y and score.
fn put_plain_call(out: &mut Vec<u8>, draws: &mut Draws) -> Result<(), AllocError>
    ensures text { OnOk result (let x = next_draw draws.old in let y = next_draw x in
        out.new.items ≡ out.old.items ++ numbers_line (plain_call x y (next_draw y))) }
    ensures drawn { draws.new ≡ next_draw (next_draw (next_draw draws.old)) }
{
    let x = draw_below(draws, 101);
    let y = draw_below(draws, 101);
    let score = 1 + draw_below(draws, 20);
    put_numbers(out, &[x, y, score])
}

/// Puts the line of the next call, which has this number, with service and window.
fn put_windowed_call(out: &mut Vec<u8>, draws: &mut Draws, number: u32) -> Result<(), AllocError>
    ensures text { OnOk result (let x = next_draw draws.old in let y = next_draw x in let score = next_draw y in
        out.new.items ≡ out.old.items ++ numbers_line (windowed_call number x y score (next_draw score))) }
    ensures drawn { draws.new ≡ next_draw (next_draw (next_draw (next_draw draws.old))) }
{
    let x = draw_below(draws, 101);
    let y = draw_below(draws, 101);
    let score = 1 + draw_below(draws, 20);
    let opening = draw_below(draws, 120);
    let closing = opening + 60;
    put_numbers(
        out,
        &[u64::from(number), x, y, 10, score, 0, 0, opening, closing],
    )
}

/// Puts the lines of so many calls as x, y and score.
pub fn put_plain_calls(out: &mut Vec<u8>, draws: &mut Draws, calls: u32) -> Result<(), AllocError>
    ensures { OnOk result (out.new.items ≡ out.old.items ++ lines_text (plain_calls (draws_behind draws.old (3 * calls)))) }
{
    for _ in 0..calls {
        put_plain_call(out, draws)?;
    }
    Ok(())
}

/// Puts the lines of so many calls with services and windows.
pub fn put_windowed_calls(
    out: &mut Vec<u8>,
    draws: &mut Draws,
    calls: u32,
) -> Result<(), AllocError>
    ensures { OnOk result (out.new.items ≡ out.old.items ++ lines_text (windowed_calls 1 (draws_behind draws.old (4 * calls)))) }
{
    for number in 0..calls {
        put_windowed_call(out, draws, number + 1)?;
    }
    Ok(())
}
