//! The files of the three formats.

ghost use Rattle.std.specs.Prelude.{◌≡◌, ◌++◌, ◌+◌, ◌*◌, ◌≤◌, OnOk};
ghost use Rattle.draws.specs.Draws.{draws_behind};
ghost use Rattle.instance_gen.specs.Generated.{lines_text, op_lines, top_text, toptw_lines, plain_calls, windowed_calls};

use crate::calls::{put_plain_calls, put_windowed_calls};
use crate::lines::put_numbers;
use draws::Draws;
use std::alloc::AllocError;
use text_parts::writing::put_line;

/// Start or end as x, y and score.
const MIDDLE: [u64; 3] = [50, 50, 0];

/// Puts an OP file.
#[tactic(auto, using(text_parts::proofs::Appends::appends))]
pub fn put_op(out: &mut Vec<u8>, draws: &mut Draws, calls: u32) -> Result<(), AllocError>
    ensures { OnOk result (out.new.items ≡ out.old.items ++ lines_text (op_lines (plain_calls (draws_behind draws.old (3 * calls))))) }
{
    put_numbers(out, &[120, 2])?;
    put_numbers(out, &MIDDLE)?;
    put_numbers(out, &MIDDLE)?;
    put_plain_calls(out, draws, calls)?;
    Ok(())
}

/// Puts a TOP file.
#[tactic(auto, using(text_parts::proofs::Appends::appends))]
pub fn put_top(out: &mut Vec<u8>, draws: &mut Draws, calls: u32) -> Result<(), AllocError>
    ensures { OnOk result (out.new.items ≡ out.old.items ++ top_text (calls + 2) (plain_calls (draws_behind draws.old (3 * calls)))) }
{
    put_line(out, b"n ", u64::from(calls) + 2)?;
    put_line(out, b"m ", 2)?;
    put_line(out, b"tmax ", 60)?;
    put_numbers(out, &MIDDLE)?;
    put_plain_calls(out, draws, calls)?;
    put_numbers(out, &MIDDLE)?;
    Ok(())
}

/// Puts a TOPTW file.
#[tactic(auto, using(text_parts::proofs::Appends::appends))]
pub fn put_toptw(out: &mut Vec<u8>, draws: &mut Draws, calls: u32) -> Result<(), AllocError>
    ensures { OnOk result (out.new.items ≡ out.old.items ++ lines_text (toptw_lines (calls + 1) (windowed_calls 1 (draws_behind draws.old (4 * calls))))) }
{
    put_numbers(out, &[0, 2, u64::from(calls) + 1, 0])?;
    put_numbers(out, &[0, 0])?;
    put_numbers(out, &[0, 50, 50, 0, 0, 0, 0, 0, 240])?;
    put_windowed_calls(out, draws, calls)?;
    Ok(())
}
