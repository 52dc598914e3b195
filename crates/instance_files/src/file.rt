//! Whole instance files.

ghost use Rattle.std.specs.Prelude.{◌≡◌, IfOk, IfErr};
ghost use Rattle.fixed_num.specs.Length.{scale_number};
ghost use Rattle.site_model.specs.Parts.{problem_of};
ghost use Rattle.instance_files.specs.Ahead.{ahead};
ghost use Rattle.instance_files.specs.Rows.{Answers, IsFirstRefusal, IsTeam};
ghost use Rattle.instance_files.specs.File.{default_scale, file_problem, rows_problem};
ghost use Rattle.instance_files.specs.Laws.{FilesAreInstances};

use crate::table::FileFail;
use crate::{op, top, toptw};
use fixed_num::Scale;
use site_model::{Instance, Parts, PartsRefusal, laws_of_parts};
use std::alloc::Global;

/// How a file is laid out.
#[derive(Clone, Copy, Debug, PartialEq, Eq)]
pub enum Format {
    /// A line with the limit and the number of tours, then the start, the end and the calls as x, y and score.
    Op,
    /// Three lines `n`, `m` and `tmax`, then the start, the calls and the end as x, y and score.
    Top,
    /// A line whose second field is the number of tours, a line that isn't read, then the start, which is the end too, and
    /// the calls, each with service, score and window.
    Toptw,
}

/// What a file says is an instance: it keeps every limit.
pub fn laws_of_files()
    ensures { FilesAreInstances }
{}

/// The scale at which a format's files are read where none is given.
pub fn default_scale(format: Format) -> Scale
    ensures { result ≡ default_scale format }
{
    match format {
        Format::Op | Format::Top => Scale::Hundred,
        Format::Toptw => Scale::Ten,
    }
}

#[tactic(auto, unfolding(crate::specs::File::rows_problem))]
fn read_rows(
    alloc: Global,
    bytes: &[u8],
    format: Format,
    scale: Scale,
    team: Option<u32>,
) -> Result<Parts, FileFail>
    ensures { Answers problem_of (rows_problem format (scale_number scale) team (ahead 1 bytes.now).end (ahead 1 bytes.now).rows) result }
{
    match format {
        Format::Op => op::read_parts(alloc, bytes, scale, team),
        Format::Top => top::read_parts(alloc, bytes, scale, team),
        Format::Toptw => toptw::read_parts(alloc, bytes, scale, team),
    }
}

/// The parts of the instance that a file says.
fn read_parts(
    alloc: Global,
    bytes: &[u8],
    format: Format,
    scale: Scale,
    team: Option<u32>,
) -> Result<Parts, FileFail>
    ensures { Answers problem_of (file_problem format (scale_number scale) team bytes.now) result }
{
    read_rows(alloc, bytes, format, scale, team)
}

/// The instance that a file says, with lengths and times at the scale. A given number of tours takes the place of the
/// file's, which is still read as a number.
pub fn read_instance(
    alloc: Global,
    bytes: &[u8],
    format: Format,
    scale: Scale,
    team: Option<u32>,
) -> Result<Instance, FileFail>
    requires { IsTeam team }
    ensures value { IfOk result (λ instance. file_problem format (scale_number scale) team bytes.now ≡ Ok instance) }
    ensures refused { IfErr result (IsFirstRefusal (file_problem format (scale_number scale) team bytes.now)) }
{
    laws_of_parts();
    laws_of_files();
    let parts = read_parts(alloc, bytes, format, scale, team)?;
    match Instance::new(alloc, parts) {
        Ok(instance) => Ok(instance),
        Err(refusal) => {
            let is_memory = refusal == PartsRefusal::Memory;
            prove!(is_memory);
            Err(FileFail::Memory)
        }
    }
}
