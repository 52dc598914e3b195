//! Instance files that a seed generates, for demonstrations and tests.
//!
//! `specs/Generated.antt` defines the text of each format as lines of numbers, over the draws of the seed. `generate`
//! answers exactly that text, or finds no memory. `laws_of_generated_files` says of each format that no text has more
//! than 20000 bytes, and that a reader refuses none, at whatever scale. The crate stands on `draws`, on
//! `instance_files` for the formats, and on `text_parts`, which puts the words and numbers.
#![tactic(auto)]

ghost use Rattle.std.specs.Prelude.{◌≡◌, ◌≤◌, IfOk};
ghost use Rattle.instance_gen.specs.Generated.{generated};
ghost use Rattle.instance_gen.specs.Laws.{FilesAreShort, GeneratedFilesAreRead};

mod calls;
mod files;
mod lines;

use draws::Draws;
use instance_files::Format;
use std::alloc::{AllocError, Global};

/// The file of an instance with so many calls: two tours start and end in the middle of a square of 100 units, in
/// which the seed draws the calls and their scores from 1 to 20. The limit is 120 units for OP and 60 for TOP. For
/// TOPTW it is 240, each call has a service of 10 and a window of 60 units, and the seed draws when it opens.
pub fn generate(alloc: Global, seed: u64, calls: u32, format: Format) -> Result<Vec<u8>, AllocError>
    requires { calls ≤ 300 }
    ensures { IfOk result (λ text. text.items ≡ generated seed calls format) }
{
    let mut out = Vec::new(alloc);
    let mut draws = Draws::of_seed(seed);
    match format {
        Format::Op => files::put_op(&mut out, &mut draws, calls)?,
        Format::Top => files::put_top(&mut out, &mut draws, calls)?,
        Format::Toptw => files::put_toptw(&mut out, &mut draws, calls)?,
    }
    Ok(out)
}

/// A generated file is short, and a reader never refuses it, at whatever scale it is read.
pub fn laws_of_generated_files()
    ensures read { GeneratedFilesAreRead }
    ensures short { FilesAreShort }
{}

#[cfg(test)]
mod tests;
