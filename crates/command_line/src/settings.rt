//! How an instance is read, checked and reported.

use fixed_num::Scale;
use instance_files::Format;
use report_text::Style;

/// How an instance is read, checked and reported.
#[derive(Clone, Copy, Debug, PartialEq, Eq)]
pub struct Settings {
    /// How the instance's file is laid out.
    pub format: Format,
    /// How many scaled units a unit of the coordinates has.
    pub scale: Scale,
    /// The number of tours in place of the file's, 1 to 32.
    pub team: Option<u32>,
    /// The number of labels that a replay may keep, 1 to 2,000,000.
    pub labels: u64,
    /// The number of parallel jobs, 1 to 16.
    pub workers: u32,
    /// How the report is laid out.
    pub style: Style,
}
