//! The styles of a report.

/// How the points of a report are laid out.
#[derive(Clone, Copy, Debug, PartialEq, Eq)]
pub enum Style {
    /// A line of words for each point and for each of its tours.
    Plain,
    /// A line with columns for each point.
    Table,
}
