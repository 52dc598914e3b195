//! The forms of values.

ghost use Rattle.std.specs.Prelude.{◌≡◌, ◌≤◌, IfSome};
ghost use Rattle.command_line.specs.Values.{format_of, number_between, scale_of, style_of};

use fixed_num::Scale;
use instance_files::Format;
use report_text::Style;

/// The greatest number of calls of a generated instance.
pub(crate) const MOST_CALLS: u64 = 300;

/// The greatest number of tours.
pub(crate) const MOST_TOURS: u64 = 32;

/// The greatest number of labels that a replay may keep.
pub(crate) const MOST_LABELS: u64 = 2_000_000;

/// The greatest number of parallel jobs.
pub(crate) const MOST_WORKERS: u64 = 16;

/// The format that is written so.
pub(crate) fn format_from_word(text: &str) -> Option<Format>
    ensures { result ≡ format_of text.now }
{
    if text == "op" {
        Some(Format::Op)
    } else if text == "top" {
        Some(Format::Top)
    } else if text == "toptw" {
        Some(Format::Toptw)
    } else {
        None
    }
}

/// The scale that is written so.
pub(crate) fn scale_from_word(text: &str) -> Option<Scale>
    ensures { result ≡ scale_of text.now }
{
    if text == "1" {
        Some(Scale::One)
    } else if text == "10" {
        Some(Scale::Ten)
    } else if text == "100" {
        Some(Scale::Hundred)
    } else if text == "1000" {
        Some(Scale::Thousand)
    } else {
        None
    }
}

/// The style that is written so.
pub(crate) fn style_from_word(text: &str) -> Option<Style>
    ensures { result ≡ style_of text.now }
{
    if text == "plain" {
        Some(Style::Plain)
    } else if text == "table" {
        Some(Style::Table)
    } else {
        None
    }
}

/// The number that the text spells, where it lies between both ends.
pub(crate) fn number_from_word(text: &str, low: u64, high: u64) -> Option<u64>
    ensures value { result ≡ number_between low high text.now }
    ensures within { IfSome result (λ n. (low ≤ n) × (n ≤ high)) }
{
    match text.parse::<u64>() {
        Ok(number) if low <= number && number <= high => Some(number),
        _ => None,
    }
}
