//! The values that the words give, with their defaults.

ghost use Rattle.std.specs.Prelude.{◌≡◌, ◌≤◌, IfSome, codes};
ghost use Rattle.clap.specs.Words.{found_of, rows_of};
ghost use Rattle.command_line.specs.Values.{format_in, number_if, number_in, number_or, scale_in, settings_in, style_in};
ghost use Rattle.command_line.specs.Limits.{AreSettingsWithin};

use crate::line::given;
use crate::settings::Settings;
use crate::values::{
    MOST_LABELS, MOST_TOURS, MOST_WORKERS, format_from_word, number_from_word, scale_from_word,
    style_from_word,
};
use clap::ArgMatches;
use fixed_num::Scale;
use instance_files::{Format, default_scale};
use report_text::Style;

/// The format, which is required.
pub(crate) fn format_given(matches: &ArgMatches) -> Option<Format>
    ensures { result ≡ format_in (rows_of (found_of matches.now)) }
{
    format_from_word(given(matches, "format")?)
}

fn scale_given(matches: &ArgMatches, format: Format) -> Option<Scale>
    ensures { result ≡ scale_in format (rows_of (found_of matches.now)) }
{
    match given(matches, "scale") {
        Some(text) => scale_from_word(text),
        None => Some(default_scale(format)),
    }
}

fn style_given(matches: &ArgMatches) -> Option<Style>
    ensures { result ≡ style_in (rows_of (found_of matches.now)) }
{
    match given(matches, "style") {
        Some(text) => style_from_word(text),
        None => Some(Style::Plain),
    }
}

/// A required number.
pub(crate) fn number_given(matches: &ArgMatches, id: &str, low: u64, high: u64) -> Option<u64>
    ensures value { result ≡ number_in id.now low high (rows_of (found_of matches.now)) }
    ensures within { IfSome result (λ n. (low ≤ n) × (n ≤ high)) }
{
    number_from_word(given(matches, id)?, low, high)
}

/// A number with a default.
pub(crate) fn number_given_or(
    matches: &ArgMatches,
    id: &str,
    low: u64,
    high: u64,
    default: u64,
) -> Option<u64>
    requires { (low ≤ default) × (default ≤ high) }
    ensures value { result ≡ number_or id.now low high default (rows_of (found_of matches.now)) }
    ensures within { IfSome result (λ n. (low ≤ n) × (n ≤ high)) }
{
    match given(matches, id) {
        Some(text) => number_from_word(text, low, high),
        None => Some(default),
    }
}

/// A number that may be left out.
pub(crate) fn number_given_if(
    matches: &ArgMatches,
    id: &str,
    low: u64,
    high: u64,
) -> Option<Option<u64>>
    ensures value { result ≡ number_if id.now low high (rows_of (found_of matches.now)) }
    ensures within { IfSome result (λ given. IfSome given (λ n. (low ≤ n) × (n ≤ high))) }
{
    match given(matches, id) {
        Some(text) => Some(Some(number_from_word(text, low, high)?)),
        None => Some(None),
    }
}

fn team_given(matches: &ArgMatches) -> Option<Option<u32>>
    ensures value { result ≡ number_if (codes "team") 1 32 (rows_of (found_of matches.now)) }
    ensures within { IfSome result (λ team. IfSome team (λ n. (1 ≤ n) × (n ≤ 32))) }
{
    match number_given_if(matches, "team", 1, MOST_TOURS)? {
        Some(team) => Some(Some(team as u32)),
        None => Some(None),
    }
}

/// How an instance is read, checked and reported.
pub(crate) fn settings_given(matches: &ArgMatches) -> Option<Settings>
    ensures value { result ≡ settings_in (rows_of (found_of matches.now)) }
    ensures within { IfSome result AreSettingsWithin }
{
    let format = format_given(matches)?;
    let scale = scale_given(matches, format)?;
    let team = team_given(matches)?;
    let labels = number_given_or(matches, "labels", 1, MOST_LABELS, 1_000_000)?;
    let workers = number_given_or(matches, "workers", 1, MOST_WORKERS, 1)? as u32;
    let style = style_given(matches)?;
    Some(Settings {
        format,
        scale,
        team,
        labels,
        workers,
        style,
    })
}
