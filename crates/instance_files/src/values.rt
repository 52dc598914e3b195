//! The values of single fields.

ghost use Rattle.std.specs.Prelude.{◌≡◌, ◌≤◌};
ghost use Rattle.fixed_num.specs.Length.{scale_number};
ghost use Rattle.instance_files.specs.Values.{number_cause, number_of, value_of, scaled_value, coordinate_of, near, count_of, score_of, whole_between};

use fixed_num::{Decimal, NumRefusal, Scale, read_decimal};

/// Why a file is refused, at the line that is told with it. Within a line the first applies in this order: a row too many,
/// the number of fields, then the fields from left to right, each as a number, then by its range, then as what it stands
/// for, and last the window.
#[derive(Clone, Copy, Debug, PartialEq, Eq)]
pub enum FileCause {
    /// A line of the head is missing, has another number of fields, or doesn't begin with its word; or the number of rows
    /// isn't whole or is below 2.
    Head,
    /// A row has another number of fields.
    Fields,
    /// A field is no decimal of at most 40 bytes.
    Number,
    /// A call's score isn't a whole number from 0 to 100,000.
    Score,
    /// The opening, as it is read, is above the closing.
    Window,
    /// The number of tours isn't a whole number from 1 to 32.
    Team,
    /// A row is missing, or stands behind the last.
    RowCount,
    /// There are more than 300 calls.
    TooMany,
    /// A number's whole part is above 999,999,999, a coordinate's magnitude is above 100,000, or a time, limit or service is
    /// negative or above 100,000,000 scaled units.
    OutOfRange,
}

fn number_cause(refusal: NumRefusal) -> FileCause
    ensures { result ≡ number_cause refusal }
{
    match refusal {
        NumRefusal::OutOfRange => FileCause::OutOfRange,
        _ => FileCause::Number,
    }
}

/// The field as a number.
#[tactic(auto, unfolding(crate::specs::Values::number_of))]
pub(crate) fn read_number(field: &[u8]) -> Result<Decimal, FileCause>
    ensures { result ≡ number_of field.now }
{
    match read_decimal(field) {
        Ok(decimal) => Ok(decimal),
        Err(refusal) => Err(number_cause(refusal)),
    }
}

/// The ten-thousandths as a scaled value.
pub(crate) fn scaled_value(tenk: i64, scale: Scale) -> Result<u64, FileCause>
    ensures { result ≡ scaled_value (scale_number scale) tenk }
{
    if tenk < 0 {
        return Err(FileCause::OutOfRange);
    }
    let value = u128::from(scale.number()) * u128::from(tenk.unsigned_abs()) / 10_000;
    if value > 100_000_000 {
        Err(FileCause::OutOfRange)
    } else {
        Ok(value as u64)
    }
}

/// The field as a limit, a service or a time in scaled units, floored. `Number`: it is no decimal. `OutOfRange`: it is
/// negative in ten-thousandths, or above 100,000,000 scaled units.
#[tactic(auto, unfolding(crate::specs::Values::value_of))]
pub fn read_value(field: &[u8], scale: Scale) -> Result<u64, FileCause>
    ensures { result ≡ value_of (scale_number scale) field.now }
{
    let number = read_number(field)?;
    scaled_value(number.tenk, scale)
}

fn near(tenk: i64) -> Result<i64, FileCause>
    ensures { result ≡ near tenk }
{
    if tenk.unsigned_abs() > 1_000_000_000 {
        Err(FileCause::OutOfRange)
    } else {
        Ok(tenk)
    }
}

/// The field as a coordinate in ten-thousandths. `Number`: it is no decimal. `OutOfRange`: its magnitude in ten-thousandths
/// is above 1,000,000,000.
#[tactic(auto, unfolding(crate::specs::Values::coordinate_of))]
pub fn read_coordinate(field: &[u8]) -> Result<i64, FileCause>
    ensures { result ≡ coordinate_of field.now }
{
    let number = read_number(field)?;
    near(number.tenk)
}

fn whole_between(number: Decimal, low: u32, high: u32, cause: FileCause) -> Result<u32, FileCause>
    requires { high ≤ 100000 }
    ensures { result ≡ whole_between low high cause number }
{
    if !number.whole || number.tenk < 0 {
        return Err(cause);
    }
    let tenk = number.tenk.unsigned_abs();
    if tenk < u64::from(low) * 10_000 || tenk > u64::from(high) * 10_000 {
        return Err(cause);
    }
    Ok((tenk / 10_000) as u32)
}

/// The field as a number of tours. `Number` and `OutOfRange`: it is no decimal, or its whole part is above 999,999,999.
/// `Team`: it isn't a whole number from 1 to 32.
#[tactic(auto, unfolding(crate::specs::Values::count_of))]
pub fn read_count(field: &[u8]) -> Result<u32, FileCause>
    ensures { result ≡ count_of field.now }
{
    let number = read_number(field)?;
    whole_between(number, 1, 32, FileCause::Team)
}

/// The field as a call's score.
#[tactic(auto, unfolding(crate::specs::Values::score_of))]
pub(crate) fn read_score(field: &[u8]) -> Result<u32, FileCause>
    ensures { result ≡ score_of field.now }
{
    let number = read_number(field)?;
    whole_between(number, 0, 100_000, FileCause::Score)
}
