//! Reading words and numbers from the front of bytes. Each call answers what was read and the bytes behind it.

ghost use Rattle.std.specs.Prelude.{◌≡◌, ◌+◌, ◌-◌, ◌*◌, ◌&&◌, ◌<◌, ◌≤◌, ◌^◌, pos, negsuc, nat_le, if◌then◌else◌, IfOk};
ghost use Rattle.std.specs.Option.{option_map};
ghost use Rattle.std.specs.Int.{is_in_range};
ghost use Rattle.text_parts.specs.Reading.{behind_byte, mapped, word_at, digits_after, positive_at, number_at, signed_at, ended_number_at};
ghost use Rattle.text_parts.specs.Gives.{Gives};

use crate::stop::Stop;

/// The bytes behind this word, where it stands at the front.
pub fn word<'a>(bytes: &'a [u8], text: &[u8]) -> Result<&'a [u8], Stop>
    ensures { Gives (λ rest. (tt, rest.now)) result (word_at text.now bytes.now) }
{
    let mut rest = bytes;
    for b in text {
        let Some((first, after)) = rest.split_first() else {
            return Err(Stop { left: 0 });
        };
        if first != b {
            return Err(Stop { left: rest.len() });
        }
        rest = after;
    }
    Ok(rest)
}

/// The number with one more digit, unless the byte is no digit or the number passes `max`.
fn longer(number: u64, b: u8, max: u64) -> Option<u64>
    ensures { result ≡ (if is_in_range 48 57 b && nat_le (10 * number + (b - 48)) max then Some (10 * number + (b - 48)) else None) }
{
    if !b.is_ascii_digit() {
        return None;
    }
    let digit = u64::from(b - b'0');
    if digit > max || number > (max - digit) / 10 {
        return None;
    }
    Some(10 * number + digit)
}

/// The value of the byte as the first digit of a number from 1 to `max`.
fn first_digit(b: u8, max: u64) -> Option<u64>
    ensures { result ≡ (if is_in_range 49 57 b && nat_le (b - 48) max then Some (b - 48) else None) }
{
    if b < b'1' || b > b'9' || u64::from(b - b'0') > max {
        return None;
    }
    Some(u64::from(b - b'0'))
}

/// The number whose digits are those of `first` and then those that follow, as long as it is at most `max`.
fn digits(bytes: &[u8], first: u64, max: u64) -> (u64, &[u8])
    ensures { (result.0, result.1.now) ≡ digits_after max first bytes.now }
{
    let mut number = first;
    let mut rest = bytes;
    while let Some((b, after)) = rest.split_first() {
        match longer(number, *b, max) {
            None => break,
            Some(next) => number = next,
        }
        rest = after;
    }
    (number, rest)
}

/// A number from 1 to `max`, the longest that stands there.
fn positive(bytes: &[u8], max: u64) -> Result<(u64, &[u8]), Stop>
    ensures reading { Gives (λ x. (x.0, x.1.now)) result (positive_at max bytes.now) }
    ensures bounds { IfOk result (λ x. (0 < x.0) × (x.0 ≤ max)) }
{
    let Some((b, rest)) = bytes.split_first() else {
        return Err(Stop { left: 0 });
    };
    match first_digit(*b, max) {
        None => Err(Stop { left: bytes.len() }),
        Some(first) => Ok(digits(rest, first, max)),
    }
}

/// The bytes behind the first, where it is this one.
fn behind(bytes: &[u8], first: u8) -> Option<&[u8]>
    ensures { option_map (λ rest. rest.now) result ≡ behind_byte first bytes.now }
{
    let (b, rest) = bytes.split_first()?;
    if *b == first { Some(rest) } else { None }
}

/// A number from 0 to `max`, the longest that stands there.
pub fn number(bytes: &[u8], max: u64) -> Result<(u64, &[u8]), Stop>
    ensures reading { Gives (λ x. (x.0, x.1.now)) result (number_at max bytes.now) }
    ensures bound { IfOk result (λ x. x.0 ≤ max) }
{
    match behind(bytes, b'0') {
        Some(rest) => Ok((0, rest)),
        None => positive(bytes, max),
    }
}

/// The number that stands behind a minus.
fn below_zero(bytes: &[u8]) -> Result<(i64, &[u8]), Stop>
    ensures { Gives (λ x. (x.0, x.1.now)) result (mapped (λ n. negsuc (n - 1)) (positive_at (2 ^ 63)) bytes.now) }
{
    let (size, rest) = positive(bytes, 1 << 63)?;
    Ok((-1 - (size - 1) as i64, rest))
}

fn not_below_zero(bytes: &[u8]) -> Result<(i64, &[u8]), Stop>
    ensures { Gives (λ x. (x.0, x.1.now)) result (mapped pos (number_at (2 ^ 63 - 1)) bytes.now) }
{
    let (number, rest) = number(bytes, i64::MAX as u64)?;
    Ok((number as i64, rest))
}

/// A number from -2^63 to 2^63 - 1, the longest that stands there.
pub fn signed(bytes: &[u8]) -> Result<(i64, &[u8]), Stop>
    ensures { Gives (λ x. (x.0, x.1.now)) result (signed_at bytes.now) }
{
    match behind(bytes, b'-') {
        Some(rest) => below_zero(rest),
        None => not_below_zero(bytes),
    }
}

/// A number from 0 to `max`, and what ends it.
#[tactic(auto, unfolding(crate::specs::Reading::ended_number_at))]
pub fn ended_number<'a>(bytes: &'a [u8], max: u64, end: &[u8]) -> Result<(u64, &'a [u8]), Stop>
    ensures reading { Gives (λ x. (x.0, x.1.now)) result (ended_number_at max end.now bytes.now) }
    ensures bound { IfOk result (λ x. x.0 ≤ max) }
{
    let (n, rest) = number(bytes, max)?;
    let rest = word(rest, end)?;
    Ok((n, rest))
}
