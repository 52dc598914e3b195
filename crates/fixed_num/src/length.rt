//! Whole roots, and lengths at a scale.

ghost use Rattle.std.specs.Prelude.{◌≡◌, ◌≤◌, ◌<◌, ◌+◌, ◌*◌, ◌^◌, unsigned_abs};
ghost use Rattle.orienteering.specs.Instance.{scaled_length, IsGreatestLength};
ghost use Rattle.fixed_num.specs.Length.{scale_number};

/// How many scaled units make one unit of a file: lengths and times are whole numbers of scaled units.
#[derive(Clone, Copy, Debug, PartialEq, Eq)]
pub enum Scale {
    /// Whole units.
    One,
    /// Tenths.
    Ten,
    /// Hundredths.
    Hundred,
    /// Thousandths.
    Thousand,
}

impl Scale {
    /// The scale as a number: 1, 10, 100 or 1000.
    pub fn number(self) -> u64
        ensures value { result ≡ scale_number self }
        ensures within { result ≤ 1000 }
    {
        match self {
            Scale::One => 1,
            Scale::Ten => 10,
            Scale::Hundred => 100,
            Scale::Thousand => 1000,
        }
    }
}

/// The greatest whole number whose square is at most `n`.
pub fn floor_root(n: u128) -> u64
    ensures within { result * result ≤ n }
    ensures greatest { n < (result + 1) * (result + 1) }
{
    n.isqrt() as u64
}

/// The length between two places in scaled units, floored: the greatest whole number of them that fits into the straight
/// line. `dx` and `dy` are the differences of the coordinates in ten-thousandths. Floored lengths may break the triangle
/// inequality.
pub fn scaled_length(dx: i64, dy: i64, scale: Scale) -> u64
    requires x_in_range { unsigned_abs dx ≤ 2000000000 }
    requires y_in_range { unsigned_abs dy ≤ 2000000000 }
    ensures greatest { IsGreatestLength (scale_number scale) (unsigned_abs dx) (unsigned_abs dy) result }
    ensures value { result ≡ scaled_length (scale_number scale) (unsigned_abs dx) (unsigned_abs dy) }
{
    let number = u128::from(scale.number());
    let across = u128::from(dx.unsigned_abs());
    let along = u128::from(dy.unsigned_abs());
    let root = floor_root(number * number * (across * across + along * along));
    root / 10_000
}
