//! Numbers in fixed point.

/// How many binary digits stand behind the point.
const DIGITS: u32 = 40;

/// A number in fixed point. What leaves the range of its digits wraps around.
#[derive(Clone, Copy, Debug, PartialEq, Eq)]
pub(crate) struct Fixed {
    units: i128,
}

impl Fixed {
    /// Values nearer to 0 than this are taken for 0.
    pub const SMALL: Fixed = Fixed { units: 1 << 21 };

    pub const SMALL_COST: Fixed = Fixed { units: 1 << 30 };

    pub const ZERO: Fixed = Fixed { units: 0 };

    pub fn of(whole: i64) -> Fixed {
        Fixed {
            units: i128::from(whole) << DIGITS,
        }
    }

    pub fn plus(self, other: Fixed) -> Fixed {
        Fixed {
            units: self.units.wrapping_add(other.units),
        }
    }

    pub fn minus(self, other: Fixed) -> Fixed {
        Fixed {
            units: self.units.wrapping_sub(other.units),
        }
    }

    pub fn times(self, other: Fixed) -> Fixed {
        Fixed {
            units: self.units.wrapping_mul(other.units) >> DIGITS,
        }
    }

    /// So many times the number.
    pub fn times_whole(self, times: i32) -> Fixed {
        Fixed {
            units: self.units.wrapping_mul(i128::from(times)),
        }
    }

    /// Half of the number, towards the lesser.
    pub fn half(self) -> Fixed {
        Fixed {
            units: self.units >> 1,
        }
    }

    /// The quotient, 0 by 0.
    pub fn over(self, divisor: Fixed) -> Fixed {
        let dividend = self.units.wrapping_mul(1 << DIGITS);
        Fixed {
            units: dividend.checked_div(divisor.units).unwrap_or(0),
        }
    }

    pub fn negated(self) -> Fixed {
        Fixed {
            units: self.units.wrapping_neg(),
        }
    }

    pub fn is_zero(self) -> bool {
        self.units == 0
    }

    pub fn is_less(self, other: Fixed) -> bool {
        self.units < other.units
    }

    /// So many times the number, to the nearest whole number, at most the greatest there is.
    pub fn whole(self, times: i64) -> i64 {
        let product = self.units.wrapping_mul(i128::from(times));
        let nearest = product.wrapping_add(1 << (DIGITS - 1)) >> DIGITS;
        nearest.clamp(i128::from(i64::MIN), i128::from(i64::MAX)) as i64
    }
}
