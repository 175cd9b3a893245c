//! A reduced fraction whose parts are below 2^127: what every field's values are computed in.
ghost use Rattle.std.specs.Prelude.{◌≡◌, ◌<◌, ◌^◌, ◌&&◌, nat_abs, nat_lt, pos};
ghost use Rattle.gq_number.specs.Reduced.{IsReduced};

/// A reduced fraction: whether it is negated, the magnitude of its numerator, and its denominator.
/// The last two are below 2^127. A negated 0 means 0.
#[derive(Clone, Copy, Debug)]
pub struct Fraction {
    pub negative: bool,
    pub magnitude: u128,
    pub denominator: u128,
    ghost reduced: { IsReduced (pos magnitude) denominator },
    ghost magnitude_small: { magnitude < 2 ^ 127 },
    ghost denominator_small: { denominator < 2 ^ 127 },
}

impl Fraction {
    ghost use Rattle.gq_number.specs.Number.{neg_ℚ, whole};
    ghost use Rattle.gq_field.specs.Values.{fraction_value, signed};

    /// The fraction `numerator / denominator`. The two have no common factor but 1, both are below
    /// 2^127 in magnitude, and the denominator is above 0.
    #[inline(always)]
    pub fn new(numerator: i128, denominator: u128) -> Fraction
        requires reduced { IsReduced numerator denominator }
        requires numerator_small { nat_abs numerator < 2 ^ 127 }
        requires denominator_small { denominator < 2 ^ 127 }
        ensures numerator { (fraction_value result).numerator ≡ numerator }
        ensures denominator { (fraction_value result).denominator ≡ denominator }
    {
        Fraction {
            negative: numerator < 0,
            magnitude: numerator.unsigned_abs(),
            denominator,
        }
    }

    /// The whole number with this magnitude, which is below 2^127; it is negated if `negative`.
    #[inline(always)]
    pub fn whole(negative: bool, magnitude: u128) -> Fraction
        requires { magnitude < 2 ^ 127 }
        ensures { fraction_value result ≡ whole (signed negative magnitude) }
    {
        Fraction {
            negative,
            magnitude,
            denominator: 1,
        }
    }

    /// The numerator of the reduced fraction, below 0 if the fraction is.
    #[inline(always)]
    pub fn numerator(self) -> i128
        ensures { result ≡ (fraction_value self).numerator }
    {
        let numerator = self.magnitude as i128;
        if self.negative { -numerator } else { numerator }
    }

    /// Whether the fraction is below 0.
    #[inline(always)]
    pub fn is_negative(self) -> bool
        ensures { result ≡ (self.negative && nat_lt 0 self.magnitude) }
    {
        self.negative && self.magnitude != 0
    }

    /// The fraction with its sign changed.
    #[inline(always)]
    pub fn negated(self) -> Fraction
        ensures { fraction_value result ≡ neg_ℚ (fraction_value self) }
    {
        Fraction {
            negative: !self.negative,
            magnitude: self.magnitude,
            denominator: self.denominator,
        }
    }
}
