//! Numbers of 256 bits.

ghost use Rattle.std.specs.Prelude.{◌≡◌, pos};
ghost use Rattle.std.proofs.Common.{rules};
ghost use Rattle.std.specs.Cmp.{partial_order_from_own_ties};
ghost use Rattle.std.specs.Cmp.Rules.{comparing};
ghost use Rattle.std.specs.Ordering.{int_eq, int_cmp, as_partial_cmp};
ghost use Rattle.arrow_types.specs.Wide.{wide, high_half, low_half};

use std::cmp::Ordering;
use std::marker::Model;

/// A signed number of 256 bits, as decimals of up to 76 digits have them. It has an order and no
/// arithmetic.
#[allow(non_camel_case_types)]
#[derive(Clone, Copy, Debug, Hash)]
pub struct i256 {
    high: i128,
    low: u128,
}

impl Model for i256 {
    ghost use Rattle.std.specs.Prelude.{◌<◌, ◌^◌, ℤ};
    ghost use Rattle.arrow_types.specs.Wide.{wide, high_half, low_half};
    ghost use Rattle.arrow_types.specs.WideHalves.{high_half-wide, low_half-wide};

    ghost Value = { ℤ };

    ghost view = { λ a. wide a.high a.low };

    ghost invariant = { λ a. a.low < 2 ^ 128 };

    ghost inverse = { λ n. record { high = high_half n; low = low_half n } };

    ghost inverse_ok = { λ a low
        i. record { high = high_half-wide a.high a.low low i; low = low_half-wide a.high a.low low i } };
}

impl i256 {
    /// The number `high * 2^128 + low`.
    pub fn new(high: i128, low: u128) -> i256
        ensures { result ≡ wide high low }
    {
        i256 { high, low }
    }

    /// The upper 128 bits: how often 2^128 goes into the number, rounded down.
    pub fn high(self) -> i128
        ensures { result ≡ high_half self }
    {
        self.high
    }

    /// The lower 128 bits: what is left then.
    pub fn low(self) -> u128
        ensures { result ≡ low_half self }
    {
        self.low
    }
}

impl Default for i256 {
    ghost is_default = { λ n. n ≡ pos 0 };

    fn default() -> i256 {
        i256 { high: 0, low: 0 }
    }
}

impl PartialEq for i256 {
    ghost eq = { int_eq };

    ghost laws = { Prim.search (comparing, rules) };

    fn eq(&self, other: &i256) -> bool {
        self.high == other.high && self.low == other.low
    }
}

impl Eq for i256 {
    ghost laws = { Prim.search rules };
}

impl PartialOrd for i256 {
    ghost partial_cmp = { as_partial_cmp int_cmp };

    ghost laws = { partial_order_from_own_ties (Prim.search (comparing, rules))
        (Prim.search (comparing, rules)) };

    fn partial_cmp(&self, other: &i256) -> Option<Ordering> {
        Some(self.cmp(other))
    }
}

impl Ord for i256 {
    ghost cmp = { int_cmp };

    ghost total = { Prim.search (comparing, rules) };

    ghost matches_partial_cmp = { Prim.search (comparing, rules) };

    ghost matches_eq = { Prim.search (comparing, rules) };

    fn cmp(&self, other: &i256) -> Ordering {
        self.high.cmp(&other.high).then(self.low.cmp(&other.low))
    }
}
