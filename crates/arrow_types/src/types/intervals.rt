//! Intervals of calendar time, whose parts have no common unit.

ghost use Rattle.std.specs.Prelude.{◌≡◌, pos};

use std::marker::Model;

/// A number of days and a number of milliseconds. They have equality and no order.
#[allow(non_camel_case_types)]
#[derive(Clone, Copy, Debug, PartialEq, Eq, Hash)]
pub struct days_ms {
    days: i32,
    milliseconds: i32,
}

impl Model for days_ms {
    ghost use Rattle.std.specs.Prelude.{ℤ};

    ghost Value = { ℤ × ℤ };

    ghost view = { λ a. (a.days, a.milliseconds) };

    ghost inverse = { λ v. record { days = v.0; milliseconds = v.1 } };
}

impl days_ms {
    /// An interval of so many days and milliseconds.
    pub fn new(days: i32, milliseconds: i32) -> days_ms
        ensures { result ≡ (days, milliseconds) }
    {
        days_ms { days, milliseconds }
    }

    /// The number of days.
    pub fn days(self) -> i32
        ensures { result ≡ self.0 }
    {
        self.days
    }

    /// The number of milliseconds.
    pub fn milliseconds(self) -> i32
        ensures { result ≡ self.1 }
    {
        self.milliseconds
    }
}

impl Default for days_ms {
    ghost is_default = { λ v. v ≡ (pos 0, pos 0) };

    fn default() -> days_ms {
        days_ms::new(0, 0)
    }
}

/// A number of months, of days and of nanoseconds. They have equality and no order.
#[allow(non_camel_case_types)]
#[derive(Clone, Copy, Debug, PartialEq, Eq, Hash)]
pub struct months_days_ns {
    months: i32,
    days: i32,
    ns: i64,
}

impl Model for months_days_ns {
    ghost use Rattle.std.specs.Prelude.{ℤ};

    ghost Value = { ℤ × ℤ × ℤ };

    ghost view = { λ a. (a.months, a.days, a.ns) };

    ghost inverse = { λ v. record { months = v.0; days = v.1; ns = v.2 } };
}

impl months_days_ns {
    /// An interval of so many months, days and nanoseconds.
    pub fn new(months: i32, days: i32, ns: i64) -> months_days_ns
        ensures { result ≡ (months, days, ns) }
    {
        months_days_ns { months, days, ns }
    }

    /// How many months.
    pub fn months(self) -> i32
        ensures { result ≡ self.0 }
    {
        self.months
    }

    /// How many days beside the months.
    pub fn days(self) -> i32
        ensures { result ≡ self.1 }
    {
        self.days
    }

    /// How many nanoseconds.
    pub fn ns(self) -> i64
        ensures { result ≡ self.2 }
    {
        self.ns
    }
}

impl Default for months_days_ns {
    ghost is_default = { λ v. v ≡ (pos 0, pos 0, pos 0) };

    fn default() -> months_days_ns {
        months_days_ns::new(0, 0, 0)
    }
}
