//! The kinds of field: which values are read, and as what.

ghost use Rattle.std.specs.Prelude.{◌≡◌, true, Option, IfSome};
ghost use Rattle.serde_json.specs.Data.{Data};
ghost use Rattle.serde_json.specs.View.{view};
ghost use Rattle.serde_json.specs.Find.{as_bool};
ghost use Rattle.cf_base.specs.Common.{is_day, is_amount};
ghost use Rattle.cf_calls.specs.Common.{IsYear, IsCallMonth, is_by};
ghost use Rattle.cf_json_members.specs.Kinds.{as_n16, as_n32, as_count, as_year, as_amount, as_by, as_day, as_month};

use cf_base::{Cents, Day, LAST_YEAR, Month, read_day, read_month};
use serde_json::Value;

/// A kind of field.
pub trait FieldKind {
    type Out: Drop;

    /// Which values are read, and as what.
    ghost kind: { Data → Option Self.Out };

    /// What holds of all that is read.
    ghost fits: { Self.Out → Type 0 };

    fn read(value: &Value) -> Option<Self::Out>
        ensures answer { result ≡ kind (view value.now) }
        ensures form { IfSome result fits };
}

/// An integer from 0 to 65,535.
pub struct N16;

impl FieldKind for N16 {
    type Out = u16;

    ghost kind = { as_n16 };

    ghost fits = { λ _. Unit {0} };

    fn read(value: &Value) -> Option<u16> {
        match value.as_u64() {
            Some(n) if n < 65536 => Some(n as u16),
            _ => None,
        }
    }
}

/// An integer from 0 to 4,294,967,295.
pub struct N32;

impl FieldKind for N32 {
    type Out = u32;

    ghost kind = { as_n32 };

    ghost fits = { λ _. Unit {0} };

    fn read(value: &Value) -> Option<u32> {
        match value.as_u64() {
            Some(n) if n < 4294967296 => Some(n as u32),
            _ => None,
        }
    }
}

/// An integer from 0 to 2^64 - 1.
pub struct Count;

impl FieldKind for Count {
    type Out = u64;

    ghost kind = { as_count };

    ghost fits = { λ _. Unit {0} };

    fn read(value: &Value) -> Option<u64> {
        value.as_u64()
    }
}

/// A fiscal year from 1971 to 2199.
pub struct Year;

impl FieldKind for Year {
    type Out = u16;

    ghost kind = { as_year };

    ghost fits = { IsYear };

    fn read(value: &Value) -> Option<u16> {
        match value.as_u64() {
            Some(n) if 1971 <= n && n <= u64::from(LAST_YEAR) => Some(n as u16),
            _ => None,
        }
    }
}

/// An amount from 1 to 10,000,000,000,000 cents.
pub struct Amount;

impl FieldKind for Amount {
    type Out = u64;

    ghost kind = { as_amount };

    ghost fits = { λ n. is_amount n ≡ true };

    fn read(value: &Value) -> Option<u64> {
        match value.as_u64() {
            Some(n) if Cents::new(n).is_some() => Some(n),
            _ => None,
        }
    }
}

/// A change by -(2^63 - 1) to 2^63 - 1 cents.
pub struct By;

impl FieldKind for By {
    type Out = i64;

    ghost kind = { as_by };

    ghost fits = { λ z. is_by z ≡ true };

    fn read(value: &Value) -> Option<i64> {
        match value.as_i64() {
            Some(n) if n > i64::MIN => Some(n),
            _ => None,
        }
    }
}

/// True or false.
pub struct Flag;

impl FieldKind for Flag {
    type Out = bool;

    ghost kind = { as_bool };

    ghost fits = { λ _. Unit {0} };

    fn read(value: &Value) -> Option<bool> {
        value.as_bool()
    }
}

/// A day, written `YYYY-MM-DD`.
pub struct DayText;

impl FieldKind for DayText {
    type Out = Day;

    ghost kind = { as_day };

    ghost fits = { λ d. is_day d ≡ true };

    fn read(value: &Value) -> Option<Day> {
        match value.as_str() {
            Some(text) => read_day(text.as_bytes()),
            None => None,
        }
    }
}

/// A month, written `YYYY-MM`.
pub struct MonthText;

impl FieldKind for MonthText {
    type Out = Month;

    ghost kind = { as_month };

    ghost fits = { IsCallMonth };

    fn read(value: &Value) -> Option<Month> {
        match value.as_str() {
            Some(text) => read_month(text.as_bytes()),
            None => None,
        }
    }
}
