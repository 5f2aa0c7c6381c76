ghost use Rattle.std.specs.Prelude.{◌≡◌, true};
ghost use Rattle.std.specs.Float.{float_is_finite};
ghost use Rattle.std.specs.Option.{option_map};
ghost use Rattle.values.specs.Cells.{Cell, cell_of};
ghost use Rattle.values.specs.Codes.{without_negative_zero};
ghost use Rattle.values.specs.Kept.{plain_real};
ghost use Rattle.values.specs.Made.{real_cell, text_cell};

use crate::bytes::{all_printable, fill};
use crate::kinds::Kind;
use crate::sixteen::SixteenBytes;
use crate::value::Value;

// What a value that is no text holds in place of one.
const NO_TEXT: SixteenBytes = SixteenBytes { high: 0, low: 0 };

// Zero for negative zero, and any other real as it is.
pub(crate) fn without_negative_zero(x: f64) -> f64
    ensures answer { result ≡ without_negative_zero x }
    ensures plain { float_is_finite x ≡ true → plain_real result ≡ true }
{
    if x == 0.0 { 0.0 } else { x }
}

// The constructors have names, since a `From` would not say which kind of value is made.
impl Value {
    pub fn null() -> Value
        ensures { cell_of result ≡ Cell.null }
    {
        Value {
            kind: Kind::Null,
            integer: 0,
            real: 0.0,
            text: NO_TEXT,
        }
    }

    pub fn integer(integer: i32) -> Value
        ensures { cell_of result ≡ Cell.integer integer }
    {
        Value {
            kind: Kind::Integer,
            integer,
            real: 0.0,
            text: NO_TEXT,
        }
    }

    // A real; none for an infinity or a NaN.
    pub fn real(x: f64) -> Option<Value>
        ensures { option_map cell_of result ≡ real_cell x }
    {
        if !x.is_finite() {
            return None;
        }
        let real = without_negative_zero(x);
        Some(Value {
            kind: Kind::Real,
            integer: 0,
            real,
            text: NO_TEXT,
        })
    }

    // A text of up to sixteen bytes, filled with spaces; none for more, or for a byte that is not
    // printable.
    pub fn text(bytes: &[u8]) -> Option<Value>
        ensures { option_map cell_of result ≡ text_cell bytes.now }
    {
        let filled = fill(bytes)?;
        if !all_printable(bytes) {
            return None;
        }
        Some(Value {
            kind: Kind::Text,
            integer: 0,
            real: 0.0,
            text: filled.into(),
        })
    }
}
