ghost use Rattle.std.specs.Prelude.{◌≡◌, true};
ghost use Rattle.values.specs.Kept.{kept};

use crate::kinds::Kind;
use crate::sixteen::SixteenBytes;

// One cell's value. Only the fields of its kind mean anything: the real is finite and not negative
// zero, and the text's bytes are printable. The kind stands beside the fields, in place of an enum
// that holds them, because the project fixes this layout: a `Copy` struct with a tag, an `i32`, an
// `f64` and the text in two `u64`.
#[derive(Clone, Copy)]
pub struct Value {
    pub(crate) kind: Kind,
    pub(crate) integer: i32,
    pub(crate) real: f64,
    pub(crate) text: SixteenBytes,
    ghost kept: { kept kind real text ≡ true },
}
