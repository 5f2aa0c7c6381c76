ghost use Rattle.std.specs.Prelude.{◌≡◌, ◌^◌, ◌<◌, ◌≤◌, true, filter, length, IfSome};
ghost use Rattle.reader.specs.Classes.{run_end};
ghost use Rattle.reader.specs.Words.{begins_fraction, decimal_of, number_word, real_of, scan_of};
ghost use Rattle.values.specs.Cells.{cell_of};
ghost use Rattle.values.specs.Names.{decimal_digit};

use crate::start::{WordStart, run_end};
use crate::word::{ReaderFault, Scanned, Word};
use values::value::Value;

// How many of the bytes are digits.
fn digit_count(bytes: &[u8]) -> usize
    ensures { result ≡ length (filter decimal_digit bytes.now) }
{
    bytes.iter().filter(|b| b.is_ascii_digit()).count()
}

// The number that the digits among some bytes write; none where they are more than fifteen.
#[tactic(auto, using(crate::proofs::Digits::written_small), unfolding(crate::specs::Words::decimal_of))]
fn decimal(bytes: &[u8]) -> Option<u64>
    ensures number { result ≡ decimal_of (filter decimal_digit bytes.now) }
    ensures few { IfSome result (λ n. (length (filter decimal_digit bytes.now) ≤ 15) × (n < 10 ^ 15)) }
{
    if digit_count(bytes) > 15 {
        return None;
    }
    // No fold: its closure would not know that the digits so far are few, so that the number fits.
    // Nor a `try_fold` that checks the arithmetic: the failure it brings into the result never
    // happens, and the clause would have to prove so.
    let mut number = 0;
    for b in bytes {
        if b.is_ascii_digit() {
            number = number * 10 + u64::from(*b - b'0');
        }
    }
    Some(number)
}

// The number that digits write of which the last k stand behind the point: their whole number,
// divided by the power of ten and rounded once.
#[tactic(auto, unfolding(crate::specs::Words::real_of))]
fn real(digits: u64, k: usize) -> Value
    requires { (digits < 10 ^ 15) × (k < 16) }
    ensures { cell_of result ≡ real_of digits k }
{
    let quotient = digits as f64 / 10u64.pow(k as u32) as f64;
    Value::real(quotient).unwrap_or(Value::null())
}

// Whether a point and a digit come first.
#[tactic(auto, unfolding(crate::specs::Words::begins_fraction))]
fn begins_fraction(left: &[u8]) -> bool
    ensures answer { result ≡ begins_fraction left.now }
    ensures room { result ≡ true → 2 ≤ length left.now }
{
    match left {
        [b'.', digit, ..] => digit.is_ascii_digit(),
        _ => false,
    }
}

impl WordStart<'_> {
    // The number that begins with the digit here.
    #[tactic(auto, unfolding(crate::specs::Words::number_word))]
    pub(crate) fn number_word(self) -> Result<Scanned, ReaderFault>
        ensures { scan_of result ≡ number_word self.entry.text.now self.entry.at }
    {
        let point = run_end(self.text, self.at, |b| b.is_ascii_digit());
        if !begins_fraction(&self.text[point..]) {
            let number = decimal(&self.text[self.at..point])
                .and_then(|number| i32::try_from(number).ok())
                .ok_or(self.too_long())?;
            return Ok(self.until(point, Word::Literal(Value::integer(number))));
        }
        let end = run_end(self.text, point + 1, |b| b.is_ascii_digit());
        let digits = decimal(&self.text[self.at..end]).ok_or(self.too_long())?;
        Ok(self.until(end, Word::Literal(real(digits, end - (point + 1)))))
    }
}
