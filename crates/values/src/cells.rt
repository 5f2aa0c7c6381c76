ghost use Rattle.std.specs.Prelude.{◌≡◌, ◌-◌, ◌≤◌, ◌∷◌, ◌++◌, length, is_ok, if◌then◌else◌, ◌==◌, nat_eq, replicate};
ghost use Rattle.std.specs.Option.{option_map};
ghost use Rattle.values.specs.Cells.{cell_of};
ghost use Rattle.values.specs.Codes.{encoded, decoded, null_from, integer_from, real_from, fits};
ghost use Rattle.values.specs.Laws.{DecodesWhatIsEncoded, EncodesWhatIsDecoded};

use crate::area::{WrongLength, write_over};
use crate::bytes::all_are;
use crate::kinds::{ColumnType, Kind};
use crate::value::Value;

const SIGN_BIT: u64 = 0x8000_0000_0000_0000;

const INFINITY_BITS: u64 = 0x7ff0_0000_0000_0000;

fn read_null(operand: &[u8; 16]) -> Option<Value>
    ensures { option_map cell_of result ≡ null_from operand.now }
{
    all_are(0, operand).then_some(Value::null())
}

fn read_integer(operand: &[u8; 16]) -> Option<Value>
    ensures { option_map cell_of result ≡ integer_from operand.now }
{
    let (number, filling) = operand.split_first_chunk::<4>()?;
    if !all_are(0, filling) {
        return None;
    }
    Some(Value::integer(i32::from_be_bytes(*number)))
}

// A real whose exponent is not that of the infinities and NaNs.
fn read_real(operand: &[u8; 16]) -> Option<Value>
    ensures { option_map cell_of result ≡ real_from operand.now }
{
    let (number, filling) = operand.split_first_chunk::<8>()?;
    if !all_are(0, filling) {
        return None;
    }
    let bits = u64::from_be_bytes(*number);
    if bits % SIGN_BIT >= INFINITY_BITS {
        return None;
    }
    Value::real(f64::from_bits(bits))
}

// A cell's command and operand, and zeros up to seventeen bytes.
fn cell_bytes<const N: usize>(command: u8, operand: [u8; N]) -> [u8; 17]
    requires { N ≤ 16 }
    ensures { result ≡ command ∷ (operand.entry ++ replicate (16 - N) 0) }
{
    let mut bytes = [0; 17];
    bytes[0] = command;
    bytes[1..1 + N].copy_from_slice(&operand);
    bytes
}

impl Value {
    // The value that a cell's seventeen bytes stand for; none for any others.
    pub fn read(bytes: &[u8]) -> Option<Value>
        ensures answer { option_map cell_of result ≡ decoded bytes.now }
        ensures back { EncodesWhatIsDecoded }
    {
        let (command, operand) = bytes.split_first()?;
        let operand: &[u8; 16] = operand.try_into().ok()?;
        match *command {
            0x10 => read_null(operand),
            0x11 => read_integer(operand),
            0x12 => read_real(operand),
            0x13 => Value::text(operand),
            _ => None,
        }
    }

    // Whether the value may stand in a column: it is null or of the column's type.
    #[tactic(auto, unfolding(crate::specs::Codes::fits))]
    pub fn fits(self, column: ColumnType) -> bool
        ensures { result ≡ fits column (cell_of self) }
    {
        self.kind.column().is_none_or(|own| column == own)
    }

    // The cell's seventeen bytes.
    pub fn to_bytes(self) -> [u8; 17]
        ensures answer { result ≡ encoded (cell_of self) }
        ensures back { DecodesWhatIsEncoded }
    {
        match self.kind {
            Kind::Null => cell_bytes(0x10, []),
            Kind::Integer => cell_bytes(0x11, self.integer.to_be_bytes()),
            Kind::Real => cell_bytes(0x12, self.real.to_be_bytes()),
            Kind::Text => cell_bytes(0x13, <[u8; 16]>::from(self.text)),
        }
    }

    // Writes the cell's seventeen bytes over an area of so many. Any other area is refused, and
    // stays as it is.
    pub fn write(self, area: &mut [u8]) -> Result<(), WrongLength>
        ensures answer { is_ok result ≡ (length area.old == 17) }
        ensures area { area.new ≡ (if nat_eq (length area.old) 17 then encoded (cell_of self) else area.old) }
        ensures back { DecodesWhatIsEncoded }
    {
        write_over(&self.to_bytes(), area)
    }
}
