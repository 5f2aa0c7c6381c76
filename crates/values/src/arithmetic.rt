ghost use Rattle.std.specs.Prelude.{◌≡◌};
ghost use Rattle.values.specs.Arithmetic.{outcome_of, exactly, integers, reals, finite_real, calculated, signed};
ghost use Rattle.values.specs.Cells.{cell_of};

use crate::kinds::{DataFault, Kind, Operator, Sign};
use crate::value::Value;

// An exact integer result, or the fault that it is out of range.
fn exact(n: Option<i32>) -> Result<Value, DataFault>
    ensures { outcome_of result ≡ exactly n }
{
    let n = n.ok_or(DataFault::IntegerRange)?;
    Ok(Value::integer(n))
}

// A real result that has been rounded once, or the fault that it is not finite.
fn finite(x: f64) -> Result<Value, DataFault>
    ensures { outcome_of result ≡ finite_real x }
{
    Value::real(x).ok_or(DataFault::NotFinite)
}

// A trait for both numbers would have to declare the four operations and the test for zero, and
// each type to implement them, in place of this function and the next.
fn calculate_integers(operator: Operator, a: i32, b: i32) -> Result<Value, DataFault>
    ensures { outcome_of result ≡ integers operator a b }
{
    match operator {
        Operator::Add => exact(a.checked_add(b)),
        Operator::Subtract => exact(a.checked_sub(b)),
        Operator::Multiply => exact(a.checked_mul(b)),
        Operator::Divide => {
            if b == 0 {
                return Err(DataFault::ZeroDivisor);
            }
            exact(a.checked_div(b))
        }
    }
}

fn calculate_reals(operator: Operator, x: f64, y: f64) -> Result<Value, DataFault>
    ensures { outcome_of result ≡ reals operator x y }
{
    match operator {
        Operator::Add => finite(x + y),
        Operator::Subtract => finite(x - y),
        Operator::Multiply => finite(x * y),
        Operator::Divide => {
            if y == 0.0 {
                return Err(DataFault::ZeroDivisor);
            }
            finite(x / y)
        }
    }
}

impl Value {
    // The operator on two integers or two reals; null where an operand is null or the kinds differ.
    #[tactic(auto, unfolding(crate::specs::Arithmetic::calculated))]
    pub fn calculate(self, operator: Operator, right: Value) -> Result<Value, DataFault>
        ensures { outcome_of result ≡ calculated operator (cell_of self) (cell_of right) }
    {
        match (self.kind, right.kind) {
            (Kind::Integer, Kind::Integer) => {
                calculate_integers(operator, self.integer, right.integer)
            }
            (Kind::Real, Kind::Real) => calculate_reals(operator, self.real, right.real),
            _ => Ok(Value::null()),
        }
    }

    // A sign before a value: plus leaves it, and minus turns an integer or a real round.
    #[tactic(auto, unfolding(crate::specs::Arithmetic::signed))]
    pub fn with_sign(self, sign: Sign) -> Result<Value, DataFault>
        ensures { outcome_of result ≡ signed sign (cell_of self) }
    {
        match (sign, self.kind) {
            (Sign::Plus, _) => Ok(self),
            (Sign::Minus, Kind::Integer) => exact(self.integer.checked_neg()),
            (Sign::Minus, Kind::Real) => finite(-self.real),
            (Sign::Minus, _) => Ok(Value::null()),
        }
    }
}
