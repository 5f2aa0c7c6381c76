ghost use Rattle.std.specs.Prelude.{◌≡◌};
ghost use Rattle.values.specs.Cells.{cell_of};
ghost use Rattle.values.specs.Comparing.{order_of, compared, passes, both, either, opposite, truth_if};

use crate::kinds::{Comparison, Kind, Truth};
use crate::value::Value;
use std::cmp::Ordering;
use std::ops::Not;

impl Comparison {
    // Whether the comparison holds of two values that stand in this order.
    fn accepts(self, order: Ordering) -> bool
        ensures { result ≡ passes self order }
    {
        match self {
            Comparison::Equal => order.is_eq(),
            Comparison::NotEqual => order.is_ne(),
            Comparison::Less => order.is_lt(),
            Comparison::Greater => order.is_gt(),
            Comparison::LessOrEqual => order.is_le(),
            Comparison::GreaterOrEqual => order.is_ge(),
        }
    }
}

impl Value {
    // The order of two values of one kind; none where one is null or the kinds differ.
    #[tactic(auto, unfolding(crate::specs::Comparing::order_of))]
    fn order(self, other: Value) -> Option<Ordering>
        ensures { result ≡ order_of (cell_of self) (cell_of other) }
    {
        match (self.kind, other.kind) {
            (Kind::Integer, Kind::Integer) => Some(self.integer.cmp(&other.integer)),
            (Kind::Real, Kind::Real) => self.real.partial_cmp(&other.real),
            (Kind::Text, Kind::Text) => Some(self.text.cmp(&other.text)),
            _ => None,
        }
    }

    // The comparison's truth: unknown where one value is null or the kinds differ.
    #[tactic(auto, unfolding(crate::specs::Comparing::compared))]
    pub fn compare(self, comparison: Comparison, other: Value) -> Truth
        ensures { result ≡ compared comparison (cell_of self) (cell_of other) }
    {
        self.order(other)
            .map_or(Truth::Unknown, |order| comparison.accepts(order).into())
    }
}

impl From<bool> for Truth {
    ghost from_gives = { λ b t. t ≡ truth_if b };

    fn from(holds: bool) -> Truth {
        if holds { Truth::True } else { Truth::False }
    }
}

impl Truth {
    // The lesser of the two.
    pub fn and(self, other: Truth) -> Truth
        ensures { result ≡ both self other }
    {
        self.min(other)
    }

    // The greater of the two.
    pub fn or(self, other: Truth) -> Truth
        ensures { result ≡ either self other }
    {
        self.max(other)
    }
}

// True for false, false for true, and unknown for unknown.
impl Not for Truth {
    type Output = Truth;

    ghost not_gives = { λ t r. r ≡ opposite t };

    fn not(self) -> Truth {
        match self {
            Truth::False => Truth::True,
            Truth::Unknown => Truth::Unknown,
            Truth::True => Truth::False,
        }
    }
}
