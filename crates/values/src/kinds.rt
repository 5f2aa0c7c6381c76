// What a value is: nothing, an integer, a real or a text. `Option<ColumnType>` would say the same
// and is no plainer: the pairs that are matched would be of `Some(ColumnType::Integer)` and so on.
#[derive(Clone, Copy, Debug, PartialEq, Eq)]
pub enum Kind {
    Null,
    Integer,
    Real,
    Text,
}

// What a column holds besides nulls.
#[derive(Clone, Copy, Debug, PartialEq, Eq)]
pub enum ColumnType {
    Integer,
    Real,
    Text,
}

// The four operations of arithmetic.
#[derive(Clone, Copy, Debug, PartialEq, Eq)]
pub enum Operator {
    Add,
    Subtract,
    Multiply,
    Divide,
}

// A sign in front of an expression.
#[derive(Clone, Copy, Debug, PartialEq, Eq)]
pub enum Sign {
    Plus,
    Minus,
}

// Why arithmetic gives no value.
#[derive(Clone, Copy, Debug, PartialEq, Eq)]
pub enum DataFault {
    IntegerRange,
    ZeroDivisor,
    NotFinite,
}

// How two values are compared.
#[derive(Clone, Copy, Debug, PartialEq, Eq)]
pub enum Comparison {
    Equal,
    NotEqual,
    Less,
    Greater,
    LessOrEqual,
    GreaterOrEqual,
}

// The truth of a condition, in rising order. It is no `Option<bool>`, in whose order an unknown
// comes before false.
#[derive(Clone, Copy, Debug, PartialEq, Eq, PartialOrd, Ord)]
pub enum Truth {
    False,
    Unknown,
    True,
}
