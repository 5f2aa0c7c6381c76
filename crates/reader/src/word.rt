pub use values::keyword::Keyword;
use values::name::Name;
use values::value::Value;

#[derive(Clone, Copy, Debug, PartialEq, Eq)]
pub enum Symbol {
    Comma,
    Point,
    Open,
    Close,
    Plus,
    Minus,
    Star,
    Slash,
    Equal,
    NotEqual,
    Less,
    Greater,
    LessOrEqual,
    GreaterOrEqual,
}

// A word of a text.
#[derive(Clone, Copy)]
pub enum Word {
    Keyword(Keyword),
    Symbol(Symbol),
    Name(Name),
    Literal(Value),
}

// A word, the offset of its first byte, and the offset behind its last.
#[derive(Clone, Copy)]
pub struct Scanned {
    pub word: Word,
    pub place: usize,
    pub end: usize,
}

// Why a text is no query.
#[derive(Clone, Copy, Debug, PartialEq, Eq)]
pub enum ReaderFault {
    // The text is longer than a query may be.
    TextTooLong,
    // A byte begins no word or may not stand in a text, or a quote is never closed.
    Byte { place: usize },
    // A name, a number or a text is over its limit.
    WordTooLong { place: usize },
}
