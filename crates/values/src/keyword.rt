ghost use Rattle.std.specs.Prelude.{◌≡◌};
ghost use Rattle.values.specs.Keywords.{keyword_of, letters_of};

// The words that belong to the query language itself, which no table or column may be named by.
#[derive(Clone, Copy, Debug, PartialEq, Eq)]
pub enum Keyword {
    Select,
    From,
    Where,
    Union,
    Intersection,
    And,
    Or,
    Not,
}

impl Keyword {
    const ALL: [Keyword; 8] = [
        Keyword::Select,
        Keyword::From,
        Keyword::Where,
        Keyword::Union,
        Keyword::Intersection,
        Keyword::And,
        Keyword::Or,
        Keyword::Not,
    ];

    // The keyword's letters, filled with spaces to sixteen.
    fn letters(self) -> &'static [u8]
        ensures { result.now ≡ letters_of self }
    {
        match self {
            Keyword::Select => b"select          ",
            Keyword::From => b"from            ",
            Keyword::Where => b"where           ",
            Keyword::Union => b"union           ",
            Keyword::Intersection => b"intersection    ",
            Keyword::And => b"and             ",
            Keyword::Or => b"or              ",
            Keyword::Not => b"not             ",
        }
    }

    // The keyword that bytes are, filled with spaces to sixteen; none for any other bytes. That is
    // no failure, so it is an `Option` and no `TryFrom`.
    pub fn of(letters: &[u8]) -> Option<Keyword>
        ensures { result ≡ keyword_of letters.now }
    {
        Keyword::ALL
            .iter()
            .copied()
            .find(|keyword| letters == keyword.letters())
    }
}
