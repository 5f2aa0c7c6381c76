ghost use Rattle.std.specs.Prelude.{◌≡◌, Some};
ghost use Rattle.std.specs.Result.{result_ok};
ghost use Rattle.values.specs.Codes.{byte_fits, column_of, command_of, type_byte, type_of, type_word};
ghost use Rattle.std.specs.Fmt.{styled_text};

use crate::kinds::{ColumnType, Kind};
use std::fmt;

// A byte stands for no type of columns.
#[derive(Clone, Copy, Debug, PartialEq, Eq)]
pub struct UnknownType;

impl Kind {
    // The type of the columns that hold this kind; none for nulls, which any column holds.
    pub(crate) fn column(self) -> Option<ColumnType>
        ensures { result ≡ column_of self }
    {
        match self {
            Kind::Null => None,
            Kind::Integer => Some(ColumnType::Integer),
            Kind::Real => Some(ColumnType::Real),
            Kind::Text => Some(ColumnType::Text),
        }
    }
}

impl TryFrom<u8> for ColumnType {
    type Error = UnknownType;

    ghost try_from_gives = { λ b r. result_ok r ≡ type_of b };

    fn try_from(b: u8) -> Result<ColumnType, UnknownType> {
        match b {
            1 => Ok(ColumnType::Integer),
            2 => Ok(ColumnType::Real),
            3 => Ok(ColumnType::Text),
            _ => Err(UnknownType),
        }
    }
}

impl From<ColumnType> for u8 {
    ghost from_gives = { λ t b. b ≡ type_byte t };

    fn from(column: ColumnType) -> u8 {
        match column {
            ColumnType::Integer => 1,
            ColumnType::Real => 2,
            ColumnType::Text => 3,
        }
    }
}

impl ColumnType {
    // The command of the cells of this type.
    fn command(self) -> u8
        ensures { result ≡ command_of self }
    {
        0x10 + u8::from(self)
    }

    // Whether a cell with this command may stand in the column: a null's, or one of its type.
    #[tactic(auto, unfolding(crate::specs::Codes::byte_fits))]
    pub fn accepts_command(self, b: u8) -> bool
        ensures { result ≡ byte_fits self b }
    {
        b == 0x10 || b == self.command()
    }
}

impl fmt::Display for ColumnType {
    ghost output = { λ t. Some (type_word t) };

    ghost styled_output = { λ t s. Some (styled_text s (type_word t)) };

    fn fmt<W: fmt::Write>(&self, f: &mut fmt::Formatter<W>) -> fmt::Result {
        match self {
            ColumnType::Integer => f.pad("integer"),
            ColumnType::Real => f.pad("real"),
            ColumnType::Text => f.pad("text"),
        }
    }
}
