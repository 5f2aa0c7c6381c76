ghost use Rattle.std.specs.Prelude.{◌≡◌, true};
ghost use Rattle.values.specs.Kept.{bytes_held};
ghost use Rattle.values.specs.Names.{lawful_name};

use crate::sixteen::SixteenBytes;

// The name of a table or a column: a small letter, then small letters, digits and underscores, and
// no keyword of the query language. It is held as sixteen bytes, filled with spaces.
#[derive(Clone, Copy)]
pub struct Name {
    pub(crate) held: SixteenBytes,
    ghost lawful: { lawful_name (bytes_held held) ≡ true },
}
