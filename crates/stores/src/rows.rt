ghost use Rattle.std.specs.Prelude.{◌≡◌, nat_le};
ghost use Rattle.std.specs.Bool.{then_some};
ghost use Rattle.stores.specs.Meaning.{most_rows};

// The most rows that a table has.
const MOST_ROWS: usize = 1_000_000;

// The count of so many rows; none where they are more than a table has.
pub(crate) fn counted(rows: usize) -> Option<usize>
    ensures { result ≡ then_some (nat_le rows most_rows) rows }
{
    (rows <= MOST_ROWS).then_some(rows)
}
