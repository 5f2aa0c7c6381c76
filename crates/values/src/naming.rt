ghost use Rattle.std.specs.Prelude.{◌≡◌, ◌≤◌, ◌==◌, Some, length, not};
ghost use Rattle.std.specs.Fmt.{styled_text};
ghost use Rattle.std.specs.List.{prefix_len};
ghost use Rattle.std.specs.Option.{option_map};
ghost use Rattle.std.specs.Str.{bytes_eq};
ghost use Rattle.values.specs.Kept.{bytes_held};
ghost use Rattle.values.specs.Laws.{NamesAreWords};
ghost use Rattle.values.specs.Named.{name_bytes, name_from, trimmed};
ghost use Rattle.values.specs.Names.{lawful_name, name_tail, name_byte};
ghost use Rattle.std.specs.Cmp.{on_equiv, on_per, partial_equiv_from_equiv};
ghost use Rattle.std.specs.Cmp.Lexicographic.{nat_list_eq_equiv};

use crate::bytes::fill;
use crate::keyword::Keyword;
use crate::name::Name;
use crate::sixteen::SixteenBytes;
use std::fmt;

// Whether there are the same bytes in both.
pub fn same(a: &[u8], b: &[u8]) -> bool
    ensures { result ≡ bytes_eq a.now b.now }
{
    a == b
}

// Small letters, digits and the underscore.
fn is_name_byte(b: u8) -> bool
    ensures { result ≡ name_byte b }
{
    matches!(b, b'a'..=b'z' | b'0'..=b'9' | b'_')
}

// Such bytes, and then only spaces.
#[tactic(auto, using(crate::proofs::NameTails::tail_skipped))]
fn is_name_tail(bytes: &[u8]) -> bool
    ensures { result ≡ name_tail bytes.now }
{
    bytes
        .iter()
        .skip_while(|b| is_name_byte(**b))
        .all(|b| *b == b' ')
}

fn is_lawful(bytes: [u8; 16]) -> bool
    ensures { result ≡ lawful_name bytes }
{
    bytes[0].is_ascii_lowercase() && is_name_tail(&bytes[1..]) && Keyword::of(&bytes).is_none()
}

impl Name {
    // The name in up to sixteen bytes, filled with spaces; none where they are no lawful name. What
    // it means that there is none is for each caller to say, so it is an `Option` and no `TryFrom`.
    pub fn new(bytes: &[u8]) -> Option<Name>
        ensures answer { option_map name_bytes result ≡ name_from bytes.now }
        ensures rule { NamesAreWords }
    {
        let filled = fill(bytes)?;
        if !is_lawful(filled) {
            return None;
        }
        Some(Name {
            held: filled.into(),
        })
    }

    // The sixteen bytes.
    #[tactic(auto, unfolding(crate::specs::Named::name_bytes))]
    pub fn to_bytes(self) -> [u8; 16]
        ensures { result ≡ name_bytes self }
    {
        self.held.into()
    }
}

// Whether the same bytes are held, which the numbers tell.
fn both_same(own: SixteenBytes, others: SixteenBytes) -> bool
    ensures { result ≡ bytes_eq (bytes_held own) (bytes_held others) }
{
    own == others
}

// The equality is written out, so that it can be stated of the bytes, as those who compare names
// need it: a derived one is stated of the two numbers that hold them.
impl PartialEq for Name {
    ghost eq = { λ a b. bytes_eq (name_bytes a) (name_bytes b) };

    ghost laws = { on_per name_bytes (partial_equiv_from_equiv nat_list_eq_equiv) };

    fn eq(&self, other: &Name) -> bool {
        both_same(self.held, other.held)
    }
}

impl Eq for Name {
    ghost laws = { on_equiv name_bytes nat_list_eq_equiv };
}

// How many of the bytes come before the filling.
fn length_unfilled(bytes: &[u8]) -> usize
    ensures answer { result ≡ prefix_len (λ b. not (b == 32)) bytes.now }
    ensures within { result ≤ length bytes.now }
{
    bytes.iter().take_while(|b| **b != b' ').count()
}

// The name without its filling.
impl fmt::Display for Name {
    ghost output = { λ n. Some (trimmed (name_bytes n)) };

    ghost styled_output = { λ n s. Some (styled_text s (trimmed (name_bytes n))) };

    fn fmt<W: fmt::Write>(&self, f: &mut fmt::Formatter<W>) -> fmt::Result {
        let bytes = self.to_bytes();
        // A match and no `map_err` with `?`, behind which it was not proved which text is written.
        match str::from_utf8(&bytes[..length_unfilled(&bytes)]) {
            Ok(text) => f.pad(text),
            Err(_) => Err(fmt::Error),
        }
    }
}
