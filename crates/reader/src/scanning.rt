ghost use Rattle.std.specs.Prelude.{◌≡◌, true, map, length, nat_le, slice_index};
ghost use Rattle.std.specs.Char.{to_ascii_lowercase};
ghost use Rattle.values.specs.Names.{filled_if};
ghost use Rattle.reader.specs.Classes.{begins_name, in_word, run_end};
ghost use Rattle.reader.specs.Words.{long_symbol, name_word, next_scan, scan_from, scan_of, short_symbol, symbol_word, text_word, word_at};

use crate::start::{WordStart, run_end};
use crate::word::{Keyword, ReaderFault, Scanned, Symbol, Word};
use values::bytes::fill;
use values::name::Name;
use values::value::Value;

// The small letters of up to sixteen bytes, filled with spaces; none for more.
fn small_letters(bytes: &[u8]) -> Option<[u8; 16]>
    ensures { result ≡ filled_if (nat_le (length bytes.now) 16) (map to_ascii_lowercase bytes.now) }
{
    let mut letters = fill(bytes)?;
    letters.make_ascii_lowercase();
    Some(letters)
}

// A symbol of two bytes, where one comes first. The patterns need two bytes, so at a text's last byte
// none of them fits.
fn long_symbol(left: &[u8]) -> Option<Symbol>
    ensures { result ≡ long_symbol (slice_index left.now 0) (slice_index left.now 1) }
{
    match left {
        [b'<', b'=', ..] => Some(Symbol::LessOrEqual),
        [b'<', b'>', ..] => Some(Symbol::NotEqual),
        [b'>', b'=', ..] => Some(Symbol::GreaterOrEqual),
        _ => None,
    }
}

fn short_symbol(first: char) -> Option<Symbol>
    ensures { result ≡ short_symbol first }
{
    match first {
        ',' => Some(Symbol::Comma),
        '.' => Some(Symbol::Point),
        '(' => Some(Symbol::Open),
        ')' => Some(Symbol::Close),
        '+' => Some(Symbol::Plus),
        '-' => Some(Symbol::Minus),
        '*' => Some(Symbol::Star),
        '/' => Some(Symbol::Slash),
        '=' => Some(Symbol::Equal),
        '<' => Some(Symbol::Less),
        '>' => Some(Symbol::Greater),
        _ => None,
    }
}

impl<'a> WordStart<'a> {
    // The name or keyword that begins with the letter here.
    #[tactic(auto, unfolding(crate::specs::Words::name_word, crate::specs::Words::small_letters))]
    fn letter_word(self) -> Result<Scanned, ReaderFault>
        requires { begins_name (slice_index self.text.now self.at) ≡ true }
        ensures { scan_of result
            ≡ name_word self.entry.text.now self.entry.at (run_end in_word self.entry.text.now self.entry.at) }
    {
        let end = run_end(self.text, self.at, |b| {
            b.is_ascii_alphanumeric() || b == b'_'
        });
        let letters = small_letters(&self.text[self.at..end]).ok_or(self.too_long())?;
        // A match and no `map_or`, since a name that is refused ends the function.
        let word = match Keyword::of(&letters) {
            Some(keyword) => Word::Keyword(keyword),
            None => Word::Name(Name::new(&letters).ok_or(self.too_long())?),
        };
        Ok(self.until(end, word))
    }

    // The text that begins with the quote here.
    #[tactic(auto, unfolding(crate::specs::Words::text_word))]
    fn text_word(self) -> Result<Scanned, ReaderFault>
        ensures { scan_of result ≡ text_word self.entry.text.now self.entry.at }
    {
        let close = run_end(self.text, self.at + 1, |b| b != b'\'');
        if close == self.text.len() {
            return Err(ReaderFault::Byte { place: self.at });
        }
        let odd = run_end(self.text, self.at + 1, |b| matches!(b, b' '..=b'~'));
        if odd < close {
            return Err(ReaderFault::Byte { place: odd });
        }
        let value = Value::text(&self.text[self.at + 1..close]).ok_or(self.too_long())?;
        Ok(self.until(close + 1, Word::Literal(value)))
    }

    // The symbol that begins here, the longer where two fit.
    #[tactic(auto, unfolding(crate::specs::Words::symbol_word))]
    fn symbol_word(self) -> Result<Scanned, ReaderFault>
        ensures { scan_of result ≡ symbol_word self.entry.text.now self.entry.at }
    {
        if let Some(symbol) = long_symbol(&self.text[self.at..]) {
            return Ok(self.until(self.at + 2, Word::Symbol(symbol)));
        }
        let symbol = short_symbol(self.first() as char).ok_or(ReaderFault::Byte {
            place: self.at,
        })?;
        Ok(self.until(self.at + 1, Word::Symbol(symbol)))
    }

    // The word that begins here. Its first byte says of which kind it is, in a match on the
    // character, as the project asks for it: the kinds are ranges of letters and digits.
    fn word(self) -> Result<Scanned, ReaderFault>
        ensures { scan_of result ≡ word_at self.entry.text.now self.entry.at }
    {
        match self.first() as char {
            'a'..='z' | 'A'..='Z' => self.letter_word(),
            '0'..='9' => self.number_word(),
            '\'' => self.text_word(),
            _ => self.symbol_word(),
        }
    }
}

// The next word of a text from an offset on, behind the blanks; none at its end.
#[tactic(auto, unfolding(crate::specs::Words::scan_from, crate::specs::Classes::run_end))]
pub fn scan(text: &[u8], from: usize) -> Result<Option<Scanned>, ReaderFault>
    ensures { next_scan result ≡ scan_from text.now from }
{
    if from >= text.len() {
        return Ok(None);
    }
    let at = run_end(text, from, |b| matches!(b, b' ' | b'\t' | b'\n'));
    WordStart::new(text, at).map(WordStart::word).transpose()
}
