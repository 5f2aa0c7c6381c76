ghost use Rattle.std.specs.Prelude.{◌≡◌, ℕ, ◌<◌, ◌≤◌, Bool, length, MatchOption, slice_index};
ghost use Rattle.reader.specs.Classes.{run_end};

use crate::word::{ReaderFault, Scanned, Word};

// A place in a text at which a word begins.
#[derive(Clone, Copy)]
pub(crate) struct WordStart<'a> {
    pub(crate) text: &'a [u8],
    pub(crate) at: usize,
    ghost inside: { at < length text.now },
}

impl<'a> WordStart<'a> {
    // The place at an offset; none at the end of the text.
    pub(crate) fn new(text: &'a [u8], at: usize) -> Option<WordStart<'a>>
        ensures { MatchOption result (length text.now ≤ at) (λ s. (s.text.now ≡ text.now) × (s.at ≡ at)) }
    {
        (at < text.len()).then(
            ||
                requires { at < length text.now }
            { WordStart { text, at } },
        )
    }

    pub(crate) fn first(self) -> u8
        ensures { result ≡ slice_index self.entry.text.now self.entry.at }
    {
        self.text[self.at]
    }

    pub(crate) fn too_long(self) -> ReaderFault
        ensures { result ≡ ReaderFault.WordTooLong self.entry.at }
    {
        ReaderFault::WordTooLong { place: self.at }
    }

    // The word from here to an end.
    pub(crate) fn until(self, end: usize, word: Word) -> Scanned
        ensures { result ≡ record { word = word; place = self.entry.at; end = end } }
    {
        Scanned {
            word,
            place: self.at,
            end,
        }
    }
}

// Where the run of bytes ends that begins at an offset; the closure tells which bytes belong to it.
pub(crate) fn run_end<F: Fn(u8) -> bool>(text: &[u8], from: usize, belongs: F) -> usize
    ghost kind: { ℕ → Bool }
    requires begun { from ≤ length text.now }
    requires callable { F.IsAlwaysCallable belongs }
    requires tells { (b : ℕ) (r : Bool) → F.post belongs b r → r ≡ kind b }
    ensures end { result ≡ run_end kind text.now from }
    ensures begins { from ≤ result }
    ensures within { result ≤ length text.now }
{
    from + text[from..].iter().take_while(|b| belongs(**b)).count()
}
