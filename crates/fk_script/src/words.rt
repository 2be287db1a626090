ghost use Rattle.std.specs.Prelude.{◌≡◌, ◌==◌, [], ◌∷◌, length, IfOk};
ghost use Rattle.fk_script.specs.Lines.{is, is_one_of, has_repeated, starts_with, first, second, words};

use fk_base::{NoMemory, Text};
use std::alloc::Global;
use std::marker::Model;

/// A word of a line.
#[derive(Drop)]
pub(crate) struct Word<'a> {
    text: &'a str,
}

impl<'a> Model for Word<'a> {
    ghost use Rattle.std.specs.Prelude.{ℕ, List};

    ghost Value = { List ℕ };

    ghost view = { λ w. w.text.now };
}

impl<'a> Word<'a> {
    pub(crate) fn new(text: &'a str) -> Word<'a>
        ensures { result ≡ text.now }
    {
        Word { text }
    }

    pub(crate) fn text(&self) -> &'a str
        ensures { result.now ≡ self.now }
    {
        self.text
    }

    /// The same word once more.
    pub(crate) fn again(&self) -> Word<'a>
        ensures { result ≡ self.now }
    {
        Word { text: self.text }
    }

    /// Whether it is this word.
    pub(crate) fn is(&self, word: &str) -> bool
        ensures { result ≡ is self.now word.now }
    {
        self.text == word
    }

    pub(crate) fn starts_with(&self, byte: u8) -> bool
        ensures { result ≡ starts_with byte self.now }
    {
        match self.text.as_bytes() {
            [] => false,
            [first, ..] => *first == byte,
        }
    }
}

/// The words of a line.
pub(crate) fn words_of<'a>(alloc: Global, line: &'a str) -> Result<Vec<Word<'a>>, NoMemory>
    ensures { IfOk result (λ v. v.items ≡ words line.now) }
{
    let mut words = Vec::new(alloc);
    'cutting: for piece in line.split(' ') {
        if !piece.is_empty() {
            words.push(Word::new(piece))?;
        }
    }
    Ok(words)
}

/// The first word; it is empty where there is none.
pub(crate) fn first<'a>(words: &[Word<'a>]) -> Word<'a>
    ensures { result ≡ first words.now }
{
    match words {
        [] => Word::new(""),
        [word, ..] => word.again(),
    }
}

/// The second word; it is empty where there is none.
pub(crate) fn second<'a>(words: &[Word<'a>]) -> Word<'a>
    ensures { result ≡ second words.now }
{
    match words {
        [] => Word::new(""),
        [_, rest @ ..] => first(rest),
    }
}

/// Whether it is one of these words.
pub(crate) fn is_one_of(words: &[Word<'_>], word: &Word<'_>) -> bool
    ensures { result ≡ is_one_of words.now word.now }
{
    words.iter().any(|other| word.is(other.text()))
}

/// Whether a word stands there twice.
pub(crate) fn has_repeated(words: &[Word<'_>]) -> bool
    ensures { result ≡ has_repeated words.now }
{
    let mut rest = words;
    'looking: while let [word, others @ ..] = rest {
        if is_one_of(others, word) {
            return true;
        }
        rest = others;
    }
    false
}

/// Whether it is one of these names.
pub(crate) fn has_name(names: &[Text], word: &Word<'_>) -> bool
    ensures { result ≡ is_one_of names.now word.now }
{
    names.iter().any(|name| word.is(name.as_str()))
}
