ghost use Rattle.std.specs.Prelude.{◌≡◌, [], ◌∷◌, IfSome, IfNone};
ghost use Rattle.std.specs.List.{slice_split};
ghost use Rattle.std.specs.Str.{bytes_eq};
ghost use Rattle.fk_read.specs.Cut.{is_byte_at, IsEnd};

use std::alloc::Global;
use std::marker::Model;

/// The pieces of a text between the places of a byte, those that are left.
#[derive(Drop)]
pub(crate) struct Cut<'a> {
    alloc: Global,
    at: u8,
    rest: Option<&'a [u8]>,
}

impl<'a> Model for Cut<'a> {
    ghost use Rattle.std.specs.Prelude.{ℕ, List};
    ghost use Rattle.fk_read.specs.Cut.{pieces_left};

    ghost Value = { List (List ℕ) };

    ghost view = { λ c. pieces_left c.at c.rest };
}

impl<'a> Cut<'a> {
    pub(crate) fn new(alloc: Global, at: u8, text: &'a [u8]) -> Self
        ensures { result ≡ slice_split (is_byte_at at) text.now }
    {
        Cut {
            alloc,
            at,
            rest: Some(text),
        }
    }

    pub(crate) fn allocator(&self) -> Global {
        self.alloc
    }

    /// The next piece.
    #[tactic(auto, using(crate::proofs::Cuts::last_piece, crate::proofs::Cuts::first_piece))]
    pub(crate) fn next(&mut self) -> Option<&'a [u8]>
        ensures some { IfSome result (λ piece. self.old ≡ piece.now ∷ self.new) }
        ensures none { IfNone result (self.old ≡ []) }
    {
        let rest = self.rest?;
        let end = end_of(self.at, rest);
        if end == rest.len() {
            self.rest = None;
            return Some(rest);
        }
        self.rest = Some(&rest[end + 1..]);
        Some(&rest[..end])
    }
}

/// Where the first piece ends.
fn end_of(at: u8, text: &[u8]) -> usize
    ensures { IsEnd (is_byte_at at) text.now result }
{
    let mut end = 0;
    'looking: while end < text.len() && text[end] != at {
        end += 1;
    }
    end
}

/// Whether a word is this text.
pub(crate) fn is(word: &[u8], text: &str) -> bool
    ensures { result ≡ bytes_eq word.now text.now }
{
    word == text.as_bytes()
}
