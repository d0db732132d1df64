ghost use Rattle.std.specs.Prelude.{◌≡◌, ◌∷◌, [], ◌+◌, ◌≤◌, length, IfSome, IfNone};
ghost use Rattle.memchr.specs.Find.{IsFirstByte, is_byte};
ghost use Rattle.text_pieces.specs.Pieces.{pieces};

use memchr::memchr;
use std::marker::Model;

/// The pieces of a text that are left: what stands between the bytes `by`. A text without one is a piece, and so is an empty text.
#[derive(Drop)]
pub struct Pieces<'a> {
    by: u8,
    rest: &'a [u8],
    is_done: bool,
}

impl<'a> Model for Pieces<'a> {
    ghost use Rattle.std.specs.Prelude.{List, ℕ, [], if◌then◌else◌};
    ghost use Rattle.text_pieces.specs.Pieces.{pieces};

    ghost Value = { List (List ℕ) };

    ghost view = { λ p. if p.is_done then [] else pieces p.by p.rest.now };
}

impl<'a> Pieces<'a> {
    /// All pieces of a text.
    pub fn new(by: u8, text: &'a [u8]) -> Pieces<'a>
        ensures pieces { result ≡ pieces by text.now }
        ensures few { length result ≤ length text.now + 1 }
    {
        Pieces {
            by,
            rest: text,
            is_done: false,
        }
    }

    /// The next piece, a part of the text. Its end is looked for in blocks.
    pub fn next(&mut self) -> Option<&'a [u8]>
        ensures none { IfNone result (self.old ≡ []) }
        ensures same { IfNone result (self.new ≡ []) }
        ensures piece { IfSome result (λ piece. self.old ≡ piece.now ∷ self.new) }
    {
        if self.is_done {
            return None;
        }
        let (piece, others) = cut(self.by, self.rest, memchr(self.by, self.rest));
        *self = others;
        Some(piece)
    }

    /// The next piece, where pieces are short, as words are: its end is looked for byte by byte.
    #[inline(always)]
    pub fn next_short(&mut self) -> Option<&'a [u8]>
        ensures none { IfNone result (self.old ≡ []) }
        ensures same { IfNone result (self.new ≡ []) }
        ensures piece { IfSome result (λ piece. self.old ≡ piece.now ∷ self.new) }
    {
        if self.is_done {
            return None;
        }
        let (piece, others) = cut(self.by, self.rest, place_of(self.by, self.rest));
        *self = others;
        Some(piece)
    }
}

// The first place of a byte. Short pieces are so many that a loop costs less than a search in blocks.
#[inline(always)]
fn place_of(by: u8, text: &[u8]) -> Option<usize>
    ensures { IsFirstByte (is_byte by) text.now result }
{
    for i in 0..text.len() {
        if text[i] == by {
            return Some(i);
        }
    }
    None
}

// The first piece of a text, which ends there or at the end of the text, and the pieces behind it.
#[tactic(auto, using(crate::proofs::PieceLemmas::pieces_none))]
#[inline(always)]
fn cut<'a>(by: u8, text: &'a [u8], end: Option<usize>) -> (&'a [u8], Pieces<'a>)
    requires { IsFirstByte (is_byte by) text.now end }
    ensures { pieces by text.now ≡ result.0.now ∷ result.1 }
{
    match end {
        Some(place) => (&text[..place], Pieces::new(by, &text[place + 1..])),
        None => (
            text,
            Pieces {
                by,
                rest: text,
                is_done: true,
            },
        ),
    }
}
