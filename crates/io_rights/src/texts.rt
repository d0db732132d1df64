ghost use Rattle.std.specs.Prelude.{◌≡◌, ◌≤◌, ◌<◌, ◌↔◌, List, [], ◌∷◌, ◌++◌, length, IsTrue, IfSome};
ghost use Rattle.io_rights.specs.Operations.{OperationSet};
ghost use Rattle.io_rights.specs.Letters.{letters_of, named_in, rights_of};
ghost use Rattle.io_rights.specs.declared.texts.TheConstants as limit;

use crate::operations::Operation;
use crate::sets::Rights;
use std::fmt;
use std::marker::Model;

const MOST_LETTERS: usize = 9;

/// A set of rights as text: its operations' letters in their order, or `-` for none. Contracts see
/// it as its bytes.
#[derive(Drop)]
pub struct Letters {
    bytes: [u8; MOST_LETTERS],
    count: usize,
}

impl Model for Letters {
    ghost use Rattle.std.specs.Prelude.{ℕ, List, take, ◌≤◌};
    ghost use Rattle.io_rights.specs.declared.texts.TheConstants as limit;

    ghost Value = { List ℕ };

    ghost view = { λ letters. take letters.count letters.bytes };

    ghost invariant = { λ letters. letters.count ≤ limit.MOST_LETTERS };
}

impl Letters {
    fn new() -> Letters
        ensures { result ≡ [] }
    {
        Letters {
            bytes: [0; MOST_LETTERS],
            count: 0,
        }
    }

    fn is_empty(&self) -> bool
        ensures { IsTrue result ↔ (self.now ≡ []) }
    {
        self.count == 0
    }

    fn push(&mut self, letter: u8)
        requires { length self.old < limit.MOST_LETTERS }
        ensures { self.new ≡ self.old ++ letter ∷ [] }
    {
        self.bytes[self.count] = letter;
        self.count += 1;
    }

    /// The text, of 1 to 9 bytes of ASCII.
    pub fn as_bytes(&self) -> &[u8]
        ensures { result.now ≡ self.now }
    {
        &self.bytes[..self.count]
    }
}

impl fmt::Display for Letters {
    ghost use Rattle.std.specs.Prelude.{Some};

    ghost output = { λ letters. Some letters };

    fn fmt<W: fmt::Write>(&self, f: &mut fmt::Formatter<W>) -> fmt::Result {
        match str::from_utf8(self.as_bytes()) {
            Ok(text) => f.write_str(text),
            Err(_) => Err(fmt::Error),
        }
    }
}

impl Rights {
    /// The letters of its operations, `c r w x g u e t m` in that order; `-` for none.
    pub fn letters(self) -> Letters
        ensures { result ≡ letters_of self }
    {
        let mut letters = Letters::new();
        for operation in Operation::ALL {
            if self.allows(operation) {
                letters.push(operation.letter());
            }
        }
        if letters.is_empty() {
            letters.push(b'-');
        }
        letters
    }
}

/// The rights whose letters are this text; `None` exactly where there are none.
pub fn read_rights(text: &[u8]) -> Option<Rights>
    ensures value { result ≡ rights_of text.now }
    ensures found { IfSome result (λ rights. text.now ≡ letters_of rights) }
    ensures only { (rights : OperationSet) → text.now ≡ letters_of rights → result ≡ Some rights }
{
    let rights = named_in(text);
    if rights.letters().as_bytes() == text {
        Some(rights)
    } else {
        None
    }
}

// The operations whose letter stands somewhere in the text.
fn named_in(text: &[u8]) -> Rights
    ensures { result ≡ named_in text.now }
{
    let mut rights = Rights::none();
    for operation in Operation::ALL {
        if text.contains(&operation.letter()) {
            rights = rights.join(Rights::of(operation));
        }
    }
    rights
}
