ghost use Rattle.std.specs.Prelude.{◌≡◌, ◌⊎◌, IsTrue, IfOk, None};
ghost use Rattle.std.specs.Result.{result_err};
ghost use Rattle.io_flags.specs.declared.names.Flag.{Flag};
ghost use Rattle.io_flags.specs.Words.{has, has_protocol, is_alone, creates};
ghost use Rattle.io_flags.specs.Faults.{flag_fault};

use crate::faults::FlagFault;
use crate::names::Flag;
use crate::words;
use std::marker::Model;

/// A flag word without a fault. Contracts see it as the word, whose flags `has` tells.
#[derive(Clone, Copy)]
pub struct OpenFlags {
    word: u64,
}

impl Model for OpenFlags {
    ghost use Rattle.std.specs.Prelude.{ℕ, ◌≡◌, None};
    ghost use Rattle.io_flags.specs.Faults.{flag_fault};

    ghost Value = { ℕ };

    ghost view = { λ flags. flags.word };

    ghost invariant = { λ flags. flag_fault flags.word ≡ None };

    ghost inverse = { λ word. record { word = word } };
}

impl OpenFlags {
    /// Tests a word; the first fault that holds, in the order of `FlagFault`.
    #[inline(always)]
    pub fn check(word: u64) -> Result<OpenFlags, FlagFault>
        ensures fault { result_err result ≡ flag_fault word }
        ensures word { IfOk result (λ flags. flags ≡ word) }
    {
        match first_fault(word) {
            Some(fault) => Err(fault),
            None => Ok(OpenFlags { word }),
        }
    }

    // A word that is known to have no fault.
    pub(crate) fn of_checked(word: u64) -> OpenFlags
        requires { flag_fault word ≡ None }
        ensures { result ≡ word }
    {
        OpenFlags { word }
    }

    /// The word.
    pub fn word(self) -> u64
        ensures word { result ≡ self }
        ensures checked { flag_fault result ≡ None }
    {
        self.word
    }

    /// Whether the flag is set.
    pub fn has(self, flag: Flag) -> bool
        ensures { result ≡ has self flag }
    {
        words::has(self.word, flag)
    }

    /// Whether some protocol flag is set.
    pub fn has_protocol(self) -> bool
        ensures { result ≡ has_protocol self }
    {
        words::has_protocol(self.word)
    }

    /// Whether this protocol flag is set, and no other.
    pub fn is_alone(self, flag: Flag) -> bool
        ensures { result ≡ is_alone self flag }
    {
        words::is_alone(self.word, flag)
    }

    /// Whether a missing node is to be created: a directory or a file, as the one protocol flag says.
    pub fn creates(self) -> bool
        ensures value { result ≡ creates self }
        ensures kind { IsTrue result → IsTrue (is_alone self Flag.ProtocolDirectory) ⊎ IsTrue (is_alone self Flag.ProtocolFile) }
    {
        words::creates(self.word)
    }
}

// What is wrong with a word: the first that holds.
#[tactic(auto, unfolding(crate::specs::Faults::flag_fault))]
#[inline(always)]
fn first_fault(word: u64) -> Option<FlagFault>
    ensures { result ≡ flag_fault word }
{
    if words::has_unnamed_bit(word) {
        return Some(FlagFault::UnknownBit);
    }
    if words::makes_twice(word) {
        return Some(FlagFault::BothCreate);
    }
    if words::is_unsupported(word) {
        return Some(FlagFault::Unsupported);
    }
    if words::makes_no_kind(word) {
        return Some(FlagFault::CreateKind);
    }
    if words::marks_no_file(word) {
        return Some(FlagFault::FileFlags);
    }
    if words::truncates_without_right(word) {
        return Some(FlagFault::TruncateRight);
    }
    if words::mixes_node(word) {
        return Some(FlagFault::NodeAlone);
    }
    None
}
