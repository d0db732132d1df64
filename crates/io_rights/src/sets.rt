ghost use Rattle.std.specs.Prelude.{◌≡◌, ℕ, ◌^◌, ◌<◌, ◌≤◌, ◌↔◌, ◌&&◌, ◌||◌, IsTrue, IsNone, IfSome, nat_eq};
ghost use Rattle.std.proofs.Common.{rules};
ghost use Rattle.std.specs.Cmp.Rules.{comparing};
ghost use Rattle.std.specs.Ordering.{on};
ghost use Rattle.io_rights.specs.declared.operations.Operation.{Operation};
ghost use Rattle.io_rights.specs.Letters.{letters_of};
ghost use Rattle.io_rights.specs.Operations.{OperationSet, has, none, all, single, meet, join, is_within, set_of_bits, bits_of};

use crate::operations::Operation;
use std::marker::Model;

/// A set of operations. Contracts see it as that set.
#[derive(Clone, Copy, Debug, Eq)]
pub struct Rights {
    bits: u16,
}

impl Model for Rights {
    ghost use Rattle.std.specs.Prelude.{◌<◌, ◌^◌};
    ghost use Rattle.io_rights.specs.Operations.{OperationSet, set_of_bits, bits_of};
    ghost use Rattle.std.proofs.Common.{ap};
    ghost use Rattle.io_rights.specs.EachNumber.{bits_of-set_of_bits};

    ghost Value = { OperationSet };

    ghost view = { λ rights. set_of_bits rights.bits };

    ghost invariant = { λ rights. rights.bits < 2 ^ 9 };

    ghost inverse = { λ set. record { bits = bits_of set } };

    ghost inverse_ok = { λ rights small. ap (λ bits. record { bits = bits }) (bits_of-set_of_bits rights.bits small) };
}

impl PartialEq for Rights {
    ghost eq = { on bits_of nat_eq };

    ghost laws = { Prim.search (comparing, rules) };

    fn eq(&self, other: &Rights) -> bool
        ensures value { result ≡ on bits_of nat_eq self.now other.now }
        ensures same { IsTrue result ↔ (self.now ≡ other.now) }
    {
        self.bits == other.bits
    }
}

impl Rights {
    /// No right.
    #[tactic(auto, unfolding(crate::specs::Operations::set_of_bits))]
    pub fn none() -> Rights
        ensures { result ≡ none }
    {
        Rights { bits: 0 }
    }

    /// All nine.
    #[tactic(auto, unfolding(crate::specs::Operations::set_of_bits))]
    pub fn all() -> Rights
        ensures { result ≡ all }
    {
        Rights { bits: 0x1ff }
    }

    /// The right to this operation alone.
    #[tactic(auto, unfolding(crate::specs::Operations::set_of_bits))]
    pub fn of(operation: Operation) -> Rights
        ensures { result ≡ single operation }
    {
        Rights {
            bits: 1 << operation.bit(),
        }
    }

    /// The set that these bits stand for; `None` exactly where a bit over 8 is set.
    pub fn from_bits(bits: u16) -> Option<Rights>
        ensures unknown { IsNone result ↔ (2 ^ 9 ≤ bits) }
        ensures known { IfSome result (λ rights. rights ≡ set_of_bits bits) }
        ensures back { IfSome result (λ rights. bits_of rights ≡ bits) }
    {
        if bits < 1 << 9 {
            Some(Rights { bits })
        } else {
            None
        }
    }

    /// The bits of its operations.
    pub fn bits(self) -> u16
        ensures value { result ≡ bits_of self }
        ensures small { result < 2 ^ 9 }
        ensures back { set_of_bits result ≡ self }
    {
        self.bits
    }

    /// Whether the operation is allowed.
    pub fn allows(self, operation: Operation) -> bool
        ensures { result ≡ has self operation }
    {
        self.bits >> operation.bit() & 1 == 1
    }

    /// The operations that are in both.
    pub fn meet(self, other: Rights) -> Rights
        ensures value { result ≡ meet self other }
        ensures both { (operation : Operation) → has result operation ≡ (has self operation && has other operation) }
        ensures narrower { IsTrue (is_within result self) × IsTrue (is_within result other) }
    {
        Rights {
            bits: self.bits & other.bits,
        }
    }

    /// The operations that are in one or the other.
    pub fn join(self, other: Rights) -> Rights
        ensures value { result ≡ join self other }
        ensures either { (operation : Operation) → has result operation ≡ (has self operation || has other operation) }
    {
        Rights {
            bits: self.bits | other.bits,
        }
    }

    /// Whether each of its operations is in the other set.
    pub fn within(self, other: Rights) -> bool
        ensures value { result ≡ is_within self other }
        ensures each { IsTrue result ↔ ((operation : Operation) → IsTrue (has self operation) → IsTrue (has other operation)) }
    {
        self.meet(other) == self
    }
}

/// How the words of these contracts belong together: a set is what it has; inclusion is operation by
/// operation; the meet is the greatest set within both; sets, their bits and their letters stand for
/// one another.
pub fn laws_of_rights()
    ensures extensional { (a b : OperationSet) → ((operation : Operation) → has a operation ≡ has b operation) → a ≡ b }
    ensures inclusion { (a b : OperationSet) →
        IsTrue (is_within a b) ↔ ((operation : Operation) → IsTrue (has a operation) → IsTrue (has b operation)) }
    ensures greatest { (a b c : OperationSet) → IsTrue (is_within c (meet a b)) ↔ (IsTrue (is_within c a) × IsTrue (is_within c b)) }
    ensures numbers { (set : OperationSet) → set_of_bits (bits_of set) ≡ set }
    ensures letters { (a b : OperationSet) → letters_of a ≡ letters_of b → a ≡ b }
{}
