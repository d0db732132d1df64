ghost use Rattle.std.specs.Prelude.{◌≡◌, ◌≢◌, ℕ, ◌↔◌, ◌&&◌, ◌^◌, ◌<◌, false, IsTrue, IsSome, IfSome, Some, None};
ghost use Rattle.io_rights.specs.declared.operations.Operation.{Operation};
ghost use Rattle.io_rights.specs.Operations.{OperationSet, meet, is_within, has as allows};
ghost use Rattle.io_flags.specs.declared.names.Flag.{Flag};
ghost use Rattle.io_flags.specs.Words.{FlagSet, flags_of, word_of, has, has_unnamed_bit};
ghost use Rattle.io_flags.specs.Faults.{flag_fault, set_faults};
ghost use Rattle.io_flags.specs.Grants.{explicit_rights, asked_rights, write_set, execute_set, added, granted, granted_kind, grant_of, going_on, onward, passes};

use crate::check::OpenFlags;
use crate::names::Flag;
use io_rights::{Operation, Rights};

/// The rights that the PERM flags name.
pub fn explicit(flags: OpenFlags) -> Rights
    ensures value { result ≡ explicit_rights flags }
    ensures each { (operation : Operation) → allows result operation ≡ has flags (Flag.Perm operation) }
{
    Rights::from_bits((flags.word() & 0x1ff) as u16).unwrap()
}

/// The rights that the Open asks for: the explicit ones, and MODIFY_DIRECTORY where it may create.
#[tactic(auto, unfolding(crate::specs::Grants::asked_rights, crate::specs::Grants::explicit_rights))]
pub fn asked(flags: OpenFlags) -> Rights
    ensures value { result ≡ asked_rights flags }
    ensures explicit { IsTrue (is_within (explicit_rights flags) result) }
{
    let explicit = explicit(flags);
    if flags.creates() {
        explicit.join(Rights::of(Operation::ModifyDirectory))
    } else {
        explicit
    }
}

/// The rights that an Open with these flags gets on a connection that has `have`, past names whose
/// masks have `masks` in common; `None` exactly where the explicit rights aren't all in both.
///
/// An inherit flag adds its rights where both have all of them. A node reference is left with
/// GET_ATTRIBUTES at most.
pub fn grant(flags: OpenFlags, have: Rights, masks: Rights) -> Option<Rights>
    ensures value { result ≡ grant_of flags (meet have masks) }
    ensures some { IsSome result ↔ IsTrue (is_within (explicit_rights flags) (meet have masks)) }
    ensures within { IfSome result (λ rights. IsTrue (is_within rights have) × IsTrue (is_within rights masks)) }
{
    let limit = have.meet(masks);
    if explicit(flags).within(limit) {
        Some(granted_kind(flags, granted(flags, limit)))
    } else {
        None
    }
}

/// The flags that go on to another server: these, without each inherit flag whose rights the
/// connection and the masks don't both have whole.
pub fn forwarded(flags: OpenFlags, have: Rights, masks: Rights) -> OpenFlags
    ensures value { result ≡ onward flags (meet have masks) }
    ensures set { flags_of result ≡ going_on (flags_of flags) (meet have masks) }
    ensures flags { (flag : Flag) → has result flag ≡ (has flags flag && passes (meet have masks) flag) }
    ensures explicit { explicit_rights result ≡ explicit_rights flags }
    ensures asked { asked_rights result ≡ asked_rights flags }
    ensures checked { flag_fault result ≡ None }
{
    OpenFlags::of_checked(going_on(flags.word(), have.meet(masks)))
}

#[tactic(auto, unfolding(crate::specs::Grants::write_set))]
fn write_set() -> Rights
    ensures { result ≡ write_set }
{
    let change = Rights::of(Operation::UpdateAttributes);
    let modify = Rights::of(Operation::ModifyDirectory);
    Rights::of(Operation::WriteBytes).join(change.join(modify))
}

#[tactic(auto, unfolding(crate::specs::Grants::execute_set))]
fn execute_set() -> Rights
    ensures { result ≡ execute_set }
{
    Rights::of(Operation::Execute)
}

// What an inherit flag adds under the limit.
fn added(flags: OpenFlags, limit: Rights, flag: Flag, set: Rights) -> Rights
    ensures { result ≡ added (has flags flag) limit set }
{
    if flags.has(flag) && set.within(limit) {
        set
    } else {
        Rights::none()
    }
}

#[tactic(auto, unfolding(crate::specs::Grants::granted, crate::specs::Grants::explicit_rights))]
fn granted(flags: OpenFlags, limit: Rights) -> Rights
    ensures { result ≡ granted flags limit }
{
    let write = added(flags, limit, Flag::InheritWrite, write_set());
    let execute = added(flags, limit, Flag::InheritExecute, execute_set());
    explicit(flags).join(write.join(execute))
}

#[tactic(auto, unfolding(crate::specs::Grants::granted_kind))]
fn granted_kind(flags: OpenFlags, rights: Rights) -> Rights
    ensures { result ≡ granted_kind flags rights }
{
    if flags.has(Flag::ProtocolNode) {
        rights.meet(Rights::of(Operation::GetAttributes))
    } else {
        rights
    }
}

// The word, with each inherit flag only where the limit has all that it adds.
fn going_on(word: u64, limit: Rights) -> u64
    ensures set { flags_of result ≡ going_on (flags_of word) limit }
    ensures unnamed { has_unnamed_bit result ≡ has_unnamed_bit word }
{
    let write = write_set().within(limit);
    let execute = execute_set().within(limit);
    let changed = kept_if(write, Flag::InheritWrite, word);
    kept_if(execute, Flag::InheritExecute, changed)
}

// The word, with the flag only where it is kept.
fn kept_if(kept: bool, flag: Flag, word: u64) -> u64
    ensures flag { has result flag ≡ (has word flag && kept) }
    ensures others { (other : Flag) → other ≢ flag → has result other ≡ has word other }
    ensures unnamed { has_unnamed_bit result ≡ has_unnamed_bit word }
{
    if kept {
        word
    } else {
        word & !(1 << flag.place())
    }
}

/// How words and sets of flags belong together: each set is that of one word, and each word of 64 bits without a nameless one is
/// that of its set.
pub fn words_are_sets()
    ensures back { (set : FlagSet) → flags_of (word_of set) ≡ set }
    ensures named { (set : FlagSet) → (word_of set < 2 ^ 64) × (has_unnamed_bit (word_of set) ≡ false) }
    ensures whole { (word : ℕ) → word < 2 ^ 64 → has_unnamed_bit word ≡ false → word_of (flags_of word) ≡ word }
{}

/// The laws of flags: a word without a fault is the set of its flags; what is granted under a limit lies within it; the flags that
/// go on have the faults and the rights of those that they come from.
pub fn laws_of_flags()
    ensures same_flags { (a b : ℕ) → a < 2 ^ 64 → b < 2 ^ 64 → flag_fault a ≡ None → flag_fault b ≡ None →
        ((flag : Flag) → has a flag ≡ has b flag) → a ≡ b }
    ensures granted { (word : ℕ) (limit rights : OperationSet) → grant_of word limit ≡ Some rights → IsTrue (is_within rights limit) }
    ensures onward_set { (word : ℕ) (limit : OperationSet) → flags_of (onward word limit) ≡ going_on (flags_of word) limit }
    ensures onward_faults { (set : FlagSet) (limit : OperationSet) → set_faults (going_on set limit) ≡ set_faults set }
    ensures onward_fault { (word : ℕ) (limit : OperationSet) → has_unnamed_bit word ≡ false → flag_fault (onward word limit) ≡ flag_fault word }
    ensures onward_explicit { (word : ℕ) (limit : OperationSet) → explicit_rights (onward word limit) ≡ explicit_rights word }
    ensures onward_asked { (word : ℕ) (limit : OperationSet) → asked_rights (onward word limit) ≡ asked_rights word }
{}
