//! The endpoints that die of a serving first, and the servings that change at most one thing beside the endpoint served.

ghost use Rattle.std.specs.Prelude.{◌≡◌, ◌++◌, ◌∷◌, [], false, true, IfSome, OnOk};
ghost use Rattle.fidl_names.specs.HandleNumber.{is_client};
ghost use Rattle.vfs_journal.specs.Handles.{numbers_of};
ghost use Rattle.vfs_world.specs.ServingSteps.{IsLoneEnd, IsLoneGift, IsLoneRefusal, IsLoneToken, IsQuiet, carried_but, end_told, first_told, is_it, settled_told};

use fidl_names::{Handle, NoMemory, is_client};
use message_queues::Lent;
use vfs_server::Fate;

/// The endpoint that ends.
pub(crate) fn end_told(endpoint: u32, fate: &Fate<'_>) -> Option<u32>
    ensures { result ≡ end_told endpoint fate.now }
{
    match fate {
        Fate::Ends => Some(endpoint),
        Fate::Refuses { object } => Some(*object),
        Fate::Stays | Fate::Binds { .. } | Fate::Forwards { .. } | Fate::Gives { .. } => None,
    }
}

/// The endpoint with which something was done.
fn settled_told(endpoint: u32, fate: &Fate<'_>) -> Option<u32>
    ensures { result ≡ settled_told endpoint fate.now }
{
    match fate {
        Fate::Stays | Fate::Gives { .. } => None,
        Fate::Ends => Some(endpoint),
        Fate::Binds { object } | Fate::Refuses { object } | Fate::Forwards { object, .. } => {
            Some(*object)
        }
    }
}

/// Whether it is this number.
pub(crate) fn is_it(one: Option<u32>, number: u32) -> bool
    ensures { result ≡ is_it one number }
{
    match one {
        Some(it) => it == number,
        None => false,
    }
}

/// Adds the endpoints that an entry carries, but one.
fn add_carried(sent: &Lent<'_>, but: Option<u32>, dying: &mut Vec<u32>) -> Result<(), NoMemory>
    ensures { OnOk result (dying.new.items ≡ dying.old.items ++ carried_but but sent.now) }
{
    for handle in sent.handles() {
        let number = handle.number();
        if is_client(number) && !is_it(but, number) {
            dying.push(number)?;
        }
    }
    Ok(())
}

/// Lists the endpoint that ends, and those that the entry carries and nothing is done with.
pub(crate) fn list_first_deaths(
    sent: &Lent<'_>,
    fate: &Fate<'_>,
    dying: &mut Vec<u32>,
) -> Result<(), NoMemory>
    ensures { OnOk result (dying.new.items ≡ first_told sent.now fate.now) }
{
    dying.clear();
    if let Some(end) = end_told(sent.endpoint, fate) {
        dying.push(end)?;
    }
    add_carried(sent, settled_told(sent.endpoint, fate), dying)
}

/// Whether these are one handle, this endpoint.
fn are_it(handles: &[Handle], object: u32) -> bool
    ensures { result ≡ true → (numbers_of handles.now ≡ object ∷ []) × (is_client object ≡ true) }
{
    handles.len() == 1 && handles[0].number() == object && is_client(object)
}

/// Whether a serving leaves all others as they are: the endpoint stays, and the entry carries nothing, or one
/// endpoint that is bound.
#[tactic(auto, using(crate::proofs::Carried::quiet_stays, crate::proofs::Carried::quiet_binds))]
pub(crate) fn is_quiet(sent: &Lent<'_>, fate: &Fate<'_>) -> bool
    ensures { result ≡ true → IsQuiet sent.now fate.now }
{
    let handles = sent.handles();
    match fate {
        Fate::Stays => handles.is_empty(),
        Fate::Binds { object } => are_it(handles, *object),
        _ => false,
    }
}

/// Whether a serving leaves all others as they are but for the token that it gives: the entry carries nothing.
#[tactic(auto, using(crate::proofs::Carried::lone_gives))]
pub(crate) fn is_lone_gift(sent: &Lent<'_>, fate: &Fate<'_>) -> bool
    ensures { result ≡ true → IsLoneGift sent.now fate.now }
{
    match fate {
        Fate::Gives { .. } => sent.handles().is_empty(),
        _ => false,
    }
}

/// The token that these handles are, where they are one.
fn one_token(handles: &[Handle]) -> Option<u32>
    ensures { IfSome result (λ token. (numbers_of handles.now ≡ token ∷ []) × (is_client token ≡ false)) }
{
    if handles.len() != 1 {
        return None;
    }
    let number = handles[0].number();
    if is_client(number) {
        None
    } else {
        Some(number)
    }
}

/// The token that a serving spends, where it leaves all others as they are: the endpoint stays, and the entry
/// carries that token alone.
#[tactic(auto, using(crate::proofs::Carried::lone_spends))]
pub(crate) fn lone_token(sent: &Lent<'_>, fate: &Fate<'_>) -> Option<u32>
    ensures { IfSome result (IsLoneToken sent.now fate.now) }
{
    match fate {
        Fate::Stays => one_token(sent.handles()),
        _ => None,
    }
}

/// The endpoint that alone dies first of a serving that ends it, where the entry carries nothing.
#[tactic(auto, using(crate::proofs::Carried::lone_ends))]
pub(crate) fn lone_end(sent: &Lent<'_>, fate: &Fate<'_>) -> Option<u32>
    ensures { IfSome result (IsLoneEnd sent.now fate.now) }
{
    match fate {
        Fate::Ends if sent.handles().is_empty() => Some(sent.endpoint),
        _ => None,
    }
}

/// The endpoint that alone dies first of a serving that refuses it, where the entry carries nothing else.
#[tactic(auto, using(crate::proofs::Carried::lone_refuses))]
pub(crate) fn lone_refusal(sent: &Lent<'_>, fate: &Fate<'_>) -> Option<u32>
    ensures { IfSome result (IsLoneRefusal sent.now fate.now) }
{
    match fate {
        Fate::Refuses { object } if are_it(sent.handles(), *object) => Some(*object),
        _ => None,
    }
}
