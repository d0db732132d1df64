// The first refusal of a frame, over whatever can be looked up.

ghost use Rattle.std.specs.Prelude.{◌≡◌, ◌≤◌, ◌<◌, ◌+◌, ◌^◌, [], ◌∷◌, None, nat_le, nat_lt, not, length, drop, count_by};
ghost use Rattle.fidl_names.specs.First.{cause_if, first_of};
ghost use Rattle.fidl_names.specs.HandleNumber.{is_client};
ghost use Rattle.link_admission.specs.Numbering.{among};
ghost use Rattle.link_admission.specs.Admission.{LookUps, by_standing, standing_refusal, may_travel, all_may_travel, is_full, too_many, refusal_by, admission};
ghost use Rattle.link_frames.specs.Views.{frame_of, handle_numbers};

use crate::kinds::Standing;
use fidl_names::{MAX_LIVE, MAX_WAITING, is_client};
use link_frames::{FrameKind, FrameView, HandleBytes, Refusal};

/// What admission looks up.
pub trait LookUp {
    /// All that it tells.
    ghost tells: { Self → LookUps };

    /// How a number stands.
    fn standing_at(&self, number: u32) -> Standing
        ensures { result ≡ (tells self.now).standing number };

    /// Whether a number was used as an endpoint.
    fn was_used(&self, number: u32) -> bool
        ensures { result ≡ (tells self.now).used number };

    /// Whether the clients hold this token.
    fn is_held(&self, token: u32) -> bool
        ensures { result ≡ (tells self.now).holds token };

    /// How many entries wait.
    fn waiting(&self) -> u32
        ensures { result ≡ (tells self.now).waiting };

    /// How many endpoints are live.
    fn live(&self) -> u32
        ensures { result ≡ (tells self.now).live };

    /// How many servers there are.
    fn servers(&self) -> u32
        ensures { result ≡ (tells self.now).servers };
}

/// The first refusal of a frame, by what is looked up; `None` for one that may be admitted.
pub fn first_refusal<L: LookUp>(look_ups: &L, frame: FrameView<'_>) -> Option<Refusal>
    ensures { result ≡ admission (L.tells look_ups.now) (frame_of frame.entry) }
{
    if let Some(why) = standing_refusal(look_ups, frame.kind, frame.endpoint) {
        return Some(why);
    }
    live_refusal(look_ups, frame)
}

/// The refusal of a frame for how its endpoint stands. A Turn names a server.
#[inline(always)]
fn standing_refusal<L: LookUp>(look_ups: &L, kind: FrameKind, endpoint: u32) -> Option<Refusal>
    ensures { result ≡ standing_refusal kind (L.tells look_ups.now) endpoint }
{
    match kind {
        FrameKind::Message | FrameKind::Close | FrameKind::Pick => {
            by_standing(look_ups.standing_at(endpoint))
        }
        FrameKind::Turn | FrameKind::Refused => None,
    }
}

/// The first refusal of a frame that isn't refused for how its endpoint stands. The endpoint isn't looked up.
#[inline(always)]
pub(crate) fn live_refusal<L: LookUp>(look_ups: &L, frame: FrameView<'_>) -> Option<Refusal>
    requires stands { standing_refusal frame.kind (L.tells look_ups.now) frame.endpoint ≡ None }
    ensures { result ≡ admission (L.tells look_ups.now) (frame_of frame.entry) }
{
    match frame.kind {
        FrameKind::Message => live_message_refusal(look_ups, frame.endpoint, frame.handles),
        FrameKind::Close => live_close_refusal(look_ups, frame.endpoint),
        FrameKind::Turn => turn_refusal(look_ups, frame.endpoint),
        FrameKind::Pick | FrameKind::Refused => None,
    }
}

/// The refusal of a message behind that for how its endpoint stands.
#[inline(always)]
fn live_message_refusal<L: LookUp>(
    look_ups: &L,
    endpoint: u32,
    handles: HandleBytes<'_>,
) -> Option<Refusal>
    ensures { result ≡ first_of (cause_if (not (is_client endpoint)) Refusal.BadHandle ∷ cause_if (not (all_may_travel (L.tells look_ups.now) (handle_numbers handles.entry))) Refusal.BadHandle ∷ cause_if (is_full (L.tells look_ups.now)) Refusal.ShouldWait ∷ cause_if (too_many (L.tells look_ups.now) (handle_numbers handles.entry)) Refusal.NoResources ∷ []) }
{
    if !is_client(endpoint) {
        return Some(Refusal::BadHandle);
    }
    if !all_may_travel(look_ups, handles) {
        return Some(Refusal::BadHandle);
    }
    room_refusal(look_ups, count_clients(handles))
}

/// The refusal for want of room of a message that makes so many endpoints.
pub(crate) fn room_refusal<L: LookUp>(look_ups: &L, clients: usize) -> Option<Refusal>
    requires { clients < 2 ^ 62 }
    ensures { result ≡ first_of (cause_if (is_full (L.tells look_ups.now)) Refusal.ShouldWait ∷ cause_if (nat_lt MAX_LIVE ((L.tells look_ups.now).live + clients)) Refusal.NoResources ∷ []) }
{
    if is_full(look_ups) {
        return Some(Refusal::ShouldWait);
    }
    if too_many(look_ups, clients) {
        return Some(Refusal::NoResources);
    }
    None
}

/// The refusal of a Close behind that for how its endpoint stands.
fn live_close_refusal<L: LookUp>(look_ups: &L, endpoint: u32) -> Option<Refusal>
    ensures { result ≡ first_of (cause_if (not (is_client endpoint)) Refusal.BadHandle ∷ cause_if (is_full (L.tells look_ups.now)) Refusal.ShouldWait ∷ []) }
{
    if !is_client(endpoint) {
        return Some(Refusal::BadHandle);
    }
    if is_full(look_ups) {
        return Some(Refusal::ShouldWait);
    }
    None
}

fn turn_refusal<L: LookUp>(look_ups: &L, server: u32) -> Option<Refusal>
    ensures { result ≡ refusal_by FrameKind.Turn (L.tells look_ups.now) server [] }
{
    if is_behind(look_ups, server) {
        return Some(Refusal::BadHandle);
    }
    None
}

/// Whether there is no server of that number.
fn is_behind<L: LookUp>(look_ups: &L, server: u32) -> bool
    ensures { result ≡ nat_le (L.tells look_ups.now).servers server }
{
    server >= look_ups.servers()
}

/// The refusal of a frame on an endpoint that stands so.
fn by_standing(standing: Standing) -> Option<Refusal>
    ensures { result ≡ by_standing standing }
{
    match standing {
        Standing::Unused => Some(Refusal::BadHandle),
        Standing::Live => None,
        Standing::HungUp => Some(Refusal::PeerClosed),
        Standing::Dead => Some(Refusal::PeerClosed),
    }
}

/// Whether a handle is a client number that was never used, or a token that is held.
fn may_travel<L: LookUp>(look_ups: &L, handle: u32) -> bool
    ensures { result ≡ may_travel (L.tells look_ups.now) handle }
{
    if is_client(handle) && !look_ups.was_used(handle) {
        return true;
    }
    look_ups.is_held(handle)
}

/// Whether each handle may travel, and none stands twice.
#[inline(always)]
fn all_may_travel<L: LookUp>(look_ups: &L, handles: HandleBytes<'_>) -> bool
    ensures { result ≡ all_may_travel (L.tells look_ups.now) (handle_numbers handles.entry) }
{
    for i in 0..handles.len() {
        let handle = handles.at(i);
        if !may_travel(look_ups, handle) || stands_from(handles, i + 1, handle) {
            return false;
        }
    }
    true
}

/// Whether a number is among the handles from a place on.
fn stands_from(handles: HandleBytes<'_>, from: usize, number: u32) -> bool
    requires { from ≤ length (handle_numbers handles) }
    ensures { result ≡ among number (drop from (handle_numbers handles.entry)) }
{
    for i in from..handles.len() {
        if handles.at(i) == number {
            return true;
        }
    }
    false
}

fn is_full<L: LookUp>(look_ups: &L) -> bool
    ensures { result ≡ is_full (L.tells look_ups.now) }
{
    look_ups.waiting() >= MAX_WAITING
}

fn too_many<L: LookUp>(look_ups: &L, clients: usize) -> bool
    requires { clients < 2 ^ 62 }
    ensures { result ≡ nat_lt MAX_LIVE ((L.tells look_ups.now).live + clients) }
{
    look_ups.live() as usize + clients > MAX_LIVE
}

/// How many of the handles are clients' numbers.
fn count_clients(handles: HandleBytes<'_>) -> usize
    ensures { result ≡ count_by is_client (handle_numbers handles.entry) }
{
    let mut count = 0;
    for i in 0..handles.len() {
        if is_client(handles.at(i)) {
            count += 1;
        }
    }
    count
}
