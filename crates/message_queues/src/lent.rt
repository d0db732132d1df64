//! What was sent, as it is served: lent from the queue where it waited, or from the frame that it came in.

ghost use Rattle.std.specs.Prelude.{◌≡◌, ◌≤◌, None, IsNone, IfSome, IfOk, length};
ghost use Rattle.fidl_names.specs.declared.limits.TheConstants as limit;
ghost use Rattle.link_frames.specs.Views.{frame_of, handle_numbers};
ghost use Rattle.vfs_journal.specs.Entries.{handles_of, hang_up};
ghost use Rattle.vfs_journal.specs.Handles.{AreByNumber, numbers_of};
ghost use Rattle.message_queues.specs.Parcels.{IsMessage, sent_by};

use crate::parcel::{Content, Sent};
use fidl_names::{Handle, NoMemory};
use link_frames::{FrameKind, FrameView, HandleBytes};
use std::alloc::Global;
use std::marker::Model;

#[derive(Clone, Copy)]
pub(crate) enum LentContent<'a> {
    Message {
        bytes: &'a [u8],
        handles: &'a [Handle],
    },
    HangUp,
}

/// Something that was sent and admitted, where its message stands.
#[derive(Drop)]
pub struct Lent<'a> {
    pub place: u64,
    pub endpoint: u32,
    pub(crate) content: LentContent<'a>,
    pub origin: Option<u64>,
}

impl<'a> Model for Lent<'a> {
    ghost use Rattle.vfs_journal.specs.Entries as journal;
    ghost use Rattle.message_queues.specs.Parcels.{lent_sending, IsLendable};

    ghost Value = { journal.Sent };

    ghost view = { λ lent. record { place = lent.place; endpoint = lent.endpoint; sending = lent_sending lent.content; origin = lent.origin } };

    ghost invariant = { λ lent. IsLendable lent.content };
}

impl Sent {
    /// Lends it where it lies.
    pub fn lend(&self) -> Lent<'_>
        ensures { result ≡ self.now }
    {
        let content = match &self.parcel.content {
            Content::Message { bytes, handles } => LentContent::Message { bytes, handles },
            Content::HangUp => LentContent::HangUp,
        };
        Lent {
            place: self.place,
            endpoint: self.endpoint,
            content,
            origin: self.origin,
        }
    }
}

impl<'a> Lent<'a> {
    /// What a frame with these handles sends, which takes a place: its message, or for a Close that its client
    /// hung up.
    pub fn of_frame(place: u64, frame: FrameView<'a>, handles: &'a [Handle]) -> Lent<'a>
        requires handles { numbers_of handles.now ≡ handle_numbers frame.handles }
        requires by_number { AreByNumber handles.now }
        requires short { length frame.bytes.now ≤ limit.MAX_BYTES }
        ensures { result ≡ record { place = place; endpoint = frame.entry.endpoint; sending = sent_by frame.entry.kind (frame_of frame.entry); origin = None } }
    {
        let content = match frame.kind {
            FrameKind::Close => LentContent::HangUp,
            _ => LentContent::Message {
                bytes: frame.bytes,
                handles,
            },
        };
        Lent {
            place,
            endpoint: frame.endpoint,
            content,
            origin: None,
        }
    }

    /// The same, lent once more.
    pub fn lend(&self) -> Lent<'a>
        ensures { result ≡ self.now }
    {
        Lent {
            place: self.place,
            endpoint: self.endpoint,
            content: self.content,
            origin: self.origin,
        }
    }

    /// The handles that it carries: none with a hang-up.
    pub fn handles(&self) -> &'a [Handle]
        ensures { numbers_of result.now ≡ handles_of self.now.sending }
    {
        match self.content {
            LentContent::Message { handles, .. } => handles,
            LentContent::HangUp => &[],
        }
    }

    /// The bytes and the handles of a message; `None` for a hang-up.
    pub fn message(&self) -> Option<(&'a [u8], &'a [Handle])>
        ensures parts { IfSome result (λ parts. IsMessage self.now.sending parts.0.now parts.1.now) }
        ensures short { IfSome result (λ parts. length parts.0.now ≤ limit.MAX_BYTES) }
        ensures none { IsNone result → self.now.sending ≡ hang_up }
    {
        match self.content {
            LentContent::Message { bytes, handles } => Some((bytes, handles)),
            LentContent::HangUp => None,
        }
    }
}

/// The handles of a frame.
#[inline(always)]
pub fn handles_in(alloc: Global, numbers: HandleBytes<'_>) -> Result<Vec<Handle>, NoMemory>
    ensures numbers { IfOk result (λ handles. numbers_of handles.items ≡ handle_numbers numbers.entry) }
    ensures by_number { IfOk result (λ handles. AreByNumber handles.items) }
{
    let mut handles = Vec::with_capacity(alloc, numbers.len())?;
    for place in 0..numbers.len() {
        handles.push(Handle::with_number(numbers.at(place)))?;
    }
    Ok(handles)
}
