//! What was sent on endpoints, as it is kept while it waits.

ghost use Rattle.std.specs.Prelude.{◌≡◌, ◌≤◌, [], ◌∷◌, length, IfOk, IfSome, IsNone};
ghost use Rattle.link_frames.specs.Views.{handle_numbers};
ghost use Rattle.fidl_names.specs.declared.limits.TheConstants as limit;
ghost use Rattle.vfs_journal.specs.Entries.{message, hang_up, handles_of};
ghost use Rattle.vfs_journal.specs.Handles.{numbers_of};

use crate::lent::handles_in;
use fidl_names::{Handle, NoMemory};
use link_frames::FrameView;
use std::alloc::Global;
use std::marker::Model;

#[derive(Drop)]
pub(crate) enum Content {
    Message {
        bytes: Vec<u8>,
        handles: Vec<Handle>,
    },
    HangUp,
}

/// What was sent on an endpoint: a message with its bytes and handles, or that the client closed it.
#[derive(Drop)]
pub struct Parcel {
    pub(crate) content: Content,
}

impl Model for Parcel {
    ghost use Rattle.vfs_journal.specs.Entries.{Sending};
    ghost use Rattle.message_queues.specs.Parcels.{sending_of, IsSendable};

    ghost Value = { Sending };

    ghost view = { λ parcel. sending_of parcel.content };

    ghost invariant = { λ parcel. IsSendable parcel.content };
}

/// Something that was sent and admitted: its place in the journal, the endpoint that it was sent on,
/// and of a forwarded Open the place of the Open that it comes from.
#[derive(Drop)]
pub struct Sent {
    pub place: u64,
    pub endpoint: u32,
    pub parcel: Parcel,
    pub origin: Option<u64>,
}

impl Model for Sent {
    ghost use Rattle.vfs_journal.specs.Entries as journal;

    ghost Value = { journal.Sent };

    ghost view = { λ sent. record { place = sent.place; endpoint = sent.endpoint; sending = sent.parcel; origin = sent.origin } };
}

impl Parcel {
    /// The message of a frame. Its bytes are put into this room, which that of an earlier message may be:
    /// then they take no memory.
    pub fn of_message(
        alloc: Global,
        mut room: Vec<u8>,
        frame: FrameView<'_>,
    ) -> Result<Parcel, NoMemory>
        requires short { length frame.bytes.now ≤ limit.MAX_BYTES }
        ensures message { IfOk result (λ parcel. parcel ≡ message frame.entry.bytes.now (handle_numbers frame.entry.handles)) }
    {
        room.clear();
        room.extend_from_slice(frame.bytes)?;
        let handles = handles_in(alloc, frame.handles)?;
        Ok(Parcel {
            content: Content::Message {
                bytes: room,
                handles,
            },
        })
    }

    /// Takes it apart, and gives the bytes of a message, so that those of another may have their room; `None` for a hang-up.
    pub fn into_room(self) -> Option<Vec<u8>>
        ensures room { IfSome result (λ room. self ≡ message room.items (handles_of self)) }
        ensures none { IsNone result → self ≡ hang_up }
    {
        match self.content {
            Content::Message { bytes, .. } => Some(bytes),
            Content::HangUp => None,
        }
    }

    /// A message that carries one handle, by its number.
    pub fn carrying(alloc: Global, bytes: &[u8], number: u32) -> Result<Parcel, NoMemory>
        requires short { length bytes.now ≤ limit.MAX_BYTES }
        ensures message { IfOk result (λ parcel. parcel ≡ message bytes.now (number ∷ [])) }
    {
        let bytes = Vec::from_slice(alloc, bytes)?;
        let handles = Vec::from_array(alloc, [Handle::with_number(number)])?;
        Ok(Parcel {
            content: Content::Message { bytes, handles },
        })
    }

    /// That the client closed the endpoint.
    pub fn hang_up() -> Parcel
        ensures { result ≡ hang_up }
    {
        Parcel {
            content: Content::HangUp,
        }
    }

    /// The handles that it carries: none with a hang-up.
    pub fn handles(&self) -> &[Handle]
        ensures { numbers_of result.now ≡ handles_of self.now }
    {
        match &self.content {
            Content::Message { handles, .. } => handles,
            Content::HangUp => &[],
        }
    }
}
