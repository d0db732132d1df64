//! What a frame does before anything is served: it is admitted or refused, and what it sends waits.

ghost use Rattle.std.specs.Prelude.{◌≡◌, ◌≤◌, ◌+◌, ◌-◌, ◌++◌, true, Err, IfSome, OnErr, OnOk, Some, length};
ghost use Rattle.fidl_names.specs.declared.limits.TheConstants as limit;
ghost use Rattle.link_admission.specs.Admission.{admission, look_ups};
ghost use Rattle.link_frames.specs.Frames.{IsFrame, spelling};
ghost use Rattle.link_frames.specs.Views.{frame_of, handle_numbers};
ghost use Rattle.link_frames.specs.declared.kinds.Side.TheVariants as side;
ghost use Rattle.vfs_journal.specs.Entries.{message};
ghost use Rattle.vfs_journal.specs.Output.{Begins, refused_frame};
ghost use Rattle.vfs_world.specs.Arrivals.{CanWait, IsAdmitted, IsFree, IsPlain, WaitsLast};
ghost use Rattle.vfs_world.specs.Running.{IsRunning, whole};

use crate::session::Session;
use fidl_names::{NoMemory, is_client};
use link_admission::AdmitFault;
use link_frames::{FrameKind, FrameView, Outbox, Refusal, write_refused};
use message_queues::{Parcel, Sent};

impl Session {
    /// Admits a frame, or tells why not; then all is as it was.
    pub(crate) fn admit(&mut self, frame: FrameView<'_>) -> Result<(), AdmitFault>
        requires frame { IsFrame side.ToServers (frame_of frame) }
        ensures admitted { OnOk result (IsAdmitted (whole self.old) (frame_of frame.entry) (whole self.new)) }
        ensures refused { (why : Refusal) → result ≡ Err (AdmitFault.Refused why) → admission (look_ups self.old.endpoints) (frame_of frame.entry) ≡ Some why }
        ensures unchanged { OnErr result (whole self.new ≡ whole self.old) }
    {
        self.endpoints.admit(frame)
    }

    /// The server at which what a frame sends can be served at once: its endpoint is bound there, and nothing
    /// waits.
    pub(crate) fn free_server(&self, frame: FrameView<'_>) -> Option<u32>
        ensures { IfSome result (λ server. IsFree (frame_of frame.entry) server (whole self.now)) }
    {
        match frame.kind {
            FrameKind::Message | FrameKind::Close if self.queues.len() == 0 => {
                self.queues.server_of(frame.endpoint)
            }
            _ => None,
        }
    }

    /// Admits a frame that is free to be served at this server, as `admit` does. Its endpoint isn't looked up.
    #[inline(always)]
    pub(crate) fn admit_free(&mut self, server: u32, frame: FrameView<'_>) -> Result<(), AdmitFault>
        requires frame { IsFrame side.ToServers (frame_of frame) }
        requires running { IsRunning (limit.MAX_PLACES - limit.FRAME_PLACES) (whole self.old) }
        requires free { IsFree (frame_of frame) server (whole self.old) }
        ensures admitted { OnOk result (IsAdmitted (whole self.old) (frame_of frame.entry) (whole self.new)) }
        ensures refused { (why : Refusal) → result ≡ Err (AdmitFault.Refused why) → admission (look_ups self.old.endpoints) (frame_of frame.entry) ≡ Some why }
        ensures unchanged { OnErr result (whole self.new ≡ whole self.old) }
    {
        if !is_plain(frame) {
            return self.endpoints.admit_live(frame);
        }
        match self.endpoints.admit_plain() {
            Ok(()) => Ok(()),
            Err(why) => Err(AdmitFault::Refused(why)),
        }
    }

    /// Answers a frame that is refused. It takes a place.
    pub(crate) fn refuse(
        &mut self,
        endpoint: u32,
        why: Refusal,
        outbox: &mut Outbox,
    ) -> Result<(), NoMemory>
        requires places { self.old.places ≤ limit.MAX_PLACES }
        ensures place { OnOk result (whole self.new ≡ record (whole self.old) { places = self.old.places + 1 }) }
        ensures written { OnOk result (outbox.new ≡ outbox.old ++ spelling (refused_frame endpoint why)) }
        ensures begins { Begins outbox.old outbox.new }
    {
        write_refused(outbox, endpoint, why)?;
        self.take_place();
        Ok(())
    }

    /// Puts the message of a frame behind all that waits on its endpoint.
    pub(crate) fn send_message(&mut self, frame: FrameView<'_>) -> Result<(), NoMemory>
        requires room { CanWait (whole self.old) }
        requires short { length frame.bytes.now ≤ limit.MAX_BYTES }
        ensures { OnOk result (WaitsLast (whole self.old) frame.entry.endpoint (message frame.entry.bytes.now (handle_numbers frame.entry.handles)) (whole self.new)) }
    {
        let room = match self.rooms.pop() {
            Some(room) => room,
            None => Vec::new(self.alloc),
        };
        let parcel = Parcel::of_message(self.alloc, room, frame)?;
        self.send(frame.endpoint, parcel)
    }

    /// Puts what was sent behind all that waits on its endpoint. It takes a place.
    pub(crate) fn send(&mut self, endpoint: u32, parcel: Parcel) -> Result<(), NoMemory>
        requires room { CanWait (whole self.old) }
        ensures { OnOk result (WaitsLast (whole self.old) endpoint parcel (whole self.new)) }
    {
        let place = self.take_place();
        let sent = Sent {
            place,
            endpoint,
            parcel,
            origin: None,
        };
        self.queues.push(sent)
    }
}

/// Whether a frame is a message without handles on a client's endpoint. Where that is bound and nothing waits,
/// only want of room can refuse it.
pub(crate) fn is_plain(frame: FrameView<'_>) -> bool
    ensures { result ≡ true → IsPlain (frame_of frame.entry) }
{
    match frame.kind {
        FrameKind::Message => frame.handles.is_empty() && is_client(frame.endpoint),
        _ => false,
    }
}
