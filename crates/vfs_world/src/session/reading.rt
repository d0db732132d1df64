//! A Read or a ReadAt of a file that arrives while nothing waits. Nothing becomes of anybody by it, so that it is
//! neither put among what waits nor settled.

ghost use Rattle.std.specs.Prelude.{◌≡◌, ◌≢◌, ◌<◌, ◌+◌, ◌-◌, ℕ, [], true, IfSome, None, Ok, OnErr, OnOk, Some, length};
ghost use Rattle.fidl_names.specs.declared.limits.TheConstants as limit;
ghost use Rattle.link_frames.specs.Frames.{IsFrame};
ghost use Rattle.link_frames.specs.Views.{frame_of};
ghost use Rattle.link_frames.specs.declared.kinds.Side.TheVariants as side;
ghost use Rattle.vfs_journal.specs.Entries.{Journal};
ghost use Rattle.vfs_journal.specs.History.{waiting};
ghost use Rattle.vfs_journal.specs.Output.{Begins};
ghost use Rattle.vfs_journal.specs.Past.{history_of};
ghost use Rattle.vfs_journal.specs.Session.{arrives, drained};
ghost use Rattle.vfs_journal.specs.Starts.{Start};
ghost use Rattle.io_messages.specs.Asked.{asked};
ghost use Rattle.request_reader.specs.Parts.{AsksPart};
ghost use Rattle.message_queues.specs.Queues.{server_of};
ghost use Rattle.vfs_world.specs.Running.{IsRunning, whole};
ghost use Rattle.vfs_world.specs.World.{LeadsTo, StandsFor};
ghost use Rattle.vfs_world.specs.Arrivals.{AnswersPart, CanBeServed};

use crate::session::Session;
use crate::session::admitting::is_plain;
use fidl_names::{MAX_LIVE, NoMemory};
use fidl_wire::{Ordinals, Out};
use io_messages::Request;
use link_admission::LookUp;
use link_frames::{FrameView, Outbox};
use request_reader::read_part;
use vfs_server::Server;

impl Session {
    /// Hears a Read or a ReadAt of a file, where nothing waits: its reply is written, and it takes two places. For any
    /// other frame `None`, and nothing is done.
    #[inline(always)]
    pub(crate) fn hear_read(
        &mut self,
        frame: FrameView<'_>,
        outbox: &mut Outbox,
    ) -> Option<Result<(), NoMemory>>
        requires frame { IsFrame side.ToServers (frame_of frame) }
        requires running { IsRunning (limit.MAX_PLACES - limit.FRAME_PLACES) (whole self.old) }
        ensures heard { (start : Start) (journal : Journal) → StandsFor start (whole self.old) journal →
            IfSome result (λ heard. OnOk heard (LeadsTo start (drained start (arrives start journal (frame_of frame.entry))) (whole self.new) journal outbox.old outbox.new)) }
        ensures none { (start : Start) (journal : Journal) → StandsFor start (whole self.old) journal →
            IfSome result (λ heard. OnOk heard (waiting (history_of start (drained start (arrives start journal (frame_of frame.entry)))) ≡ [])) }
        ensures running { (most : ℕ) → IsRunning most (whole self.old) → IfSome result (λ heard. OnOk heard (IsRunning (most + limit.FRAME_PLACES) (whole self.new))) }
        ensures unchanged { result ≡ None → (whole self.new ≡ whole self.old) × (outbox.new ≡ outbox.old) }
        ensures begins { Begins outbox.old outbox.new }
    {
        if !self.can_be_served(frame) {
            return None;
        }
        let (txid, request) = read_part(&self.ordinals, frame.bytes)?;
        let at = self.server_for(frame.endpoint)?;
        let read = read_at(
            &mut self.servers,
            &self.ordinals,
            at,
            frame.endpoint,
            txid,
            &request,
            &mut self.out,
            outbox,
        )?;
        self.places += 2;
        Some(read)
    }

    /// Whether a frame is a message without handles that needn't wait, and that nothing refuses where its endpoint is
    /// bound.
    fn can_be_served(&self, frame: FrameView<'_>) -> bool
        ensures { result ≡ true → CanBeServed (frame_of frame.entry) (whole self.now) }
    {
        is_plain(frame) && self.endpoints.live() as usize <= MAX_LIVE && self.queues.len() == 0
    }

    /// The server at which an endpoint may be bound. Where there is but one, nobody need look.
    fn server_for(&self, endpoint: u32) -> Option<u32>
        ensures alone { length self.now.servers.items ≡ 1 → result ≡ Some 0 }
        ensures among { length self.now.servers.items ≢ 1 → result ≡ server_of self.now.queues endpoint }
    {
        if self.servers.len() == 1 {
            return Some(0);
        }
        self.queues.server_of(endpoint)
    }
}

/// Serves the request for a part of a file at a server, where the endpoint is bound to a file there.
#[inline(always)]
fn read_at(
    servers: &mut Vec<Server>,
    ordinals: &Ordinals,
    at: u32,
    endpoint: u32,
    txid: u32,
    request: &Request<'_>,
    out: &mut Out,
    outbox: &mut Outbox,
) -> Option<Result<(), NoMemory>>
    requires part { AsksPart (asked request.now) }
    requires txid { 0 < txid }
    ensures answers { IfSome result (λ read. OnOk read (AnswersPart servers.old.items at endpoint txid (asked request.now) servers.new.items outbox.old outbox.new)) }
    ensures unchanged { result ≡ None → (servers.new.items ≡ servers.old.items) × (outbox.new ≡ outbox.old) }
    ensures no_memory { IfSome result (λ read. OnErr read (outbox.new ≡ outbox.old)) }
{
    if at as usize >= servers.len() {
        return None;
    }
    let one = &mut servers[at as usize];
    one.read(ordinals, endpoint, txid, request, out, outbox)
}
