//! The serving of the first entry of an endpoint.

ghost use Rattle.std.specs.Prelude.{◌≡◌, ◌<◌, ◌^◌, ◌∷◌, [], ℕ, true, false, All, IfOk, IfSome, List, None, Ok, OnOk, Some, length, slice_get};
ghost use Rattle.fidl_names.specs.declared.limits.TheConstants as limit;
ghost use Rattle.link_admission.specs.Standings.{is_live, next_token_of, standing_of};
ghost use Rattle.io_messages.specs.Asked.{asked};
ghost use Rattle.request_reader.specs.Parts.{AsksPart};
ghost use Rattle.message_queues.specs.Dying.{AreDeaths};
ghost use Rattle.message_queues.specs.Queues.{IsAbove, IsReady, count};
ghost use Rattle.vfs_journal.specs.Entries.{handles_of};
ghost use Rattle.vfs_journal.specs.Output.{Begins};
ghost use Rattle.vfs_server.specs.Servers.{Server};
ghost use Rattle.vfs_server.specs.Serving.{CanTake};
ghost use Rattle.vfs_world.specs.Heads.{AsksFile, CanSettle, DiesAlone, IsUnbound, LetsDie, ServesTaken, SettlesButPlace, SettlesHead, Takes, TakesHead, WasTaken};
ghost use Rattle.vfs_world.specs.Running.{IsRunning, RunsOn, whole};
ghost use Rattle.vfs_world.specs.Servings.{ServesOne};
ghost use Rattle.vfs_world.specs.ServingSteps.{Answers, SendsOn, first_told, is_sent_on};
ghost use Rattle.vfs_world.specs.World.{World};

use crate::closing::close_others;
use crate::deaths::{
    end_told, is_lone_gift, is_quiet, list_first_deaths, lone_end, lone_refusal, lone_token,
};
use crate::forgetting::{forget, give, spend};
use crate::session::Session;
use crate::settling::{bind, bury, let_all_go};
use conn_rules::forward;
use fidl_names::{MAX_WAITING, NoMemory, end_of_mount};
use fidl_wire::Ordinals;
use io_messages::Request;
use link_frames::Outbox;
use message_queues::{Lent, Parcel, Sent};
use request_reader::read_part;
use std::mem;
use vfs_server::{Fate, Message};

/// The most bytes of a small room, as most messages need.
const SMALL_ROOM: usize = 256;

impl Session {
    /// Serves the first entry of an endpoint that is bound and on which something waits.
    pub(crate) fn serve_head(&mut self, endpoint: u32, outbox: &mut Outbox) -> Result<(), NoMemory>
        requires running { IsRunning limit.MAX_PLACES (whole self.old) }
        requires ready { IsReady self.old.queues endpoint }
        ensures served { OnOk result (ServesOne (λ one. one ≡ endpoint) (whole self.old) (whole self.new) outbox.old outbox.new) }
        ensures running { RunsOn result (whole self.old) (whole self.new) }
        ensures begins { Begins outbox.old outbox.new }
    {
        let (server, sent) = self.queues.take(endpoint)?;
        let served = self.serve_sent(endpoint, server, &sent.lend(), outbox);
        self.keep_room(sent);
        served
    }

    /// Serves what was taken from an endpoint, as `serve_taken` does. Most of it asks for parts of files, and has a
    /// way of its own.
    #[inline(always)]
    fn serve_sent(
        &mut self,
        endpoint: u32,
        server: u32,
        sent: &Lent<'_>,
        outbox: &mut Outbox,
    ) -> Result<(), NoMemory>
        requires taken { WasTaken endpoint server sent.now (whole self.old) }
        ensures served { OnOk result (ServesTaken endpoint server sent.now (whole self.old) (whole self.new) outbox.old outbox.new) }
        ensures begins { Begins outbox.old outbox.new }
    {
        match self.serve_read(endpoint, server, sent, outbox) {
            Some(read) => read,
            None => self.serve_taken(endpoint, server, sent, outbox),
        }
    }

    /// Serves a Read or a ReadAt of a file that was taken from an endpoint at this server. Nothing becomes of anybody
    /// by it, so that nothing is settled. For anything else `None`, and nothing is done.
    #[inline(always)]
    fn serve_read(
        &mut self,
        endpoint: u32,
        server: u32,
        sent: &Lent<'_>,
        outbox: &mut Outbox,
    ) -> Option<Result<(), NoMemory>>
        requires taken { WasTaken endpoint server sent.now (whole self.old) }
        ensures served { IfSome result (λ read. OnOk read (ServesTaken endpoint server sent.now (whole self.old) (whole self.new) outbox.old outbox.new)) }
        ensures unchanged { result ≡ None → (whole self.new ≡ whole self.old) × (outbox.new ≡ outbox.old) }
        ensures begins { Begins outbox.old outbox.new }
    {
        let (txid, request) = read_asked(&self.ordinals, sent)?;
        let one = &mut self.servers[server as usize];
        let read = one.read(
            &self.ordinals,
            endpoint,
            txid,
            &request,
            &mut self.out,
            outbox,
        )?;
        self.endpoints.served();
        self.places += 1;
        Some(read)
    }

    /// Serves what was taken from an endpoint that is bound at this server, and was the first that waited
    /// there.
    #[inline(always)]
    pub(crate) fn serve_taken(
        &mut self,
        endpoint: u32,
        server: u32,
        sent: &Lent<'_>,
        outbox: &mut Outbox,
    ) -> Result<(), NoMemory>
        requires taken { WasTaken endpoint server sent.now (whole self.old) }
        ensures served { OnOk result (ServesTaken endpoint server sent.now (whole self.old) (whole self.new) outbox.old outbox.new) }
        ensures begins { Begins outbox.old outbox.new }
    {
        let fate = self.answer_taken(endpoint, server, sent, outbox)?;
        self.settle_head(sent, fate, outbox)?;
        Ok(())
    }

    /// Answers what was taken from an endpoint at its server, and binds for what waits what is bound there.
    #[inline(always)]
    fn answer_taken<'a>(
        &mut self,
        endpoint: u32,
        server: u32,
        sent: &Lent<'a>,
        outbox: &mut Outbox,
    ) -> Result<Fate<'a>, NoMemory>
        requires taken { WasTaken endpoint server sent.now (whole self.old) }
        ensures taken { (before : World) → Takes before endpoint server sent.now (whole self.old) →
            IfOk result (λ fate. TakesHead before endpoint server sent.now fate (whole self.new) outbox.old outbox.new) }
        ensures begins { Begins outbox.old outbox.new }
    {
        let fate = self.answer(endpoint, server, sent, outbox)?;
        self.endpoints.served();
        bind(&mut self.queues, server, &fate)?;
        Ok(fate)
    }

    /// Has the server at which an endpoint is bound serve what was sent there. Where its client hung up the endpoint
    /// ends.
    #[inline(always)]
    fn answer<'a>(
        &mut self,
        endpoint: u32,
        server: u32,
        sent: &Lent<'a>,
        outbox: &mut Outbox,
    ) -> Result<Fate<'a>, NoMemory>
        requires within { server < length self.old.servers.items }
        requires can { (one : Server) → slice_get self.old.servers.items server ≡ Some one → CanTake one endpoint (next_token_of self.old.endpoints) (handles_of sent.now.sending) }
        ensures answers { IfOk result (λ fate. Answers self.old.servers.items server endpoint (next_token_of self.old.endpoints) sent.now fate self.new.servers.items outbox.old outbox.new) }
        ensures others { whole self.new ≡ record (whole self.old) { servers = self.new.servers.items } }
        ensures begins { Begins outbox.old outbox.new }
    {
        let Some((bytes, handles)) = sent.message() else {
            return Ok(Fate::Ends);
        };
        let message = Message {
            endpoint,
            bytes,
            handles,
        };
        let token = self.endpoints.next_token();
        let one = &mut self.servers[server as usize];
        one.serve(&self.ordinals, token, &message, &mut self.out, outbox)
    }

    /// Settles a serving. Most change at most one thing beside the endpoint served. A copy is lent otherwise, so that the
    /// entry of such a serving need not lie in memory.
    #[inline(always)]
    fn settle_head(
        &mut self,
        sent: &Lent<'_>,
        fate: Fate<'_>,
        outbox: &mut Outbox,
    ) -> Result<(), NoMemory>
        requires can { CanSettle (whole self.old) sent.now fate }
        ensures settled { OnOk result (SettlesHead (whole self.old) sent.now fate.entry (whole self.new) outbox.old outbox.new) }
        ensures begins { Begins outbox.old outbox.new }
    {
        if self.settle_one(sent, &fate)? {
            self.places += 1;
            return Ok(());
        }
        let sent = sent.lend();
        self.settle_all(&sent, fate, outbox)
    }

    /// Settles a serving that changes at most one thing beside the endpoint served, but for the place that it takes: a
    /// token is given or spent, or an endpoint dies alone. Tells whether it is such a one; else all is as it was.
    #[inline(always)]
    fn settle_one(&mut self, sent: &Lent<'_>, fate: &Fate<'_>) -> Result<bool, NoMemory>
        requires can { CanSettle (whole self.old) sent.now fate.now }
        ensures settled { result ≡ Ok true → SettlesButPlace (whole self.old) sent.now fate.now (whole self.new) }
        ensures unchanged { result ≡ Ok false → whole self.new ≡ whole self.old }
    {
        if is_quiet(sent, fate) {
            return Ok(true);
        }
        if is_lone_gift(sent, fate) {
            give(&mut self.endpoints, fate)?;
            return Ok(true);
        }
        if let Some(token) = lone_token(sent, fate) {
            forget(&mut self.servers, &mut self.endpoints, token);
            return Ok(true);
        }
        if let Some(object) = lone_refusal(sent, fate) {
            return Ok(self.bury_unbound(object));
        }
        match lone_end(sent, fate) {
            Some(end) => Ok(self.bury_alone(end)),
            None => Ok(false),
        }
    }

    /// Buries an endpoint that dies alone, since nothing waits, and tells whether that is so; else all is as it
    /// was.
    #[inline(never)]
    fn bury_alone(&mut self, end: u32) -> bool
        requires live { (dead : List ℕ) → AreDeaths self.old.queues (end ∷ []) dead → All (λ endpoint. is_live (standing_of self.old.endpoints endpoint) ≡ true) dead }
        ensures alone { result ≡ true → DiesAlone (whole self.old) end (whole self.new) }
        ensures unchanged { result ≡ false → whole self.new ≡ whole self.old }
    {
        if !self.queues.bury_alone(end) {
            return false;
        }
        self.endpoints.ended(end);
        let_all_go(&mut self.servers, &[end]);
        true
    }

    /// Buries an endpoint that is bound nowhere, as `bury_alone` does, with no look at what waits or at a server.
    #[inline(never)]
    fn bury_unbound(&mut self, object: u32) -> bool
        requires live { (dead : List ℕ) → AreDeaths self.old.queues (object ∷ []) dead → All (λ endpoint. is_live (standing_of self.old.endpoints endpoint) ≡ true) dead }
        requires unbound { IsUnbound (whole self.old) object }
        ensures alone { result ≡ true → DiesAlone (whole self.old) object (whole self.new) }
        ensures unchanged { result ≡ false → whole self.new ≡ whole self.old }
    {
        if self.queues.len() != 0 {
            return false;
        }
        self.endpoints.ended(object);
        true
    }

    /// Lets whoever dies of a serving die, forgets the tokens that are spent, gives the one that is given, and
    /// sends on what goes on.
    #[inline(never)]
    fn settle_all(
        &mut self,
        sent: &Lent<'_>,
        fate: Fate<'_>,
        outbox: &mut Outbox,
    ) -> Result<(), NoMemory>
        requires can { CanSettle (whole self.old) sent.now fate }
        ensures settled { OnOk result (SettlesHead (whole self.old) sent.now fate.entry (whole self.new) outbox.old outbox.new) }
        ensures begins { Begins outbox.old outbox.new }
    {
        let dropped = self.let_die(sent, &fate, outbox)?;
        spend(&mut self.servers, &mut self.endpoints, sent, &dropped);
        give(&mut self.endpoints, &fate)?;
        let place = self.places + 1;
        let more = self.send_on(place, sent.place, fate)?;
        self.places = place + more;
        Ok(())
    }

    /// Sends an Open that goes on to its mount's end, at a place, and tells how many places that takes. It is written
    /// anew for what is left of its path.
    fn send_on(&mut self, place: u64, origin: u64, fate: Fate<'_>) -> Result<u64, NoMemory>
        requires low { (mount object flags : ℕ) (rest : List (List ℕ)) → fate ≡ Fate.Forwards mount object flags rest → mount < 2 ^ 30 }
        requires newest { IsAbove self.old.queues place }
        requires few { count self.old.queues < limit.MAX_WAITING }
        requires counted { count self.old.queues ≡ self.old.endpoints.waiting }
        ensures sent { OnOk result (SendsOn place origin fate.entry self.old.queues self.new.queues) }
        ensures count { IfOk result (λ places. places ≡ is_sent_on fate.entry) }
        ensures known { OnOk result (self.new.endpoints ≡ record self.old.endpoints { waiting = count self.new.queues }) }
        ensures servers { self.new.servers.items ≡ self.old.servers.items }
    {
        let Fate::Forwards {
            mount,
            object,
            flags,
            rest,
        } = fate
        else {
            return Ok(0);
        };
        self.out.clear();
        forward(&self.ordinals, flags, rest, object, &mut self.out);
        let parcel = Parcel::carrying(self.alloc, self.out.as_bytes(), object)?;
        self.queues.push(Sent {
            place,
            endpoint: end_of_mount(mount),
            parcel,
            origin: Some(origin),
        })?;
        self.endpoints.forwarded_one();
        Ok(1)
    }

    /// Buries whoever dies of a serving, and closes them. Tells the tokens that what waited on them carried.
    fn let_die(
        &mut self,
        sent: &Lent<'_>,
        fate: &Fate<'_>,
        outbox: &mut Outbox,
    ) -> Result<Vec<u32>, NoMemory>
        requires live { (dead : List ℕ) → AreDeaths self.old.queues (first_told sent.now fate.now) dead → All (λ endpoint. is_live (standing_of self.old.endpoints endpoint) ≡ true) dead }
        requires counted { count self.old.queues ≡ self.old.endpoints.waiting }
        ensures dead { IfOk result (λ dropped. LetsDie (whole self.old) sent.now fate.now dropped.items (whole self.new) outbox.old outbox.new) }
        ensures begins { Begins outbox.old outbox.new }
    {
        list_first_deaths(sent, fate, &mut self.dying)?;
        if self.dying.is_empty() {
            return Ok(Vec::new(self.alloc));
        }
        let dying = mem::replace(&mut self.dying, Vec::new(self.alloc));
        let buried = bury(
            self.alloc,
            &mut self.servers,
            &mut self.queues,
            &mut self.endpoints,
            dying,
        )?;
        self.dying = buried.dead;
        close_others(
            self.alloc,
            end_told(sent.endpoint, fate),
            &self.dying,
            outbox,
        )?;
        Ok(buried.tokens)
    }

    /// Keeps the room that the bytes of a message took: as many small ones as messages may wait, and a larger one
    /// where there is no other. For want of memory it is let go.
    fn keep_room(&mut self, sent: Sent)
        ensures { whole self.new ≡ whole self.old }
    {
        let Some(room) = sent.parcel.into_room() else {
            return;
        };
        let few = self.rooms.len() < MAX_WAITING as usize;
        if self.rooms.is_empty() || few && room.capacity() <= SMALL_ROOM {
            let _ = self.rooms.push(room);
        }
    }
}

/// The request for a part of a file's bytes that was sent, and its transaction id; `None` where anything else was sent,
/// or handles beside it.
#[inline(always)]
fn read_asked<'a>(ordinals: &Ordinals, sent: &Lent<'a>) -> Option<(u32, Request<'a>)>
    ensures read { IfSome result (λ asks. AsksFile sent.now asks.0 (asked asks.1)) }
    ensures part { IfSome result (λ asks. AsksPart (asked asks.1)) }
    ensures txid { IfSome result (λ asks. 0 < asks.0) }
{
    let (bytes, handles) = sent.message()?;
    if !handles.is_empty() {
        return None;
    }
    read_part(ordinals, bytes)
}
