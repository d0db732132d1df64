ghost use Rattle.std.specs.Prelude.{◌≡◌, ◌<◌, ◌≤◌, ◌++◌, true, false, [], length, map, take, None, Some, IfOk, IfErr, OnOk, OnErr};
ghost use Rattle.std.specs.FinMap as finite;
ghost use Rattle.std.specs.Int.{w32, cast_signed};
ghost use Rattle.fidl_names.specs.HandleNumber.{handle_with};
ghost use Rattle.fidl_names.specs.Numbers.{number_at};
ghost use Rattle.link_frames.specs.Frames.{spelling, frame_with, IsFrame};
ghost use Rattle.link_frames.specs.declared.kinds.Side.TheVariants as side;
ghost use Rattle.link_frames.specs.Views.{frame_of, handle_numbers};
ghost use Rattle.fidl_wire.specs.Headers.{header_of};
ghost use Rattle.io_messages.specs.Asked.{asked, method_of};
ghost use Rattle.io_replies.specs.Reading.{event_of, reply_of};
ghost use Rattle.io_messages.specs.Requests.{has_txid};
ghost use Rattle.io_messages.specs.Shapes.{is_one_way};
ghost use Rattle.io_messages.specs.Writing.{HasTexts, request_bytes, request_handles};
ghost use Rattle.io_client.specs.Calls.{Answers, call_at, none_yet, note_refusal, noted, request_frame, send_refusal, sent, watcher_of};
ghost use Rattle.io_client.specs.Taking.{LendsPayload, Takes, TakesMessage, answer_to, by_header, calls_behind, calls_behind_message, is_from_servers, taking, told_event};

use crate::calls::{Waiting, Watched};
use crate::faults::ClientFault;
use crate::taking::Taken;
use byteorder::{ByteOrder, LittleEndian};
use fidl_names::{Handle, MAX_BYTES, MAX_HANDLES, Method, NoMemory};
use fidl_wire::{Header, Ordinals, Out, WireFault, WireWhat, read_epitaph};
use io_messages::{ORDINAL_PLACE, Request, is_one_way, write_request};
use io_replies::{read_event, read_reply};
use link_frames::{FrameKind, FrameView, HandleBytes, Outbox, write_frame, write_message};
use std::alloc::Global;
use std::marker::Model;
use watch_events::read_events;

/// One end of the link that sends requests. It knows which calls wait for their reply, by endpoint and
/// transaction id, and which endpoints a Watch carried. Contracts see both.
#[derive(Drop)]
pub struct Client {
    waiting: Waiting,
    watched: Watched,
    out: Out,
}

impl Model for Client {
    ghost use Rattle.io_client.specs.Calls.{Calls};
    ghost use Rattle.io_client.specs.Codes.{calls_code};

    ghost Value = { Calls };

    ghost coded = { calls_code };

    ghost view = { λ c. record { waiting = c.waiting; watched = c.watched } };
}

impl Client {
    /// A client for which no call waits. It takes the room of one message.
    pub fn new(alloc: Global) -> Result<Client, NoMemory>
        ensures { IfOk result (λ client. client ≡ none_yet) }
    {
        let out = Out::new(alloc)?;
        Ok(Client {
            waiting: Waiting::new(alloc),
            watched: Watched::new(alloc),
            out,
        })
    }

    /// How many calls wait for their reply.
    pub fn waiting(&self) -> usize
        ensures { result ≡ finite.len self.now.waiting }
    {
        self.waiting.len()
    }

    /// Sends a request: appends its frame. A call with a reply waits for it then, and the endpoint that
    /// a Watch carries is watched.
    ///
    /// `TooLong` where the message would have more than 65,536 bytes; else `Busy` where a call with this
    /// endpoint and transaction id waits. After these, and for want of memory, nothing has changed.
    ///
    /// The caller sees to it that texts are UTF-8, and that the transaction id is 0 exactly where the
    /// request is Clone or OpenPath.
    pub fn send(
        &mut self,
        ordinals: &Ordinals,
        endpoint: u32,
        txid: u32,
        request: Request<'_>,
        to: &mut Outbox,
    ) -> Result<(), ClientFault>
        requires texts { HasTexts (asked request) }
        requires way { has_txid (is_one_way (method_of (asked request))) txid ≡ true }
        ensures answer { Answers result (send_refusal self.old endpoint txid (asked request.entry)) }
        ensures calls { OnOk result (self.new ≡ sent self.old endpoint txid (asked request.entry)) }
        ensures frame { OnOk result (to.new ≡ to.old ++ spelling (request_frame endpoint txid (asked request.entry))) }
        ensures same_calls { OnErr result (self.new ≡ self.old) }
        ensures same_frames { OnErr result (to.new ≡ to.old) }
    {
        put_request(
            ordinals,
            &self.waiting,
            endpoint,
            txid,
            request,
            &mut self.out,
        )?;
        let len = to.len();
        write_message(to, endpoint, self.out.handles(), self.out.as_bytes())?;
        if let Err(fault) = self.wait_for(endpoint, txid, &request) {
            to.truncate(len);
            return Err(fault);
        }
        Ok(())
    }

    /// Lets a call wait for its reply, and an endpoint that a Watch carries be watched, without writing a
    /// frame. `Busy` where a call with this endpoint and transaction id waits. After this, and for want of
    /// memory, nothing has changed.
    ///
    /// The caller sees to it that the method has a reply, and that the transaction id isn't 0.
    pub fn note(
        &mut self,
        endpoint: u32,
        txid: u32,
        method: Method,
        watcher: Option<u32>,
    ) -> Result<(), ClientFault>
        requires two_way { is_one_way method ≡ false }
        requires txid { 0 < txid }
        ensures answer { Answers result (note_refusal self.old endpoint txid) }
        ensures calls { OnOk result (self.new ≡ noted self.old endpoint txid method watcher) }
        ensures same { OnErr result (self.new ≡ self.old) }
    {
        match self.waiting.at(endpoint, txid) {
            Some(_) => Err(ClientFault::Busy),
            None => self.enter(endpoint, txid, method, watcher),
        }
    }

    /// Closes an endpoint: appends its Close frame, or for want of memory nothing.
    pub fn hang_up(&mut self, endpoint: u32, to: &mut Outbox) -> Result<(), NoMemory>
        ensures frame { OnOk result (to.new ≡ to.old ++ spelling (frame_with endpoint FrameKind.Close [] [])) }
        ensures no_memory { OnErr result (to.new ≡ to.old) }
        ensures calls { self.new ≡ self.old }
    {
        write_frame(to, endpoint, FrameKind::Close, &[], &[])
    }

    /// What a frame from the servers is, by the first of these: a Close or Refused frame; a message to a
    /// watcher; an epitaph; a message with a flaw in its header; the event; the reply to a call that waits,
    /// which waits no more then, also where the message is none; and else a message that answers nothing.
    /// The framework's error answers a call where its ordinal is the call's.
    ///
    /// It takes no memory. The caller sees to it that the frame is a sound Message, Close or Refused frame.
    pub fn take<'a>(&mut self, ordinals: &Ordinals, frame: FrameView<'a>) -> Taken<'a>
        requires sound { IsFrame side.Any (frame_of frame) }
        requires way { is_from_servers frame.kind ≡ true }
        ensures takes { Takes frame.entry.kind self.old (frame_of frame.entry) (taking result) self.new }
        ensures calls { self.new ≡ calls_behind frame.entry.kind self.old (frame_of frame.entry) }
        // The payload of a reply is lent from where it stands in the message.
        ensures parts { LendsPayload frame.entry.bytes.now result }
    {
        match frame.kind {
            FrameKind::Message => self.take_message(ordinals, frame),
            FrameKind::Close => Taken::Closed,
            FrameKind::Refused => { Taken::Refused(status_of(frame.bytes)) }
            FrameKind::Turn | FrameKind::Pick => unreachable!(),
        }
    }

    /// Lets a frame from the servers pass: the call that it answers, if any, waits no more, as behind `take`.
    /// What the frame says isn't read.
    ///
    /// It takes no memory. The caller sees to it that the frame is a sound Message, Close or Refused frame.
    pub fn pass(&mut self, ordinals: &Ordinals, frame: FrameView<'_>)
        requires sound { IsFrame side.Any (frame_of frame) }
        requires way { is_from_servers frame.kind ≡ true }
        ensures passes { self.new ≡ calls_behind frame.entry.kind self.old (frame_of frame.entry) }
    {
        if let FrameKind::Message = frame.kind {
            self.pass_message(ordinals, frame);
        }
    }
}

/// The private steps.
impl Client {
    /// A request was sent: a call with a reply waits for it.
    fn wait_for(
        &mut self,
        endpoint: u32,
        txid: u32,
        request: &Request<'_>,
    ) -> Result<(), ClientFault>
        requires { call_at self.old endpoint txid ≡ None }
        ensures calls { OnOk result (self.new ≡ sent self.old endpoint txid (asked request.now)) }
        ensures same { OnErr result (self.new ≡ self.old) }
        ensures no_memory { IfErr result (λ fault. fault ≡ ClientFault.NoMemory) }
    {
        let method = request.method();
        if is_one_way(method) {
            return Ok(());
        }
        self.enter(endpoint, txid, method, watcher_of(request))
    }

    /// A call waits where none did.
    fn enter(
        &mut self,
        endpoint: u32,
        txid: u32,
        method: Method,
        watcher: Option<u32>,
    ) -> Result<(), ClientFault>
        requires { call_at self.old endpoint txid ≡ None }
        ensures calls { OnOk result (self.new ≡ noted self.old endpoint txid method watcher) }
        ensures same { OnErr result (self.new ≡ self.old) }
        ensures no_memory { IfErr result (λ fault. fault ≡ ClientFault.NoMemory) }
    {
        self.waiting.add(endpoint, txid, method)?;
        let Some(watcher) = watcher else {
            return Ok(());
        };
        match self.watched.add(watcher) {
            Ok(()) => Ok(()),
            Err(_) => {
                self.waiting.remove(endpoint, txid);
                Err(ClientFault::NoMemory)
            }
        }
    }

    /// A message passes.
    fn pass_message(&mut self, ordinals: &Ordinals, frame: FrameView<'_>)
        ensures { self.new ≡ calls_behind_message self.old (frame_of frame.entry) }
    {
        let endpoint = frame.endpoint;
        if self.watched.has(endpoint) {
            return;
        }
        if let Some(_) = read_epitaph(frame.bytes) {
            return;
        }
        self.pass_headed(ordinals, frame);
    }

    /// A message passes that is neither to a watcher nor an epitaph.
    fn pass_headed(&mut self, ordinals: &Ordinals, frame: FrameView<'_>)
        ensures { self.new ≡ (by_header self.old (frame_of frame.entry) (header_of frame.entry.bytes.now)).1 }
    {
        let Ok(header) = Header::read(frame.bytes) else {
            return;
        };
        let Header { txid, ordinal, .. } = header;
        if ordinal != ordinals.event() {
            self.waiting.remove(frame.endpoint, txid);
        }
    }

    /// What a message is.
    fn take_message<'a>(&mut self, ordinals: &Ordinals, frame: FrameView<'a>) -> Taken<'a>
        requires { length (handle_numbers frame.handles) ≤ MAX_HANDLES }
        ensures takes { TakesMessage self.old (frame_of frame.entry) (taking result) self.new }
        ensures parts { LendsPayload frame.entry.bytes.now result }
    {
        if self.watched.has(frame.endpoint) {
            return Taken::Watch(read_events(frame.bytes));
        }
        if let Some(status) = read_epitaph(frame.bytes) {
            return Taken::Epitaph(status);
        }
        self.take_headed(ordinals, frame)
    }

    /// What a message is that is neither to a watcher nor an epitaph.
    fn take_headed<'a>(&mut self, ordinals: &Ordinals, frame: FrameView<'a>) -> Taken<'a>
        requires { length (handle_numbers frame.handles) ≤ MAX_HANDLES }
        ensures takes { (taking result, self.new) ≡ by_header self.old (frame_of frame.entry) (header_of frame.entry.bytes.now) }
        ensures parts { LendsPayload frame.entry.bytes.now result }
    {
        let header = match Header::read(frame.bytes) {
            Ok(header) => header,
            Err(fault) => return Taken::Bad(fault),
        };
        if header.ordinal == ordinals.event() {
            return event_in(ordinals, frame.bytes);
        }
        match self.waiting.at(frame.endpoint, header.txid) {
            None => Taken::Unmatched {
                endpoint: frame.endpoint,
                txid: header.txid,
            },
            Some(method) => {
                self.waiting.remove(frame.endpoint, header.txid);
                answer_to(ordinals, header, method, frame)
            }
        }
    }
}

/// Puts a request into an output, where nothing refuses it.
fn put_request(
    ordinals: &Ordinals,
    waiting: &Waiting,
    endpoint: u32,
    txid: u32,
    request: Request<'_>,
    out: &mut Out,
) -> Result<(), ClientFault>
    requires texts { HasTexts (asked request) }
    requires way { has_txid (is_one_way (method_of (asked request))) txid ≡ true }
    ensures bytes { OnOk result (out.new.bytes ≡ request_bytes txid (asked request.entry)) }
    ensures handles { OnOk result (out.new.handles ≡ request_handles (asked request.entry)) }
    ensures fits { OnOk result (length (request_bytes txid (asked request.entry)) ≤ MAX_BYTES) }
    ensures free { OnOk result (send_refusal (record none_yet { waiting = waiting.now }) endpoint txid (asked request.entry) ≡ None) }
    ensures refused { IfErr result (λ fault. send_refusal (record none_yet { waiting = waiting.now }) endpoint txid (asked request.entry) ≡ Some fault) }
{
    out.clear();
    write_request(ordinals, txid, request, out)?;
    if waiting.at(endpoint, txid).is_some() {
        return Err(ClientFault::Busy);
    }
    Ok(())
}

/// The status of a refusal.
#[tactic(auto, unfolding(fidl_names::specs::Numbers::number_at))]
fn status_of(bytes: &[u8]) -> i32
    requires { 4 ≤ length bytes.now }
    ensures { result ≡ cast_signed w32 (number_at 4 0 bytes.now) }
{
    LittleEndian::read_u32(bytes).cast_signed()
}

/// The endpoint that a Watch carries; `None` for every other request.
pub fn watcher_of(request: &Request<'_>) -> Option<u32>
    ensures { result ≡ watcher_of (asked request.now) }
{
    match request {
        Request::Watch { watcher, .. } => Some(*watcher),
        _ => None,
    }
}

/// The event that a message is.
fn event_in<'a>(ordinals: &Ordinals, bytes: &'a [u8]) -> Taken<'a>
    ensures takes { taking result ≡ told_event (event_of bytes.now) }
    ensures parts { LendsPayload bytes.now result }
{
    match read_event(ordinals, bytes) {
        Ok(kind) => Taken::Event(kind),
        Err(fault) => Taken::Bad(fault),
    }
}

/// The answer to a call of this method that a message is.
fn answer_to<'a>(
    ordinals: &Ordinals,
    header: Header,
    method: Method,
    frame: FrameView<'a>,
) -> Taken<'a>
    requires { length (handle_numbers frame.handles) ≤ MAX_HANDLES }
    ensures takes { taking result ≡ answer_to header method (reply_of frame.entry.bytes.now (map handle_with (handle_numbers frame.entry.handles))) }
    ensures parts { LendsPayload frame.entry.bytes.now result }
{
    let mut handles = [Handle::Endpoint(0); MAX_HANDLES];
    put_handles(frame.handles, &mut handles);
    match read_reply(ordinals, frame.bytes, &handles[..frame.handles.len()]) {
        Err(fault) => Taken::Bad(fault),
        Ok((txid, reply)) => {
            if header.ordinal == ordinals.of(method) {
                Taken::Reply(txid, reply)
            } else {
                Taken::Bad(WireFault::new(ORDINAL_PLACE, WireWhat::Ordinal))
            }
        }
    }
}

/// Puts the handles with these numbers at the front.
fn put_handles(numbers: HandleBytes<'_>, handles: &mut [Handle])
    requires { length (handle_numbers numbers) ≤ length handles.old }
    ensures { take (length (handle_numbers numbers.entry)) handles.new ≡ map handle_with (handle_numbers numbers.entry) }
{
    for place in 0..numbers.len() {
        handles[place] = Handle::with_number(numbers.at(place));
    }
}
