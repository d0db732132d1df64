// The frames and calls of the lines so far.

ghost use Rattle.std.specs.Prelude.{◌≡◌, ◌<◌, [], ◌∷◌, length, if◌then◌else◌, IfOk, IfErr, OnOk, None, Some};
ghost use Rattle.std.specs.Str.{IsUtf8};
ghost use Rattle.link_frames.specs.Frames.{HasShape, frame_with};
ghost use Rattle.io_messages.specs.Asked.{asked};
ghost use Rattle.io_messages.specs.Shapes.{is_one_way};
ghost use Rattle.io_messages.specs.Writing.{HasTexts};
ghost use Rattle.vfs_script.specs.declared.faults.ScriptFault.TheVariants as fault;
ghost use Rattle.vfs_script.specs.Kept.{Takes, kept_and};
ghost use Rattle.vfs_script.specs.declared.verbs.Verb.TheVariants as verb;
ghost use Rattle.vfs_script.specs.Lines.{behind, call_of};
ghost use Rattle.vfs_script.specs.Lines as lines;
ghost use Rattle.vfs_script.specs.Parsed.{write_at_line};
ghost use Rattle.vfs_script.specs.Scripts.{said_at, spoken};

use crate::calls::Call;
use crate::faults::ScriptFault;
use crate::forms::{Parsed, line_of};
use crate::numbers::{bytes, handles};
use byteorder::{ByteOrder, LittleEndian};
use fidl_names::{MAX_BYTES, Method, NoMemory};
use fidl_wire::{Ordinals, Out, is_utf8};
use io_client::watcher_of;
use io_messages::{Request, is_one_way, write_request};
use link_frames::{FrameKind, Outbox, write_frame, write_message};
use std::alloc::Global;
use std::marker::Model;

/// The frames of the lines so far, and beside each the call that it makes.
#[derive(Drop)]
pub(crate) struct Frames {
    alloc: Global,
    ordinals: Ordinals,
    out: Out,
    frames: Outbox,
    calls: Vec<Option<Call>>,
}

impl Model for Frames {
    ghost use Rattle.vfs_script.specs.Kept.{Kept};

    ghost Value = { Kept };

    ghost view = { λ f. record { bytes = f.frames; calls = f.calls.items } };
}

impl Frames {
    pub(crate) fn new(alloc: Global, ordinals: &Ordinals) -> Result<Frames, NoMemory>
        ensures { IfOk result (λ f. f ≡ record { bytes = []; calls = [] }) }
    {
        let out = Out::new(alloc)?;
        Ok(Frames {
            alloc,
            ordinals: *ordinals,
            out,
            frames: Outbox::new(alloc),
            calls: Vec::new(alloc),
        })
    }

    /// The frames and the calls.
    pub(crate) fn into_parts(self) -> (Outbox, Vec<Option<Call>>)
        ensures frames { result.0 ≡ self.bytes }
        ensures calls { result.1.items ≡ self.calls }
    {
        (self.frames, self.calls)
    }

    /// Takes a line of UTF-8 with its number.
    #[tactic(auto, unfolding(crate::specs::Scripts::spoken))]
    pub(crate) fn take_line(&mut self, number: u32, line: &[u8]) -> Result<(), ScriptFault>
        requires number { 0 < number }
        requires text { IsUtf8 line.now }
        ensures { Takes number (spoken (record { number = number; bytes = line.now })) self.old self.new result }
    {
        let Some(parsed) = line_of(line) else {
            return Err(bad(number));
        };
        match parsed {
            Parsed::Request(endpoint, request) => self.ask(number, endpoint, request),
            Parsed::Write { endpoint, hex } => self.write(number, endpoint, hex),
            Parsed::WriteAt {
                endpoint,
                offset,
                hex,
            } => self.write_at(number, endpoint, offset, hex),
            Parsed::Echo { endpoint, hex } => self.echo(number, endpoint, hex),
            Parsed::Raw {
                endpoint,
                handles,
                hex,
            } => self.send_raw(number, endpoint, handles, hex),
            Parsed::HangUp { endpoint } => self.put(endpoint, FrameKind::Close, &[], &[]),
            Parsed::Turn { server, count } => self.put_turn(number, server, count),
            Parsed::Pick { endpoint } => self.put(endpoint, FrameKind::Pick, &[], &[]),
        }
    }

    fn write(&mut self, number: u32, endpoint: u32, hex: &[u8]) -> Result<(), ScriptFault>
        requires { 0 < number }
        ensures { Takes number (said_at number (behind verb.Write endpoint (hex.now ∷ []))) self.old self.new result }
    {
        match bytes(self.alloc, hex)? {
            Some(bytes) => self.ask(number, endpoint, Request::Write { bytes: &bytes }),
            None => Err(bad(number)),
        }
    }

    fn write_at(
        &mut self,
        number: u32,
        endpoint: u32,
        offset: u64,
        hex: &[u8],
    ) -> Result<(), ScriptFault>
        requires { 0 < number }
        ensures { Takes number (said_at number (write_at_line endpoint offset hex.now)) self.old self.new result }
    {
        match bytes(self.alloc, hex)? {
            Some(bytes) => {
                let request = Request::WriteAt {
                    bytes: &bytes,
                    offset,
                };
                self.ask(number, endpoint, request)
            }
            None => Err(bad(number)),
        }
    }

    fn echo(&mut self, number: u32, endpoint: u32, hex: &[u8]) -> Result<(), ScriptFault>
        requires { 0 < number }
        ensures { Takes number (said_at number (behind verb.Echo endpoint (hex.now ∷ []))) self.old self.new result }
    {
        let Some(bytes) = bytes(self.alloc, hex)? else {
            return Err(bad(number));
        };
        if !is_utf8(&bytes) {
            return Err(bad(number));
        }
        self.ask(number, endpoint, Request::EchoString { value: &bytes })
    }

    fn send_raw(
        &mut self,
        number: u32,
        endpoint: u32,
        words: &[u8],
        hex: &[u8],
    ) -> Result<(), ScriptFault>
        ensures { Takes number (said_at number (behind verb.Raw endpoint (words.now ∷ hex.now ∷ []))) self.old self.new result }
    {
        let Some(handles) = handles(self.alloc, words)? else {
            return Err(bad(number));
        };
        let Some(bytes) = bytes(self.alloc, hex)? else {
            return Err(bad(number));
        };
        if bytes.len() > MAX_BYTES {
            return Err(bad(number));
        }
        self.put(endpoint, FrameKind::Message, &handles, &bytes)
    }

    /// Appends a Turn frame.
    #[tactic(auto, unfolding(fidl_names::specs::Numbers::number_bytes))]
    fn put_turn(&mut self, number: u32, server: u32, count: u32) -> Result<(), ScriptFault>
        ensures { Takes number (said_at number (Some (lines.turn server count))) self.old self.new result }
    {
        let mut bytes = [0; 4];
        LittleEndian::write_u32(&mut bytes, count);
        self.put(server, FrameKind::Turn, &[], &bytes)
    }

    /// Appends a frame that makes no call.
    fn put(
        &mut self,
        endpoint: u32,
        kind: FrameKind,
        handles: &[u32],
        bytes: &[u8],
    ) -> Result<(), ScriptFault>
        requires { HasShape kind (length handles.now) (length bytes.now) }
        ensures put { OnOk result (self.new ≡ kept_and self.old (frame_with endpoint kind handles.now bytes.now) None) }
        ensures no_memory { IfErr result (λ e. e ≡ fault.NoMemory) }
    {
        write_frame(&mut self.frames, endpoint, kind, handles, bytes)?;
        self.calls.push(None)?;
        Ok(())
    }

    /// Appends the frame of a request.
    fn ask(&mut self, number: u32, endpoint: u32, request: Request<'_>) -> Result<(), ScriptFault>
        requires number { 0 < number }
        requires texts { HasTexts (asked request) }
        ensures { Takes number (said_at number (Some (lines.request endpoint (asked request.entry)))) self.old self.new result }
    {
        let txid = txid_of(number, request.method());
        self.out.clear();
        if write_request(&self.ordinals, txid, request, &mut self.out).is_err() {
            return Err(bad(number));
        }
        write_message(
            &mut self.frames,
            endpoint,
            self.out.handles(),
            self.out.as_bytes(),
        )?;
        self.calls.push(call_of(endpoint, number, &request))?;
        Ok(())
    }
}

// The transaction id of a request in the line with this number.
fn txid_of(number: u32, method: Method) -> u32
    ensures { result ≡ if is_one_way method then 0 else number }
{
    if is_one_way(method) { 0 } else { number }
}

// The fault of a bad line.
fn bad(number: u32) -> ScriptFault
    ensures { result ≡ fault.Line number }
{
    ScriptFault::Line(u64::from(number))
}

// The call that a request makes.
fn call_of(endpoint: u32, txid: u32, request: &Request<'_>) -> Option<Call>
    ensures { result ≡ call_of txid (lines.request endpoint (asked request.now)) }
{
    let method = request.method();
    if is_one_way(method) {
        return None;
    }
    Some(Call {
        endpoint,
        txid,
        method,
        watcher: watcher_of(request),
    })
}
