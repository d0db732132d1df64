//! The messages to watchers, as `Directory.Watch` of `fuchsia.io` has them.

ghost use Rattle.std.specs.Prelude.{◌≡◌, ◌≤◌, ◌<◌, ◌+◌, ◌++◌, [], OnErr, OnOk, drop, false, length, map, nat_le, true};
ghost use Rattle.link_frames.specs.Frames.{spelling, spellings};
ghost use Rattle.fidl_names.specs.declared.limits.TheConstants as limit;
ghost use Rattle.watch_events.specs.Events.{event_bytes};
ghost use Rattle.watch_events.specs.Messages.{WritesFront, asks_for, first_frames, watch_frame};
ghost use Rattle.watch_events.specs.Steps.{idle_told, names_told};

use fidl_names::{MAX_CHUNK, NoMemory};
use link_frames::{Outbox, write_message};
use node_graph::Names;
use std::marker::Model;

/// That a name is there.
const EXISTING: u8 = 3;

/// That these were all.
const IDLE: u8 = 4;

/// Whether a mask has the bit of an event.
pub(crate) fn asks_for(mask: u32, event: u8) -> bool
    requires { event < 32 }
    ensures { result ≡ asks_for mask event }
{
    mask >> event & 1 == 1
}

/// Writes an event over the first bytes.
pub(crate) fn put_event(to: &mut [u8], event: u8, name: &[u8])
    requires few { length name.now ≤ limit.MAX_NAME }
    requires room { 2 + length name.now ≤ length to.old }
    ensures { to.new ≡ event_bytes event name.now ++ drop (2 + length name.now) to.old }
{
    to[0] = event;
    to[1] = name.len() as u8;
    to[2..2 + name.len()].copy_from_slice(name);
}

/// A message that is put together, of at most 8,192 bytes.
#[derive(Drop)]
struct Message {
    bytes: [u8; MAX_CHUNK as usize],
    len: usize,
}

impl Model for Message {
    ghost use Rattle.std.specs.Prelude.{ℕ, ◌≤◌, List, take};
    ghost use Rattle.fidl_names.specs.declared.limits.TheConstants as limit;

    ghost Value = { List ℕ };

    ghost view = { λ message. take message.len message.bytes };

    ghost invariant = { λ message. message.len ≤ limit.MAX_CHUNK };
}

impl Message {
    fn new() -> Message
        ensures { result ≡ [] }
    {
        Message {
            bytes: [0; MAX_CHUNK as usize],
            len: 0,
        }
    }

    /// How many bytes there is room for yet.
    fn room(&self) -> usize
        ensures { length self.now + result ≡ limit.MAX_CHUNK }
    {
        self.bytes.len() - self.len
    }

    /// Puts an event behind those that are there.
    fn push(&mut self, event: u8, name: &[u8])
        requires few { length name.now ≤ limit.MAX_NAME }
        requires room { length self.old + (2 + length name.now) ≤ limit.MAX_CHUNK }
        ensures { self.new ≡ self.old ++ event_bytes event name.now }
    {
        put_event(&mut self.bytes[self.len..], event, name);
        self.len += 2 + name.len();
    }

    /// Sends the message.
    fn write(&self, endpoint: u32, to: &mut Outbox) -> Result<(), NoMemory>
        ensures written { OnOk result (to.new ≡ to.old ++ spelling (watch_frame endpoint self.now)) }
        ensures no_memory { OnErr result (to.new ≡ to.old) }
    {
        write_message(to, endpoint, &[], &self.bytes[..self.len])
    }

    /// Sends the message where there is no room for so many bytes more, and begins a new one.
    fn make_room(&mut self, endpoint: u32, size: usize, to: &mut Outbox) -> Result<(), NoMemory>
        requires { size ≤ limit.MAX_CHUNK }
        ensures room { OnOk result (length self.new + size ≤ limit.MAX_CHUNK) }
        ensures fits { nat_le (length self.old + size) limit.MAX_CHUNK ≡ true → (self.new ≡ self.old) × (to.new ≡ to.old) }
        ensures sent { nat_le (length self.old + size) limit.MAX_CHUNK ≡ false → OnOk result ((self.new ≡ []) × (to.new ≡ to.old ++ spelling (watch_frame endpoint self.old))) }
        ensures no_memory { OnErr result (to.new ≡ to.old) }
    {
        if self.room() >= size {
            return Ok(());
        }
        self.write(endpoint, to)?;
        self.len = 0;
        Ok(())
    }
}

/// Tells a new watcher what it asked for: with EXISTING `.` and these names, gathered into messages of at
/// most 8,192 bytes, and then with IDLE, in a message of its own, that these were all. For want of memory
/// a front of the messages stands.
pub fn snapshot(endpoint: u32, mask: u32, names: Names<'_>, to: &mut Outbox) -> Result<(), NoMemory>
    ensures told { OnOk result (to.new ≡ to.old ++ spellings (first_frames endpoint mask (map (λ one. one.name) names.entry))) }
    ensures front { OnErr result (WritesFront (first_frames endpoint mask (map (λ one. one.name) names.entry)) to.old to.new) }
{
    tell_names(endpoint, mask, names, to)?;
    tell_idle(endpoint, mask, to)
}

/// Tells of `.` and of these names.
fn tell_names(endpoint: u32, mask: u32, names: Names<'_>, to: &mut Outbox) -> Result<(), NoMemory>
    ensures told { OnOk result (to.new ≡ to.old ++ spellings (names_told endpoint mask (map (λ one. one.name) names.entry))) }
    ensures front { OnErr result (WritesFront (names_told endpoint mask (map (λ one. one.name) names.entry)) to.old to.new) }
{
    if !asks_for(mask, EXISTING) {
        return Ok(());
    }
    let mut message = Message::new();
    message.push(EXISTING, b".");
    for one in names {
        message.make_room(endpoint, 2 + one.name.len(), to)?;
        message.push(EXISTING, one.name);
    }
    message.write(endpoint, to)
}

/// Tells that these were all.
fn tell_idle(endpoint: u32, mask: u32, to: &mut Outbox) -> Result<(), NoMemory>
    ensures told { OnOk result (to.new ≡ to.old ++ spellings (idle_told endpoint mask)) }
    ensures no_memory { OnErr result (to.new ≡ to.old) }
{
    if !asks_for(mask, IDLE) {
        return Ok(());
    }
    write_message(to, endpoint, &[], &[IDLE, 0])
}
