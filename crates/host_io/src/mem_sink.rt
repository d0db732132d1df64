ghost use Rattle.std.specs.Prelude.{◌≡◌, ◌-◌, ◌<◌, ◌≤◌, ◌++◌, ◌↔◌, ◌⊎◌, max, min, [], length, take, Some, IfOk, OnOk, OnErr, IsErr};
ghost use Rattle.std.specs.Io.KnownBytes.{Keeps, WriteAppends};
ghost use Rattle.host_io.specs.Causes.{HasCause};
ghost use Rattle.host_io.specs.Calls.{no_calls, IsListed, after_success, after_failure};
ghost use Rattle.host_io.specs.MemSink.{IsFull};
ghost use Rattle.host_io.specs.Streams.{IsFlushed};

use crate::calls::Calls;
use crate::streams::{Failed, Sink};
use fidl_names::NoMemory;
use std::alloc::Global;
use std::marker::Model;

/// A sink into memory, which takes bytes in pieces, has room for so many, and fails at listed
/// calls.
#[derive(Drop)]
pub struct MemSink {
    bytes: Vec<u8>,
    flushed: usize,
    room: usize,
    piece: usize,
    calls: Calls,
}

impl Model for MemSink {
    ghost use Rattle.std.specs.Prelude.{◌≤◌, vec_len, vec_capacity};
    ghost use Rattle.host_io.specs.MemSink.{SinkState};

    ghost Value = { SinkState };

    ghost view = { λ s.
        record {
          written = s.bytes.items;
          flushed = s.flushed;
          room = s.room;
          piece = s.piece;
          calls = s.calls;
        } };

    ghost invariant = { λ s.
        (s.flushed ≤ vec_len s.bytes) × (vec_len s.bytes ≤ s.room) × (s.room ≤ vec_capacity s.bytes)
        × (1 ≤ s.piece) };
}

impl MemSink {
    /// One with room for `room` bytes, which are reserved here, that takes at most `piece` bytes a
    /// write, or 1 where that is 0. Its writes and flushes fail at the numbers of `failing`,
    /// counted together from 0. No two calls after 2^64 - 1 are told apart.
    pub fn new(
        alloc: Global,
        room: usize,
        piece: usize,
        failing: Vec<u64>,
    ) -> Result<MemSink, NoMemory>
        ensures { IfOk result (λ sink. sink ≡ record {
          written = [];
          flushed = 0;
          room = room;
          piece = max piece 1;
          calls = no_calls failing.items;
        }) }
    {
        Ok(MemSink {
            bytes: Vec::with_capacity(alloc, room)?,
            flushed: 0,
            room,
            piece: piece.max(1),
            calls: Calls::new(failing),
        })
    }

    /// The bytes that were written, flushed or not.
    pub fn written(&self) -> &[u8]
        ensures { result.now ≡ self.now.written }
    {
        self.bytes.as_slice()
    }
}

impl Sink for MemSink {
    ghost written = { λ s. Some s.written };

    ghost flushed = { λ s. s.flushed };

    ghost faults = { λ s. s.calls.faults };

    /// Takes as many bytes as the least of the piece's length, the sink's own piece and the room
    /// that is left. A write into a full sink fails.
    fn write(&mut self, piece: &[u8]) -> Result<usize, Failed>
        requires { 0 < length piece.now }
        ensures bound { IfOk result (λ n. (1 ≤ n) × (n ≤ length piece.now)) }
        ensures bytes { WriteAppends (Some self.old.written) (Some self.new.written) result piece.now }
        ensures unflushed { self.new.flushed ≡ self.old.flushed }
        ensures cause { HasCause self.old.calls.faults self.new.calls.faults result }

        ensures fails { IsErr result ↔ (IsListed self.old.calls ⊎ IsFull self.old) }
        ensures count { IfOk result (λ n.
            n ≡ min (length piece.now)
            (min self.old.piece (self.old.room - length self.old.written))) }
        ensures taken { IfOk result (λ n. self.new ≡ record self.old {
          written = self.old.written ++ take n piece.now;
          calls = after_success self.old.calls;
        }) }
        ensures counted { OnErr result (
            self.new ≡ record self.old { calls = after_failure self.old.calls }) }
    {
        if self.calls.count() || self.bytes.len() == self.room {
            self.calls.fail();
            return Err(Failed);
        }
        let n = piece
            .len()
            .min(self.piece)
            .min(self.room - self.bytes.len());
        self.bytes.extend_from_slice(&piece[..n]).unwrap();
        Ok(n)
    }

    fn flush(&mut self) -> Result<(), Failed>
        ensures bytes { Keeps (Some self.old.written) (Some self.new.written) }
        ensures all { OnOk result (IsFlushed (Some self.new.written) self.new.flushed) }
        ensures kept { self.old.flushed ≤ self.new.flushed }
        ensures cause { HasCause self.old.calls.faults self.new.calls.faults result }

        ensures fails { IsErr result ↔ IsListed self.old.calls }
        ensures flushes { OnOk result (self.new ≡ record self.old {
          flushed = length self.old.written;
          calls = after_success self.old.calls;
        }) }
        ensures counted { OnErr result (
            self.new ≡ record self.old { calls = after_failure self.old.calls }) }
    {
        if self.calls.count() {
            self.calls.fail();
            return Err(Failed);
        }
        self.flushed = self.bytes.len();
        Ok(())
    }
}
