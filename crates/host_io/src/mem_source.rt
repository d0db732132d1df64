ghost use Rattle.std.specs.Prelude.{◌≡◌, ◌≤◌, ◌++◌, ◌↔◌, max, min, length, take, drop, Some, IfOk, OnErr, IsErr};
ghost use Rattle.std.specs.Io.KnownBytes.{ReadConsumes};
ghost use Rattle.host_io.specs.Causes.{HasCause};
ghost use Rattle.host_io.specs.Calls.{no_calls, IsListed, after_success, after_failure};
ghost use Rattle.host_io.specs.Streams.{IsLast};

use crate::calls::Calls;
use crate::streams::{Failed, Source};
use std::marker::Model;

/// A source over bytes in memory, which gives them in pieces and fails at listed calls.
#[derive(Drop)]
pub struct MemSource {
    bytes: Vec<u8>,
    taken: usize,
    last: usize,
    piece: usize,
    calls: Calls,
}

impl Model for MemSource {
    ghost use Rattle.std.specs.Prelude.{◌≤◌, drop, vec_len};
    ghost use Rattle.host_io.specs.MemSource.{SourceState};

    ghost Value = { SourceState };

    ghost view = { λ s.
        record {
          left = drop s.taken s.bytes.items;
          last = s.last;
          piece = s.piece;
          calls = s.calls;
        } };

    ghost invariant = { λ s. (s.taken ≤ vec_len s.bytes) × (1 ≤ s.piece) };
}

impl MemSource {
    /// One that gives at most `piece` bytes a read, or 1 where that is 0, and whose reads fail at
    /// the numbers of `failing`, counted from 0. No two reads after 2^64 - 1 are told apart.
    pub fn new(bytes: Vec<u8>, piece: usize, failing: Vec<u64>) -> MemSource
        ensures { result ≡ record {
          left = bytes.items;
          last = 0;
          piece = max piece 1;
          calls = no_calls failing.items;
        } }
    {
        MemSource {
            bytes,
            taken: 0,
            last: 0,
            piece: piece.max(1),
            calls: Calls::new(failing),
        }
    }
}

impl Source for MemSource {
    ghost left = { λ s. Some s.left };

    ghost last = { λ s. s.last };

    ghost faults = { λ s. s.calls.faults };

    fn read(&mut self, buffer: &mut [u8]) -> Result<usize, Failed>
        ensures bound { IfOk result (λ n. n ≤ length buffer.new) }
        ensures bytes { ReadConsumes (Some self.old.left) (Some self.new.left) result buffer.new }
        ensures last { IsLast self.old.last self.new.last result }
        ensures cause { HasCause self.old.calls.faults self.new.calls.faults result }

        ensures fails { IsErr result ↔ IsListed self.old.calls }
        ensures count { IfOk result (λ n.
            n ≡ min (length buffer.old) (min self.old.piece (length self.old.left))) }
        ensures filled { IfOk result (λ n. buffer.new ≡ take n self.old.left ++ drop n buffer.old) }
        ensures taken { IfOk result (λ n.
            self.new ≡ record self.old {
              left = drop n self.old.left;
              last = n;
              calls = after_success self.old.calls;
            }) }
        ensures unfilled { OnErr result (buffer.new ≡ buffer.old) }
        ensures counted { OnErr result (
            self.new ≡ record self.old { calls = after_failure self.old.calls }) }
    {
        if self.calls.count() {
            self.calls.fail();
            return Err(Failed);
        }
        let left = &self.bytes[self.taken..];
        let n = buffer.len().min(self.piece).min(left.len());
        copy_front(buffer, &left[..n]);
        self.taken += n;
        self.last = n;
        Ok(n)
    }
}

// Copies the bytes to the beginning of the buffer.
fn copy_front(buffer: &mut [u8], bytes: &[u8])
    requires { length bytes.now ≤ length buffer.old }
    ensures { buffer.new ≡ bytes.now ++ drop (length bytes.now) buffer.old }
{
    let n = bytes.len();
    buffer[..n].copy_from_slice(bytes);
}
