ghost use Rattle.std.specs.Prelude.{ℕ, ◌≡◌, ◌≤◌, length, None, IfOk, OnOk, OnErr};
ghost use Rattle.std.specs.Io.KnownBytes.{ReadConsumes};
ghost use Rattle.host_io.specs.Causes.{HasCause, next_count};
ghost use Rattle.host_io.specs.Streams.{IsLast};

use crate::streams::{Failed, Source};
use std::io::{ErrorKind, Read};
use std::marker::Model;

/// Bytes from a reader of the system, as standard input: each read asks the reader itself, for as
/// many bytes as the caller's buffer has. It tells no bytes. A contract sees the reader, how many
/// bytes the last read gave, and the count of faults.
#[derive(Drop)]
pub struct StdSource<R: Read> {
    input: R,
    last: usize,
    faults: u64,
}

impl<R: Read> Model for StdSource<R> {
    ghost use Rattle.host_io.specs.Over.{SourceOver};

    ghost Value = { SourceOver R };

    ghost view = { λ s. record { stream = s.input; last = s.last; faults = s.faults } };
}

impl<R: Read> StdSource<R> {
    pub fn new(input: R) -> StdSource<R>
        ensures { result ≡ record { stream = input; last = 0; faults = 0 } }
    {
        StdSource {
            input,
            last: 0,
            faults: 0,
        }
    }
}

impl<R: Read> Source for StdSource<R> {
    ghost left = { λ _. None };

    ghost last = { λ s. s.last };

    ghost faults = { λ s. s.faults };

    /// A read that a signal interrupts is tried again.
    fn read(&mut self, buffer: &mut [u8]) -> Result<usize, Failed>
        ensures bound { IfOk result (λ n. n ≤ length buffer.new) }
        ensures last { IsLast self.old.last self.new.last result }
        ensures cause { HasCause self.old.faults self.new.faults result }

        ensures passed_on { ReadConsumes (R.remaining self.old.stream) (R.remaining self.new.stream) result buffer.new }
        ensures same { OnOk result (self.new.faults ≡ self.old.faults) }
        ensures counted { OnErr result (self.new.faults ≡ next_count self.old.faults) }
    {
        for _ in 0..u64::MAX {
            match self.input.read(buffer) {
                Ok(n) => {
                    self.last = n;
                    return Ok(n);
                }
                Err(e) if e.kind() == ErrorKind::Interrupted => {}
                Err(_) => break,
            }
        }
        self.faults = self.faults.saturating_add(1);
        Err(Failed)
    }
}
