ghost use Rattle.std.specs.Prelude.{ℕ, ◌≡◌, ◌<◌, ◌≤◌, length, None, IfOk, OnOk, OnErr};
ghost use Rattle.std.specs.Io.KnownBytes.{Keeps, WriteAppends};
ghost use Rattle.host_io.specs.Causes.{HasCause, next_count};

use crate::streams::{Failed, Sink};
use std::io::{ErrorKind, Write};
use std::marker::Model;

/// Bytes to a writer of the system, as standard output or standard error: each write hands the
/// caller's bytes to the writer itself. It tells no bytes. A contract sees the writer and the count
/// of faults.
#[derive(Drop)]
pub struct StdSink<W: Write> {
    output: W,
    faults: u64,
}

impl<W: Write> Model for StdSink<W> {
    ghost use Rattle.host_io.specs.Over.{SinkOver};

    ghost Value = { SinkOver W };

    ghost view = { λ s. record { stream = s.output; faults = s.faults } };
}

impl<W: Write> StdSink<W> {
    pub fn new(output: W) -> StdSink<W>
        ensures { result ≡ record { stream = output; faults = 0 } }
    {
        StdSink { output, faults: 0 }
    }
}

impl<W: Write> Sink for StdSink<W> {
    ghost written = { λ _. None };

    ghost flushed = { λ _. 0 };

    ghost faults = { λ s. s.faults };

    /// A write that a signal interrupts is tried again. One that takes nothing is a failure.
    fn write(&mut self, piece: &[u8]) -> Result<usize, Failed>
        requires { 0 < length piece.now }
        ensures bound { IfOk result (λ n. (1 ≤ n) × (n ≤ length piece.now)) }
        ensures cause { HasCause self.old.faults self.new.faults result }

        ensures passed_on { WriteAppends (W.contents self.old.stream) (W.contents self.new.stream) result piece.now }
        ensures same { OnOk result (self.new.faults ≡ self.old.faults) }
        ensures counted { OnErr result (self.new.faults ≡ next_count self.old.faults) }
    {
        for _ in 0..u64::MAX {
            match self.output.write(piece) {
                Ok(n) if n > 0 => return Ok(n),
                Err(e) if e.kind() == ErrorKind::Interrupted => {}
                _ => break,
            }
        }
        self.faults = self.faults.saturating_add(1);
        Err(Failed)
    }

    /// A flush that a signal interrupts is tried again.
    fn flush(&mut self) -> Result<(), Failed>
        ensures cause { HasCause self.old.faults self.new.faults result }

        ensures passed_on { Keeps (W.contents self.old.stream) (W.contents self.new.stream) }
        ensures same { OnOk result (self.new.faults ≡ self.old.faults) }
        ensures counted { OnErr result (self.new.faults ≡ next_count self.old.faults) }
    {
        for _ in 0..u64::MAX {
            match self.output.flush() {
                Ok(()) => return Ok(()),
                Err(e) if e.kind() == ErrorKind::Interrupted => {}
                Err(_) => break,
            }
        }
        self.faults = self.faults.saturating_add(1);
        Err(Failed)
    }
}
