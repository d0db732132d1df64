ghost use Rattle.std.specs.Prelude.{ℕ, ◌≡◌, ◌<◌, ◌≤◌, List, Option, length, IfOk, OnOk, OnErr};
ghost use Rattle.std.specs.Io.KnownBytes.{Appends, Keeps, ReadConsumes, WriteAppends};
ghost use Rattle.host_io.specs.Causes.{HasCause};
ghost use Rattle.host_io.specs.Streams.{AppendsPart, IsFlushed, IsLast};

/// A read, a write or a flush that failed. The object's count of faults rose, or stands at its last
/// value.
#[derive(Clone, Copy, Debug)]
pub struct Failed;

/// Where bytes come from.
pub trait Source {
    /// The bytes that reads will give from here on, where the object tells them.
    ghost left: { Self → Option (List ℕ) };

    /// How many bytes the last read gave that went well.
    ghost last: { Self → ℕ };

    /// The count of reads that failed. It never falls.
    ghost faults: { Self → ℕ };

    /// Reads at most as many bytes as the buffer has, to its beginning, and answers their number; 0
    /// is the end of input. A read that fails takes nothing.
    fn read(&mut self, buffer: &mut [u8]) -> Result<usize, Failed>
        requires { 0 < length buffer.old }
        ensures bound { IfOk result (λ n. n ≤ length buffer.new) }
        ensures bytes { ReadConsumes (left self.old) (left self.new) result buffer.new }
        ensures last { IsLast (last self.old) (last self.new) result }
        ensures cause { HasCause (faults self.old) (faults self.new) result };
}

/// Where bytes go.
pub trait Sink {
    /// The bytes that were written, where the object tells them.
    ghost written: { Self → Option (List ℕ) };

    /// How many of them were flushed.
    ghost flushed: { Self → ℕ };

    /// The count of writes and flushes that failed. It never falls.
    ghost faults: { Self → ℕ };

    /// Writes at least one of the first bytes of the piece, and answers how many. A write that fails
    /// writes nothing.
    fn write(&mut self, piece: &[u8]) -> Result<usize, Failed>
        requires { 0 < length piece.now }
        ensures bound { IfOk result (λ n. (1 ≤ n) × (n ≤ length piece.now)) }
        ensures bytes { WriteAppends (written self.old) (written self.new) result piece.now }
        ensures unflushed { flushed self.new ≡ flushed self.old }
        ensures cause { HasCause (faults self.old) (faults self.new) result };

    /// Passes on what was written. After an `Ok` all of it is flushed, and what was flushed before
    /// stays so.
    fn flush(&mut self) -> Result<(), Failed>
        ensures bytes { Keeps (written self.old) (written self.new) }
        ensures all { OnOk result (IsFlushed (written self.new) (flushed self.new)) }
        ensures kept { flushed self.old ≤ flushed self.new }
        ensures cause { HasCause (faults self.old) (faults self.new) result };
}

/// Writes all the bytes, in as many calls as it takes. After a `Failed` a front part of them was
/// written.
pub fn write_whole<K: Sink>(sink: &mut K, bytes: &[u8]) -> Result<(), Failed>
    ensures whole { OnOk result (Appends (K.written sink.old) (K.written sink.new) bytes.now) }
    ensures part { OnErr result (AppendsPart (K.written sink.old) (K.written sink.new) bytes.now) }
    ensures unflushed { K.flushed sink.new ≡ K.flushed sink.old }
    ensures cause { HasCause (K.faults sink.old) (K.faults sink.new) result }
{
    let mut rest = bytes;
    while !rest.is_empty() {
        let n = sink.write(rest)?;
        rest = &rest[n..];
    }
    Ok(())
}
