// Texts that a command writes as one.

ghost use Rattle.std.specs.Prelude.{◌≡◌, ◌++◌, OnOk, OnErr, decimal};
ghost use Rattle.link_frames.specs.Fronts.{Begins};
ghost use Rattle.run_status.specs.Outside.{sink_told};
ghost use Rattle.run_status.specs.Texts.{Writes};

use host_io::{Failed, Sink, write_whole};
use itoa::Buffer;
use std::alloc::AllocError;

/// Puts a text and a number behind what is there. For want of memory what was there stands in front.
pub fn put_number(line: &mut Vec<u8>, text: &str, number: u128) -> Result<(), AllocError>
    ensures put { OnOk result (line.new.items ≡ line.old.items ++ text.now ++ decimal number) }
    ensures front { OnErr result (Begins line.old.items line.new.items) }
{
    let mut digits = Buffer::new();
    line.extend_from_slice(text.as_bytes())?;
    line.extend_from_slice(digits.format(number).as_bytes())
}

/// Writes the bytes and passes them on.
pub fn pass_on<K: Sink>(sink: &mut K, bytes: &[u8]) -> Result<(), Failed>
    ensures { Writes bytes.now (sink_told K.written K.flushed K.faults sink.old) (sink_told K.written K.flushed K.faults sink.new) result }
{
    write_whole(sink, bytes)?;
    sink.flush()
}
