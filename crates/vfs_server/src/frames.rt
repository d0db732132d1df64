//! The frames of an answer. For want of memory none of them is written.

ghost use Rattle.std.specs.Prelude.{◌≡◌, ◌≢◌, ◌≤◌, ◌++◌, [], ◌∷◌, length, take, OnOk, OnErr};
ghost use Rattle.fidl_names.specs.StatusNumber.{number_of};
ghost use Rattle.link_frames.specs.Frames.{spelling, spellings};
ghost use Rattle.vfs_journal.specs.Outcomes.{announcement, close_frame, ending};
ghost use Rattle.vfs_server.specs.Steps.{last_frames, message_frame};

use fidl_names::{NoMemory, Status};
use fidl_wire::{Ordinals, Out, epitaph};
use io_messages::{Protocol, write_event};
use link_frames::{FrameKind, Outbox, write_frame, write_message};

/// Writes the message in an output on an endpoint.
#[inline(always)]
pub(crate) fn put_message(endpoint: u32, out: &Out, outbox: &mut Outbox) -> Result<(), NoMemory>
    ensures written { OnOk result (outbox.new ≡ outbox.old ++ spelling (message_frame endpoint out.now)) }
    ensures no_memory { OnErr result (outbox.new ≡ outbox.old) }
{
    write_message(outbox, endpoint, out.handles(), out.as_bytes())
}

/// Writes that an endpoint is closed, or cuts back to a length.
fn put_close(endpoint: u32, len: usize, outbox: &mut Outbox) -> Result<(), NoMemory>
    ensures written { OnOk result (outbox.new ≡ outbox.old ++ spelling (close_frame endpoint)) }
    ensures no_memory { OnErr result (outbox.new ≡ take len outbox.old) }
{
    match write_frame(outbox, endpoint, FrameKind::Close, &[], &[]) {
        Ok(()) => Ok(()),
        Err(_) => {
            outbox.truncate(len);
            Err(NoMemory)
        }
    }
}

/// Writes the message in an output on an endpoint, and that it is closed.
pub(crate) fn put_last(endpoint: u32, out: &Out, outbox: &mut Outbox) -> Result<(), NoMemory>
    ensures written { OnOk result (outbox.new ≡ outbox.old ++ spellings (last_frames endpoint out.now)) }
    ensures no_memory { OnErr result (outbox.new ≡ outbox.old) }
{
    let len = outbox.len();
    put_message(endpoint, out, outbox)?;
    put_close(endpoint, len, outbox)
}

/// Writes an endpoint's epitaph, and that it is closed.
pub(crate) fn put_ending(
    endpoint: u32,
    status: Status,
    out: &mut Out,
    outbox: &mut Outbox,
) -> Result<(), NoMemory>
    ensures written { OnOk result (outbox.new ≡ outbox.old ++ spellings (ending endpoint status)) }
    ensures no_memory { OnErr result (outbox.new ≡ outbox.old) }
{
    out.clear();
    epitaph(status, out);
    put_last(endpoint, out, outbox)
}

/// Writes on a new connection what it is bound to, where it is to be told.
pub(crate) fn put_announcement(
    ordinals: &Ordinals,
    endpoint: u32,
    protocol: Protocol,
    announced: bool,
    out: &mut Out,
    outbox: &mut Outbox,
) -> Result<(), NoMemory>
    requires kind { protocol ≢ Protocol.Watcher }
    ensures written { OnOk result (outbox.new ≡ outbox.old ++ spellings (announcement endpoint protocol announced)) }
    ensures no_memory { OnErr result (outbox.new ≡ outbox.old) }
{
    if !announced {
        return Ok(());
    }
    out.clear();
    write_event(ordinals, protocol, out);
    put_message(endpoint, out, outbox)
}
