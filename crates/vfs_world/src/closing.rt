//! The Close frames of the endpoints that die.

ghost use Rattle.std.specs.Prelude.{◌≡◌, ◌++◌, not, filter, map, IfOk, OnOk};
ghost use Rattle.link_frames.specs.Frames.{spellings};
ghost use Rattle.vfs_journal.specs.Outcomes.{close_frame};
ghost use Rattle.vfs_journal.specs.Output.{Begins, rising};
ghost use Rattle.vfs_world.specs.ServingSteps.{closed_for, is_it};

use crate::deaths::is_it;
use fidl_names::NoMemory;
use link_frames::{FrameKind, Outbox, write_frame};
use std::alloc::Global;

/// Numbers once each, from the least on.
fn sort(numbers: &mut Vec<u32>)
    ensures { numbers.new.items ≡ rising numbers.old.items }
{
    numbers.sort_unstable();
    numbers.dedup();
}

/// The deaths but one.
fn deaths_but(alloc: Global, one: Option<u32>, dead: &[u32]) -> Result<Vec<u32>, NoMemory>
    ensures { IfOk result (λ others. others.items ≡ filter (λ number. not (is_it one number)) dead.now) }
{
    let mut others = Vec::new(alloc);
    for death in dead {
        if !is_it(one, *death) {
            others.push(*death)?;
        }
    }
    Ok(others)
}

/// Writes that endpoints are closed.
fn put_closes(endpoints: &[u32], outbox: &mut Outbox) -> Result<(), NoMemory>
    ensures written { OnOk result (outbox.new ≡ outbox.old ++ spellings (map close_frame endpoints.now)) }
    ensures begins { Begins outbox.old outbox.new }
{
    for endpoint in endpoints {
        write_frame(outbox, *endpoint, FrameKind::Close, &[], &[])?;
    }
    Ok(())
}

/// Writes the Close frames for deaths beside the one that the answer closed.
pub(crate) fn close_others(
    alloc: Global,
    one: Option<u32>,
    dead: &[u32],
    outbox: &mut Outbox,
) -> Result<(), NoMemory>
    ensures written { OnOk result (outbox.new ≡ outbox.old ++ spellings (closed_for one dead.now)) }
    ensures begins { Begins outbox.old outbox.new }
{
    let mut others = deaths_but(alloc, one, dead)?;
    sort(&mut others);
    put_closes(&others, outbox)
}
