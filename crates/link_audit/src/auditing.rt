ghost use Rattle.std.specs.Prelude.{◌≡◌, ◌≤◌, IfOk, OnOk, length};
ghost use Rattle.session_start.specs.Accepted.{HasFilesOfBytes};
ghost use Rattle.vfs_journal.specs.Starts.{start_of};
ghost use Rattle.link_audit.specs.Verdicts.{IsVerdict};
ghost use Rattle.link_audit.specs.Vouching.{VouchesForLaws};
ghost use Rattle.link_audit.specs.declared.verdicts.Verdict.{Verdict as TheVerdict};

use crate::auditor::Auditor;
use crate::records::{Record, front_of};
use crate::verdicts::{Verdict, Why};
use fidl_names::NoMemory;
use fidl_wire::Ordinals;
use session_start::Start;
use std::alloc::Global;

/// The most bytes of a recording.
pub const MAX_RECORDING: usize = 16_777_216;

/// Says whether a recording is lawful over an accepted start: whether its records are those of a session that the servers of this start may
/// have had, whoever made it and in whatever order its entries were served.
pub fn audit(
    alloc: Global,
    ordinals: Ordinals,
    start: &Start,
    recording: &[u8],
) -> Result<Verdict, NoMemory>
    requires { length recording.now ≤ MAX_RECORDING }
    // What is in the files of a start are bytes.
    ensures bytes { HasFilesOfBytes start.now }

    // It is lawful, or this is the first fault of the first record at which it isn't.
    ensures verdict { IfOk result (IsVerdict (start_of start.now) recording.now) }

    // There is no other verdict.
    ensures only { (verdict : TheVerdict) → IsVerdict (start_of start.now) recording.now verdict → IfOk result (λ told. told ≡ verdict) }

    // A yes says that the laws of sessions hold of the run that was recorded.
    ensures laws { IfOk result (VouchesForLaws (start_of start.now) recording.now) }
{
    let mut auditor = Auditor::new(alloc, ordinals, start)?;
    let mut rest = recording;
    let mut place = 0;
    while let Some(front) = front_of(rest) {
        if let Some(why) = auditor.judge(front.one)? {
            return Ok(Verdict::Unlawful { place, why });
        }
        place += 1;
        if let Record::End = front.one {
            return Ok(Verdict::Lawful { records: place });
        }
        rest = &rest[front.size..];
    }
    Ok(Verdict::Unlawful {
        place,
        why: Why::BadRecord,
    })
}
