ghost use Rattle.std.specs.Prelude.{◌≡◌};
ghost use Rattle.audit_program.specs.Statuses.{note_of};
ghost use Rattle.run_status.specs.Notes.{line_of};
ghost use Rattle.run_status.specs.Outside.{sink_told};
ghost use Rattle.run_status.specs.Texts.{Tells};

use crate::statuses::AuditStatus;
use host_io::Sink;
use run_status::{Note, tell_note};

/// Tells the note of a status, and passes it on. Where that fails nothing else changes.
pub(crate) fn tell<N: Sink>(notes: &mut N, status: AuditStatus)
    ensures { Tells (note_of status) (sink_told N.written N.flushed N.faults notes.old) (sink_told N.written N.flushed N.faults notes.new) }
{
    tell_note(notes, note_of(status));
}

/// What is told of a status. A verdict has no note, since the sink has its text.
fn note_of(status: AuditStatus) -> Note
    ensures { line_of result ≡ note_of status }
{
    match status {
        AuditStatus::Done | AuditStatus::Unlawful { .. } => Note::Line(""),
        AuditStatus::Usage => Note::Line("usage: audit TREE RECORDING\n"),
        AuditStatus::TreeRefused { rule, item } => {
            Note::TwoNumbers("tree refused: rule ", u64::from(rule), " item ", item)
        }
        AuditStatus::WriteFault => Note::Line("write failed\n"),
        AuditStatus::FileFault => Note::Line("file failed\n"),
        AuditStatus::FileTooLarge => Note::Line("file too large\n"),
        AuditStatus::Collision { first, second } => Note::TwoNumbers(
            "ordinals collide: ",
            u64::from(first),
            " ",
            u64::from(second),
        ),
        AuditStatus::NoMemory => Note::Line("no memory\n"),
    }
}
