ghost use Rattle.run_status.specs.Outside.{sink_told};
ghost use Rattle.run_status.specs.Texts.{Tells};
ghost use Rattle.frames_program.specs.Notes.{note_of};

use host_io::Sink;
use run_status::{Note, Status, tell, tell_note};

/// Tells the note of a status, and passes it on. Where that fails nothing else changes.
pub(crate) fn tell_end<N: Sink>(notes: &mut N, status: Status)
    ensures { Tells (note_of status) (sink_told N.written N.flushed N.faults notes.old) (sink_told N.written N.flushed N.faults notes.new) }
{
    match status {
        Status::Usage => tell_note(notes, Note::Line("usage: frames SCRIPT\n")),
        status => tell(notes, status),
    }
}
