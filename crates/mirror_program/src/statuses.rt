ghost use Rattle.std.specs.Prelude.{◌≡◌};
ghost use Rattle.run_status.specs.Notes.{line_of};
ghost use Rattle.mirror_program.specs.Notes.{exit_of, note_of};

use link_frames::FrameReason;
use run_status::Note;

/// How a run of the program ended.
#[derive(Clone, Copy)]
pub enum MirrorStatus {
    /// All was read, written and flushed.
    Done,
    /// The words aren't an endpoint.
    Usage,
    ReadFault,
    WriteFault,
    /// The first bad frame stands at this offset of the input, and is bad for this first reason.
    BadFrame { at: u64, reason: FrameReason },
    /// The first message on the endpoint that isn't good events stands at this offset.
    BadEvents { at: u64 },
    /// The input ended inside the frame that begins at this offset.
    Truncated { at: u64 },
    /// The input was cut off at 2^40 bytes.
    InputTooLong,
    NoMemory,
}

impl MirrorStatus {
    /// The exit status of the process.
    pub fn exit_code(&self) -> u8
        ensures { result ≡ exit_of self.now }
    {
        match self {
            MirrorStatus::Done => 0,
            MirrorStatus::Usage => 1,
            MirrorStatus::ReadFault => 3,
            MirrorStatus::WriteFault => 4,
            MirrorStatus::BadFrame { .. } | MirrorStatus::BadEvents { .. } => 6,
            MirrorStatus::Truncated { .. } => 7,
            MirrorStatus::InputTooLong => 8,
            MirrorStatus::NoMemory => 10,
        }
    }
}

/// What is told of a status.
pub(crate) fn note_of(status: MirrorStatus) -> Note
    ensures { line_of result ≡ note_of status }
{
    match status {
        MirrorStatus::Done => Note::Line(""),
        MirrorStatus::Usage => Note::Line("usage: mirror ENDPOINT\n"),
        MirrorStatus::ReadFault => Note::Line("read failed\n"),
        MirrorStatus::WriteFault => Note::Line("write failed\n"),
        MirrorStatus::BadFrame { at, reason } => Note::Reason(at, reason),
        MirrorStatus::BadEvents { at } => Note::Number("bad events at ", at),
        MirrorStatus::Truncated { at } => Note::Number("input ends inside the frame at ", at),
        MirrorStatus::InputTooLong => Note::Line("input too long\n"),
        MirrorStatus::NoMemory => Note::Line("no memory\n"),
    }
}
