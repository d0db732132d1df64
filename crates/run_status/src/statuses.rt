ghost use Rattle.std.specs.Prelude.{◌≡◌};
ghost use Rattle.run_status.specs.Notes.{exit_of};

use link_frames::FrameReason;

/// How a run of the program ended.
#[derive(Clone, Copy)]
pub enum Status {
    /// All was done, written and flushed.
    Done,
    /// The words have no command's shape.
    Usage,
    /// The first rule that the tree file breaks, and the first item that fails it.
    TreeRefused { rule: u32, item: u64 },
    /// The first bad line of the script, counted from 1; 0 where no line says the mode.
    ScriptRefused { line: u64 },
    ReadFault,
    WriteFault,
    /// A named file is missing, or couldn't be read.
    FileFault,
    FileTooLarge,
    /// The input was cut off at 2^40 bytes.
    InputTooLong,
    /// The names of these two rows have equal ordinals.
    Collision { first: u32, second: u32 },
    NoMemory,
    /// The first bad frame stands at this offset of the input, and is bad for this first reason.
    BadFrame { at: u64, reason: FrameReason },
    /// The input ended inside the frame that begins at this offset.
    Truncated { at: u64 },
}

impl Status {
    /// The exit status of the process.
    pub fn exit_code(&self) -> u8
        ensures { result ≡ exit_of self.now }
    {
        match self {
            Status::Done => 0,
            Status::Usage => 1,
            Status::TreeRefused { .. } | Status::ScriptRefused { .. } => 2,
            Status::ReadFault => 3,
            Status::WriteFault => 4,
            Status::FileFault | Status::FileTooLarge => 5,
            Status::BadFrame { .. } => 6,
            Status::Truncated { .. } => 7,
            Status::InputTooLong => 8,
            Status::Collision { .. } => 9,
            Status::NoMemory => 10,
        }
    }
}
