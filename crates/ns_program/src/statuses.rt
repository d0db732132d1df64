ghost use Rattle.std.specs.Prelude.{◌≡◌, Some};
ghost use Rattle.ns_program.specs.Statuses.{exit_of, fault_in, note_of};
ghost use Rattle.run_status.specs.Notes.{line_of};

use host_io::FileFault;
use run_status::Note;

/// How a run of the program ended.
#[derive(Clone, Copy)]
pub enum NsStatus {
    /// All was written and flushed.
    Done,
    /// The words aren't two.
    Usage,
    /// The first line of the table that has no entry, or one that can't be added, counted from 1.
    TableRefused { line: u64 },
    /// The first line of the script that opens a path which isn't resolved, counted from 1.
    LineRefused { line: u64 },
    WriteFault,
    /// A file is missing, or couldn't be read.
    FileFault,
    FileTooLarge,
    NoMemory,
}

impl NsStatus {
    /// The exit status of the process.
    pub fn exit_code(&self) -> u8
        ensures { result ≡ exit_of self.now }
    {
        match self {
            NsStatus::Done => 0,
            NsStatus::Usage => 1,
            NsStatus::TableRefused { .. } | NsStatus::LineRefused { .. } => 2,
            NsStatus::WriteFault => 4,
            NsStatus::FileFault | NsStatus::FileTooLarge => 5,
            NsStatus::NoMemory => 10,
        }
    }

    /// What is told of it.
    pub(crate) fn note(&self) -> Note
        ensures { line_of result ≡ note_of self.now }
    {
        match self {
            NsStatus::Done => Note::Line(""),
            NsStatus::Usage => Note::Line("usage: ns TABLE SCRIPT\n"),
            NsStatus::TableRefused { line } => Note::Number("table refused: line ", *line),
            NsStatus::LineRefused { line } => Note::Number("line refused: line ", *line),
            NsStatus::WriteFault => Note::Line("write failed\n"),
            NsStatus::FileFault => Note::Line("file failed\n"),
            NsStatus::FileTooLarge => Note::Line("file too large\n"),
            NsStatus::NoMemory => Note::Line("no memory\n"),
        }
    }
}

impl From<FileFault> for NsStatus {
    ghost from_gives = { λ fault status. fault_in status ≡ Some fault };

    fn from(fault: FileFault) -> NsStatus {
        match fault {
            FileFault::Failed => NsStatus::FileFault,
            FileFault::TooLarge => NsStatus::FileTooLarge,
            FileFault::NoMemory => NsStatus::NoMemory,
        }
    }
}
