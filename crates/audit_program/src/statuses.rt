ghost use Rattle.std.specs.Prelude.{◌≡◌};
ghost use Rattle.audit_program.specs.Statuses.{exit_of, status_as, status_of};

use link_audit::{Verdict, Why};
use run_status::Status;

/// How a run of `audit` ended.
#[derive(Clone, Copy)]
pub enum AuditStatus {
    /// The recording is lawful; this is written and flushed.
    Done,
    /// There aren't two words.
    Usage,
    /// The first rule that the tree file breaks, and the first item that fails it.
    TreeRefused { rule: u32, item: u64 },
    WriteFault,
    /// A named file is missing, or couldn't be read.
    FileFault,
    FileTooLarge,
    /// The names of these two rows have equal ordinals.
    Collision { first: u32, second: u32 },
    NoMemory,
    /// The first record at which the recording isn't lawful, and the first reason; this is written and flushed.
    Unlawful { place: u32, why: Why },
}

impl AuditStatus {
    /// The exit status of the process.
    pub fn exit_code(&self) -> u8
        ensures { result ≡ exit_of self.now }
    {
        match self {
            AuditStatus::Done => 0,
            AuditStatus::Usage => 1,
            AuditStatus::TreeRefused { .. } => 2,
            AuditStatus::WriteFault => 4,
            AuditStatus::FileFault | AuditStatus::FileTooLarge => 5,
            AuditStatus::Collision { .. } => 9,
            AuditStatus::NoMemory => 10,
            AuditStatus::Unlawful { .. } => 11,
        }
    }
}

/// The status of a run that told a verdict.
pub(crate) fn status_of(verdict: Verdict) -> AuditStatus
    ensures { result ≡ status_of verdict }
{
    match verdict {
        Verdict::Lawful { .. } => AuditStatus::Done,
        Verdict::Unlawful { place, why } => AuditStatus::Unlawful { place, why },
    }
}

/// What a cause that stops `vfs` as well, before its session begins, is here.
pub(crate) fn status_as(status: Status) -> AuditStatus
    ensures { result ≡ status_as status }
{
    match status {
        Status::TreeRefused { rule, item } => AuditStatus::TreeRefused { rule, item },
        Status::FileFault => AuditStatus::FileFault,
        Status::FileTooLarge => AuditStatus::FileTooLarge,
        Status::Collision { first, second } => AuditStatus::Collision { first, second },
        _ => AuditStatus::NoMemory,
    }
}
