//! The file that a word names.

ghost use Rattle.std.specs.Prelude.{◌≡◌, Some, IfErr, IfOk};
ghost use Rattle.run_status.specs.FileCauses.{HasNoFile, IsFileCause, fault_in};
ghost use Rattle.run_status.specs.Files.{IsWithin, StillTold};
ghost use Rattle.run_status.specs.Outside.{files_told};

use crate::statuses::Status;
use host_io::{FileFault, Files};
use std::alloc::Global;

impl From<FileFault> for Status {
    ghost from_gives = { λ fault status. fault_in status ≡ Some fault };

    fn from(fault: FileFault) -> Status {
        match fault {
            FileFault::Failed => Status::FileFault,
            FileFault::TooLarge => Status::FileTooLarge,
            FileFault::NoMemory => Status::NoMemory,
        }
    }
}

/// The bytes of the file of this name, at most so many; or the status that says why there is none.
pub fn read_file<F: Files>(
    alloc: Global,
    name: &str,
    most: usize,
    files: &mut F,
) -> Result<Vec<u8>, Status>
    ensures file { IfOk result (λ file. IsWithin most (F.told files.old name.now) file.items) }
    ensures refused { IfErr result (HasNoFile most name.now
        (files_told F.told F.faults F.overlong files.old) (files_told F.told F.faults F.overlong files.new)) }
    ensures files { StillTold (files_told F.told F.faults F.overlong files.old) (files_told F.told F.faults F.overlong files.new) }
    ensures reads { F.reads name.now files.old files.new }
{
    let file = read_within(alloc, name, most, files)?;
    Ok(file)
}

/// The bytes of the file of this name, at most so many; or why there is none: for a program that has statuses of its own.
pub fn read_within<F: Files>(
    alloc: Global,
    name: &str,
    most: usize,
    files: &mut F,
) -> Result<Vec<u8>, FileFault>
    ensures file { IfOk result (λ file. IsWithin most (F.told files.old name.now) file.items) }
    ensures refused { IfErr result (IsFileCause most name.now
        (files_told F.told F.faults F.overlong files.old) (files_told F.told F.faults F.overlong files.new)) }
    ensures files { StillTold (files_told F.told F.faults F.overlong files.old) (files_told F.told F.faults F.overlong files.new) }
    ensures reads { F.reads name.now files.old files.new }
{
    files.read_all(alloc, name, most)
}
