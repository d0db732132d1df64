ghost use Rattle.std.specs.Prelude.{IfOk, IfErr};
ghost use Rattle.run_status.specs.Outside.{files_told};
ghost use Rattle.run_status.specs.FileCauses.{HasNoStart};
ghost use Rattle.run_status.specs.Files.{StillTold};
ghost use Rattle.run_status.specs.Trees.{Stands};

use crate::files::read_file;
use crate::statuses::Status;
use fidl_names::MAX_TEXT;
use host_io::Files;
use session_start::Start;
use std::alloc::Global;
use tree_file::{TreeFault, start_of};

/// The start that the tree file of this name stands for.
pub fn read_start<F: Files>(alloc: Global, name: &str, files: &mut F) -> Result<Start, Status>
    ensures stands { IfOk result (λ start. Stands (F.told files.old name.now) start) }
    ensures refused { IfErr result (HasNoStart name.now
        (files_told F.told F.faults F.overlong files.old) (files_told F.told F.faults F.overlong files.new)) }
    ensures files { StillTold (files_told F.told F.faults F.overlong files.old) (files_told F.told F.faults F.overlong files.new) }
    ensures reads { F.reads name.now files.old files.new }
{
    let text = read_file(alloc, name, MAX_TEXT, files)?;
    match start_of(alloc, &text) {
        Ok(start) => Ok(start),
        Err(TreeFault::Rule { rule, item }) => Err(Status::TreeRefused { rule, item }),
        Err(TreeFault::NoMemory) => Err(Status::NoMemory),
    }
}
