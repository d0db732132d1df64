ghost use Rattle.std.specs.Prelude.{◌≡◌, ◌∷◌, [], IfOk};
ghost use Rattle.run_status.specs.Outside.{files_told, sink_told};
ghost use Rattle.run_status.specs.Reads.{ReadsOnly};
ghost use Rattle.run_status.specs.Texts.{WritesText};
ghost use Rattle.session_start.specs.Accepted.{HasFilesOfBytes};
ghost use Rattle.run_status.specs.FileCauses.{AfterTree};
ghost use Rattle.run_status.specs.Trees.{line_of};

use crate::statuses::Status;
use crate::texts::{pass_on, put_number};
use crate::trees::read_start;
use host_io::{Failed, Files, Sink};
use session_start::Start;
use std::alloc::{AllocError, Global};

/// Tells how much the tree file of this name has, where it breaks no rule.
pub fn check_tree<F: Files, K: Sink>(
    alloc: Global,
    name: &str,
    files: &mut F,
    sink: &mut K,
) -> Status
    ensures answers { AfterTree name.now (files_told F.told F.faults F.overlong files.old) (files_told F.told F.faults F.overlong files.new)
        (sink.new ≡ sink.old)
        (λ lists. WritesText (line_of lists) ⊥ (sink_told K.written K.flushed K.faults sink.old) (sink_told K.written K.flushed K.faults sink.new))
        result }
    ensures reads { ReadsOnly F.reads (name.now ∷ []) files.old files.new }
{
    let start = match read_start(alloc, name, files) {
        Ok(start) => start,
        Err(status) => return status,
    };
    let Ok(line) = line_of(alloc, &start) else {
        return Status::NoMemory;
    };
    match pass_on(sink, &line) {
        Ok(()) => Status::Done,
        Err(Failed) => Status::WriteFault,
    }
}

/// The line that tells how many servers, nodes, mounts and clients a tree has.
fn line_of(alloc: Global, start: &Start) -> Result<Vec<u8>, AllocError>
    ensures line { IfOk result (λ line. line.items ≡ line_of start.now) }
    ensures bytes { HasFilesOfBytes start.now }
{
    let mut line = Vec::new(alloc);
    put_number(&mut line, "ok servers ", u128::from(start.servers()))?;
    put_number(&mut line, " nodes ", u128::from(start.nodes()))?;
    put_number(&mut line, " mounts ", u128::from(start.mounts()))?;
    put_number(&mut line, " clients ", u128::from(start.clients()))?;
    line.push(b'\n')?;
    Ok(line)
}
