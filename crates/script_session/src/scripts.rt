ghost use Rattle.std.specs.Prelude.{◌≡◌, List, [], ◌∷◌, ℕ, IfOk, IfErr};
ghost use Rattle.script_session.specs.Playing.{transcript};
ghost use Rattle.script_session.specs.Steps.{IsScript};
ghost use Rattle.vfs_journal.specs.Starts.{start_of};
ghost use Rattle.run_status.specs.Causes.{AfterNames};
ghost use Rattle.run_status.specs.Outside.{files_told, sink_told};
ghost use Rattle.run_status.specs.Reads.{ReadsOnly};
ghost use Rattle.run_status.specs.Texts.{WritesPieces};
ghost use Rattle.run_status.specs.FileCauses.{AfterTree};
ghost use Rattle.script_session.specs.ScriptCauses.{AfterScript, HasNoScript};
ghost use Rattle.script_session.specs.Scripts.{Says};

use crate::faults::TranscriptFault;
use crate::playing::play;
use fidl_names::MAX_TEXT;
use fidl_wire::Ordinals;
use host_io::{Files, Sink};
use run_status::{Status, ordinals, read_file, read_start};
use std::alloc::Global;
use vfs_script::{Script, ScriptFault, script_of};

/// Plays the script of this name over the tree of that one, and writes its transcript.
pub fn run_script<F: Files, K: Sink>(
    alloc: Global,
    tree: &str,
    script: &str,
    files: &mut F,
    sink: &mut K,
) -> Status
    ensures answers { let told = files_told F.told F.faults F.overlong in
        let wrote = sink_told K.written K.flushed K.faults in
        AfterNames (sink.new ≡ sink.old) (AfterTree tree.now (told files.old) (told files.new) (sink.new ≡ sink.old)
        (λ lists. AfterScript script.now (told files.old) (told files.new) (sink.new ≡ sink.old)
        (λ said. WritesPieces (transcript (start_of lists) said.by said.text) (wrote sink.old) (wrote sink.new)))) result }
    ensures reads { ReadsOnly F.reads (tree.now ∷ script.now ∷ []) files.old files.new }
{
    let ordinals = match ordinals() {
        Ok(ordinals) => ordinals,
        Err(collision) => return collision,
    };
    let start = match read_start(alloc, tree, files) {
        Ok(start) => start,
        Err(status) => return status,
    };
    let script = match read_script(alloc, &ordinals, script, files) {
        Ok(script) => script,
        Err(status) => return status,
    };
    match play(alloc, ordinals, &start, &script, sink) {
        Ok(()) => Status::Done,
        Err(TranscriptFault::Failed) => Status::WriteFault,
        Err(TranscriptFault::NoMemory) => Status::NoMemory,
    }
}

/// The script that the file of this name is, at most 1,048,576 bytes; or the status that says why there is none.
pub fn read_script<F: Files>(
    alloc: Global,
    ordinals: &Ordinals,
    name: &str,
    files: &mut F,
) -> Result<Script, Status>
    ensures says { IfOk result (λ script. (text : List ℕ) × IsScript text script
        × Says (F.told files.old name.now) (record { text = text; by = script.mode })) }
    ensures refused { IfErr result (HasNoScript name.now
        (files_told F.told F.faults F.overlong files.old) (files_told F.told F.faults F.overlong files.new)) }
    ensures reads { F.reads name.now files.old files.new }
{
    let text = read_file(alloc, name, MAX_TEXT, files)?;
    match script_of(alloc, ordinals, &text) {
        Ok(script) => Ok(script),
        Err(ScriptFault::Line(line)) => Err(Status::ScriptRefused { line }),
        Err(ScriptFault::NoMemory) => Err(Status::NoMemory),
    }
}
