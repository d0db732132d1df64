ghost use Rattle.std.specs.Prelude.{◌≡◌, ℕ, List, All, IfOk, length};
ghost use Rattle.link_frames.specs.Frames.{IsFrame};
ghost use Rattle.link_frames.specs.declared.kinds.Mode.TheVariants as mode;
ghost use Rattle.link_frames.specs.declared.kinds.Side.TheVariants as side;
ghost use Rattle.script_session.specs.Measured.{output_frames};
ghost use Rattle.script_session.specs.Steps.{IsScript};
ghost use Rattle.vfs_journal.specs.Starts.{start_of};
ghost use Rattle.vfs_script.specs.Scripts.{frames_of};
ghost use Rattle.workload.specs.Workload.{IsRounds, workload};
ghost use Rattle.run_status.specs.Causes.{AfterNames};
ghost use Rattle.run_status.specs.Outside.{sink_told};
ghost use Rattle.run_status.specs.Texts.{WritesText};
ghost use Rattle.script_session.specs.ScriptCauses.{AfterReport};
ghost use Rattle.script_session.specs.Workloads.{IsReport, Reports, report_with};

use crate::{Measured, measure};
use fidl_names::NoMemory;
use fidl_wire::Ordinals;
use host_io::{Failed, Sink};
use run_status::{Status, ordinals, pass_on, put_number};
use session_start::Start;
use std::alloc::{AllocError, Global};
use tree_file::generated_start;
use vfs_script::{Script, ScriptFault, script_of};
use workload::generated;

/// Plays the generated script of so many rounds over the generated tree, and tells how much goes in
/// and comes out.
pub fn make<K: Sink>(alloc: Global, rounds: u32, sink: &mut K) -> Status
    requires { IsRounds rounds }
    ensures { AfterNames (sink.new ≡ sink.old) (AfterReport rounds (sink.new ≡ sink.old) (λ report. WritesText report ⊥
        (sink_told K.written K.flushed K.faults sink.old) (sink_told K.written K.flushed K.faults sink.new))) result }
{
    let ordinals = match ordinals() {
        Ok(ordinals) => ordinals,
        Err(collision) => return collision,
    };
    let Ok(report) = report_of(alloc, ordinals, rounds) else {
        return Status::NoMemory;
    };
    match pass_on(sink, &report) {
        Ok(()) => Status::Done,
        Err(Failed) => Status::WriteFault,
    }
}

/// The report of the workload of so many rounds.
fn report_of(alloc: Global, ordinals: Ordinals, rounds: u32) -> Result<Vec<u8>, NoMemory>
    requires { IsRounds rounds }
    ensures { IfOk result (λ report. IsReport rounds report.items) }
{
    let start = generated_start(alloc)?;
    let script = generated_script(alloc, &ordinals, rounds)?;
    report_over(alloc, ordinals, &start, &script)
}

/// The report of a script that is played over the tree of an accepted start.
fn report_over(
    alloc: Global,
    ordinals: Ordinals,
    start: &Start,
    script: &Script,
) -> Result<Vec<u8>, NoMemory>
    requires { (text : List ℕ) × IsScript text script.now }
    ensures told { (text : List ℕ) → IsScript text script.now →
        IfOk result (λ report. Reports (output_frames (start_of start.now) script.now.mode text) (length script.now.calls) report.items) }
    ensures sent { (text : List ℕ) → IsScript text script.now → All (IsFrame side.ToServers) (frames_of text) }
{
    let measured = measure(alloc, ordinals, start, script)?;
    Ok(report_with(alloc, script.len(), &measured)?)
}

/// The generated script of so many rounds.
#[tactic(auto, using(crate::proofs::WorkloadLemmas::is_good))]
fn generated_script(alloc: Global, ordinals: &Ordinals, rounds: u32) -> Result<Script, NoMemory>
    requires { IsRounds rounds }
    ensures script { IfOk result (λ script. IsScript (workload rounds) script) }
    ensures mode { IfOk result (λ script. script.mode ≡ mode.Auto) }
{
    let text = generated(alloc, rounds)?;
    match script_of(alloc, ordinals, text.as_bytes()) {
        Ok(script) => Ok(script),
        Err(ScriptFault::NoMemory) => Err(NoMemory),
        Err(ScriptFault::Line(_)) => unreachable!(),
    }
}

/// The report of so many frames that go in, and of what comes out.
fn report_with(alloc: Global, frames_in: u32, out: &Measured) -> Result<Vec<u8>, AllocError>
    ensures { IfOk result (λ report. report.items ≡ report_with frames_in out.now.frames out.now.bytes out.now.hash) }
{
    let hash = hex::encode(alloc, &out.hash)?;
    let mut report = Vec::new(alloc);
    put_number(&mut report, "frames in ", u128::from(frames_in))?;
    put_number(&mut report, "\nframes out ", out.frames)?;
    put_number(&mut report, "\nbytes out ", out.bytes)?;
    report.extend_from_slice(b"\nsha256 ")?;
    report.extend_from_slice(hash.as_bytes())?;
    report.push(b'\n')?;
    Ok(report)
}
