ghost use Rattle.std.specs.Prelude.{◌≡◌, ◌∷◌, [], ℕ, List, IfOk, map, string_bytes};
ghost use Rattle.link_audit.specs.declared.verdicts.Verdict.{Verdict as TheVerdict};
ghost use Rattle.run_status.specs.Outside.{files_told, sink_told};
ghost use Rattle.run_status.specs.Reads.{ReadsOnly};
ghost use Rattle.run_status.specs.Texts.{Tells};
ghost use Rattle.session_start.specs.Items.{Lists};
ghost use Rattle.audit_program.specs.Answers.{Answers, AreNames, AreOthers, HasAll, IsTold, NoFault, WritesLine};
ghost use Rattle.audit_program.specs.Statuses.{line_of, note_of};
ghost use Rattle.audit_program.specs.declared.statuses.AuditStatus.TheVariants as status;

use crate::notes::tell;
use crate::statuses::{AuditStatus, status_as, status_of};
use fidl_names::NoMemory;
use fidl_wire::Ordinals;
use host_io::{Failed, Files, Sink};
use link_audit::{MAX_RECORDING, Verdict, audit};
use run_status::{ordinals, pass_on, put_number, read_file, read_start};
use session_start::Start;
use std::alloc::{AllocError, Global};

/// Says whether the recording that the second word names is lawful over the tree that the first one names, and tells the note of the
/// status that it answers.
pub fn audit_words<F: Files, K: Sink, N: Sink>(
    alloc: Global,
    words: &[String],
    files: &mut F,
    sink: &mut K,
    notes: &mut N,
) -> AuditStatus
    // Words that aren't two touch nothing.
    ensures usage { AreOthers (map string_bytes words.now) →
        (result ≡ status.Usage) × (files.new ≡ files.old) × (sink.new ≡ sink.old) }

    // What two words are answered, and what was done by then.
    ensures answers { let told = files_told F.told F.faults F.overlong in
        let wrote = sink_told K.written K.flushed K.faults in
        (tree recording : List ℕ) → AreNames (map string_bytes words.now) tree recording →
        Answers tree recording (told files.old) (told files.new) (sink.new ≡ sink.old) (wrote sink.old) (wrote sink.new) result }

    // At most the tree's file is read, and then the recording's.
    ensures reads { (tree recording : List ℕ) → AreNames (map string_bytes words.now) tree recording →
        ReadsOnly F.reads (tree ∷ recording ∷ []) files.old files.new }

    // Where all that is needed is there and no fault is met, the verdict on the recording is told, unless memory
    // runs out. There is but one.
    ensures complete { let told = files_told F.told F.faults F.overlong in
        let wrote = sink_told K.written K.flushed K.faults in
        (tree recording : List ℕ) → AreNames (map string_bytes words.now) tree recording →
        (lists : Lists) (bytes : List ℕ) (verdict : TheVerdict) → HasAll tree recording (told files.old) lists bytes verdict →
        NoFault tree recording (told files.old) (told files.new) (wrote sink.old) (wrote sink.new) → IsTold verdict result }

    // The note of the status is told last, and nothing else.
    ensures note { Tells (note_of result) (sink_told N.written N.flushed N.faults notes.old) (sink_told N.written N.flushed N.faults notes.new) }
{
    let status = answer(alloc, words, files, sink);
    tell(notes, status);
    status
}

/// Answers the words.
fn answer<F: Files, K: Sink>(
    alloc: Global,
    words: &[String],
    files: &mut F,
    sink: &mut K,
) -> AuditStatus
    ensures usage { AreOthers (map string_bytes words.now) →
        (result ≡ status.Usage) × (files.new ≡ files.old) × (sink.new ≡ sink.old) }
    ensures answers { let told = files_told F.told F.faults F.overlong in
        let wrote = sink_told K.written K.flushed K.faults in
        (tree recording : List ℕ) → AreNames (map string_bytes words.now) tree recording →
        Answers tree recording (told files.old) (told files.new) (sink.new ≡ sink.old) (wrote sink.old) (wrote sink.new) result }
    ensures reads { (tree recording : List ℕ) → AreNames (map string_bytes words.now) tree recording →
        ReadsOnly F.reads (tree ∷ recording ∷ []) files.old files.new }
{
    match words {
        [tree, recording] => audit_files(alloc, tree.as_str(), recording.as_str(), files, sink),
        _ => AuditStatus::Usage,
    }
}

/// Audits the recording of this name over the tree of that one.
fn audit_files<F: Files, K: Sink>(
    alloc: Global,
    tree: &str,
    recording: &str,
    files: &mut F,
    sink: &mut K,
) -> AuditStatus
    ensures answers { let told = files_told F.told F.faults F.overlong in
        let wrote = sink_told K.written K.flushed K.faults in
        Answers tree.now recording.now (told files.old) (told files.new) (sink.new ≡ sink.old) (wrote sink.old) (wrote sink.new) result }
    ensures reads { ReadsOnly F.reads (tree.now ∷ recording.now ∷ []) files.old files.new }
{
    let ordinals = match ordinals() {
        Ok(ordinals) => ordinals,
        Err(collision) => return status_as(collision),
    };
    let start = match read_start(alloc, tree, files) {
        Ok(start) => start,
        Err(status) => return status_as(status),
    };
    let bytes = match read_file(alloc, recording, MAX_RECORDING, files) {
        Ok(bytes) => bytes,
        Err(status) => return status_as(status),
    };
    let Ok(verdict) = audit(alloc, ordinals, &start, &bytes) else {
        return AuditStatus::NoMemory;
    };
    tell_verdict(alloc, verdict, sink)
}

/// Writes the line of a verdict, and passes it on.
fn tell_verdict<K: Sink>(alloc: Global, verdict: Verdict, sink: &mut K) -> AuditStatus
    ensures { let wrote = sink_told K.written K.flushed K.faults in
        WritesLine verdict (sink.new ≡ sink.old) (wrote sink.old) (wrote sink.new) result }
{
    let Ok(line) = line_of(alloc, verdict) else {
        return AuditStatus::NoMemory;
    };
    match pass_on(sink, &line) {
        Ok(()) => status_of(verdict),
        Err(Failed) => AuditStatus::WriteFault,
    }
}

/// The line of a verdict.
fn line_of(alloc: Global, verdict: Verdict) -> Result<Vec<u8>, AllocError>
    ensures { IfOk result (λ line. line.items ≡ line_of verdict) }
{
    let mut line = Vec::new(alloc);
    match verdict {
        Verdict::Lawful { records } => {
            put_number(&mut line, "lawful ", u128::from(records))?;
            line.extend_from_slice(b" records\n")?;
        }
        Verdict::Unlawful { place, why } => {
            put_number(&mut line, "record ", u128::from(place))?;
            line.extend_from_slice(b": ")?;
            line.extend_from_slice(why.text().as_bytes())?;
            line.push(b'\n')?;
        }
    }
    Ok(line)
}
