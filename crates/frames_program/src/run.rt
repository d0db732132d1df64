ghost use Rattle.std.specs.Prelude.{◌≡◌, ◌∷◌, [], map, string_bytes, List, ℕ};
ghost use Rattle.run_status.specs.Outside.{files_told, sink_told};
ghost use Rattle.run_status.specs.Reads.{ReadsOnly};
ghost use Rattle.run_status.specs.Texts.{Tells};
ghost use Rattle.run_status.specs.declared.statuses.Status.TheVariants as status;
ghost use Rattle.frames_program.specs.Answers.{Answers, IsServable, NoFault};
ghost use Rattle.frames_program.specs.Notes.{note_of};
ghost use Rattle.frames_program.specs.Words.{MeanNothing, Means};
ghost use Rattle.vfs_program.specs.Answers.{IsDoneOrNoMemory};

use crate::notes::tell_end;
use crate::words::name_of;
use host_io::{Failed, Files, Sink};
use run_status::{Status, ordinals, pass_on};
use script_session::read_script;
use std::alloc::Global;

/// Writes the frames of the script that the words name, and tells the note of the status that it answers.
///
/// The words are those of the process behind its name. The whole script is read first, so that nothing is written where
/// one of its lines is bad. What is written is what `vfs serve` reads: with the mode that the script says, it serves
/// what `vfs run` plays.
pub fn frames_words<F: Files, K: Sink, N: Sink>(
    alloc: Global,
    words: &[String],
    files: &mut F,
    sink: &mut K,
    notes: &mut N,
) -> Status
    // Words of another shape touch nothing.
    ensures usage { MeanNothing (map string_bytes words.now) →
        (result ≡ status.Usage) × (files.new ≡ files.old) × (sink.new ≡ sink.old) }

    // What is answered, and what was done by then.
    ensures answers { let told = files_told F.told F.faults F.overlong in let wrote = sink_told K.written K.flushed K.faults in
        (script : List ℕ) → Means (map string_bytes words.now) script →
        Answers script (told files.old) (told files.new) (wrote sink.old) (wrote sink.new)
        (files.new ≡ files.old) (sink.new ≡ sink.old) result }

    // At most the script is read, once.
    ensures reads { (script : List ℕ) → Means (map string_bytes words.now) script → ReadsOnly F.reads (script ∷ []) files.old files.new }

    // Where no line of the script is bad, and no fault is met, all is done unless memory runs out.
    ensures complete { let told = files_told F.told F.faults F.overlong in let wrote = sink_told K.written K.flushed K.faults in
        (script : List ℕ) → Means (map string_bytes words.now) script → IsServable script (told files.old) →
        NoFault script (told files.old) (told files.new) (wrote sink.old) (wrote sink.new) → IsDoneOrNoMemory result }

    // The note of the status is told last, and nothing else.
    ensures note { Tells (note_of result) (sink_told N.written N.flushed N.faults notes.old) (sink_told N.written N.flushed N.faults notes.new) }
{
    let status = answer(alloc, words, files, sink);
    tell_end(notes, status);
    status
}

/// Does what the words ask for.
fn answer<F: Files, K: Sink>(alloc: Global, words: &[String], files: &mut F, sink: &mut K) -> Status
    ensures usage { MeanNothing (map string_bytes words.now) →
        (result ≡ status.Usage) × (files.new ≡ files.old) × (sink.new ≡ sink.old) }
    ensures answers { let told = files_told F.told F.faults F.overlong in let wrote = sink_told K.written K.flushed K.faults in
        (script : List ℕ) → Means (map string_bytes words.now) script →
        Answers script (told files.old) (told files.new) (wrote sink.old) (wrote sink.new)
        (files.new ≡ files.old) (sink.new ≡ sink.old) result }
    ensures reads { (script : List ℕ) → Means (map string_bytes words.now) script → ReadsOnly F.reads (script ∷ []) files.old files.new }
{
    match name_of(words) {
        Some(script) => write_frames(alloc, script, files, sink),
        None => Status::Usage,
    }
}

/// Reads the script of this name, and writes its frames.
fn write_frames<F: Files, K: Sink>(
    alloc: Global,
    script: &str,
    files: &mut F,
    sink: &mut K,
) -> Status
    ensures answers { let told = files_told F.told F.faults F.overlong in let wrote = sink_told K.written K.flushed K.faults in
        Answers script.now (told files.old) (told files.new) (wrote sink.old) (wrote sink.new)
        (files.new ≡ files.old) (sink.new ≡ sink.old) result }
    ensures reads { ReadsOnly F.reads (script.now ∷ []) files.old files.new }
{
    let ordinals = match ordinals() {
        Ok(ordinals) => ordinals,
        Err(collision) => return collision,
    };
    let script = match read_script(alloc, &ordinals, script, files) {
        Ok(script) => script,
        Err(status) => return status,
    };
    let frames = script.frames();
    match pass_on(sink, frames) {
        Ok(()) => Status::Done,
        Err(Failed) => Status::WriteFault,
    }
}
