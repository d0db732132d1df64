ghost use Rattle.std.specs.Prelude.{◌≡◌, map, string_bytes, IfErr, IfOk, ℕ, List};
ghost use Rattle.io_namespace.specs.Kept.{table_of};
ghost use Rattle.run_status.specs.Files.{StillTold};
ghost use Rattle.run_status.specs.Outside.{files_told, sink_told};
ghost use Rattle.run_status.specs.Reads.{ReadsOnly};
ghost use Rattle.run_status.specs.Texts.{Tells};
ghost use Rattle.ns_program.specs.Answers.{Answers, HasNoScript, HasNoTable, IsDoneOrNoMemory, IsServable, NoFault};
ghost use Rattle.ns_program.specs.Rewriting.{IsScript};
ghost use Rattle.ns_program.specs.Statuses.{note_of};
ghost use Rattle.ns_program.specs.Tables.{IsTable};
ghost use Rattle.ns_program.specs.Words.{Asks, MeanNothing, Means, files_of};
ghost use Rattle.ns_program.specs.declared.statuses.NsStatus.TheVariants as status;

use crate::rewriting::rewrite;
use crate::statuses::NsStatus;
use crate::tables::{Refusal, read_table};
use crate::words::names_of;
use fidl_names::MAX_TEXT;
use host_io::{Failed, Files, Sink};
use io_namespace::Namespace;
use run_status::{pass_on, read_within, tell_note};
use std::alloc::Global;

/// Rewrites the script that the words name by the table that they name, and tells the note of the status that it answers.
///
/// The words are those of the process behind its name. The text is written as one, so that nothing is written where a line is refused.
pub fn ns_words<F: Files, K: Sink, N: Sink>(
    alloc: Global,
    words: &[String],
    files: &mut F,
    sink: &mut K,
    notes: &mut N,
) -> NsStatus
    // Words of another shape touch nothing.
    ensures usage { MeanNothing (map string_bytes words.now) →
        (result ≡ status.Usage) × (files.new ≡ files.old) × (sink.new ≡ sink.old) }

    // What is answered, and what was done by then.
    ensures answers { let told = files_told F.told F.faults F.overlong in let wrote = sink_told K.written K.flushed K.faults in
        (asks : Asks) → Means (map string_bytes words.now) asks →
        Answers asks (told files.old) (told files.new) (wrote sink.old) (wrote sink.new) (sink.new ≡ sink.old) result }

    // At most the table and then the script are read, each once.
    ensures reads { (asks : Asks) → Means (map string_bytes words.now) asks → ReadsOnly F.reads (files_of asks) files.old files.new }

    // Where no line is refused, and no fault is met, all is done unless memory runs out.
    ensures complete { let told = files_told F.told F.faults F.overlong in let wrote = sink_told K.written K.flushed K.faults in
        (asks : Asks) → Means (map string_bytes words.now) asks → IsServable asks (told files.old) →
        NoFault asks (told files.old) (told files.new) (wrote sink.old) (wrote sink.new) → IsDoneOrNoMemory result }

    // The note of the status is told last, and nothing else.
    ensures note { Tells (note_of result) (sink_told N.written N.flushed N.faults notes.old) (sink_told N.written N.flushed N.faults notes.new) }
{
    let status = answer(alloc, words, files, sink);
    tell_note(notes, status.note());
    status
}

/// Does what the words ask for.
fn answer<F: Files, K: Sink>(
    alloc: Global,
    words: &[String],
    files: &mut F,
    sink: &mut K,
) -> NsStatus
    ensures usage { MeanNothing (map string_bytes words.now) →
        (result ≡ status.Usage) × (files.new ≡ files.old) × (sink.new ≡ sink.old) }
    ensures answers { let told = files_told F.told F.faults F.overlong in let wrote = sink_told K.written K.flushed K.faults in
        (asks : Asks) → Means (map string_bytes words.now) asks →
        Answers asks (told files.old) (told files.new) (wrote sink.old) (wrote sink.new) (sink.new ≡ sink.old) result }
    ensures reads { (asks : Asks) → Means (map string_bytes words.now) asks → ReadsOnly F.reads (files_of asks) files.old files.new }
{
    match names_of(words) {
        Some((table, script)) => carry_out(alloc, table, script, files, sink),
        None => NsStatus::Usage,
    }
}

/// Reads the table and the script, and writes what that becomes.
fn carry_out<F: Files, K: Sink>(
    alloc: Global,
    table: &str,
    script: &str,
    files: &mut F,
    sink: &mut K,
) -> NsStatus
    ensures answers { let told = files_told F.told F.faults F.overlong in let wrote = sink_told K.written K.flushed K.faults in
        Answers (record { table = table.now; script = script.now }) (told files.old) (told files.new)
        (wrote sink.old) (wrote sink.new) (sink.new ≡ sink.old) result }
    ensures reads { ReadsOnly F.reads (files_of (record { table = table.now; script = script.now })) files.old files.new }
{
    let table = match table_at(alloc, table, files) {
        Ok(table) => table,
        Err(status) => return status,
    };
    let text = match text_at(alloc, &table, script, files) {
        Ok(text) => text,
        Err(status) => return status,
    };
    match pass_on(sink, &text) {
        Ok(()) => NsStatus::Done,
        Err(Failed) => NsStatus::WriteFault,
    }
}

/// The table that the file of this name says.
fn table_at<F: Files>(alloc: Global, name: &str, files: &mut F) -> Result<Namespace, NsStatus>
    ensures table { IfOk result (λ table. IsTable (F.told files.old name.now) (table_of table)) }
    ensures refused { IfErr result (HasNoTable name.now
        (files_told F.told F.faults F.overlong files.old) (files_told F.told F.faults F.overlong files.new)) }
    ensures files { StillTold (files_told F.told F.faults F.overlong files.old) (files_told F.told F.faults F.overlong files.new) }
    ensures reads { F.reads name.now files.old files.new }
{
    let text = read_within(alloc, name, MAX_TEXT, files)?;
    match read_table(alloc, &text) {
        Ok(table) => Ok(table),
        Err(Refusal::Line(line)) => Err(NsStatus::TableRefused { line }),
        Err(Refusal::NoMemory) => Err(NsStatus::NoMemory),
    }
}

/// What the script of this name becomes.
fn text_at<F: Files>(
    alloc: Global,
    table: &Namespace,
    name: &str,
    files: &mut F,
) -> Result<Vec<u8>, NsStatus>
    ensures text { IfOk result (λ text. IsScript (table_of table.now) (F.told files.old name.now) text.items) }
    ensures refused { IfErr result (HasNoScript (table_of table.now) name.now
        (files_told F.told F.faults F.overlong files.old) (files_told F.told F.faults F.overlong files.new)) }
    ensures reads { F.reads name.now files.old files.new }
{
    let text = read_within(alloc, name, MAX_TEXT, files)?;
    match rewrite(alloc, table, &text) {
        Ok(text) => Ok(text),
        Err(Refusal::Line(line)) => Err(NsStatus::LineRefused { line }),
        Err(Refusal::NoMemory) => Err(NsStatus::NoMemory),
    }
}
