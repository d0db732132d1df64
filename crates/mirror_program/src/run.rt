ghost use Rattle.std.specs.Prelude.{◌≡◌, ℕ, List, Some, map, string_bytes};
ghost use Rattle.link_frames.specs.Frames.{Frame};
ghost use Rattle.link_frames.specs.declared.kinds.Mode.{Mode};
ghost use Rattle.fidl_wire.specs.Names.{AreDistinct};
ghost use Rattle.session_start.specs.Items.{Lists};
ghost use Rattle.vfs_journal.specs.Starts.{Bound};
ghost use Rattle.run_status.specs.Outside.{sink_told, streams_told};
ghost use Rattle.run_status.specs.Texts.{Tells};
ghost use Rattle.mirror_program.specs.Answers.{Answers, IsDoneOrNoMemory, IsTakable, MetNone};
ghost use Rattle.mirror_program.specs.Watched.{IsWatching, WroteItsNames, written_by};
ghost use Rattle.mirror_program.specs.Notes.{note_of};
ghost use Rattle.mirror_program.specs.Words.{Means, MeanNothing, IsEndpoint};
ghost use Rattle.mirror_program.specs.declared.statuses.MirrorStatus.TheVariants as status;

use crate::reading::take_all;
use crate::statuses::{MirrorStatus, note_of};
use crate::texts::text_of;
use crate::words::endpoint_of;
use dir_mirror::Mirror;
use host_io::{Failed, Sink, Source};
use link_session::Input;
use run_status::{pass_on, tell_note};
use std::alloc::Global;

/// Keeps a copy of the directory that the endpoint of the words is told of, by the frames of `source`, and writes its names to `sink`.
/// Then it tells the note of the status that it answers.
pub fn mirror_words<S: Source, K: Sink, N: Sink>(
    alloc: Global,
    words: &[String],
    source: &mut S,
    sink: &mut K,
    notes: &mut N,
) -> MirrorStatus
    // Words that say no endpoint touch nothing.
    ensures usage { MeanNothing (map string_bytes words.now) →
        (result ≡ status.Usage) × (source.new ≡ source.old) × (sink.new ≡ sink.old) }

    // What is answered, and what was read and written by then.
    ensures answers { let told = streams_told S.left S.last S.faults K.written K.flushed K.faults in
        (endpoint : ℕ) → Means (map string_bytes words.now) endpoint →
        Answers endpoint (told source.old sink.old) (told source.new sink.new) (sink.new ≡ sink.old) result }

    // Where all of the input can be taken, and no fault is met, it is done unless memory runs out.
    ensures complete { let told = streams_told S.left S.last S.faults K.written K.flushed K.faults in
        (endpoint : ℕ) → Means (map string_bytes words.now) endpoint → IsTakable endpoint (told source.old sink.old) →
        MetNone (told source.old sink.old) (told source.new sink.new) → IsDoneOrNoMemory result }

    // Of the output of a session over an accepted tree, in which the endpoint watches a directory, it writes the names that the
    // directory has behind the session's last drain; where no two methods' names have equal ordinals.
    ensures watched { let told = streams_told S.left S.last S.faults K.written K.flushed K.faults in
        AreDistinct → (lists : Lists) (by : Mode) (sent : List Frame) (watcher : Bound) → IsWatching lists by sent watcher →
        Means (map string_bytes words.now) watcher.endpoint → S.left source.old ≡ Some (written_by lists by sent) → result ≡ status.Done →
        WroteItsNames lists by sent watcher (told source.old sink.old) (told source.new sink.new) }

    // The note of the status is told last, and nothing else.
    ensures note { Tells (note_of result) (sink_told N.written N.flushed N.faults notes.old) (sink_told N.written N.flushed N.faults notes.new) }
{
    let status = answer(alloc, words, source, sink);
    tell_note(notes, note_of(status));
    status
}

fn answer<S: Source, K: Sink>(
    alloc: Global,
    words: &[String],
    source: &mut S,
    sink: &mut K,
) -> MirrorStatus
    ensures usage { MeanNothing (map string_bytes words.now) →
        (result ≡ status.Usage) × (source.new ≡ source.old) × (sink.new ≡ sink.old) }
    ensures answers { let told = streams_told S.left S.last S.faults K.written K.flushed K.faults in
        (endpoint : ℕ) → Means (map string_bytes words.now) endpoint →
        Answers endpoint (told source.old sink.old) (told source.new sink.new) (sink.new ≡ sink.old) result }
{
    match endpoint_of(words) {
        Some(endpoint) => mirror(alloc, endpoint, source, sink),
        None => MirrorStatus::Usage,
    }
}

/// Keeps the copy, and writes its names once the input has ended between frames.
fn mirror<S: Source, K: Sink>(
    alloc: Global,
    endpoint: u32,
    source: &mut S,
    sink: &mut K,
) -> MirrorStatus
    ensures answers { let told = streams_told S.left S.last S.faults K.written K.flushed K.faults in
        Answers endpoint (told source.old sink.old) (told source.new sink.new) (sink.new ≡ sink.old) result }
{
    let Ok(mut input) = Input::new(alloc) else {
        return MirrorStatus::NoMemory;
    };
    let mut mirror = Mirror::new(alloc, endpoint);
    if let Err(status) = take_all(&mut mirror, &mut input, source) {
        return status;
    }
    let Ok(text) = text_of(alloc, &mirror) else {
        return MirrorStatus::NoMemory;
    };
    match pass_on(sink, &text) {
        Ok(()) => MirrorStatus::Done,
        Err(Failed) => MirrorStatus::WriteFault,
    }
}
