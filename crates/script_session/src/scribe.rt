//! The lines of the frames that come back, and the client that tells which calls they answer.

ghost use Rattle.std.specs.Prelude.{◌≡◌, ◌≤◌, ◌<◌, ◌+◌, ◌++◌, ℕ, List, Option, Some, [], ◌∷◌, IfOk, OnOk, OnErr, All, length, slice_get};
ghost use Rattle.std.specs.FinMap as finite;
ghost use Rattle.std.specs.Io.KnownBytes.{Appends};
ghost use Rattle.link_frames.specs.Frames.{Frame, IsFrame, spellings};
ghost use Rattle.link_frames.specs.Views.{frame_of};
ghost use Rattle.link_frames.specs.declared.kinds.Side.TheVariants as side;
ghost use Rattle.host_io.specs.Causes.{HasCause};
ghost use Rattle.host_io.specs.Streams.{AppendsPart, IsFlushed};
ghost use Rattle.io_client.specs.Calls.{none_yet};
ghost use Rattle.vfs_script.specs.Noting.{IsFree};
ghost use Rattle.vfs_script.specs.Transcripts.{frame_line};
ghost use Rattle.vfs_script.specs.declared.calls.Call.{Call};
ghost use Rattle.script_session.specs.Answering.{Past, count_calls, gets, one_of, sends};
ghost use Rattle.script_session.specs.Telling.{HasSinkCause, IsOver, IsTold, IsWithin, Knows, last_of};
ghost use Rattle.script_session.specs.Transcript.{lines_of, text_of, with_frames};

use crate::faults::TranscriptFault;
use fidl_names::{MAX_PIECE, NoMemory};
use fidl_wire::Ordinals;
use host_io::{Failed, Sink, write_whole};
use io_client::Client;
use link_frames::{FrameKind, FrameView, Reading, Side, frame_at};
use run_status::pass_on;
use std::alloc::Global;
use std::marker::Model;
use vfs_script::{Outtext, Script, print_counts, print_frame};

/// Writes the transcript of a session: it is told each frame that is sent and each that comes back.
/// Lines are gathered, and written in large pieces. Contracts see what waits and what isn't written
/// yet.
#[derive(Drop)]
pub(crate) struct Scribe {
    ordinals: Ordinals,
    client: Client,
    text: Outtext,
}

impl Model for Scribe {
    ghost use Rattle.script_session.specs.Telling as telling;

    ghost Value = { telling.Scribe };

    ghost coded = { telling.scribe_code };

    ghost view = { λ s. record { calls = s.client; gathered = s.text } };
}

impl Scribe {
    /// Nothing happened yet.
    pub fn new(alloc: Global, ordinals: Ordinals) -> Result<Scribe, NoMemory>
        ensures { IfOk result (λ scribe. scribe ≡ record { calls = none_yet; gathered = [] }) }
    {
        let client = Client::new(alloc)?;
        Ok(Scribe {
            ordinals,
            client,
            text: Outtext::new(alloc),
        })
    }

    /// Frame `i` of the script is sent, with the call that it makes. For want of memory nothing has
    /// changed.
    ///
    /// The caller sees to it that there is such a frame, and that no call with its endpoint and
    /// transaction id waits.
    pub fn sends(&mut self, script: &Script, i: u32) -> Result<(), NoMemory>
        requires frame { i < length script.now.calls }
        requires free { IsFree self.old.calls (slice_get script.now.calls i) }
        ensures knows { (past : Past) (call : Option Call) → slice_get script.now.calls i ≡ Some call → Knows past self.old.calls →
            OnOk result (Knows (sends call ∷ past) self.new.calls) }
        ensures within { (low most : ℕ) (call : Option Call) → slice_get script.now.calls i ≡ Some call → IsOver low call → IsWithin low most self.old.calls →
            OnOk result (IsWithin (last_of low call) (most + one_of call) self.new.calls) }
        ensures gathered { self.new.gathered ≡ self.old.gathered }
        ensures no_memory { OnErr result (self.new ≡ self.old) }
    {
        script.note(i, &mut self.client)
    }

    /// These frames come back, one after the other: their lines are gathered, or written, and the
    /// calls that they answer wait no more. Where that fails, a front of all lines so far was
    /// written.
    #[inline(always)]
    pub fn gets_all<K: Sink>(&mut self, frames: &[u8], sink: &mut K) -> Result<(), TranscriptFault>
        ensures knows { (past : Past) (all : List Frame) → All (IsFrame side.Any) all → frames.now ≡ spellings all → Knows past self.old.calls →
            OnOk result (Knows (with_frames past all) self.new.calls) }
        ensures told { (past : Past) (first : Option (List ℕ)) (all : List Frame) → All (IsFrame side.Any) all → frames.now ≡ spellings all →
            IsTold first (K.written sink.old) self.old.gathered (lines_of past) →
            OnOk result (IsTold first (K.written sink.new) self.new.gathered (lines_of (with_frames past all))) }
        ensures part { (past : Past) (first : Option (List ℕ)) (all : List Frame) → All (IsFrame side.Any) all → frames.now ≡ spellings all →
            IsTold first (K.written sink.old) self.old.gathered (lines_of past) →
            OnErr result (AppendsPart first (K.written sink.new) (lines_of (with_frames past all))) }
        ensures within { (low most : ℕ) → IsWithin low most self.old.calls → OnOk result (IsWithin low most self.new.calls) }
        ensures cause { HasSinkCause (K.faults sink.old) (K.faults sink.new) result }
    {
        let mut rest = frames;
        while let Reading::Whole { frame, size } = frame_at(Side::Any, rest) {
            self.gets(frame)?;
            self.make_room(sink)?;
            rest = &rest[size..];
        }
        Ok(())
    }

    /// A frame comes back: its line is gathered, and the call that it answers waits no more.
    fn gets(&mut self, frame: FrameView<'_>) -> Result<(), NoMemory>
        requires { IsFrame side.Any (frame_of frame) }
        ensures knows { (past : Past) → Knows past self.old.calls → OnOk result (Knows (gets (frame_of frame.entry) ∷ past) self.new.calls) }
        ensures line { OnOk result (self.new.gathered ≡ self.old.gathered ++ frame_line (frame_of frame.entry)) }
        ensures no_memory { OnErr result (self.new ≡ self.old) }
        ensures within { (low most : ℕ) → IsWithin low most self.old.calls → OnOk result (IsWithin low most self.new.calls) }
    {
        print_frame(&self.ordinals, frame, &mut self.text)?;
        if let FrameKind::Message = frame.kind {
            self.client.pass(&self.ordinals, frame);
        }
        Ok(())
    }

    /// Where a large piece is gathered it is written.
    fn make_room<K: Sink>(&mut self, sink: &mut K) -> Result<(), Failed>
        ensures told { (first : Option (List ℕ)) (lines : List ℕ) → IsTold first (K.written sink.old) self.old.gathered lines →
            OnOk result (IsTold first (K.written sink.new) self.new.gathered lines) }
        ensures part { (first : Option (List ℕ)) (lines : List ℕ) → IsTold first (K.written sink.old) self.old.gathered lines →
            OnErr result (AppendsPart first (K.written sink.new) lines) }
        ensures calls { self.new.calls ≡ self.old.calls }
        ensures cause { HasCause (K.faults sink.old) (K.faults sink.new) result }
    {
        if self.text.len() < MAX_PIECE {
            return Ok(());
        }
        write_whole(sink, self.text.as_bytes())?;
        self.text.clear();
        Ok(())
    }

    /// Nothing happens any more: the last line is put behind all others, and all that isn't written
    /// yet is written and passed on. Where that fails, a front of the transcript was written.
    ///
    /// The caller tells how many calls were sent, and sees to it that no more wait.
    pub fn finish<K: Sink>(&mut self, calls: u32, sink: &mut K) -> Result<(), TranscriptFault>
        requires { finite.len self.old.calls.waiting ≤ calls }
        ensures whole { (past : Past) (first : Option (List ℕ)) → Knows past self.old.calls → count_calls past ≡ calls →
            IsTold first (K.written sink.old) self.old.gathered (lines_of past) →
            OnOk result (Appends first (K.written sink.new) (text_of past)) }
        ensures flushed { OnOk result (IsFlushed (K.written sink.new) (K.flushed sink.new)) }
        ensures part { (past : Past) (first : Option (List ℕ)) → Knows past self.old.calls → count_calls past ≡ calls →
            IsTold first (K.written sink.old) self.old.gathered (lines_of past) →
            OnErr result (AppendsPart first (K.written sink.new) (text_of past)) }
        ensures cause { HasSinkCause (K.faults sink.old) (K.faults sink.new) result }
    {
        let answered = calls - self.client.waiting() as u32;
        print_counts(calls, answered, &mut self.text)?;
        pass_on(sink, self.text.as_bytes())?;
        Ok(())
    }
}
