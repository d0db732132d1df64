//! The frames of a script, heard one by one in a session over a tree.

ghost use Rattle.std.specs.Prelude.{◌≡◌, ◌<◌, ◌+◌, ℕ, List, Option, Some, [], All, IfOk, OnOk, OnErr, length, slice_get};
ghost use Rattle.std.specs.Io.KnownBytes.{Appends};
ghost use Rattle.link_frames.specs.Frames.{IsFrame};
ghost use Rattle.link_frames.specs.Views.{frame_of};
ghost use Rattle.link_frames.specs.declared.kinds.Side.TheVariants as side;
ghost use Rattle.host_io.specs.Streams.{AppendsPart, IsFlushed};
ghost use Rattle.io_client.specs.Calls.{none_yet};
ghost use Rattle.session_start.specs.Accepted.{HasFilesOfBytes};
ghost use Rattle.vfs_journal.specs.Starts.{Start as TheStart, start_of};
ghost use Rattle.vfs_script.specs.Noting.{IsFree};
ghost use Rattle.vfs_script.specs.Scripts.{Spoken, call_in, count_calls, frame_of as spoken_frame, frames_of, script_lines};
ghost use Rattle.vfs_script.specs.declared.calls.Call.{Call};
ghost use Rattle.vfs_world.specs.World.{StandsFor};
ghost use Rattle.script_session.specs.Answering.{count_calls as calls_made, one_of};
ghost use Rattle.script_session.specs.Telling.{HasSinkCause, IsOver, IsTold, IsWithin, last_of};
ghost use Rattle.script_session.specs.Transcript.{lines_of, text_of};
ghost use Rattle.script_session.specs.Playing.{Played, drain_played, not_yet, play_line, play_lines, transcript};
ghost use Rattle.script_session.specs.Steps.{IsScript, Plays};

use crate::faults::TranscriptFault;
use crate::scribe::Scribe;
use fidl_names::{MAX_FRAMES, NoMemory};
use fidl_wire::Ordinals;
use host_io::Sink;
use link_frames::{FrameView, Mode, Outbox, Reading, Side, frame_at};
use session_start::Start;
use std::alloc::Global;
use vfs_script::Script;
use vfs_world::World;

/// Plays a script over the tree of an accepted start, and writes its transcript. It is written as
/// the session goes on, in pieces that don't grow with it.
///
/// The script is one that `script_of` read from a text. What it stands for are frames that may go
/// to the servers.
pub fn play<K: Sink>(
    alloc: Global,
    ordinals: Ordinals,
    start: &Start,
    script: &Script,
    sink: &mut K,
) -> Result<(), TranscriptFault>
    requires { (text : List ℕ) × IsScript text script.now }
    ensures bytes { HasFilesOfBytes start.now }
    ensures whole { (text : List ℕ) → IsScript text script.now →
        OnOk result (Appends (K.written sink.old) (K.written sink.new) (transcript (start_of start.now) script.now.mode text)) }
    ensures flushed { OnOk result (IsFlushed (K.written sink.new) (K.flushed sink.new)) }
    ensures part { (text : List ℕ) → IsScript text script.now →
        OnErr result (AppendsPart (K.written sink.old) (K.written sink.new) (transcript (start_of start.now) script.now.mode text)) }
    ensures cause { HasSinkCause (K.faults sink.old) (K.faults sink.new) result }
    ensures sent { (text : List ℕ) → IsScript text script.now → All (IsFrame side.ToServers) (frames_of text) }
{
    let bytes = script.frames();
    let mut player = Player::new(alloc, ordinals, start, script.mode())?;
    player.play_all(script, bytes, sink)
}

/// A session over a tree whose frames come from a script.
#[derive(Drop)]
struct Player {
    world: World,
    mode: Mode,
    outbox: Outbox,
    scribe: Scribe,
}

impl Player {
    /// Nothing was played yet.
    fn new(alloc: Global, ordinals: Ordinals, start: &Start, mode: Mode) -> Result<Player, NoMemory>
        ensures mode { IfOk result (λ player. player.mode ≡ mode) }
        ensures bytes { HasFilesOfBytes start.now }
        ensures stands { IfOk result (λ player. StandsFor (start_of start.now) player.world []) }
        ensures frames { IfOk result (λ player. player.world.frames ≡ 0) }
        ensures scribe { IfOk result (λ player. player.scribe ≡ record { calls = none_yet; gathered = [] }) }
    {
        let world = World::new(alloc, ordinals, start)?;
        let scribe = Scribe::new(alloc, ordinals)?;
        Ok(Player {
            world,
            mode,
            outbox: Outbox::new(alloc),
            scribe,
        })
    }

    /// Plays a script to its end, where these bytes are its frames.
    fn play_all<K: Sink>(
        &mut self,
        script: &Script,
        bytes: &[u8],
        sink: &mut K,
    ) -> Result<(), TranscriptFault>
        requires bytes { bytes.now ≡ script.now.bytes }
        requires script { (text : List ℕ) × IsScript text script.now }
        requires frames { self.old.world.frames ≡ 0 }
        requires client { self.old.scribe.calls ≡ none_yet }
        ensures whole { (start : TheStart) (text : List ℕ) (first : Option (List ℕ)) → IsScript text script.now → Plays start not_yet self.old.world self.old.scribe.calls →
            IsTold first (K.written sink.old) self.old.scribe.gathered [] →
            OnOk result (Appends first (K.written sink.new) (transcript start self.old.mode text)) }
        ensures flushed { OnOk result (IsFlushed (K.written sink.new) (K.flushed sink.new)) }
        ensures part { (start : TheStart) (text : List ℕ) (first : Option (List ℕ)) → IsScript text script.now → Plays start not_yet self.old.world self.old.scribe.calls →
            IsTold first (K.written sink.old) self.old.scribe.gathered [] →
            OnErr result (AppendsPart first (K.written sink.new) (transcript start self.old.mode text)) }
        ensures cause { HasSinkCause (K.faults sink.old) (K.faults sink.new) result }
    {
        self.play_lines(script, bytes, sink)?;
        self.end(script.calls(), sink)
    }

    /// Plays each line of a script, where these bytes are its frames.
    fn play_lines<K: Sink>(
        &mut self,
        script: &Script,
        bytes: &[u8],
        sink: &mut K,
    ) -> Result<(), TranscriptFault>
        requires bytes { bytes.now ≡ script.now.bytes }
        requires script { (text : List ℕ) × IsScript text script.now }
        requires frames { self.old.world.frames ≡ 0 }
        requires client { self.old.scribe.calls ≡ none_yet }
        ensures plays { (start : TheStart) (text : List ℕ) → IsScript text script.now → Plays start not_yet self.old.world self.old.scribe.calls →
            OnOk result (Plays start (play_lines start self.old.mode (script_lines text)) self.new.world self.new.scribe.calls) }
        ensures told { (start : TheStart) (text : List ℕ) (first : Option (List ℕ)) → IsScript text script.now → Plays start not_yet self.old.world self.old.scribe.calls →
            IsTold first (K.written sink.old) self.old.scribe.gathered [] →
            OnOk result (IsTold first (K.written sink.new) self.new.scribe.gathered (lines_of (play_lines start self.old.mode (script_lines text)).past)) }
        ensures part { (start : TheStart) (text : List ℕ) (first : Option (List ℕ)) → IsScript text script.now → Plays start not_yet self.old.world self.old.scribe.calls →
            IsTold first (K.written sink.old) self.old.scribe.gathered [] →
            OnErr result (AppendsPart first (K.written sink.new) (lines_of (play_lines start self.old.mode (script_lines text)).past)) }
        ensures within { OnOk result ((low : ℕ) × IsWithin low (count_calls script.now.calls) self.new.scribe.calls) }
        ensures cause { HasSinkCause (K.faults sink.old) (K.faults sink.new) result }
    {
        let mut rest = bytes;
        for i in 0..script.len() {
            let Reading::Whole { frame, size } = frame_at(Side::ToServers, rest) else {
                unreachable!();
            };
            self.play_line(script, i, frame, sink)?;
            rest = &rest[size..];
        }
        Ok(())
    }

    /// Plays a line: its frame is sent and heard, and what is written for it comes back.
    fn play_line<K: Sink>(
        &mut self,
        script: &Script,
        i: u32,
        frame: FrameView<'_>,
        sink: &mut K,
    ) -> Result<(), TranscriptFault>
        requires frame { IsFrame side.ToServers (frame_of frame) }
        requires place { i < length script.now.calls }
        requires free { IsFree self.old.scribe.calls (slice_get script.now.calls i) }
        requires few { self.old.world.frames < MAX_FRAMES }
        ensures plays { (start : TheStart) (played : Played) (said : Spoken) → Plays start played self.old.world self.old.scribe.calls →
            spoken_frame said ≡ frame_of frame.entry → slice_get script.now.calls i ≡ Some (call_in said) →
            OnOk result (Plays start (play_line start self.old.mode played said) self.new.world self.new.scribe.calls) }
        ensures told { (start : TheStart) (played : Played) (said : Spoken) (first : Option (List ℕ)) → Plays start played self.old.world self.old.scribe.calls →
            spoken_frame said ≡ frame_of frame.entry → slice_get script.now.calls i ≡ Some (call_in said) →
            IsTold first (K.written sink.old) self.old.scribe.gathered (lines_of played.past) →
            OnOk result (IsTold first (K.written sink.new) self.new.scribe.gathered (lines_of (play_line start self.old.mode played said).past)) }
        ensures part { (start : TheStart) (played : Played) (said : Spoken) (first : Option (List ℕ)) → Plays start played self.old.world self.old.scribe.calls →
            spoken_frame said ≡ frame_of frame.entry → slice_get script.now.calls i ≡ Some (call_in said) →
            IsTold first (K.written sink.old) self.old.scribe.gathered (lines_of played.past) →
            OnErr result (AppendsPart first (K.written sink.new) (lines_of (play_line start self.old.mode played said).past)) }
        ensures within { (low most : ℕ) (call : Option Call) → slice_get script.now.calls i ≡ Some call → IsOver low call → IsWithin low most self.old.scribe.calls →
            OnOk result (IsWithin (last_of low call) (most + one_of call) self.new.scribe.calls) }
        ensures frames { OnOk result (self.new.world.frames ≡ self.old.world.frames + 1) }
        ensures mode { self.new.mode ≡ self.old.mode }
        ensures cause { HasSinkCause (K.faults sink.old) (K.faults sink.new) result }
    {
        self.scribe.sends(script, i)?;
        self.outbox.clear();
        let Ok(()) = self.world.hear(self.mode, frame, &mut self.outbox) else {
            return Err(TranscriptFault::NoMemory);
        };
        self.scribe.gets_all(self.outbox.as_bytes(), sink)
    }

    /// Serves all that waits, and ends the transcript.
    fn end<K: Sink>(&mut self, calls: u32, sink: &mut K) -> Result<(), TranscriptFault>
        requires { (low : ℕ) × IsWithin low calls self.old.scribe.calls }
        ensures whole { (start : TheStart) (played : Played) (first : Option (List ℕ)) → Plays start played self.old.world self.old.scribe.calls →
            calls_made played.past ≡ calls → IsTold first (K.written sink.old) self.old.scribe.gathered (lines_of played.past) →
            OnOk result (Appends first (K.written sink.new) (text_of (drain_played start played))) }
        ensures flushed { OnOk result (IsFlushed (K.written sink.new) (K.flushed sink.new)) }
        ensures part { (start : TheStart) (played : Played) (first : Option (List ℕ)) → Plays start played self.old.world self.old.scribe.calls →
            calls_made played.past ≡ calls → IsTold first (K.written sink.old) self.old.scribe.gathered (lines_of played.past) →
            OnErr result (AppendsPart first (K.written sink.new) (text_of (drain_played start played))) }
        ensures cause { HasSinkCause (K.faults sink.old) (K.faults sink.new) result }
    {
        self.outbox.clear();
        let Ok(()) = self.world.drain(&mut self.outbox) else {
            return Err(TranscriptFault::NoMemory);
        };
        self.scribe.gets_all(self.outbox.as_bytes(), sink)?;
        self.scribe.finish(calls, sink)
    }
}
