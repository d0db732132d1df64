//! What holds of every transcript.

ghost use Rattle.std.specs.Prelude.{◌≡◌, ◌++◌, ℕ, List};
ghost use Rattle.std.specs.List.{flat_map};
ghost use Rattle.link_frames.specs.declared.kinds.Mode.{Mode};
ghost use Rattle.vfs_journal.specs.Session.{ended};
ghost use Rattle.vfs_journal.specs.Starts.{Start};
ghost use Rattle.vfs_script.specs.Scripts.{calls_of, count_calls, frames_of, script_lines};
ghost use Rattle.vfs_script.specs.Transcripts.{counts_line, frame_line};
ghost use Rattle.script_session.specs.Answering.{count_answers};
ghost use Rattle.script_session.specs.Playing.{play_all, transcript};
ghost use Rattle.vfs_journal.specs.Output.{frames_behind};

/// A transcript is the lines of all frames that the session of its script's frames writes, in
/// order, and then how many calls the script makes and how many frames answer one. It computes
/// nothing.
pub fn transcripts_show_the_output()
    ensures { (start : Start) (by : Mode) (text : List ℕ) →
        transcript start by text ≡ flat_map frame_line (frames_behind start (ended start by (frames_of text)))
        ++ counts_line (count_calls (calls_of text)) (count_answers (play_all start by (script_lines text))) }
{}
