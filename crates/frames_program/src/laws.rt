//! What becomes of the frames of a script in the pipe `frames SCRIPT | vfs serve TREE MODE | vfs show`. The laws compute nothing.

ghost use Rattle.std.specs.Prelude.{◌≡◌, ◌<◌, ℕ, List, length, Some};
ghost use Rattle.fidl_names.specs.declared.limits.TheConstants as limit;
ghost use Rattle.link_frames.specs.declared.kinds.Mode.{Mode};
ghost use Rattle.link_frames.specs.declared.kinds.Side.TheVariants as side;
ghost use Rattle.link_session.specs.Session.{IsWhole};
ghost use Rattle.vfs_program.specs.Words.{ServeOf};
ghost use Rattle.frames_program.specs.Pipes.{Feeds, Finds, IsButForCounts, IsDone, IsMade, IsPiped, Pipe, Run, Writes};

/// In the script's mode, and over the same tree, the pipe writes what `vfs run TREE SCRIPT` writes but for its last line.
pub fn pipes_write_transcripts()
    ensures { (tree script : List ℕ) (pipe : Pipe) (lines transcript : List ℕ) → IsPiped tree script pipe →
        Writes pipe.show lines → Writes pipe.run transcript → IsButForCounts lines transcript }
{}

/// What `frames` writes is whole frames, and few enough, which is what `vfs serve` needs of its input to be done.
pub fn scripts_can_be_served()
    ensures { (script text : List ℕ) (frames serve : Run) → Finds script text frames → IsMade script frames → Feeds frames serve →
        IsWhole side.ToServers serve.before.streams }
{}

/// What `vfs serve` writes is whole frames, which is what `vfs show` needs of its input where that has fewer than 2^40 bytes.
pub fn sessions_can_be_shown()
    ensures { (tree : List ℕ) (by : Mode) (serve show : Run) (fed : Feeds serve show) → IsDone (ServeOf tree by) serve →
        length fed.bytes < limit.MAX_INPUT → IsWhole side.Any show.before.streams }
{}
