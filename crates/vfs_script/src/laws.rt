// What holds of every script.

ghost use Rattle.std.specs.Prelude.{ℕ, List, All};
ghost use Rattle.fidl_names.specs.Numbers.{AreBytes};
ghost use Rattle.link_frames.specs.Frames.{IsFrame, spellings};
ghost use Rattle.link_frames.specs.declared.kinds.Side.TheVariants as side;
ghost use Rattle.vfs_script.specs.Scripts.{AreApart, calls_of, frames_of};

/// No two calls of a script have one transaction id, since that is the number of a line. It
/// computes nothing.
pub fn calls_are_apart()
    ensures { (text : List ℕ) → AreApart (calls_of text) }
{}

/// What a script stands for are frames that may go to the servers. It computes nothing.
pub fn frames_go_to_servers()
    ensures { (text : List ℕ) → AreBytes (spellings (frames_of text)) → All (IsFrame side.ToServers) (frames_of text) }
{}
