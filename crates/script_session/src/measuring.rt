//! The output of a script, told by its size and its hash.

ghost use Rattle.std.specs.Prelude.{◌≡◌, ℕ, List, All, IfOk};
ghost use Rattle.link_frames.specs.Frames.{IsFrame};
ghost use Rattle.link_frames.specs.declared.kinds.Side.TheVariants as side;
ghost use Rattle.vfs_journal.specs.Starts.{start_of};
ghost use Rattle.vfs_script.specs.Scripts.{frames_of};
ghost use Rattle.script_session.specs.Measured.{Measures, output_frames};
ghost use Rattle.script_session.specs.Steps.{IsScript};

use crate::meter::Meter;
use fidl_names::NoMemory;
use fidl_wire::Ordinals;
use session_start::Start;
use std::alloc::Global;
use vfs_script::Script;

/// What is told of output frames: how many there are, how many bytes they have, and the SHA-256 of
/// these. The sums are wider than 64 bits, since nothing but memory bounds what each line of a
/// script makes the servers write.
#[derive(Clone, Copy)]
pub struct Measured {
    pub frames: u128,
    pub bytes: u128,
    pub hash: [u8; 32],
}

/// Plays a script over the tree of an accepted start, and measures its output. The output is hashed
/// as the session goes on, and isn't kept.
///
/// The script is one that `script_of` read from a text. What it stands for are frames that may go
/// to the servers.
pub fn measure(
    alloc: Global,
    ordinals: Ordinals,
    start: &Start,
    script: &Script,
) -> Result<Measured, NoMemory>
    requires { (text : List ℕ) × IsScript text script.now }
    ensures measured { (text : List ℕ) → IsScript text script.now →
        IfOk result (Measures (output_frames (start_of start.now) script.now.mode text)) }
    ensures sent { (text : List ℕ) → IsScript text script.now → All (IsFrame side.ToServers) (frames_of text) }
{
    let bytes = script.frames();
    let mut meter = Meter::new(alloc, ordinals, start, script.mode())?;
    meter.hear_script(script, bytes)
}
