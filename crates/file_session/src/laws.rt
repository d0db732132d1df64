// A law of the session of one file, in its client's words.

ghost use Rattle.std.specs.Prelude.{◌≡◌, ℕ, List, ◌++◌};
ghost use Rattle.link_frames.specs.Frames.{Frame};
ghost use Rattle.file_session.specs.OneFile.{answers, after, at_start};
ghost use Rattle.file_session.specs.Seen.{reads_of, epitaph_of, messages_of, replies, position_after_all};

/// The messages that come back are the replies to the Reads that were sent before the endpoint
/// ended, in order, and then the epitaph, if a message ended it. The position is where these Reads
/// left it.
pub fn each_read_is_answered_once()
    ensures messages { (file : List ℕ) (frames : List Frame) →
        messages_of (answers file at_start frames) ≡ replies file 0 (reads_of frames) ++ epitaph_of frames }
    ensures position { (file : List ℕ) (frames : List Frame) →
        (after file at_start frames).position.offset ≡ position_after_all file 0 (reads_of frames) }
{}
