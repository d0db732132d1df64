// The law of the deframer, for users of this library that get a stream in pieces.

ghost use Rattle.std.specs.Prelude.{ℕ, List};
ghost use Rattle.link_frames.specs.Deframing.{Deframing, Call, Run, fresh, stream_of, dropped_by, Follows};
ghost use Rattle.link_frames.specs.declared.kinds.Side.{Side as TheSide};
ghost use Rattle.fidl_names.specs.Numbers.{AreBytes};

/// In any cut: whatever calls a deframer gets, the frames that were dropped and the one that is kept are those of the
/// bytes that were taken, and it is at fault exactly where these are bad.
pub fn in_any_cut()
    ensures { (s : TheSide) (calls : List Call) (now : Deframing)
        → AreBytes (stream_of calls) → Run (fresh s) calls now → Follows s (stream_of calls) (dropped_by calls) now }
{}
