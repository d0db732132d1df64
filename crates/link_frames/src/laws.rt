// Laws of the frame grammar, over every stream of bytes.

ghost use Rattle.std.specs.Prelude.{◌≡◌, ◌≤◌, ◌<◌, ◌⊎◌, ◌+◌, ℕ, List, [], ◌∷◌, ◌++◌, length, drop, None};
ghost use Rattle.link_frames.specs.Frames.{Frame, Frames, Bad, IsFrame, IsPartial, spelling, first_reason, size_of};
ghost use Rattle.link_frames.specs.Laws.{HasFrames, IsBad};
ghost use Rattle.link_frames.specs.declared.fixed.TheConstants.{FIXED_LEN, MAX_FRAME_LEN};
ghost use Rattle.fidl_names.specs.Numbers.{AreBytes};
ghost use Rattle.link_frames.specs.declared.kinds.FrameReason.{FrameReason};
ghost use Rattle.link_frames.specs.declared.kinds.Side.{Side as TheSide};

/// Every stream of bytes has one reading for each side: one list of frames with one beginning of a further frame, or
/// one first bad fixed part with one place and reason.
pub fn one_reading()
    ensures reads { (s : TheSide) (b : List ℕ) → AreBytes b → HasFrames s b ⊎ IsBad s b }
    ensures one_list { (s : TheSide) (b : List ℕ) (frames others : List Frame) (rest left : List ℕ)
        → Frames s b frames rest → Frames s b others left → (frames ≡ others) × (rest ≡ left) }
    ensures one_fault { (s : TheSide) (b : List ℕ) (at other : ℕ) (why reason : FrameReason)
        → Bad s b at why → Bad s b other reason → (at ≡ other) × (why ≡ reason) }
    ensures not_both { (s : TheSide) (b : List ℕ) (frames : List Frame) (rest : List ℕ) (at : ℕ) (why : FrameReason)
        → Frames s b frames rest → Bad s b at why → ⊥ }
{}

/// A fixed part is sound exactly where it is a frame's: no reason stands against a frame that may go this way, and what
/// stands behind a fixed part without a reason, if it is long enough, is such a frame.
pub fn sound_fixed_parts()
    ensures no_reason { (s : TheSide) (f : Frame) (more : List ℕ) → IsFrame s f → first_reason s (spelling f ++ more) ≡ None }
    ensures size { (s : TheSide) (f : Frame) (more : List ℕ) → IsFrame s f → size_of (spelling f ++ more) ≡ length (spelling f) }
    ensures frame { (s : TheSide) (b : List ℕ) → AreBytes b → FIXED_LEN ≤ length b → first_reason s b ≡ None
        → size_of b ≤ length b → (f : Frame) × IsFrame s f × (b ≡ spelling f ++ drop (size_of b) b) }
    ensures beginning { (s : TheSide) (b : List ℕ) → AreBytes b → FIXED_LEN ≤ length b → first_reason s b ≡ None
        → length b < size_of b → IsPartial s b }
{}

/// Streams one after another: what they hold stands together, and a bad fixed part stays, whatever comes behind it.
pub fn joined_streams()
    ensures one { (s : TheSide) (f : Frame) → IsFrame s f → Frames s (spelling f) (f ∷ []) [] }
    ensures joined { (s : TheSide) (a b : List ℕ) (frames more : List Frame) (rest : List ℕ)
        → Frames s a frames [] → Frames s b more rest → Frames s (a ++ b) (frames ++ more) rest }
    ensures bad_behind { (s : TheSide) (a b : List ℕ) (frames : List Frame) (at : ℕ) (why : FrameReason)
        → Frames s a frames [] → Bad s b at why → Bad s (a ++ b) (length a + at) why }
    ensures bad_stays { (s : TheSide) (b more : List ℕ) (at : ℕ) (why : FrameReason)
        → Bad s b at why → Bad s (b ++ more) at why }
    ensures frames_stay { (s : TheSide) (b more : List ℕ) (frames all : List Frame) (rest left : List ℕ)
        → Frames s b frames rest → Frames s (b ++ more) all left → (later : List Frame) × (all ≡ frames ++ later) }
    ensures short { (s : TheSide) (rest : List ℕ) → IsPartial s rest → length rest < MAX_FRAME_LEN }
{}
