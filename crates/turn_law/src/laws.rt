//! Laws of sessions in which nobody changes anything. They compute nothing: what they say is in their clauses.

ghost use Rattle.fidl_wire.specs.Names.{AreDistinct};
ghost use Rattle.turn_law.specs.Answers.{AnswersAreTold, JournalsAreOfFrames, SessionsAreTold};
ghost use Rattle.turn_law.specs.Counting.{FramesAreHeardWhereTheyCount, FramesAreLinked, FramesThatCountAreAdmitted};
ghost use Rattle.turn_law.specs.Invariant.{ArrivalsAgree, BeginningsAgree, ServingsAgree, ServingsAreAnsweredStill, StepsAgree, WhereNothingWaitsAllIsTold};
ghost use Rattle.turn_law.specs.Quiet.{QuietSessionsStayStill};
ghost use Rattle.turn_law.specs.Room.{AnswersAreStill};
ghost use Rattle.turn_law.specs.Tables.{FramesTouchTheirOwn};
ghost use Rattle.turn_law.specs.Steps.{SessionsAreSteps, StepsAreLawful};

/// Where clients send no request that changes something, the trees stay those of the start, no token is given, nobody watches, and what goes
/// on behind mounts changes nothing either; where no two names have equal ordinals.
pub fn quiet_sessions_stay_still()
    ensures { AreDistinct → QuietSessionsStayStill }
{}

/// Whatever frames arrive and first entries are served, step by step: the journal is lawful.
pub fn steps_are_lawful()
    ensures { StepsAreLawful }
{}

/// A session in either mode, with its last drain and without, is made by steps of which its Message and Close frames are those.
pub fn sessions_are_steps()
    ensures { SessionsAreSteps }
{}

/// A request that changes nothing, on a server with its first tree, is answered as if nothing else were in use, or its answer tells of a
/// limit.
pub fn answers_are_still()
    ensures { AnswersAreStill }
{}

/// Where no handle stands twice, nothing changes and no limit is met, a number that was used is a first connection or one that a frame
/// carried, and frames count on a live endpoint unless its client hung up; where no two names have equal ordinals.
pub fn frames_are_linked()
    ensures { AreDistinct → FramesAreLinked }
{}

/// There a frame is admitted where its endpoint is live and it counts. So one that doesn't count is refused, and one that counts only on an
/// endpoint that is dead, or that no admitted frame carried.
pub fn frames_that_count_are_admitted()
    ensures { AreDistinct → FramesThatCountAreAdmitted }
{}

/// In the table a frame changes what is said of the endpoint that it is sent on and of those that it carries, and of no other client's.
pub fn frames_touch_their_own()
    ensures { FramesTouchTheirOwn }
{}

/// A frame is heard just where its endpoint has a life in the table, and the frame counts there as far as frames say: behind the frame that
/// carries its endpoint, before a Close, and with new handles.
pub fn frames_are_heard_where_they_count()
    ensures { FramesAreHeardWhereTheyCount }
{}

/// Before the first step each endpoint is as the table says.
pub fn beginnings_agree()
    ensures { BeginningsAgree }
{}

/// Where each endpoint is as the table says, it is so behind each frame that arrives, be it sent or refused, where no handle stands twice,
/// nothing changes and no limit is met; where no two names have equal ordinals.
pub fn arrivals_agree()
    ensures { AreDistinct → ArrivalsAgree }
{}

/// Where each endpoint is as the table says, and nothing waits, the messages written on each endpoint are those that it is told; where no two
/// names have equal ordinals.
pub fn where_nothing_waits_all_is_told()
    ensures { AreDistinct → WhereNothingWaitsAllIsTold }
{}

/// Where nothing changes and no limit is met, a serving is answered as in a moment with the start's tree and nothing in use, and the
/// messages of that answer are all that is written; where no two names have equal ordinals.
pub fn servings_are_answered_still()
    ensures { AreDistinct → ServingsAreAnsweredStill }
{}

/// Where each endpoint is as the table says, it is so behind each serving of what waits first on an
/// endpoint, where no handle stands twice, nothing changes and no limit is met; where no two names have
/// equal ordinals.
pub fn servings_agree()
    ensures { AreDistinct → ServingsAgree }
{}

/// So each endpoint is as the table says behind all steps.
pub fn steps_agree()
    ensures { AreDistinct → StepsAgree }
{}

/// Turns don't matter to readers: of each journal that frames and servings made, in whatever order, where
/// no handle stands twice, nothing changes, no limit is met and nothing waits at the end, the messages on
/// each endpoint are those that it is told behind these frames; where no two names have equal ordinals.
pub fn answers_are_told()
    ensures { AreDistinct → AnswersAreTold }
{}

/// So of each ended session, in either mode.
pub fn sessions_are_told()
    ensures { AreDistinct → SessionsAreTold }
{}

/// Each lawful journal is made by frames and servings.
pub fn journals_are_of_frames()
    ensures { JournalsAreOfFrames }
{}
