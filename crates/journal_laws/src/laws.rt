//! Laws of the journal. They compute nothing: what they say is in their clauses.

ghost use Rattle.fidl_wire.specs.Names.{AreDistinct};
ghost use Rattle.journal_laws.specs.Carrying.{ServingsBindWhatTheyCarry};
ghost use Rattle.journal_laws.specs.Laws.{HangUpsWait, PlacesRise, RefusalsChangeNothing, SendingsWaitLast, ServingsTakeEffect, WhatIsSentWaits};
ghost use Rattle.journal_laws.specs.Soundness.{AcceptedStartsAreStarts, DeathsReachAll, DrainsServeAll, EndpointsAreKnown, FewWait, ServingsLowerTheWeight, SessionsAreLawful, SessionsServeAll, WhatGoesOnWaits};
ghost use Rattle.journal_laws.specs.Trees.{TreesGrowSlowly};

/// Behind a refusal all that is found by looking back is as it was.
pub fn refusals_change_nothing()
    ensures { RefusalsChangeNothing }
{}

/// What is sent waits behind all others, and no endpoint, position, tree or token is another one.
pub fn sendings_wait_last()
    ensures { SendingsWaitLast }
{}

/// Behind a serving what was served waits no more, nor what was sent on endpoints that die; they live no more; and what the outcome
/// binds, leaves, changes and gives is there.
pub fn servings_take_effect()
    ensures { ServingsTakeEffect }
{}

/// In a lawful journal what is sent has the number of the entries before it as its place, so that places rise in order of sending.
pub fn places_rise()
    ensures { PlacesRise }
{}

/// In a lawful journal a hang-up waits until its endpoint is dead.
pub fn hang_ups_wait()
    ensures { HangUpsWait }
{}

/// In a lawful journal what is dead or bound was known, the ends of mounts live, and tokens are numbers of their own; where no two names
/// have equal ordinals.
pub fn endpoints_are_known()
    ensures { AreDistinct → EndpointsAreKnown }
{}

/// In a lawful journal what a serving binds is an endpoint that the served entry carries; where no two names have equal ordinals.
pub fn servings_bind_what_they_carry()
    ensures { AreDistinct → ServingsBindWhatTheyCarry }
{}

/// In a lawful journal the one pass over what waits reaches each endpoint that dies of a serving; where no two names have equal ordinals.
pub fn deaths_reach_all()
    ensures { AreDistinct → DeathsReachAll }
{}

/// In a lawful journal each serving lowers the sum of the weights of what waits; where no two names have equal ordinals.
pub fn servings_lower_the_weight()
    ensures { AreDistinct → ServingsLowerTheWeight }
{}

/// A drain of a lawful journal leaves a lawful journal in which nothing waits: each thing that was sent was served, or its endpoint is dead;
/// where no two names have equal ordinals.
pub fn drains_serve_all()
    ensures { AreDistinct → DrainsServeAll }
{}

/// The journal that frames make is lawful, before its last drain and behind it.
pub fn sessions_are_lawful()
    ensures { SessionsAreLawful }
{}

/// At the end of a session each thing that was sent was served, or its endpoint is dead; where no two names have equal ordinals.
pub fn sessions_serve_all()
    ensures { AreDistinct → SessionsServeAll }
{}

/// The start of each tree file that is read is a start as the laws of journals want it: its files are bytes.
pub fn accepted_starts_are_starts()
    ensures { AcceptedStartsAreStarts }
{}

/// In a lawful journal what is sent next waits behind all others, where its endpoint isn't dead.
pub fn what_is_sent_waits()
    ensures { WhatIsSentWaits }
{}

/// In a lawful journal an Open that goes on behind a mount waits behind all others; where no two names have equal ordinals.
pub fn what_goes_on_waits()
    ensures { AreDistinct → WhatGoesOnWaits }
{}

/// In a lawful journal no more entries wait than may.
pub fn few_wait()
    ensures { FewWait }
{}

/// No tree has more nodes than a start's may have and the journal has places.
pub fn trees_grow_slowly()
    ensures { TreesGrowSlowly }
{}
