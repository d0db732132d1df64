//! Turns don't matter to readers: where nobody changes anything, what each endpoint is told is a matter of the frames that were sent.
#![tactic(auto)]

mod laws;

pub use laws::{
    answers_are_still, answers_are_told, arrivals_agree, beginnings_agree,
    frames_are_heard_where_they_count, frames_are_linked, frames_that_count_are_admitted,
    frames_touch_their_own, journals_are_of_frames, quiet_sessions_stay_still, servings_agree,
    servings_are_answered_still, sessions_are_steps, sessions_are_told, steps_agree,
    steps_are_lawful, where_nothing_waits_all_is_told,
};
