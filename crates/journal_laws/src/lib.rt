//! Laws of the journal: what holds of every start, history and lawful journal. Of a server that keeps what it knows of endpoints, and of the
//! view of a past, the lemmas in `proofs/` speak.
#![tactic(auto)]

mod laws;

pub use laws::{
    accepted_starts_are_starts, deaths_reach_all, drains_serve_all, endpoints_are_known, few_wait,
    hang_ups_wait, places_rise, refusals_change_nothing, sendings_wait_last,
    servings_bind_what_they_carry, servings_lower_the_weight, servings_take_effect,
    sessions_are_lawful, sessions_serve_all, trees_grow_slowly, what_goes_on_waits,
    what_is_sent_waits,
};
