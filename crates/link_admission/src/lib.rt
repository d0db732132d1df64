//! Admission: what is known of the numbers of endpoints and tokens, and which frames are admitted by it.
#![tactic(auto)]

mod admission;
mod endpoints;
mod kinds;
mod levels;
mod page;
mod pages;
mod standings;
mod tokens;

pub use admission::{LookUp, first_refusal};
pub use endpoints::Endpoints;
pub use kinds::{AdmitFault, Standing, TokenFault};
