//! The methods of `fuchsia.io`, in this project's profile: which protocol has which, what a request asks, and
//! what a reply or the event says, and how all of them are written. `request_reader` reads requests, and `io_replies`
//! reads replies and the event.
#![tactic(auto)]

mod failing;
mod fields;
mod kinds;
mod protocols;
mod replies;
mod reply_writer;
mod request_writer;
mod requests;

pub use failing::{Failing, failing_of};
pub use kinds::{branch_of_kind, kind_with};
pub use protocols::{Protocol, has_method};
pub use replies::{
    Attributes, ERROR, FRAMEWORK_ENVELOPE, FRAMEWORK_ORDINAL, ORDINAL_PLACE, Reply, SUCCESS, Shape,
    is_one_way, shape_of,
};
pub use reply_writer::{begin_listing, write_bytes, write_event, write_reply};
pub use request_writer::write_request;
pub use requests::{Request, RequestFault, TooLong};
