//! FIDL wire format, version 2: headers, layouts and how they are spelled and read, outputs, epitaphs and the
//! ordinals of names. `Body` reads the body of a message.
#![tactic(auto)]

mod blanks;
mod cursor;
mod envelopes;
mod epitaphs;
mod faults;
mod hashing;
mod headers;
mod kinds;
mod ordinals;
mod output;
mod padding;
mod reading;
mod tables;
mod texts;

pub use cursor::Body;
pub use epitaphs::{EPITAPH_ORDINAL, epitaph, read_epitaph};
pub use faults::{WireFault, WireWhat};
pub use fidl_names::{Handle, Method, NoMemory, Status};
pub use hashing::ordinal;
pub use headers::{HEADER_SIZE, Header, MAGIC};
pub use kinds::{HandleKind, Member, MemberKind, is_kind};
pub use ordinals::{OrdinalFault, Ordinals};
pub use output::Out;
pub use padding::padding_after;
pub use reading::{Branch, Opened, Outside};
pub use texts::is_utf8;
