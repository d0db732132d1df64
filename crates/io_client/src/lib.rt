//! A client of `fuchsia.io` over one link.
//!
//! A `Client` writes requests as frames into an `Outbox`, and tells what each frame that comes back is. It
//! knows which calls wait for their reply, by endpoint and transaction id, and which endpoints get the
//! messages of a watch. It needs nothing else, and replies may come in any order.
//!
//! # An exchange
//!
//! Endpoint 1 is a directory. Its file `d/f` is opened as endpoint 2, and read at once: the server lets the
//! Read wait until the Open was served. What happens in the directory is to come on endpoint 3. The numbers
//! of new endpoints and of transactions are the client's to choose.
//!
//! ```
//! let ordinals = Ordinals::new()?;
//! let mut client = Client::new(alloc)?;
//! let mut outbox = Outbox::new(alloc);
//! let open = Request::OpenPath {
//!     path: b"d/f",
//!     flags: 0x1_0000_0000_0012, // a file, to read, and tell what it is
//!     attributes: None,
//!     object: 2,
//! };
//! client.send(&ordinals, 1, 0, open, &mut outbox)?;
//! client.send(&ordinals, 2, 4, Request::Read { count: 100 }, &mut outbox)?;
//! let watch = Request::Watch {
//!     mask: 31, // all that can happen
//!     options: 0,
//!     watcher: 3,
//! };
//! client.send(&ordinals, 1, 3, watch, &mut outbox)?;
//! ```
//!
//! Two calls wait now. `link_frames::frame_at` reads each frame that comes back where it stands, and
//! `client.take(&ordinals, frame)` answers what it is:
//!
//! | On | What is taken |
//! |---|---|
//! | 2 | `Taken::Event(Protocol::File)`: the file is open. Had that failed, it would be `Taken::Epitaph` and `Taken::Closed` |
//! | 2 | `Taken::Reply(4, Reply::Payload(Method::Read, bytes))`: its bytes, `hello world` |
//! | 1 | `Taken::Reply(3, Reply::Settled(Method::Watch))`: the watch is there |
//! | 3 | `Taken::Watch(events)`: events 3 with the names `.` and `d`, which are there |
//! | 3 | `Taken::Watch(events)`: event 4 without a name, that these were all |
//!
//! No call waits any more. The file is done with:
//!
//! ```
//! client.hang_up(2, &mut outbox)?;
//! ```
//!
//! Messages on endpoint 3 are `Taken::Watch` from then on. A test runs this exchange byte by byte.
#![tactic(auto)]

mod calls;
mod client;
mod faults;
mod taking;

pub use client::{Client, watcher_of};
pub use faults::ClientFault;
pub use taking::Taken;
