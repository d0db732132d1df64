//! Exchanges that were written down by hand: what is sent, and what each frame that comes back is.
ghost use Rattle.std.specs.Prelude.{◌≡◌, IsTrue, true};
ghost use Rattle.io_messages.specs.Asked.{asked, method_of};
ghost use Rattle.io_messages.specs.Requests.{has_txid};
ghost use Rattle.io_messages.specs.Shapes.{is_one_way};
ghost use Rattle.io_messages.specs.Writing.{HasTexts};

mod rows;

use crate::client::rows::{EACH, EXCHANGE, FILE, TAKEN};
use fidl_names::Method;
use fidl_wire::Ordinals;
use io_client::{Client, Taken};
use io_messages::{Reply, Request, is_one_way};
use link_frames::{FrameKind, Outbox, Reading, Side, frame_at};
use std::alloc::Global;
use std::test::Fail;
use test_rows::{Row, Table, all_hold};

/// The requests of rows, each method's beside those of `writes`. The file is to be read, and to
/// tell what it is; an Open makes endpoint 2.
const REQUESTS: [(&str, Request<'static>); 20] = [
    (
        "open d/f",
        Request::OpenPath {
            path: b"d/f",
            flags: 0x1_0000_0000_0012,
            attributes: None,
            object: 2,
        },
    ),
    (
        "open d",
        Request::OpenPath {
            path: b"d",
            flags: 0x1c0,
            attributes: None,
            object: 2,
        },
    ),
    ("attributes", Request::GetAttributes { query: 0x37 }),
    ("read", Request::Read { count: 100 }),
    ("query", Request::Query),
    ("close", Request::Close),
    ("sync", Request::Sync),
    (
        "watch",
        Request::Watch {
            mask: 31,
            options: 0,
            watcher: 3,
        },
    ),
    ("clone", Request::Clone { request: 5 }),
    ("entries", Request::ReadDirents { max_bytes: 8192 }),
    ("rewind", Request::Rewind),
    ("token", Request::GetToken),
    (
        "rename",
        Request::Rename {
            src: b"a",
            token: 0x8000_0000,
            dst: b"b",
        },
    ),
    (
        "link",
        Request::Link {
            src: b"f",
            token: 0x8000_0001,
            dst: b"g",
        },
    ),
    (
        "unlink",
        Request::Unlink {
            name: b"f",
            flags: 0,
        },
    ),
    (
        "unlink a directory",
        Request::Unlink {
            name: b"f",
            flags: 1,
        },
    ),
    (
        "read at",
        Request::ReadAt {
            count: 5,
            offset: 6,
        },
    ),
    (
        "write at",
        Request::WriteAt {
            bytes: b"!!",
            offset: 65535,
        },
    ),
    (
        "seek",
        Request::Seek {
            origin: 1,
            offset: -1,
        },
    ),
    ("resize", Request::Resize { length: 65537 }),
];

const METHODS: [(&str, Method); 6] = [
    ("GetAttributes", Method::GetAttributes),
    ("Read", Method::Read),
    ("Query", Method::Query),
    ("Close", Method::Close),
    ("Sync", Method::Sync),
    ("Watch", Method::Watch),
];

/// A client, and the frames that it sent.
#[derive(Drop)]
struct Caller {
    ordinals: Ordinals,
    client: Client,
    outbox: Outbox,
}

/// The texts of a request are UTF-8.
fn has_texts(request: &Request<'_>) -> bool
    ensures { IsTrue result → HasTexts (asked request.now) }
{
    match request {
        Request::OpenPath { path, .. } => str::from_utf8(path).is_ok(),
        Request::Rename { src, dst, .. } | Request::Link { src, dst, .. } => {
            str::from_utf8(src).is_ok() && str::from_utf8(dst).is_ok()
        }
        Request::Unlink { name, .. } => str::from_utf8(name).is_ok(),
        Request::EchoString { value } => str::from_utf8(value).is_ok(),
        _ => true,
    }
}

/// A request has the transaction id 0 exactly where it is one-way.
fn has_txid(txid: u32, request: &Request<'_>) -> bool
    ensures { IsTrue result → has_txid (is_one_way (method_of (asked request.now))) txid ≡ true }
{
    (txid == 0) == is_one_way(request.method())
}

/// The request of a row. The table stands here alone, since what is proved of a function goes over
/// all that it has.
fn request(row: &Row<'_>) -> Option<Request<'static>> {
    row.named(4, &REQUESTS)
}

fn method(row: &Row<'_>) -> Option<Method> {
    row.named(4, &METHODS)
}

/// A number of 32 bits.
fn number(row: &Row<'_>, at: usize) -> Option<u32> {
    match row.number(at) {
        Some(number) if number <= u64::from(u32::MAX) => Some(number as u32),
        _ => None,
    }
}

/// What a frame is to the client, if it is one that servers send.
fn taken<'a>(ordinals: &Ordinals, client: &mut Client, bytes: &'a [u8]) -> Option<Taken<'a>> {
    match frame_at(Side::Any, bytes) {
        Reading::Whole { frame, .. } => match frame.kind {
            FrameKind::Message | FrameKind::Close | FrameKind::Refused => {
                Some(client.take(ordinals, frame))
            }
            FrameKind::Turn | FrameKind::Pick => None,
        },
        _ => None,
    }
}

impl Caller {
    /// Whether sending the row's request writes its frame, or is refused as that says.
    fn sends(&mut self, alloc: Global, row: &Row<'_>) -> bool {
        match request(row) {
            Some(request) => self.sends_one(alloc, row, request),
            None => false,
        }
    }

    /// Whether a Write of the row's bytes is sent as that says.
    fn writes(&mut self, alloc: Global, row: &Row<'_>) -> bool {
        match row.bytes(alloc, 4) {
            Some(bytes) => self.sends_one(alloc, row, Request::Write { bytes: &bytes }),
            None => false,
        }
    }

    /// Whether an EchoString of the row's bytes is sent as that says.
    fn echoes(&mut self, alloc: Global, row: &Row<'_>) -> bool {
        match row.bytes(alloc, 4) {
            Some(bytes) => self.sends_one(alloc, row, Request::EchoString { value: &bytes }),
            None => false,
        }
    }

    fn sends_one(&mut self, alloc: Global, row: &Row<'_>, request: Request<'_>) -> bool {
        let (Some(endpoint), Some(txid)) = (number(row, 2), number(row, 3)) else {
            return false;
        };
        if !has_texts(&request) || !has_txid(txid, &request) {
            return false;
        }
        match self
            .client
            .send(&self.ordinals, endpoint, txid, request, &mut self.outbox)
        {
            Ok(()) => self.has_sent(alloc, row, 5),
            Err(fault) => row.says(alloc, 5, &fault),
        }
    }

    /// Whether what was sent since the last time is the frame of a cell.
    fn has_sent(&mut self, alloc: Global, row: &Row<'_>, at: usize) -> bool {
        let same = row.has_bytes(alloc, at, self.outbox.as_bytes());
        self.outbox.clear();
        same
    }

    /// Whether noting a call answers what its row says.
    fn notes(&mut self, alloc: Global, row: &Row<'_>) -> bool {
        match (number(row, 2), number(row, 3), method(row)) {
            (Some(endpoint), Some(txid), Some(method)) if txid > 0 && !is_one_way(method) => {
                let noted = self.client.note(endpoint, txid, method, number(row, 5));
                row.says(alloc, 6, &noted)
            }
            _ => false,
        }
    }

    /// Whether hanging up writes its row's frame.
    fn hangs_up(&mut self, alloc: Global, row: &Row<'_>) -> bool {
        match number(row, 2) {
            Some(endpoint) => {
                self.client.hang_up(endpoint, &mut self.outbox).is_ok()
                    && self.has_sent(alloc, row, 3)
            }
            None => false,
        }
    }

    /// Whether the row's frame is to the client what the row says.
    fn takes(&mut self, alloc: Global, row: &Row<'_>) -> bool {
        let Some(bytes) = row.bytes(alloc, 2) else {
            return false;
        };
        match taken(&self.ordinals, &mut self.client, &bytes) {
            Some(taken) => row.says(alloc, 3, &taken),
            None => false,
        }
    }
}

impl Table for Caller {
    fn holds(&mut self, alloc: Global, row: &Row<'_>) -> bool {
        if row.is(1, "send") {
            self.sends(alloc, row)
        } else if row.is(1, "write") {
            self.writes(alloc, row)
        } else if row.is(1, "echo") {
            self.echoes(alloc, row)
        } else if row.is(1, "note") {
            self.notes(alloc, row)
        } else if row.is(1, "waiting") {
            row.number(2) == Some(self.client.waiting() as u64)
        } else if row.is(1, "hang up") {
            self.hangs_up(alloc, row)
        } else {
            row.is(1, "take") && self.takes(alloc, row)
        }
    }
}

/// Tries the rows of a text, which one client does in order.
fn exchanges_go(alloc: Global, text: &[u8]) -> Result<(), Fail> {
    let ordinals = Ordinals::new()?;
    let client = Client::new(alloc)?;
    let outbox = Outbox::new(alloc);
    let mut caller = Caller {
        ordinals,
        client,
        outbox,
    };
    all_hold(alloc, text, &mut caller)
}

#[test]
fn exchanges_over_a_file_go_as_their_rows_say(rt: HostRuntime) -> Result<(), Fail> {
    exchanges_go(rt.alloc(), FILE)
}

#[test]
fn each_request_is_sent_as_its_row_says(rt: HostRuntime) -> Result<(), Fail> {
    exchanges_go(rt.alloc(), EACH)
}

#[test]
fn exchanges_go_as_their_rows_say(rt: HostRuntime) -> Result<(), Fail> {
    exchanges_go(rt.alloc(), EXCHANGE)
}

#[test]
fn frames_are_taken_as_their_rows_say(rt: HostRuntime) -> Result<(), Fail> {
    exchanges_go(rt.alloc(), TAKEN)
}

/// How many calls are made at a time.
const MANY: u32 = 10_000;

/// Whether the client waits for a call behind each other one.
fn notes_many(client: &mut Client) -> bool {
    for txid in 1..MANY + 1 {
        if client.note(1, txid, Method::Sync, None).is_err() {
            return false;
        }
    }
    client.waiting() == MANY as usize
}

/// Whether the reply to a Sync, with each transaction id put in, the last call's first, answers the
/// call.
fn takes_many(ordinals: &Ordinals, client: &mut Client) -> bool {
    let mut frame =
        *b"\x01\x00\x00\x00\x01\x00\x00\x00\x20\x00\x00\x00\x00\x00\x00\x00\x02\x00\x00\x01\
        \x49\xdc\xb5\x0a\xca\x27\x5c\x2c\x01\x00\x00\x00\x00\x00\x00\x00\x00\x00\x00\x00\x00\x00\x01\x00";
    for place in 0..MANY {
        let txid = MANY - place;
        frame[12..16].copy_from_slice(&txid.to_le_bytes());
        match taken(ordinals, client, &frame) {
            Some(Taken::Reply(found, Reply::Done(Method::Sync))) if found == txid => {}
            _ => return false,
        }
    }
    client.waiting() == 0
}

#[test]
fn many_calls_are_answered_the_other_way_round(rt: HostRuntime) -> Result<(), Fail> {
    let ordinals = Ordinals::new()?;
    let mut client = Client::new(rt.alloc())?;
    assert!(rt; notes_many(&mut client) && takes_many(&ordinals, &mut client));
    Ok(())
}
