//! Outside values of headers, epitaphs, ordinals and messages, read row by row, and written again where the row says so.
ghost use Rattle.std.specs.Prelude.{◌≡◌, IsTrue, true};
ghost use Rattle.std.specs.Str.{IsUtf8};
ghost use Rattle.io_messages.specs.Asked.{asked, method_of};
ghost use Rattle.io_messages.specs.Replies.{answered};
ghost use Rattle.io_messages.specs.ReplyWriting.{CanCarry, CanFail, HasReply, PayloadFits};
ghost use Rattle.io_messages.specs.Requests.{has_txid};
ghost use Rattle.io_messages.specs.Shapes.{is_one_way, shape_of};
ghost use Rattle.io_messages.specs.Writing.{HasTexts};

mod head_rows;
mod reply_rows;
mod request_rows;

use crate::messages::head_rows::HEADS;
use crate::messages::reply_rows::REPLIES;
use crate::messages::request_rows::REQUESTS;
use fidl_names::{Handle, Method, Status};
use fidl_wire::{Body, Header, Ordinals, Out, WireFault, ordinal, read_epitaph};
use io_messages::{
    Protocol, Reply, Request, Shape, is_one_way, shape_of, write_event, write_reply, write_request,
};
use io_replies::{read_event, read_reply};
use request_reader::read_request;
use std::alloc::Global;
use std::test::Fail;
use test_rows::{Row, Table, all_hold};

const PROTOCOLS: [(&str, Protocol); 5] = [
    ("Directory", Protocol::Directory),
    ("File", Protocol::File),
    ("Node", Protocol::Node),
    ("Echo", Protocol::Echo),
    ("Watcher", Protocol::Watcher),
];

/// What messages are read and written by.
#[derive(Drop)]
struct Messages {
    ordinals: Ordinals,
    out: Out,
}

impl Table for Messages {
    fn holds(&mut self, alloc: Global, row: &Row<'_>) -> bool {
        if row.is(1, "method") {
            return self.is_method(alloc, row);
        }
        let Some(bytes) = row.bytes(alloc, 2) else {
            return false;
        };
        self.are_said(alloc, row, &bytes)
    }
}

/// The one field of a message behind its header, a number of four bytes with a sign.
fn read_status(bytes: &[u8]) -> Result<i32, WireFault> {
    Body::new(bytes, &[], 4)?.get_i32()
}

/// The one field of a message behind its header, a table whose member 1 is bytes that have to be there.
fn read_member(bytes: &[u8]) -> Result<&[u8], WireFault> {
    let mut body = Body::new(bytes, &[], 16)?;
    let member = body.table_bytes()?;
    body.finish()?;
    Ok(member)
}

/// The one field of a message behind its header, a handle that may be absent.
fn read_handle(bytes: &[u8], handles: &[Handle]) -> Result<Option<Handle>, WireFault> {
    Body::new(bytes, handles, 4)?.handle(true)
}

/// Whether the handle of a message is what its row says.
fn is_handle(alloc: Global, row: &Row<'_>, bytes: &[u8]) -> bool {
    let mut handles = Vec::new(alloc);
    match row.numbers(alloc, 3) {
        Some(numbers) => {
            put_handles(&mut handles, &numbers) && row.says(alloc, 4, &read_handle(bytes, &handles))
        }
        None => false,
    }
}

/// Puts handles by their numbers.
fn put_handles(all: &mut Vec<Handle>, numbers: &[u64]) -> bool {
    for number in numbers {
        if *number > 0xffff_ffff || all.push(Handle::with_number(*number as u32)).is_err() {
            return false;
        }
    }
    true
}

impl Messages {
    /// Whether an ordinal is that of the method which its row says, and that of the event exactly where it says so.
    fn is_method(&self, alloc: Global, row: &Row<'_>) -> bool {
        match row.number(2) {
            Some(number) => {
                row.says(alloc, 3, &self.ordinals.method(number))
                    && row.is(4, "event") == (number == self.ordinals.event())
            }
            None => false,
        }
    }

    /// Whether these bytes are what their row says.
    fn are_said(&mut self, alloc: Global, row: &Row<'_>, bytes: &[u8]) -> bool {
        if row.is(1, "header") {
            row.says(alloc, 3, &Header::read(bytes))
        } else if row.is(1, "epitaph") {
            row.says(alloc, 3, &read_epitaph(bytes))
        } else if row.is(1, "status") {
            row.says(alloc, 3, &read_status(bytes))
        } else if row.is(1, "member") {
            row.says(alloc, 3, &read_member(bytes))
        } else if row.is(1, "handle") {
            is_handle(alloc, row, bytes)
        } else if row.is(1, "ordinal") {
            bytes == ordinal(row.name().as_bytes()).to_be_bytes().as_slice()
        } else {
            self.is_message(alloc, row, bytes)
        }
    }

    /// Whether a message is read as its row says, and gives the same bytes and handles again, or other ones, where that says so.
    fn is_message(&mut self, alloc: Global, row: &Row<'_>, bytes: &[u8]) -> bool {
        let mut handles = Vec::new(alloc);
        match row.numbers(alloc, 3) {
            Some(numbers) => {
                put_handles(&mut handles, &numbers)
                    && self.is_read(alloc, row, bytes, &handles)
                    && self.is_again(row, bytes, &handles)
            }
            None => false,
        }
    }

    /// Whether a message is read as its row says. It is written again.
    fn is_read(&mut self, alloc: Global, row: &Row<'_>, bytes: &[u8], handles: &[Handle]) -> bool {
        if row.is(1, "event") {
            return self.is_event(alloc, row, bytes);
        }
        if row.is(1, "reply") {
            return self.is_reply(alloc, row, bytes, handles);
        }
        match row.named(1, &PROTOCOLS) {
            Some(protocol) => self.is_request(alloc, row, protocol, bytes, handles),
            None => false,
        }
    }

    /// Whether what was written is what the row says: these bytes and handles, other ones, or nothing.
    fn is_again(&self, row: &Row<'_>, bytes: &[u8], handles: &[Handle]) -> bool {
        let written = self.out.as_bytes();
        let same = written == bytes && self.out.handles() == handles;
        if row.is(5, "same") {
            same
        } else if row.is(5, "other") {
            !same && !written.is_empty()
        } else {
            row.is(5, "-") && written.is_empty()
        }
    }

    /// Whether an event is read as its row says. It is written again.
    fn is_event(&mut self, alloc: Global, row: &Row<'_>, bytes: &[u8]) -> bool {
        self.out.clear();
        let read = read_event(&self.ordinals, bytes);
        if let Ok(kind) = read
            && kind != Protocol::Watcher
        {
            write_event(&self.ordinals, kind, &mut self.out);
        }
        row.says(alloc, 4, &read)
    }

    /// Whether a reply is read as its row says. It is written again.
    fn is_reply(&mut self, alloc: Global, row: &Row<'_>, bytes: &[u8], handles: &[Handle]) -> bool {
        self.out.clear();
        let read = read_reply(&self.ordinals, bytes, handles);
        if let Ok((txid, reply)) = read
            && txid > 0
            && may_be_written(&reply)
        {
            write_reply(&self.ordinals, txid, reply, &mut self.out);
        }
        row.says(alloc, 4, &read)
    }

    /// Whether a request is read as its row says. It is written again.
    fn is_request(
        &mut self,
        alloc: Global,
        row: &Row<'_>,
        protocol: Protocol,
        bytes: &[u8],
        handles: &[Handle],
    ) -> bool {
        self.out.clear();
        let read = read_request(&self.ordinals, protocol, bytes, handles);
        let said = row.says(alloc, 4, &read);
        match read {
            Ok((txid, request)) if has_texts(&request) && has_txid(txid, &request) => {
                said && write_request(&self.ordinals, txid, request, &mut self.out).is_ok()
            }
            _ => said,
        }
    }
}

fn is_utf8(bytes: &[u8]) -> bool
    ensures { IsTrue result → IsUtf8 bytes.now }
{
    str::from_utf8(bytes).is_ok()
}

/// The texts of a request are UTF-8.
fn has_texts(request: &Request<'_>) -> bool
    ensures { IsTrue result → HasTexts (asked request.now) }
{
    match request {
        Request::OpenPath { path, .. } => is_utf8(path),
        Request::Rename { src, dst, .. } | Request::Link { src, dst, .. } => {
            is_utf8(src) && is_utf8(dst)
        }
        Request::Unlink { name, .. } => is_utf8(name),
        Request::EchoString { value } => is_utf8(value),
        _ => true,
    }
}

/// A request has the transaction id 0 exactly where it is one-way.
fn has_txid(txid: u32, request: &Request<'_>) -> bool
    ensures { IsTrue result → has_txid (is_one_way (method_of (asked request.now))) txid ≡ true }
{
    (txid == 0) == is_one_way(request.method())
}

fn may_fail(method: Method) -> bool
    ensures { IsTrue result → CanFail (shape_of method) }
{
    !matches!(shape_of(method), None | Some(Shape::Vector | Shape::Text))
}

fn may_carry(method: Method, bytes: &[u8]) -> bool
    ensures { IsTrue result → CanCarry (shape_of method) bytes.now }
{
    match shape_of(method) {
        Some(Shape::Bytes | Shape::Vector | Shape::Listing) => true,
        Some(Shape::Text) => is_utf8(bytes),
        _ => false,
    }
}

/// The reply is one that its method has, and its payload has room. Beside that stand at most 48 bytes, and behind it at most 7 of padding.
#[tactic(auto, unfolding(fidl_wire::specs::Numbers::padding_after))]
fn may_be_written(reply: &Reply<'_>) -> bool
    ensures has { IsTrue result → HasReply (answered reply.now) }
    ensures fits { IsTrue result → PayloadFits (answered reply.now) }
{
    match reply {
        Reply::Done(method) => shape_of(*method) == Some(Shape::Done),
        Reply::Fails(method, status) => may_fail(*method) && *status != Status::Ok,
        Reply::Number(method, _) => shape_of(*method) == Some(Shape::Number),
        Reply::Payload(method, bytes) => bytes.len() <= 65_480 && may_carry(*method, bytes),
        Reply::Settled(method) => shape_of(*method) == Some(Shape::Settled),
        Reply::Token(_) | Reply::Attributes(_) | Reply::Unknown(_) => true,
    }
}

/// Tries the rows of a text. Where two names had equal ordinals there would be no messages.
fn messages_hold(alloc: Global, text: &[u8]) -> Result<(), Fail> {
    let ordinals = Ordinals::new()?;
    let out = Out::new(alloc)?;
    all_hold(alloc, text, &mut Messages { ordinals, out })
}

#[test]
fn heads_are_read(rt: HostRuntime) -> Result<(), Fail> {
    messages_hold(rt.alloc(), HEADS)
}

#[test]
fn requests_are_read_and_written(rt: HostRuntime) -> Result<(), Fail> {
    messages_hold(rt.alloc(), REQUESTS)
}

#[test]
fn replies_are_read_and_written(rt: HostRuntime) -> Result<(), Fail> {
    messages_hold(rt.alloc(), REPLIES)
}
