//! What is done with what a connection gives, and with a message that is no request.

ghost use Rattle.std.specs.Prelude.{◌≡◌, ◌≢◌, ◌++◌, [], ℕ, IfOk, OnErr, OnOk};
ghost use Rattle.node_graph.specs.declared.nodes.NodeRef.{NodeRef};
ghost use Rattle.link_frames.specs.Frames.{spellings};
ghost use Rattle.io_messages.specs.Asked.{asked};
ghost use Rattle.vfs_journal.specs.Outcomes.{announcement, ending};
ghost use Rattle.vfs_journal.specs.Serving.{object_of};
ghost use Rattle.vfs_server.specs.Steps.{BindsConnection, DoesFault, DoesGiven, HasTxid, deed_by, given_by, of_directory, told_in};
ghost use Rattle.dir_conn.specs.Served.{told_with};
ghost use Rattle.vfs_server.specs.Given as gives;
ghost use Rattle.conn_rules.specs.Answers.{nothing_told};
ghost use Rattle.conn_rules.specs.Served.{told_by};

use crate::asking::Asking;
use crate::deed::Deed;
use crate::frames::{put_announcement, put_ending, put_last, put_message};
use conn_rules::{Birth, Changes};
use dir_conn::DirServed;
use fidl_names::{Handle, NoMemory, Status};
use fidl_wire::{Ordinals, Out};
use io_messages::{Protocol, Reply, Request, RequestFault, write_reply};
use link_frames::{Outbox, write_message};
use node_graph::NodeRef;

/// Whom an answer goes to: the endpoint that is served, the node that its connection is to, and the endpoint that the
/// request carries, 0 for none.
#[derive(Clone, Copy)]
pub(crate) struct Asker {
    pub endpoint: u32,
    pub node: NodeRef,
    pub object: u32,
}

/// The endpoint that a request carries, 0 for none.
pub(crate) fn object_of(request: &Request<'_>) -> u32
    ensures { result ≡ object_of (asked request.now) }
{
    match request {
        Request::Clone { request } => *request,
        Request::OpenPath { object, .. } => *object,
        Request::Watch { watcher, .. } => *watcher,
        _ => 0,
    }
}

/// Writes what the connection of an asker gave to a request, or ends its endpoint, and tells what is to be done then.
/// What watchers are to be told is put into the changes.
pub(crate) fn answer<'a>(
    ordinals: &Ordinals,
    asker: &Asker,
    given: Result<DirServed<'a>, Status>,
    out: &mut Out,
    outbox: &mut Outbox,
    changes: &mut Changes<'a>,
) -> Result<Deed<'a>, NoMemory>
    requires connection { BindsConnection (given_by given) }
    requires none { told_by changes.old ≡ nothing_told }
    ensures does { IfOk result (λ deed. DoesGiven asker.now.endpoint asker.now.object asker.now.node (given_by given.entry) out.old deed outbox.old outbox.new) }
    ensures told { OnOk result (told_by changes.new ≡ told_in given.entry) }
    ensures no_memory { OnErr result (outbox.new ≡ outbox.old) }
{
    match given {
        Ok(served) => answer_served(ordinals, asker, served, out, outbox, changes),
        Err(status) => end(asker.endpoint, status, out, outbox),
    }
}

/// Does so where the endpoint isn't ended.
fn answer_served<'a>(
    ordinals: &Ordinals,
    asker: &Asker,
    served: DirServed<'a>,
    out: &mut Out,
    outbox: &mut Outbox,
    changes: &mut Changes<'a>,
) -> Result<Deed<'a>, NoMemory>
    requires connection { BindsConnection (of_directory served) }
    requires none { told_by changes.old ≡ nothing_told }
    ensures does { IfOk result (λ deed. DoesGiven asker.now.endpoint asker.now.object asker.now.node (of_directory served.entry) out.old deed outbox.old outbox.new) }
    ensures told { OnOk result (told_by changes.new ≡ told_with served.entry) }
    ensures no_memory { OnErr result (outbox.new ≡ outbox.old) }
{
    let endpoint = asker.endpoint;
    let object = asker.object;
    match served {
        DirServed::Reply(told) => {
            *changes = told;
            put_reply(endpoint, asker.node, out, outbox)
        }
        DirServed::ReplyEnd => {
            put_last(endpoint, out, outbox)?;
            Ok(Deed::Ends)
        }
        DirServed::Bind(birth, told) => {
            *changes = told;
            bind(ordinals, object, birth, out, outbox)
        }
        DirServed::WatchBy(mask) => {
            put_message(endpoint, out, outbox)?;
            Ok(Deed::Watches {
                object,
                directory: asker.node,
                mask,
            })
        }
        DirServed::Forward { mount, flags, rest } => Ok(Deed::Forwards {
            mount,
            object,
            flags,
            rest,
        }),
        DirServed::Refused(status) => {
            put_ending(object, status, out, outbox)?;
            Ok(Deed::Refuses { object })
        }
        DirServed::NoMemory => Err(NoMemory),
    }
}

/// Writes the reply in an output, which has no handles, on an endpoint. That stays.
#[inline(always)]
pub(crate) fn put_bare_reply(endpoint: u32, out: &Out, outbox: &mut Outbox) -> Result<(), NoMemory>
    requires bare { out.now.handles ≡ [] }
    ensures does { (object : ℕ) (node : NodeRef) → OnOk result (DoesGiven endpoint object node gives.Reply out.now Deed.Stays outbox.old outbox.new) }
    ensures no_memory { OnErr result (outbox.new ≡ outbox.old) }
{
    write_message(outbox, endpoint, &[], out.as_bytes())
}

/// Writes the reply in an output on an endpoint, whose connection is to this node. A token that it has names the node.
pub(crate) fn put_reply<'a>(
    endpoint: u32,
    node: NodeRef,
    out: &Out,
    outbox: &mut Outbox,
) -> Result<Deed<'a>, NoMemory>
    ensures does { (object : ℕ) → IfOk result (λ deed. DoesGiven endpoint object node gives.Reply out.now deed outbox.old outbox.new) }
    ensures no_memory { OnErr result (outbox.new ≡ outbox.old) }
{
    put_message(endpoint, out, outbox)?;
    Ok(replied(node, out))
}

/// What becomes of an endpoint by the reply in an output: a token that it has names this node.
#[inline(always)]
fn replied<'a>(node: NodeRef, out: &Out) -> Deed<'a>
    ensures { result ≡ deed_by node out.now.handles }
{
    match out.handles().first() {
        Some(Handle::Token(token)) => Deed::Gives {
            token: *token,
            directory: node,
        },
        _ => Deed::Stays,
    }
}

/// Binds an endpoint, and tells it there where that is asked for.
fn bind<'a>(
    ordinals: &Ordinals,
    object: u32,
    birth: Birth,
    out: &mut Out,
    outbox: &mut Outbox,
) -> Result<Deed<'a>, NoMemory>
    requires watcher { birth.protocol ≢ Protocol.Watcher }
    ensures frames { OnOk result (outbox.new ≡ outbox.old ++ spellings (announcement object birth.protocol birth.announce)) }
    ensures deed { IfOk result (λ deed. deed ≡ Deed.Binds object birth) }
    ensures no_memory { OnErr result (outbox.new ≡ outbox.old) }
{
    put_announcement(
        ordinals,
        object,
        birth.protocol,
        birth.announce,
        out,
        outbox,
    )?;
    Ok(Deed::Binds { object, birth })
}

/// Answers a message that is no request of the endpoint's protocol.
pub(crate) fn answer_fault<'a>(
    asking: &Asking<'_>,
    fault: RequestFault,
    out: &mut Out,
    outbox: &mut Outbox,
) -> Result<Deed<'a>, NoMemory>
    requires txid { HasTxid fault }
    ensures does { IfOk result (λ deed. DoesFault asking.now.endpoint fault deed outbox.old outbox.new) }
    ensures no_memory { OnErr result (outbox.new ≡ outbox.old) }
{
    let endpoint = asking.endpoint;
    match fault {
        RequestFault::Malformed(_) => end(endpoint, Status::InvalidArgs, out, outbox),
        RequestFault::UnknownStrict => end(endpoint, Status::NotSupported, out, outbox),
        RequestFault::UnknownOneWay => Ok(Deed::Stays),
        RequestFault::UnknownTwoWay { txid, ordinal } => {
            out.clear();
            write_reply(asking.ordinals, txid, Reply::Unknown(ordinal), out);
            put_message(endpoint, out, outbox)?;
            Ok(Deed::Stays)
        }
    }
}

/// Ends the endpoint that is served.
fn end<'a>(
    endpoint: u32,
    status: Status,
    out: &mut Out,
    outbox: &mut Outbox,
) -> Result<Deed<'a>, NoMemory>
    ensures frames { OnOk result (outbox.new ≡ outbox.old ++ spellings (ending endpoint status)) }
    ensures deed { IfOk result (λ deed. deed ≡ Deed.Ends) }
    ensures no_memory { OnErr result (outbox.new ≡ outbox.old) }
{
    put_ending(endpoint, status, out, outbox)?;
    Ok(Deed::Ends)
}
