ghost use Rattle.std.specs.Prelude.{◌≡◌, ◌≤◌, ◌<◌, ◌+◌, ◌^◌, ℕ, IfOk, IfSome, IsSome, List, None, Ok, OnErr, OnOk, Option, Some, [], length};
ghost use Rattle.fidl_names.specs.declared.limits.TheConstants as limit;
ghost use Rattle.std.specs.FinMap as finite;
ghost use Rattle.io_messages.specs.Asked.{asked};
ghost use Rattle.io_messages.specs.Requests.{request_of};
ghost use Rattle.request_reader.specs.Parts.{AsksPart};
ghost use Rattle.node_graph.specs.Graph.{holds_at, number_of};
ghost use Rattle.conn_rules.specs.Births.{Position};
ghost use Rattle.vfs_journal.specs.Entries.{message};
ghost use Rattle.vfs_journal.specs.Handles.{AreByNumber, numbers_of};
ghost use Rattle.vfs_journal.specs.Serving.{Moment, outcome_of_sending};
ghost use Rattle.vfs_journal.specs.Starts.{Bound, start_of};
ghost use Rattle.vfs_journal.specs.View.{View, view_of};
ghost use Rattle.vfs_server.specs.Binding.{Binds, CanWatch, Forgets, HasPlace, IsDirectory, NamesBy, Unbinds};
ghost use Rattle.vfs_server.specs.Holding.{HoldsAt};
ghost use Rattle.vfs_server.specs.KeptNodes.{kept_in};
ghost use Rattle.vfs_server.specs.Servers.{bound_with, in_use, named, seen, watcher_with};
ghost use Rattle.vfs_server.specs.Serving.{CanTake, IsMomentOf, Serves, message_of};
ghost use Rattle.vfs_server.specs.Steps.{CanSettle, Settles};
ghost use Rattle.vfs_journal.specs.Output.{Begins};

use crate::answers::put_bare_reply;
use crate::asking::Asking;
use crate::beginning;
use crate::connections::Connections;
use crate::deed::Deed;
use crate::fate::Fate;
use crate::message::Message;
use crate::telling::tell;
use crate::tokens::Tokens;
use crate::watching::Watching;
use conn_rules::{Birth, Changes};
use fidl_names::{Handle, NoMemory};
use fidl_wire::{Ordinals, Out};
use io_messages::{Protocol, Request};
use link_frames::Outbox;
use node_graph::{Graph, NodeRef};
use session_start::Start;
use std::alloc::Global;
use std::marker::Model;

/// One server: its tree, what is connected to it, who watches, and the tokens that name directories of it.
/// Each connection holds its node, and each watcher and each token its directory.
pub struct Server {
    alloc: Global,
    index: u32,
    graph: Graph,
    connections: Connections,
    watching: Watching,
    tokens: Tokens,
}

// Who owns a server lets go of it by one call, and not of each part by another.
impl Drop for Server {
    fn drop(self) {
        let Server {
            alloc: _alloc,
            index: _index,
            graph: _graph,
            connections: _connections,
            watching: _watching,
            tokens: _tokens,
        } = self;
    }
}

impl Model for Server {
    ghost use Rattle.vfs_server.specs.Codes.{server_code};
    ghost use Rattle.vfs_server.specs.Kept.{IsSound};
    ghost use Rattle.vfs_server.specs.Servers as servers;
    ghost use Rattle.vfs_server.specs.Watched.{bounds_at};

    ghost Value = { servers.Server };

    ghost coded = { server_code };

    ghost view = { λ server. record { index = server.index; graph = server.graph; connections = server.connections; watchers = bounds_at server.index server.watching; tokens = server.tokens } };

    ghost invariant = { λ server. IsSound server.graph server.connections server.watching server.tokens };
}

impl Server {
    /// The server of an accepted start with this index: its tree, its first connections, and the ends
    /// of the mounts that go on here.
    pub fn begin(alloc: Global, start: &Start, index: u32) -> Result<Server, NoMemory>
        requires within { index < length start.now.servers }
        ensures holds { IfOk result (HoldsAt (view_of (start_of start.now) [])) }
        ensures index { IfOk result (λ server. server.index ≡ index) }
    {
        beginning::begin(alloc, start, index)
    }

    /// A server to which nothing is connected yet, over a tree of which nothing is held.
    pub(crate) fn new(alloc: Global, index: u32, graph: Graph) -> Server
        requires unheld { (number : ℕ) → holds_at graph number ≡ 0 }
        ensures { result ≡ record { index = index; graph = graph; connections = finite.empty; watchers = []; tokens = finite.empty } }
    {
        Server {
            alloc,
            index,
            graph,
            connections: Connections::new(alloc),
            watching: Watching::new(alloc),
            tokens: Tokens::new(alloc),
        }
    }

    /// How many connections there are, watchers included.
    pub fn connections(&self) -> u32
        ensures { result ≡ in_use self.now }
    {
        (self.connections.len() + self.watching.len()) as u32
    }

    /// How many nodes of its tree are kept: the root, those that names lead to, and those that connections,
    /// watchers and tokens hold.
    pub fn kept(&self) -> usize
        ensures kept { (view : View) → HoldsAt view self.now → result ≡ kept_in view self.now.index }
        ensures few { result ≤ 1 + finite.len self.now.graph.edges + limit.MAX_CONNECTIONS + limit.MAX_TOKENS }
    {
        self.graph.kept()
    }

    /// Serves a message on an endpoint that is bound here, and does what that answers: the frames of the answer are
    /// written to the outbox, behind them what watchers are told of it; an endpoint that is to be bound is bound, and
    /// holds its node; a token that is given names its directory, and holds that. `token` is the number that the next
    /// token gets, `None` where none is given any more. The call tells what became of endpoints and tokens, by their
    /// numbers: what ends is bound still, and an Open that goes on is to be sent on. A message to a watcher is passed
    /// over. What stands in the output then is of no account.
    ///
    /// For want of memory no frame is written; what became of the server is of no account then, and it is sound.
    #[inline(always)]
    pub fn serve<'a>(
        &mut self,
        ordinals: &Ordinals,
        token: Option<u32>,
        message: &Message<'a>,
        out: &mut Out,
        outbox: &mut Outbox,
    ) -> Result<Fate<'a>, NoMemory>
        requires can { CanTake self.old message.now.endpoint token (numbers_of message.now.handles.now) }
        requires handles { AreByNumber message.now.handles.now }
        requires short { length message.now.bytes.now ≤ limit.MAX_BYTES }
        ensures serves { (moment : Moment) → IsMomentOf self.old message.now.endpoint token (numbers_of message.now.handles.now) moment →
            IfOk result (λ fate. Serves moment (outcome_of_sending moment (message_of message.now)) fate self.old self.new outbox.old outbox.new) }
        ensures no_memory { OnErr result (outbox.new ≡ outbox.old) }
    {
        let len = outbox.len();
        match self.act(ordinals, token, message, out, outbox) {
            Ok(fate) => Ok(fate),
            Err(_) => {
                outbox.truncate(len);
                Err(NoMemory)
            }
        }
    }

    /// Serves a message, as `serve` does. For want of memory a front of the frames is written.
    #[inline(always)]
    fn act<'a>(
        &mut self,
        ordinals: &Ordinals,
        token: Option<u32>,
        message: &Message<'a>,
        out: &mut Out,
        outbox: &mut Outbox,
    ) -> Result<Fate<'a>, NoMemory>
        requires can { CanTake self.old message.now.endpoint token (numbers_of message.now.handles.now) }
        requires handles { AreByNumber message.now.handles.now }
        requires short { length message.now.bytes.now ≤ limit.MAX_BYTES }
        ensures serves { (moment : Moment) → IsMomentOf self.old message.now.endpoint token (numbers_of message.now.handles.now) moment →
            IfOk result (λ fate. Serves moment (outcome_of_sending moment (message_of message.now)) fate self.old self.new outbox.old outbox.new) }
        ensures front { OnErr result (Begins outbox.old outbox.new) }
    {
        let asking = Asking {
            ordinals,
            endpoint: message.endpoint,
            connections: self.connections(),
            watching: &self.watching,
            tokens: &self.tokens,
            token,
        };
        let mut changes = Changes::none();
        let deed = self.connections.serve(
            &asking,
            message,
            &mut self.graph,
            out,
            outbox,
            &mut changes,
        )?;
        tell(&self.watching, &self.graph, &deed, &changes, outbox)?;
        self.settle(deed)
    }

    /// Does what a deed leaves to do with endpoints and tokens, and tells it. A birth that comes with a hold of its
    /// own, as that of a file without a name will, is to be bound here: nothing looks at who holds what between the
    /// change of the tree and this.
    #[inline(always)]
    fn settle<'a>(&mut self, deed: Deed<'a>) -> Result<Fate<'a>, NoMemory>
        requires can { CanSettle self.old deed }
        ensures { IfOk result (λ fate. Settles self.old deed.entry fate self.new) }
    {
        match deed {
            Deed::Stays => Ok(Fate::Stays),
            Deed::Ends => Ok(Fate::Ends),
            Deed::Binds { object, birth } => {
                self.bind(object, birth)?;
                Ok(Fate::Binds { object })
            }
            Deed::Watches {
                object,
                directory,
                mask,
            } => {
                self.watch(object, directory, mask)?;
                Ok(Fate::Binds { object })
            }
            Deed::Refuses { object } => Ok(Fate::Refuses { object }),
            Deed::Forwards {
                mount,
                object,
                flags,
                rest,
            } => Ok(Fate::Forwards {
                mount,
                object,
                flags,
                rest,
            }),
            Deed::Gives { token, directory } => {
                self.give(token, directory)?;
                Ok(Fate::Gives { token })
            }
        }
    }

    /// Serves the request for a part of a file on an endpoint, where that is bound to a file here: its reply is
    /// written to the outbox, and the endpoint stays. Otherwise `None`, and nothing is done. What stands in the
    /// output then is of no account.
    ///
    /// For want of memory no frame is written.
    #[inline(always)]
    pub fn read(
        &mut self,
        ordinals: &Ordinals,
        endpoint: u32,
        txid: u32,
        request: &Request<'_>,
        out: &mut Out,
        outbox: &mut Outbox,
    ) -> Option<Result<(), NoMemory>>
        requires part { AsksPart (asked request.now) }
        requires txid { 0 < txid }
        ensures serves { (bytes : List ℕ) (token : Option ℕ) (moment : Moment) → request_of Protocol.File bytes [] ≡ Ok (txid, asked request.now) → IsMomentOf self.old endpoint token [] moment →
            IfSome result (λ read. OnOk read (Serves moment (outcome_of_sending moment (message bytes [])) Fate.Stays self.old self.new outbox.old outbox.new)) }
        ensures bound { IfSome result (λ read. IsSome (seen self.old endpoint)) }
        ensures reads { (bound : Bound) (position : Position) → seen self.old endpoint ≡ Some (bound, position) → bound.birth.protocol ≡ Protocol.File → IsSome result }
        ensures unchanged { result ≡ None → (self.new ≡ self.old) × (outbox.new ≡ outbox.old) }
        ensures no_memory { IfSome result (λ read. OnErr read (outbox.new ≡ outbox.old)) }
    {
        let done = self
            .connections
            .read(ordinals, endpoint, &mut self.graph, txid, request, out);
        if !done {
            return None;
        }
        Some(put_bare_reply(endpoint, out, outbox))
    }

    /// Binds an endpoint that isn't bound here, and holds its node. Of want of memory the server is as
    /// it was.
    #[inline(never)]
    pub(crate) fn bind(&mut self, endpoint: u32, birth: Birth) -> Result<(), NoMemory>
        requires free { seen self.old endpoint ≡ None }
        requires place { HasPlace self.old birth }
        ensures bound { OnOk result (Binds self.old (bound_with self.old.index endpoint birth) self.new) }
        ensures unchanged { OnErr result (self.new ≡ self.old) }
    {
        let node = birth.node;
        self.connections.insert(self.alloc, endpoint, birth)?;
        self.graph.hold(node);
        Ok(())
    }

    /// Lets an endpoint that isn't bound here watch a directory, and holds that. Of want of memory the
    /// server is as it was.
    #[inline(never)]
    fn watch(&mut self, endpoint: u32, directory: NodeRef, mask: u32) -> Result<(), NoMemory>
        requires free { seen self.old endpoint ≡ None }
        requires directory { CanWatch self.old directory }
        ensures watches { OnOk result (Binds self.old (watcher_with self.old.index endpoint (number_of directory) mask) self.new) }
        ensures unchanged { OnErr result (self.new ≡ self.old) }
    {
        self.watching.add(endpoint, directory, mask, &self.graph)?;
        self.graph.hold(directory);
        Ok(())
    }

    /// Lets a token name a directory of this server, and holds that. Of want of memory the server is as it
    /// was.
    #[inline(never)]
    fn give(&mut self, token: u32, directory: NodeRef) -> Result<(), NoMemory>
        requires free { named self.old token ≡ None }
        requires directory { IsDirectory self.old.graph directory }
        requires room { finite.len self.old.tokens < limit.MAX_TOKENS }
        ensures named { OnOk result (NamesBy self.old token directory self.new) }
        ensures unchanged { OnErr result (self.new ≡ self.old) }
    {
        self.tokens.insert(token, directory)?;
        self.graph.hold(directory);
        Ok(())
    }

    /// Lets a token name nothing here, and releases the directory that it named.
    pub fn forget(&mut self, token: u32)
        ensures { Forgets self.old token self.new }
    {
        if let Some(directory) = self.tokens.remove(token) {
            self.graph.release(directory);
        }
    }

    /// Lets go of an endpoint where it is bound here, and releases its node. Most are connections, so that
    /// these are asked first.
    pub fn unbind(&mut self, endpoint: u32)
        ensures { Unbinds self.old endpoint self.new }
    {
        if let Some(node) = self.connections.remove(endpoint) {
            self.graph.release(node);
        } else if let Some(directory) = self.watching.remove(endpoint, &self.graph) {
            self.graph.release(directory);
        }
    }
}
