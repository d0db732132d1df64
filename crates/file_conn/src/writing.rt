//! Write, WriteAt and Resize.

ghost use Rattle.std.specs.Prelude.{◌≡◌, ◌≢◌, ◌<◌, ◌+◌, ◌^◌, ℕ, true, Some, Option, length};
ghost use Rattle.std.specs.Prelude.{if◌then◌else◌};
ghost use Rattle.node_graph.specs.declared.nodes.NodeKind.TheVariants.{File};
ghost use Rattle.node_graph.specs.Graph.{Names, StandsFor, bytes_at, kind_at, number_of};
ghost use Rattle.node_graph.specs.Tree.{Tree};
ghost use Rattle.conn_rules.specs.declared.births.Room.{Room};
ghost use Rattle.conn_rules.specs.Contexts.{context_of};
ghost use Rattle.conn_rules.specs.FileRows.{behind_written, resize_act, write_act, write_at_act};
ghost use Rattle.conn_rules.specs.Served.{HasNothing, IsServed, IsUntouched, KeepsHolds};
ghost use Rattle.conn_rules.specs.Served.{takes_memory};

use crate::connection::FileConn;
use crate::filling::{Filled, overwrite, resize};
use conn_rules::{Served, fail, reply};
use fidl_names::Method;
use fidl_wire::{Ordinals, Out};
use io_messages::Reply;
use node_graph::Graph;

impl FileConn {
    /// Serves a Write: the bytes stand at the position, or at the file's end where the connection
    /// appends, and the position goes behind them.
    pub(crate) fn write(
        &mut self,
        ordinals: &Ordinals,
        graph: &mut Graph,
        txid: u32,
        bytes: &[u8],
        out: &mut Out,
    ) -> Served
        requires named { Names graph.old self.old.birth.node }
        requires file { kind_at graph.old (number_of self.old.birth.node) ≡ Some File }
        requires txid { 0 < txid }
        requires empty { HasNothing out.old }
        ensures serves { (room : Room) (tree : Tree) (directory : ℕ → Option ℕ) →
            StandsFor graph.old tree → result ≢ Served.NoMemory →
            IsServed (write_act (context_of self.old room tree directory) bytes.now) txid result
            out.new self.new graph.old graph.new }
        ensures holds { KeepsHolds self.old self.new graph.old graph.new }
        ensures memory { (room : Room) (tree : Tree) (directory : ℕ → Option ℕ) →
            StandsFor graph.old tree → result ≡ Served.NoMemory →
            takes_memory
            (write_act (context_of self.old room tree directory) bytes.now).change ≡ true }
        ensures untouched { result ≡ Served.NoMemory →
            IsUntouched out.new self.old self.new graph.old graph.new }
    {
        let start = self.write_start(graph);
        match overwrite(graph, self.birth.node, start, bytes) {
            Filled::Done => {
                self.position = self.behind(start, bytes);
                reply(
                    ordinals,
                    txid,
                    Reply::Number(Method::Write, bytes.len() as u64),
                    out,
                )
            }
            Filled::Refused(status) => fail(ordinals, txid, Method::Write, status, out),
            Filled::NoMemory => Served::NoMemory,
        }
    }

    /// Where a Write begins.
    fn write_start(&self, graph: &Graph) -> u64
        requires named { Names graph.now self.now.birth.node }
        requires file { kind_at graph.now (number_of self.now.birth.node) ≡ Some File }
        ensures { result ≡ (if self.now.birth.append
            then length (bytes_at graph.now (number_of self.now.birth.node))
            else self.now.position.offset) }
    {
        if self.birth.append {
            graph.bytes(self.birth.node).len() as u64
        } else {
            self.position
        }
    }

    /// The position behind what was written; where nothing is, as it was.
    fn behind(&self, start: u64, bytes: &[u8]) -> u64
        requires end { 0 < length bytes.now → start + length bytes.now < 2 ^ 63 }
        ensures position { result ≡ (behind_written self.now.position start bytes.now).offset }
        ensures small { result < 2 ^ 63 }
    {
        if bytes.is_empty() {
            self.position
        } else {
            start + bytes.len() as u64
        }
    }

    /// Serves a WriteAt: the bytes stand at an offset.
    pub(crate) fn write_at(
        &self,
        ordinals: &Ordinals,
        graph: &mut Graph,
        txid: u32,
        bytes: &[u8],
        offset: u64,
        out: &mut Out,
    ) -> Served
        requires named { Names graph.old self.now.birth.node }
        requires file { kind_at graph.old (number_of self.now.birth.node) ≡ Some File }
        requires txid { 0 < txid }
        requires empty { HasNothing out.old }
        ensures serves { (room : Room) (tree : Tree) (directory : ℕ → Option ℕ) →
            StandsFor graph.old tree → result ≢ Served.NoMemory →
            IsServed (write_at_act (context_of self.now room tree directory) bytes.now offset) txid
            result out.new self.now graph.old graph.new }
        ensures holds { KeepsHolds self.now self.now graph.old graph.new }
        ensures memory { (room : Room) (tree : Tree) (directory : ℕ → Option ℕ) →
            StandsFor graph.old tree → result ≡ Served.NoMemory →
            takes_memory
            (write_at_act (context_of self.now room tree directory) bytes.now offset).change
            ≡ true }
        ensures untouched { result ≡ Served.NoMemory →
            IsUntouched out.new self.now self.now graph.old graph.new }
    {
        match overwrite(graph, self.birth.node, offset, bytes) {
            Filled::Done => reply(
                ordinals,
                txid,
                Reply::Number(Method::WriteAt, bytes.len() as u64),
                out,
            ),
            Filled::Refused(status) => fail(ordinals, txid, Method::WriteAt, status, out),
            Filled::NoMemory => Served::NoMemory,
        }
    }

    /// Serves a Resize: the file is cut at a size, or filled up to it with zeros.
    pub(crate) fn resize(
        &self,
        ordinals: &Ordinals,
        graph: &mut Graph,
        txid: u32,
        size: u64,
        out: &mut Out,
    ) -> Served
        requires named { Names graph.old self.now.birth.node }
        requires file { kind_at graph.old (number_of self.now.birth.node) ≡ Some File }
        requires txid { 0 < txid }
        requires empty { HasNothing out.old }
        ensures serves { (room : Room) (tree : Tree) (directory : ℕ → Option ℕ) →
            StandsFor graph.old tree → result ≢ Served.NoMemory →
            IsServed (resize_act (context_of self.now room tree directory) size) txid result out.new
            self.now graph.old graph.new }
        ensures holds { KeepsHolds self.now self.now graph.old graph.new }
        ensures memory { (room : Room) (tree : Tree) (directory : ℕ → Option ℕ) →
            StandsFor graph.old tree → result ≡ Served.NoMemory →
            takes_memory (resize_act (context_of self.now room tree directory) size).change ≡ true }
        ensures untouched { result ≡ Served.NoMemory →
            IsUntouched out.new self.now self.now graph.old graph.new }
    {
        match resize(graph, self.birth.node, size) {
            Filled::Done => reply(ordinals, txid, Reply::Done(Method::Resize), out),
            Filled::Refused(status) => fail(ordinals, txid, Method::Resize, status, out),
            Filled::NoMemory => Served::NoMemory,
        }
    }
}
