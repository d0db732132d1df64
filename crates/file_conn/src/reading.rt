//! Read and ReadAt: which bytes they give.

ghost use Rattle.std.specs.Prelude.{◌≡◌, ◌+◌, ◌^◌, ◌<◌, ◌≤◌, ℕ, Some, Option, length};
ghost use Rattle.node_graph.specs.declared.nodes.NodeKind.TheVariants.{File};
ghost use Rattle.node_graph.specs.Graph.{Names, StandsFor, kind_at, number_of};
ghost use Rattle.node_graph.specs.Tree.{Tree};
ghost use Rattle.conn_rules.specs.declared.births.Room.{Room};
ghost use Rattle.conn_rules.specs.Contexts.{context_of};
ghost use Rattle.conn_rules.specs.FileRows.{part_from, read_act, read_at_act};
ghost use Rattle.conn_rules.specs.Served.{HasNothing, IsAnswered};

use crate::connection::FileConn;
use conn_rules::{Served, fail, reply_with};
use fidl_names::{MAX_CHUNK, Method, Status};
use fidl_wire::{Ordinals, Out};
use node_graph::Graph;

impl FileConn {
    /// Serves a Read: at most so many bytes from the position on, which goes behind them.
    #[inline(always)]
    pub(crate) fn read(
        &mut self,
        ordinals: &Ordinals,
        graph: &Graph,
        txid: u32,
        count: u64,
        out: &mut Out,
    ) -> Served
        requires named { Names graph.now self.old.birth.node }
        requires file { kind_at graph.now (number_of self.old.birth.node) ≡ Some File }
        requires txid { 0 < txid }
        requires empty { HasNothing out.old }
        ensures serves { (room : Room) (tree : Tree) (directory : ℕ → Option ℕ) →
            StandsFor graph.now tree →
            IsAnswered (read_act (context_of self.old room tree directory) count) txid result
            out.new self.new graph.now }
        ensures birth { self.new.birth ≡ self.old.birth }
        ensures kind { result ≡ Served.Reply }
    {
        if count > MAX_CHUNK {
            return fail(ordinals, txid, Method::Read, Status::OutOfRange, out);
        }
        let bytes = part_from(graph.bytes(self.birth.node), self.position, count);
        self.position += bytes.len() as u64;
        reply_with(ordinals, txid, Method::Read, bytes, out)
    }

    /// Serves a ReadAt: at most so many bytes from an offset on.
    pub(crate) fn read_at(
        &self,
        ordinals: &Ordinals,
        graph: &Graph,
        txid: u32,
        count: u64,
        offset: u64,
        out: &mut Out,
    ) -> Served
        requires named { Names graph.now self.now.birth.node }
        requires file { kind_at graph.now (number_of self.now.birth.node) ≡ Some File }
        requires txid { 0 < txid }
        requires empty { HasNothing out.old }
        ensures serves { (room : Room) (tree : Tree) (directory : ℕ → Option ℕ) →
            StandsFor graph.now tree →
            IsAnswered (read_at_act (context_of self.now room tree directory) count offset) txid
            result out.new self.now graph.now }
        ensures kind { result ≡ Served.Reply }
    {
        if count > MAX_CHUNK {
            return fail(ordinals, txid, Method::ReadAt, Status::OutOfRange, out);
        }
        let bytes = part_from(graph.bytes(self.birth.node), offset, count);
        reply_with(ordinals, txid, Method::ReadAt, bytes, out)
    }
}

/// At most so many bytes from an offset on; none behind the end.
fn part_from(bytes: &[u8], offset: u64, count: u64) -> &[u8]
    ensures part { result.now ≡ part_from offset count bytes.now }
    ensures short { length result.now ≤ count }
    ensures inside { offset < 2 ^ 63 → offset + length result.now < 2 ^ 63 }
{
    if offset >= bytes.len() as u64 {
        return &[];
    }
    let rest = &bytes[offset as usize..];
    if count >= rest.len() as u64 {
        return rest;
    }
    &rest[..count as usize]
}
