//! Seek: where the next Read or Write begins.

ghost use Rattle.std.specs.Prelude.{◌≡◌, ◌<◌, ◌^◌, ℕ, true, Some, None, Option, IfSome};
ghost use Rattle.std.specs.Prelude.{if◌then◌else◌, pos, ◌+ℤ◌, is_some, nat_le};
ghost use Rattle.node_graph.specs.declared.nodes.NodeKind.TheVariants.{File};
ghost use Rattle.node_graph.specs.Graph.{Names, StandsFor, kind_at, number_of};
ghost use Rattle.node_graph.specs.Tree.{Tree};
ghost use Rattle.conn_rules.specs.declared.births.Room.{Room};
ghost use Rattle.conn_rules.specs.Contexts.{context_of};
ghost use Rattle.conn_rules.specs.FileRows.{is_no_position, offset_from, seek_act, seek_base};
ghost use Rattle.conn_rules.specs.Served.{HasNothing, IsAnswered};

use crate::connection::FileConn;
use conn_rules::{Served, fail, reply};
use fidl_names::{Method, Status};
use fidl_wire::{Ordinals, Out};
use io_messages::Reply;
use node_graph::Graph;

impl FileConn {
    /// Serves a Seek: the position is so many bytes before or behind the file's start, the position
    /// or the file's end.
    pub(crate) fn seek(
        &mut self,
        ordinals: &Ordinals,
        graph: &Graph,
        txid: u32,
        origin: u32,
        offset: i64,
        out: &mut Out,
    ) -> Served
        requires named { Names graph.now self.old.birth.node }
        requires file { kind_at graph.now (number_of self.old.birth.node) ≡ Some File }
        requires txid { 0 < txid }
        requires empty { HasNothing out.old }
        ensures serves { (room : Room) (tree : Tree) (directory : ℕ → Option ℕ) →
            StandsFor graph.now tree →
            IsAnswered (seek_act (context_of self.old room tree directory) origin offset) txid
            result out.new self.new graph.now }
        ensures birth { self.new.birth ≡ self.old.birth }
        ensures kind { result ≡ Served.Reply }
    {
        match self.seek_base(graph, origin) {
            None => fail(ordinals, txid, Method::Seek, Status::InvalidArgs, out),
            Some(base) => match position_from(base, offset) {
                None => fail(ordinals, txid, Method::Seek, Status::OutOfRange, out),
                Some(position) => {
                    self.position = position;
                    reply(ordinals, txid, Reply::Number(Method::Seek, position), out)
                }
            },
        }
    }

    /// What a seek with this origin counts from.
    fn seek_base(&self, graph: &Graph, origin: u32) -> Option<u64>
        requires named { Names graph.now self.now.birth.node }
        requires file { kind_at graph.now (number_of self.now.birth.node) ≡ Some File }
        ensures origin { is_some result ≡ nat_le origin 2 }
        ensures base { (room : Room) (tree : Tree) (directory : ℕ → Option ℕ) →
            StandsFor graph.now tree →
            IfSome result
            (λ base. base ≡ seek_base (context_of self.now room tree directory) origin) }
    {
        match origin {
            0 => Some(0),
            1 => Some(self.position),
            2 => Some(graph.bytes(self.birth.node).len() as u64),
            _ => None,
        }
    }
}

/// The position so many bytes before or behind another; `None` where there is no such position.
fn position_from(base: u64, offset: i64) -> Option<u64>
    ensures { result ≡ (if is_no_position (pos base +ℤ offset)
        then None
        else Some (offset_from (pos base +ℤ offset))) }
{
    match base.checked_add_signed(offset) {
        Some(position) if position < 1 << 63 => Some(position),
        _ => None,
    }
}
