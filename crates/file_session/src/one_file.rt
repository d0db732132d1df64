ghost use Rattle.std.specs.Prelude.{◌≡◌, ◌≤◌, ◌<◌, ◌+◌, ◌++◌, ℕ, List, [], ◌∷◌, length, true, IfOk};
ghost use Rattle.conn_rules.specs.Births.{fresh};
ghost use Rattle.link_frames.specs.Frames.{spellings};
ghost use Rattle.link_frames.specs.Views.{frame_of};
ghost use Rattle.vfs_journal.specs.Outcomes.{ending};
ghost use Rattle.file_session.specs.Bound.{IsBoundTo};
ghost use Rattle.file_session.specs.OneFile.{Hears, outcome, answered, read_outcome, meaning_of as told};

use crate::binding::bind;
use crate::messages::{Meaning, meaning_of};
use conn_rules::{Room, Served};
use fidl_names::{MAX_BYTES, MAX_FILE};
use fidl_wire::{NoMemory, Ordinals, Out, Status as Answer, epitaph};
use file_conn::FileConn;
use io_messages::Request;
use link_admission::{LookUp, Standing, first_refusal};
use link_frames::{FIXED_LEN, FrameKind, FrameRoom, FrameView};
use node_graph::Graph;
use std::alloc::Global;

/// The endpoint that is bound to the file.
const ENDPOINT: u32 = 1;

/// The most bytes that are written for one frame: the frame of the longest message.
pub const MOST_ANSWER: usize = FIXED_LEN + MAX_BYTES;

/// What admission looks up: the file's endpoint alone was ever known, and nothing waits.
#[derive(Clone, Copy)]
struct OneEndpoint {
    live: bool,
}

impl LookUp for OneEndpoint {
    ghost use Rattle.file_session.specs.OneFile.{look_ups};

    ghost tells = { λ known. look_ups known.live };

    fn standing_at(&self, number: u32) -> Standing {
        if number != ENDPOINT {
            Standing::Unused
        } else if self.live {
            Standing::Live
        } else {
            Standing::Dead
        }
    }

    fn was_used(&self, _number: u32) -> bool {
        true
    }

    fn is_held(&self, _token: u32) -> bool {
        false
    }

    fn waiting(&self) -> u32 {
        0
    }

    fn live(&self) -> u32 {
        1
    }

    fn servers(&self) -> u32 {
        1
    }
}

/// The session of one file: whether its endpoint is live, the connection that it is bound to, and
/// room for a message.
#[derive(Drop)]
pub struct Connection {
    live: bool,
    connection: FileConn,
    graph: Graph,
    ordinals: Ordinals,
    out: Out,
}

impl Connection {
    /// At the start of the file. All the room is taken here.
    pub fn new(alloc: Global, file: &[u8], ordinals: Ordinals) -> Result<Connection, NoMemory>
        requires { length file.now ≤ MAX_FILE }
        ensures live { IfOk result (λ c. c.live ≡ true) }
        ensures position { IfOk result (λ c. c.connection.position ≡ fresh) }
        ensures bound { IfOk result (λ c. IsBoundTo file.now c.graph c.connection) }
    {
        let (graph, connection) = bind(alloc, file)?;
        Ok(Connection {
            live: true,
            connection,
            graph,
            ordinals,
            out: Out::new(alloc)?,
        })
    }

    /// Serves one frame.
    pub fn hear(&mut self, frame: FrameView<'_>, room: &mut FrameRoom)
        requires bound { (file : List ℕ) × IsBoundTo file self.old.graph self.old.connection }
        requires room { length room.old.bytes + MOST_ANSWER ≤ room.old.size }
        ensures hears { (file : List ℕ) → IsBoundTo file self.old.graph self.old.connection →
            Hears (outcome file (record { live = self.old.live; position = self.old.connection.position }) (frame_of frame.entry))
            (record { live = self.new.live; position = self.new.connection.position }) room.old.bytes room.new.bytes }
        ensures bound { (file : List ℕ) → IsBoundTo file self.old.graph self.old.connection → IsBoundTo file self.new.graph self.new.connection }
        ensures size { room.new.size ≡ room.old.size }
    {
        if let Some(why) = first_refusal(&OneEndpoint { live: self.live }, frame) {
            room.put_refused(frame.endpoint, why);
            return;
        }
        match frame.kind {
            FrameKind::Message => self.answer(frame.bytes, room),
            FrameKind::Close => self.live = false,
            FrameKind::Turn | FrameKind::Pick | FrameKind::Refused => {}
        }
    }

    /// Answers a message: a Read by its reply, any other by an epitaph and the endpoint's end.
    fn answer(&mut self, message: &[u8], room: &mut FrameRoom)
        requires bound { (file : List ℕ) × IsBoundTo file self.old.graph self.old.connection }
        requires room { length room.old.bytes + MOST_ANSWER ≤ room.old.size }
        ensures hears { (file : List ℕ) → IsBoundTo file self.old.graph self.old.connection →
            Hears (answered file (record { live = self.old.live; position = self.old.connection.position }) (told message.now))
            (record { live = self.new.live; position = self.new.connection.position }) room.old.bytes room.new.bytes }
        ensures bound { (file : List ℕ) → IsBoundTo file self.old.graph self.old.connection → IsBoundTo file self.new.graph self.new.connection }
        ensures size { room.new.size ≡ room.old.size }
    {
        match meaning_of(message, &self.ordinals) {
            Meaning::Reads { txid, count } => self.read(txid, count, room),
            Meaning::Ends(status) => {
                self.live = false;
                put_end(&mut self.out, status, room);
            }
        }
    }

    /// Answers a Read. It takes no memory, since it changes nothing of the file.
    fn read(&mut self, txid: u32, count: u64, room: &mut FrameRoom)
        requires bound { (file : List ℕ) × IsBoundTo file self.old.graph self.old.connection }
        requires txid { 0 < txid }
        requires room { length room.old.bytes + MOST_ANSWER ≤ room.old.size }
        ensures hears { (file : List ℕ) → IsBoundTo file self.old.graph self.old.connection →
            Hears (read_outcome file (record { live = self.old.live; position = self.old.connection.position }) txid count)
            (record { live = self.new.live; position = self.new.connection.position }) room.old.bytes room.new.bytes }
        ensures bound { (file : List ℕ) → IsBoundTo file self.old.graph self.old.connection → IsBoundTo file self.new.graph self.new.connection }
        ensures size { room.new.size ≡ room.old.size }
    {
        let in_use = Room {
            connections: 1,
            watchers: 0,
            token: None,
        };
        let request = Request::Read { count };
        self.out.clear();
        let served = self.connection.serve(
            &self.ordinals,
            &mut self.graph,
            in_use,
            txid,
            &request,
            &mut self.out,
        );
        match served {
            Served::Reply => {
                room.put_frame(ENDPOINT, FrameKind::Message, &[], self.out.as_bytes());
            }
            _ => unreachable!(),
        }
    }
}

/// Puts the frames by which a message ends the endpoint: an epitaph, and a Close.
fn put_end(out: &mut Out, status: Answer, room: &mut FrameRoom)
    requires { length room.old.bytes + MOST_ANSWER ≤ room.old.size }
    ensures frames { room.new.bytes ≡ room.old.bytes ++ spellings (ending 1 status) }
    ensures size { room.new.size ≡ room.old.size }
{
    out.clear();
    epitaph(status, out);
    room.put_frame(ENDPOINT, FrameKind::Message, &[], out.as_bytes());
    room.put_frame(ENDPOINT, FrameKind::Close, &[], &[]);
}
