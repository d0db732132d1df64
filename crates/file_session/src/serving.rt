ghost use Rattle.std.specs.Prelude.{◌≡◌, ◌≤◌, length, true, [], ◌∷◌, IfOk};
ghost use Rattle.conn_rules.specs.Births.{fresh};
ghost use Rattle.link_frames.specs.declared.kinds.Side.TheVariants as side;
ghost use Rattle.run_status.specs.Causes.{AfterNames};
ghost use Rattle.run_status.specs.Outside.{files_told, streams_told};
ghost use Rattle.run_status.specs.Reads.{ReadsOnly};
ghost use Rattle.link_session.specs.Session.{SessionAnswers};
ghost use Rattle.run_status.specs.FileCauses.{AfterFile};
ghost use Rattle.file_session.specs.Bound.{IsBoundTo};
ghost use Rattle.file_session.specs.OneFile.{file_course, IsBehind};

use crate::one_file::{Connection, MOST_ANSWER};
use fidl_names::{MAX_FILE, MAX_PIECE, NoMemory};
use fidl_wire::Ordinals;
use host_io::{Files, Sink, Source};
use link_frames::{FrameRoom, FrameView, Side};
use link_session::{Input, Session, run};
use run_status::{Status, ordinals, read_file};
use std::alloc::Global;

/// The room in which output is gathered: a large piece, and one more answer.
const ROOM: usize = MAX_PIECE + MOST_ANSWER;

/// Serves the file of this name over source and sink.
pub fn serve_file<F: Files, S: Source, K: Sink>(
    alloc: Global,
    name: &str,
    files: &mut F,
    source: &mut S,
    sink: &mut K,
) -> Status
    ensures answers { AfterNames ((source.new ≡ source.old) × (sink.new ≡ sink.old))
        (AfterFile name.now (files_told F.told F.faults F.overlong files.old) (files_told F.told F.faults F.overlong files.new)
        ((source.new ≡ source.old) × (sink.new ≡ sink.old))
        (λ file. SessionAnswers side.ToServers (file_course file)
        (streams_told S.left S.last S.faults K.written K.flushed K.faults source.old sink.old)
        (streams_told S.left S.last S.faults K.written K.flushed K.faults source.new sink.new)
        (sink.new ≡ sink.old))) result }
    ensures reads { ReadsOnly F.reads (name.now ∷ []) files.old files.new }
{
    let ordinals = match ordinals() {
        Ok(ordinals) => ordinals,
        Err(collision) => return collision,
    };
    let file = match read_file(alloc, name, MAX_FILE, files) {
        Ok(file) => file,
        Err(status) => return status,
    };
    let Ok(mut input) = Input::new(alloc) else {
        return Status::NoMemory;
    };
    let Ok(mut session) = FileSession::new(alloc, file, ordinals) else {
        return Status::NoMemory;
    };
    run(&mut session, &mut input, source, sink)
}

/// The session of one file. All its memory is taken before it begins.
#[derive(Drop)]
struct FileSession {
    connection: Connection,
    room: FrameRoom,
}

impl FileSession {
    /// At the start of the file.
    fn new(alloc: Global, file: Vec<u8>, ordinals: Ordinals) -> Result<FileSession, NoMemory>
        requires { length file.items ≤ MAX_FILE }
        ensures live { IfOk result (λ s. s.connection.live ≡ true) }
        ensures position { IfOk result (λ s. s.connection.connection.position ≡ fresh) }
        ensures bound { IfOk result (λ s. IsBoundTo file.items s.connection.graph s.connection.connection) }
        ensures room { IfOk result (λ s. (s.room.bytes ≡ []) × (s.room.size ≡ ROOM)) }
    {
        let connection = Connection::new(alloc, &file, ordinals)?;
        let room = FrameRoom::new(alloc, ROOM)?;
        Ok(FileSession { connection, room })
    }
}

impl Session for FileSession {
    ghost use Rattle.std.specs.Prelude.{◌≡◌, ℕ, List};
    ghost use Rattle.link_frames.specs.declared.kinds.Side.TheVariants as side;
    ghost use Rattle.file_session.specs.declared.serving.TheConstants.{ROOM};
    ghost use Rattle.file_session.specs.Bound.{IsBoundTo};
    ghost use Rattle.file_session.specs.OneFile.{file_course, IsBehind};

    ghost side = { side.ToServers };

    ghost stands = { λ s course frames. (file : List ℕ) × (course ≡ file_course file)
        × IsBoundTo file s.connection.graph s.connection.connection
        × IsBehind file (record { live = s.connection.live; position = s.connection.connection.position }) frames };

    ghost holds = { λ s. s.room.bytes };

    ghost heard = { λ s. 0 };

    ghost ready = { λ s. ((file : List ℕ) × IsBoundTo file s.connection.graph s.connection.connection) × (s.room.size ≡ ROOM) };

    fn side(&self) -> Side {
        Side::ToServers
    }

    fn hear(&mut self, frame: FrameView<'_>) -> Result<(), NoMemory> {
        self.connection.hear(frame, &mut self.room);
        Ok(())
    }

    fn finish(&mut self) -> Result<(), NoMemory> {
        Ok(())
    }

    fn held(&self) -> &[u8] {
        self.room.as_bytes()
    }

    fn clear(&mut self) {
        self.room.clear();
    }
}
