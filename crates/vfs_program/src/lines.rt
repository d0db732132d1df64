ghost use Rattle.std.specs.Prelude.{◌≡◌};
ghost use Rattle.link_frames.specs.declared.kinds.Side.TheVariants as side;
ghost use Rattle.run_status.specs.Causes.{AfterNames};
ghost use Rattle.run_status.specs.Outside.{streams_told};
ghost use Rattle.link_session.specs.Session.{SessionAnswers};
ghost use Rattle.vfs_program.specs.Shown.{lines_course};

use fidl_names::NoMemory;
use fidl_wire::Ordinals;
use host_io::{Sink, Source};
use link_frames::{FrameView, Side};
use link_session::{Input, Session, run};
use run_status::{Status, ordinals};
use std::alloc::Global;
use vfs_script::{Outtext, print_frame};

/// Prints each frame of the source as a line.
pub(crate) fn show<S: Source, K: Sink>(alloc: Global, source: &mut S, sink: &mut K) -> Status
    ensures { AfterNames ((source.new ≡ source.old) × (sink.new ≡ sink.old))
        (SessionAnswers side.Any lines_course
        (streams_told S.left S.last S.faults K.written K.flushed K.faults source.old sink.old)
        (streams_told S.left S.last S.faults K.written K.flushed K.faults source.new sink.new)
        (sink.new ≡ sink.old)) result }
{
    let ordinals = match ordinals() {
        Ok(ordinals) => ordinals,
        Err(collision) => return collision,
    };
    let Ok(mut input) = Input::new(alloc) else {
        return Status::NoMemory;
    };
    let mut session = LinesSession {
        ordinals,
        text: Outtext::new(alloc),
    };
    run(&mut session, &mut input, source, sink)
}

/// The lines of a stream's frames.
#[derive(Drop)]
struct LinesSession {
    ordinals: Ordinals,
    text: Outtext,
}

impl Session for LinesSession {
    ghost use Rattle.std.specs.Prelude.{◌≡◌};
    ghost use Rattle.link_frames.specs.declared.kinds.Side.TheVariants as side;
    ghost use Rattle.vfs_program.specs.Shown.{lines_course};

    ghost side = { side.Any };

    ghost stands = { λ s course frames. course ≡ lines_course };

    ghost holds = { λ s. s.text };

    ghost heard = { λ s. 0 };

    ghost ready = { λ s. Unit {0} };

    fn side(&self) -> Side {
        Side::Any
    }

    fn hear(&mut self, frame: FrameView<'_>) -> Result<(), NoMemory> {
        print_frame(&self.ordinals, frame, &mut self.text)
    }

    fn finish(&mut self) -> Result<(), NoMemory> {
        Ok(())
    }

    fn held(&self) -> &[u8] {
        self.text.as_bytes()
    }

    fn clear(&mut self) {
        self.text.clear();
    }
}
