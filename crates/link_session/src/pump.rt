//! The pump: it reads the pieces of an input, until that ends.

ghost use Rattle.std.specs.Prelude.{◌≤◌, ◌<◌, length, IfErr, IfOk};
ghost use Rattle.fidl_names.specs.declared.limits.TheConstants as limit;
ghost use Rattle.link_session.specs.Pieces.{Ends, ReadsOn};

use crate::input::Input;
use fidl_names::{MAX_INPUT, MAX_PIECE};
use host_io::Source;
use link_frames::MAX_FRAME_LEN;

/// How the reading of an input ended.
#[derive(Clone, Copy)]
pub enum Ended {
    /// Between frames.
    Whole,
    /// Inside the frame that begins at this offset.
    Inside { at: u64 },
    /// As many bytes were taken as one session takes: 2^40.
    TooLong,
    /// A read failed.
    Failed,
}

/// Reads the next piece behind the bytes that are kept, which have begun a frame at most, and answers how many bytes are taken by
/// then, of which so many were taken before; or how the reading ended.
pub fn next_piece<S: Source>(input: &mut Input, source: &mut S, taken: u64) -> Result<u64, Ended>
    requires room { length input.old < MAX_FRAME_LEN }
    requires kept { length input.old ≤ taken }
    requires taken { taken ≤ limit.MAX_INPUT }
    ensures piece { IfOk result (λ now. ReadsOn (S.left source.old) (S.left source.new) (S.last source.new) (S.faults source.old) (S.faults source.new) input.old input.new taken now) }
    ensures ended { IfErr result (λ how. Ends (S.left source.old) (S.left source.new) (S.faults source.old) (S.faults source.new) input.old input.new taken how) }
{
    if taken == MAX_INPUT {
        return Err(Ended::TooLong);
    }
    let most = (MAX_INPUT - taken).min(MAX_PIECE as u64) as usize;
    let Ok(n) = input.read(source, most) else {
        return Err(Ended::Failed);
    };
    if n > 0 {
        return Ok(taken + n as u64);
    }
    let kept = input.bytes().len();
    if kept == 0 {
        return Err(Ended::Whole);
    }
    Err(Ended::Inside {
        at: taken - kept as u64,
    })
}
