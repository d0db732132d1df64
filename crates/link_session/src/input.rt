ghost use Rattle.std.specs.Prelude.{◌≡◌, ◌<◌, ◌≤◌, ◌+◌, List, [], ◌++◌, length, take, drop, IfOk, OnErr};
ghost use Rattle.std.specs.Io.KnownBytes.{Consumes, IsAtEnd, Keeps};
ghost use Rattle.host_io.specs.Causes.{HasCause};
ghost use Rattle.host_io.specs.Streams.{IsLast};
ghost use Rattle.link_session.specs.Pieces.{TakesPiece};

use fidl_names::MAX_PIECE;
use host_io::{Failed, Source};
use link_frames::MAX_FRAME_LEN;
use std::alloc::{AllocError, Global};
use std::marker::Model;

/// The bytes that were read and aren't served yet, at the front of a buffer.
#[derive(Drop)]
pub struct Input {
    buffer: Vec<u8>,
    kept: usize,
}

impl Model for Input {
    ghost use Rattle.std.specs.Prelude.{◌≡◌, ◌≤◌, ◌+◌, ℕ, List, take, vec_len};
    ghost use Rattle.fidl_names.specs.declared.limits.TheConstants as limit;
    ghost use Rattle.link_frames.specs.declared.fixed.TheConstants.{MAX_FRAME_LEN};

    ghost Value = { List ℕ };

    ghost view = { λ i. take i.kept i.buffer.items };

    ghost invariant = { λ i. (vec_len i.buffer ≡ MAX_FRAME_LEN + limit.MAX_PIECE) × (i.kept ≤ MAX_FRAME_LEN + limit.MAX_PIECE) };
}

impl Input {
    /// Nothing is kept. All the room is taken here.
    pub fn new(alloc: Global) -> Result<Input, AllocError>
        ensures { IfOk result (λ input. input ≡ []) }
    {
        Ok(Input {
            buffer: vec![in alloc; 0; MAX_FRAME_LEN + MAX_PIECE]?,
            kept: 0,
        })
    }

    /// What is kept.
    pub fn bytes(&self) -> &[u8]
        ensures { result.now ≡ self.now }
    {
        &self.buffer[..self.kept]
    }

    /// Reads a piece of at most so many bytes, behind those that are kept, and answers its length.
    pub fn read<S: Source>(&mut self, source: &mut S, most: usize) -> Result<usize, Failed>
        requires room { length self.old < MAX_FRAME_LEN }
        requires some { 0 < most }
        requires piece { most ≤ MAX_PIECE }
        ensures piece { IfOk result (λ n. TakesPiece (S.left source.old) (S.left source.new) self.old self.new n) }
        ensures bound { IfOk result (λ n. n ≤ most) }
        ensures last { IsLast (S.last source.old) (S.last source.new) result }
        ensures err { OnErr result ((self.new ≡ self.old) × Keeps (S.left source.old) (S.left source.new)) }
        ensures cause { HasCause (S.faults source.old) (S.faults source.new) result }
    {
        let n = read_behind(source, &mut self.buffer, self.kept, most)?;
        self.kept += n;
        Ok(n)
    }

    /// Drops so many of the first bytes. Where none go, as of a frame that isn't whole yet, none is
    /// moved.
    pub fn drop_front(&mut self, n: usize)
        requires { n ≤ length self.old }
        ensures { self.new ≡ drop n self.old }
    {
        if n == 0 {
            return;
        }
        self.buffer.copy_within(n..self.kept, 0);
        self.kept -= n;
    }
}

/// Reads a piece of at most so many bytes to a buffer, behind the bytes that are kept at its front.
fn read_behind<S: Source>(
    source: &mut S,
    buffer: &mut [u8],
    kept: usize,
    most: usize,
) -> Result<usize, Failed>
    requires room { kept < length buffer.old }
    requires some { 0 < most }
    ensures piece { IfOk result (λ n. TakesPiece (S.left source.old) (S.left source.new)
        (take kept buffer.old) (take (kept + n) buffer.new) n) }
    ensures bound { IfOk result (λ n. (n ≤ most) × (kept + n ≤ length buffer.old)) }
    ensures last { IsLast (S.last source.old) (S.last source.new) result }
    ensures err { OnErr result ((take kept buffer.new ≡ take kept buffer.old) × Keeps (S.left source.old) (S.left source.new)) }
    ensures cause { HasCause (S.faults source.old) (S.faults source.new) result }
{
    let end = kept + most.min(buffer.len() - kept);
    let n = source.read(&mut buffer[kept..end])?;
    Ok(n)
}
