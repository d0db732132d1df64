// The record that stands in front of some bytes.

ghost use Rattle.std.specs.Prelude.{◌≡◌, ◌∷◌, IfSome, IsNone};
ghost use Rattle.link_frames.specs.Views.{frame_of};
ghost use Rattle.link_audit.specs.Records.{HasNoRecord, is_answering, is_sending};
ghost use Rattle.link_audit.specs.Fronts.{Shows};

use link_frames::{FrameKind, FrameView, Reading, Side, frame_at, word_in};

/// A record, lent from where it stands.
#[derive(Clone, Copy)]
pub(crate) enum Record<'a> {
    /// A message or a hang-up came in.
    In(FrameView<'a>),
    /// The first entry that waits on this endpoint was served.
    Served(u32),
    /// A frame went out, which is spelled so.
    Out {
        frame: FrameView<'a>,
        spelled: &'a [u8],
    },
    End,
}

/// A record, and how many bytes it takes.
#[derive(Clone, Copy)]
pub(crate) struct Front<'a> {
    pub(crate) one: Record<'a>,
    pub(crate) size: usize,
}

/// The record in front of these bytes, if there is one. Behind an End there may be none.
pub(crate) fn front_of(bytes: &[u8]) -> Option<Front<'_>>
    ensures shown { IfSome result (λ front. Shows bytes.now front) }
    ensures none { IsNone result → HasNoRecord bytes.now }
{
    let (tag, body) = bytes.split_first()?;
    match *tag {
        0 => in_front(body),
        1 => served_front(body),
        2 => out_front(body),
        3 => end_front(body),
        _ => None,
    }
}

/// The record of a frame that came in, by what stands behind its tag.
fn in_front(body: &[u8]) -> Option<Front<'_>>
    ensures shown { IfSome result (λ front. Shows (0 ∷ body.now) front) }
    ensures none { IsNone result → HasNoRecord (0 ∷ body.now) }
{
    let Reading::Whole { frame, size } = frame_at(Side::ToServers, body) else {
        return None;
    };
    if !is_sending(frame.kind) {
        return None;
    }
    Some(Front {
        one: Record::In(frame),
        size: 1 + size,
    })
}

fn is_sending(kind: FrameKind) -> bool
    ensures { result ≡ is_sending kind }
{
    match kind {
        FrameKind::Message | FrameKind::Close => true,
        FrameKind::Turn | FrameKind::Pick | FrameKind::Refused => false,
    }
}

/// The record of a serving, by what stands behind its tag.
fn served_front(body: &[u8]) -> Option<Front<'_>>
    ensures shown { IfSome result (λ front. Shows (1 ∷ body.now) front) }
    ensures none { IsNone result → HasNoRecord (1 ∷ body.now) }
{
    if body.len() < 4 {
        return None;
    }
    Some(Front {
        one: Record::Served(word_in(body)),
        size: 5,
    })
}

/// The record of a frame that went out, by what stands behind its tag.
fn out_front(body: &[u8]) -> Option<Front<'_>>
    ensures shown { IfSome result (λ front. Shows (2 ∷ body.now) front) }
    ensures none { IsNone result → HasNoRecord (2 ∷ body.now) }
{
    let Reading::Whole { frame, size } = frame_at(Side::Any, body) else {
        return None;
    };
    if !is_answering(frame.kind) {
        return None;
    }
    Some(Front {
        one: Record::Out {
            frame,
            spelled: &body[..size],
        },
        size: 1 + size,
    })
}

fn is_answering(kind: FrameKind) -> bool
    ensures { result ≡ is_answering kind }
{
    match kind {
        FrameKind::Message | FrameKind::Close | FrameKind::Refused => true,
        FrameKind::Turn | FrameKind::Pick => false,
    }
}

/// The record of an end, by what stands behind its tag.
fn end_front<'a>(body: &'a [u8]) -> Option<Front<'a>>
    ensures shown { IfSome result (λ front. Shows (3 ∷ body.now) front) }
    ensures none { IsNone result → HasNoRecord (3 ∷ body.now) }
{
    if !body.is_empty() {
        return None;
    }
    Some(Front {
        one: Record::End,
        size: 1,
    })
}
