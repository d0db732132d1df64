ghost use Rattle.std.specs.Prelude.{◌≡◌};
ghost use Rattle.fidl_wire.specs.Layout.{is_kind, is_required};

use fidl_names::Handle;

/// Which handles a field may hold.
#[derive(Clone, Copy)]
pub enum HandleKind {
    AnyHandle,
    AnEndpoint,
    AToken,
}

/// What a member of a table is. One that is known has to be there where that is said.
#[derive(Clone, Copy)]
pub enum MemberKind {
    /// It is not known, and is passed by its counts.
    Unknown,
    /// A number of eight bytes.
    Number { required: bool },
    /// A vector of bytes.
    Bytes { required: bool },
}

/// What a member of a table has.
#[derive(Clone, Copy)]
pub enum Member<'a> {
    Number(u64),
    /// The part of the message that has them.
    Bytes(&'a [u8]),
}

impl MemberKind {
    /// It has to be there.
    pub(crate) fn is_required(self) -> bool
        ensures { result ≡ is_required self }
    {
        match self {
            MemberKind::Unknown => false,
            MemberKind::Number { required } | MemberKind::Bytes { required } => required,
        }
    }
}

/// The handle is of the kind.
pub fn is_kind(kind: HandleKind, handle: Handle) -> bool
    ensures { result ≡ is_kind kind handle }
{
    match (kind, handle) {
        (HandleKind::AnyHandle, _) => true,
        (HandleKind::AnEndpoint, Handle::Endpoint(_)) => true,
        (HandleKind::AToken, Handle::Token(_)) => true,
        _ => false,
    }
}
