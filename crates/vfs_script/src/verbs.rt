ghost use Rattle.std.specs.Prelude.{◌≡◌};
ghost use Rattle.vfs_script.specs.Lines.{verb_of};

/// What the first word of a line says.
#[derive(Clone, Copy)]
pub(crate) enum Verb {
    Open,
    Clone,
    Close,
    Query,
    Sync,
    Rewind,
    Token,
    Attributes,
    List,
    Rename,
    Link,
    Unlink,
    Watch,
    Read,
    ReadAt,
    Write,
    WriteAt,
    Seek,
    Resize,
    Echo,
    HangUp,
    Turn,
    Pick,
    Raw,
}

/// The verb whose word this is.
#[tactic(auto, unfolding(crate::specs::Lines::verb_of))]
pub(crate) fn verb_of(word: &[u8]) -> Option<Verb>
    ensures { result ≡ verb_of word.now }
{
    match word {
        b"open" => Some(Verb::Open),
        b"clone" => Some(Verb::Clone),
        b"close" => Some(Verb::Close),
        b"query" => Some(Verb::Query),
        b"sync" => Some(Verb::Sync),
        b"rewind" => Some(Verb::Rewind),
        b"token" => Some(Verb::Token),
        b"attributes" => Some(Verb::Attributes),
        b"list" => Some(Verb::List),
        b"rename" => Some(Verb::Rename),
        b"link" => Some(Verb::Link),
        b"unlink" => Some(Verb::Unlink),
        b"watch" => Some(Verb::Watch),
        b"read" => Some(Verb::Read),
        b"readat" => Some(Verb::ReadAt),
        b"write" => Some(Verb::Write),
        b"writeat" => Some(Verb::WriteAt),
        b"seek" => Some(Verb::Seek),
        b"resize" => Some(Verb::Resize),
        b"echo" => Some(Verb::Echo),
        b"hangup" => Some(Verb::HangUp),
        b"turn" => Some(Verb::Turn),
        b"pick" => Some(Verb::Pick),
        b"raw" => Some(Verb::Raw),
        _ => None,
    }
}
