// The forms of lines.

ghost use Rattle.std.specs.Prelude.{Some};
ghost use Rattle.std.specs.Str.{IsUtf8};
ghost use Rattle.io_messages.specs.Asked.{asked};
ghost use Rattle.io_messages.specs.Writing.{HasTexts};
ghost use Rattle.vfs_script.specs.Lines.{behind, line_of};
ghost use Rattle.vfs_script.specs.Lines as lines;
ghost use Rattle.vfs_script.specs.Parsed.{AreTexts, Forms, IsText, ended, finished};

use crate::numbers::{long, short, signed};
use crate::verbs::{Verb, verb_of};
use io_messages::Request;
use text_pieces::Pieces;

/// A line whose numbers were read, but neither its bytes nor its handles.
#[derive(Clone, Copy)]
pub(crate) enum Parsed<'a> {
    Request(u32, Request<'a>),
    Write {
        endpoint: u32,
        hex: &'a [u8],
    },
    WriteAt {
        endpoint: u32,
        offset: u64,
        hex: &'a [u8],
    },
    Echo {
        endpoint: u32,
        hex: &'a [u8],
    },
    Raw {
        endpoint: u32,
        handles: &'a [u8],
        hex: &'a [u8],
    },
    HangUp {
        endpoint: u32,
    },
    Turn {
        server: u32,
        count: u32,
    },
    Pick {
        endpoint: u32,
    },
}

// What was read, where no word is left.
fn ended<'a>(parsed: Parsed<'a>, mut words: Pieces<'a>) -> Option<Parsed<'a>>
    requires { IsText parsed }
    ensures { Forms (ended words.entry (finished parsed.entry)) result }
{
    words.next_short().is_none().then_some(parsed)
}

// A request without fields.
fn plain_form<'a>(endpoint: u32, request: Request<'a>, fields: Pieces<'a>) -> Option<Parsed<'a>>
    requires { HasTexts (asked request) }
    ensures { Forms (ended fields.entry (Some (lines.request endpoint (asked request.entry)))) result }
{
    ended(Parsed::Request(endpoint, request), fields)
}

// Behind `open E`: PATH FLAGS N
fn open_form<'a>(endpoint: u32, mut fields: Pieces<'a>) -> Option<Parsed<'a>>
    requires { AreTexts fields }
    ensures { Forms (behind Verb.Open endpoint fields.entry) result }
{
    let path = fields.next_short()?;
    let flags = long(fields.next_short()?)?;
    let object = short(fields.next_short()?)?;
    let request = Request::OpenPath {
        path,
        flags,
        attributes: None,
        object,
    };
    ended(Parsed::Request(endpoint, request), fields)
}

// Behind `clone E`: N
fn clone_form<'a>(endpoint: u32, mut fields: Pieces<'a>) -> Option<Parsed<'a>>
    ensures { Forms (behind Verb.Clone endpoint fields.entry) result }
{
    let request = short(fields.next_short()?)?;
    ended(
        Parsed::Request(endpoint, Request::Clone { request }),
        fields,
    )
}

// Behind `attributes E`: Q
fn attributes_form<'a>(endpoint: u32, mut fields: Pieces<'a>) -> Option<Parsed<'a>>
    ensures { Forms (behind Verb.Attributes endpoint fields.entry) result }
{
    let query = long(fields.next_short()?)?;
    let request = Request::GetAttributes { query };
    ended(Parsed::Request(endpoint, request), fields)
}

// Behind `list E`: MAX
fn list_form<'a>(endpoint: u32, mut fields: Pieces<'a>) -> Option<Parsed<'a>>
    ensures { Forms (behind Verb.List endpoint fields.entry) result }
{
    let max_bytes = long(fields.next_short()?)?;
    let request = Request::ReadDirents { max_bytes };
    ended(Parsed::Request(endpoint, request), fields)
}

// Behind `rename E`: SRC T DST
fn rename_form<'a>(endpoint: u32, mut fields: Pieces<'a>) -> Option<Parsed<'a>>
    requires { AreTexts fields }
    ensures { Forms (behind Verb.Rename endpoint fields.entry) result }
{
    let src = fields.next_short()?;
    let token = short(fields.next_short()?)?;
    let dst = fields.next_short()?;
    let request = Request::Rename { src, token, dst };
    ended(Parsed::Request(endpoint, request), fields)
}

// Behind `link E`: SRC T DST
fn link_form<'a>(endpoint: u32, mut fields: Pieces<'a>) -> Option<Parsed<'a>>
    requires { AreTexts fields }
    ensures { Forms (behind Verb.Link endpoint fields.entry) result }
{
    let src = fields.next_short()?;
    let token = short(fields.next_short()?)?;
    let dst = fields.next_short()?;
    let request = Request::Link { src, token, dst };
    ended(Parsed::Request(endpoint, request), fields)
}

// Behind `unlink E`: NAME FLAGS
fn unlink_form<'a>(endpoint: u32, mut fields: Pieces<'a>) -> Option<Parsed<'a>>
    requires { AreTexts fields }
    ensures { Forms (behind Verb.Unlink endpoint fields.entry) result }
{
    let name = fields.next_short()?;
    let flags = long(fields.next_short()?)?;
    let request = Request::Unlink { name, flags };
    ended(Parsed::Request(endpoint, request), fields)
}

// Behind `watch E`: MASK N
fn watch_form<'a>(endpoint: u32, mut fields: Pieces<'a>) -> Option<Parsed<'a>>
    ensures { Forms (behind Verb.Watch endpoint fields.entry) result }
{
    let mask = short(fields.next_short()?)?;
    let watcher = short(fields.next_short()?)?;
    let request = Request::Watch {
        mask,
        options: 0,
        watcher,
    };
    ended(Parsed::Request(endpoint, request), fields)
}

// Behind `read E`: COUNT
fn read_form<'a>(endpoint: u32, mut fields: Pieces<'a>) -> Option<Parsed<'a>>
    ensures { Forms (behind Verb.Read endpoint fields.entry) result }
{
    let count = long(fields.next_short()?)?;
    let request = Request::Read { count };
    ended(Parsed::Request(endpoint, request), fields)
}

// Behind `readat E`: COUNT OFFSET
fn read_at_form<'a>(endpoint: u32, mut fields: Pieces<'a>) -> Option<Parsed<'a>>
    ensures { Forms (behind Verb.ReadAt endpoint fields.entry) result }
{
    let count = long(fields.next_short()?)?;
    let offset = long(fields.next_short()?)?;
    let request = Request::ReadAt { count, offset };
    ended(Parsed::Request(endpoint, request), fields)
}

// Behind `write E`: HEX
fn write_form<'a>(endpoint: u32, mut fields: Pieces<'a>) -> Option<Parsed<'a>>
    ensures { Forms (behind Verb.Write endpoint fields.entry) result }
{
    let hex = fields.next_short()?;
    ended(Parsed::Write { endpoint, hex }, fields)
}

// Behind `writeat E`: HEX OFFSET
fn write_at_form<'a>(endpoint: u32, mut fields: Pieces<'a>) -> Option<Parsed<'a>>
    ensures { Forms (behind Verb.WriteAt endpoint fields.entry) result }
{
    let hex = fields.next_short()?;
    let offset = long(fields.next_short()?)?;
    let parsed = Parsed::WriteAt {
        endpoint,
        offset,
        hex,
    };
    ended(parsed, fields)
}

// Behind `seek E`: ORIGIN OFFSET
fn seek_form<'a>(endpoint: u32, mut fields: Pieces<'a>) -> Option<Parsed<'a>>
    ensures { Forms (behind Verb.Seek endpoint fields.entry) result }
{
    let origin = short(fields.next_short()?)?;
    let offset = signed(fields.next_short()?)?;
    let request = Request::Seek { origin, offset };
    ended(Parsed::Request(endpoint, request), fields)
}

// Behind `resize E`: LENGTH
fn resize_form<'a>(endpoint: u32, mut fields: Pieces<'a>) -> Option<Parsed<'a>>
    ensures { Forms (behind Verb.Resize endpoint fields.entry) result }
{
    let length = long(fields.next_short()?)?;
    let request = Request::Resize { length };
    ended(Parsed::Request(endpoint, request), fields)
}

// Behind `echo E`: HEX
fn echo_form<'a>(endpoint: u32, mut fields: Pieces<'a>) -> Option<Parsed<'a>>
    ensures { Forms (behind Verb.Echo endpoint fields.entry) result }
{
    let hex = fields.next_short()?;
    ended(Parsed::Echo { endpoint, hex }, fields)
}

// Behind `hangup E`: nothing
fn hang_up_form<'a>(endpoint: u32, fields: Pieces<'a>) -> Option<Parsed<'a>>
    ensures { Forms (behind Verb.HangUp endpoint fields.entry) result }
{
    ended(Parsed::HangUp { endpoint }, fields)
}

// Behind `turn S`: N
fn turn_form<'a>(endpoint: u32, mut fields: Pieces<'a>) -> Option<Parsed<'a>>
    ensures { Forms (behind Verb.Turn endpoint fields.entry) result }
{
    let count = short(fields.next_short()?)?;
    let parsed = Parsed::Turn {
        server: endpoint,
        count,
    };
    ended(parsed, fields)
}

// Behind `raw E`: HANDLES HEX
fn raw_form<'a>(endpoint: u32, mut fields: Pieces<'a>) -> Option<Parsed<'a>>
    ensures { Forms (behind Verb.Raw endpoint fields.entry) result }
{
    let handles = fields.next_short()?;
    let hex = fields.next_short()?;
    let parsed = Parsed::Raw {
        endpoint,
        handles,
        hex,
    };
    ended(parsed, fields)
}

// What the words behind the verb and the endpoint say.
fn form_of<'a>(verb: Verb, endpoint: u32, fields: Pieces<'a>) -> Option<Parsed<'a>>
    requires { AreTexts fields }
    ensures { Forms (behind verb endpoint fields.entry) result }
{
    match verb {
        Verb::Open => open_form(endpoint, fields),
        Verb::Clone => clone_form(endpoint, fields),
        Verb::Close => plain_form(endpoint, Request::Close, fields),
        Verb::Query => plain_form(endpoint, Request::Query, fields),
        Verb::Sync => plain_form(endpoint, Request::Sync, fields),
        Verb::Rewind => plain_form(endpoint, Request::Rewind, fields),
        Verb::Token => plain_form(endpoint, Request::GetToken, fields),
        Verb::Attributes => attributes_form(endpoint, fields),
        Verb::List => list_form(endpoint, fields),
        Verb::Rename => rename_form(endpoint, fields),
        Verb::Link => link_form(endpoint, fields),
        Verb::Unlink => unlink_form(endpoint, fields),
        Verb::Watch => watch_form(endpoint, fields),
        Verb::Read => read_form(endpoint, fields),
        Verb::ReadAt => read_at_form(endpoint, fields),
        Verb::Write => write_form(endpoint, fields),
        Verb::WriteAt => write_at_form(endpoint, fields),
        Verb::Seek => seek_form(endpoint, fields),
        Verb::Resize => resize_form(endpoint, fields),
        Verb::Echo => echo_form(endpoint, fields),
        Verb::HangUp => hang_up_form(endpoint, fields),
        Verb::Turn => turn_form(endpoint, fields),
        Verb::Pick => ended(Parsed::Pick { endpoint }, fields),
        Verb::Raw => raw_form(endpoint, fields),
    }
}

/// What a line of UTF-8 says, as far as it can be told without its bytes.
pub(crate) fn line_of(line: &[u8]) -> Option<Parsed<'_>>
    requires { IsUtf8 line.now }
    ensures { Forms (line_of line.now) result }
{
    let mut words = Pieces::new(b' ', line);
    let verb = verb_of(words.next_short()?)?;
    let endpoint = short(words.next_short()?)?;
    form_of(verb, endpoint, words)
}
