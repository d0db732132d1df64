ghost use Rattle.std.specs.Prelude.{◌≡◌, [], ◌∷◌, IfOk, IfErr, Ok, Err};
ghost use Rattle.fidl_wire.specs.Layout.{struct, fields, number, num};
ghost use Rattle.fidl_wire.specs.Reading.{body_of};
ghost use Rattle.file_session.specs.OneFile.{meaning_of};
ghost use Rattle.file_session.specs.Meanings.{HasTxid, seen};

use fidl_wire::{Body, Header, Method, Ordinals, Status, WireFault};

/// What a message on the file's endpoint is.
#[derive(Clone, Copy)]
pub enum Meaning {
    /// It asks for so many bytes.
    Reads { txid: u32, count: u64 },
    /// It ends its endpoint with this status.
    Ends(Status),
}

/// What a message on the file's endpoint is: the header is read first, then the ordinal, then the
/// rest.
#[tactic(auto, unfolding(crate::specs::OneFile::meaning_of, io_messages::specs::Requests::fields_of))]
pub fn meaning_of(message: &[u8], ordinals: &Ordinals) -> Meaning
    ensures meaning { seen result ≡ meaning_of message.now }
    ensures txid { HasTxid result }
{
    let Ok(header) = Header::read(message) else {
        return Meaning::Ends(Status::InvalidArgs);
    };
    if header.ordinal != ordinals.of(Method::Read) {
        return Meaning::Ends(Status::NotSupported);
    }
    if header.txid == 0 {
        return Meaning::Ends(Status::InvalidArgs);
    }
    match count_of(message) {
        Ok(count) => Meaning::Reads {
            txid: header.txid,
            count,
        },
        Err(_) => Meaning::Ends(Status::InvalidArgs),
    }
}

/// The count that a Read has behind its header, and nothing else.
fn count_of(message: &[u8]) -> Result<u64, WireFault>
    ensures value { IfOk result (λ x. body_of (struct (number 8 ∷ [])) message.now [] ≡ Ok (fields (num x ∷ []))) }
    ensures fault { IfErr result (λ e. body_of (struct (number 8 ∷ [])) message.now [] ≡ Err e) }
{
    let mut body = Body::new(message, &[], 8)?;
    let count = body.get_u64()?;
    body.finish()?;
    Ok(count)
}
