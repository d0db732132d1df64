use fidl_names::NoMemory;
use io_messages::TooLong;

/// Why a request was not sent, or a call not noted.
#[derive(Clone, Copy, Debug)]
pub enum ClientFault {
    /// The message would have more than 65,536 bytes.
    TooLong,
    /// A call with this endpoint and transaction id waits for its reply.
    Busy,
    NoMemory,
}

impl From<NoMemory> for ClientFault {
    ghost use Rattle.std.specs.Prelude.{◌≡◌};
    ghost use Rattle.io_client.specs.declared.faults.ClientFault.TheVariants as fault;

    ghost from_gives = { λ _ e. e ≡ fault.NoMemory };

    fn from(_e: NoMemory) -> ClientFault {
        ClientFault::NoMemory
    }
}

impl From<TooLong> for ClientFault {
    ghost use Rattle.std.specs.Prelude.{◌≡◌};
    ghost use Rattle.io_client.specs.declared.faults.ClientFault.TheVariants as fault;

    ghost from_gives = { λ _ e. e ≡ fault.TooLong };

    fn from(_e: TooLong) -> ClientFault {
        ClientFault::TooLong
    }
}
