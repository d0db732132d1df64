// How numbers stand, and why a frame or a token isn't taken.

ghost use Rattle.std.specs.Prelude.{◌≡◌};
ghost use Rattle.link_admission.specs.Standings.{is_live};

use fidl_names::NoMemory;
use link_frames::Refusal;

/// How an endpoint's number stands.
#[derive(Clone, Copy)]
pub enum Standing {
    /// It was never used.
    Unused,
    /// It is bound at a server, or travels in a waiting message.
    Live,
    /// It is live, and the client that held it sent Close.
    HungUp,
    /// It was live once.
    Dead,
}

impl Standing {
    /// Whether an endpoint that stands so is live.
    pub fn is_live(self) -> bool
        ensures { result ≡ is_live self }
    {
        match self {
            Standing::Live | Standing::HungUp => true,
            Standing::Unused | Standing::Dead => false,
        }
    }
}

/// What `admit` answers of a frame that it didn't admit.
#[derive(Clone, Copy)]
pub enum AdmitFault {
    Refused(Refusal),
    NoMemory,
}

impl From<NoMemory> for AdmitFault {
    ghost use Rattle.link_admission.specs.declared.kinds.AdmitFault.TheVariants as admit_fault;

    ghost from_gives = { λ _ fault. fault ≡ admit_fault.NoMemory };

    fn from(_e: NoMemory) -> AdmitFault {
        AdmitFault::NoMemory
    }
}

/// What `give_token` answers where it gives none.
#[derive(Clone, Copy)]
pub enum TokenFault {
    /// So many tokens are held or travel as can, or the last number was given.
    Full,
    NoMemory,
}

impl From<NoMemory> for TokenFault {
    ghost use Rattle.link_admission.specs.declared.kinds.TokenFault.TheVariants as token_fault;

    ghost from_gives = { λ _ fault. fault ≡ token_fault.NoMemory };

    fn from(_e: NoMemory) -> TokenFault {
        TokenFault::NoMemory
    }
}
