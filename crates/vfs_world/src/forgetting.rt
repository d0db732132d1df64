//! The tokens of a serving: those that are spent, which nobody holds or carries any more, and the one that it gives.

ghost use Rattle.std.specs.Prelude.{◌≡◌, ◌++◌, false, fold, OnOk, Some};
ghost use Rattle.std.specs.FinMap as finite;
ghost use Rattle.link_admission.specs.Standings.{gone};
ghost use Rattle.vfs_journal.specs.Entries.{tokens_in};
ghost use Rattle.vfs_world.specs.ServingSteps.{CanGo, ForgetsAll, ForgetsEach, known_told};

use fidl_names::{NoMemory, is_client};
use link_admission::Endpoints;
use message_queues::Lent;
use vfs_server::{Fate, Server};

/// Forgets a token at every server.
fn forget_everywhere(servers: &mut Vec<Server>, token: u32)
    ensures { ForgetsEach servers.old.items token servers.new.items }
{
    for at in 0..servers.len() {
        let server = &mut servers[at];
        server.forget(token);
    }
}

/// Forgets a token that nobody holds.
pub(crate) fn forget(servers: &mut Vec<Server>, endpoints: &mut Endpoints, token: u32)
    requires out { finite.get endpoints.old.tokens token ≡ Some false }
    ensures forgets { ForgetsEach servers.old.items token servers.new.items }
    ensures known { endpoints.new ≡ gone endpoints.old token }
{
    endpoints.token_gone(token);
    forget_everywhere(servers, token);
}

/// Forgets the tokens that an entry carries.
fn forget_carried(servers: &mut Vec<Server>, endpoints: &mut Endpoints, sent: &Lent<'_>)
    requires out { CanGo endpoints.old (tokens_in sent.now) }
    ensures forgets { ForgetsAll servers.old.items (tokens_in sent.now) servers.new.items }
    ensures known { endpoints.new ≡ fold gone endpoints.old (tokens_in sent.now) }
{
    for handle in sent.handles() {
        let number = handle.number();
        if !is_client(number) {
            forget(servers, endpoints, number);
        }
    }
}

/// Forgets these tokens.
fn forget_all(servers: &mut Vec<Server>, endpoints: &mut Endpoints, tokens: &[u32])
    requires out { CanGo endpoints.old tokens.now }
    ensures forgets { ForgetsAll servers.old.items tokens.now servers.new.items }
    ensures known { endpoints.new ≡ fold gone endpoints.old tokens.now }
{
    for token in tokens {
        forget(servers, endpoints, *token);
    }
}

/// Forgets the tokens that are spent: those that the served entry carries, whatever it was, and those of
/// what was dropped.
pub(crate) fn spend(
    servers: &mut Vec<Server>,
    endpoints: &mut Endpoints,
    sent: &Lent<'_>,
    dropped: &[u32],
)
    requires out { CanGo endpoints.old (tokens_in sent.now ++ dropped.now) }
    ensures forgets { ForgetsAll servers.old.items (tokens_in sent.now ++ dropped.now) servers.new.items }
    ensures known { endpoints.new ≡ fold gone endpoints.old (tokens_in sent.now ++ dropped.now) }
{
    forget_carried(servers, endpoints, sent);
    forget_all(servers, endpoints, dropped);
}

/// Lets the clients hold the token that a fate gives. That is the next one, so that only memory can be
/// wanting for it.
#[inline(always)]
pub(crate) fn give(endpoints: &mut Endpoints, fate: &Fate<'_>) -> Result<(), NoMemory>
    ensures { OnOk result (endpoints.new ≡ known_told fate.now endpoints.old) }
{
    let Fate::Gives { .. } = fate else {
        return Ok(());
    };
    match endpoints.give_token() {
        Ok(_) => Ok(()),
        Err(_) => Err(NoMemory),
    }
}
