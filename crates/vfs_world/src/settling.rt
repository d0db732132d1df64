//! What becomes of endpoints: they are bound for what waits on them, or die.

ghost use Rattle.std.specs.Prelude.{◌≡◌, ◌≢◌, ◌≤◌, ◌<◌, ℕ, true, All, AllPairs, List, None, OnOk, Some, fold, IfOk};
ghost use Rattle.link_admission.specs.Standings.{ended, is_live, standing_of};
ghost use Rattle.vfs_journal.specs.View.{View};
ghost use Rattle.message_queues.specs.Dying.{AreDeaths, Buries, tokens_on};
ghost use Rattle.message_queues.specs.Queues.{count, server_of};
ghost use Rattle.vfs_server.specs.Holding.{HoldsAt};
ghost use Rattle.vfs_world.specs.Holding.{HoldsEach};
ghost use Rattle.vfs_world.specs.ServingSteps.{AreApart, BindsThere, bound_told, without_in};

use fidl_names::NoMemory;
use link_admission::Endpoints;
use message_queues::{Buried, Queues};
use std::alloc::Global;
use vfs_server::{Fate, Server};

/// Binds the endpoint that a fate binds, which is bound at this server, there for what waits on it.
#[inline(always)]
pub(crate) fn bind(queues: &mut Queues, server: u32, fate: &Fate<'_>) -> Result<(), NoMemory>
    requires unbound { (object : ℕ) → bound_told fate.now ≡ Some object → server_of queues.old object ≡ None }
    requires one_of { server < queues.old.servers }
    ensures bound { OnOk result (BindsThere server (bound_told fate.now) queues.old queues.new) }
    ensures count { OnOk result (count queues.new ≡ count queues.old) }
{
    match fate {
        Fate::Binds { object } => queues.bind(*object, server),
        _ => Ok(()),
    }
}

/// Lets these endpoints go where they are bound at a server.
fn let_go(server: &mut Server, dead: &[u32])
    ensures index { server.new.index ≡ server.old.index }
    ensures gone { (view : View) → AreApart view.living → HoldsAt view server.old → HoldsAt (without_in view dead.now) server.new }
{
    for endpoint in dead {
        server.unbind(*endpoint);
    }
}

/// Lets these endpoints go wherever they are bound.
pub(crate) fn let_all_go(servers: &mut Vec<Server>, dead: &[u32])
    ensures gone { (view : View) → AreApart view.living → HoldsEach view servers.old.items → HoldsEach (without_in view dead.now) servers.new.items }
{
    for at in 0..servers.len() {
        let server = &mut servers[at];
        let_go(server, dead);
    }
}

/// Ends endpoints that live, each once.
fn end_all(endpoints: &mut Endpoints, dead: &[u32])
    requires live { All (λ endpoint. is_live (standing_of endpoints.old endpoint) ≡ true) dead.now }
    requires once { AllPairs (λ one other. one ≢ other) dead.now }
    ensures { endpoints.new ≡ fold ended endpoints.old dead.now }
{
    for endpoint in dead {
        endpoints.ended(*endpoint);
    }
}

/// Buries endpoints and all that die with them: they are bound no more, what was sent on them waits no
/// more, and they are known to be dead. Tells who died, each once, and the tokens that what was dropped
/// carried.
pub(crate) fn bury(
    alloc: Global,
    servers: &mut Vec<Server>,
    queues: &mut Queues,
    endpoints: &mut Endpoints,
    dying: Vec<u32>,
) -> Result<Buried, NoMemory>
    requires live { (dead : List ℕ) → AreDeaths queues.old dying.items dead → All (λ endpoint. is_live (standing_of endpoints.old endpoint) ≡ true) dead }
    requires counted { count queues.old ≡ endpoints.old.waiting }
    ensures died { IfOk result (λ buried. AreDeaths queues.old dying.items buried.dead.items) }
    ensures buried { IfOk result (λ buried. Buries queues.old buried.dead.items queues.new) }
    ensures tokens { IfOk result (λ buried. buried.tokens.items ≡ tokens_on queues.old buried.dead.items) }
    ensures gone { (view : View) → AreApart view.living → HoldsEach view servers.old.items → IfOk result (λ buried. HoldsEach (without_in view buried.dead.items) servers.new.items) }
    ensures known { IfOk result (λ buried. endpoints.new ≡ record (fold ended endpoints.old buried.dead.items) { waiting = count queues.new }) }
    ensures count { OnOk result (count queues.new ≤ count queues.old) }
{
    let before = queues.len();
    let buried = queues.bury(alloc, dying)?;
    endpoints.dropped(before - queues.len());
    end_all(endpoints, &buried.dead);
    let_all_go(servers, &buried.dead);
    Ok(buried)
}
