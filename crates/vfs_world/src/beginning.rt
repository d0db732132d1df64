//! What a session begins with: the servers of a start, and what is bound from the first on.

ghost use Rattle.std.specs.Prelude.{◌≡◌, ◌++◌, [], IfOk, OnOk, map};
ghost use Rattle.session_start.specs.Accepted.{AreAccepted, HasFilesOfBytes};
ghost use Rattle.vfs_journal.specs.Starts.{start_of};
ghost use Rattle.vfs_journal.specs.View.{view_of};
ghost use Rattle.journal_laws.specs.Knowing.{Knows};
ghost use Rattle.journal_laws.specs.Soundness.{IsStart};
ghost use Rattle.vfs_world.specs.Holding.{HoldsEach, HoldsQueues};
ghost use Rattle.vfs_world.specs.Running.{whole};
ghost use Rattle.vfs_world.specs.World.{StandsFor};
ghost use Rattle.vfs_world.specs.Beginning.{BindsJust};

use crate::session::Session;
use fidl_names::{NoMemory, end_of_mount};
use fidl_wire::{Ordinals, Out};
use link_admission::Endpoints;
use message_queues::Queues;
use session_start::Start;
use std::alloc::Global;
use vfs_server::Server;

// Puts the servers of a start behind each other, by their indexes.
fn add_servers(alloc: Global, start: &Start, servers: &mut Vec<Server>) -> Result<(), NoMemory>
    requires none { servers.old.items ≡ [] }
    ensures { OnOk result (HoldsEach (view_of (start_of start.now) []) servers.new.items) }
{
    for index in 0..start.servers() {
        let server = Server::begin(alloc, start, index)?;
        servers.push(server)?;
    }
    Ok(())
}

// The servers, by their indexes.
fn begin_servers(alloc: Global, start: &Start) -> Result<Vec<Server>, NoMemory>
    ensures { IfOk result (λ servers. HoldsEach (view_of (start_of start.now) []) servers.items) }
{
    let mut servers = Vec::new(alloc);
    add_servers(alloc, start, &mut servers)?;
    Ok(servers)
}

// Binds the first connections, in the order of the file.
fn bind_clients(start: &Start, queues: &mut Queues) -> Result<(), NoMemory>
    requires sound { IsStart (start_of start.now) }
    requires none { BindsJust (start_of start.now) [] queues.old }
    ensures { OnOk result (BindsJust (start_of start.now) (start_of start.now).firsts queues.new) }
{
    for item in 0..start.clients() {
        let client = start.client_at(item);
        queues.bind(client.endpoint, client.server)?;
    }
    Ok(())
}

// Binds the ends of the mounts behind the first connections, each at its target.
fn bind_mounts(start: &Start, queues: &mut Queues) -> Result<(), NoMemory>
    requires accepted { AreAccepted start.now }
    requires sound { IsStart (start_of start.now) }
    requires firsts { BindsJust (start_of start.now) (start_of start.now).firsts queues.old }
    ensures { OnOk result (BindsJust (start_of start.now) ((start_of start.now).firsts ++ (start_of start.now).mounts) queues.new) }
{
    for item in 0..start.mounts() {
        let mount = start.mount_at(item);
        queues.bind(end_of_mount(item), mount.target)?;
    }
    Ok(())
}

// Binds all that is bound from the first on.
fn bind_firsts(start: &Start, queues: &mut Queues) -> Result<(), NoMemory>
    requires accepted { AreAccepted start.now }
    requires sound { IsStart (start_of start.now) }
    requires none { BindsJust (start_of start.now) [] queues.old }
    ensures { OnOk result (BindsJust (start_of start.now) ((start_of start.now).firsts ++ (start_of start.now).mounts) queues.new) }
{
    bind_clients(start, queues)?;
    bind_mounts(start, queues)
}

// Nothing waits, and first connections and the ends of mounts are bound, of a start that keeps the rules of a tree.
fn begin_queues(alloc: Global, start: &Start) -> Result<Queues, NoMemory>
    ensures accepted { AreAccepted start.now }
    ensures bytes { HasFilesOfBytes start.now }
    ensures holds { IfOk result (HoldsQueues (view_of (start_of start.now) [])) }
{
    let mut queues = Queues::new(alloc, start.servers())?;
    bind_firsts(start, &mut queues)?;
    Ok(queues)
}

// The endpoints of the first connections, in the order of the file.
fn first_endpoints(alloc: Global, start: &Start) -> Result<Vec<u32>, NoMemory>
    ensures { IfOk result (λ endpoints. endpoints.items ≡ map (λ bound. bound.endpoint) (start_of start.now).firsts) }
{
    let mut endpoints = Vec::new(alloc);
    for item in 0..start.clients() {
        let client = start.client_at(item);
        endpoints.push(client.endpoint)?;
    }
    Ok(endpoints)
}

// What is known of endpoints: those of first connections and of mounts live.
fn known_endpoints(alloc: Global, start: &Start) -> Result<Endpoints, NoMemory>
    requires accepted { AreAccepted start.now }
    ensures { IfOk result (Knows (start_of start.now) []) }
{
    let firsts = first_endpoints(alloc, start)?;
    Endpoints::new(alloc, &firsts, start.mounts(), start.servers())
}

/// The session of an accepted start, before its first frame. Its servers are made last, so that they need not be let go of for want of memory.
pub(crate) fn begin(alloc: Global, ordinals: Ordinals, start: &Start) -> Result<Session, NoMemory>
    ensures accepted { AreAccepted start.now }
    ensures bytes { HasFilesOfBytes start.now }
    ensures stands { IfOk result (λ session. StandsFor (start_of start.now) (whole session) []) }
{
    let queues = begin_queues(alloc, start)?;
    let out = Out::new(alloc)?;
    let endpoints = known_endpoints(alloc, start)?;
    let servers = begin_servers(alloc, start)?;
    Ok(Session::new(alloc, ordinals, servers, queues, endpoints, out))
}
