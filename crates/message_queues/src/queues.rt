//! What waits, over all endpoints.

ghost use Rattle.std.specs.Prelude.{◌≡◌, ◌≢◌, ◌↔◌, AllPairs, ◌≤◌, ◌<◌, ◌+◌, ◌++◌, ◌∷◌, [], true, false, Some, None, IfOk, IfSome, IsOk, IsSome, IsTrue, OnOk, OnErr, MatchOption, drop, length, nat_eq, slice_get, sum_by, unwrap_or};
ghost use Rattle.std.specs.HashMap.{IsUnique, PutsEntry, Updates, get};
ghost use Rattle.std.specs.List.Sorted.{IsPermutation};
ghost use Rattle.message_queues.specs.Queues.{Binds, IsAbove, IsNew, IsReady, Requeues, count, head_of, queue_of, server_of};
ghost use Rattle.message_queues.specs.Oldest.{IsBound, IsBoundAt, IsOldest, NothingWaits};
ghost use Rattle.message_queues.specs.Dying.{AreDeaths, Buries, tokens_on};
ghost use Rattle.message_queues.specs.Steps.{Gathers, bound_box, drop_turn, first_pushed, no_box, older, popped_box, pushed_box, put_turn, turn_by};

use crate::dying::{Buried, Dying};
use crate::heads::{Heads, older};
use crate::mailbox::Mailbox;
use crate::parcel::Sent;
use fidl_names::{MAX_WAITING, NoMemory};
use std::alloc::Global;
use std::collections::HashMap;
use std::marker::Model;

/// What waits on each endpoint, and at which server each endpoint is bound. At most 4,096 entries wait.
pub struct Queues {
    alloc: Global,
    boxes: HashMap<u32, Mailbox>,
    heads: Vec<Heads>,
    count: u32,
    servers: u32,
}

// Who owns queues lets go of them by one call, and not of each part by another.
impl Drop for Queues {
    fn drop(self) {
        let Queues {
            alloc: _alloc,
            boxes: _boxes,
            heads: _heads,
            count: _count,
            servers: _servers,
        } = self;
    }
}

impl Model for Queues {
    ghost use Rattle.message_queues.specs.Queues as waiting;
    ghost use Rattle.message_queues.specs.Steps.{IsSound, queues_with};

    ghost Value = { waiting.Queues };

    ghost coded = { waiting.queues_code };

    ghost view = { λ queues. queues_with queues.boxes.entries queues.servers };

    ghost invariant = { λ queues. IsSound queues.boxes.entries queues.heads.items queues.count queues.servers };
}

impl Queues {
    /// Nothing waits, and no endpoint is bound, at so many servers.
    pub fn new(alloc: Global, servers: u32) -> Result<Queues, NoMemory>
        ensures { IfOk result (λ queues. IsNew queues servers) }
    {
        Ok(Queues {
            alloc,
            boxes: HashMap::new(alloc),
            heads: Heads::of_each(alloc, servers)?,
            count: 0,
            servers,
        })
    }

    /// How many servers there are.
    pub fn servers(&self) -> u32
        ensures { result ≡ self.now.servers }
    {
        self.servers
    }

    /// At which server an endpoint is bound.
    pub fn server_of(&self, endpoint: u32) -> Option<u32>
        ensures { result ≡ server_of self.now endpoint }
    {
        match self.boxes.get(&endpoint) {
            Some(mailbox) => mailbox.server(),
            None => None,
        }
    }

    /// How many entries wait.
    pub fn len(&self) -> u32
        ensures len { result ≡ count self.now }
        ensures few { result ≤ MAX_WAITING }
    {
        self.count
    }

    /// Whether an endpoint is bound and something waits on it.
    pub fn is_ready(&self, endpoint: u32) -> bool
        ensures { IsTrue result ↔ IsReady self.now endpoint }
    {
        match self.boxes.get(&endpoint) {
            Some(mailbox) => mailbox.is_ready(),
            None => false,
        }
    }

    /// Of the endpoints that are bound at a server, the one whose first entry is the oldest; `None` where nothing waits on any of them.
    pub fn oldest(&self, server: u32) -> Option<u32>
        ensures { MatchOption result (NothingWaits self.now (IsBoundAt self.now server)) (λ endpoint. IsOldest self.now (IsBoundAt self.now server) endpoint) }
    {
        let heads = self.heads.get(server as usize)?;
        match heads.oldest() {
            Some(head) => Some(head.1),
            None => None,
        }
    }

    /// The same of all endpoints that are bound.
    pub fn next(&self) -> Option<u32>
        ensures { MatchOption result (NothingWaits self.now (IsBound self.now)) (λ endpoint. IsOldest self.now (IsBound self.now) endpoint) }
    {
        if self.count == 0 {
            return None;
        }
        let mut oldest = None;
        for heads in &self.heads {
            oldest = older(oldest, heads.oldest());
        }
        match oldest {
            Some(head) => Some(head.1),
            None => None,
        }
    }

    /// Binds an endpoint at a server. What waits on it already is served there from now on. Want of memory leaves all as it was.
    pub fn bind(&mut self, endpoint: u32, server: u32) -> Result<(), NoMemory>
        requires unbound { server_of self.old endpoint ≡ None }
        requires one_of { server < self.old.servers }
        ensures bound { OnOk result (Binds self.old endpoint server self.new) }
        ensures len { OnOk result (count self.new ≡ count self.old) }
        ensures err { OnErr result (self.new ≡ self.old) }
    {
        bind_at(
            &mut self.boxes,
            &mut self.heads,
            self.alloc,
            endpoint,
            server,
        )
    }

    /// Puts an entry behind all that waits on its endpoint. Want of memory leaves all as it was.
    pub fn push(&mut self, sent: Sent) -> Result<(), NoMemory>
        requires newest { IsAbove self.old sent.place }
        requires few { count self.old < MAX_WAITING }
        ensures pushed { OnOk result (Requeues self.old sent.endpoint (queue_of self.old sent.endpoint ++ sent ∷ []) self.new) }
        ensures len { OnOk result (count self.new ≡ count self.old + 1) }
        ensures err { OnErr result (self.new ≡ self.old) }
    {
        let endpoint = sent.endpoint;
        match self.boxes.get_mut(&endpoint) {
            Some(mailbox) => push_into(mailbox, &mut self.heads, sent)?,
            None => {
                let mailbox = Mailbox::new(self.alloc, None, Some(sent));
                add_box(&mut self.boxes, endpoint, mailbox)?;
            }
        }
        self.count += 1;
        Ok(())
    }

    /// Takes the first entry from a bound endpoint on which something waits, and tells at which server that is bound. Want of memory
    /// leaves all as it was.
    pub fn take(&mut self, endpoint: u32) -> Result<(u32, Sent), NoMemory>
        requires { IsReady self.old endpoint }
        ensures bound { IfOk result (λ taken. server_of self.old endpoint ≡ Some taken.0) }
        ensures first { IfOk result (λ taken. head_of self.old endpoint ≡ Some taken.1) }
        ensures later { OnOk result (Requeues self.old endpoint (drop 1 (queue_of self.old endpoint)) self.new) }
        ensures len { OnOk result (count self.new + 1 ≡ count self.old) }
        ensures err { OnErr result (self.new ≡ self.old) }
    {
        let Some(mailbox) = self.boxes.get_mut(&endpoint) else {
            unreachable!();
        };
        let taken = take_from(mailbox, &mut self.heads, endpoint)?;
        self.count -= 1;
        Ok(taken)
    }

    /// Drops what waits on these endpoints and on all that die with them, since what is dropped carries them, and unbinds them. Answers
    /// all that died, each once, and the tokens that what is dropped carried. Want of memory leaves all as it was.
    pub fn bury(&mut self, alloc: Global, dying: Vec<u32>) -> Result<Buried, NoMemory>
        ensures died { IfOk result (λ buried. AreDeaths self.old dying.items buried.dead.items) }
        ensures buried { IfOk result (λ buried. Buries self.old buried.dead.items self.new) }
        ensures tokens { IfOk result (λ buried. buried.tokens.items ≡ tokens_on self.old buried.dead.items) }
        ensures dropped { IfOk result (λ buried. count self.new + sum_by (λ endpoint. length (queue_of self.old endpoint)) buried.dead.items ≡ count self.old) }
        ensures err { OnErr result (self.new ≡ self.old) }
    {
        let buried = self.deaths(alloc, dying)?;
        self.close_all(&buried.dead);
        Ok(buried)
    }

    /// Buries an endpoint alone, where nothing waits: nobody dies with it, and nothing is dropped. Tells whether that is so; where
    /// something waits all is as it was.
    pub fn bury_alone(&mut self, endpoint: u32) -> bool
        ensures alone { IsTrue result ↔ (count self.old ≡ 0) }
        ensures died { result ≡ true → AreDeaths self.old (endpoint ∷ []) (endpoint ∷ []) }
        ensures buried { result ≡ true → Buries self.old (endpoint ∷ []) self.new }
        ensures tokens { result ≡ true → tokens_on self.old (endpoint ∷ []) ≡ [] }
        ensures count { result ≡ true → count self.new ≡ count self.old }
        ensures unchanged { result ≡ false → self.new ≡ self.old }
    {
        if self.count != 0 {
            return false;
        }
        self.close(endpoint);
        true
    }

    /// Who dies with these, and the tokens that the entries carry which wait on them.
    fn deaths(&self, alloc: Global, firsts: Vec<u32>) -> Result<Buried, NoMemory>
        ensures died { IfOk result (λ buried. AreDeaths self.now firsts.items buried.dead.items) }
        ensures tokens { IfOk result (λ buried. buried.tokens.items ≡ tokens_on self.now buried.dead.items) }
    {
        let mut dying = Dying::of(alloc, firsts)?;
        if self.count == 0 {
            return Ok(dying.into_buried());
        }
        let mut index = 0;
        while let Some(endpoint) = dying.get(index) {
            self.add_carried(endpoint, &mut dying)?;
            index += 1;
        }
        Ok(dying.into_buried())
    }

    /// Adds what the entries carry that wait on one.
    fn add_carried(&self, endpoint: u32, dying: &mut Dying) -> Result<(), NoMemory>
        ensures { OnOk result (Gathers (queue_of self.now endpoint) dying.old dying.new) }
    {
        match self.boxes.get(&endpoint) {
            Some(mailbox) => mailbox.add_carried(dying),
            None => Ok(()),
        }
    }

    /// Drops what waits on endpoints, of which no two are one, and unbinds them.
    fn close_all(&mut self, dead: &[u32])
        requires { AllPairs (λ one other. one ≢ other) dead.now }
        ensures closed { Buries self.old dead.now self.new }
        ensures len { count self.new + sum_by (λ endpoint. length (queue_of self.old endpoint)) dead.now ≡ count self.old }
    {
        for endpoint in dead {
            self.close(*endpoint);
        }
    }

    /// Drops what waits on an endpoint, and unbinds it.
    fn close(&mut self, endpoint: u32)
        ensures closed { Buries self.old (endpoint ∷ []) self.new }
        ensures len { count self.new + length (queue_of self.old endpoint) ≡ count self.old }
    {
        let Some(mailbox) = self.boxes.remove(&endpoint) else {
            return;
        };
        self.count -= discard(mailbox, &mut self.heads);
    }
}

/// Adds a mailbox where there is none.
fn add_box(
    boxes: &mut HashMap<u32, Mailbox>,
    endpoint: u32,
    mailbox: Mailbox,
) -> Result<(), NoMemory>
    requires { get nat_eq boxes.old endpoint ≡ None }
    ensures updates { OnOk result (Updates nat_eq boxes.old boxes.new endpoint (Some mailbox)) }
    ensures entries { OnOk result (IsPermutation ((endpoint, mailbox) ∷ boxes.old.entries) boxes.new.entries) }
    ensures unique { IsUnique nat_eq boxes.new }
    ensures err { OnErr result (boxes.new.entries ≡ boxes.old.entries) }
{
    boxes.insert(endpoint, mailbox)?;
    Ok(())
}

/// Binds an endpoint at its mailbox, or at a new one where it has none.
fn bind_at(
    boxes: &mut HashMap<u32, Mailbox>,
    heads: &mut Vec<Heads>,
    alloc: Global,
    endpoint: u32,
    server: u32,
) -> Result<(), NoMemory>
    requires { server < length heads.old.items }
    ensures updates { OnOk result (Updates nat_eq boxes.old boxes.new endpoint (Some (bound_box (unwrap_or (get nat_eq boxes.old endpoint) no_box) server))) }
    ensures puts { OnOk result (PutsEntry nat_eq boxes.old boxes.new endpoint (bound_box (unwrap_or (get nat_eq boxes.old endpoint) no_box) server) (get nat_eq boxes.old endpoint)) }
    ensures put { OnOk result (heads.new.items ≡ put_turn heads.old.items (turn_by (Some server) (slice_get (unwrap_or (get nat_eq boxes.old endpoint) no_box).queue 0)) endpoint) }
    ensures unique { IsUnique nat_eq boxes.new }
    ensures err { OnErr result ((boxes.new.entries ≡ boxes.old.entries) × (heads.new.items ≡ heads.old.items)) }
{
    let entry = boxes.entry(endpoint)?;
    let mailbox = entry.or_insert(Mailbox::new(alloc, None, None));
    bind_waiting(mailbox, heads, endpoint, server)
}

/// Binds an endpoint that has a mailbox. Its first entry is put in order.
fn bind_waiting(
    mailbox: &mut Mailbox,
    heads: &mut Vec<Heads>,
    endpoint: u32,
    server: u32,
) -> Result<(), NoMemory>
    requires { server < length heads.old.items }
    ensures bound { OnOk result (mailbox.new ≡ bound_box mailbox.old server) }
    ensures put { OnOk result (heads.new.items ≡ put_turn heads.old.items (turn_by (Some server) (slice_get mailbox.old.queue 0)) endpoint) }
    ensures err { OnErr result ((mailbox.new ≡ mailbox.old) × (heads.new.items ≡ heads.old.items)) }
    ensures empty { slice_get mailbox.old.queue 0 ≡ None → IsOk result }
{
    if let Some(head) = mailbox.head() {
        put_turn(heads, server, head.place, endpoint)?;
    }
    mailbox.bind(server);
    Ok(())
}

/// Puts an entry into its mailbox. The first one of a bound endpoint is put in order.
fn push_into(mailbox: &mut Mailbox, heads: &mut Vec<Heads>, sent: Sent) -> Result<(), NoMemory>
    requires { IfSome mailbox.old.server (λ server. server < length heads.old.items) }
    ensures pushed { OnOk result (mailbox.new ≡ pushed_box mailbox.old sent) }
    ensures put { OnOk result (heads.new.items ≡ put_turn heads.old.items (turn_by mailbox.old.server (first_pushed mailbox.old sent)) sent.endpoint) }
    ensures err { OnErr result ((mailbox.new ≡ mailbox.old) × (heads.new.items ≡ heads.old.items)) }
{
    if let (Some(server), None) = (mailbox.server(), mailbox.head()) {
        put_turn(heads, server, sent.place, sent.endpoint)?;
    }
    mailbox.push(sent)
}

/// Takes the first entry from a mailbox, and tells at which server that is bound. The next one is put in order before, so that want of
/// memory changes nothing.
fn take_from(
    mailbox: &mut Mailbox,
    heads: &mut Vec<Heads>,
    endpoint: u32,
) -> Result<(u32, Sent), NoMemory>
    requires bound { IsSome mailbox.old.server }
    requires some { IsSome (slice_get mailbox.old.queue 0) }
    requires known { IfSome mailbox.old.server (λ server. server < length heads.old.items) }
    ensures bound { IfOk result (λ taken. mailbox.old.server ≡ Some taken.0) }
    ensures first { IfOk result (λ taken. slice_get mailbox.old.queue 0 ≡ Some taken.1) }
    ensures later { OnOk result (mailbox.new ≡ popped_box mailbox.old) }
    ensures put { OnOk result (heads.new.items ≡ drop_turn (put_turn heads.old.items (turn_by mailbox.old.server (slice_get mailbox.old.queue 1)) endpoint) (turn_by mailbox.old.server (slice_get mailbox.old.queue 0))) }
    ensures err { OnErr result ((mailbox.new ≡ mailbox.old) × (heads.new.items ≡ heads.old.items)) }
{
    let Some(server) = mailbox.server() else {
        unreachable!();
    };
    advance(mailbox, heads, server, endpoint)?;
    let Some(sent) = mailbox.pop() else {
        unreachable!();
    };
    Ok((server, sent))
}

/// The entry behind the first one of a mailbox is put in order in the place of that.
fn advance(
    mailbox: &Mailbox,
    heads: &mut Vec<Heads>,
    server: u32,
    endpoint: u32,
) -> Result<(), NoMemory>
    requires some { IsSome (slice_get mailbox.now.queue 0) }
    requires known { server < length heads.old.items }
    ensures put { OnOk result (heads.new.items ≡ drop_turn (put_turn heads.old.items (turn_by (Some server) (slice_get mailbox.now.queue 1)) endpoint) (turn_by (Some server) (slice_get mailbox.now.queue 0))) }
    ensures err { OnErr result (heads.new.items ≡ heads.old.items) }
{
    let Some(first) = mailbox.head() else {
        unreachable!();
    };
    match mailbox.second() {
        Some(second) => heads[server as usize].advance(first.place, second.place, endpoint),
        None => {
            drop_turn(heads, server, first.place);
            Ok(())
        }
    }
}

/// Drops a mailbox, and its first entry from the order. Answers how many entries waited there.
fn discard(mailbox: Mailbox, heads: &mut Vec<Heads>) -> u32
    requires few { length mailbox.queue ≤ MAX_WAITING }
    requires known { IfSome mailbox.server (λ server. server < length heads.old.items) }
    ensures len { result ≡ length mailbox.queue }
    ensures dropped { heads.new.items ≡ drop_turn heads.old.items (turn_by mailbox.server (slice_get mailbox.queue 0)) }
{
    if let (Some(server), Some(head)) = (mailbox.server(), mailbox.head()) {
        drop_turn(heads, server, head.place);
    }
    mailbox.len()
}

/// Puts the first entry of an endpoint, by its place, in the order of a server.
#[inline(always)]
fn put_turn(heads: &mut Vec<Heads>, server: u32, place: u64, endpoint: u32) -> Result<(), NoMemory>
    requires { server < length heads.old.items }
    ensures put { OnOk result (heads.new.items ≡ put_turn heads.old.items (Some (server, place)) endpoint) }
    ensures err { OnErr result (heads.new.items ≡ heads.old.items) }
{
    heads[server as usize].put(place, endpoint)
}

/// Takes what stands at a place out of the order of a server.
#[inline(always)]
fn drop_turn(heads: &mut Vec<Heads>, server: u32, place: u64)
    requires { server < length heads.old.items }
    ensures { heads.new.items ≡ drop_turn heads.old.items (Some (server, place)) }
{
    heads[server as usize].remove(place);
}
