//! What is kept of one endpoint.

ghost use Rattle.std.specs.Prelude.{◌≡◌, ◌↔◌, ◌≤◌, ◌<◌, ◌++◌, [], ◌∷◌, None, Some, IsOk, IsSome, IsTrue, OnOk, OnErr, drop, length, option_to_list, slice_get};
ghost use Rattle.std.specs.Option.{option_copied};
ghost use Rattle.message_queues.specs.Steps.{Gathers};

use crate::dying::Dying;
use crate::parcel::Sent;
use fidl_names::{MAX_WAITING, NoMemory};
use std::alloc::Global;
use std::collections::VecDeque;
use std::marker::Model;
use std::mem;

/// At which server an endpoint is bound, and what waits on it. The first entry lies here and takes no memory
/// of its own.
#[derive(Drop)]
pub(crate) struct Mailbox {
    server: Option<u32>,
    first: Option<Sent>,
    later: VecDeque<Sent>,
}

impl Model for Mailbox {
    ghost use Rattle.std.specs.Prelude.{◌≡◌, ◌++◌, [], None, option_to_list};
    ghost use Rattle.message_queues.specs.Queues as queues;

    ghost Value = { queues.Mailbox };

    ghost coded = { queues.mailbox_code };

    ghost view = { λ mailbox. record { server = mailbox.server; queue = option_to_list mailbox.first ++ mailbox.later.items } };

    ghost invariant = { λ mailbox. mailbox.first ≡ None → mailbox.later.items ≡ [] };
}

impl Mailbox {
    pub(crate) fn new(alloc: Global, server: Option<u32>, first: Option<Sent>) -> Mailbox
        ensures server { result.server ≡ server }
        ensures queue { result.queue ≡ option_to_list first }
    {
        Mailbox {
            server,
            first,
            later: VecDeque::new(alloc),
        }
    }

    pub(crate) fn server(&self) -> Option<u32>
        ensures { result ≡ self.now.server }
    {
        self.server
    }

    pub(crate) fn bind(&mut self, server: u32)
        ensures server { self.new.server ≡ Some server }
        ensures queue { self.new.queue ≡ self.old.queue }
    {
        self.server = Some(server);
    }

    /// The first entry.
    pub(crate) fn head(&self) -> Option<&Sent>
        ensures { option_copied result ≡ slice_get self.now.queue 0 }
    {
        self.first.as_ref()
    }

    /// The entry behind the first.
    pub(crate) fn second(&self) -> Option<&Sent>
        ensures { option_copied result ≡ slice_get self.now.queue 1 }
    {
        self.later.front()
    }

    /// Whether the endpoint is bound and something waits on it.
    pub(crate) fn is_ready(&self) -> bool
        ensures { IsTrue result ↔ IsSome self.now.server × IsSome (slice_get self.now.queue 0) }
    {
        self.server.is_some() && self.first.is_some()
    }

    /// Puts an entry behind all others.
    pub(crate) fn push(&mut self, sent: Sent) -> Result<(), NoMemory>
        ensures pushed { OnOk result (self.new.queue ≡ self.old.queue ++ sent ∷ []) }
        ensures server { OnOk result (self.new.server ≡ self.old.server) }
        ensures err { OnErr result (self.new ≡ self.old) }
        ensures empty { self.old.queue ≡ [] → IsOk result }
    {
        if self.first.is_none() {
            self.first = Some(sent);
            return Ok(());
        }
        self.later.push_back(sent)?;
        Ok(())
    }

    /// The first entry leaves.
    pub(crate) fn pop(&mut self) -> Option<Sent>
        ensures first { result ≡ slice_get self.old.queue 0 }
        ensures later { self.new.queue ≡ drop 1 self.old.queue }
        ensures server { self.new.server ≡ self.old.server }
    {
        let next = self.later.pop_front();
        mem::replace(&mut self.first, next)
    }

    /// How many entries wait, of which there are no more than may wait.
    pub(crate) fn len(&self) -> u32
        requires { length self.now.queue ≤ MAX_WAITING }
        ensures { result ≡ length self.now.queue }
    {
        match &self.first {
            Some(_) => 1 + self.later.len() as u32,
            None => 0,
        }
    }

    /// Adds what the entries carry.
    pub(crate) fn add_carried(&self, dying: &mut Dying) -> Result<(), NoMemory>
        ensures { OnOk result (Gathers self.now.queue dying.old dying.new) }
    {
        if let Some(first) = &self.first {
            dying.add_carried(first)?;
        }
        let (front, back) = self.later.as_slices();
        dying.add_all_carried(front)?;
        dying.add_all_carried(back)
    }
}
