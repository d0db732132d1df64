// The endpoints of the link: which numbers are used, and which frames are admitted.

ghost use Rattle.std.specs.Prelude.{◌≡◌, ◌≢◌, ◌≤◌, ◌<◌, ◌+◌, ◌-◌, ◌⊎◌, true, false, [], ◌∷◌, All, Some, None, IsTrue, length, count_by, IfOk, OnOk, OnErr, MatchOption};
ghost use Rattle.std.specs.FinMap as map;
ghost use Rattle.fidl_names.specs.First.{cause_if, first_of};
ghost use Rattle.fidl_names.specs.HandleNumber.{is_client};
ghost use Rattle.link_admission.specs.Tables.{AreEachOnce};
ghost use Rattle.link_admission.specs.Standings.{standing_of, is_used, is_live, next_token_of, Starts, Sends, hung_up, ended, given, gone};
ghost use Rattle.link_admission.specs.Admission.{look_ups, all_may_travel, admission, is_full, too_many, Admits};
ghost use Rattle.link_frames.specs.Frames.{goes_to};
ghost use Rattle.link_frames.specs.declared.kinds.Side.TheVariants as side;
ghost use Rattle.link_frames.specs.Views.{frame_of, handle_numbers};

use crate::admission::{LookUp, first_refusal, live_refusal, room_refusal};
use crate::kinds::{AdmitFault, Standing, TokenFault};
use crate::standings::Standings;
use crate::tokens::Tokens;
use fidl_names::{MAX_LIVE, MAX_WAITING, NoMemory};
use link_frames::{FrameKind, FrameView, HandleBytes, Refusal};
use std::alloc::Global;
use std::marker::Model;

/// All endpoints and tokens of the link, and how many entries wait.
pub struct Endpoints {
    standings: Standings,
    tokens: Tokens,
    waiting: u32,
    servers: u32,
}

// Who owns these lets go of them by one call, and not of each part by another.
impl Drop for Endpoints {
    fn drop(self) {
        let Endpoints {
            standings: _standings,
            tokens: _tokens,
            waiting: _waiting,
            servers: _servers,
        } = self;
    }
}

impl Model for Endpoints {
    ghost use Rattle.link_admission.specs.Standings.{Known, known_code};
    ghost use Rattle.link_admission.specs.Tables.{KeepsApart};

    ghost Value = { Known };

    ghost coded = { known_code };

    ghost view = { λ e. record {
      standings = e.standings.entries;
      live = e.standings.live;
      tokens = e.tokens.entries;
      out = e.tokens.out;
      next = e.tokens.next;
      waiting = e.waiting;
      servers = e.servers;
    } };

    ghost invariant = { λ e. KeepsApart e.standings.entries e.tokens.entries e.tokens.next };
}

/// Whether a number that stands so was used.
fn is_used(standing: Standing) -> bool
    ensures { result ≡ is_used standing }
{
    match standing {
        Standing::Unused => false,
        Standing::Live => true,
        Standing::HungUp => true,
        Standing::Dead => true,
    }
}

/// What admission looks up here.
impl LookUp for Endpoints {
    ghost use Rattle.std.specs.Prelude.{◌≡◌};
    ghost use Rattle.link_admission.specs.Admission.{look_ups};

    ghost tells = { look_ups };

    fn standing_at(&self, number: u32) -> Standing {
        self.standing(number)
    }

    fn was_used(&self, number: u32) -> bool {
        is_used(self.standing(number))
    }

    fn is_held(&self, token: u32) -> bool {
        self.tokens.holds(token)
    }

    fn waiting(&self) -> u32 {
        self.waiting
    }

    fn live(&self) -> u32 {
        self.standings.live() as u32
    }

    fn servers(&self) -> u32 {
        self.servers
    }
}

/// What an admitted frame changes.
impl Endpoints {
    /// Changes what a frame changes that nothing refuses.
    #[inline(always)]
    fn take(&mut self, frame: FrameView<'_>) -> Result<(), AdmitFault>
        requires way { IsTrue (goes_to side.ToServers frame.kind) }
        requires none { admission (look_ups self.old) (frame_of frame) ≡ None }
        ensures answer { (result ≡ Ok tt) ⊎ (result ≡ Err AdmitFault.NoMemory) }
        ensures admitted { OnOk result (Admits self.old (frame_of frame.entry) self.new) }
        ensures unchanged { OnErr result (self.new ≡ self.old) }
        ensures memory { (frame_of frame.entry).handles ≡ [] → result ≢ Err AdmitFault.NoMemory }
    {
        match frame.kind {
            FrameKind::Message => self.take_message(frame.handles),
            FrameKind::Close => {
                self.take_close(frame.endpoint);
                Ok(())
            }
            FrameKind::Turn | FrameKind::Pick | FrameKind::Refused => Ok(()),
        }
    }

    /// Lets a message with these handles wait.
    #[inline(always)]
    fn take_message(&mut self, handles: HandleBytes<'_>) -> Result<(), AdmitFault>
        requires travel { all_may_travel (look_ups self.old) (handle_numbers handles) ≡ true }
        requires few { self.old.live + count_by is_client (handle_numbers handles) ≤ MAX_LIVE }
        requires room { self.old.waiting < MAX_WAITING }
        ensures answer { (result ≡ Ok tt) ⊎ (result ≡ Err AdmitFault.NoMemory) }
        ensures sent { OnOk result (Sends self.old (handle_numbers handles.entry) self.new) }
        ensures unchanged { OnErr result (self.new ≡ self.old) }
        ensures memory { handle_numbers handles.entry ≡ [] → result ≢ Err AdmitFault.NoMemory }
    {
        self.standings.make_all(handles)?;
        self.tokens.send_all(handles);
        self.waiting += 1;
        Ok(())
    }

    /// Lets a hang-up wait.
    fn take_close(&mut self, endpoint: u32)
        requires live { standing_of self.old endpoint ≡ Standing.Live }
        requires room { self.old.waiting < MAX_WAITING }
        ensures { self.new ≡ hung_up self.old endpoint }
    {
        self.standings.change(endpoint, Standing::HungUp);
        self.waiting += 1;
    }
}

impl Endpoints {
    /// The link's beginning: the first connections and so many mount ends are live.
    pub fn new(
        alloc: Global,
        firsts: &[u32],
        mounts: u32,
        servers: u32,
    ) -> Result<Endpoints, NoMemory>
        requires clients { All (λ n. is_client n ≡ true) firsts.now }
        requires distinct { AreEachOnce firsts.now }
        requires few { length firsts.now + mounts ≤ MAX_LIVE }
        ensures { IfOk result (Starts firsts.now mounts servers) }
    {
        let mut standings = Standings::new(alloc);
        standings.make_firsts(firsts)?;
        standings.make_mounts(mounts)?;
        Ok(Endpoints {
            standings,
            tokens: Tokens::new(alloc),
            waiting: 0,
            servers,
        })
    }

    /// Admits a frame, or refuses it: a refused frame makes nothing and keeps its tokens held. Only a Message with
    /// handles may want memory, and what it wants comes after all refusals.
    pub fn admit(&mut self, frame: FrameView<'_>) -> Result<(), AdmitFault>
        requires { IsTrue (goes_to side.ToServers frame.kind) }
        ensures first { MatchOption (admission (look_ups self.old) (frame_of frame.entry))
            ((result ≡ Ok tt) ⊎ (result ≡ Err AdmitFault.NoMemory))
            (λ why. result ≡ Err (AdmitFault.Refused why)) }
        ensures admitted { OnOk result (Admits self.old (frame_of frame.entry) self.new) }
        ensures unchanged { OnErr result (self.new ≡ self.old) }
        ensures memory { (frame_of frame.entry).handles ≡ [] → result ≢ Err AdmitFault.NoMemory }
    {
        if let Some(why) = first_refusal(self, frame) {
            return Err(AdmitFault::Refused(why));
        }
        self.take(frame)
    }

    /// Admits a frame on an endpoint that lives, or refuses it, as `admit` does. The endpoint isn't looked up.
    pub fn admit_live(&mut self, frame: FrameView<'_>) -> Result<(), AdmitFault>
        requires way { IsTrue (goes_to side.ToServers frame.kind) }
        requires live { standing_of self.old frame.endpoint ≡ Standing.Live }
        ensures first { MatchOption (admission (look_ups self.old) (frame_of frame.entry))
            ((result ≡ Ok tt) ⊎ (result ≡ Err AdmitFault.NoMemory))
            (λ why. result ≡ Err (AdmitFault.Refused why)) }
        ensures admitted { OnOk result (Admits self.old (frame_of frame.entry) self.new) }
        ensures unchanged { OnErr result (self.new ≡ self.old) }
        ensures memory { (frame_of frame.entry).handles ≡ [] → result ≢ Err AdmitFault.NoMemory }
    {
        match live_refusal(self, frame) {
            Some(why) => Err(AdmitFault::Refused(why)),
            None => self.take(frame),
        }
    }

    /// Admits a message without handles on a live endpoint of a client, or refuses it for want of room: first where so
    /// many entries wait as can, then where so many endpoints are live.
    pub fn admit_plain(&mut self) -> Result<(), Refusal>
        ensures first { MatchOption
            (first_of (cause_if (is_full (look_ups self.old)) Refusal.ShouldWait ∷ cause_if (too_many (look_ups self.old) []) Refusal.NoResources ∷ []))
            (result ≡ Ok tt) (λ why. result ≡ Err why) }
        ensures admitted { OnOk result (Sends self.old [] self.new) }
        ensures unchanged { OnErr result (self.new ≡ self.old) }
    {
        if let Some(why) = room_refusal(self, 0) {
            return Err(why);
        }
        self.waiting += 1;
        Ok(())
    }

    /// How a number stands.
    pub fn standing(&self, endpoint: u32) -> Standing
        ensures { result ≡ standing_of self.now endpoint }
    {
        self.standings.at(endpoint)
    }

    /// An entry that waited was served.
    pub fn served(&mut self)
        requires { 0 < self.old.waiting }
        ensures { self.new ≡ record self.old { waiting = self.old.waiting - 1 } }
    {
        self.waiting -= 1;
    }

    /// So many entries that waited were dropped.
    pub fn dropped(&mut self, n: u32)
        requires { n ≤ self.old.waiting }
        ensures { self.new ≡ record self.old { waiting = self.old.waiting - n } }
    {
        self.waiting -= n;
    }

    /// An entry was forwarded, and waits.
    pub fn forwarded_one(&mut self)
        requires { self.old.waiting < MAX_WAITING }
        ensures { self.new ≡ record self.old { waiting = self.old.waiting + 1 } }
    {
        self.waiting += 1;
    }

    /// A live endpoint died.
    pub fn ended(&mut self, endpoint: u32)
        requires { is_live (standing_of self.old endpoint) ≡ true }
        ensures { self.new ≡ ended self.old endpoint }
    {
        self.standings.change(endpoint, Standing::Dead);
    }

    /// The number that the next token gets: none where so many tokens are held or travel as can, or where the last
    /// number was given.
    pub fn next_token(&self) -> Option<u32>
        ensures { result ≡ next_token_of self.now }
    {
        self.tokens.next()
    }

    /// Gives the next token to the clients.
    pub fn give_token(&mut self) -> Result<u32, TokenFault>
        ensures number { MatchOption (next_token_of self.old) (result ≡ Err TokenFault.Full)
            (λ n. (result ≡ Ok n) ⊎ (result ≡ Err TokenFault.NoMemory)) }
        ensures given { OnOk result (self.new ≡ given self.old) }
        ensures err { OnErr result (self.new ≡ self.old) }
    {
        let Some(number) = self.tokens.next() else {
            return Err(TokenFault::Full);
        };
        self.tokens.give()?;
        Ok(number)
    }

    /// A token that travelled is gone.
    pub fn token_gone(&mut self, token: u32)
        requires { map.get self.old.tokens token ≡ Some false }
        ensures { self.new ≡ gone self.old token }
    {
        self.tokens.forget(token);
    }
}
