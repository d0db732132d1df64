ghost use Rattle.std.specs.Prelude.{◌≡◌, ◌≤◌, ◌↔◌, [], ◌∷◌, ◌++◌, IsTrue, OnOk, OnErr};
ghost use Rattle.host_io.specs.Causes.{next_count};
ghost use Rattle.host_io.specs.Calls.{no_calls, IsListed};

use fidl_names::NoMemory;
use std::marker::Model;

/// The calls of an object in memory: which are to fail, and counts of the calls and of the
/// failures, which stand still at their last values.
#[derive(Drop)]
pub(crate) struct Calls {
    failing: Vec<u64>,
    made: u64,
    faults: u64,
}

impl Model for Calls {
    ghost use Rattle.host_io.specs.Calls.{Calls as State};

    ghost Value = { State };

    ghost view = { λ c. record { failing = c.failing.items; made = c.made; faults = c.faults } };
}

impl Calls {
    pub(crate) fn new(failing: Vec<u64>) -> Calls
        ensures { result ≡ no_calls failing.items }
    {
        Calls {
            failing,
            made: 0,
            faults: 0,
        }
    }

    /// Counts a call, and tells whether it is to fail.
    pub(crate) fn count(&mut self) -> bool
        ensures listed { IsTrue result ↔ IsListed self.old }
        ensures counted { self.new ≡ record self.old { made = next_count self.old.made } }
    {
        let is_listed = self.failing.as_slice().contains(&self.made);
        self.made = self.made.saturating_add(1);
        is_listed
    }

    /// Adds a number to those of the calls that are to fail.
    pub(crate) fn list(&mut self, call: u64) -> Result<(), NoMemory>
        ensures ok { OnOk result (
            self.new ≡ record self.old { failing = self.old.failing ++ call ∷ [] }) }
        ensures err { OnErr result (self.new ≡ self.old) }
    {
        self.failing.push(call)?;
        Ok(())
    }

    /// Counts a failure of the call that was counted last.
    pub(crate) fn fail(&mut self)
        ensures counted { self.new ≡ record self.old { faults = next_count self.old.faults } }
        ensures later { self.old.faults ≤ self.new.faults }
    {
        self.faults = self.faults.saturating_add(1);
    }
}
