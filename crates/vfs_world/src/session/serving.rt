//! Servings: of one entry, and one after another.

ghost use Rattle.std.specs.Prelude.{◌≡◌, false, IfOk, OnOk, Ok};
ghost use Rattle.fidl_names.specs.declared.limits.TheConstants as limit;
ghost use Rattle.message_queues.specs.Oldest.{IsBound, IsBoundAt, NothingWaits};
ghost use Rattle.message_queues.specs.Queues.{IsReady};
ghost use Rattle.vfs_journal.specs.Output.{Begins};
ghost use Rattle.vfs_world.specs.Running.{IsRunning, RunsOn, whole};
ghost use Rattle.vfs_world.specs.Servings.{IsDrain, IsPick, IsTurn};

use crate::session::Session;
use fidl_names::NoMemory;
use link_frames::Outbox;

impl Session {
    /// Serves the oldest entries of a server's endpoints, at most so many, and tells how many it served.
    /// Memory is wanting only where something can be served.
    pub(crate) fn turn(
        &mut self,
        server: u32,
        times: u32,
        outbox: &mut Outbox,
    ) -> Result<u32, NoMemory>
        requires running { IsRunning limit.MAX_PLACES (whole self.old) }
        ensures turned { IfOk result (λ done. IsTurn server times done (whole self.old) (whole self.new) outbox.old outbox.new) }
        ensures idle { NothingWaits self.old.queues (IsBoundAt self.old.queues server) → result ≡ Ok 0 }
        ensures running { RunsOn result (whole self.old) (whole self.new) }
        ensures begins { Begins outbox.old outbox.new }
    {
        for done in 0..times {
            let Some(endpoint) = self.queues.oldest(server) else {
                return Ok(done);
            };
            self.serve_head(endpoint, outbox)?;
        }
        Ok(times)
    }

    /// Serves the first entry of an endpoint, if that is bound and something waits on it, and tells
    /// whether it did. Memory is wanting only where there is one to serve.
    pub(crate) fn pick(&mut self, endpoint: u32, outbox: &mut Outbox) -> Result<bool, NoMemory>
        requires running { IsRunning limit.MAX_PLACES (whole self.old) }
        ensures picked { OnOk result (IsPick endpoint (whole self.old) (whole self.new) outbox.old outbox.new) }
        ensures idle { ¬ (IsReady self.old.queues endpoint) → result ≡ Ok false }
        ensures only_idle { result ≡ Ok false → ¬ (IsReady self.old.queues endpoint) }
        ensures running { RunsOn result (whole self.old) (whole self.new) }
        ensures begins { Begins outbox.old outbox.new }
    {
        if !self.queues.is_ready(endpoint) {
            return Ok(false);
        }
        self.serve_head(endpoint, outbox)?;
        Ok(true)
    }

    /// Serves the oldest entries of all, until nothing is left that can be served. Memory is wanting only
    /// where something can be served.
    #[inline(always)]
    pub(crate) fn drain(&mut self, outbox: &mut Outbox) -> Result<(), NoMemory>
        requires running { IsRunning limit.MAX_PLACES (whole self.old) }
        ensures drained { OnOk result (IsDrain (whole self.old) (whole self.new) outbox.old outbox.new) }
        ensures idle { NothingWaits self.old.queues (IsBound self.old.queues) → result ≡ Ok tt }
        ensures running { RunsOn result (whole self.old) (whole self.new) }
        ensures begins { Begins outbox.old outbox.new }
    {
        while let Some(endpoint) = self.queues.next() {
            self.serve_head(endpoint, outbox)?;
        }
        Ok(())
    }
}
