// What each command needs before all else.

ghost use Rattle.std.specs.Prelude.{OnOk, IfErr};
ghost use Rattle.fidl_wire.specs.Names.{AreDistinct};
ghost use Rattle.run_status.specs.Causes.{Collides};

use crate::statuses::Status;
use fidl_wire::{OrdinalFault, Ordinals};

/// The ordinals of all names, where no two are equal; or the status that says which two are. It takes no memory.
pub fn ordinals() -> Result<Ordinals, Status>
    ensures distinct { OnOk result AreDistinct }
    ensures collides { IfErr result Collides }
{
    match Ordinals::new() {
        Ok(ordinals) => Ok(ordinals),
        Err(OrdinalFault::Collision(first, second)) => Err(Status::Collision { first, second }),
    }
}
