ghost use Rattle.std.specs.Prelude.{◌≡◌, ◌≤◌, ◌==◌, not, length};
ghost use Rattle.std.specs.List.{position};
ghost use Rattle.fidl_wire.specs.Reading.{all_blank};

use crate::faults::{WireFault, WireWhat};

/// Where the first byte that is not zero stands.
fn first_used(part: &[u8]) -> Option<usize>
    ensures { result ≡ position (λ byte. not (byte == 0)) part.now }
{
    part.iter().position(|byte| *byte != 0)
}

/// The first byte of padding that is not zero is the fault.
#[tactic(auto, unfolding(crate::specs::Reading::all_blank))]
pub fn check_blank(message: &[u8], from: usize, until: usize) -> Result<(), WireFault>
    requires order { from ≤ until }
    requires within { until ≤ length message.now }
    ensures { result ≡ all_blank message.now from until }
{
    match first_used(&message[from..until]) {
        None => Ok(()),
        Some(i) => Err(WireFault::new(from + i, WireWhat::Padding)),
    }
}
