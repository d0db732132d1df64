ghost use Rattle.std.specs.Prelude.{◌≡◌, IfOk};
ghost use Rattle.workload.specs.Workload.{IsRounds, workload};

use crate::draws::Draws;
use crate::rounds::put_round;
use fidl_names::NoMemory;
use std::alloc::Global;
use vfs_script::Outtext;

/// The most rounds of a workload.
pub const MAX_ROUNDS: u32 = 10_000;

/// The lines in front of the rounds.
const FIRST_LINES: &[u8] = b"auto\nopen 1 m/d 0x40 1000000\nwatch 1000000 31 1000001\n";

/// The text of the workload of `rounds` rounds. It is a script (`workloads_are_scripts`).
///
/// The caller sees to it that `rounds` is 1 to `MAX_ROUNDS`.
pub fn generated(alloc: Global, rounds: u32) -> Result<Outtext, NoMemory>
    requires { IsRounds rounds }
    ensures { IfOk result (λ text. text ≡ workload rounds) }
{
    let mut text = Outtext::new(alloc);
    text.put(FIRST_LINES)?;
    let mut draws = Draws::new(rounds);
    for done in 0..rounds {
        put_round(done + 1, draws.next(), &mut text)?;
    }
    Ok(text)
}
