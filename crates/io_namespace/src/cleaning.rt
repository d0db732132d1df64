// Clean paths.

ghost use Rattle.std.specs.Prelude.{◌≡◌, map, IfOk, OnOk};
ghost use Rattle.io_namespace.specs.Cleaning.{clean, is_step, is_up};
ghost use Rattle.io_namespace.specs.Steps.{stepped};

use fidl_names::NoMemory;
use std::alloc::Global;
use text_pieces::Pieces;

/// The clean path of a text, by a stack of steps.
pub(crate) fn clean(alloc: Global, text: &[u8]) -> Result<Vec<&[u8]>, NoMemory>
    ensures { IfOk result (λ steps. map (λ step. step.now) steps.items ≡ clean text.now) }
{
    let mut parts = Pieces::new(b'/', text);
    let mut steps = Vec::new(alloc);
    while let Some(part) = parts.next() {
        take_part(&mut steps, part)?;
    }
    Ok(steps)
}

// Goes one part on.
fn take_part<'a>(steps: &mut Vec<&'a [u8]>, part: &'a [u8]) -> Result<(), NoMemory>
    ensures { OnOk result (map (λ step. step.now) steps.new.items ≡ stepped (map (λ step. step.now) steps.old.items) part.now) }
{
    if !is_step(part) {
        return Ok(());
    }
    if is_up(part) {
        let _ = steps.pop();
        return Ok(());
    }
    steps.push(part)?;
    Ok(())
}

fn is_step(part: &[u8]) -> bool
    ensures { result ≡ is_step part.now }
{
    !part.is_empty() && !matches!(part, [b'.'])
}

fn is_up(step: &[u8]) -> bool
    ensures { result ≡ is_up step.now }
{
    matches!(step, [b'.', b'.'])
}
