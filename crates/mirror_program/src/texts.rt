ghost use Rattle.std.specs.Prelude.{◌≡◌, ◌++◌, IfOk, OnOk};
ghost use Rattle.mirror_program.specs.Texts.{line_of, text_of};

use dir_mirror::Mirror;
use fidl_names::NoMemory;
use hex::encode;
use std::alloc::Global;

/// What is written of a copy: each name in hexadecimal on a line, and then whether the directory is there yet.
pub(crate) fn text_of(alloc: Global, mirror: &Mirror) -> Result<Vec<u8>, NoMemory>
    ensures { IfOk result (λ text. text.items ≡ text_of mirror.now.names mirror.now.ended) }
{
    let mut text = Vec::new(alloc);
    for name in mirror.names() {
        put_line(alloc, &mut text, name)?;
    }
    let last = if mirror.ended() { "ended\n" } else { "live\n" };
    text.extend_from_slice(last.as_bytes())?;
    Ok(text)
}

/// Puts the line of a name behind what is there.
fn put_line(alloc: Global, text: &mut Vec<u8>, name: &[u8]) -> Result<(), NoMemory>
    ensures { OnOk result (text.new.items ≡ text.old.items ++ line_of name.now) }
{
    let digits = encode(alloc, name)?;
    text.extend_from_slice(digits.as_bytes())?;
    text.push(b'\n')?;
    Ok(())
}
