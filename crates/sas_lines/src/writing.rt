// Appends numbers and lines to a text.
ghost use Rattle.std.specs.Prelude.{◌≡◌, ◌+◌, ◌<◌, [], ◌∷◌, ◌++◌, length, OnOk, OnErr, decimal};
ghost use Rattle.std.specs.Vec.{vec_len, vec_capacity};

use itoa::Buffer;
use std::alloc::AllocError;

/// Appends `n` in decimal. On `Err` (out of memory) the text is unchanged.
pub fn push_number(out: &mut Vec<u8>, n: u128) -> Result<(), AllocError>
    ensures ok { OnOk result (out.new.items ≡ out.old.items ++ decimal n) }
    ensures err { OnErr result (out.new.items ≡ out.old.items) }
    ensures full { OnErr result (vec_capacity out.old < vec_len out.old + length (decimal n)) }
{
    let mut buffer = Buffer::new();
    out.extend_from_slice(buffer.format(n).as_bytes())
}

/// Appends the line and LF. On `Err` (out of memory) the text is unchanged.
pub fn push_line(out: &mut Vec<u8>, line: &[u8]) -> Result<(), AllocError>
    ensures ok { OnOk result (out.new.items ≡ out.old.items ++ (line.now ++ 10 ∷ [])) }
    ensures err { OnErr result (out.new.items ≡ out.old.items) }
    ensures full { OnErr result (vec_capacity out.old < vec_len out.old + length line.now + 1) }
{
    // Reserves memory for both first, so that the second append can't fail after the first.
    out.reserve(line.len() + 1)?;
    out.extend_from_slice(line)?;
    out.push(b'\n')?;
    Ok(())
}
