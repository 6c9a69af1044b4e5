// The line with the text at a fault.
ghost use Rattle.std.specs.Prelude.{◌≡◌, ◌++◌, codes, OnOk};
ghost use Rattle.sas_answers.specs.Shown.{shown};
ghost use Rattle.sas_requests.specs.FileLine as line;
ghost use Rattle.sas_requests.specs.FileLine.{empty_words, ended_line, found_word};

use sas_answers::show;
use sas_lines::push_line;
use sas_reader::{FOUND, Kind};
use std::alloc::AllocError;

/// The most bytes that a text takes as it is shown.
const ROOM: usize = 4 * FOUND + 4;

/// Appends the line with the text at a fault of this kind, by its first bytes.
pub(crate) fn push_found(out: &mut Vec<u8>, kind: Kind, found: &[u8]) -> Result<(), AllocError>
    ensures { OnOk result
        (out.new.items ≡ out.old.items ++ ended_line (line.Found kind found.now)) }
{
    if found.is_empty() {
        return push_line(out, empty_line(kind));
    }
    out.extend_from_slice(front(kind))?;
    push_shown(out, found)?;
    out.push(b'\n')?;
    Ok(())
}

/// Returns the beginning of the line, up to the text.
fn front(kind: Kind) -> &'static [u8]
    ensures { result.now ≡ codes "  " ++ found_word kind ++ codes " " }
{
    match kind {
        Kind::End => b"  unfinished ",
        _ => b"  found ",
    }
}

/// Returns the line of an empty text.
fn empty_line(kind: Kind) -> &'static [u8]
    ensures { result.now ≡ codes "  " ++ empty_words kind }
{
    match kind {
        Kind::End => b"  end of file",
        _ => b"  empty line",
    }
}

/// Appends the text as it is shown.
fn push_shown(out: &mut Vec<u8>, found: &[u8]) -> Result<(), AllocError>
    ensures { OnOk result (out.new.items ≡ out.old.items ++ shown 64 found.now) }
{
    let mut room = [0; ROOM];
    let end = show(&mut room, FOUND, found);
    out.extend_from_slice(&room[..end])
}
