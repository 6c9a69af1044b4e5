// Names: at least one byte, all on one line.
ghost use Rattle.std.specs.Prelude.{◌≡◌};
ghost use Rattle.std.specs.List.{list_all};
ghost use Rattle.sas_core.specs.Names as spec;

use memchr::memchr2;

/// Returns whether the bytes are a name: at least one byte, without LF and CR.
pub fn is_name(bytes: &[u8]) -> bool
    ensures { result ≡ spec.is_name bytes.now }
{
    !bytes.is_empty() && is_one_line(bytes)
}

/// Returns whether the bytes contain no LF and no CR.
pub fn is_one_line(bytes: &[u8]) -> bool
    ensures { result ≡ list_all spec.is_plain bytes.now }
{
    memchr2(b'\n', b'\r', bytes).is_none()
}
