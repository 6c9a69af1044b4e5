// Finds a separator.
ghost use Rattle.std.specs.Prelude.{MatchOption};
ghost use Rattle.sas_lines.specs.Separators.{Without, StandsFirst};

use memchr::memchr;

/// Returns the index of the first separator, or `None` if there is none.
pub(crate) fn first_place(separator: u8, bytes: &[u8]) -> Option<usize>
    ensures { MatchOption result (Without separator bytes.now)
        (λ place. StandsFirst separator bytes.now place) }
{
    memchr(separator, bytes)
}
