// Splits a line at its spaces.
ghost use Rattle.std.specs.Prelude.{◌≡◌, ◌∷◌};
ghost use Rattle.sas_lines.specs.Segments.{segments};
ghost use Rattle.sas_lines.specs.Separators.{segments_within};

use std::marker::Model;

/// Returns the bytes before the first space, and the bytes after it (`None` if there is no space).
fn cut(line: &[u8]) -> (&[u8], Option<&[u8]>)
    ensures { segments 32 line.now ≡ result.0.now ∷ segments_within 32 result.1 }
{
    // The next space is usually a few bytes away, so checking byte by byte is faster than `memchr`.
    match line.iter().position(|&byte| byte == b' ') {
        Some(at) => (&line[..at], Some(&line[at + 1..])),
        None => (line, None),
    }
}

/// Iterates over the segments of a line between its spaces, in order. A line with k spaces has k + 1 segments. Some may be empty.
#[derive(Drop)]
pub struct Numbers<'a> {
    rest: Option<&'a [u8]>,
}

impl<'a> Model for Numbers<'a> {
    ghost use Rattle.std.specs.Prelude.{ℕ, List};
    ghost use Rattle.sas_lines.specs.Separators.{segments_within};

    ghost Value = { List (List ℕ) };

    ghost view = { λ numbers. segments_within 32 numbers.rest };
}

impl<'a> Numbers<'a> {
    /// Returns the iterator over all segments of the line.
    pub fn new(line: &'a [u8]) -> Numbers<'a>
        ensures { result ≡ segments 32 line.now }
    {
        Numbers { rest: Some(line) }
    }

    /// Returns the bytes of the segments that are left, or `None` if none is left.
    pub fn rest(&self) -> Option<&'a [u8]>
        ensures { self.now ≡ segments_within 32 result }
    {
        self.rest
    }
}

impl<'a> Iterator for Numbers<'a> {
    type Item = &'a [u8];

    ghost use Rattle.std.specs.Iterator.{YieldsFirstRef, item_count};

    ghost next_gives = { YieldsFirstRef (λ s. s) };

    ghost remaining = { item_count (λ s. s) };

    fn next(&mut self) -> Option<&'a [u8]> {
        let line = self.rest?;
        let (part, rest) = cut(line);
        self.rest = rest;
        Some(part)
    }
}
