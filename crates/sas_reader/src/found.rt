// What is kept of the text at a fault: of a wrong line, of the byte after a whole text, or of an unfinished last line.
ghost use Rattle.std.specs.Prelude.{◌≡◌, ◌↔◌, codes, take, false, IsTrue};
ghost use Rattle.std.specs.Str.{str_eq_ignore_ascii_case};
ghost use Rattle.sas_reader.specs.Found.{kept_bytes, kept_in, has_byte, has_inner_return, has_word, IsEnclosed, IsFoundOf};

use crate::affixes::{behind, closed_name};
use crate::fault::Kind;
use sas_lines::without_return;

/// How many bytes of the text at a fault are shown, at most.
pub const FOUND: usize = 64;

/// How many bytes of it are kept, at most: one more, which tells whether all are shown.
const KEPT: usize = 65;

/// What is kept of the text at a fault: its first bytes, and what hints ask of all of it. Each question is asked for one kind of fault, so
/// that a long text isn't searched in vain.
#[derive(Clone, Copy)]
pub struct Excerpt {
    bytes: [u8; KEPT],
    count: usize,
    /// The text has the word `cost` in it, in any case. It is asked for `Keyword`.
    pub cost: bool,
    /// The text has `;` in it. It is asked for `Name`.
    pub semicolon: bool,
    /// The text has a CR in it with a byte behind it. It is asked for `End`.
    pub inner_return: bool,
    /// The text is a name in parentheses, with or without a CR at its end. It is asked for `End`.
    pub enclosed: bool,
}

impl Excerpt {
    /// No bytes.
    pub const NONE: Excerpt = Excerpt {
        bytes: [0; KEPT],
        count: 0,
        cost: false,
        semicolon: false,
        inner_return: false,
        enclosed: false,
    };

    /// Keeps this of the text at a fault of this kind. It isn't inlined, since most reads find no fault.
    #[cold]
    #[inline(never)]
    pub fn of(kind: Kind, text: &[u8]) -> Excerpt
        ensures { IsFoundOf kind text.now result }
    {
        let front = Excerpt::front_of(text);
        match kind {
            Kind::Keyword => Excerpt {
                cost: has_cost(text),
                ..front
            },
            Kind::Name => Excerpt {
                semicolon: has_byte(b';', text),
                ..front
            },
            Kind::End => Excerpt {
                inner_return: has_inner_return(text),
                enclosed: is_enclosed(without_return(text)),
                ..front
            },
            _ => front,
        }
    }

    /// Keeps the first bytes of the text.
    fn front_of(text: &[u8]) -> Excerpt
        ensures { kept_in result ≡ record {
          front = take 65 text.now;
          cost = false;
          semicolon = false;
          inner_return = false;
        } }
    {
        let kept = &text[..text.len().min(KEPT)];
        let mut bytes = [0u8; KEPT];
        bytes[..kept.len()].copy_from_slice(kept);
        Excerpt {
            bytes,
            count: kept.len(),
            ..Excerpt::NONE
        }
    }

    /// Returns the bytes that are kept.
    pub fn bytes(&self) -> &[u8]
        ensures { result.now ≡ kept_bytes self.now }
    {
        &self.bytes[..self.count.min(KEPT)]
    }
}

/// Returns whether the byte occurs in the text.
fn has_byte(byte: u8, text: &[u8]) -> bool
    ensures { result ≡ has_byte byte text.now }
{
    text.iter().any(|b| *b == byte)
}

/// Returns whether a CR occurs in the text with a byte behind it.
fn has_inner_return(text: &[u8]) -> bool
    ensures { result ≡ has_inner_return text.now }
{
    match text {
        [front @ .., _last] => has_byte(b'\r', front),
        [] => false,
    }
}

/// Returns whether the word `cost` occurs in the text, in any case.
fn has_cost(text: &[u8]) -> bool
    ensures { result ≡ has_word (codes "cost") text.now }
{
    let mut at = 0;
    while at < text.len() {
        if begins_with_cost(&text[at..]) {
            return true;
        }
        at += 1;
    }
    false
}

/// Returns whether the text begins with the word `cost`, in any case.
fn begins_with_cost(text: &[u8]) -> bool
    ensures { result ≡ str_eq_ignore_ascii_case (take 4 text.now) (codes "cost") }
{
    text[..text.len().min(4)].eq_ignore_ascii_case(b"cost")
}

/// Returns whether the line is a name in parentheses.
fn is_enclosed(line: &[u8]) -> bool
    ensures { IsTrue result ↔ IsEnclosed line.now }
{
    match behind(line, b"(") {
        Some(rest) => closed_name(rest).is_some(),
        None => false,
    }
}
