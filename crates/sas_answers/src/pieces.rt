// A text that is written in pieces.
ghost use Rattle.std.specs.Prelude.{◌≡◌, ◌↔◌, [], ◌∷◌, ◌++◌, false, IfOk, IfErr, IsErr, IsTrue, IsFalse, OnOk};
ghost use Rattle.std.specs.Io.KnownBytes.{Appends};
ghost use Rattle.sas_answers.specs.Pieces.{Adds, Breaks, CountsOn};
ghost use Rattle.sas_answers.specs.Words.{numbered_line, words_line};

use crate::placing::{place, place_line, place_numbered};
use crate::words::{NumberedLine, Words};
use sas_lines::{Short, Watched, write_out};
use std::alloc::{AllocError, Global};
use std::io::Write;
use std::marker::Model;

/// The most bytes that are held back.
const PIECE: usize = 65_536;

/// A text that is written in pieces: the bytes of it that are held back, and how many bytes were written before them. Only `new`
/// takes memory. The bytes that are held stand first in the piece, up to `end`. What follows them means nothing.
#[derive(Drop)]
pub struct Pieces {
    piece: Vec<u8>,
    end: usize,
    written: usize,
}

impl Model for Pieces {
    ghost use Rattle.std.specs.Prelude.{◌≡◌, ◌≤◌, length, take};
    ghost use Rattle.sas_answers.specs.Pieces.{Piece};

    ghost Value = { Piece };

    ghost view = { λ p. record { held = take p.end p.piece.items; written = p.written } };

    // The piece is as long as it was made, so that holding a byte takes no memory.
    ghost invariant = { λ p. (length p.piece.items ≡ 65536) × (p.end ≤ 65536) };
}

impl Pieces {
    /// Returns a text without a byte so far. An `Err` reports that memory was refused.
    pub fn new(alloc: Global) -> Result<Pieces, AllocError>
        ensures { IfOk result (λ p. p ≡ record { held = []; written = 0 }) }
    {
        Ok(Pieces {
            piece: vec![in alloc; 0; PIECE]?,
            end: 0,
            written: 0,
        })
    }

    /// Adds the bytes to the text. If there is no room for them after what is held, that is written first. If they are
    /// longer than a piece, they are then written themselves, without a copy. Not to be called after a failure.
    pub(crate) fn push<W: Write>(&mut self, out: &mut Watched<W>, bytes: &[u8]) -> Result<(), Short>
        requires { out.old.failed ≡ false }
        ensures { Adds W.contents out.old out.new self.old self.new bytes.now result }
    {
        if self.hold(bytes) {
            return Ok(());
        }
        self.flush(out)?;
        if self.hold(bytes) {
            return Ok(());
        }
        self.pass(out, bytes)
    }

    /// Writes what is held. Not to be called after a failure.
    pub(crate) fn flush<W: Write>(&mut self, out: &mut Watched<W>) -> Result<(), Short>
        requires { out.old.failed ≡ false }
        ensures adds { Adds W.contents out.old out.new self.old self.new [] result }
        ensures empty { OnOk result (self.new.held ≡ []) }
    {
        self.written = send(self.written, out, &self.piece.as_slice()[..self.end])?;
        self.end = 0;
        Ok(())
    }

    /// Holds the bytes, if there is room for them. Returns whether there is.
    fn hold(&mut self, bytes: &[u8]) -> bool
        ensures yes { IsTrue result → self.new.held ≡ self.old.held ++ bytes.now }
        ensures no { IsFalse result → self.new ≡ self.old }
        ensures written { self.new.written ≡ self.old.written }
    {
        let Some(end) = place(self.piece.as_mut_slice(), self.end, bytes) else {
            return false;
        };
        self.end = end;
        true
    }

    /// Holds the line and its end, LF, if there is room for them. Returns whether there is.
    #[inline(always)]
    pub(crate) fn hold_line(&mut self, line: Words<'_>) -> bool
        ensures yes { IsTrue result
            → self.new.held ≡ self.old.held ++ (words_line line.entry ++ 10 ∷ []) }
        ensures no { IsFalse result → self.new ≡ self.old }
        ensures written { self.new.written ≡ self.old.written }
    {
        let Some(end) = place_line(self.piece.as_mut_slice(), self.end, line) else {
            return false;
        };
        self.end = end;
        true
    }

    /// `hold_line` for a line of a word, three numbers and a name.
    #[inline(always)]
    pub(crate) fn hold_numbered(&mut self, line: NumberedLine<'_>) -> bool
        ensures yes { IsTrue result
            → self.new.held ≡ self.old.held ++ (numbered_line line.entry ++ 10 ∷ []) }
        ensures no { IsFalse result → self.new ≡ self.old }
        ensures written { self.new.written ≡ self.old.written }
    {
        let Some(end) = place_numbered(self.piece.as_mut_slice(), self.end, line) else {
            return false;
        };
        self.end = end;
        true
    }

    /// Writes the bytes, with nothing held before them.
    fn pass<W: Write>(&mut self, out: &mut Watched<W>, bytes: &[u8]) -> Result<(), Short>
        requires out { out.old.failed ≡ false }
        requires empty { self.old.held ≡ [] }
        ensures { Adds W.contents out.old out.new self.old self.new bytes.now result }
    {
        self.written = send(self.written, out, bytes)?;
        Ok(())
    }
}

/// Writes the bytes, where `written` bytes were written before. Returns how many bytes are written in all, as far as a
/// `usize` can count them.
#[tactic(auto, using(crate::proofs::Putting::breaks_at))]
fn send<W: Write>(written: usize, out: &mut Watched<W>, bytes: &[u8]) -> Result<usize, Short>
    requires { out.old.failed ≡ false }
    ensures ok { IfOk result (λ n.
        Appends (W.contents out.old.device) (W.contents out.new.device) bytes.now
        × CountsOn written bytes.now n) }
    ensures short { IfErr result (λ e.
        Breaks (W.contents out.old.device) (W.contents out.new.device)
        (record { held = []; written = written }) bytes.now e) }
    ensures note { IsErr result ↔ IsTrue out.new.failed }
{
    match write_out(out, bytes) {
        Ok(()) => Ok(written.saturating_add(bytes.len())),
        Err(short) => Err(Short {
            written: written.saturating_add(short.written),
        }),
    }
}
