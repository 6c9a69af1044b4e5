// Splits a stream that arrives in pieces into lines.
ghost use Rattle.std.specs.Prelude.{◌≡◌, ◌<◌, [], ◌++◌, take, false, true, IfOk, OnErr, IfSome, IfNone, if◌then◌else◌};
ghost use Rattle.sas_lines.specs.Lines.{lines, unfinished, without_return};
ghost use Rattle.sas_lines.specs.FirstLines.{BytesAreLines, BytesAreNoOtherLines, NoEnd, TakesLine, LineStandsFirst};
ghost use Rattle.sas_lines.specs.Progress.{completed};

use crate::separators::first_place;
use std::alloc::{AllocError, Global};
use std::marker::Model;

/// What a call of `feed` took: the number of bytes, and whether they complete a line.
#[derive(Clone, Copy, Debug, PartialEq, Eq)]
pub struct Fed {
    pub taken: usize,
    pub complete: bool,
}

/// The first line of some bytes without its line end, and the number of bytes that it takes including its line end.
#[derive(Clone, Copy)]
pub struct FirstLine<'a> {
    pub line: &'a [u8],
    pub taken: usize,
}

/// Returns the line without a CR at its end, since that CR is part of the line end.
#[inline(always)]
#[tactic(auto, using(crate::proofs::Found::return_at, crate::proofs::Found::no_return_at))]
pub fn without_return(line: &[u8]) -> &[u8]
    ensures { result.now ≡ without_return line.now }
{
    match line {
        [front @ .., b'\r'] => front,
        _ => line,
    }
}

/// Returns the first line of the bytes, or `None` if they contain no LF.
pub fn first_line(bytes: &[u8]) -> Option<FirstLine<'_>>
    ensures some { IfSome result (λ first. LineStandsFirst bytes.now first.line.now first.taken) }
    ensures none { IfNone result (NoEnd bytes.now) }
{
    let place = first_place(b'\n', bytes)?;
    Some(FirstLine {
        line: without_return(&bytes[..place]),
        taken: place + 1,
    })
}

/// Clears the bytes if they are a complete line. The next line reuses the memory.
fn let_line_go(held: &mut Vec<u8>, complete: bool)
    ensures { held.new.items ≡ (if complete then [] else held.old.items) }
{
    if complete {
        held.clear();
    }
}

/// Removes a CR from the end of the line, since it is part of the line end.
#[tactic(auto, using(crate::proofs::Found::front_without_return))]
fn drop_return(line: &mut Vec<u8>)
    ensures { line.new.items ≡ without_return line.old.items }
{
    let kept = without_return(line.as_slice()).len();
    line.truncate(kept);
}

/// Takes a text in pieces, cut anywhere, and returns its lines.
#[derive(Drop)]
pub struct Lines {
    held: Vec<u8>,
    complete: bool,
}

impl Model for Lines {
    ghost use Rattle.std.specs.Prelude.{[], if◌then◌else◌};
    ghost use Rattle.sas_lines.specs.FirstLines.{NoEnd};
    ghost use Rattle.sas_lines.specs.Progress.{Progress};

    ghost Value = { Progress };

    ghost view = { λ l. record {
      line = if l.complete then l.held.items else [];
      pending = if l.complete then [] else l.held.items;
    } };

    ghost invariant = { λ l. NoEnd l.held.items };
}

impl Lines {
    /// Returns a `Lines` without any input.
    pub fn new(alloc: Global) -> Self
        ensures line { result.line ≡ [] }
        ensures pending { result.pending ≡ [] }
    {
        Lines {
            held: Vec::new(alloc),
            complete: false,
        }
    }

    /// Takes the bytes of `piece` up to and including its first LF, or all of them if there is none. `Err` means out of memory; nothing was
    /// taken then.
    #[tactic(auto, using(crate::proofs::Feeding::feeding))]
    pub fn feed(&mut self, piece: &[u8]) -> Result<Fed, AllocError>
        // Up to and including the first LF, or all bytes.
        ensures taken { IfOk result (λ fed. TakesLine piece.now fed.taken fed.complete) }
        // The pending bytes and the bytes taken form the completed line with its end, or the new pending bytes.
        ensures lines { IfOk result
            (λ fed. lines (self.old.pending ++ take fed.taken piece.now)
            ≡ completed fed.complete self.new.line) }
        ensures pending { IfOk result
            (λ fed. unfinished (self.old.pending ++ take fed.taken piece.now) ≡ self.new.pending) }
        ensures complete { IfOk result (λ fed. fed.complete ≡ true → self.new.pending ≡ []) }
        ensures incomplete { IfOk result (λ fed. fed.complete ≡ false → self.new.line ≡ []) }
        ensures refused { OnErr result (self.new
            ≡ record { line = []; pending = self.old.pending }) }
    {
        let_line_go(&mut self.held, self.complete);
        self.complete = false;
        let Some(end) = first_place(b'\n', piece) else {
            self.held.extend_from_slice(piece)?;
            return Ok(Fed {
                taken: piece.len(),
                complete: false,
            });
        };
        self.held.extend_from_slice(&piece[..end])?;
        drop_return(&mut self.held);
        self.complete = true;
        Ok(Fed {
            taken: end + 1,
            complete: true,
        })
    }

    /// Returns the line that the last feed completed, without its line end. It is empty if no line was completed.
    pub fn line(&self) -> &[u8]
        ensures { result.now ≡ self.now.line }
    {
        let line = self.held.as_slice();
        if self.complete { line } else { &[] }
    }

    /// Returns the bytes since the last LF. They may end with a CR, which is part of the line end if LF follows.
    pub fn pending(&self) -> &[u8]
        ensures { result.now ≡ self.now.pending }
    {
        let pending = self.held.as_slice();
        if self.complete { &[] } else { pending }
    }
}

/// Law: any bytes consist of their complete lines, each ended by LF or CR LF, and a rest without LF, in exactly one way.
pub fn lines_law()
    ensures lines { BytesAreLines }
    ensures one_way { BytesAreNoOtherLines }
{}
