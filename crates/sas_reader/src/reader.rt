// Reads a text of any line format in pieces. A machine judges one line after another.
ghost use Rattle.std.specs.Prelude.{◌≡◌, ◌≢◌, ◌≤◌, ◌<◌, ◌+◌, ◌-◌, ◌↔◌, ℕ, List, [], ◌∷◌, ◌++◌, length};
ghost use Rattle.std.specs.Prelude.{take, Some, None, Err, IfOk, IfErr, IfSome, IfNone, OnOk, IsTrue};
ghost use Rattle.sas_reader.specs.Faults.{IsOfBytes};
ghost use Rattle.sas_reader.specs.Limit.{most_bytes};
ghost use Rattle.sas_reader.specs.Machine.{AcceptsAhead};

use crate::fault::{Fault, Kind};
use crate::found::Excerpt;
use crate::scanning::{AnyEnd, Lf, LineEnd, ends_with_return};
use sas_lines::{Lines, first_line};
use std::alloc::Global;

/// How many bytes a task or a plan may have: 4 GiB.
pub const LIMIT: u64 = 4_294_967_296;

/// The first whole lines of some bytes: the number of lines, and the number of their bytes with line ends.
#[derive(Clone, Copy)]
pub struct Front {
    pub lines: u64,
    pub bytes: usize,
}

impl Front {
    /// No line.
    pub const EMPTY: Front = Front { lines: 0, bytes: 0 };
}

/// Judges the lines of a text, one after another.
pub trait Machine: Drop {
    ghost use Rattle.sas_reader.specs.Machine.{Behavior};

    ghost behavior: { Behavior Self };

    /// Returns whether the last line has been accepted.
    fn has_ended(&self) -> bool
        ensures { IsTrue result ↔ behavior.ended self.now };

    /// Accepts the next line. Returns the kind of fault if the line may not stand here, or `Memory` if out of memory. `number` is that of
    /// the line, counted from 1.
    fn accept(&mut self, line: &[u8], number: u64) -> Result<(), Kind>
        requires { behavior.ended self.old → ⊥ }
        ensures led { OnOk result
            ((before : List (List ℕ)) → length before + 1 ≡ number
            → behavior.led_by before self.old
            → behavior.led_by (before ++ line.now ∷ []) self.new) }
        ensures rejects { IfErr result (λ k. k ≢ Kind.Memory
            → behavior.rejects self.old line.now k) }
        ensures stopped { IfErr result (λ k. k ≢ Kind.Memory
            → behavior.stopped self.old line.now k self.new) }
        ensures kind { IfErr result IsOfBytes };

    /// Accepts one or more of the first lines of the bytes, each ended by `E`, if it can do so quickly. Returns how many lines and bytes it
    /// accepted. Otherwise accepts nothing and returns `Front::EMPTY`; then `accept` has to judge the next line.
    fn accept_ahead<E: LineEnd>(&mut self, bytes: &[u8]) -> Result<Front, Kind>
        requires { behavior.ended self.old → ⊥ }
        ensures { AcceptsAhead behavior.led_by self.old bytes.now self.new result }
    {
        Ok(Front::EMPTY)
    }
}

/// Why a text was refused: its first fault, the machine in its state after the fault, and the text at the fault. That is the wrong line,
/// the byte after a whole text, or the unfinished last line of a text that ends early.
#[derive(Drop)]
pub struct Refusal<M> {
    pub fault: Fault,
    pub machine: M,
    pub found: Excerpt,
}

impl<M: Drop> Refusal<M> {
    /// Returns the fault, and drops the rest.
    pub fn into_fault(self) -> Fault
        ensures { result ≡ self.fault }
    {
        let Refusal { fault, .. } = self;
        fault
    }
}

/// A reader of a text in pieces: the machine, the line that has begun, and the first fault.
#[derive(Drop)]
pub struct Reader<M> {
    pub machine: M,
    pub pending: Lines,
    pub lines: u64,
    /// This field separates `lines` and `taken`, which each line changes. If they were adjacent, LLVM would change both in one vector,
    /// which is slower.
    pub limit: u64,
    pub taken: u64,
    pub fault: Option<Fault>,
    /// The text at the fault, if there is one.
    pub found: Excerpt,
    ghost within: { taken ≤ limit },
    ghost small: { limit ≤ most_bytes },
    ghost few: { lines ≤ taken },
}

impl<M: Machine> Reader<M> {
    ghost use Rattle.sas_reader.specs.Found.{IsFoundOf};
    ghost use Rattle.sas_reader.specs.Reader.{Stands, TakesFrontOrStops, TakesPiece, ReachesEnd};

    /// Returns a reader that has read nothing yet and refuses more than `limit` bytes.
    pub fn new(alloc: Global, machine: M, limit: u64) -> Self
        requires small { limit ≤ most_bytes }
        requires start { M.behavior.led_by [] machine }
        ensures stands { Stands M.behavior result [] }
        ensures limit { result.limit ≡ limit }
        ensures fault { result.fault ≡ None }
    {
        Reader {
            machine,
            pending: Lines::new(alloc),
            lines: 0,
            taken: 0,
            limit,
            fault: None,
            found: Excerpt::NONE,
        }
    }

    /// Appends the bytes to the pending line, up to and including the first LF, and judges the line if it is complete. Returns how many
    /// bytes it took.
    fn take_cut_line(&mut self, piece: &[u8]) -> Result<usize, Kind>
        requires some { 0 < length piece.now }
        requires room { self.old.taken + length piece.now ≤ self.old.limit }
        requires going { M.behavior.ended self.old.machine → ⊥ }
        ensures advances { TakesFrontOrStops M.behavior self.old piece.now self.new result }
        ensures some { IfOk result (λ n. 0 < n) }
    {
        let fed = self.pending.feed(piece)?;
        if !fed.complete {
            self.taken += fed.taken as u64;
            return Ok(fed.taken);
        }
        match self.machine.accept(self.pending.line(), self.lines + 1) {
            Ok(()) => {
                self.lines += 1;
                self.taken += fed.taken as u64;
                Ok(fed.taken)
            }
            Err(kind) => {
                self.found = Excerpt::of(kind, self.pending.line());
                Err(kind)
            }
        }
    }

    /// Returns the first bytes of the piece, as many as the limit allows.
    fn within_limit<'a>(&self, piece: &'a [u8]) -> &'a [u8]
        ensures { result.now ≡ take (self.now.limit - self.now.taken) piece.now }
    {
        let room = self.limit - self.taken;
        &piece[..piece.len().min(room as usize)]
    }

    /// Takes the bytes up to and including the first LF, or all bytes if there is no LF, within the limit. Returns how many bytes it took.
    fn take_line(&mut self, piece: &[u8]) -> Result<usize, Kind>
        requires some { 0 < length piece.now }
        ensures advances { TakesFrontOrStops M.behavior self.old piece.now self.new result }
        ensures some { IfOk result (λ n. 0 < n) }
    {
        let within = self.within_limit(piece);
        if within.is_empty() {
            return Err(Kind::TooLong);
        }
        if self.machine.has_ended() {
            self.found = Excerpt::of(Kind::Trailing, &within[..1]);
            return Err(Kind::Trailing);
        }
        // A line that is whole in the piece is judged in place. Only a line that is cut is copied.
        if !self.pending.pending().is_empty() {
            return self.take_cut_line(within);
        }
        let Some(first) = first_line(within) else {
            return self.take_cut_line(within);
        };
        match self.machine.accept(first.line, self.lines + 1) {
            Ok(()) => {
                self.lines += 1;
                self.taken += first.taken as u64;
                Ok(first.taken)
            }
            Err(kind) => {
                self.found = Excerpt::of(kind, first.line);
                Err(kind)
            }
        }
    }

    /// Takes the first lines of the piece that the machine accepts ahead, if any. Returns how many bytes it took.
    #[inline(always)]
    fn take_front<E: LineEnd>(&mut self, piece: &[u8]) -> Result<usize, Kind>
        requires some { 0 < length piece.now }
        requires room { self.old.taken + length piece.now ≤ self.old.limit }
        requires whole { self.old.pending.pending ≡ [] }
        ensures advances { TakesFrontOrStops M.behavior self.old piece.now self.new result }
        ensures pending { self.new.pending ≡ self.old.pending }
    {
        if self.machine.has_ended() {
            return Ok(0);
        }
        let front = self.machine.accept_ahead::<E>(piece)?;
        if front.bytes == 0 {
            return Ok(0);
        }
        self.lines += front.lines;
        self.taken += front.bytes as u64;
        Ok(front.bytes)
    }

    /// Takes lines ahead that end with `E`, as many as the machine allows. Returns how many bytes it took. This loop is a function of its own
    /// in the program, with all that it calls for each section.
    #[inline(never)]
    fn take_fronts_ended<E: LineEnd>(&mut self, within: &[u8]) -> Result<usize, Kind>
        requires room { self.old.taken + length within.now ≤ self.old.limit }
        requires whole { self.old.pending.pending ≡ [] }
        ensures { TakesFrontOrStops M.behavior self.old within.now self.new result }
    {
        let mut at = 0;
        while at < within.len() {
            let taken = self.take_front::<E>(&within[at..])?;
            if taken == 0 {
                return Ok(at);
            }
            at += taken;
        }
        Ok(at)
    }

    /// Takes lines ahead, as many as the machine and the limit allow. Returns how many bytes it took.
    fn take_fronts(&mut self, piece: &[u8]) -> Result<usize, Kind>
        ensures { TakesFrontOrStops M.behavior self.old piece.now self.new result }
    {
        if !self.pending.pending().is_empty() {
            return Ok(0);
        }
        let within = self.within_limit(piece);
        if ends_with_return(within) {
            self.take_fronts_ended::<AnyEnd>(within)
        } else {
            self.take_fronts_ended::<Lf>(within)
        }
    }

    /// Takes the lines that can be taken ahead, and then the bytes up to and including the next LF. Returns how many bytes it took.
    fn take_next(&mut self, piece: &[u8]) -> Result<usize, Kind>
        requires some { 0 < length piece.now }
        ensures advances { TakesFrontOrStops M.behavior self.old piece.now self.new result }
        ensures some { IfOk result (λ n. 0 < n) }
    {
        let ahead = self.take_fronts(piece)?;
        if ahead == piece.len() {
            return Ok(ahead);
        }
        Ok(ahead + self.take_line(&piece[ahead..])?)
    }

    /// Takes all of the piece.
    fn take_all(&mut self, piece: &[u8]) -> Result<usize, Kind>
        ensures advances { TakesFrontOrStops M.behavior self.old piece.now self.new result }
        ensures all { IfOk result (λ n. n ≡ length piece.now) }
    {
        let mut at = 0;
        while at < piece.len() {
            at += self.take_next(&piece[at..])?;
        }
        Ok(at)
    }

    /// Reads the next piece. Once there is a fault, this call and all later calls return the first fault.
    pub fn feed(&mut self, piece: &[u8]) -> Result<(), Fault>
        ensures { TakesPiece M.behavior self.old piece.now self.new result }
    {
        if let Some(fault) = self.fault {
            return Err(fault);
        }
        match self.take_all(piece) {
            Ok(_) => Ok(()),
            Err(kind) => {
                let fault = Fault {
                    line: self.lines + 1,
                    kind,
                };
                self.fault = Some(fault);
                Err(fault)
            }
        }
    }

    /// Returns the fault if the input ends here, or `None` if the text is whole.
    fn end_fault(&self) -> Option<Fault>
        ensures none { IfNone result (M.behavior.ended self.now.machine × (self.now.fault ≡ None)) }
        ensures kept { (f : Fault) → self.now.fault ≡ Some f → result ≡ Some f }
        ensures early { self.now.fault ≡ None → IfSome result
            (λ f. (M.behavior.ended self.now.machine → ⊥) × (f.line ≡ self.now.lines + 1)
            × (f.kind ≡ Kind.End)) }
    {
        if let Some(fault) = self.fault {
            return Some(fault);
        }
        if self.machine.has_ended() {
            return None;
        }
        Some(Fault {
            line: self.lines + 1,
            kind: Kind::End,
        })
    }

    /// Returns this fault with the machine and the text at the fault.
    pub fn refused(self, fault: Fault) -> Refusal<M>
        ensures { result
            ≡ record { fault = fault; machine = self.machine; found = self.found } }
    {
        let Reader { machine, found, .. } = self;
        Refusal {
            fault,
            machine,
            found,
        }
    }

    /// Returns the text at the fault if the input ends here: that of the first fault, or the pending line.
    fn found_at_end(&self) -> Excerpt
        ensures early { self.now.fault ≡ None → IsFoundOf Kind.End self.now.pending.pending result }
        ensures kept { (f : Fault) → self.now.fault ≡ Some f → result ≡ self.now.found }
    {
        match self.fault {
            Some(_) => self.found,
            None => Excerpt::of(Kind::End, self.pending.pending()),
        }
    }

    /// Returns the machine if the text is whole. Otherwise returns the first fault, or `End` if the text ends early, with the machine and
    /// the text at the fault.
    pub fn finish(self) -> Result<M, Refusal<M>>
        ensures { ReachesEnd M.behavior self result }
    {
        match self.end_fault() {
            Some(fault) => {
                let found = self.found_at_end();
                let Reader { machine, .. } = self;
                Err(Refusal {
                    fault,
                    machine,
                    found,
                })
            }
            None => {
                let Reader { machine, .. } = self;
                Ok(machine)
            }
        }
    }
}

/// Ensures that `LIMIT` is the limit of the definitions.
pub fn limit_law()
    ensures { LIMIT ≡ most_bytes }
{}
