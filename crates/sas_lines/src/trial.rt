//! Devices that fail, for tests.
ghost use Rattle.std.specs.Prelude.{◌≡◌, ◌++◌, [], Some, Ok, length, min, take, drop, IfOk, OnErr, IsErrAnd};
ghost use Rattle.std.specs.Io.{ReadsAtMost, WritesAtMost};
ghost use Rattle.std.specs.Io.KnownBytes.{Keeps, ReadConsumes, WriteAppends};
ghost use Rattle.std.specs.IoError.{error_kind};
ghost use Rattle.sas_lines.specs.Trial.{Breaking, Narrowed, IsSpent, break_kind, count_taken};

use std::alloc::{AllocError, Global};
use std::io;
use std::io::{Error, ErrorKind, Read, Write};
use std::marker::Model;

/// A reader that returns its bytes and then fails on each read.
#[derive(Drop)]
pub struct Breaks<'a> {
    bytes: &'a [u8],
    interrupted: bool,
}

impl<'a> Model for Breaks<'a> {
    ghost Value = { Breaking };

    ghost view = { λ b. record { bytes = b.bytes.now; interrupted = b.interrupted } };
}

impl<'a> Breaks<'a> {
    /// Returns a reader of these bytes. After them it fails with `ErrorKind::Interrupted` if `interrupted`, else with `ErrorKind::Other`.
    pub fn new(bytes: &'a [u8], interrupted: bool) -> Breaks<'a>
        ensures { result ≡ record { bytes = bytes.entry.now; interrupted = interrupted } }
    {
        Breaks { bytes, interrupted }
    }
}

impl<'a> Read for Breaks<'a> {
    ghost remaining = { λ b. Some b.bytes };

    fn read(&mut self, buf: &mut [u8]) -> io::Result<usize>
        ensures bound { ReadsAtMost result buf.new }
        ensures bytes { ReadConsumes (Some self.old.bytes) (Some self.new.bytes) result buf.new }
        // It returns as many bytes as remain and fit into the buffer.
        ensures count { (self.old.bytes ≡ [] → ⊥)
            → result ≡ Ok (min (length self.old.bytes) (length buf.old)) }
        ensures copied { IfOk result (λ n. buf.new ≡ take n self.old.bytes ++ drop n buf.old) }
        ensures rest { IfOk result (λ n.
            self.new ≡ record self.old { bytes = drop n self.old.bytes }) }
        // After the last byte it fails and changes nothing.
        ensures fails { self.old.bytes ≡ [] → IsErrAnd result
            (λ e. error_kind e ≡ break_kind self.old.interrupted) }
        ensures unchanged { OnErr result (self.new ≡ self.old) }
        ensures untouched { OnErr result (buf.new ≡ buf.old) }
    {
        if self.bytes.is_empty() {
            return Err(Error::from(if self.interrupted {
                ErrorKind::Interrupted
            } else {
                ErrorKind::Other
            }));
        }
        self.bytes.read(buf)
    }
}

/// A writer into preallocated memory that takes few bytes at a time and a limited number in total.
#[derive(Drop)]
pub struct Narrow {
    kept: Vec<u8>,
    piece: usize,
    room: usize,
    fails: bool,
}

impl Model for Narrow {
    ghost use Rattle.std.specs.Prelude.{◌≤◌, length};
    ghost use Rattle.std.specs.Vec.{vec_capacity};
    ghost use Rattle.sas_lines.specs.Trial.{Narrowed};

    ghost Value = { Narrowed };

    ghost view = { λ n. record {
      kept = n.kept.items;
      piece = n.piece;
      room = n.room;
      fails = n.fails;
    } };

    // No write allocates memory.
    ghost invariant = { λ n. (length n.kept.items ≤ n.room) × (n.room ≤ vec_capacity n.kept) };
}

impl Narrow {
    /// Returns a writer that takes at most `piece` bytes per write and `room` bytes in total. Once it is full, a write fails if `fails`,
    /// else it takes no bytes.
    pub fn new(alloc: Global, piece: usize, room: usize, fails: bool) -> Result<Narrow, AllocError>
        ensures { IfOk result (λ n.
            n ≡ record { kept = []; piece = piece; room = room; fails = fails }) }
    {
        Ok(Narrow {
            kept: Vec::with_capacity(alloc, room)?,
            piece,
            room,
            fails,
        })
    }

    /// Returns the bytes that were written.
    pub fn kept(&self) -> &[u8]
        ensures { result.now ≡ self.now.kept }
    {
        self.kept.as_slice()
    }
}

impl Write for Narrow {
    ghost contents = { λ n. Some n.kept };

    fn write(&mut self, buf: &[u8]) -> io::Result<usize>
        ensures bound { WritesAtMost result buf.now }
        ensures bytes { WriteAppends (Some self.old.kept) (Some self.new.kept) result buf.now }
        ensures count { (IsSpent self.old → ⊥)
            → result ≡ Ok (count_taken self.old (length buf.now)) }
        ensures kept { IfOk result (λ n.
            self.new ≡ record self.old { kept = self.old.kept ++ take n buf.now }) }
        ensures fails { IsSpent self.old → IsErrAnd result (λ e. error_kind e ≡ ErrorKind.Other) }
        ensures unchanged { OnErr result (self.new ≡ self.old) }
    {
        let left = self.room - self.kept.len();
        if left == 0 && self.fails {
            return Err(Error::from(ErrorKind::Other));
        }
        let taken = buf.len().min(self.piece).min(left);
        self.kept.extend_from_slice(&buf[..taken])?;
        Ok(taken)
    }

    fn flush(&mut self) -> io::Result<()>
        ensures bytes { Keeps (Some self.old.kept) (Some self.new.kept) }
        ensures unchanged { self.new ≡ self.old }
        ensures ok { result ≡ Ok tt }
    {
        Ok(())
    }
}
