// Devices that follow a script, step by step. No contract states what they return or take, or how often they are called.
use crate::asked::{cut, number_in};
use sas_lines::trial::Narrow;
use std::alloc::Global;
use std::io;
use std::io::{Error, ErrorKind, Read};

/// More bytes than any answer of a test has.
const ROOM: u32 = 131_072;

/// A reader that returns the parts of a text, one at each read. `#` separates parts. For an empty part it returns 0 bytes, for `!` it
/// fails, and for `~` it fails as interrupted. After each of these it continues with the next part. A part that is longer than the buffer
/// takes several reads. After the last part it returns 0 bytes. A read into more than `most` bytes fails.
#[derive(Drop)]
pub struct ScriptedReader<'a> {
    part: &'a [u8],
    rest: &'a [u8],
    most: usize,
}

impl<'a> ScriptedReader<'a> {
    /// Returns a reader that follows this text.
    pub fn new(text: &'a [u8], most: usize) -> ScriptedReader<'a> {
        let (part, rest) = cut(text, b'#');
        ScriptedReader { part, rest, most }
    }

    /// Moves to the next part.
    fn go_on(&mut self) {
        let (part, rest) = cut(self.rest, b'#');
        self.part = part;
        self.rest = rest;
    }
}

impl<'a> Read for ScriptedReader<'a> {
    fn read(&mut self, buf: &mut [u8]) -> io::Result<usize> {
        if buf.len() > self.most {
            return Err(Error::from(ErrorKind::InvalidInput));
        }
        if let Some(kind) = failure(self.part) {
            self.go_on();
            return Err(Error::from(kind));
        }
        let count = self.part.read(buf)?;
        if self.part.is_empty() {
            self.go_on();
        }
        Ok(count)
    }
}

/// Returns the failure that these bytes describe, or `None`.
pub fn failure(reported: &[u8]) -> Option<ErrorKind> {
    match reported {
        [b'!'] => Some(ErrorKind::Other),
        [b'~'] => Some(ErrorKind::Interrupted),
        _ => None,
    }
}

/// Returns a writer that takes some bytes at a time, and some in total, and then fails, or takes none: `PIECE,ROOM,fails` or
/// `PIECE,ROOM,stops`. Without words it takes everything. Returns `None` if there is no memory for it.
pub fn narrow_of(alloc: Global, words: &[u8]) -> Option<Narrow> {
    let (piece, words) = cut(words, b',');
    let (room, end) = cut(words, b',');
    let piece = number_in(piece).unwrap_or(ROOM) as usize;
    let room = number_in(room).unwrap_or(ROOM) as usize;
    Narrow::new(alloc, piece, room, end != b"stops".as_slice()).ok()
}
