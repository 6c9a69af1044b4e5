// Calls of `sas_lines` on devices.
use sas_lines::trial::Breaks;
use sas_lines::{OpenInput, Watched, write_out};
use std::io;
use std::io::{Error, Read, Write};
use test_words::{
    ScriptedReader, TestCall, cut, failure, narrow_of, number_in, say, say_debug, say_either,
    say_line, say_number,
};

/// An input that follows a text.
type Input<'a> = OpenInput<ScriptedReader<'a>, ScriptedReader<'a>>;

/// A writer that follows the bytes of a text, one at each write. For a digit it takes at most this many bytes, for `!` it fails, and for
/// `~` it fails as interrupted. After each of these it continues with the next byte. After the last byte it takes everything.
#[derive(Drop)]
struct ScriptedWriter<'a> {
    kept: Vec<u8>,
    turns: &'a [u8],
}

impl<'a> Write for ScriptedWriter<'a> {
    fn write(&mut self, buf: &[u8]) -> io::Result<usize> {
        let (turn, rest) = self.turns.split_at(self.turns.len().min(1));
        self.turns = rest;
        if let Some(kind) = failure(turn) {
            return Err(Error::from(kind));
        }
        let most = number_in(turn).map_or(buf.len(), |most| most as usize);
        let taken = buf.len().min(most);
        self.kept.extend_from_slice(&buf[..taken])?;
        Ok(taken)
    }

    fn flush(&mut self) -> io::Result<()> {
        Ok(())
    }
}

/// Makes the call if it is defined in this file.
pub fn call_of_devices(rt: &HostRuntime, asked: TestCall<'_>) -> Option<()> {
    match asked.call {
        "take" => take(rt, asked.kind, asked.bytes),
        "give" => give(rt, asked.bytes),
        "write-out" => write(rt, asked.bytes)?,
        _ => return None,
    }
    Some(())
}

/// Calls `Watched::take` of a reader of this kind. Detects a read that is repeated after a failure, and then succeeds.
fn take(rt: &HostRuntime, kind: &str, bytes: &[u8]) {
    let device = ScriptedReader::new(bytes, 2);
    match kind {
        "fails" => say_taken(rt, Breaks::new(bytes, false), bytes.len()),
        "interrupted" => say_taken(rt, Breaks::new(bytes, true), bytes.len()),
        "file" => say_taken(rt, Input::File(device), bytes.len()),
        "standard" => say_taken(rt, Input::Standard(device), bytes.len()),
        _ => say_taken(rt, device, bytes.len()),
    }
}

/// Calls `Watched::take` of a reader until it ends or fails. Detects a failure that isn't noted, and a failure that is noted at the end.
fn say_taken<D: Read + Drop>(rt: &HostRuntime, device: D, most: usize) {
    let mut input = Watched::new(device);
    let mut buffer = [0; 2];
    for _ in 0..=most {
        if input.failed() {
            return say(rt, "noted");
        }
        match input.take(&mut buffer) {
            Ok(0) => return say(rt, "ended"),
            Ok(count) => {
                say_number(rt, "taken", count as u64);
                say_line(rt, &buffer);
            }
            Err(_) => say(rt, "failed"),
        }
    }
}

/// Calls `Watched::give` of a writer that follows a text, each time with the remaining bytes: `TURNS|BYTES`. Detects a write that is
/// repeated after it failed or took no bytes, and then succeeds.
fn give(rt: &HostRuntime, words: &[u8]) {
    let (turns, bytes) = cut(words, b'|');
    let kept = Vec::new(rt.alloc());
    let mut out = Watched::new(ScriptedWriter { kept, turns });
    say_given(rt, &mut out, bytes);
    say_line(rt, out.into_device().kept.as_slice());
}

/// `give` for a writer that may have failed.
fn say_given(rt: &HostRuntime, out: &mut Watched<ScriptedWriter<'_>>, bytes: &[u8]) {
    let mut left = bytes;
    for _ in 0..=bytes.len() {
        if out.failed() {
            return say(rt, "noted");
        }
        match out.give(left) {
            Ok(count) => {
                say_number(rt, "given", count as u64);
                left = &left[count..];
                if left.is_empty() {
                    return;
                }
            }
            Err(_) => say(rt, "failed"),
        }
    }
}

/// Calls `write_out`: `WRITER|BYTES`. Detects bytes that are written twice or not at all, and a wrong count of them.
fn write(rt: &HostRuntime, words: &[u8]) -> Option<()> {
    let (writer, bytes) = cut(words, b'|');
    let mut out = Watched::new(narrow_of(rt.alloc(), writer)?);
    say_debug(rt, &write_out(&mut out, bytes));
    say_either(rt, out.failed(), "noted", "not noted");
    say_line(rt, out.into_device().kept());
    Some(())
}
