// Parses the calls that standard input requests, and makes them.
ghost use Rattle.std.specs.Prelude.{◌≤◌, length, IfSome};

use crate::saying::{say, say_bytes};
use std::io::Read;

/// The greatest length of an input.
const LONGEST: usize = 65_536;

/// The byte that separates calls, and that ends each answer.
const SEPARATOR: u8 = 30;

/// A call: its name, its kind, and its bytes.
#[derive(Clone, Copy)]
pub struct TestCall<'a> {
    pub call: &'a str,
    pub kind: &'a str,
    pub bytes: &'a [u8],
}

/// Reads to the end of the input, or until the buffer is full. Returns the number of bytes, or `None` if a read fails.
fn fill<R: Read>(input: &mut R, buffer: &mut [u8]) -> Option<usize>
    ensures { IfSome result (λ n. n ≤ length buffer.new) }
{
    let mut filled = 0;
    while filled < buffer.len() {
        match input.read(&mut buffer[filled..]) {
            Ok(0) => break,
            Ok(count) => filled += count,
            Err(_) => return None,
        }
    }
    Some(filled)
}

/// Makes the calls that standard input requests. `call` returns `None` if it doesn't make a call.
pub fn answer<F: Fn(TestCall<'_>) -> Option<()>>(rt: &HostRuntime, call: F)
    requires { F.IsAlwaysCallable call }
{
    let mut buffer = [0u8; LONGEST];
    let Some(filled) = fill(&mut rt.reader(), &mut buffer) else {
        return say(rt, "not read");
    };
    for given in buffer[..filled].split(|&byte| byte == SEPARATOR) {
        if call(asked_in(given)).is_none() {
            say(rt, "not made");
        }
        say_bytes(rt, &[SEPARATOR]);
    }
}

/// Returns the call that some bytes request.
fn asked_in(given: &[u8]) -> TestCall<'_> {
    let (line, bytes) = cut(given, b'\n');
    let line = text_of(line);
    let (call, kind) = line.split_once(' ').unwrap_or((line, ""));
    TestCall { call, kind, bytes }
}

/// Cuts the bytes at the first separator. Returns the bytes before it and after it. Without a separator, the second part is empty.
pub fn cut(bytes: &[u8], separator: u8) -> (&[u8], &[u8]) {
    match bytes.iter().position(|&byte| byte == separator) {
        Some(at) => (&bytes[..at], &bytes[at + 1..]),
        None => (bytes, &[]),
    }
}

/// Returns the bytes as a text, which is empty if they aren't UTF-8.
pub fn text_of(bytes: &[u8]) -> &str {
    str::from_utf8(bytes).unwrap_or("")
}

/// Returns the number that the bytes spell, or `None` if they don't spell one.
pub fn number_in(bytes: &[u8]) -> Option<u32> {
    text_of(bytes).parse().ok()
}
