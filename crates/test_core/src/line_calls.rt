// Calls of `sas_lines` on lines and numbers.
use sas_lines::{
    Lines, Numbers, cost, first_line, number, push_line, push_number, signed, spelling_is_decimal,
};
use test_words::{TestCall, cut, say, say_bytes, say_debug, say_line, say_text, text_of};

/// Makes the call if it is defined in this file.
pub fn call_of_lines(rt: &HostRuntime, asked: TestCall<'_>) -> Option<()> {
    spelling_is_decimal();
    match asked.call {
        // Detects a wrong number that both the clause and the code allow.
        "number" => say_debug(rt, &number(asked.bytes)),
        "signed" => say_debug(rt, &signed(asked.bytes)),
        "cost" => say_debug(rt, &cost(asked.bytes)),
        "numbers" => say_numbers(rt, asked.bytes),
        "first-line" => say_first_line(rt, asked.bytes),
        "lines" => say_lines(rt, asked.bytes),
        "push" => push(rt, asked.kind, asked.bytes)?,
        _ => return None,
    }
    Some(())
}

/// Prints the parts of `Numbers`, each on a line. Detects a definition of parts that merges several spaces.
fn say_numbers(rt: &HostRuntime, line: &[u8]) {
    for part in Numbers::new(line) {
        say_line(rt, part);
    }
}

/// Calls `first_line`. Detects a definition of lines that keeps a CR, or removes one too many.
fn say_first_line(rt: &HostRuntime, bytes: &[u8]) {
    match first_line(bytes) {
        Some(first) => {
            say_debug(rt, &first.taken);
            say_line(rt, first.line);
        }
        None => say(rt, "none"),
    }
}

/// Feeds pieces to `Lines`. `|` separates pieces. Detects the mistakes of `say_first_line`, a line that remains after the next feed, and
/// a call that is always out of memory.
fn say_lines(rt: &HostRuntime, pieces: &[u8]) {
    let mut lines = Lines::new(rt.alloc());
    for piece in pieces.split(|&byte| byte == b'|') {
        let Ok(fed) = lines.feed(piece) else {
            return say(rt, "out of memory");
        };
        say_debug(rt, &fed);
        say_bytes(rt, lines.line());
        say_bytes(rt, b"|");
        say_line(rt, lines.pending());
    }
}

/// Calls `push_line` or `push_number` on a text that fills its memory: `TEXT|LINE`. Detects a call that is always out of memory.
fn push(rt: &HostRuntime, kind: &str, words: &[u8]) -> Option<()> {
    let (before, line) = cut(words, b'|');
    let mut text = Vec::from_slice(rt.alloc(), before).ok()?;
    let pushed = match kind {
        "number" => push_number(&mut text, text_of(line).parse().ok()?),
        _ => push_line(&mut text, line),
    };
    say_text(rt, &pushed.map(|_| text));
    Some(())
}
