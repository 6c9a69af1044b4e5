// Prints the result of a call on standard output. Failed writes are ignored: the test that compares the output notices them.
use std::fmt::Debug;
use std::io;
use std::io::Write;

/// Prints a line.
pub fn say<P: Print>(out: &P, line: &str) {
    let _ = out.println(line);
}

/// Prints the first line if the condition holds, else the other line.
pub fn say_either<P: Print>(out: &P, first: bool, line: &str, other: &str) {
    say(out, if first { line } else { other });
}

/// Prints a word and a number.
pub fn say_number<P: Print>(out: &P, word: &str, number: u64) {
    let _ = println!(out; "{word} {number}");
}

/// Prints a value by its derived `Debug`.
pub fn say_debug<P: Print, T: Debug>(out: &P, value: &T) {
    let _ = println!(out; "{value:?}");
}

/// Prints the bytes unchanged.
pub fn say_bytes<P: Print>(out: &P, bytes: &[u8]) {
    let _ = io::writer(out).write_all(bytes);
}

/// Prints the bytes and a line end.
pub fn say_line<P: Print>(out: &P, bytes: &[u8]) {
    say_bytes(out, bytes);
    say(out, "");
}

/// Prints `whole`, and the text with a line end. Prints `out of memory` if there was no memory for the text.
pub fn say_text<P: Print, E>(out: &P, text: &Result<Vec<u8>, E>) {
    match text {
        Ok(text) => {
            say(out, "whole");
            say_line(out, text.as_slice());
        }
        Err(_) => say(out, "out of memory"),
    }
}
