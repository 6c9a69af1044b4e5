//! Test program for `run`, `answer` and `judge` over devices, and for the words of the command line. Standard input requests calls, as `test_words` describes.

#![tactic(auto)]

mod judge_calls;
mod run_calls;
mod tool_calls;

use judge_calls::{judge_in_memory, judge_listed};
use run_calls::{answer_question, say_messages};
use sas_requests::{answer_laws, judge_laws};
use std::fmt::Debug;
use test_words::{TestCall, answer, say, say_debug, say_line};
use tool_calls::{say_endings, say_job};

/// The longest read of an input.
const LONGEST_READ: usize = 65_536;

/// Makes the call, or returns `None` if it doesn't.
fn call(rt: &HostRuntime, asked: TestCall<'_>) -> Option<()> {
    match asked.call {
        "run" => answer_question(rt, asked.kind, asked.bytes)?,
        "judge" => judge_listed(rt, asked.kind == "why", asked.bytes)?,
        "judge-slices" => judge_in_memory(rt, asked.kind == "why", asked.bytes)?,
        "messages" => say_messages(rt),
        "words" => say_job(rt, asked.bytes)?,
        "endings" => say_endings(rt),
        "laws" => say_laws(rt),
        _ => return None,
    }
    Some(())
}

/// Prints an answer and what was written, or `out of memory` if there was no memory for an answer and nothing was written.
fn say_answer<A: Debug + PartialEq>(rt: &HostRuntime, answer: &A, no_memory: &A, written: &[u8]) {
    if answer == no_memory && written.is_empty() {
        return say(rt, "out of memory");
    }
    say_debug(rt, answer);
    say_line(rt, written);
}

/// Calls the laws of outputs. Detects a law that can't be called.
fn say_laws(rt: &HostRuntime) {
    answer_laws();
    judge_laws();
    say(rt, "laws");
}

fn main(rt: HostRuntime) {
    answer(&rt, |asked| call(&rt, asked));
}
