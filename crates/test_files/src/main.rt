//! Test program for task files and plan files, read from devices and in pieces. Standard input requests calls, as `test_words` describes.
#![tactic(auto)]

mod reader_calls;

use reader_calls::{feed_plan, feed_plan_within, feed_task, feed_task_within, read};
use sas_text::{plan_laws, task_laws};
use test_words::{TestCall, answer, number_in, say};

/// Makes the call, or returns `None` if it doesn't.
fn call(rt: &HostRuntime, asked: TestCall<'_>) -> Option<()> {
    match asked.call {
        "read" => read(rt, asked.kind, asked.bytes),
        "feed-plan" => feed_plan(rt, asked.bytes),
        "feed-task" => feed_task(rt, asked.bytes),
        "feed-plan-within" => feed_plan_within(rt, number_in(asked.kind.as_bytes())?, asked.bytes),
        "feed-task-within" => feed_task_within(rt, number_in(asked.kind.as_bytes())?, asked.bytes),
        "laws" => say_laws(rt),
        _ => return None,
    }
    Some(())
}

/// Calls each law once. Detects a law that can't be called.
fn say_laws(rt: &HostRuntime) {
    plan_laws();
    task_laws();
    sas_core::range_laws();
    say(rt, "laws");
}

fn main(rt: HostRuntime) {
    answer(&rt, |asked| call(&rt, asked));
}
