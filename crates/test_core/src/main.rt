//! Test program for names, plans, tasks and their parts, lines, and devices. Standard input requests calls, as `test_words` describes.
#![tactic(auto)]

mod device_calls;
mod line_calls;
mod parts;
mod plan_calls;
mod task_calls;

use device_calls::call_of_devices;
use line_calls::call_of_lines;
use plan_calls::call_of_plans;
use task_calls::call_of_tasks;
use test_words::{TestCall, answer};

/// Makes the call, or returns `None` if it doesn't.
fn call(rt: &HostRuntime, asked: TestCall<'_>) -> Option<()> {
    call_of_plans(rt, asked)
        .or_else(|| call_of_lines(rt, asked))
        .or_else(|| call_of_devices(rt, asked))
        .or_else(|| call_of_tasks(rt, asked))
}

fn main(rt: HostRuntime) {
    answer(&rt, |asked| call(&rt, asked));
}
