//! Test program for the meaning of tasks, plans, and mutex groups. Standard input requests calls, as `test_words` describes.
#![tactic(auto)]

mod caller;
mod evaluator_calls;
mod group_calls;
mod runner_calls;
mod task_calls;

use caller::cost_if_valid;
use evaluator_calls::call_by_kind;
use group_calls::{check_all, say_facts};
use sas_axioms::{Layered, meaning_laws};
use sas_core::Task;
use sas_meaning::step_laws;
use sas_mutex::{group_laws, group_verdict_laws};
use sas_run::{number_laws, other_senses_laws, verdict_laws};
use std::alloc::Global;
use task_calls::{new_layered, new_state};
use test_words::{TestCall, answer, cut, say, say_debug, task_of};

/// Makes the call, or returns `None` if it doesn't. The bytes are the arguments of the call, a `|`, and the file of a task.
fn call(rt: &HostRuntime, asked: TestCall<'_>) -> Option<()> {
    if asked.call == "laws" {
        say_laws(rt);
        return Some(());
    }
    let (words, file) = cut(asked.bytes, b'|');
    if asked.call == "caller" {
        say_debug(rt, &cost_if_valid(rt.alloc(), file, words));
        return Some(());
    }
    let task = task_of(rt.alloc(), file)?;
    match asked.call {
        "layered" => {
            new_layered(rt, task);
            Some(())
        }
        "new-state" | "operator-facts" => {
            let said = call_on_task(rt, asked.call, words, &task);
            drop(task);
            said
        }
        _ => call_with_layers(rt, asked, words, task),
    }
}

/// Makes the call on a task, which needn't be layered.
fn call_on_task(rt: &HostRuntime, call: &str, words: &[u8], task: &Task) -> Option<()> {
    match call {
        "new-state" => new_state(rt, words, task),
        _ => say_facts(rt, words, task),
    }
}

/// Makes the call on a task that has to be layered.
fn call_with_layers(rt: &HostRuntime, asked: TestCall<'_>, words: &[u8], task: Task) -> Option<()> {
    let pieces = pieces_of(rt.alloc(), asked.call, words)?;
    let layered = Layered::new(rt.alloc(), task).ok()?;
    match asked.call {
        "check-groups" => check_all(rt, &layered),
        _ => call_by_kind(rt, asked, pieces.as_slice(), &layered),
    }
    drop(layered);
    Some(())
}

/// Returns the arguments, which `;` separates. Those of `plan` are one file.
fn pieces_of<'a>(alloc: Global, call: &str, words: &'a [u8]) -> Option<Vec<&'a [u8]>> {
    let mut pieces = Vec::new(alloc);
    if call == "plan" {
        pieces.push(words).ok()?;
        return Some(pieces);
    }
    for piece in words.split(|&byte| byte == b';') {
        pieces.push(piece).ok()?;
    }
    Some(pieces)
}

/// Calls each law once. Detects a law that can't be called.
fn say_laws(rt: &HostRuntime) {
    meaning_laws();
    step_laws();
    verdict_laws();
    number_laws();
    other_senses_laws();
    group_laws();
    group_verdict_laws();
    say(rt, "laws");
}

fn main(rt: HostRuntime) {
    answer(&rt, |asked| call(&rt, asked));
}
