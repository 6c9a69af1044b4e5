// Calls of `sas_core` on tasks and their parts.
ghost use Rattle.std.specs.Prelude.{◌≡◌, ◌↔◌, IsTrue};

use crate::parts::parts_of;
use sas_core::{Grounded, Task};
use sas_text::encode_task;
use test_words::{TestCall, cut, fact_of, say_debug, say_either, say_number, say_text, task_of};

/// Makes the call if it is defined in this file.
pub fn call_of_tasks(rt: &HostRuntime, asked: TestCall<'_>) -> Option<()> {
    match asked.call {
        "new-task" => new_task(rt, asked.bytes),
        "same-tasks" => say_same_tasks(rt, asked.bytes)?,
        "order" => say_order(rt, asked.bytes)?,
        _ => {
            let (words, file) = cut(asked.bytes, b'|');
            let task = task_of(rt.alloc(), file)?;
            let said = call_on(rt, asked.call, words, &task);
            drop(task);
            return said;
        }
    }
    Some(())
}

/// Makes the call on the given task.
fn call_on(rt: &HostRuntime, call: &str, words: &[u8], task: &Task) -> Option<()> {
    match call {
        // Detects a call that is always out of memory.
        "encode-task" => say_text(rt, &encode_task(rt.alloc(), task)),
        "costs" => say_costs(rt, task),
        "variables" => say_variables(rt, task),
        "facts" => say_facts(rt, words, task)?,
        _ => return None,
    }
    Some(())
}

/// Calls `Task::new` with the parts that the bytes describe. Prints the text of the task, which is taken apart and made again, or the
/// first fault. Detects a rule of the format that the definition lacks, and an order of faults other than that of the file.
fn new_task(rt: &HostRuntime, bytes: &[u8]) {
    match Task::new(parts_of(rt.alloc(), bytes)) {
        Ok(task) => {
            let again = Task::of_parts(task.into_parts());
            say_text(rt, &encode_task(rt.alloc(), &again));
            drop(again);
        }
        Err((back, fault)) => {
            drop(back);
            say_debug(rt, &fault);
        }
    }
}

/// Returns the task with the parts that the bytes describe, or `None` if there is none.
fn described(rt: &HostRuntime, bytes: &[u8]) -> Option<Task> {
    Task::new(parts_of(rt.alloc(), bytes)).ok()
}

/// Prints whether two tasks are equal, whose parts are described. `|` separates them. Detects an equality that ignores a field.
fn say_same_tasks(rt: &HostRuntime, bytes: &[u8]) -> Option<()> {
    let (parts, others) = cut(bytes, b'|');
    let task = described(rt, parts)?;
    say_same_as(rt, &task, others);
    drop(task);
    Some(())
}

/// Prints whether the task is equal to the one whose parts are described.
fn say_same_as(rt: &HostRuntime, task: &Task, others: &[u8]) {
    if let Some(other) = described(rt, others) {
        say_either(rt, is_same_task(task, &other), "equal", "different");
        drop(other);
    }
}

/// Returns whether two tasks are equal, which means that they have the same parts.
fn is_same_task(task: &Task, other: &Task) -> bool
    ensures { IsTrue result ↔ (task.now ≡ other.now) }
{
    task == other
}

/// Prints `Task::cost` of each operator. Detects a definition that uses cost lines under metric 0.
fn say_costs(rt: &HostRuntime, task: &Task) {
    for operator in 0..task.operators() {
        say_number(rt, "cost", u64::from(task.cost(operator)));
    }
}

/// Prints `Task::range` and `Task::derived` of each variable. Detects a definition by which a variable on layer 0 is basic.
fn say_variables(rt: &HostRuntime, task: &Task) {
    for var in 0..task.variables() {
        let word = if task.derived(var) {
            "derived"
        } else {
            "basic"
        };
        say_number(rt, word, u64::from(task.range(var)));
    }
}

/// Prints `Task::has_fact` of each fact. `;` separates facts. Detects a definition of facts that counts from 1.
fn say_facts(rt: &HostRuntime, facts: &[u8], task: &Task) -> Option<()> {
    for words in facts.split(|&byte| byte == b';') {
        say_debug(rt, &task.has_fact(fact_of(words)?));
    }
    Some(())
}

/// Prints the order of two facts. `;` separates the facts. Detects an order by values first.
fn say_order(rt: &HostRuntime, words: &[u8]) -> Option<()> {
    let (first, second) = cut(words, b';');
    let (first, second) = (fact_of(first)?, fact_of(second)?);
    say_debug(rt, &(first.cmp(&second), first < second));
    Some(())
}
