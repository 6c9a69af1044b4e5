// Parses the arguments of calls: facts, plans and tasks.
use crate::asked::{cut, number_in};
use sas_core::{Fact, Plan, Task};
use sas_lines::Watched;
use sas_text::{read_plan, read_task};
use std::alloc::Global;

/// Returns the fact with these two numbers, such as `3 1`. Returns `None` if the bytes have another form.
pub fn fact_of(words: &[u8]) -> Option<Fact> {
    let (var, value) = cut(words, b' ');
    Some(Fact {
        var: number_in(var)?,
        value: number_in(value)?,
    })
}

/// Returns the plan in a plan file, or `None` if the file isn't one.
pub fn plan_of(alloc: Global, file: &[u8]) -> Option<Plan> {
    read_plan(alloc, &mut Watched::new(file)).ok()
}

/// Returns the task in a task file, or `None` if the file isn't one.
pub fn task_of(alloc: Global, file: &[u8]) -> Option<Task> {
    read_task(alloc, &mut Watched::new(file)).ok()
}
