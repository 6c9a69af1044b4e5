// Calls of `sas_axioms` on layers and states.
ghost use Rattle.std.specs.Prelude.{IfOk};
ghost use Rattle.sas_core.specs.Variables.{IsState};

use sas_axioms::{LayerFault, Layered, State, StateFault};
use sas_core::{Fact, Task};
use std::alloc::{AllocError, Global};
use test_words::{cut, fact_of, number_in, say, say_debug, say_either, say_number};

/// Calls `Layered::new`. Prints `layered` or the fault. Detects a definition that accepts a task with wrong layers or refuses another task,
/// an order of faults other than that of the file, and a call that is always out of memory.
pub fn new_layered(rt: &HostRuntime, task: Task) {
    match Layered::new(rt.alloc(), task) {
        Ok(layered) => {
            drop(layered.into_task());
            say(rt, "layered");
        }
        Err((back, fault)) => {
            drop(back);
            say_layer_fault(rt, fault);
        }
    }
}

/// Prints why a task isn't layered.
fn say_layer_fault(rt: &HostRuntime, fault: LayerFault) {
    match fault {
        LayerFault::Memory => say(rt, "out of memory"),
        _ => say_debug(rt, &fault),
    }
}

/// Returns the numbers of a line.
fn numbers_of(alloc: Global, words: &[u8]) -> Result<Vec<u32>, AllocError> {
    let mut numbers = Vec::new(alloc);
    for word in words.split(|&byte| byte == b' ') {
        if let Some(number) = number_in(word) {
            numbers.push(number)?;
        }
    }
    Ok(numbers)
}

/// Prints a word and numbers.
pub fn say_numbers(rt: &HostRuntime, word: &str, numbers: &[u32]) {
    let _ = print!(rt; "{word}");
    for number in numbers {
        let _ = print!(rt; " {number}");
    }
    say(rt, "");
}

/// Prints the values of a state.
pub fn say_state(rt: &HostRuntime, state: &State) {
    say_numbers(rt, "state", state.values());
}

/// Prints why there is no state.
pub fn say_state_fault(rt: &HostRuntime, fault: StateFault) {
    match fault {
        StateFault::BadState => say(rt, "bad state"),
        StateFault::Memory => say(rt, "out of memory"),
    }
}

/// Returns the state with these values.
pub fn state_of(alloc: Global, task: &Task, words: &[u8]) -> Result<State, StateFault>
    ensures { IfOk result (λ state. IsState task.now.variables state) }
{
    let values = numbers_of(alloc, words)?;
    State::of(alloc, task, values.as_slice())
}

/// Calls `State::of` with these values, and prints whether a fact holds before and after it is set: `VALUES;FACT`. Detects a definition of
/// states that accepts too many values or a value out of its range, and a call that is always out of memory.
pub fn new_state(rt: &HostRuntime, words: &[u8], task: &Task) -> Option<()> {
    let (values, fact) = cut(words, b';');
    let fact = fact_of(fact)?;
    match state_of(rt.alloc(), task, values) {
        Ok(mut state) => say_fact(rt, &mut state, fact),
        Err(fault) => say_state_fault(rt, fault),
    }
    Some(())
}

/// Prints the state, and whether the fact holds in it. If its variable exists, also prints the variable's value, and the state after the
/// fact is set.
fn say_fact(rt: &HostRuntime, state: &mut State, fact: Fact) {
    say_state(rt, state);
    say_holds(rt, state, fact);
    if (fact.var as usize) < state.values().len() {
        say_number(rt, "value", u64::from(state.value(fact.var)));
        state.set(fact);
        say_state(rt, state);
        say_holds(rt, state, fact);
    }
}

/// Prints whether the fact holds in the state.
fn say_holds(rt: &HostRuntime, state: &State, fact: Fact) {
    say_either(rt, state.holds(fact), "holds", "doesn't hold");
}
