// Calls with an evaluator of the requested kind.
ghost use Rattle.sas_axioms.specs.Worklist.{IsReadyFor};

use crate::runner_calls::call_with_runner;
use crate::task_calls::{say_state, say_state_fault, state_of};
use sas_axioms::{Layered, Rounds, Settle, State, Worklist};
use sas_core::{Fact, Task};
use std::alloc::AllocError;
use test_words::{TestCall, say};

/// An evaluator that prints each state after another evaluator has settled it. So it prints each state of a plan. Detects a runner that
/// settles by another evaluator than its own.
#[derive(Drop)]
struct PrintingEvaluator<'a, E: Settle<Task> + Drop> {
    rt: &'a HostRuntime,
    evaluator: E,
}

impl<'a, E: Settle<Task> + Drop> Settle<Task> for PrintingEvaluator<'a, E> {
    ghost ready = { λ t p. E.ready t.evaluator p };

    ghost follows = { λ t p s. E.follows t.evaluator p s };

    fn settle(&mut self, layered: &Layered<Task>, state: &mut State) {
        self.evaluator.settle(layered, state);
        say_state(self.rt, state);
    }

    fn settle_on(&mut self, layered: &Layered<Task>, gone: &[Fact], state: &mut State) {
        self.evaluator.settle_on(layered, gone, state);
        say_state(self.rt, state);
    }
}

/// Makes the call with an evaluator of this kind.
pub fn call_by_kind(
    rt: &HostRuntime,
    asked: TestCall<'_>,
    pieces: &[&[u8]],
    layered: &Layered<Task>,
) {
    match asked.kind {
        "rounds" => call_with(rt, asked.call, pieces, layered, Rounds),
        _ => match Worklist::new(rt.alloc(), layered) {
            Ok(worklist) => call_with_worklist(rt, asked, pieces, layered, worklist),
            Err(_) => say(rt, "out of memory"),
        },
    }
}

/// Makes the call with this evaluator, or with one that prints what it settles.
fn call_with_worklist(
    rt: &HostRuntime,
    asked: TestCall<'_>,
    pieces: &[&[u8]],
    layered: &Layered<Task>,
    worklist: Worklist,
)
    requires { IsReadyFor layered.now worklist }
{
    match asked.kind {
        "reporting" => {
            let evaluator = worklist;
            call_with(
                rt,
                asked.call,
                pieces,
                layered,
                PrintingEvaluator { rt, evaluator },
            )
        }
        _ => call_with(rt, asked.call, pieces, layered, worklist),
    }
}

/// Makes the call with this evaluator.
fn call_with<E: Settle<Task> + Drop>(
    rt: &HostRuntime,
    call: &str,
    pieces: &[&[u8]],
    layered: &Layered<Task>,
    mut evaluator: E,
)
    requires { E.ready evaluator layered.now }
{
    match call {
        "settle" => settle(rt, &mut evaluator, layered, pieces),
        _ => call_with_runner(rt, call, pieces, layered, evaluator),
    }
}

/// Settles the states one after another by this evaluator, and prints each. Detects a definition of settled states that uses a rule which
/// can't fire, evaluates layers in another order, or allows circular derivations.
fn settle<E: Settle<Task>>(
    rt: &HostRuntime,
    evaluator: &mut E,
    layered: &Layered<Task>,
    states: &[&[u8]],
)
    requires { E.ready evaluator.old layered.now }
{
    for words in states {
        match state_of(rt.alloc(), layered.task(), words) {
            Ok(mut state) => {
                evaluator.settle(layered, &mut state);
                say_state(rt, &state);
            }
            Err(fault) => say_state_fault(rt, fault),
        }
    }
}
