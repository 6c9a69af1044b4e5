// Calls of `sas_run`: which operator a name means in a state, steps, the goal, and plans.
ghost use Rattle.std.specs.Prelude.{◌<◌, length, IfSome};
ghost use Rattle.sas_core.specs.Variables.{IsState};

use crate::task_calls::{say_numbers, say_state};
use sas_axioms::{Layered, Settle, State};
use sas_core::{Grounded, Task};
use sas_run::{PlanFault, Runner};
use test_words::{cut, number_in, plan_of, say, say_debug, say_number, text_of};

/// Makes the call with a runner that has this evaluator. Detects calls of `sas_run` that are always out of memory.
pub fn call_with_runner<E: Settle<Task> + Drop>(
    rt: &HostRuntime,
    call: &str,
    pieces: &[&[u8]],
    layered: &Layered<Task>,
    evaluator: E,
)
    requires { E.ready evaluator layered.now }
{
    match Runner::new(rt.alloc(), layered, evaluator) {
        Ok(mut runner) => start(rt, call, pieces, &mut runner),
        Err(_) => say(rt, "out of memory"),
    }
}

/// Prints the initial state, and then makes the call.
fn start<E: Settle<Task> + Drop>(
    rt: &HostRuntime,
    call: &str,
    pieces: &[&[u8]],
    runner: &mut Runner<'_, E>,
) {
    let Ok(mut state) = runner.initial(rt.alloc()) else {
        return say(rt, "out of memory");
    };
    say_state(rt, &state);
    match call {
        "plan" => check_plan(rt, pieces, runner),
        _ => make_calls(rt, pieces, runner, &mut state),
    }
}

/// Makes calls of a runner one after another in the state. Detects a definition of steps by which an effect that
/// doesn't fire requires no old value, effects are applied one after another, or the last of two conflicting effects wins; and a definition
/// of choices that compares only the first bytes of names.
fn make_calls<E: Settle<Task> + Drop>(
    rt: &HostRuntime,
    calls: &[&[u8]],
    runner: &mut Runner<'_, E>,
    state: &mut State,
)
    requires { IsState runner.old.variables state.old }
{
    for call in calls {
        make_call(rt, call, runner, state);
        say_state(rt, state);
    }
}

/// Makes one of the calls, and prints its answer.
fn make_call<E: Settle<Task> + Drop>(
    rt: &HostRuntime,
    call: &[u8],
    runner: &mut Runner<'_, E>,
    state: &mut State,
)
    requires { IsState runner.old.variables state.old }
    ensures { IsState runner.new.variables state.new }
{
    let (call, word) = cut(call, b' ');
    match (text_of(call), operator_of(runner.layered(), word)) {
        ("choose", _) => say_debug(rt, &runner.choose(state, word)),
        ("goal", _) => say_debug(rt, &runner.goal(state)),
        ("applicable", Some(operator)) => say_debug(rt, &runner.applicable(state, operator)),
        (_, Some(operator)) => say_debug(rt, &runner.step(state, operator)),
        _ => say(rt, "WRONG: no operator"),
    }
}

/// Returns the operator with this number, or `None` if there is no such operator.
fn operator_of(layered: &Layered<Task>, word: &[u8]) -> Option<u32>
    ensures { IfSome result (λ operator. operator < length layered.now.operators) }
{
    number_in(word).filter(|operator| *operator < layered.task().operators())
}

/// Calls `check_plan` with the plan of a file, and prints the answer. Detects a definition of valid plans that uses the last operator of a
/// name instead of the first, ignores a fact of the goal, or adds up cost lines under metric 0.
fn check_plan<E: Settle<Task> + Drop>(
    rt: &HostRuntime,
    pieces: &[&[u8]],
    runner: &mut Runner<'_, E>,
) {
    let Some(plan) = pieces.first().and_then(|file| plan_of(rt.alloc(), file)) else {
        return say(rt, "not made");
    };
    match runner.check_plan(rt.alloc(), &plan) {
        Ok(valid) => {
            say_numbers(rt, "operators", valid.operators.as_slice());
            say_number(rt, "cost", valid.cost);
        }
        Err(PlanFault::Memory) => say(rt, "out of memory"),
        Err(fault) => say_debug(rt, &fault),
    }
}
