// The states in which plans by numbers start.
ghost use Rattle.std.specs.Prelude.{◌≡◌, ◌<◌, ℕ, length, IfNone, IfOk, IfSome, slice_index};
ghost use Rattle.sas_core.specs.Variables.{HasValue, IsState};
ghost use Rattle.sas_meaning.specs.Settled.{Settles};
ghost use Rattle.sas_run.specs.Starts.{IsStart, IsStartFault, IsStateFault, start_of};
ghost use Rattle.sas_run.specs.Stepping.{IsAt, IsPrepared};
ghost use Rattle.sas_run.specs.declared.starts.StartFault.TheVariants.{Value};

use crate::stepper::{Stepper, initial_of};
use sas_core::Grounded;
use sas_meaning::{Layered, Settle, State};
use std::alloc::{AllocError, Global};

/// Why values aren't those of a state of the task.
#[derive(Clone, Copy, Debug, PartialEq, Eq)]
pub enum StartFault {
    /// There are so many values, which isn't the number of the variables.
    Count { values: usize, variables: u32 },
    /// There is a value for each variable, but this one doesn't have its value. It is the first such variable.
    Value { var: u32 },
}

/// Returns why the values that are given aren't those of a state. Returns `None` if they are, or if none are given.
pub fn start_fault<T: Grounded>(task: &Layered<T>, values: &[u32]) -> Option<StartFault>
    ensures fault { IfSome result (IsStartFault task.now values.now) }
    ensures none { IfNone result (IsStart task.now values.now) }
{
    if values.is_empty() {
        return None;
    }
    state_fault(task, values)
}

/// Returns why the values aren't those of a state, if they aren't.
fn state_fault<T: Grounded>(task: &Layered<T>, values: &[u32]) -> Option<StartFault>
    ensures fault { IfSome result (IsStateFault task.now values.now) }
    ensures none { IfNone result (IsState task.now.variables values.now) }
{
    let variables = task.variables();
    if values.len() != variables as usize {
        return Some(StartFault::Count {
            values: values.len(),
            variables,
        });
    }
    match first_out_of_range(task, values) {
        Some(var) => Some(StartFault::Value { var }),
        None => None,
    }
}

/// Returns the first variable that doesn't have its value, if there is one.
fn first_out_of_range<T: Grounded>(task: &Layered<T>, values: &[u32]) -> Option<u32>
    requires { length values.now ≡ length task.now.variables }
    ensures some { IfSome result (λ var. IsStateFault task.now values.now (Value var)) }
    ensures none { IfNone result ((var : ℕ) → var < length task.now.variables
        → HasValue task.now.variables var (slice_index values.now var)) }
{
    for var in 0..task.variables() {
        if values[var as usize] >= task.range(var) {
            return Some(var);
        }
    }
    None
}

/// Returns the state with these values, or the initial state if there are none. Derived variables are computed from the basic ones.
pub fn starting_state<E: Settle<T> + Drop, T: Grounded>(
    alloc: Global,
    layered: &Layered<T>,
    stepper: &mut Stepper<E>,
    values: &[u32],
) -> Result<State, AllocError>
    requires prepared { IsPrepared E.ready layered.now stepper.old }
    requires values { IsStart layered.now values.now }
    ensures prepared { IsPrepared E.ready layered.now stepper.new }
    ensures at { IfOk result (IsAt E.ready E.follows layered.now stepper.new) }
    ensures starts { IfOk result (Settles layered.now (start_of layered.now values.now)) }
{
    if values.is_empty() {
        return initial_of(alloc, layered, stepper);
    }
    let Ok(mut state) = State::of(alloc, layered.task(), values) else {
        return Err(AllocError);
    };
    stepper.evaluator.settle(layered, &mut state);
    Ok(state)
}
