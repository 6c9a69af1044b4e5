// Since when the variables have their values.
ghost use Rattle.std.specs.Prelude.{◌≡◌, ◌≢◌, ℕ, ◌<◌, length, All, Contains, IfOk};
ghost use Rattle.sas_core.specs.Variables.{IsState};
ghost use Rattle.sas_plan_reasons.specs.Retracing.{HavePlaces, NotedAt, LeftAt, Notes, AreFirstChanges};

use sas_core::{Fact, Grounded};
use sas_meaning::{Layered, State, StateFault};
use std::alloc::{AllocError, Global};

/// The values of the variables in a state of a plan, and for each variable the last step that changed its value,
/// counted from 1; 0 where none did.
#[derive(Drop)]
pub struct Changes {
    pub values: State,
    pub since: Vec<usize>,
}

impl Changes {
    /// Returns the values of this state, before the first step.
    pub fn new<T: Grounded>(
        alloc: Global,
        task: &Layered<T>,
        state: &State,
    ) -> Result<Changes, AllocError>
        requires { IsState task.now.variables state.now }
        ensures { IfOk result (AreFirstChanges state.now) }
    {
        Ok(Changes {
            values: copy_of(alloc, task, state)?,
            since: vec![in alloc; 0; state.values().len()]?,
        })
    }

    /// Notes the step for each of the variables, if it changed its value.
    pub fn note(&mut self, step: usize, state: &State, listed: &[u32])
        requires places { HavePlaces (length state.now) self.old }
        requires exist { All (λ (var : ℕ). var < length state.now) listed.now }
        ensures { Notes step state.now (Contains listed.now) self.old self.new }
    {
        for var in listed {
            self.note_variable(*var, step, state);
        }
    }

    /// Notes the step for this variable, if it changed its value.
    fn note_variable(&mut self, var: u32, step: usize, state: &State)
        requires var { var < length state.now }
        requires places { HavePlaces (length state.now) self.old }
        ensures places { HavePlaces (length state.now) self.new }
        ensures noted { NotedAt step state.now self.old self.new var }
        ensures others { (k : ℕ) → k ≢ var → LeftAt self.old self.new k }
    {
        let value = state.value(var);
        if self.values.value(var) != value {
            self.values.set(Fact { var, value });
            self.since[var as usize] = step;
        }
    }
}

/// Returns a copy of a state of the task.
pub fn copy_of<T: Grounded>(
    alloc: Global,
    task: &Layered<T>,
    state: &State,
) -> Result<State, AllocError>
    requires { IsState task.now.variables state.now }
    ensures { IfOk result (λ copy. copy ≡ state.now) }
{
    match State::of(alloc, task.task(), state.values()) {
        Ok(copy) => Ok(copy),
        // Its values are those of a state.
        Err(StateFault::BadState | StateFault::Memory) => Err(AllocError),
    }
}
