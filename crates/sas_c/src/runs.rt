// Runs of a task that is held: plans by numbers, from any state. It stays held.
ghost use Rattle.std.specs.Prelude.{◌≡◌, IfSome};
ghost use Rattle.sas_plan_reasons.specs.StateBehind.{IsStateBehind};
ghost use Rattle.sas_c.specs.Telling.{IsValidRun, ReturnsByNumbers, ReturnsState};
ghost use Rattle.sas_c.specs.Holding.{AsksHeld, ReturnsHeld, RunOut, RunTraceOut};

use crate::numbers::{NO, NO_TASK, OUT_OF_MEMORY};
use crate::plans::{PlanCall, answer_held};
use crate::sas_task::{HeldTask, SasTask};
use crate::telling::tell_values;
use sas_run::NumberedPlan;
use std::alloc::Global;

/// A plan as the numbers of its operators, its cost, and the values of the state that it starts in, as a program in C passes them. With no
/// values this is the initial state.
#[repr(C)]
#[derive(Clone, Copy)]
pub struct SasRun<'r> {
    pub operators: &'r [u32],
    pub cost: u64,
    pub start: &'r [u32],
}

/// Answers whether the operators with these numbers solve the task that is held, from the state that is given, at this cost. It stays held.
#[unsafe(no_mangle)]
pub extern "C" fn sas_task_run(
    alloc: Global,
    task: &mut SasTask,
    run: &SasRun<'_>,
    room: &mut [u8],
    size: &mut usize,
) -> u32
    ensures answers { ReturnsHeld (λ loaded.
        RunOut loaded run.now.start.now run.now.operators.now run.now.cost)
        task.old.pointer.task task.new.pointer.task room.old room.new size.new result }
    ensures headline { IfSome task.old.pointer.task (λ loaded. ReturnsByNumbers
        (IsValidRun loaded run.now.start.now run.now.operators.now run.now.cost)
        run.now.operators.now run.now.cost room.new size.new result) }
{
    let plan = NumberedPlan {
        operators: run.operators,
        cost: run.cost,
        start: run.start,
    };
    let call = PlanCall::Numbers(plan);
    answer_held(alloc, task, call, room, size)
}

/// Answers the same after a trace: the values of the state that it starts in, and what each step that goes through changes. The task stays
/// held.
#[unsafe(no_mangle)]
pub extern "C" fn sas_task_run_trace(
    alloc: Global,
    task: &mut SasTask,
    run: &SasRun<'_>,
    room: &mut [u8],
    size: &mut usize,
) -> u32
    ensures answers { ReturnsHeld (λ loaded.
        RunTraceOut loaded run.now.start.now run.now.operators.now run.now.cost)
        task.old.pointer.task task.new.pointer.task room.old room.new size.new result }
{
    let plan = NumberedPlan {
        operators: run.operators,
        cost: run.cost,
        start: run.start,
    };
    let call = PlanCall::Traced(plan);
    answer_held(alloc, task, call, room, size)
}

/// Writes the values of the state to which the operators with these numbers lead from the state that is given, up to the first that fails.
/// Returns `YES` if none does. Returns `NO` if one does, and, with no values, if the start isn't a state. The task stays held.
#[unsafe(no_mangle)]
pub extern "C" fn sas_task_run_state(
    alloc: Global,
    task: &mut SasTask,
    run: &SasRun<'_>,
    room: &mut [u32],
    size: &mut usize,
) -> u32
    ensures state { AsksHeld (λ loaded. ReturnsState
        (IsStateBehind loaded run.now.start.now run.now.operators.now)
        room.old room.new size.new result)
        task.old.pointer.task task.new.pointer.task room.old room.new result }
{
    match task.take(alloc) {
        Some(mut loaded) => {
            let number = write_state(alloc, &mut loaded, run, room, size);
            task.put(loaded);
            number
        }
        None => NO_TASK,
    }
}

/// Writes the values of the state to which the operators lead in this task.
fn write_state(
    alloc: Global,
    loaded: &mut HeldTask,
    run: &SasRun<'_>,
    room: &mut [u32],
    size: &mut usize,
) -> u32
    ensures state { ReturnsState
        (IsStateBehind loaded.old run.now.start.now run.now.operators.now)
        room.old room.new size.new result }
    ensures same { loaded.new ≡ loaded.old }
{
    let plan = NumberedPlan {
        operators: run.operators,
        cost: run.cost,
        start: run.start,
    };
    let Ok(found) = loaded.state_by_numbers(alloc, &plan) else {
        return OUT_OF_MEMORY;
    };
    match found {
        Some((state, all)) => {
            let number = tell_values(state.values(), all, room, size);
            drop(state);
            number
        }
        None => {
            *size = 0;
            NO
        }
    }
}
