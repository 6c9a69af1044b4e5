// Plans of a task that is held. It stays held.
ghost use Rattle.std.specs.Prelude.{◌≡◌, false, true, List, ℕ, IfSome};
ghost use Rattle.sas_answers.specs.Answers.{VerdictAnswer};
ghost use Rattle.sas_meaning.specs.Layers.{IsLayered};
ghost use Rattle.sas_plan_reasons.specs.Verdict.{WhyVerdict};
ghost use Rattle.sas_run.specs.ByNumbers.{IsValidByNumbers};
ghost use Rattle.sas_requests.specs.Output.{Out, VerdictOut};
ghost use Rattle.sas_plan_reasons.specs.Traced.{TraceVerdict};
ghost use Rattle.sas_requests.specs.FileReasons.{PlanFileReasons};
ghost use Rattle.sas_requests.specs.OutBy.{OutBy, WithReasons, explained, traced};
ghost use Rattle.sas_c.specs.Telling.{Returns, ReturnsByNumbers, ReturnsHeadline};
ghost use Rattle.sas_c.specs.Holding.{HeldOut, HoldsTask, NumbersOut, ReturnsHeld};

use crate::numbers::{NO_TASK, OUT_OF_MEMORY};
use crate::sas_task::{HeldTask, SasTask};
use crate::telling::{return_answer, tell_ended};
use sas_lines::Watched;
use sas_requests::{Detail, Request, answer_bytes};
use sas_run::NumberedPlan;
use std::alloc::Global;

/// Answers whether the plan solves the task that is held, as `sas_plan` does. It stays held.
#[unsafe(no_mangle)]
pub extern "C" fn sas_task_plan(
    alloc: Global,
    task: &mut SasTask,
    plan: &[u8],
    room: &mut [u8],
    size: &mut usize,
) -> u32
    ensures answers { ReturnsHeld (λ loaded. VerdictOut VerdictAnswer loaded plan.now)
        task.old.pointer.task task.new.pointer.task room.old room.new size.new result }
    ensures bytes { (b : List ℕ) → HoldsTask b task.old.pointer.task
        → Returns (Out Request.Plan b plan.now) room.old room.new size.new result }
    ensures headline { (b : List ℕ) → HoldsTask b task.old.pointer.task
        → ReturnsHeadline false b plan.now room.new size.new result }
{
    let call = PlanCall::Bytes(Detail::PLAIN, plan);
    answer_held(alloc, task, call, room, size)
}

/// Answers whether the plan solves the task that is held, with the reasons for a no, as `sas_plan_why` does. It stays held.
#[unsafe(no_mangle)]
pub extern "C" fn sas_task_plan_why(
    alloc: Global,
    task: &mut SasTask,
    plan: &[u8],
    room: &mut [u8],
    size: &mut usize,
) -> u32
    ensures answers { ReturnsHeld (λ loaded.
        WithReasons (VerdictOut WhyVerdict loaded plan.now) (PlanFileReasons plan.now))
        task.old.pointer.task task.new.pointer.task room.old room.new size.new result }
    ensures bytes { (b : List ℕ) → HoldsTask b task.old.pointer.task
        → Returns (OutBy explained Request.Plan b plan.now) room.old room.new size.new result }
    ensures headline { (b : List ℕ) → HoldsTask b task.old.pointer.task
        → ReturnsHeadline false b plan.now room.new size.new result }
{
    let call = PlanCall::Bytes(Detail::REASONS, plan);
    answer_held(alloc, task, call, room, size)
}

/// Answers whether the plan solves the task that is held, after a trace of its steps, as `sas_trace` does. It stays held.
#[unsafe(no_mangle)]
pub extern "C" fn sas_task_trace(
    alloc: Global,
    task: &mut SasTask,
    plan: &[u8],
    room: &mut [u8],
    size: &mut usize,
) -> u32
    ensures answers { ReturnsHeld (λ loaded. VerdictOut (TraceVerdict false) loaded plan.now)
        task.old.pointer.task task.new.pointer.task room.old room.new size.new result }
    ensures bytes { (b : List ℕ) → HoldsTask b task.old.pointer.task
        → Returns (OutBy traced Request.Plan b plan.now) room.old room.new size.new result }
    ensures headline { (b : List ℕ) → HoldsTask b task.old.pointer.task
        → ReturnsHeadline true b plan.now room.new size.new result }
{
    let call = PlanCall::Bytes(Detail::TRACE, plan);
    answer_held(alloc, task, call, room, size)
}

/// Answers whether the operators with these numbers solve the task that is held, at this cost. No name is looked up. It stays held.
#[unsafe(no_mangle)]
pub extern "C" fn sas_task_plan_operators(
    alloc: Global,
    task: &mut SasTask,
    operators: &[u32],
    cost: u64,
    room: &mut [u8],
    size: &mut usize,
) -> u32
    ensures answers { ReturnsHeld (λ loaded. NumbersOut loaded operators.now cost)
        task.old.pointer.task task.new.pointer.task room.old room.new size.new result }
    ensures headline { IfSome task.old.pointer.task (λ loaded.
        ReturnsByNumbers (IsValidByNumbers loaded operators.now cost)
        operators.now cost room.new size.new result) }
{
    let start = &[];
    let plan = NumberedPlan {
        operators,
        cost,
        start,
    };
    let call = PlanCall::Numbers(plan);
    answer_held(alloc, task, call, room, size)
}

/// What a call about a plan gives.
#[derive(Clone, Copy)]
pub enum PlanCall<'b> {
    /// How much is reported, and the bytes of the plan.
    Bytes(Detail, &'b [u8]),
    /// The numbers of its operators, its cost, and the state that it starts in.
    Numbers(NumberedPlan<'b>),
    /// The same, of which a trace is wanted.
    Traced(NumberedPlan<'b>),
}

/// Writes the answer about the plan for the task that is held. It stays held.
pub fn answer_held(
    alloc: Global,
    task: &mut SasTask,
    call: PlanCall<'_>,
    room: &mut [u8],
    size: &mut usize,
) -> u32
    ensures answers { ReturnsHeld (HeldOut call.entry)
        task.old.pointer.task task.new.pointer.task room.old room.new size.new result }
    ensures layered { IfSome task.old.pointer.task IsLayered }
{
    match task.take(alloc) {
        Some(mut loaded) => {
            let number = answer_loaded(alloc, &mut loaded, call, room, size);
            task.put(loaded);
            number
        }
        None => NO_TASK,
    }
}

/// Writes the answer about the plan for this task.
fn answer_loaded(
    alloc: Global,
    loaded: &mut HeldTask,
    call: PlanCall<'_>,
    room: &mut [u8],
    size: &mut usize,
) -> u32
    ensures answers { Returns (HeldOut call.entry loaded.old)
        room.old room.new size.new result }
    ensures layered { IsLayered loaded.old }
    ensures same { loaded.new ≡ loaded.old }
{
    // By its contract the task is layered.
    let _ = loaded.layered().task();
    match call {
        PlanCall::Bytes(detail, plan) => {
            let mut text = Watched::new(Vec::new(alloc));
            let ended = answer_bytes(alloc, detail, loaded, plan, &mut text);
            tell_ended(ended, text, room, size)
        }
        PlanCall::Numbers(plan) => match loaded.verdict_by_numbers(alloc, &plan) {
            Ok(answer) => return_answer(answer, room, size),
            Err(_) => OUT_OF_MEMORY,
        },
        PlanCall::Traced(plan) => {
            let mut text = Watched::new(Vec::new(alloc));
            let ended = loaded.trace_by_numbers(alloc, &plan, &mut text);
            tell_ended(ended, text, room, size)
        }
    }
}
