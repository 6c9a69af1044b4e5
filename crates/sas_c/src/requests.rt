// The calls of the library about a task, a plan, or both. Each takes an input as a pointer that isn't null and a length, and writes the
// answer to the front of `room`, and its length in bytes to `size`. Behind the answer the room stays as it was.
ghost use Rattle.std.specs.Prelude.{false, true, []};
ghost use Rattle.sas_requests.specs.Output.{Out};
ghost use Rattle.sas_requests.specs.OutBy.{OutBy, explained, traced};
ghost use Rattle.sas_c.specs.Telling.{Returns, ReturnsHeadline, ReturnsInvariants};

use crate::answering::{Inputs, answer_call};
use sas_requests::{Detail, Question, Request};
use std::alloc::Global;

/// Answers whether the plan solves the task.
#[unsafe(no_mangle)]
pub extern "C" fn sas_plan(
    alloc: Global,
    task: &[u8],
    plan: &[u8],
    room: &mut [u8],
    size: &mut usize,
) -> u32
    ensures answers { Returns (Out Request.Plan task.now plan.now)
        room.old room.new size.new result }
    ensures headline { ReturnsHeadline false task.now plan.now room.new size.new result }
{
    let request = Request::Plan;
    let detail = Detail::PLAIN;
    answer_call(
        alloc,
        Question { request, detail },
        Inputs { task, plan },
        room,
        size,
    )
}

/// Answers whether the task is layered.
#[unsafe(no_mangle)]
pub extern "C" fn sas_check(alloc: Global, task: &[u8], room: &mut [u8], size: &mut usize) -> u32
    ensures answers { Returns (Out Request.Check task.now []) room.old room.new size.new result }
{
    let request = Request::Check;
    let detail = Detail::PLAIN;
    answer_call(
        alloc,
        Question { request, detail },
        Inputs { task, plan: b"" },
        room,
        size,
    )
}

/// Answers which mutex groups of the task are exclusive.
#[unsafe(no_mangle)]
pub extern "C" fn sas_mutex(alloc: Global, task: &[u8], room: &mut [u8], size: &mut usize) -> u32
    ensures answers { Returns (Out Request.Mutex task.now []) room.old room.new size.new result }
    ensures invariants { ReturnsInvariants task.now room.new size.new result }
{
    let request = Request::Mutex;
    let detail = Detail::PLAIN;
    answer_call(
        alloc,
        Question { request, detail },
        Inputs { task, plan: b"" },
        room,
        size,
    )
}

/// Answers with the summary of the task.
#[unsafe(no_mangle)]
pub extern "C" fn sas_show(alloc: Global, task: &[u8], room: &mut [u8], size: &mut usize) -> u32
    ensures answers { Returns (Out Request.Show task.now []) room.old room.new size.new result }
{
    let request = Request::Show;
    let detail = Detail::PLAIN;
    answer_call(
        alloc,
        Question { request, detail },
        Inputs { task, plan: b"" },
        room,
        size,
    )
}

/// Answers with the task, printed again.
#[unsafe(no_mangle)]
pub extern "C" fn sas_print(alloc: Global, task: &[u8], room: &mut [u8], size: &mut usize) -> u32
    ensures answers { Returns (Out Request.Print task.now []) room.old room.new size.new result }
{
    let request = Request::Print;
    let detail = Detail::PLAIN;
    answer_call(
        alloc,
        Question { request, detail },
        Inputs { task, plan: b"" },
        room,
        size,
    )
}

/// Answers with the steps of the plan and its cost, printed again.
#[unsafe(no_mangle)]
pub extern "C" fn sas_steps(alloc: Global, plan: &[u8], room: &mut [u8], size: &mut usize) -> u32
    ensures answers { Returns (Out Request.Steps [] plan.now) room.old room.new size.new result }
{
    let request = Request::Steps;
    let detail = Detail::PLAIN;
    answer_call(
        alloc,
        Question { request, detail },
        Inputs { task: b"", plan },
        room,
        size,
    )
}

/// Answers whether the plan solves the task, with the reasons for a no.
#[unsafe(no_mangle)]
pub extern "C" fn sas_plan_why(
    alloc: Global,
    task: &[u8],
    plan: &[u8],
    room: &mut [u8],
    size: &mut usize,
) -> u32
    ensures answers { Returns (OutBy explained Request.Plan task.now plan.now)
        room.old room.new size.new result }
    ensures headline { ReturnsHeadline false task.now plan.now room.new size.new result }
{
    let request = Request::Plan;
    let detail = Detail::REASONS;
    answer_call(
        alloc,
        Question { request, detail },
        Inputs { task, plan },
        room,
        size,
    )
}

/// Answers whether the task is layered, with the reasons for a no.
#[unsafe(no_mangle)]
pub extern "C" fn sas_check_why(
    alloc: Global,
    task: &[u8],
    room: &mut [u8],
    size: &mut usize,
) -> u32
    ensures answers { Returns (OutBy explained Request.Check task.now [])
        room.old room.new size.new result }
{
    let request = Request::Check;
    let detail = Detail::REASONS;
    answer_call(
        alloc,
        Question { request, detail },
        Inputs { task, plan: b"" },
        room,
        size,
    )
}

/// Answers which mutex groups of the task are exclusive, with the reasons for a no.
#[unsafe(no_mangle)]
pub extern "C" fn sas_mutex_why(
    alloc: Global,
    task: &[u8],
    room: &mut [u8],
    size: &mut usize,
) -> u32
    ensures answers { Returns (OutBy explained Request.Mutex task.now [])
        room.old room.new size.new result }
    ensures invariants { ReturnsInvariants task.now room.new size.new result }
{
    let request = Request::Mutex;
    let detail = Detail::REASONS;
    answer_call(
        alloc,
        Question { request, detail },
        Inputs { task, plan: b"" },
        room,
        size,
    )
}

/// Answers whether the plan solves the task, after a trace of its steps.
#[unsafe(no_mangle)]
pub extern "C" fn sas_trace(
    alloc: Global,
    task: &[u8],
    plan: &[u8],
    room: &mut [u8],
    size: &mut usize,
) -> u32
    ensures answers { Returns (OutBy traced Request.Plan task.now plan.now)
        room.old room.new size.new result }
    ensures headline { ReturnsHeadline true task.now plan.now room.new size.new result }
{
    let request = Request::Plan;
    let detail = Detail::TRACE;
    answer_call(
        alloc,
        Question { request, detail },
        Inputs { task, plan },
        room,
        size,
    )
}
