// The answer to each request: its inputs are read, and then it goes out.
ghost use Rattle.std.specs.Prelude.{◌≡◌, ℕ, false, List, Option, Some, IfOk};
ghost use Rattle.std.specs.Io.KnownBytes.{Appends};
ghost use Rattle.sas_answers.specs.Ending.{Answers, Ends, EndsCounting, Output};
ghost use Rattle.sas_requests.specs.Headline.{Headline};
ghost use Rattle.sas_requests.specs.Invariants.{Invariants};
ghost use Rattle.sas_requests.specs.Output.{AreInputs, Out, PrintAnswer, ShowAnswer};
ghost use Rattle.sas_plan_file.specs.PlanFormat.{plan_format};
ghost use Rattle.sas_task_file.specs.TaskFormat.{task_format};
ghost use Rattle.sas_requests.specs.EndsRequest.{EndsFile, EndsRequest};
ghost use Rattle.sas_requests.specs.OutBy.{CheckBy, MutexBy, OutBy, SendsLine};
ghost use Rattle.sas_requests.specs.Answering.{PlanBy, TaskBy};

use crate::plans::answer_plan_files;
use crate::question::Question;
use crate::refusals::{write_plan_refusal, write_task_refusal};
use crate::tasks::{ReadTask, read_layered};
use crate::{Detail, Request, Status, ToolFault, write_summary};
use sas_answers::{Answer, accept_layers};
use sas_lines::Watched;
use sas_plan_file::read_plan_text;
use sas_task_reader::{read_outline, read_task_text};
use sas_task_reasons::write_groups;
use std::alloc::Global;
use std::io::{Read, Write};

/// Answers the question about the inputs, as `run` answers its request. Where reasons are asked for and the status is `No`, lines that
/// begin with two spaces follow the line that says that a plan isn't valid, that a task isn't layered, that a file is refused, or that a
/// mutex group isn't exclusive. Where a trace is asked for and a plan is judged, the answer follows the lines of what the plan's steps
/// do, up to the first that doesn't go through: each variable's initial value, then for each step its operator, what that costs, and
/// each variable whose value it changed. `answer_laws` says that neither changes the answer. All memory is allocated before the first
/// byte is written. At `Write` the first bytes of the answer were written, and `written` is their number where that is less than 2^64;
/// at any other fault nothing was. Not to be called with a device that has failed.
pub fn answer<T: Read, P: Read, W: Write>(
    alloc: Global,
    question: Question,
    task: &mut Watched<T>,
    plan: &mut Watched<P>,
    out: &mut Watched<W>,
) -> Result<Status, ToolFault>
    requires task { task.old.failed ≡ false }
    requires plan { plan.old.failed ≡ false }
    requires out { out.old.failed ≡ false }
    // As of `run`: the output for the inputs went out, or its first bytes, or there is none.
    ensures answers { Answers W.contents
        (EndsRequest T.remaining P.remaining
        (λ b c. EndsCounting (OutBy question.detail question.request b c))
        question.request task.old task.new plan.old plan.new)
        out.old out.new result }
    // An answer that has neither reasons nor a trace goes out as that of `run` does.
    ensures plain { (b c : List ℕ)
        → AreInputs question.request (T.remaining task.old.device) (P.remaining plan.old.device) b c
        → ((o : Option Output) → OutBy question.detail question.request b c o
        → Out question.request b c o)
        → Ends (Out question.request b c)
        (Appends (W.contents out.old.device) (W.contents out.new.device)) result }
    // `plan valid` is printed, after a trace as the last line, exactly if the plan solves the task at the printed cost.
    ensures headline { IfOk result (λ status. question.request ≡ Request.Plan
        → (b c before : List ℕ)
        → T.remaining task.old.device ≡ Some b → P.remaining plan.old.device ≡ Some c
        → W.contents out.old.device ≡ Some before
        → Headline b c (SendsLine question.detail.trace
        (W.contents out.old.device) (W.contents out.new.device)) status) }
    // `group K exclusive` is printed only where group K is an invariant of the task.
    ensures invariants { IfOk result (λ status. question.request ≡ Request.Mutex
        → (b before : List ℕ)
        → T.remaining task.old.device ≡ Some b → W.contents out.old.device ≡ Some before
        → Invariants b (Appends (W.contents out.old.device) (W.contents out.new.device))) }
{
    answer_request(alloc, question, task, plan, out)
}

/// Answers the request with what is to be reported.
fn answer_request<T: Read, P: Read, W: Write>(
    alloc: Global,
    question: Question,
    task: &mut Watched<T>,
    plan: &mut Watched<P>,
    out: &mut Watched<W>,
) -> Result<Status, ToolFault>
    requires task { task.old.failed ≡ false }
    requires plan { plan.old.failed ≡ false }
    requires out { out.old.failed ≡ false }
    ensures { Answers W.contents
        (EndsRequest T.remaining P.remaining
        (λ b c. EndsCounting (OutBy question.detail question.request b c))
        question.request task.old task.new plan.old plan.new)
        out.old out.new result }
{
    let detail = question.detail;
    match question.request {
        Request::Show => answer_show(alloc, detail, task, out),
        Request::Print => answer_print(alloc, detail, task, out),
        Request::Steps => answer_steps(alloc, detail, plan, out),
        Request::Check => answer_check(alloc, detail, task, out),
        Request::Plan => answer_plan_files(alloc, detail, task, plan, out),
        Request::Mutex => answer_mutex(alloc, detail, task, out),
    }
}

/// Answers with the summary of a task.
fn answer_show<R: Read, W: Write>(
    alloc: Global,
    detail: Detail,
    task: &mut Watched<R>,
    out: &mut Watched<W>,
) -> Result<Status, ToolFault>
    requires task { task.old.failed ≡ false }
    requires out { out.old.failed ≡ false }
    ensures { Answers W.contents
        (EndsFile R.remaining (TaskBy detail.reasons ShowAnswer) task.old task.new)
        out.old out.new result }
{
    match read_outline(alloc, task) {
        Ok(outline) => {
            let ended = write_summary(alloc, &outline, out);
            drop(outline);
            ended
        }
        Err(refusal) => write_task_refusal(alloc, detail, refusal, out),
    }
}

/// Answers with the lines of a task.
fn answer_print<R: Read, W: Write>(
    alloc: Global,
    detail: Detail,
    task: &mut Watched<R>,
    out: &mut Watched<W>,
) -> Result<Status, ToolFault>
    requires task { task.old.failed ≡ false }
    requires out { out.old.failed ≡ false }
    ensures { Answers W.contents
        (EndsFile R.remaining (TaskBy detail.reasons (PrintAnswer task_format)) task.old task.new)
        out.old out.new result }
{
    match read_task_text(alloc, task) {
        Ok(text) => {
            let status = Status::Yes;
            Answer { text, status }.write(out)
        }
        Err(refusal) => write_task_refusal(alloc, detail, refusal, out),
    }
}

/// Answers with the steps of a plan and its cost.
fn answer_steps<R: Read, W: Write>(
    alloc: Global,
    detail: Detail,
    plan: &mut Watched<R>,
    out: &mut Watched<W>,
) -> Result<Status, ToolFault>
    requires plan { plan.old.failed ≡ false }
    requires out { out.old.failed ≡ false }
    ensures { Answers W.contents
        (EndsFile R.remaining (PlanBy detail.reasons (PrintAnswer plan_format)) plan.old plan.new)
        out.old out.new result }
{
    match read_plan_text(alloc, plan) {
        Ok(text) => {
            let status = Status::Yes;
            Answer { text, status }.write(out)
        }
        Err(refusal) => write_plan_refusal(alloc, detail, refusal, out),
    }
}

/// Answers whether a task is layered.
fn answer_check<R: Read, W: Write>(
    alloc: Global,
    detail: Detail,
    task: &mut Watched<R>,
    out: &mut Watched<W>,
) -> Result<Status, ToolFault>
    requires task { task.old.failed ≡ false }
    requires out { out.old.failed ≡ false }
    ensures { Answers W.contents
        (EndsFile R.remaining (TaskBy detail.reasons (CheckBy detail.reasons)) task.old task.new)
        out.old out.new result }
{
    match read_layered(alloc, detail, task, out) {
        ReadTask::Layered(layered) => {
            drop(layered);
            accept_layers(alloc)?.write(out)
        }
        ReadTask::Ended(ended) => ended,
    }
}

/// Answers which mutex groups of a task are exclusive.
fn answer_mutex<R: Read, W: Write>(
    alloc: Global,
    detail: Detail,
    task: &mut Watched<R>,
    out: &mut Watched<W>,
) -> Result<Status, ToolFault>
    requires task { task.old.failed ≡ false }
    requires out { out.old.failed ≡ false }
    ensures { Answers W.contents
        (EndsFile R.remaining (TaskBy detail.reasons (MutexBy detail.reasons)) task.old task.new)
        out.old out.new result }
{
    match read_layered(alloc, detail, task, out) {
        ReadTask::Layered(layered) => {
            let ended = write_groups(alloc, detail.reasons, &layered, out);
            drop(layered);
            ended
        }
        ReadTask::Ended(ended) => ended,
    }
}
