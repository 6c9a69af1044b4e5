//! The requests: what each answers about its inputs, as definitions and as code, and how it is written. Many plans of one task are judged one
//! after another.
#![tactic(auto)]

mod answers;
mod dues;
mod file_reasons;
mod file_refusal;
mod found;
mod hint;
mod inputs;
mod judging;
mod laws;
mod many;
mod plans;
mod question;
mod refusals;
mod slices;
mod summary;
mod tally;
mod tasks;
mod verdicts;

ghost use Rattle.std.specs.Prelude.{◌≡◌, false, List, ℕ, Some, IfOk};
ghost use Rattle.std.specs.Io.KnownBytes.{Appends};
ghost use Rattle.sas_requests.specs.Output.{Out};
ghost use Rattle.sas_requests.specs.Headline.{Headline};
ghost use Rattle.sas_requests.specs.Invariants.{Invariants};
ghost use Rattle.sas_requests.specs.EndsRequest.{EndsRequest};
ghost use Rattle.sas_answers.specs.Ending.{Answers, Ends};

pub use answers::answer;
pub use file_reasons::{push_plan_reasons, push_task_reasons};
pub use file_refusal::refuse_file;
pub use inputs::{InputFault, JudgeFault, PlanInputs, is_label};
pub use judging::judge;
pub use laws::{answer_laws, file_reason_laws, judge_laws};
pub use plans::{answer_bytes, load};
pub use question::{Question, Request};
pub use sas_answers::{Status, ToolFault};
use sas_lines::Watched;
pub use sas_plan_reasons::Detail;
pub use slices::{PlanBytes, PlanSlices, are_labels, judge_slices};
use std::alloc::Global;
use std::io::{Read, Write};
pub use summary::write_summary;
pub use tasks::{ReadTask, read_layered};

/// Answers the request about the inputs. `Show`, `Print`, `Check` and `Mutex` read the task alone, and `Steps` the
/// plan; `Plan` reads the task, and then the plan if the task is layered. Nothing is written before the answer is
/// known, so at any fault but `Write` nothing was written, and at `Write` the first bytes of the answer. A fault of a
/// file's content is no fault of the run: the answer then is a refusal, and the status `No`; so it is where `Check`,
/// `Plan` or `Mutex` finds that the task isn't layered, where the plan isn't valid, and where a group isn't shown to be
/// exclusive. Not to be called with a device that has failed.
///
/// By `EndsRequest.output` the clause `answers` says what is written for every reader whose bytes are known, such as one over memory. The
/// code is generic, and so the same for a file, whose bytes aren't; that a file gives what the disk holds is trusted.
pub fn run<T: Read, P: Read, W: Write>(
    alloc: Global,
    request: Request,
    task: &mut Watched<T>,
    plan: &mut Watched<P>,
    out: &mut Watched<W>,
) -> Result<Status, ToolFault>
    requires task { task.old.failed ≡ false }
    requires plan { plan.old.failed ≡ false }
    requires out { out.old.failed ≡ false }
    // For inputs whose bytes are known, and else for the bytes that were read: their output went out, or its first bytes, or
    // there is none. What isn't needed isn't read. Before the answer is known nothing is written.
    ensures answers { Answers W.contents
        (EndsRequest T.remaining P.remaining (λ b c. Ends (Out request b c))
        request task.old task.new plan.old plan.new)
        out.old out.new result }
    // `plan valid` is printed exactly if the plan solves the task at the printed cost.
    ensures headline { IfOk result (λ status. request ≡ Request.Plan → (b c before : List ℕ)
        → T.remaining task.old.device ≡ Some b → P.remaining plan.old.device ≡ Some c
        → W.contents out.old.device ≡ Some before
        → Headline b c (Appends (W.contents out.old.device) (W.contents out.new.device)) status) }
    // `group K exclusive` is printed only where group K is an invariant of the task.
    ensures invariants { IfOk result (λ status. request ≡ Request.Mutex → (b before : List ℕ)
        → T.remaining task.old.device ≡ Some b → W.contents out.old.device ≡ Some before
        → Invariants b (Appends (W.contents out.old.device) (W.contents out.new.device))) }
{
    let detail = Detail::PLAIN;
    answer(alloc, Question { request, detail }, task, plan, out)
}
