// Refusals of files, as they go out.
ghost use Rattle.std.specs.Prelude.{◌≡◌, ◌↔◌, codes, false, IfErr, IfOk, IsErrOf, Some};
ghost use Rattle.sas_answers.specs.Ending.{Answers, Ends, IsWrite, output_of};
ghost use Rattle.sas_requests.specs.Answering.{plan_refusal_lines, refusal_by, task_refusal_lines};

use crate::{Detail, Status, ToolFault, push_plan_reasons, push_task_reasons, refuse_file};
use sas_answers::Answer;
use sas_lines::Watched;
use sas_plan_file::PlanRefusal;
use sas_reader::Kind;
use sas_task_reader::TaskRefusal;
use std::alloc::Global;
use std::io::Write;

/// Writes the refusal of a task for its fault, or returns why the run ends at it.
pub fn write_task_refusal<W: Write>(
    alloc: Global,
    detail: Detail,
    refused: TaskRefusal,
    out: &mut Watched<W>,
) -> Result<Status, ToolFault>
    requires { out.old.failed ≡ false }
    ensures answers { Answers W.contents (Ends (λ output.
        output ≡ refusal_by detail.reasons (codes "task") refused.fault
        (task_refusal_lines refused)))
        out.old out.new result }
    ensures long { IsErrOf result ToolFault.TooLong ↔ (refused.fault.kind ≡ Kind.TooLong) }
    ensures reads { IsErrOf result ToolFault.Read ↔ (refused.fault.kind ≡ Kind.Read) }
{
    let mut answer = refuse_file(alloc, "task", refused.fault)?;
    if detail.reasons {
        push_task_reasons(&mut answer.text, &refused)?;
    }
    answer.write(out)
}

/// Writes the refusal of a plan for its fault, or returns why the run ends at it.
pub fn write_plan_refusal<W: Write>(
    alloc: Global,
    detail: Detail,
    refused: PlanRefusal,
    out: &mut Watched<W>,
) -> Result<Status, ToolFault>
    requires { out.old.failed ≡ false }
    ensures answers { Answers W.contents (Ends (λ output.
        output ≡ refusal_by detail.reasons (codes "plan") refused.fault
        (plan_refusal_lines refused)))
        out.old out.new result }
    ensures long { IsErrOf result ToolFault.TooLong ↔ (refused.fault.kind ≡ Kind.TooLong) }
    ensures reads { IsErrOf result ToolFault.Read ↔ (refused.fault.kind ≡ Kind.Read) }
{
    refuse_plan(alloc, detail.reasons, &refused)?.write(out)
}

/// Returns the refusal of a plan for its fault, with the reasons or without, or why the run ends at it.
pub fn refuse_plan(alloc: Global, reasons: bool, refused: &PlanRefusal) -> Result<Answer, ToolFault>
    ensures ok { IfOk result (λ answer.
        refusal_by reasons (codes "plan") refused.now.fault (plan_refusal_lines refused.now)
        ≡ Some (output_of answer)) }
    ensures long { IsErrOf result ToolFault.TooLong ↔ (refused.now.fault.kind ≡ Kind.TooLong) }
    ensures reads { IsErrOf result ToolFault.Read ↔ (refused.now.fault.kind ≡ Kind.Read) }
    ensures writes { IfErr result (λ e. IsWrite e → ⊥) }
{
    let mut answer = refuse_file(alloc, "plan", refused.fault)?;
    if reasons {
        push_plan_reasons(&mut answer.text, refused)?;
    }
    Ok(answer)
}
