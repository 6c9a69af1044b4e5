// The reasons why a file is refused.
ghost use Rattle.std.specs.Prelude.{◌≡◌, ◌++◌, OnOk};
ghost use Rattle.sas_requests.specs.Answering.{plan_refusal_lines, task_refusal_lines};
ghost use Rattle.sas_requests.specs.FileLine.{Hinted, file_text, line_if};

use crate::dues::{push_count, push_due, push_location, push_plan_due, push_wrong_word};
use crate::found::push_found;
use crate::hint::{Hint, Lacks, hint_for};
use sas_lines::push_line;
use sas_plan_file::PlanRefusal;
use sas_task_reader::TaskRefusal;
use std::alloc::AllocError;

/// Appends the reasons why a task is refused: the location of the line, what is expected there, which number is wrong, if any, the number of
/// items of its list, what was found, and a hint.
pub fn push_task_reasons(out: &mut Vec<u8>, refused: &TaskRefusal) -> Result<(), AllocError>
    ensures { OnOk result
        (out.new.items ≡ out.old.items ++ file_text (task_refusal_lines refused.now)) }
{
    push_location(out, refused.mark.at)?;
    push_due(out, refused.mark.due)?;
    push_wrong_word(out, refused.word)?;
    push_count(out, refused.count)?;
    push_found(out, refused.fault.kind, refused.found.bytes())?;
    let lacks = Lacks {
        line_end: refused.lacks_line_end,
        cost_line: false,
    };
    let hint = hint_for(true, refused.fault, &refused.found, lacks);
    push_hint(out, hint)
}

/// Appends the reasons why a plan is refused: what is expected, what was found, and a hint.
pub fn push_plan_reasons(out: &mut Vec<u8>, refused: &PlanRefusal) -> Result<(), AllocError>
    ensures { OnOk result
        (out.new.items ≡ out.old.items ++ file_text (plan_refusal_lines refused.now)) }
{
    push_plan_due(out, refused.fault.kind)?;
    push_found(out, refused.fault.kind, refused.found.bytes())?;
    let lacks = Lacks {
        line_end: refused.lacks_line_end,
        cost_line: refused.lacks_cost_line,
    };
    let hint = hint_for(false, refused.fault, &refused.found, lacks);
    push_hint(out, hint)
}

/// Appends the line with the hint, if there is one.
fn push_hint(out: &mut Vec<u8>, hint: Option<Hint>) -> Result<(), AllocError>
    ensures { OnOk result (out.new.items ≡ out.old.items ++ file_text (line_if Hinted hint)) }
{
    let Some(hint) = hint else {
        return Ok(());
    };
    out.extend_from_slice(b"  hint ")?;
    push_line(out, hint.words())
}
