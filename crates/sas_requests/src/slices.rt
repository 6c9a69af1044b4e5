// Plans whose bytes are all in memory.
ghost use Rattle.std.specs.Prelude.{◌≡◌, ◌↔◌, All, Some, None, IfOk, IfErr, IsTrue};
ghost use Rattle.sas_answers.specs.Ending.{output_of};
ghost use Rattle.sas_requests.specs.Inputs.{IsLabel, tool_fault};
ghost use Rattle.sas_requests.specs.InTurn.{IsRightlyLong};
ghost use Rattle.sas_requests.specs.Judged.{JudgeOut, PlansHeadline};
ghost use Rattle.sas_requests.specs.Slices.{IsOfOpened, bytes_of, known_bytes, labels_of};

use crate::inputs::{JudgeFault, PlanInputs, is_label};
use crate::judging::judge;
use sas_answers::{Answer, ToolFault};
use sas_lines::Watched;
use std::alloc::Global;

/// A plan in memory: its label and its bytes.
#[derive(Clone, Copy)]
pub struct PlanBytes<'p> {
    pub label: &'p [u8],
    pub bytes: &'p [u8],
}

/// Plans in memory. Each can be opened, and its bytes are known.
#[derive(Clone, Copy)]
pub struct PlanSlices<'p> {
    pub plans: &'p [PlanBytes<'p>],
}

impl<'p> PlanInputs for PlanSlices<'p> {
    ghost use Rattle.std.specs.Prelude.{◌≡◌, [], IsSomeAnd, slice_index_or};
    ghost use Rattle.sas_requests.specs.Slices.{bytes_of, known_bytes, labels_of};

    type Input = &'p [u8];

    ghost labels = { λ slices. labels_of slices.plans.now };

    ghost bytes = { λ slices. known_bytes slices.plans.now };

    // They stay as they were.
    ghost open_gives = { λ before number given after. (after ≡ before)
        × IsSomeAnd given
        (λ input. input.now ≡ slice_index_or (bytes_of before.plans.now) number []) };

    fn count(&self) -> usize {
        self.plans.len()
    }

    fn label(&self, number: usize) -> &[u8] {
        self.plans[number].label
    }

    fn open(&mut self, number: usize) -> Option<&'p [u8]> {
        Some(self.plans[number].bytes)
    }
}

/// Judges many plans of one task as `judge` does, all in memory, and returns the answer. `Write` means that it is out of memory for
/// its text.
pub fn judge_slices(
    alloc: Global,
    reasons: bool,
    task: &[u8],
    plans: &[PlanBytes<'_>],
) -> Result<Answer, JudgeFault>
    requires { All IsLabel (labels_of plans.now) }
    ensures output { IfOk result (λ reported. JudgeOut reasons (labels_of plans.now) task.now
        (bytes_of plans.now) (Some (output_of reported))) }
    ensures long { IfErr result (λ e. tool_fault e ≡ ToolFault.TooLong
        → JudgeOut reasons (labels_of plans.now) task.now (bytes_of plans.now) None) }
    // A plan that is reported to be too long is, and none is reported as not opened.
    ensures rightly { IfErr result (IsRightlyLong (known_bytes plans.now)) }
    ensures opened { IfErr result IsOfOpened }
    // `LABEL: plan valid` is in the text exactly if the plan solves the task at that cost.
    ensures headline { IfOk result (λ reported.
        PlansHeadline reasons (labels_of plans.now) task.now (bytes_of plans.now)
        (λ text. reported.text.items ≡ text) reported.status) }
{
    let mut device = Watched::new(task);
    let mut slices = PlanSlices { plans };
    let mut text = Watched::new(Vec::new(alloc));
    match judge(alloc, reasons, &mut device, &mut slices, &mut text) {
        Ok(status) => Ok(Answer {
            text: text.into_device(),
            status,
        }),
        Err(fault) => Err(fault),
    }
}

/// Returns whether none of the labels has a line end.
pub fn are_labels(plans: &[PlanBytes<'_>]) -> bool
    ensures { IsTrue result ↔ All IsLabel (labels_of plans.now) }
{
    plans.iter().all(|plan| is_label(plan.label))
}
