// Plans that are opened one after another.
ghost use Rattle.std.specs.Prelude.{◌≡◌, ◌<◌, ◌↔◌, ℕ, List, [], length, Option, Some, IfSome, IsTrue, slice_index_or};
ghost use Rattle.sas_requests.specs.Inputs.{IsLabel, judge_result};

use sas_answers::{Status, ToolFault};
use sas_core::is_one_line;
use std::alloc::AllocError;
use std::io::Read;

/// Many plans, each with a number, counted from 0, and a label. One is opened when its turn comes.
pub trait PlanInputs {
    type Input: Read + Drop;

    /// The labels, in order.
    ghost labels: { Self → List (List ℕ) };

    /// The bytes of the plan with a number, where they are known.
    ghost bytes: { Self → ℕ → Option (List ℕ) };

    /// Holds of the plans before a call of `open`, the number that is given, what is returned, and the plans after the call.
    ghost open_gives: { Self → ℕ → Option Self.Input → Self → Type 0 };

    /// Returns how many plans there are.
    fn count(&self) -> usize
        ensures { result ≡ length (labels self.now) };

    /// Returns the label of the plan with this number.
    fn label(&self, number: usize) -> &[u8]
        requires { number < length (labels self.now) }
        ensures { result.now ≡ slice_index_or (labels self.now) number [] };

    /// Opens the plan with this number. Returns `None` where it can't be opened.
    fn open(&mut self, number: usize) -> Option<Self::Input>
        requires number { number < length (labels self.old) }
        ensures labels { labels self.new ≡ labels self.old }
        ensures later { (k : ℕ) → number < k → bytes self.new k ≡ bytes self.old k }
        ensures opened { IfSome result (λ input. (known : List ℕ)
            → bytes self.old number ≡ Some known → Self.Input.remaining input ≡ Some known) }
        ensures gives { open_gives self.old number result self.new };
}

/// Why a plan wasn't read.
#[derive(Clone, Copy, Debug, PartialEq, Eq)]
pub enum InputFault {
    /// It couldn't be opened.
    NotOpened,
    /// A read of it failed.
    Read,
    /// It is longer than the limit.
    TooLong,
}

/// Why a run over many plans ended without an answer, or without all of it.
#[derive(Clone, Copy, Debug, PartialEq, Eq)]
pub enum JudgeFault {
    /// Memory was refused, a write failed, a read of the task failed, or the task is longer than the limit.
    Tool(ToolFault),
    /// The plan with this number wasn't read.
    Plan { number: usize, fault: InputFault },
}

impl From<AllocError> for JudgeFault {
    ghost use Rattle.sas_answers.specs.declared.ending.ToolFault.TheVariants.{Memory};
    ghost use Rattle.sas_requests.specs.declared.inputs.JudgeFault.TheVariants.{Tool};

    ghost from_gives = { λ _ e. e ≡ Tool Memory };

    fn from(_error: AllocError) -> JudgeFault {
        JudgeFault::Tool(ToolFault::Memory)
    }
}

/// Returns the same end, as one of a run over many plans.
pub fn judge_ended(ended: Result<Status, ToolFault>) -> Result<Status, JudgeFault>
    ensures { result ≡ judge_result ended }
{
    match ended {
        Ok(status) => Ok(status),
        Err(fault) => Err(JudgeFault::Tool(fault)),
    }
}

/// Returns whether the label has no line end.
pub fn is_label(label: &[u8]) -> bool
    ensures { IsTrue result ↔ IsLabel label.now }
{
    is_one_line(label)
}
