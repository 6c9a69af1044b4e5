// Why a plan is refused.
ghost use Rattle.std.specs.Prelude.{◌≡◌, ◌↔◌, List, ℕ, IsTrue};
ghost use Rattle.sas_lines.specs.Lines.{without_return};
ghost use Rattle.sas_reader.specs.Found.{IsFoundOf};
ghost use Rattle.sas_plan_file.specs.PlanEnds.{IsCostLine, IsStepIfSome};

use crate::plan_line::{PlanLine, plan_line};
use sas_lines::without_return;
use sas_reader::{Excerpt, Fault, Kind, Refusal};

/// Why a plan is refused: its first fault, what is kept of the text at the fault, and whether only the last line end or the cost line is
/// missing.
#[derive(Clone, Copy)]
pub struct PlanRefusal {
    pub fault: Fault,
    pub found: Excerpt,
    /// The fault is `End`, and with one line end (LF) more the bytes are a plan.
    pub lacks_line_end: bool,
    /// The fault is `End`, and with a cost line more the bytes are a plan, if need be with one line end (LF) before it.
    pub lacks_cost_line: bool,
}

/// Returns whether the line is the cost.
fn is_cost_line(line: &[u8]) -> bool
    ensures { IsTrue result ↔ IsCostLine line.now }
{
    match plan_line(line) {
        Ok(PlanLine::Cost(..)) => true,
        _ => false,
    }
}

/// Returns whether the text at an early end is the cost, with or without a CR at its end.
fn is_cost(found: &Excerpt) -> bool
    ensures { (text : List ℕ) → IsFoundOf Kind.End text found.now
        → IsTrue result ↔ IsCostLine (without_return text) }
{
    is_cost_line(without_return(found.bytes()))
}

/// Returns whether the text at an early end is a step, with or without a CR at its end, or empty.
fn is_step_if_some(found: &Excerpt) -> bool
    ensures { (text : List ℕ) → IsFoundOf Kind.End text found.now
        → IsTrue result ↔ IsStepIfSome text }
{
    found.bytes().is_empty() || found.enclosed
}

/// Returns whether only a line end is missing after the text at a fault of this kind, if the cost is expected there.
fn lacks_line_end(kind: Kind, found: &Excerpt) -> bool
    ensures { (text : List ℕ) → IsFoundOf kind text found.now
        → IsTrue result ↔ (kind ≡ Kind.End) × IsCostLine (without_return text) }
{
    match kind {
        Kind::End => is_cost(found),
        _ => false,
    }
}

/// Returns whether only the cost line is missing after the text at a fault of this kind, if a step may stand there.
fn lacks_cost_line(kind: Kind, found: &Excerpt) -> bool
    ensures { (text : List ℕ) → IsFoundOf kind text found.now
        → IsTrue result ↔ (kind ≡ Kind.End) × IsStepIfSome text }
{
    match kind {
        Kind::End => is_step_if_some(found),
        _ => false,
    }
}

impl PlanRefusal {
    /// Takes the fault and the text at the fault from a reader's refusal.
    pub(crate) fn of<M: Drop>(refused: Refusal<M>) -> PlanRefusal
        ensures fault { result.fault ≡ refused.fault }
        ensures found { result.found ≡ refused.found }
        ensures line_end { (text : List ℕ) → IsFoundOf refused.fault.kind text refused.found
            → IsTrue result.lacks_line_end
            ↔ (refused.fault.kind ≡ Kind.End) × IsCostLine (without_return text) }
        ensures cost_line { (text : List ℕ) → IsFoundOf refused.fault.kind text refused.found
            → IsTrue result.lacks_cost_line
            ↔ (refused.fault.kind ≡ Kind.End) × IsStepIfSome text }
    {
        let Refusal { fault, found, .. } = refused;
        PlanRefusal {
            fault,
            found,
            lacks_line_end: lacks_line_end(fault.kind, &found),
            lacks_cost_line: lacks_cost_line(fault.kind, &found),
        }
    }
}
