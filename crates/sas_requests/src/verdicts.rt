// The answer about one of many plans.
ghost use Rattle.std.specs.Prelude.{◌≡◌, ◌↔◌, ◌<◌, ℕ, length, codes, false, Some, None, IfOk, IfErr, IsErrOf, IsTrue};
ghost use Rattle.sas_answers.specs.Ending.{IsWrite, output_of};
ghost use Rattle.sas_requests.specs.Inputs.{tool_fault, tool_result};
ghost use Rattle.sas_requests.specs.InTurn.{EndsAt, IsOpened};
ghost use Rattle.sas_requests.specs.Judging.{IsBehindOpening, Judges, cost_if};
ghost use Rattle.sas_requests.specs.Answering.{plan_refusal_lines, refusal_by};
ghost use Rattle.sas_plan_reasons.specs.VerdictBy.{VerdictWith};

use crate::Detail;
use crate::inputs::{InputFault, JudgeFault, PlanInputs};
use crate::refusals::refuse_plan;
use sas_answers::{Answer, Status, ToolFault};
use sas_axioms::Worklist;
use sas_core::Stepwise;
use sas_flat::FlatPlan;
use sas_lines::Watched;
use sas_plan_file::{PlanRefusal, read_flat_plan};
use sas_plan_reasons::LoadedTask;
use sas_reader::Kind;
use std::alloc::{AllocError, Global};
use std::io::Read;

/// The answer about a plan: the answer to `plan`, and the plan's cost if it is valid.
#[derive(Drop)]
pub struct PlanAnswer {
    pub answer: Answer,
    pub cost: Option<u64>,
}

/// A task that plans are judged for, and whether the reasons why one isn't valid are reported.
#[derive(Drop)]
pub struct Judge {
    pub loaded: LoadedTask<Worklist>,
    pub reasons: bool,
}

/// Opens the plan with this number, reads it, and returns the answer about it. The input is let go.
pub fn judge_plan<S: PlanInputs>(
    alloc: Global,
    judge: &mut Judge,
    plans: &mut S,
    number: usize,
) -> Result<PlanAnswer, JudgeFault>
    requires { number < length (S.labels plans.old) }
    ensures judges { Judges judge.old.reasons judge.old.loaded
        (S.bytes plans.old number) (tool_result result) }
    ensures opened { IfOk result (λ _. IsOpened S.open_gives number plans.old plans.new) }
    ensures fault { IfErr result (EndsAt S.open_gives number plans.old plans.new) }
    ensures same { judge.new ≡ judge.old }
    ensures labels { S.labels plans.new ≡ S.labels plans.old }
    ensures later { (k : ℕ) → number < k → S.bytes plans.new k ≡ S.bytes plans.old k }
{
    let Some(input) = plans.open(number) else {
        let fault = InputFault::NotOpened;
        return Err(JudgeFault::Plan { number, fault });
    };
    let mut plan = Watched::new(input);
    let judged = judge_input(alloc, judge, &mut plan);
    drop(plan);
    match judged {
        Ok(verdict) => Ok(verdict),
        Err(fault) => Err(fault_of_plan(number, fault)),
    }
}

/// Returns the fault of a run that ends at the plan with this number, which was opened.
fn fault_of_plan(number: usize, fault: ToolFault) -> JudgeFault
    ensures fault { tool_fault result ≡ fault }
    ensures plan { IsBehindOpening number result }
{
    match fault {
        ToolFault::Read => JudgeFault::Plan {
            number,
            fault: InputFault::Read,
        },
        ToolFault::TooLong => JudgeFault::Plan {
            number,
            fault: InputFault::TooLong,
        },
        ToolFault::Memory => JudgeFault::Tool(ToolFault::Memory),
        ToolFault::Write { written } => JudgeFault::Tool(ToolFault::Write { written }),
    }
}

/// Reads a plan, and returns the answer about it. There is one on a plan file that is refused, too.
fn judge_input<P: Read>(
    alloc: Global,
    judge: &mut Judge,
    plan: &mut Watched<P>,
) -> Result<PlanAnswer, ToolFault>
    requires { plan.old.failed ≡ false }
    ensures judges { Judges judge.old.reasons judge.old.loaded
        (P.remaining plan.old.device) result }
    ensures reads { IsErrOf result ToolFault.Read ↔ IsTrue plan.new.failed }
    ensures same { judge.new ≡ judge.old }
{
    match read_flat_plan(alloc, plan) {
        Ok(read) => Ok(report_on(alloc, judge, &read)?),
        Err(refusal) => report_on_refusal(alloc, judge.reasons, &refusal),
    }
}

/// Returns the answer about a plan file that is refused, or why the run ends at it.
fn report_on_refusal(
    alloc: Global,
    reasons: bool,
    refused: &PlanRefusal,
) -> Result<PlanAnswer, ToolFault>
    ensures ok { IfOk result (λ one.
        (refusal_by reasons (codes "plan") refused.now.fault (plan_refusal_lines refused.now)
        ≡ Some (output_of one.answer)) × (one.cost ≡ None)) }
    ensures long { IsErrOf result ToolFault.TooLong ↔ (refused.now.fault.kind ≡ Kind.TooLong) }
    ensures read { IsErrOf result ToolFault.Read ↔ (refused.now.fault.kind ≡ Kind.Read) }
    ensures writes { IfErr result (λ e. IsWrite e → ⊥) }
{
    Ok(PlanAnswer {
        answer: refuse_plan(alloc, reasons, refused)?,
        cost: None,
    })
}

/// Returns the answer about a plan that was read.
fn report_on(alloc: Global, judge: &mut Judge, plan: &FlatPlan) -> Result<PlanAnswer, AllocError>
    ensures verdict { IfOk result (λ one.
        VerdictWith false judge.old.reasons judge.old.loaded plan.now (output_of one.answer)
        × (one.cost ≡ cost_if one.answer.status plan.now.cost)) }
    ensures same { judge.new ≡ judge.old }
{
    let answer = answer_in_memory(alloc, judge, plan)?;
    let cost = match answer.status {
        Status::Yes => Some(plan.cost()),
        Status::No => None,
    };
    Ok(PlanAnswer { answer, cost })
}

/// Returns the answer about a plan.
fn answer_in_memory(alloc: Global, judge: &mut Judge, plan: &FlatPlan) -> Result<Answer, AllocError>
    ensures verdict { IfOk result (λ answer.
        VerdictWith false judge.old.reasons judge.old.loaded plan.now (output_of answer)) }
    ensures same { judge.new ≡ judge.old }
{
    let detail = Detail {
        reasons: judge.reasons,
        trace: false,
    };
    let mut text = Watched::new(Vec::new(alloc));
    match judge.loaded.answer(alloc, detail, plan, &mut text) {
        Ok(status) => Ok(Answer {
            text: text.into_device(),
            status,
        }),
        // Nothing else fails in memory.
        Err(_) => Err(AllocError),
    }
}
