// The answers about plans.
ghost use Rattle.std.specs.Prelude.{◌≡◌, option_map, Some, IfOk};
ghost use Rattle.sas_answers.specs.Answers.{valid_by, invalid_answer};
ghost use Rattle.sas_answers.specs.Ending.{output_of};
ghost use Rattle.sas_answers.specs.NumberedPlans.{invalid_by_numbers, number_fault_words, start_refusal};
ghost use Rattle.sas_answers.specs.PlanWords.{fault_words, step_words, goal_words, sum_words, invalid_line};
ghost use Rattle.sas_answers.specs.ValidLine.{valid_line};

use crate::{Answer, Status};
use sas_lines::{push_line, push_number};
use sas_run::{PlanFault, StartFault};
use std::alloc::{AllocError, Global};

/// Returns the answer about a valid plan with so many steps and this cost.
pub fn accept_plan(alloc: Global, steps: usize, cost: u64) -> Result<Answer, AllocError>
    ensures { IfOk result (λ a. output_of a ≡ valid_by steps cost) }
{
    Ok(Answer {
        text: valid_text(alloc, steps, cost)?,
        status: Status::Yes,
    })
}

/// Returns the answer about a plan with this cost and this fault. For `Memory` it returns an `Err`.
pub fn answer_fault(alloc: Global, cost: u64, fault: PlanFault) -> Result<Answer, AllocError>
    ensures { IfOk result (λ a. invalid_answer cost fault ≡ Some (output_of a)) }
{
    Ok(Answer {
        text: fault_text(alloc, cost, fault)?,
        status: Status::No,
    })
}

/// Returns the answer about operators, by their numbers, with this cost and this fault. For `Memory` it returns an `Err`.
pub fn answer_number_fault(alloc: Global, cost: u64, fault: PlanFault) -> Result<Answer, AllocError>
    ensures { IfOk result (λ a. invalid_by_numbers cost fault ≡ Some (output_of a)) }
{
    Ok(Answer {
        text: number_fault_text(alloc, cost, fault)?,
        status: Status::No,
    })
}

/// Returns the refusal of a start that isn't a state.
pub fn refuse_start(alloc: Global, fault: StartFault) -> Result<Answer, AllocError>
    ensures { IfOk result (λ a. output_of a ≡ start_refusal fault) }
{
    Ok(Answer {
        text: start_text(alloc, fault)?,
        status: Status::No,
    })
}

/// Returns the line that refuses a start.
fn start_text(alloc: Global, fault: StartFault) -> Result<Vec<u8>, AllocError>
    ensures { IfOk result (λ t. t.items ≡ (start_refusal fault).text) }
{
    let mut text = Vec::from_slice(alloc, b"state refused: ")?;
    match fault {
        StartFault::Count { values, variables } => {
            push_number(&mut text, values as u128)?;
            text.extend_from_slice(b" values, not ")?;
            push_number(&mut text, u128::from(variables))?;
        }
        StartFault::Value { var } => {
            text.extend_from_slice(b"variable ")?;
            push_number(&mut text, u128::from(var))?;
        }
    }
    text.push(b'\n')?;
    Ok(text)
}

/// Returns the line of a valid plan.
fn valid_text(alloc: Global, steps: usize, cost: u64) -> Result<Vec<u8>, AllocError>
    ensures { IfOk result (λ t. t.items ≡ valid_line steps cost) }
{
    let mut text = Vec::from_slice(alloc, b"plan valid: ")?;
    push_number(&mut text, steps as u128)?;
    text.extend_from_slice(b" steps, cost ")?;
    push_number(&mut text, u128::from(cost))?;
    text.push(b'\n')?;
    Ok(text)
}

/// Returns the line that reports why a plan with this cost isn't valid.
fn fault_text(alloc: Global, cost: u64, fault: PlanFault) -> Result<Vec<u8>, AllocError>
    ensures { IfOk result (λ t. option_map invalid_line (fault_words cost fault) ≡ Some t.items) }
{
    match fault {
        PlanFault::NoOperator { step } => step_text(alloc, step, "no operator of that name"),
        PlanFault::NotApplicable { step } => step_text(alloc, step, "not applicable"),
        PlanFault::Conflict { step, .. } => step_text(alloc, step, "conflicting effects"),
        PlanFault::GoalMissed { index } => goal_text(alloc, index),
        PlanFault::CostDiffers { sum } => cost_text(alloc, sum, cost),
        PlanFault::Memory => Err(AllocError),
    }
}

/// Returns the line that reports why operators aren't a valid plan of this cost.
fn number_fault_text(alloc: Global, cost: u64, fault: PlanFault) -> Result<Vec<u8>, AllocError>
    ensures { IfOk result (λ t.
        option_map invalid_line (number_fault_words cost fault) ≡ Some t.items) }
{
    match fault {
        PlanFault::NoOperator { step } => step_text(alloc, step, "no operator of that number"),
        _ => fault_text(alloc, cost, fault),
    }
}

/// Returns the line that reports the fault of this step.
fn step_text(alloc: Global, step: usize, what: &str) -> Result<Vec<u8>, AllocError>
    ensures { IfOk result (λ t. t.items ≡ invalid_line (step_words step what.now)) }
{
    let mut text = Vec::from_slice(alloc, b"plan invalid: step ")?;
    push_number(&mut text, step as u128)?;
    text.extend_from_slice(b": ")?;
    push_line(&mut text, what.as_bytes())?;
    Ok(text)
}

/// Returns the line that reports which fact of the goal isn't reached.
fn goal_text(alloc: Global, index: u32) -> Result<Vec<u8>, AllocError>
    ensures { IfOk result (λ t. t.items ≡ invalid_line (goal_words index)) }
{
    let mut text = Vec::from_slice(alloc, b"plan invalid: goal fact ")?;
    push_number(&mut text, u128::from(index))?;
    text.extend_from_slice(b" not reached")?;
    text.push(b'\n')?;
    Ok(text)
}

/// Returns the line that reports the sum of the operators' costs, and the plan's cost.
fn cost_text(alloc: Global, sum: u128, cost: u64) -> Result<Vec<u8>, AllocError>
    ensures { IfOk result (λ t. t.items ≡ invalid_line (sum_words sum cost)) }
{
    let mut text = Vec::from_slice(alloc, b"plan invalid: cost is ")?;
    push_number(&mut text, sum)?;
    text.extend_from_slice(b", not ")?;
    push_number(&mut text, u128::from(cost))?;
    text.push(b'\n')?;
    Ok(text)
}
