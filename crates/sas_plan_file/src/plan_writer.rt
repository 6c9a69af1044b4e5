// Writes plan files.
ghost use Rattle.std.specs.Prelude.{◌≡◌, [], ◌∷◌, ◌++◌, IfOk, OnOk};
ghost use Rattle.sas_lines.specs.Lines.{text};
ghost use Rattle.sas_reader.specs.Texts.{lines_of};
ghost use Rattle.sas_plan_file.specs.PlanFormat.{plan_texts, plan_line_bytes, cost_words, step, cost};

use sas_core::{CostKind, Plan};
use sas_lines::{push_line, push_number};
use std::alloc::{AllocError, Global};

/// Appends the line of a step, with its line end.
fn push_step(out: &mut Vec<u8>, name: &[u8]) -> Result<(), AllocError>
    ensures { OnOk result
        (out.new.items ≡ out.old.items ++ (plan_line_bytes (step name.now) ++ 10 ∷ [])) }
{
    out.push(b'(')?;
    out.extend_from_slice(name)?;
    push_line(out, b")")
}

/// Returns the words after a cost.
fn words_of(kind: CostKind) -> &'static [u8]
    ensures { result.now ≡ cost_words kind }
{
    match kind {
        CostKind::Unit => b" (unit cost)",
        CostKind::General => b" (general cost)",
    }
}

/// Appends the line of the cost, with its line end.
fn push_cost(out: &mut Vec<u8>, n: u64, kind: CostKind) -> Result<(), AllocError>
    ensures { OnOk result
        (out.new.items ≡ out.old.items ++ (plan_line_bytes (cost n kind) ++ 10 ∷ [])) }
{
    out.extend_from_slice(b"; cost = ")?;
    push_number(out, u128::from(n))?;
    push_line(out, words_of(kind))
}

/// Returns the text of a plan: its lines, each ended by LF. Returns `Err` only if out of memory.
pub fn encode_plan(alloc: Global, plan: &Plan) -> Result<Vec<u8>, AllocError>
    ensures { IfOk result (λ t. t.items ≡ text (lines_of plan_texts plan.now)) }
{
    let mut out = Vec::new(alloc);
    for name in plan.steps().as_slice() {
        push_step(&mut out, name.as_slice())?;
    }
    push_cost(&mut out, plan.cost(), plan.kind())?;
    Ok(out)
}
