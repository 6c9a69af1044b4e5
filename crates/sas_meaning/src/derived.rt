// The derived variables of a task.
ghost use Rattle.std.specs.Prelude.{ℕ, IfOk, IsTrue, IsFalse};
ghost use Rattle.sas_core.specs.Variables.{IsDerived};
ghost use Rattle.sas_meaning.specs.DerivedVariables.{AreDerivedSpans};
ghost use Rattle.sas_meaning.specs.Layers.{IsBasic};

use crate::layered::Layered;
use crate::state::VariableSpan;
use sas_core::Grounded;
use std::alloc::{AllocError, Global};

/// Returns the spans of derived variables, each as long as possible.
pub fn derived_spans<T: Grounded>(
    alloc: Global,
    task: &Layered<T>,
) -> Result<Vec<VariableSpan>, AllocError>
    ensures { IfOk result (λ spans. AreDerivedSpans task.now spans.items) }
{
    let mut spans = Vec::new(alloc);
    let mut start = 0;
    for var in 0..task.variables() {
        let end = var + 1;
        if is_basic(task, var) {
            start = end;
        } else if is_basic(task, end) {
            spans.push(VariableSpan { start, end })?;
        }
    }
    Ok(spans)
}

/// Returns whether the variable isn't derived or doesn't exist.
fn is_basic<T: Grounded>(task: &Layered<T>, var: u32) -> bool
    ensures yes { IsTrue result → IsDerived task.now.variables var → ⊥ }
    ensures no { IsFalse result → IsDerived task.now.variables var }
{
    var >= task.variables() || task.layer(var).is_none()
}

/// Returns whether a variable of the task is derived.
pub fn has_derived<T: Grounded>(task: &T) -> bool
    ensures { IsFalse result → (var : ℕ) → IsBasic (T.says task.now) var }
{
    for var in 0..task.variables() {
        if task.layer(var).is_some() {
            return true;
        }
    }
    false
}
