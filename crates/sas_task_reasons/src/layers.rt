// Why a task isn't layered, as lines of numbers.
ghost use Rattle.std.specs.Prelude.{◌≡◌, [], ◌∷◌, ◌++◌, IfOk, OnOk};
ghost use Rattle.sas_meaning.specs.declared.layered.LayerFault.TheVariants as fault;
ghost use Rattle.sas_task_reasons.specs.WhyLayers as spec;

use crate::facts::{change_by, condition_of, default_fact, layer_of};
use crate::giver::other_giver;
use sas_answers::{Line, set_by};
use sas_core::{Fact, Items};
use sas_flat::FlatTask;
use sas_meaning::LayerFault;
use std::alloc::{AllocError, Global};

/// Returns the lines of why the task has this fault of its layers. For `Memory` there is none.
pub fn layer_reasons(
    alloc: Global,
    task: &FlatTask,
    fault: LayerFault,
) -> Result<Items<Line>, AllocError>
    ensures { IfOk result (λ lines. lines ≡ spec.layer_reasons task.now fault) }
{
    let mut lines = Items::new(alloc);
    match fault {
        LayerFault::EffectOnDerived { operator, effect } => {
            lines.push(Line::NamedOperator { operator })?;
            lines.push(Line::EffectSets { operator, effect })?;
            push_layer(task, set_by(task, operator, effect).var, &mut lines)?;
        }
        LayerFault::RuleOnBasic { rule } => lines.push(Line::Rule { rule })?,
        LayerFault::OldValue { rule } => push_values(task, rule, &mut lines)?,
        LayerFault::TwoValues { rule } => {
            lines.push(Line::Rule { rule })?;
            if let Some(other) = other_giver(task, rule) {
                lines.push(Line::Rule { rule: other })?;
            }
        }
        LayerFault::LayerOrder { rule, condition } => {
            lines.push(Line::Rule { rule })?;
            push_layer(task, change_by(task, rule).var, &mut lines)?;
            let fact = condition_of(task, rule, condition);
            lines.push(Line::ConditionRequires { condition, fact })?;
            push_layer(task, fact.var, &mut lines)?;
        }
        LayerFault::Memory => {}
    }
    Ok(lines)
}

/// Adds the lines for a rule with an old value that isn't the default.
fn push_values(task: &FlatTask, rule: u32, lines: &mut Items<Line>) -> Result<(), AllocError>
    ensures { OnOk result (lines.new
        ≡ lines.old ++ spec.layer_reasons task.now (fault.OldValue rule)) }
{
    lines.push(Line::Rule { rule })?;
    let change = change_by(task, rule);
    let var = change.var;
    if let Some(value) = change.old {
        lines.push(Line::OldValue {
            fact: Fact { var, value },
        })?;
    }
    lines.push(Line::DefaultValue {
        fact: default_fact(task, var),
    })
}

/// Adds the line of the variable's layer, if it is derived.
fn push_layer(task: &FlatTask, var: u32, lines: &mut Items<Line>) -> Result<(), AllocError>
    ensures { OnOk result (lines.new ≡ lines.old ++ spec.layer_lines task.now var) }
{
    if let Some(layer) = layer_of(task, var) {
        lines.push(Line::OnLayer { layer })?;
    }
    Ok(())
}
