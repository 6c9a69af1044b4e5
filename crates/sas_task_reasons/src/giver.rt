// Which rule derives another value of a variable.
ghost use Rattle.std.specs.Prelude.{◌≡◌, ◌<◌, ◌==◌, ◌&&◌, not, length};
ghost use Rattle.sas_core.specs.Grounded.{rule_at};
ghost use Rattle.sas_meaning.specs.Layers.{can_fire};
ghost use Rattle.sas_task_reasons.specs.WhyLayers as spec;

use crate::facts::{change_by, default_fact};
use sas_core::{Change, Grounded};
use sas_flat::FlatTask;

/// Returns the lowest rule of this rule's variable that can fire and has another new value, if there is one.
pub fn other_giver(task: &FlatTask, rule: u32) -> Option<u32>
    ensures { result ≡ spec.other_giver task.now (rule_at task.now rule) }
{
    let change = change_by(task, rule);
    for other in 0..task.rules() {
        if gives_other(task, change, other) {
            return Some(other);
        }
    }
    None
}

/// Returns whether the other rule is of the same variable as one with this change, can fire, and has another new value.
fn gives_other(task: &FlatTask, change: Change, other: u32) -> bool
    requires { other < length task.now.rules }
    ensures { result ≡ ((rule_at task.now other).var == change.var)
        && (can_fire task.now (rule_at task.now other)
        && not ((rule_at task.now other).new == change.new)) }
{
    let its = task.rule_change(other);
    let default = default_fact(task, its.var).value;
    its.var == change.var && (its.new != default && its.new != change.new)
}
