// Which operator a step means in a state.
ghost use Rattle.std.specs.Prelude.{◌<◌, ◌↔◌, length, IsTrue};
ghost use Rattle.sas_core.specs.Grounded.{operator_at};
ghost use Rattle.sas_core.specs.Variables.{IsState};
ghost use Rattle.sas_names.specs.Chains.{IsChain};
ghost use Rattle.sas_run.specs.Plans.{IsApplicable};
ghost use Rattle.sas_run.specs.Running.{IsLaterIfAny};

use crate::plain_steps::old_values_hold;
use crate::steps::missed_precondition;
use sas_core::Grounded;
use sas_meaning::{Layered, State};
use sas_names::next_in;

/// The operator that a step means in a state, by its name or by its number.
#[derive(Clone, Copy, Debug, PartialEq, Eq)]
pub enum Choice {
    /// No operator has the name or the number.
    Unknown,
    /// Operators have the name, but none of them is applicable. Or the operator with the number isn't.
    Blocked,
    /// The lowest-numbered applicable operator of the name, or the operator with the number, which is applicable.
    Found(u32),
}

/// Returns whether the operator's preconditions hold in the state.
#[inline(always)]
pub fn is_applicable<T: Grounded>(layered: &Layered<T>, state: &State, operator: u32) -> bool
    requires operator { operator < length layered.now.operators }
    requires state { IsState layered.now.variables state.now }
    ensures { IsTrue result ↔ IsApplicable state.now (operator_at layered.now operator) }
{
    let Some(changes) = layered.plain_changes(operator) else {
        return match missed_precondition(layered, operator, state) {
            Some(_) => false,
            None => true,
        };
    };
    let task = layered.task();
    state.holds_all(task.prevail(operator)) && old_values_hold(state, changes)
}

/// Returns the first applicable operator among the later ones of the same name. `nexts` has, for each of them, the next one. It isn't
/// inlined, since most steps need only the first operator of their name.
#[inline(never)]
pub fn later_applicable<T: Grounded>(
    task: &Layered<T>,
    nexts: &[Option<u32>],
    state: &State,
    operator: u32,
) -> Option<u32>
    requires chain { IsChain task.now operator nexts.now }
    requires operator { operator < length task.now.operators }
    requires state { IsState task.now.variables state.now }
    ensures { IsLaterIfAny task.now state.now operator result }
{
    let mut next = next_in(nexts, operator);
    while let Some(later) = next {
        if is_applicable(task, state, later) {
            return Some(later);
        }
        next = next_in(nexts, later);
    }
    None
}
