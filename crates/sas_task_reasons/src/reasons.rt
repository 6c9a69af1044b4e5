// The reasons for the verdicts on all groups.
ghost use Rattle.std.specs.Prelude.{◌≡◌, ◌<◌, ◌==◌, ◌&&◌, not, is_some, find, ℕ, length, All, IfOk, IsSomeAnd};
ghost use Rattle.sas_core.specs.Variables.{layer_of};
ghost use Rattle.sas_groups.specs.declared.verdict.Verdict.TheVariants.{Broken};
ghost use Rattle.sas_groups.specs.Verdicts.{IsJointVerdict, AreJointVerdicts};
ghost use Rattle.sas_mutex.specs.Failures.{AreFailures, FailsFirst};
ghost use Rattle.sas_task_reasons.specs.WhyGroups as spec;
ghost use Rattle.sas_task_reasons.specs.WhyGroups.{AreReasons, IsReasonIfAny};

use crate::reason::Reason;
use sas_core::{Fact, Grounded, Items};
use sas_groups::Verdict;
use sas_meaning::Layered;
use sas_mutex::{Failure, GroupVerdicts};
use std::alloc::{AllocError, Global};

/// Returns for each group of the task, in order, the reason for the joint verdict on it, or `None` if it is exclusive.
pub fn group_reasons<T: Grounded>(
    alloc: Global,
    layered: &Layered<T>,
    found: &GroupVerdicts,
) -> Result<Items<Option<Reason>>, AllocError>
    requires joint { AreJointVerdicts layered.now found.now.verdicts }
    requires failures { AreFailures layered.now found.now.verdicts found.now.failures }
    requires for_each { length found.now.failures ≡ length layered.now.groups }
    ensures { IfOk result (λ reasons. AreReasons layered.now found.now.verdicts reasons) }
{
    let task = layered.task();
    let verdicts = found.verdicts.as_slice();
    let failures = found.failures.as_slice();
    let mut reasons = Items::from_vec(Vec::with_capacity(alloc, task.groups() as usize)?);
    for group in 0..task.groups() {
        let place = group as usize;
        reasons.push(reason_of(layered, group, verdicts[place], failures[place]))?;
    }
    Ok(reasons)
}

/// Returns the reason for the verdict on the group, or `None` if it is exclusive. `failure` is the first failure of the operator that
/// breaks it, if one does.
fn reason_of<T: Grounded>(
    task: &Layered<T>,
    group: u32,
    verdict: Verdict,
    failure: Option<Failure>,
) -> Option<Reason>
    requires group { group < length task.now.groups }
    requires joint { IsJointVerdict task.now group verdict }
    requires failure { (operator : ℕ) → verdict ≡ Broken operator
        → IsSomeAnd failure (FailsFirst task.now group operator) }
    ensures { IsReasonIfAny task.now group verdict result }
{
    let facts = task.task().group(group);
    match verdict {
        Verdict::Exclusive => None,
        Verdict::Derived => {
            let fact = first_derived(task, facts)?;
            Some(Reason::OnDerived { fact })
        }
        Verdict::Initial => {
            let first = first_initial(task, facts)?;
            let second = first_beside(task, facts, first.var)?;
            Some(Reason::HoldsTwo { first, second })
        }
        Verdict::Broken { operator } => {
            let failure = failure?;
            Some(Reason::Breaks { operator, failure })
        }
    }
}

/// Returns the first of the facts on a derived variable.
fn first_derived<T: Grounded>(task: &Layered<T>, facts: &[Fact]) -> Option<Fact>
    requires { All (λ f. f.var < length task.now.variables) facts.now }
    ensures { result
        ≡ find (λ (f : Fact). is_some (layer_of task.now.variables f.var)) facts.now }
{
    facts
        .iter()
        .copied()
        .find(|fact| task.layer(fact.var).is_some())
}

/// Returns the first of the facts that holds in the state section.
fn first_initial<T: Grounded>(task: &Layered<T>, facts: &[Fact]) -> Option<Fact>
    requires { All (λ f. f.var < length task.now.variables) facts.now }
    ensures { result ≡ find (spec.holds task.now.init) facts.now }
{
    facts
        .iter()
        .copied()
        .find(|fact| task.initial_value(fact.var) == fact.value)
}

/// Returns the first of the facts that holds in the state section and is on another variable.
fn first_beside<T: Grounded>(task: &Layered<T>, facts: &[Fact], var: u32) -> Option<Fact>
    requires { All (λ f. f.var < length task.now.variables) facts.now }
    ensures { result
        ≡ find (λ (f : Fact). spec.holds task.now.init f && not (f.var == var)) facts.now }
{
    facts.iter().copied().find(|fact| task.initial_value(fact.var) == fact.value && fact.var != var)
}
