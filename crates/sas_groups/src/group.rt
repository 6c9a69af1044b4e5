// Checks a single group.
ghost use Rattle.std.specs.Prelude.{◌≡◌, ◌<◌, ◌↔◌, length, All, Contains, IsTrue, IfSome, IfNone, slice_index};
ghost use Rattle.sas_core.specs.Variables.{FactExists};
ghost use Rattle.sas_meaning.specs.States.{Holds};
ghost use Rattle.sas_groups.specs.Groups.{IsExclusiveIn, IsInvariant};
ghost use Rattle.sas_groups.specs.Families.{IsOnBasic, AllKeep};
ghost use Rattle.sas_groups.specs.Verdicts.{IsVerdictAlone, IsFirstBreaking};
ghost use Rattle.sas_groups.specs.Keeping.{IsFirstVerdict, Alone};

use crate::keeping::keeps;
use crate::verdict::Verdict;
use sas_core::{Fact, Grounded};
use sas_meaning::Layered;

/// Returns the verdict on a group, using only the group itself as an assumption.
///
/// The checks are, in this order: a fact on a derived variable; two different facts that hold in the state section; the first operator that
/// doesn't keep the group.
pub fn check_group<T: Grounded>(layered: &Layered<T>, group: &[Fact]) -> Verdict
    requires { All (FactExists layered.now.variables) group.now }
    ensures verdict { IsVerdictAlone layered.now group.now result }
    // If the group is exclusive, no reachable state contains two different facts of it.
    ensures invariant { result ≡ Verdict.Exclusive → IsInvariant layered.now group.now }
{
    match before_operators(layered, group) {
        Verdict::Exclusive => match first_breaking(layered, group) {
            Some(operator) => Verdict::Broken { operator },
            None => Verdict::Exclusive,
        },
        verdict => verdict,
    }
}

/// Returns the verdict on a group before operators are looked at: `Derived`, `Initial`, or `Exclusive` if neither applies.
pub fn before_operators<T: Grounded>(task: &Layered<T>, group: &[Fact]) -> Verdict
    requires { All (λ f. f.var < length task.now.variables) group.now }
    ensures { IsFirstVerdict task.now group.now result }
{
    if !is_on_basic(task, group) {
        return Verdict::Derived;
    }
    if !is_exclusive_in_section(task, group) {
        return Verdict::Initial;
    }
    Verdict::Exclusive
}

/// Returns whether all facts are on basic variables.
fn is_on_basic<T: Grounded>(task: &Layered<T>, group: &[Fact]) -> bool
    requires { All (λ f. f.var < length task.now.variables) group.now }
    ensures { IsTrue result ↔ IsOnBasic task.now group.now }
{
    group.iter().all(|fact| task.layer(fact.var).is_none())
}

/// Returns whether the state section contains no two different facts of the group.
fn is_exclusive_in_section<T: Grounded>(task: &Layered<T>, group: &[Fact]) -> bool
    requires { All (λ f. f.var < length task.now.variables) group.now }
    ensures { IsTrue result ↔ IsExclusiveIn task.now.init group.now }
{
    match first_holding(task, group) {
        Some(fact) => is_only_one(task, group, fact),
        None => true,
    }
}

/// Returns the first fact that holds in the state section, if any.
fn first_holding<T: Grounded>(task: &Layered<T>, group: &[Fact]) -> Option<Fact>
    requires { All (λ f. f.var < length task.now.variables) group.now }
    ensures some { IfSome result
        (λ fact. Contains group.now fact × Holds (slice_index task.now.init) fact) }
    ensures none { IfNone result
        (All (λ fact. Holds (slice_index task.now.init) fact → ⊥) group.now) }
{
    group.iter().copied().find(|fact| holds(task, *fact))
}

/// Returns whether no fact of the group other than `fact` holds in the state section.
fn is_only_one<T: Grounded>(task: &Layered<T>, group: &[Fact], fact: Fact) -> bool
    requires { All (λ f. f.var < length task.now.variables) group.now }
    ensures { IsTrue result
        ↔ All (λ other. Holds (slice_index task.now.init) other → fact ≡ other) group.now }
{
    group
        .iter()
        .all(|other| !holds(task, *other) || *other == fact)
}

/// Returns whether the fact holds in the state section.
fn holds<T: Grounded>(task: &Layered<T>, fact: Fact) -> bool
    requires { fact.var < length task.now.variables }
    ensures { IsTrue result ↔ Holds (slice_index task.now.init) fact }
{
    task.initial_value(fact.var) == fact.value
}

/// Returns the first operator that doesn't keep the group, if any.
fn first_breaking<T: Grounded>(task: &Layered<T>, group: &[Fact]) -> Option<u32>
    ensures some { IfSome result
        (λ operator. IsFirstBreaking task.now (Alone group.now) group.now operator) }
    ensures none { IfNone result (AllKeep task.now (Alone group.now) group.now) }
{
    for operator in 0..task.operators() {
        if !keeps(task, operator, group) {
            return Some(operator);
        }
    }
    None
}
