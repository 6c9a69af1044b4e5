// The causes of facts that fail.
ghost use Rattle.std.specs.Prelude.{◌≡◌, ◌<◌, ℕ, [], ◌∷◌, ◌++◌, List, length, map, flat_map, find, OnOk, All, slice_index, IfOk};
ghost use Rattle.sas_core.specs.declared.parts.Fact.{Fact};
ghost use Rattle.sas_core.specs.Variables.{IsState};
ghost use Rattle.sas_meaning.specs.Places.{places, can_give};
ghost use Rattle.sas_meaning.specs.Settled.{IsSettled};
ghost use Rattle.sas_run.specs.Runs.{last_state};
ghost use Rattle.sas_plan_reasons.specs.Cause.{fails, since_line, failing_lines, can_be_given, keeping_lines, IsCause};
ghost use Rattle.sas_plan_reasons.specs.Explanation.{IsExplanation, IsExplanationOf, AddsLines, ExplainsGivers};

use crate::history::PlanHistory;
use crate::origins::{Origins, requires_rules};
use sas_answers::Line;
use sas_axioms::rules_of_variables;
use sas_core::{Fact, Grounded, Items};
use sas_flat::Lists;
use sas_meaning::{Layered, State};
use std::alloc::{AllocError, Global};

/// The lines of reasons so far, and what keeps a line of a rule from standing twice.
#[derive(Drop)]
pub struct Explanation {
    pub lines: Items<Line>,
    /// The rules that give derived variables their values, and for which of them there is a line.
    pub origins: Origins,
    /// The rules of each variable that can fire.
    pub rules: Lists<u32>,
    /// For each variable, whether there are lines for its rules that don't fire.
    pub kept: Items<bool>,
    /// The rules of one derivation whose lines come next.
    pub next: Vec<u32>,
}

impl Explanation {
    /// Returns an explanation of this state without a line.
    pub fn new<T: Grounded>(
        alloc: Global,
        task: &Layered<T>,
        state: &State,
    ) -> Result<Explanation, AllocError>
        requires state { IsState task.now.variables state.now }
        requires settled { IsSettled task.now state.now }
        ensures explanation { IfOk result (λ explanation.
            IsExplanation task.now state.now explanation) }
        ensures empty { IfOk result (λ explanation. explanation.lines ≡ []) }
    {
        Ok(Explanation {
            lines: Items::new(alloc),
            origins: Origins::new(alloc, task, state)?,
            rules: rules_of_variables(alloc, task)?,
            kept: Items::from_vec(vec![in alloc; false; task.variables() as usize]?),
            next: Vec::new(alloc),
        })
    }
}

/// Explains the cause of a fact that fails in the last state.
pub fn explain_cause<T: Grounded>(
    task: &Layered<T>,
    history: &PlanHistory,
    fact: Fact,
    explanation: &mut Explanation,
) -> Result<(), AllocError>
    requires fact { fact.var < length task.now.variables }
    requires explanation { IsExplanationOf task.now history.now explanation.old }
    ensures { OnOk result (AddsLines task.now history.now explanation.old explanation.new
        (λ run. IsCause task.now run fact)) }
{
    explain_values(history, fact, &mut explanation.lines)?;
    explain_givers(task, fact.var, explanation)?;
    if requires_rules(task, fact) {
        explain_keepers(task, history, fact, explanation)
    } else {
        Ok(())
    }
}

/// Explains the required fact, the actual one, and since when it holds.
fn explain_values(
    history: &PlanHistory,
    fact: Fact,
    lines: &mut Items<Line>,
) -> Result<(), AllocError>
    requires state { fact.var < length history.now.last }
    requires since { fact.var < length history.now.since.items }
    ensures { OnOk result (lines.new ≡ lines.old
        ++ (Line.Requires fact
        ∷ Line.Actual (record { var = fact.var; value = slice_index history.now.last fact.var })
        ∷ since_line (slice_index history.now.since.items fact.var) ∷ [])) }
{
    let var = fact.var;
    let value = history.last.value(var);
    let step = history.since[var as usize];
    let since = if step == 0 {
        Line::SinceInitialState
    } else {
        Line::SinceStep { step }
    };
    lines.extend_from_slice(&[
        Line::Requires { fact },
        Line::Actual {
            fact: Fact { var, value },
        },
        since,
    ])
}

/// Explains which rules derive a variable's value, if it isn't its default.
fn explain_givers<T: Grounded>(
    task: &Layered<T>,
    var: u32,
    explanation: &mut Explanation,
) -> Result<(), AllocError>
    requires var { var < length task.now.variables }
    requires explanation { (s : List ℕ) × IsExplanation task.now s explanation.old }
    ensures { OnOk result ((s : List ℕ) → IsExplanation task.now s explanation.old
        → ExplainsGivers task.now s var explanation.old explanation.new) }
{
    explanation
        .origins
        .explain_derivation(task, var, &mut explanation.next)?;
    push_givers(explanation.next.as_slice(), &mut explanation.lines)
}

/// Adds a line for each of the rules.
#[tactic(auto, using(crate::proofs::Composing::map_more))]
fn push_givers(rules: &[u32], lines: &mut Items<Line>) -> Result<(), AllocError>
    ensures { OnOk result (lines.new ≡ lines.old ++ map Line.RuleDerives rules.now) }
{
    for rule in rules {
        lines.push(Line::RuleDerives { rule: *rule })?;
    }
    Ok(())
}

/// Explains what the rules of the fact's variable require that fails, or that none of them derives the fact's value.
fn explain_keepers<T: Grounded>(
    task: &Layered<T>,
    history: &PlanHistory,
    fact: Fact,
    explanation: &mut Explanation,
) -> Result<(), AllocError>
    requires fact { fact.var < length task.now.variables }
    requires explanation { IsExplanationOf task.now history.now explanation.old }
    ensures { OnOk result (AddsLines task.now history.now explanation.old explanation.new
        (λ run lines. lines ≡ keeping_lines task.now (last_state run) fact)) }
{
    let var = fact.var as usize;
    let rules = explanation.rules.get(var);
    if !give_value(task, rules, fact) {
        return explanation.lines.push(Line::NoRuleDerives);
    }
    if explanation.kept.as_slice()[var] {
        return Ok(());
    }
    explanation.kept.set(var, true);
    push_keepers(task, &history.last, rules, &mut explanation.lines)
}

/// Returns whether the rules of the fact's variable that can fire derive the fact's value. All of them derive the same.
fn give_value<T: Grounded>(layered: &Layered<T>, rules: &[u32], fact: Fact) -> bool
    requires { rules.now ≡ places (can_give layered.now fact.var) layered.now.rules }
    ensures { result ≡ can_be_given layered.now fact }
{
    match rules.first() {
        Some(rule) => layered.task().rule_change(*rule).new == fact.value,
        None => false,
    }
}

/// Adds, for each of the rules, a line for its first condition that fails.
fn push_keepers<T: Grounded>(
    layered: &Layered<T>,
    state: &State,
    rules: &[u32],
    lines: &mut Items<Line>,
) -> Result<(), AllocError>
    requires state { IsState layered.now.variables state.now }
    requires rules { All (λ (rule : ℕ). rule < length layered.now.rules) rules.now }
    ensures { OnOk result (lines.new
        ≡ lines.old ++ flat_map (failing_lines layered.now state.now) rules.now) }
{
    for rule in rules {
        if let Some(fact) = first_failing(state, layered.task().rule_conditions(*rule)) {
            lines.push(Line::RuleRequires { rule: *rule, fact })?;
        }
    }
    Ok(())
}

/// Returns the first of the facts that fails, if one does.
fn first_failing(state: &State, facts: &[Fact]) -> Option<Fact>
    requires { All (λ (f : Fact). f.var < length state.now) facts.now }
    ensures { result ≡ find (fails state.now) facts.now }
{
    facts
        .iter()
        .copied()
        .find(|fact| state.value(fact.var) != fact.value)
}
