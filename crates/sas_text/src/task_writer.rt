// Writes task files.
#![tactic(auto, using(crate::proofs::TaskTexts::texts))]

ghost use Rattle.std.specs.Prelude.{◌≡◌, List, [], ◌∷◌, ◌++◌, IfOk, OnOk};
ghost use Rattle.std.specs.List.{flat_map};
ghost use Rattle.sas_lines.specs.Lines.{text};
ghost use Rattle.sas_lines.specs.Spelling.{signed_decimal, joined};
ghost use Rattle.sas_reader.specs.Texts.{lines_of};
ghost use Rattle.sas_task_file.specs.TaskFormat as format;
ghost use Rattle.sas_task_file.specs.TaskFormat.{TaskLine, single_line, counted, version_lines, metric_lines};
ghost use Rattle.sas_task_file.specs.TaskFormat.{variable_lines, group_lines, state_lines, goal_lines};
ghost use Rattle.sas_task_file.specs.TaskFormat.{operator_lines, rule_lines, fact_words, task_texts};
ghost use Rattle.sas_text.specs.TaskText.{text_of, spaced};

use sas_core::{Effect, Fact, Items, Operator, Rule, Task, Variable};
use sas_lines::{push_line, push_number};
use std::alloc::{AllocError, Global};

/// The version of the format.
const VERSION: u128 = 3;

/// A part of a task that has its own lines: one line, or several lines between a first and a last word.
trait Encode {
    ghost lines: { Self → List TaskLine };

    /// Appends the lines.
    fn encode(&self, out: &mut Vec<u8>) -> Result<(), AllocError>
        ensures { OnOk result (out.new.items ≡ out.old.items ++ text_of (lines self.now)) };
}

/// Appends the line of a fixed word.
fn push_word(out: &mut Vec<u8>, word: &[u8]) -> Result<(), AllocError>
    ensures { OnOk result (out.new.items
        ≡ out.old.items ++ text_of (single_line format.word word.now)) }
{
    push_line(out, word)
}

/// Appends the line of a number.
fn encode_number(out: &mut Vec<u8>, n: u128) -> Result<(), AllocError>
    ensures { OnOk result (out.new.items ≡ out.old.items ++ text_of (single_line format.number n)) }
{
    push_number(out, n)?;
    out.push(b'\n')?;
    Ok(())
}

/// Appends the lines of each item, in order.
fn push_each<T: Encode>(out: &mut Vec<u8>, items: &Items<T>) -> Result<(), AllocError>
    ensures { OnOk result (out.new.items ≡ out.old.items ++ text_of (flat_map T.lines items.now)) }
{
    for item in items.as_slice() {
        item.encode(out)?;
    }
    Ok(())
}

/// Appends the line with the number of items, and the lines of each item.
fn encode_counted<T: Encode>(out: &mut Vec<u8>, items: &Items<T>) -> Result<(), AllocError>
    ensures { OnOk result (out.new.items ≡ out.old.items ++ text_of (counted T.lines items.now)) }
{
    encode_number(out, items.len() as u128)?;
    push_each(out, items)
}

/// Appends the digits of a number, or `-1` for none.
fn push_signed(out: &mut Vec<u8>, n: Option<u32>) -> Result<(), AllocError>
    ensures { OnOk result (out.new.items ≡ out.old.items ++ signed_decimal n) }
{
    match n {
        None => out.extend_from_slice(b"-1"),
        Some(n) => push_number(out, u128::from(n)),
    }
}

/// Appends the line of an axiom layer.
fn encode_layer(out: &mut Vec<u8>, layer: Option<u32>) -> Result<(), AllocError>
    ensures { OnOk result (out.new.items
        ≡ out.old.items ++ text_of (single_line format.signed layer)) }
{
    push_signed(out, layer)?;
    out.push(b'\n')?;
    Ok(())
}

/// Appends the words of a fact, without a line end.
fn encode_fact(out: &mut Vec<u8>, fact: &Fact) -> Result<(), AllocError>
    ensures { OnOk result (out.new.items ≡ out.old.items ++ joined (fact_words fact.now)) }
{
    push_number(out, u128::from(fact.var))?;
    out.push(b' ')?;
    push_number(out, u128::from(fact.value))
}

/// Appends the words of some facts, with a space after each fact, since more words follow.
fn encode_conditions(out: &mut Vec<u8>, facts: &Items<Fact>) -> Result<(), AllocError>
    ensures { OnOk result
        (out.new.items ≡ out.old.items ++ spaced (flat_map fact_words facts.now)) }
{
    for fact in facts.as_slice() {
        encode_fact(out, fact)?;
        out.push(b' ')?;
    }
    Ok(())
}

/// Appends the words of a change and the line end. A change is the head of a rule or the end of an effect.
fn push_head(out: &mut Vec<u8>, var: u32, old: Option<u32>, new: u32) -> Result<(), AllocError>
    ensures { OnOk result
        (out.new.items ≡ out.old.items ++ text_of (format.head var old new ∷ [])) }
{
    push_number(out, u128::from(var))?;
    out.push(b' ')?;
    push_signed(out, old)?;
    out.push(b' ')?;
    push_number(out, u128::from(new))?;
    out.push(b'\n')?;
    Ok(())
}

/// A name on its line.
impl Encode for Items<u8> {
    ghost lines = { single_line format.name };

    fn encode(&self, out: &mut Vec<u8>) -> Result<(), AllocError> {
        push_line(out, self.as_slice())
    }
}

/// A number on its line.
impl Encode for u32 {
    ghost lines = { single_line format.number };

    fn encode(&self, out: &mut Vec<u8>) -> Result<(), AllocError> {
        encode_number(out, u128::from(*self))
    }
}

/// A fact on its line.
impl Encode for Fact {
    ghost lines = { single_line format.fact };

    fn encode(&self, out: &mut Vec<u8>) -> Result<(), AllocError> {
        encode_fact(out, self)?;
        out.push(b'\n')?;
        Ok(())
    }
}

/// An effect on its line.
impl Encode for Effect {
    ghost lines = { single_line format.effect };

    fn encode(&self, out: &mut Vec<u8>) -> Result<(), AllocError> {
        push_number(out, self.conditions.len() as u128)?;
        out.push(b' ')?;
        encode_conditions(out, &self.conditions)?;
        push_head(out, self.var, self.old, self.new)
    }
}

/// A variable's section.
impl Encode for Variable {
    ghost lines = { variable_lines };

    fn encode(&self, out: &mut Vec<u8>) -> Result<(), AllocError> {
        push_word(out, b"begin_variable")?;
        self.name.encode(out)?;
        encode_layer(out, self.layer)?;
        encode_counted(out, &self.values)?;
        push_word(out, b"end_variable")
    }
}

/// The section of a mutex group.
impl Encode for Items<Fact> {
    ghost lines = { group_lines };

    fn encode(&self, out: &mut Vec<u8>) -> Result<(), AllocError> {
        push_word(out, b"begin_mutex_group")?;
        encode_counted(out, self)?;
        push_word(out, b"end_mutex_group")
    }
}

/// An operator's section.
impl Encode for Operator {
    ghost lines = { operator_lines };

    fn encode(&self, out: &mut Vec<u8>) -> Result<(), AllocError> {
        push_word(out, b"begin_operator")?;
        self.name.encode(out)?;
        encode_counted(out, &self.prevail)?;
        encode_counted(out, &self.effects)?;
        self.cost.encode(out)?;
        push_word(out, b"end_operator")
    }
}

/// Appends the section of an axiom rule.
fn push_rule(out: &mut Vec<u8>, rule: &Rule) -> Result<(), AllocError>
    ensures { OnOk result (out.new.items ≡ out.old.items ++ text_of (rule_lines rule.now)) }
{
    push_word(out, b"begin_rule")?;
    encode_counted(out, &rule.conditions)?;
    push_head(out, rule.var, rule.old, rule.new)?;
    push_word(out, b"end_rule")
}

/// Appends the section of each rule, in order.
fn push_each_rule(out: &mut Vec<u8>, rules: &Items<Rule>) -> Result<(), AllocError>
    ensures { OnOk result
        (out.new.items ≡ out.old.items ++ text_of (flat_map rule_lines rules.now)) }
{
    for rule in rules.as_slice() {
        push_rule(out, rule)?;
    }
    Ok(())
}

/// Appends the line with the number of rules, and the section of each rule.
fn encode_rules(out: &mut Vec<u8>, rules: &Items<Rule>) -> Result<(), AllocError>
    ensures { OnOk result
        (out.new.items ≡ out.old.items ++ text_of (counted rule_lines rules.now)) }
{
    encode_number(out, rules.len() as u128)?;
    push_each_rule(out, rules)
}

/// Appends the section of the version.
fn push_version(out: &mut Vec<u8>) -> Result<(), AllocError>
    ensures { OnOk result (out.new.items ≡ out.old.items ++ text_of version_lines) }
{
    push_word(out, b"begin_version")?;
    encode_number(out, VERSION)?;
    push_word(out, b"end_version")
}

/// Appends the section of the metric.
fn push_metric(out: &mut Vec<u8>, metric: bool) -> Result<(), AllocError>
    ensures { OnOk result (out.new.items ≡ out.old.items ++ text_of (metric_lines metric)) }
{
    push_word(out, b"begin_metric")?;
    encode_number(out, u128::from(metric))?;
    push_word(out, b"end_metric")
}

/// Appends the section of the initial state.
fn encode_state(out: &mut Vec<u8>, values: &Items<u32>) -> Result<(), AllocError>
    ensures { OnOk result (out.new.items ≡ out.old.items ++ text_of (state_lines values.now)) }
{
    push_word(out, b"begin_state")?;
    push_each(out, values)?;
    push_word(out, b"end_state")
}

/// Appends the section of the goal.
fn encode_goal(out: &mut Vec<u8>, facts: &Items<Fact>) -> Result<(), AllocError>
    ensures { OnOk result (out.new.items ≡ out.old.items ++ text_of (goal_lines facts.now)) }
{
    push_word(out, b"begin_goal")?;
    encode_counted(out, facts)?;
    push_word(out, b"end_goal")
}

/// Returns the text of a task: its lines, each ended by LF. Returns `Err` only if out of memory.
pub fn encode_task(alloc: Global, task: &Task) -> Result<Vec<u8>, AllocError>
    ensures { IfOk result (λ t. t.items ≡ text (lines_of task_texts task.now)) }
{
    let parts = task.parts();
    let mut out = Vec::new(alloc);
    push_version(&mut out)?;
    push_metric(&mut out, parts.metric)?;
    encode_counted(&mut out, &parts.variables)?;
    encode_counted(&mut out, &parts.groups)?;
    encode_state(&mut out, &parts.init)?;
    encode_goal(&mut out, &parts.goal)?;
    encode_counted(&mut out, &parts.operators)?;
    encode_rules(&mut out, &parts.rules)?;
    Ok(out)
}
