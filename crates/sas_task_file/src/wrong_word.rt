// Finds the first word of a line that isn't an allowed number. It is needed only if the line is refused.
ghost use Rattle.std.specs.Prelude.{◌≡◌, ◌<◌, ◌^◌, ◌-◌, length, slice_index, [], ◌∷◌, true, false, Option, Some, IfOk};
ghost use Rattle.sas_task_file.specs.TaskFormat as content;
ghost use Rattle.sas_task_file.specs.TaskFormat.{fact_slot, effect_slot, head_slot};
ghost use Rattle.sas_task_file.specs.TaskReasons.{below, below_or_none, change_bounds, fact_bounds, first_wrong, line_bounds, FirstWrong};

use crate::WrongWord;
use crate::task_line::{parse_change, parse_effect, parse_fact};
use sas_core::{Change, Effect, Fact, Items};
use std::alloc::AllocError;

/// Returns the number of values of the variable, or 0 if there is no such variable.
fn range_of(ranges: &Items<u32>, var: u32) -> u32
    ensures { result ≡ slice_index ranges.now var }
{
    match ranges.get(var as usize) {
        Some(&range) => range,
        None => 0,
    }
}

/// Checks the number of a variable.
fn variable_wrong(ranges: &Items<u32>, var: u32, word: u64) -> Option<WrongWord>
    ensures { result ≡ first_wrong word (below (length ranges.now) var ∷ []) }
{
    let count = ranges.len();
    if (var as usize) < count {
        return None;
    }
    Some(WrongWord {
        word,
        may_be_none: false,
        most: count.saturating_sub(1) as u32,
    })
}

/// Checks the value of a variable.
fn value_wrong(ranges: &Items<u32>, var: u32, value: u32, word: u64) -> Option<WrongWord>
    ensures { result ≡ first_wrong word (below (slice_index ranges.now var) value ∷ []) }
{
    let range = range_of(ranges, var);
    if value < range {
        return None;
    }
    Some(WrongWord {
        word,
        may_be_none: false,
        most: range.saturating_sub(1),
    })
}

/// Checks the old value of a variable, which may be none.
fn old_wrong(ranges: &Items<u32>, var: u32, old: Option<u32>, word: u64) -> Option<WrongWord>
    ensures { result ≡ first_wrong word (below_or_none (slice_index ranges.now var) old ∷ []) }
{
    let Some(value) = old else {
        return None;
    };
    let range = range_of(ranges, var);
    if value < range {
        return None;
    }
    Some(WrongWord {
        word,
        may_be_none: true,
        most: range.saturating_sub(1),
    })
}

/// Checks a fact whose variable is the word with this number.
fn fact_wrong(ranges: &Items<u32>, fact: Fact, word: u64) -> Option<WrongWord>
    requires { word < 2 ^ 63 }
    ensures { result ≡ first_wrong word (fact_bounds ranges.now fact) }
{
    match variable_wrong(ranges, fact.var, word) {
        Some(wrong) => Some(wrong),
        None => value_wrong(ranges, fact.var, fact.value, word + 1),
    }
}

/// Checks the old value, which is the word with this number, and the new value.
fn values_wrong_from(ranges: &Items<u32>, change: Change, word: u64) -> Option<WrongWord>
    requires { word < 2 ^ 63 }
    ensures { result ≡ first_wrong word
        (below_or_none (slice_index ranges.now change.var) change.old
        ∷ below (slice_index ranges.now change.var) change.new ∷ []) }
{
    match old_wrong(ranges, change.var, change.old, word) {
        Some(wrong) => Some(wrong),
        None => value_wrong(ranges, change.var, change.new, word + 1),
    }
}

/// Checks a change whose variable is the word with this number.
fn change_wrong(ranges: &Items<u32>, change: Change, word: u64) -> Option<WrongWord>
    requires { word < 2 ^ 62 }
    ensures { result ≡ first_wrong word
        (change_bounds ranges.now change.var change.old change.new) }
{
    match variable_wrong(ranges, change.var, word) {
        Some(wrong) => Some(wrong),
        None => values_wrong_from(ranges, change, word + 1),
    }
}

/// Returns the first wrong word of an effect, or `None` if its facts exist. Word 1 is the count of its conditions.
fn effect_wrong(ranges: &Items<u32>, effect: &Effect) -> Option<WrongWord>
    requires { length effect.now.conditions < 2 ^ 31 }
    ensures { result ≡ first_wrong 1 (line_bounds ranges.now (content.effect effect.now)) }
{
    let count = effect.conditions.len();
    for i in 0..count {
        if let Some(&fact) = effect.conditions.get(i) {
            if let Some(wrong) = fact_wrong(ranges, fact, 2 * i as u64 + 2) {
                return Some(wrong);
            }
        }
    }
    let change = Change {
        var: effect.var,
        old: effect.old,
        new: effect.new,
    };
    change_wrong(ranges, change, 2 * count as u64 + 2)
}

/// Parses the line as a fact, and returns its first wrong word. Returns `None` if no word is wrong or the line has another form.
pub fn wrong_in_fact(ranges: &Items<u32>, line: &[u8]) -> Option<WrongWord>
    ensures { FirstWrong ranges.now fact_slot line.now result }
{
    match parse_fact(line) {
        Some(fact) => fact_wrong(ranges, fact, 1),
        None => None,
    }
}

/// Parses the line as the head of a rule, and returns its first wrong word. Returns `None` if no word is wrong or the line has another
/// form.
pub fn wrong_in_head(ranges: &Items<u32>, line: &[u8]) -> Option<WrongWord>
    ensures { FirstWrong ranges.now head_slot line.now result }
{
    match parse_change(line) {
        Some(change) => change_wrong(ranges, change, 1),
        None => None,
    }
}

/// Parses the line as an effect, and returns its first wrong word. Returns `None` if no word is wrong or the line has another form.
/// `effect` provides memory and is overwritten.
pub fn wrong_in_effect(
    effect: &mut Effect,
    ranges: &Items<u32>,
    line: &[u8],
) -> Result<Option<WrongWord>, AllocError>
    ensures { IfOk result (FirstWrong ranges.now effect_slot line.now) }
{
    let found = parse_effect(effect, line)?;
    if !found {
        return Ok(None);
    }
    Ok(effect_wrong(ranges, effect))
}
