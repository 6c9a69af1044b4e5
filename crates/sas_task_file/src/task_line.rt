// Parses one line of a task file, by what is expected there.
ghost use Rattle.std.specs.Prelude.{◌≡◌, ◌↔◌, ℕ, List, [], Option, nat_lt, true, false, ◌==◌, IsTrue, IfOk, IfSome, IfNone};
ghost use Rattle.std.specs.List.{list_all};
ghost use Rattle.sas_core.specs.Names.{is_name};
ghost use Rattle.sas_task_file.specs.TaskFormat as format;
ghost use Rattle.sas_task_file.specs.TaskValues.{is_from, name_in, number_in, fact_in, effect_in, head_in};
ghost use Rattle.sas_task_file.specs.TaskRanges.{value_in, change_in_ranges, fact_in_ranges, effect_in_ranges, head_in_ranges};
ghost use Rattle.sas_task_file.specs.TaskLine.{ParsesLine, ParsesLineOrMemory, ParsesDue};
ghost use Rattle.sas_task_file.specs.TaskWords.{Spells, TakesNumber, TakesSigned, TakesFact, TakesFacts, TakesHead};

use crate::Due;
use crate::ahead::read_fact_to;
use crate::line_values::LineValues;
use sas_core::{Change, Effect, Fact, Items, is_name};
use sas_lines::{Numbers, number, signed};
use sas_reader::{Kind, Lf};
use std::alloc::AllocError;

/// Checks that the line is the fixed word. Returns the kind of its fault if it isn't.
fn word_at(line: &[u8], word: &[u8]) -> Result<(), Kind>
    ensures { ParsesLine (format.word_slot word.now) (λ _. true) (λ _. format.word word.now)
        line.now result }
{
    if line == word {
        Ok(())
    } else {
        Err(Kind::Keyword)
    }
}

/// Checks that the line is a name. Returns the kind of its fault if it isn't.
fn name_at(line: &[u8]) -> Result<(), Kind>
    ensures { ParsesLine format.name_slot (λ i. is_name (name_in i)) (λ _. format.name line.now)
        line.now result }
{
    if is_name(line) {
        Ok(())
    } else {
        Err(Kind::Name)
    }
}

/// Returns the number from `least` to `most` on the line, or the kind of its fault.
fn number_from(line: &[u8], least: u32, most: u32) -> Result<u32, Kind>
    ensures { ParsesLine format.number_slot (λ i. is_from least most (number_in i)) format.number
        line.now result }
{
    match number(line) {
        None => Err(Kind::Shape),
        Some(n) if least <= n && n <= most => Ok(n),
        Some(_) => Err(Kind::Value),
    }
}

/// Returns the number on the line (`None` for `-1`), or the kind of its fault.
fn signed_at(line: &[u8]) -> Result<Option<u32>, Kind>
    ensures { ParsesLine format.signed_slot (λ _. true) format.signed line.now result }
{
    match signed(line) {
        Some(n) => Ok(n),
        None => Err(Kind::Shape),
    }
}

/// Takes the next word, and returns it as a number. It isn't inlined, since most words are read as parts of short facts.
#[inline(never)]
fn take_number(parts: &mut Numbers<'_>) -> Option<u32>
    ensures found { IfSome result (λ n. TakesNumber parts.old n parts.new) }
    ensures none { IfNone result
        ((n : ℕ) (rest : List (List ℕ)) → TakesNumber parts.old n rest → ⊥) }
{
    match parts.next() {
        Some(part) => number(part),
        None => None,
    }
}

/// Takes the next word, and returns it as a number, or as `None` for `-1`.
fn take_signed(parts: &mut Numbers<'_>) -> Option<Option<u32>>
    ensures found { IfSome result (λ n. TakesSigned parts.old n parts.new) }
    ensures none { IfNone result
        ((n : Option ℕ) (rest : List (List ℕ)) → TakesSigned parts.old n rest → ⊥) }
{
    match parts.next() {
        Some(part) => signed(part),
        None => None,
    }
}

/// Takes the next two words as a fact, if they are followed by others and each has at most nine digits. Otherwise takes none. It reads each
/// byte once.
#[tactic(auto, using(crate::proofs::TaskReading::fact_taken))]
#[inline(always)]
fn take_short_fact(parts: &mut Numbers<'_>) -> Option<Fact>
    ensures found { IfSome result (λ f. TakesFact parts.old f parts.new) }
    ensures none { IfNone result (parts.new ≡ parts.old) }
{
    let (fact, rest) = read_fact_to::<Lf>(parts.rest()?, b' ')?;
    *parts = Numbers::new(rest);
    Some(fact)
}

/// Takes the next two words, and returns them as a fact.
#[inline(always)]
fn take_fact(parts: &mut Numbers<'_>) -> Option<Fact>
    ensures found { IfSome result (λ f. TakesFact parts.old f parts.new) }
    ensures none { IfNone result
        ((f : Fact) (rest : List (List ℕ)) → TakesFact parts.old f rest → ⊥) }
{
    if let Some(fact) = take_short_fact(parts) {
        return Some(fact);
    }
    let Some(var) = take_number(parts) else {
        return None;
    };
    let Some(value) = take_number(parts) else {
        return None;
    };
    Some(Fact { var, value })
}

/// Takes the next words as `count` facts. Returns whether they are facts. It doesn't allocate by `count`, since a line may have a large
/// count and few words.
fn take_facts(
    facts: &mut Items<Fact>,
    parts: &mut Numbers<'_>,
    count: u32,
) -> Result<bool, AllocError>
    ensures found { IfOk result
        (λ found. IsTrue found → TakesFacts parts.old count facts.new parts.new) }
    ensures none { IfOk result (λ found. found ≡ false
        → (facts : List Fact) (rest : List (List ℕ)) → TakesFacts parts.old count facts rest → ⊥) }
{
    facts.clear();
    for _i in 0..count {
        let Some(fact) = take_fact(parts) else {
            return Ok(false);
        };
        facts.push(fact)?;
    }
    Ok(true)
}

/// Takes the next three words, and returns them as a change.
fn take_change(parts: &mut Numbers<'_>) -> Option<Change>
    ensures found { IfSome result
        (λ (c : Change). TakesHead parts.old c.var c.old c.new parts.new) }
    ensures none { IfNone result ((var : ℕ) (old : Option ℕ) (new : ℕ) (rest : List (List ℕ))
        → TakesHead parts.old var old new rest → ⊥) }
{
    let Some(var) = take_number(parts) else {
        return None;
    };
    let Some(old) = take_signed(parts) else {
        return None;
    };
    let Some(new) = take_number(parts) else {
        return None;
    };
    Some(Change { var, old, new })
}

/// Returns whether no word is left.
fn is_over(parts: &mut Numbers<'_>) -> bool
    ensures { IsTrue result ↔ (parts.old ≡ []) }
{
    parts.next().is_none()
}

/// Returns the fact on the line, which need not exist. Returns `None` if the line has another form.
pub(crate) fn parse_fact(line: &[u8]) -> Option<Fact>
    ensures found { IfSome result (λ f. Spells (format.fact f) line.now) }
    ensures none { IfNone result ((f : Fact) → Spells (format.fact f) line.now → ⊥) }
{
    let mut parts = Numbers::new(line);
    let Some(fact) = take_fact(&mut parts) else {
        return None;
    };
    if is_over(&mut parts) {
        Some(fact)
    } else {
        None
    }
}

/// Reads the effect on the line, whose facts need not exist. Returns whether the line has the form of an effect.
pub(crate) fn parse_effect(effect: &mut Effect, line: &[u8]) -> Result<bool, AllocError>
    ensures found { IfOk result
        (λ found. IsTrue found → Spells (format.effect effect.exit.now) line.now) }
    ensures none { IfOk result
        (λ found. found ≡ false → (e : Effect) → Spells (format.effect e) line.now → ⊥) }
{
    let mut parts = Numbers::new(line);
    let Some(count) = take_number(&mut parts) else {
        return Ok(false);
    };
    if !take_facts(&mut effect.conditions, &mut parts, count)? {
        return Ok(false);
    }
    let Some(change) = take_change(&mut parts) else {
        return Ok(false);
    };
    effect.var = change.var;
    effect.old = change.old;
    effect.new = change.new;
    Ok(is_over(&mut parts))
}

/// Returns the change on the line, whose values need not exist. Returns `None` if the line has another form.
pub(crate) fn parse_change(line: &[u8]) -> Option<Change>
    ensures found { IfSome result
        (λ (c : Change). Spells (format.head c.var c.old c.new) line.now) }
    ensures none { IfNone result
        ((var : ℕ) (old : Option ℕ) (new : ℕ) → Spells (format.head var old new) line.now → ⊥) }
{
    let mut parts = Numbers::new(line);
    let Some(change) = take_change(&mut parts) else {
        return None;
    };
    if is_over(&mut parts) {
        Some(change)
    } else {
        None
    }
}

/// Returns whether the variable exists and has the value. `ranges` has the number of values of each variable.
pub fn value_in(ranges: &Items<u32>, var: u32, value: u32) -> bool
    ensures { result ≡ value_in ranges.now var value }
{
    match ranges.get(var as usize) {
        Some(&range) => value < range,
        None => false,
    }
}

/// Returns whether the variable exists and has the new value, and the old value, if any.
pub fn change_in(ranges: &Items<u32>, var: u32, old: Option<u32>, new: u32) -> bool
    ensures { result ≡ change_in_ranges ranges.now var old new }
{
    match old {
        Some(old) => value_in(ranges, var, old) && value_in(ranges, var, new),
        None => value_in(ranges, var, new),
    }
}

/// Returns whether all facts exist.
fn facts_in_ranges(ranges: &Items<u32>, facts: &Items<Fact>) -> bool
    ensures { result ≡ list_all (fact_in_ranges ranges.now) facts.now }
{
    facts
        .as_slice()
        .iter()
        .all(|fact| value_in(ranges, fact.var, fact.value))
}

/// Returns whether each fact of the effect exists.
fn effect_in_ranges(ranges: &Items<u32>, effect: &Effect) -> bool
    ensures { result ≡ effect_in_ranges ranges.now effect.now }
{
    facts_in_ranges(ranges, &effect.conditions)
        && change_in(ranges, effect.var, effect.old, effect.new)
}

/// Returns the fact on the line, or the kind of its fault: `Shape`, or `Value` if the fact doesn't exist.
fn fact_at(ranges: &Items<u32>, line: &[u8]) -> Result<Fact, Kind>
    ensures { ParsesLine format.fact_slot (λ i. fact_in_ranges ranges.now (fact_in i)) format.fact
        line.now result }
{
    match parse_fact(line) {
        None => Err(Kind::Shape),
        Some(fact) if value_in(ranges, fact.var, fact.value) => Ok(fact),
        Some(_) => Err(Kind::Value),
    }
}

/// Reads the effect on the line into `effect`, and reuses its memory. Returns the kind of fault: `Shape`, `Value` if a fact doesn't exist,
/// or `Memory` if out of memory.
fn effect_at(effect: &mut Effect, ranges: &Items<u32>, line: &[u8]) -> Result<(), Kind>
    ensures { ParsesLineOrMemory format.effect_slot (λ i. effect_in_ranges ranges.now (effect_in i))
        (λ _. format.effect effect.exit.now) line.now result }
{
    // The whole line is read before any fact is checked, since a wrong shape takes precedence over a fact that doesn't exist.
    let found = parse_effect(effect, line)?;
    if !found {
        return Err(Kind::Shape);
    }
    if !effect_in_ranges(ranges, effect) {
        return Err(Kind::Value);
    }
    Ok(())
}

/// Returns the head of a rule on the line, or the kind of its fault: `Shape`, or `Value` if a fact of it doesn't exist.
fn head_at(ranges: &Items<u32>, line: &[u8]) -> Result<Change, Kind>
    ensures { ParsesLine format.head_slot (λ i. head_in_ranges ranges.now (head_in i))
        (λ (c : Change). format.head c.var c.old c.new) line.now result }
{
    match parse_change(line) {
        None => Err(Kind::Shape),
        Some(change) if change_in(ranges, change.var, change.old, change.new) => Ok(change),
        Some(_) => Err(Kind::Value),
    }
}

impl LineValues {
    /// Parses a line on which this is expected. Returns the kind of its fault if it isn't that, or `Memory` if out of memory. `ranges` has
    /// the number of values of each variable.
    pub fn parse(&mut self, ranges: &Items<u32>, due: Due, line: &[u8]) -> Result<(), Kind>
        ensures { ParsesDue ranges.now due line.now self.new result }
    {
        match due {
            Due::Word(word) => word_at(line, word.bytes())?,
            Due::Name(_) | Due::Nothing => name_at(line)?,
            Due::Number { least, most, .. } => self.number = number_from(line, least, most)?,
            Due::Layer => self.layer = signed_at(line)?,
            Due::Fact => self.fact = fact_at(ranges, line)?,
            Due::Head => self.head = head_at(ranges, line)?,
            Due::Effect => effect_at(&mut self.effect, ranges, line)?,
        }
        Ok(())
    }
}
