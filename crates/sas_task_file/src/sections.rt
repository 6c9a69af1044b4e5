// Parses a whole operator or rule at the beginning of some bytes. Most of a large file consists of these. Everything else, and every fault,
// is left to the code that reads line by line.
ghost use Rattle.std.specs.Prelude.{◌≡◌, List, [], ◌∷◌, ◌++◌, codes, IsTrue, IfOk, IfSome};
ghost use Rattle.sas_core.specs.declared.parts.Fact.{Fact};
ghost use Rattle.sas_core.specs.declared.parts.Effect.{Effect};
ghost use Rattle.sas_core.specs.Names.{IsName};
ghost use Rattle.sas_flat.specs.Effects.{effect_with};
ghost use Rattle.sas_flat.specs.Growing.{Kept};
ghost use Rattle.sas_flat.specs.Operators.{operator};
ghost use Rattle.sas_task_file.specs.TaskFormat as format;
ghost use Rattle.sas_task_file.specs.Ahead.{EffectAhead, LinesBefore, FactsBefore, EffectsBefore};
ghost use Rattle.sas_task_file.specs.TaskRanges.{change_in_ranges};
ghost use Rattle.sas_task_file.specs.Sections.{OperatorAhead, RuleAhead};

use crate::ahead::{
    read_change, read_effect, read_fact, read_fact_to, read_name, read_number, read_word,
};
use crate::task_line::{change_in, value_in};
use sas_core::{Change, Fact, Items};
use sas_flat::Effects;
use sas_reader::{Front, LineEnd};
use std::alloc::AllocError;

/// The most facts that are read at once. Longer lists are often cut by the end of a piece, and the facts before the cut would then be read
/// twice. So they are read line by line.
const MOST_FACTS: u32 = 1024;

/// An operator at the beginning of some bytes: its name and cost, and its extent.
#[derive(Drop)]
pub struct ParsedOperator<'a> {
    pub name: &'a [u8],
    pub cost: u32,
    pub front: Front,
}

/// A rule at the beginning of some bytes: its head and its extent.
#[derive(Clone, Copy)]
pub struct ParsedRule {
    pub head: Change,
    pub front: Front,
}

/// Reads a count and this many facts, and appends these to `facts`. Returns the count and the bytes after them. Returns `None` if a fact
/// doesn't exist or the lines have another form. After `None` or `Err` some facts may have been appended.
#[inline(always)]
pub(crate) fn read_facts<'a, E: LineEnd>(
    ranges: &Items<u32>,
    bytes: &'a [u8],
    facts: &mut Vec<Fact>,
) -> Result<Option<(u32, &'a [u8])>, AllocError>
    ensures found { IfOk result (λ found. IfSome found (λ f.
        FactsBefore ranges.now f.0 f.0 facts.old.items facts.new.items bytes.now f.1.now)) }
    ensures kept { Kept facts.old.items facts.new.items }
{
    let Some((count, mut rest)) = read_number::<E>(bytes, b'\n') else {
        return Ok(None);
    };
    if count > MOST_FACTS {
        return Ok(None);
    }
    for _i in 0..count {
        let Some((fact, more)) = read_fact::<E>(rest) else {
            return Ok(None);
        };
        if !value_in(ranges, fact.var, fact.value) {
            return Ok(None);
        }
        facts.push(fact)?;
        rest = more;
    }
    Ok(Some((count, rest)))
}

/// Reads an effect whose facts exist, and stores its conditions in `conditions`. Returns its change and the bytes after its line. Returns
/// `None` if a fact doesn't exist or the line has another form. After `None` or `Err` the content of `conditions` is unspecified.
#[inline(always)]
fn read_any_effect<'a, E: LineEnd>(
    ranges: &Items<u32>,
    bytes: &'a [u8],
    conditions: &mut Vec<Fact>,
) -> Result<Option<(Change, &'a [u8])>, AllocError>
    ensures { IfOk result (λ found. IfSome found (λ f.
        EffectAhead ranges.now bytes.now (effect_with f.0 conditions.new.items) f.1.now)) }
{
    conditions.clear();
    let Some((count, mut rest)) = read_number::<E>(bytes, b' ') else {
        return Ok(None);
    };
    if count > MOST_FACTS {
        return Ok(None);
    }
    for _i in 0..count {
        let Some((fact, more)) = read_fact_to::<E>(rest, b' ') else {
            return Ok(None);
        };
        if !value_in(ranges, fact.var, fact.value) {
            return Ok(None);
        }
        conditions.push(fact)?;
        rest = more;
    }
    match read_change::<E>(rest) {
        Some((change, rest)) if change_in(ranges, change.var, change.old, change.new) => {
            Ok(Some((change, rest)))
        }
        _ => Ok(None),
    }
}

/// Reads an effect whose facts exist, and appends it to `effects`. Returns the bytes after its line. Returns `None` if a fact doesn't exist
/// or the line has another form. It isn't inlined, so that it takes no registers from the loop over effects without conditions.
#[inline(never)]
fn append_effect<'a, E: LineEnd>(
    ranges: &Items<u32>,
    bytes: &'a [u8],
    effects: &mut Effects,
    conditions: &mut Vec<Fact>,
) -> Result<Option<&'a [u8]>, AllocError>
    ensures found { IfOk result (λ found. IfSome found (λ rest. (e : Effect)
        × (effects.new ≡ effects.old ++ e ∷ []) × EffectAhead ranges.now bytes.now e rest.now)) }
    ensures kept { Kept effects.old effects.new }
{
    let Some((change, rest)) = read_any_effect::<E>(ranges, bytes, conditions)? else {
        return Ok(None);
    };
    effects.push(conditions.as_slice(), change)?;
    Ok(Some(rest))
}

/// Reads a count and this many effects, and appends these to `effects`. Returns the count and the bytes after them. Returns `None` if a
/// fact of an effect doesn't exist or the lines have another form. After `None` or `Err` some effects may have been appended. The content
/// of `conditions` is unspecified afterwards. It isn't inlined, so that its loop has all registers.
#[inline(never)]
fn read_effects<'a, E: LineEnd>(
    ranges: &Items<u32>,
    bytes: &'a [u8],
    effects: &mut Effects,
    conditions: &mut Vec<Fact>,
) -> Result<Option<(u32, &'a [u8])>, AllocError>
    ensures found { IfOk result (λ found. IfSome found (λ f.
        EffectsBefore ranges.now f.0 f.0 effects.old effects.new bytes.now f.1.now)) }
    ensures kept { Kept effects.old effects.new }
{
    let Some((count, mut rest)) = read_number::<E>(bytes, b'\n') else {
        return Ok(None);
    };
    for _i in 0..count {
        // Most effects have no conditions.
        let Some((change, more)) = read_effect::<E>(rest) else {
            let Some(more) = append_effect::<E>(ranges, rest, effects, conditions)? else {
                return Ok(None);
            };
            rest = more;
            continue;
        };
        if !change_in(ranges, change.var, change.old, change.new) {
            return Ok(None);
        }
        effects.push(&[], change)?;
        rest = more;
    }
    Ok(Some((count, rest)))
}

/// Reads the cost and the last word of an operator. Returns the cost and the bytes after the word.
#[inline(always)]
fn read_operator_end<E: LineEnd>(bytes: &[u8]) -> Option<(u32, &[u8])>
    ensures { IfSome result (λ found.
        LinesBefore (format.number found.0 ∷ format.word (codes "end_operator") ∷ [])
        bytes.now found.1.now) }
{
    let (cost, rest) = read_number::<E>(bytes, b'\n')?;
    let rest = read_word::<E, _>(rest, b"end_operator")?;
    Some((cost, rest))
}

/// Reads the first word and the name of an operator. Returns the name and the bytes after it.
#[inline(always)]
fn read_operator_begin<E: LineEnd>(bytes: &[u8]) -> Option<(&[u8], &[u8])>
    ensures { IfSome result (λ found. IsName found.0.now
        × LinesBefore (format.word (codes "begin_operator") ∷ format.name found.0.now ∷ [])
        bytes.now found.1.now) }
{
    let rest = read_word::<E, _>(bytes, b"begin_operator")?;
    read_name::<E>(rest)
}

/// Reads a whole operator at the beginning of the bytes, and appends its prevail conditions to `prevail` and its effects to `effects`.
/// Returns `None` if a fact doesn't exist or the lines have another form; then the operator has to be read line by line. After `None` or
/// `Err` some of them may have been appended. The content of `conditions` is unspecified afterwards.
#[inline(always)]
pub fn read_operator<'a, E: LineEnd>(
    ranges: &Items<u32>,
    bytes: &'a [u8],
    prevail: &mut Vec<Fact>,
    effects: &mut Effects,
    conditions: &mut Vec<Fact>,
) -> Result<Option<ParsedOperator<'a>>, AllocError>
    ensures found { IfOk result (λ found. IfSome found (λ f. (p : List Fact) × (e : List Effect)
        × (prevail.new.items ≡ prevail.old.items ++ p) × (effects.new ≡ effects.old ++ e)
        × OperatorAhead ranges.now bytes.now (operator f.name.now p e f.cost) f.front)) }
    ensures prevail { Kept prevail.old.items prevail.new.items }
    ensures effects { Kept effects.old effects.new }
{
    let Some((name, rest)) = read_operator_begin::<E>(bytes) else {
        return Ok(None);
    };
    let Some((facts, rest)) = read_facts::<E>(ranges, rest, prevail)? else {
        return Ok(None);
    };
    let Some((changed, rest)) = read_effects::<E>(ranges, rest, effects, conditions)? else {
        return Ok(None);
    };
    let Some((cost, rest)) = read_operator_end::<E>(rest) else {
        return Ok(None);
    };
    let front = Front {
        lines: 6 + facts as u64 + changed as u64,
        bytes: bytes.len() - rest.len(),
    };
    Ok(Some(ParsedOperator { name, cost, front }))
}

/// Reads the head and the last word of a rule. Returns the head, whose facts exist, and the bytes after the word.
#[inline(always)]
fn head_before<'a, E: LineEnd>(ranges: &Items<u32>, bytes: &'a [u8]) -> Option<(Change, &'a [u8])>
    ensures { IfSome result (λ found.
        IsTrue (change_in_ranges ranges.now found.0.var found.0.old found.0.new)
        × LinesBefore (format.head found.0.var found.0.old found.0.new
        ∷ format.word (codes "end_rule") ∷ []) bytes.now found.1.now) }
{
    let (head, rest) = read_change::<E>(bytes)?;
    if !change_in(ranges, head.var, head.old, head.new) {
        return None;
    }
    let rest = read_word::<E, _>(rest, b"end_rule")?;
    Some((head, rest))
}

/// Reads a whole rule at the beginning of the bytes, and appends its conditions to `conditions`. Returns `None` if a fact doesn't exist or
/// the lines have another form; then the rule has to be read line by line. After `None` or `Err` some
/// conditions may have been appended.
#[inline(always)]
pub fn read_rule<E: LineEnd>(
    ranges: &Items<u32>,
    bytes: &[u8],
    conditions: &mut Vec<Fact>,
) -> Result<Option<ParsedRule>, AllocError>
    ensures found { IfOk result (λ found. IfSome found (λ f. (c : List Fact)
        × (conditions.new.items ≡ conditions.old.items ++ c)
        × RuleAhead ranges.now bytes.now (effect_with f.head c) f.front)) }
    ensures kept { Kept conditions.old.items conditions.new.items }
{
    let Some(rest) = read_word::<E, _>(bytes, b"begin_rule") else {
        return Ok(None);
    };
    let Some((count, rest)) = read_facts::<E>(ranges, rest, conditions)? else {
        return Ok(None);
    };
    let Some((head, rest)) = head_before::<E>(ranges, rest) else {
        return Ok(None);
    };
    let front = Front {
        lines: 4 + count as u64,
        bytes: bytes.len() - rest.len(),
    };
    Ok(Some(ParsedRule { head, front }))
}
